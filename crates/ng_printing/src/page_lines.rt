//! The lines that show a page.
ghost use Rattle.std.specs.Prelude.{◌≡◌, IfOk};
ghost use Rattle.ng_html.specs.Seen.{forest_of};
ghost use Rattle.ng_link.specs.State.{shown, rendering};
ghost use Rattle.ng_page.specs.PageOf.{state_of};
ghost use Rattle.ng_printing.specs.Lines.{print_line, rendered_line};
ghost use Rattle.ng_page.specs.Ready.{IsReady};

use ng_base::fault::{Fault, Memory};
use ng_html::forest::Forest;
use ng_html::write;
use ng_page::page::Page;
use std::alloc::Global;

/// The document on one line.
pub(crate) fn shown_line(alloc: Global, page: &Page) -> Result<Vec<u8>, Memory>
    requires { IsReady page.now }
    ensures { IfOk result (λ v. v.items ≡ print_line (shown (state_of page.now))) }
{
    let mut bytes = Vec::new(alloc);
    page.print(&mut bytes)?;
    bytes.extend_from_slice("\n".as_bytes())?;
    Ok(bytes)
}

/// A document that was computed afresh, on one line.
fn forest_line(alloc: Global, document: &Forest) -> Result<Vec<u8>, Memory>
    ensures { IfOk result (λ v. v.items ≡ print_line (forest_of document.now)) }
{
    let mut bytes = Vec::new(alloc);
    write(document, &mut bytes)?;
    bytes.extend_from_slice("\n".as_bytes())?;
    Ok(bytes)
}

/// The rendering on one line, where there is one.
pub(crate) fn static_line(alloc: Global, page: &Page) -> Result<Vec<u8>, Memory>
    requires { IsReady page.now }
    ensures { IfOk result (λ v. v.items ≡ rendered_line (rendering (state_of page.now))) }
{
    match page.rendered() {
        Ok(Some(document)) => forest_line(alloc, &document),
        Ok(None) => Ok(Vec::new(alloc)),
        Err(Fault::Memory(memory)) => Err(memory),
        Err(_) => Ok(Vec::new(alloc)),
    }
}
