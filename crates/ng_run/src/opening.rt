//! The step that opens a page.
ghost use Rattle.std.specs.Prelude.{IfOk};
ghost use Rattle.ng_inputs.specs.Acts.{AreSound};
ghost use Rattle.ng_inputs.specs.InputsOf.{accepted_of};
ghost use Rattle.ng_run.specs.ReplyOf.{IsPageTo};
ghost use Rattle.ng_run.specs.Session.{Runs};

use ng_base::fault::Memory;
use ng_inputs::refusal::Accepted;
use ng_page::page::Page;
use ng_printing::reply::Opened;
use ng_printing::step::step;
use ng_words::words::Flags;
use std::alloc::Global;

/// Opens the page, and tells what its step prints.
pub(crate) fn open(alloc: Global, flags: Flags, accepted: Accepted) -> Result<Opened, Memory>
    requires sound { AreSound (accepted_of accepted).commands }
    ensures { IfOk result (λ o. IsPageTo (λ e r. Runs e flags.trace (accepted_of accepted) r) o) }
{
    let Accepted {
        app,
        template,
        commands,
    } = accepted;
    let (page, outcome) = Page::start(alloc, template, app)?;
    let header = Vec::from_slice(alloc, "# 0 open\n".as_bytes())?;
    let step = step(alloc, flags, header, &page, &outcome)?;
    Ok(Opened {
        page,
        step,
        commands,
        flags,
    })
}
