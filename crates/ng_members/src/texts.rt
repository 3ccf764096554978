//! The methods of texts.
ghost use Rattle.std.specs.Prelude.{◌≡◌, [], IfOk};
ghost use Rattle.std.specs.Char.{is_ascii_whitespace};
ghost use Rattle.ng_base.specs.Trimming.{trimmed};
ghost use Rattle.ng_base.specs.ViewOf.{view_of};
ghost use Rattle.ng_members.specs.Methods.{text_in, begins_with, found_from};

use ng_base::fault::Memory;
use ng_base::reader::Plain;
use ng_base::trimming::{AsciiSpace, trim as without_spaces};
use ng_base::txt::Txt;
use ng_base::value::Value;
use ng_base::view::View;
use std::alloc::Global;

/// A text, or the empty text.
pub fn text_in<'a>(v: &'a View, empty: &'a Txt) -> &'a Txt
    requires { empty.now ≡ [] }
    ensures { result.now ≡ text_in (view_of v.now) }
{
    match v {
        View::Prim(Value::Text(t)) => t,
        _ => empty,
    }
}

/// Whether a text begins with another.
fn begins_with(text: &Plain<'_>, start: &Txt) -> bool
    ensures { result ≡ begins_with start.now text.now }
{
    let mut rest = Plain::new(text.rest());
    let mut left = Plain::new(start.as_str());
    while let Some((d, behind)) = left.first() {
        let Some((c, others)) = rest.first() else {
            return false;
        };
        if c != d {
            return false;
        }
        left = behind;
        rest = others;
    }
    true
}

/// The first place where a text stands in another.
pub fn find(text: &Txt, wanted: &Txt) -> Result<Option<usize>, Memory>
    ensures { IfOk result (λ place. place ≡ found_from wanted.now 0 text.now) }
{
    let mut rest = Plain::new(text.as_str());
    let mut n: usize = 0;
    while let Some((_, behind)) = rest.first() {
        if begins_with(&rest, wanted) {
            return Ok(Some(n));
        }
        let Some(next) = n.checked_add(1) else {
            return Err(Memory::Worn);
        };
        n = next;
        rest = behind;
    }
    if begins_with(&rest, wanted) {
        Ok(Some(n))
    } else {
        Ok(None)
    }
}

/// A text without outer white space.
pub fn trim(alloc: Global, text: &Txt) -> Result<Txt, Memory>
    ensures { IfOk result (λ t. t ≡ trimmed is_ascii_whitespace text.now) }
{
    Ok(Txt::from_str(alloc, without_spaces::<AsciiSpace>(text.as_str()))?)
}
