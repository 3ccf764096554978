//! How a primitive matches a pattern that is one: by its text, whatever the case of its letters.
ghost use Rattle.std.specs.Prelude.{◌≡◌, IfOk, IfErr};
ghost use Rattle.ng_base.specs.declared.fault.Memory.TheVariants.{Refused};
ghost use Rattle.ng_filters.specs.Casing.{lower};
ghost use Rattle.ng_filters.specs.Matching.{begins, contains, side_of, alone_matches};
ghost use Rattle.ng_filters.specs.Seen.{seen};
ghost use Rattle.ng_filters.specs.declared.primitives.Side.TheVariants.{Shown};
ghost use Rattle.ng_language.specs.Texts.{text_of};

use crate::view_ref::ViewRef;
use ng_base::fault::Memory;
use ng_base::reader::Plain;
use ng_base::txt::Txt;
use std::alloc::Global;

/// Whether a text begins with a part.
fn begins(text: &Plain<'_>, part: &Plain<'_>) -> bool
    ensures { result ≡ begins (lower text.now) (lower part.now) }
{
    let mut left = Plain::new(text.rest());
    let mut wanted = Plain::new(part.rest());
    while let Some((d, others)) = wanted.first() {
        let Some((c, rest)) = left.first() else {
            return false;
        };
        if c.to_ascii_lowercase() != d.to_ascii_lowercase() {
            return false;
        }
        left = rest;
        wanted = others;
    }
    true
}

/// Whether a text contains a part.
fn contains(text: &Txt, part: &Txt) -> bool
    ensures { result ≡ contains (lower text.now) (lower part.now) }
{
    let part = Plain::new(part.as_str());
    let mut left = Plain::new(text.as_str());
    while let Some((_, rest)) = left.first() {
        if begins(&left, &part) {
            return true;
        }
        left = rest;
    }
    begins(&left, &part)
}

/// What a value is where texts are compared.
#[derive(Clone, Copy, Debug, PartialEq, Eq)]
pub(crate) enum Side {
    Never,
    Null,
    Shown,
}

fn side_of(v: ViewRef<'_>) -> Side
    ensures { result ≡ side_of (seen v.entry) }
{
    match v {
        ViewRef::Undefined => Side::Never,
        ViewRef::Null => Side::Null,
        ViewRef::Obj(_) => Side::Never,
        ViewRef::Fun(_) => Side::Never,
        ViewRef::List(_) => Side::Never,
        ViewRef::Rec(_) => Side::Never,
        _ => Side::Shown,
    }
}

/// The text of a value that is shown.
fn text_of(alloc: Global, v: ViewRef<'_>) -> Result<Txt, Memory>
    requires { side_of (seen v) ≡ Shown }
    ensures text { IfOk result (λ t. t ≡ text_of (seen v.entry)) }
    ensures refused { IfErr result (λ e. e ≡ Refused) }
{
    let mut out = Txt::new(alloc);
    match v {
        ViewRef::Bool(b) => out.push_word(if b { "true" } else { "false" })?,
        ViewRef::Int(n) => out.push_signed(n)?,
        ViewRef::Length(n) => out.push_number(n as u64)?,
        ViewRef::Nan => out.push_word("NaN")?,
        ViewRef::Text(t) => out.push_txt(t)?,
        _ => unreachable!(),
    }
    Ok(out)
}

/// Whether a primitive matches a pattern.
pub(crate) fn alone_matches(alloc: Global, v: ViewRef<'_>, p: ViewRef<'_>) -> Result<bool, Memory>
    ensures found { IfOk result (λ found. found ≡ alone_matches (seen v.entry) (seen p.entry)) }
    ensures refused { IfErr result (λ e. e ≡ Refused) }
{
    match (side_of(v), side_of(p)) {
        (Side::Never, _) => Ok(false),
        (_, Side::Never) => Ok(false),
        (Side::Null, Side::Null) => Ok(true),
        (Side::Null, _) => Ok(false),
        (_, Side::Null) => Ok(false),
        (Side::Shown, Side::Shown) => {
            let text = text_of(alloc, v)?;
            let part = text_of(alloc, p)?;
            Ok(contains(&text, &part))
        }
    }
}
