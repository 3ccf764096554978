//! Reading a binding from its front.
ghost use Rattle.std.specs.Prelude.{◌≡◌, ◌∷◌, [], Some, None, IsTrue, MatchOption, IfOk};
ghost use Rattle.ng_base.specs.Meets.{Meets};
ghost use Rattle.ng_bind.specs.Reading.{is_free, mode_at, mark_in, name_in, name_run, attr_of, spec_after, spec_in};
ghost use Rattle.ng_language.specs.OneTime.{without_front};

use crate::spec::{BindFault, BindMode, Spec};
use ng_base::reader::Plain;
use ng_base::trimming::past;
use ng_base::txt::Txt;
use ng_lex::letters::{WhiteSpace, in_name};
use std::alloc::{AllocError, Global};

/// The mode of its mark.
fn mode_at(c: char) -> Option<BindMode>
    ensures { result ≡ mode_at c }
{
    match c {
        '@' => Some(BindMode::AtText),
        '=' => Some(BindMode::TwoWay),
        '<' => Some(BindMode::OneWay),
        '&' => Some(BindMode::Call),
        _ => None,
    }
}

/// Whether a question mark stands next, and what stands after it and after the white space there.
fn read_mark(reader: Plain<'_>) -> (bool, Plain<'_>)
    ensures { result ≡ mark_in reader.entry }
{
    match reader.first() {
        Some((c, rest)) if c == '?' => (true, past::<WhiteSpace>(rest)),
        _ => (false, reader),
    }
}

/// The longest name, which may be empty, and what stands after it.
fn read_name(alloc: Global, mut reader: Plain<'_>) -> Result<(Txt, Plain<'_>), AllocError>
    ensures { IfOk result (λ r. r ≡ name_in reader.entry) }
{
    let mut name = Txt::new(alloc);
    while let Some((c, rest)) = reader.first() {
        if !in_name(c) {
            return Ok((name, reader));
        }
        name.push(c)?;
        reader = rest;
    }
    Ok((name, reader))
}

/// The attribute of a name: none where that is empty.
fn attr_of(name: Txt) -> Option<Txt>
    ensures { result ≡ attr_of name }
{
    if name.is_empty() { None } else { Some(name) }
}

/// The binding of a mode, from what stands after it.
fn read_after(alloc: Global, mode: BindMode, reader: Plain<'_>) -> Result<Spec, BindFault>
    ensures { Meets is_free (spec_after mode reader.entry) result }
{
    let (optional, rest) = read_mark(past::<WhiteSpace>(reader));
    let (name, rest) = read_name(alloc, rest)?;
    match past::<WhiteSpace>(rest).first() {
        Some(_) => Err(BindFault::BadBinding),
        None => Ok(Spec {
            mode,
            optional,
            attr: attr_of(name),
        }),
    }
}

/// Reads a binding.
pub(crate) fn spec_in(alloc: Global, reader: Plain<'_>) -> Result<Spec, BindFault>
    ensures { Meets is_free (spec_in reader.entry) result }
{
    let Some((c, rest)) = past::<WhiteSpace>(reader).first() else {
        return Err(BindFault::BadBinding);
    };
    match mode_at(c) {
        None => Err(BindFault::BadBinding),
        Some(mode) => read_after(alloc, mode, rest),
    }
}
