//! Texts with their ASCII letters in one case.
ghost use Rattle.std.specs.Prelude.{◌≡◌, map, IfOk};
ghost use Rattle.std.specs.Char.{to_ascii_lowercase, to_ascii_uppercase};

use crate::reader::Plain;
use crate::txt::Txt;
use std::alloc::{AllocError, Global};

/// A text with its ASCII letters in upper case.
pub fn upper(alloc: Global, text: &Txt) -> Result<Txt, AllocError>
    ensures { IfOk result (λ t. t ≡ map to_ascii_uppercase text.now) }
{
    let mut done = Txt::new(alloc);
    let mut reader = Plain::new(text.as_str());
    while let Some(c) = reader.next() {
        done.push(c.to_ascii_uppercase())?;
    }
    Ok(done)
}

/// A text with its ASCII letters in lower case.
pub fn lower(alloc: Global, text: &Txt) -> Result<Txt, AllocError>
    ensures { IfOk result (λ t. t ≡ map to_ascii_lowercase text.now) }
{
    let mut done = Txt::new(alloc);
    let mut reader = Plain::new(text.as_str());
    while let Some(c) = reader.next() {
        done.push(c.to_ascii_lowercase())?;
    }
    Ok(done)
}
