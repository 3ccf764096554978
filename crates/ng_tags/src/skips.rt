//! What is passed by at the front of a text, and names of elements.
ghost use Rattle.ng_tags.specs.Skips as skips;
ghost use Rattle.std.specs.Prelude.{◌≡◌, IfOk};

use crate::letters::{in_name, lower, space};
use ng_base::reader::Reader;
use ng_base::txt::Txt;
use std::alloc::AllocError;

/// Behind the white space at the front.
pub fn past_spaces(mut reader: Reader<'_>) -> Reader<'_>
    ensures { result ≡ skips.past_spaces reader.entry }
{
    while let Some((c, _, rest)) = reader.first() {
        if !space(c) {
            return reader;
        }
        reader = rest;
    }
    reader
}

/// Behind a character, if it stands first.
pub fn past<'a>(sign: char, reader: &Reader<'a>) -> Option<Reader<'a>>
    ensures { result ≡ skips.past sign reader.now }
{
    match reader.first() {
        Some((c, _, rest)) if c == sign => Some(rest),
        _ => None,
    }
}

/// Behind a word in small letters, if it stands first, in small or capital letters.
pub fn past_word<'a>(word: &[char], mut reader: Reader<'a>) -> Option<Reader<'a>>
    ensures { result ≡ skips.past_word word.now reader.entry }
{
    for w in word {
        let (c, _, rest) = reader.first()?;
        if lower(c) != *w {
            return None;
        }
        reader = rest;
    }
    Some(reader)
}

/// A name of which this stands before, in small letters.
pub fn read_name<'a>(mut name: Txt, mut reader: Reader<'a>) -> Result<(Txt, Reader<'a>), AllocError>
    ensures { IfOk result (λ r. r ≡ skips.name_run name reader.entry) }
{
    while let Some((c, _, rest)) = reader.first() {
        if !in_name(c) {
            return Ok((name, reader));
        }
        name.push(lower(c))?;
        reader = rest;
    }
    Ok((name, reader))
}

/// The place of what is left, in a text of so many bytes.
pub fn place_in(total: usize, reader: &Reader<'_>) -> usize
    ensures { result ≡ skips.place_in total reader.now }
{
    match reader.first() {
        None => total,
        Some((_, place, _)) => place,
    }
}
