//! References: characters by name or number.
ghost use Rattle.ng_tags.specs.References as refs;
ghost use Rattle.std.specs.Prelude.{◌≡◌, ◌≤◌, ◌<◌, ◌∷◌, [], Some, None, true, IfOk, if◌then◌else◌};

use crate::base::Base;
use crate::skips::past;
use ng_base::reader::Reader;
use ng_base::txt::Txt;
use std::alloc::{AllocError, Global};

/// What a reference reads as, and what is left. No character is a reference that is refused.
pub type Read<'a> = (Option<char>, Reader<'a>);

/// The character of a name.
#[tactic(auto, unfolding(crate::specs::References::named_character))]
fn named_character(name: &Txt) -> Option<char>
    ensures { result ≡ refs.named_character name.now }
{
    if name.is_word("amp") {
        Some('&')
    } else if name.is_word("lt") {
        Some('<')
    } else if name.is_word("gt") {
        Some('>')
    } else if name.is_word("quot") {
        Some('"')
    } else if name.is_word("apos") {
        Some('\'')
    } else if name.is_word("nbsp") {
        Some('\u{a0}')
    } else if name.is_word("copy") {
        Some('\u{a9}')
    } else if name.is_word("reg") {
        Some('\u{ae}')
    } else if name.is_word("deg") {
        Some('\u{b0}')
    } else if name.is_word("middot") {
        Some('\u{b7}')
    } else if name.is_word("laquo") {
        Some('\u{ab}')
    } else if name.is_word("raquo") {
        Some('\u{bb}')
    } else if name.is_word("times") {
        Some('\u{d7}')
    } else if name.is_word("ndash") {
        Some('\u{2013}')
    } else if name.is_word("mdash") {
        Some('\u{2014}')
    } else if name.is_word("lsquo") {
        Some('\u{2018}')
    } else if name.is_word("rsquo") {
        Some('\u{2019}')
    } else if name.is_word("ldquo") {
        Some('\u{201c}')
    } else if name.is_word("rdquo") {
        Some('\u{201d}')
    } else if name.is_word("bull") {
        Some('\u{2022}')
    } else if name.is_word("hellip") {
        Some('\u{2026}')
    } else if name.is_word("euro") {
        Some('\u{20ac}')
    } else if name.is_word("trade") {
        Some('\u{2122}')
    } else if name.is_word("larr") {
        Some('\u{2190}')
    } else if name.is_word("uarr") {
        Some('\u{2191}')
    } else if name.is_word("rarr") {
        Some('\u{2192}')
    } else if name.is_word("darr") {
        Some('\u{2193}')
    } else {
        None
    }
}

/// The letters of a name, of which this stands before.
fn read_letters<'a>(mut name: Txt, mut reader: Reader<'a>) -> Result<(Txt, Reader<'a>), AllocError>
    ensures { IfOk result (λ r. r ≡ refs.letter_run name reader.entry) }
{
    while let Some((c, _, rest)) = reader.first() {
        if !c.is_ascii_alphabetic() {
            return Ok((name, reader));
        }
        name.push(c)?;
        reader = rest;
    }
    Ok((name, reader))
}

/// A name that begins with a letter, and its `;`.
fn read_named<'a>(
    alloc: Global,
    c: char,
    reader: Reader<'a>,
) -> Result<Option<Read<'a>>, AllocError>
    ensures { IfOk result (λ r. r ≡ refs.name_from (refs.letter_run (c ∷ []) reader.entry)) }
{
    let mut name = Txt::new(alloc);
    name.push(c)?;
    let (name, rest) = read_letters(name, reader)?;
    match past(';', &rest) {
        None => Ok(None),
        Some(rest) => match named_character(&name) {
            None => Ok(None),
            Some(c) => Ok(Some((Some(c), rest))),
        },
    }
}

/// Whether it is a digit of the base.
fn digit_of(base: Base, c: char) -> bool
    ensures { result ≡ refs.is_digit_of base c }
{
    let n = c as u32;
    match base {
        Base::Decimal => c.is_ascii_digit(),
        Base::Hexadecimal => c.is_ascii_digit() || (65 <= n && n <= 70) || (97 <= n && n <= 102),
    }
}

/// The value of a digit.
fn digit_value(base: Base, c: char) -> u32
    requires { refs.is_digit_of base c ≡ true }
    ensures value { result ≡ refs.digit_value c }
    ensures low { result < 16 }
{
    let n = c as u32;
    if n <= 57 {
        n - 48
    } else if n <= 70 {
        n - 55
    } else {
        n - 87
    }
}

/// One digit more.
fn with_digit(base: Base, n: u32, v: u32) -> u32
    requires before { n ≤ refs.too_large }
    requires digit { v < 16 }
    ensures value { result ≡ refs.with_digit base n v }
    ensures low { result ≤ refs.too_large }
{
    let more = match base {
        Base::Decimal => 10 * n + v,
        Base::Hexadecimal => 16 * n + v,
    };
    more.min(0x11_0000)
}

/// The value of the digits at the front.
fn read_digits(base: Base, mut reader: Reader<'_>) -> (u32, Reader<'_>)
    ensures value { result ≡ refs.digit_run base 0 reader.entry }
    ensures low { result.0 ≤ refs.too_large }
{
    let mut n = 0;
    while let Some((c, _, rest)) = reader.first() {
        if !digit_of(base, c) {
            return (n, reader);
        }
        n = with_digit(base, n, digit_value(base, c));
        reader = rest;
    }
    (n, reader)
}

/// The character of a number, if it has one that may be written so.
fn numbered_character(n: u32) -> Option<char>
    ensures { result ≡ (if refs.is_character n then Some n else None) }
{
    if n == 0 || (0x80 <= n && n <= 0x9f) {
        return None;
    }
    char::from_u32(n)
}

/// A number, if a digit stands first.
fn read_number(base: Base, reader: Reader<'_>) -> Option<Read<'_>>
    ensures { result ≡ refs.number_at base reader.entry }
{
    let (c, _, _) = reader.first()?;
    if !digit_of(base, c) {
        return None;
    }
    let (n, rest) = read_digits(base, reader);
    match past(';', &rest) {
        None => Some((None, rest)),
        Some(rest) => Some((numbered_character(n), rest)),
    }
}

/// What stands behind `&#`.
fn behind_sign(reader: Reader<'_>) -> Option<Read<'_>>
    ensures { result ≡ refs.behind_sign reader.entry }
{
    let (c, _, rest) = reader.first()?;
    if c == 'x' {
        read_number(Base::Hexadecimal, rest)
    } else {
        read_number(Base::Decimal, reader)
    }
}

/// The reference behind an `&`, if there is one.
fn read_reference<'a>(alloc: Global, reader: &Reader<'a>) -> Result<Option<Read<'a>>, AllocError>
    ensures { IfOk result (λ r. r ≡ refs.reference reader.now) }
{
    match reader.first() {
        None => Ok(None),
        Some((c, _, rest)) => {
            if c == '#' {
                Ok(behind_sign(rest))
            } else if c.is_ascii_alphabetic() {
                read_named(alloc, c, rest)
            } else {
                Ok(None)
            }
        }
    }
}

/// What a text reads as that begins with this character, up to the next one.
pub fn read_character<'a>(
    alloc: Global,
    c: char,
    reader: Reader<'a>,
) -> Result<Read<'a>, AllocError>
    ensures { IfOk result (λ r. r ≡ refs.character c reader.entry) }
{
    if c != '&' {
        return Ok((Some(c), reader));
    }
    match read_reference(alloc, &reader)? {
        None => Ok((Some('&'), reader)),
        Some(read) => Ok(read),
    }
}
