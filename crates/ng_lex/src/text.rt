//! Texts in quotes.
ghost use Rattle.ng_base.specs.Cells.{place};
ghost use Rattle.ng_base.specs.Meets.{Gives};
ghost use Rattle.ng_language.specs.Letters.{is_hex};
ghost use Rattle.ng_language.specs.Lexing.{is_closed, refusal, hex_step, scalar, unicode, escape, character, text_run, text_at, is_free};
ghost use Rattle.ng_language.specs.declared.syntax.LexKind.TheVariants.{BadEscape};
ghost use Rattle.std.specs.Prelude.{◌≡◌, ◌∷◌, ◌≤◌, ◌<◌, ◌+◌, ◌*◌, [], length, IfOk, false, suc};

use crate::letters::{escaped, hex, hex_value};
use ng_base::reader::Plain;
use ng_base::txt::Txt;
use ng_language::syntax::{LexFault, LexKind, Token};
use std::alloc::Global;

/// Whether the text has its end.
fn closed(quote: char, mut reader: Plain<'_>) -> bool
    ensures { result ≡ is_closed quote false reader.entry }
{
    let mut behind = false;
    while let Some((c, rest)) = reader.first() {
        if behind {
            behind = false;
        } else if c == quote {
            return true;
        } else {
            behind = c == '\\';
        }
        reader = rest;
    }
    false
}

fn bad(place: u64) -> LexFault
    ensures { result ≡ refusal BadEscape place }
{
    LexFault {
        place,
        kind: LexKind::BadEscape,
    }
}

/// One hexadecimal digit more.
fn read_hex<'a>(place: u64, n: u32, reader: Plain<'a>) -> Result<(u32, Plain<'a>), LexFault>
    requires { n < 4096 }
    ensures read { Gives is_free (λ r. r) (hex_step place n reader.entry) result }
    ensures low { IfOk result (λ r. r.0 < 16 * n + 16) }
    ensures less { IfOk result (λ r. length r.1 ≤ length reader.entry) }
{
    match reader.first() {
        Some((c, rest)) if hex(c) => Ok((16 * n + hex_value(c), rest)),
        _ => Err(bad(place)),
    }
}

/// The character of a number, if there is one.
fn read_scalar<'a>(place: u64, n: u32, reader: Plain<'a>) -> Result<(char, Plain<'a>), LexFault>
    requires { n < 65536 }
    ensures read { Gives is_free (λ r. r) (scalar place (n, reader.entry)) result }
    ensures less { IfOk result (λ r. length r.1 ≤ length reader.entry) }
{
    match char::from_u32(n) {
        Some(c) => Ok((c, reader)),
        None => Err(bad(place)),
    }
}

/// A character that is written by four hexadecimal digits.
fn read_unicode<'a>(place: u64, reader: Plain<'a>) -> Result<(char, Plain<'a>), LexFault>
    ensures read { Gives is_free (λ r. r) (unicode place reader.entry) result }
    ensures less { IfOk result (λ r. length r.1 ≤ length reader.entry) }
{
    let (a, rest) = read_hex(place, 0, reader)?;
    let (b, rest) = read_hex(place, a, rest)?;
    let (c, rest) = read_hex(place, b, rest)?;
    let (d, rest) = read_hex(place, c, rest)?;
    read_scalar(place, d, rest)
}

/// What stands behind a `\\`.
fn read_escape<'a>(place: u64, reader: Plain<'a>) -> Result<(char, Plain<'a>), LexFault>
    ensures read { Gives is_free (λ r. r) (escape place reader.entry) result }
    ensures less { IfOk result (λ r. length r.1 ≤ length reader.entry) }
{
    match reader.first() {
        None => Err(bad(place)),
        Some((c, rest)) => {
            if c == 'u' {
                read_unicode(place, rest)
            } else {
                Ok((escaped(c), rest))
            }
        }
    }
}

/// A character of a text, which begins so at a place.
fn read_character<'a>(place: u64, c: char, reader: Plain<'a>) -> Result<(char, Plain<'a>), LexFault>
    ensures read { Gives is_free (λ r. r) (character place c reader.entry) result }
    ensures less { IfOk result (λ r. length r.1 ≤ length reader.entry) }
{
    if c == '\\' {
        read_escape(place, reader)
    } else {
        Ok((c, reader))
    }
}

/// The place of what is left, in a text of so many bytes.
pub fn place_of(total: usize, reader: &Plain<'_>) -> u64
    ensures { result ≡ place total reader.now }
{
    total.saturating_sub(reader.left()) as u64
}

/// The characters of a text up to its end, of which there is one.
fn read_characters<'a>(
    alloc: Global,
    total: usize,
    quote: char,
    mut reader: Plain<'a>,
) -> Result<(Token, Plain<'a>), LexFault>
    ensures read { Gives is_free (λ r. r) (text_run total (suc (length reader.entry)) quote [] reader.entry) result }
    ensures less { IfOk result (λ r. length r.1 ≤ length reader.entry) }
{
    let mut text = Txt::new(alloc);
    while let Some((c, rest)) = reader.first() {
        if c == quote {
            return Ok((Token::Text(text), rest));
        }
        let place = place_of(total, &reader);
        let (c, rest) = read_character(place, c, rest)?;
        text.push(c)?;
        reader = rest;
    }
    Err(LexFault {
        place: 0,
        kind: LexKind::OpenText,
    })
}

/// A text that begins with this quote.
pub fn read_text<'a>(
    alloc: Global,
    total: usize,
    place: u64,
    quote: char,
    reader: Plain<'a>,
) -> Result<(Token, Plain<'a>), LexFault>
    ensures read { Gives is_free (λ r. r) (text_at total place quote reader.entry) result }
    ensures less { IfOk result (λ r. length r.1 ≤ length reader.entry) }
{
    if closed(quote, Plain::new(reader.rest())) {
        read_characters(alloc, total, quote, reader)
    } else {
        Err(LexFault {
            place,
            kind: LexKind::OpenText,
        })
    }
}
