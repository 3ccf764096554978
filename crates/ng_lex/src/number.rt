//! Names and numbers.
ghost use Rattle.ng_base.specs.Meets.{Gives};
ghost use Rattle.std.specs.Char.{is_ascii_digit};
ghost use Rattle.ng_language.specs.Lexing.{name_run, digit_run, with_digit, ends_number, number, is_free};
ghost use Rattle.std.specs.Prelude.{◌≡◌, ◌∷◌, ◌≤◌, ◌-◌, [], length, IfOk, true};

use crate::letters::{goes_on, in_name};
use ng_base::reader::Plain;
use ng_base::txt::Txt;
use ng_language::syntax::{LexFault, LexKind, Token};
use std::alloc::{AllocError, Global};

/// The largest number.
const LARGEST: u64 = 9_007_199_254_740_991;

/// A name that begins so.
pub fn read_name<'a>(
    alloc: Global,
    c: char,
    mut reader: Plain<'a>,
) -> Result<(Txt, Plain<'a>), AllocError>
    ensures read { IfOk result (λ r. r ≡ name_run (c ∷ []) reader.entry) }
    ensures less { IfOk result (λ r. length r.1 ≤ length reader.entry) }
{
    let mut name = Txt::new(alloc);
    name.push(c)?;
    while let Some((c, rest)) = reader.first() {
        if !in_name(c) {
            return Ok((name, reader));
        }
        name.push(c)?;
        reader = rest;
    }
    Ok((name, reader))
}

/// One digit more; a number that is too large stays where it is.
fn longer(n: u64, c: char) -> u64
    requires low { n ≤ 90071992547409919 }
    requires digit { is_ascii_digit c ≡ true }
    ensures value { result ≡ with_digit n c }
    ensures low { result ≤ 90071992547409919 }
{
    if n <= LARGEST {
        10 * n + (c as u64 - 48)
    } else {
        n
    }
}

/// The digits behind one that is read.
fn read_digits<'a>(first: char, mut reader: Plain<'a>) -> (u64, Plain<'a>)
    requires { is_ascii_digit first ≡ true }
    ensures read { result ≡ digit_run (first - 48) reader.entry }
    ensures less { length result.1 ≤ length reader.entry }
{
    let mut n = first as u64 - 48;
    while let Some((c, rest)) = reader.first() {
        if !c.is_ascii_digit() {
            return (n, reader);
        }
        n = longer(n, c);
        reader = rest;
    }
    (n, reader)
}

/// Whether no point and no exponent stands next.
fn ended(reader: &Plain<'_>) -> bool
    ensures { result ≡ ends_number reader.now }
{
    match reader.first() {
        None => true,
        Some((c, _)) => !goes_on(c),
    }
}

/// A number that begins so.
pub fn read_number<'a>(
    place: u64,
    first: char,
    reader: Plain<'a>,
) -> Result<(Token, Plain<'a>), LexFault>
    requires { is_ascii_digit first ≡ true }
    ensures read { Gives is_free (λ r. r) (number place (digit_run (first - 48) reader.entry)) result }
    ensures less { IfOk result (λ r. length r.1 ≤ length reader.entry) }
{
    let (n, rest) = read_digits(first, reader);
    if n > LARGEST {
        return Err(LexFault {
            place,
            kind: LexKind::BigNumber,
        });
    }
    if !ended(&rest) {
        return Err(LexFault {
            place,
            kind: LexKind::Fraction,
        });
    }
    Ok((Token::Number(n), rest))
}
