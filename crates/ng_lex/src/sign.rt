//! Signs.
ghost use Rattle.ng_language.specs.Lexing.{next_is, longer, equal_signs, not_signs, single_sign, sign_at};
ghost use Rattle.std.specs.Prelude.{◌≡◌, ◌<◌, ◌≤◌, length, MatchOption, IfSome, Some, None};

use ng_base::reader::Plain;
use ng_language::syntax::Sign;

/// What stands behind this character, where it is the next.
fn behind<'a>(c: char, reader: &Plain<'a>) -> Option<Plain<'a>>
    ensures value { result ≡ next_is c reader.now }
    ensures less { IfSome result (λ r. length r < length reader.now) }
{
    match reader.first() {
        Some((d, rest)) if d == c => Some(rest),
        _ => None,
    }
}

/// The longer sign where this character is the next.
fn longer_sign<'a>(c: char, long: Sign, short: Sign, reader: Plain<'a>) -> (Sign, Plain<'a>)
    ensures value { result ≡ longer c long short reader.entry }
    ensures less { length result.1 ≤ length reader.entry }
{
    match behind(c, &reader) {
        Some(rest) => (long, rest),
        None => (short, reader),
    }
}

fn read_equal_signs<'a>(reader: Plain<'a>) -> (Sign, Plain<'a>)
    ensures value { result ≡ equal_signs reader.entry }
    ensures less { length result.1 ≤ length reader.entry }
{
    match behind('=', &reader) {
        Some(rest) => longer_sign('=', Sign::Same, Sign::Equal, rest),
        None => (Sign::Assign, reader),
    }
}

fn read_not_signs<'a>(reader: Plain<'a>) -> (Sign, Plain<'a>)
    ensures value { result ≡ not_signs reader.entry }
    ensures less { length result.1 ≤ length reader.entry }
{
    match behind('=', &reader) {
        Some(rest) => longer_sign('=', Sign::NotSame, Sign::NotEqual, rest),
        None => (Sign::Not, reader),
    }
}

/// A sign of one character that begins no longer one.
fn single(c: char) -> Option<Sign>
    ensures { result ≡ single_sign c }
{
    match c {
        '+' => Some(Sign::Plus),
        '-' => Some(Sign::Minus),
        '*' => Some(Sign::Star),
        '/' => Some(Sign::Slash),
        '%' => Some(Sign::Percent),
        '?' => Some(Sign::Question),
        ':' => Some(Sign::Colon),
        ';' => Some(Sign::Semicolon),
        ',' => Some(Sign::Comma),
        '.' => Some(Sign::Dot),
        '(' => Some(Sign::OpenRound),
        ')' => Some(Sign::CloseRound),
        '[' => Some(Sign::OpenSquare),
        ']' => Some(Sign::CloseSquare),
        '{' => Some(Sign::OpenCurly),
        '}' => Some(Sign::CloseCurly),
        _ => None,
    }
}

/// The longest sign that begins so.
pub fn read_sign<'a>(c: char, reader: Plain<'a>) -> Option<(Sign, Plain<'a>)>
    ensures value { result ≡ sign_at c reader.entry }
    ensures less { IfSome result (λ r. length r.1 ≤ length reader.entry) }
{
    match c {
        '=' => Some(read_equal_signs(reader)),
        '!' => Some(read_not_signs(reader)),
        '<' => Some(longer_sign('=', Sign::AtMost, Sign::Less, reader)),
        '>' => Some(longer_sign('=', Sign::AtLeast, Sign::Greater, reader)),
        '|' => Some(longer_sign('|', Sign::Or, Sign::Bar, reader)),
        '&' => match behind('&', &reader) {
            Some(rest) => Some((Sign::And, rest)),
            None => None,
        },
        _ => match single(c) {
            Some(sign) => Some((sign, reader)),
            None => None,
        },
    }
}
