//! Characters of expressions.
ghost use Rattle.ng_language.specs.Letters as letters;
ghost use Rattle.std.specs.Prelude.{◌≡◌, ◌<◌, true};

use ng_base::trimming::Class;

/// Space, CR, tab, LF, VT, and the space that does not break.
pub fn space(c: char) -> bool
    ensures { result ≡ letters.is_space c }
{
    matches!(c, ' ' | '\r' | '\t' | '\n' | '\u{b}' | '\u{a0}')
}

/// The white space of expressions.
#[derive(Drop)]
pub struct WhiteSpace;

impl Class for WhiteSpace {
    ghost holds = { letters.is_space };

    fn has(c: char) -> bool {
        space(c)
    }
}

/// A letter, `_` or `$`.
pub fn begins_name(c: char) -> bool
    ensures { result ≡ letters.begins_name c }
{
    c.is_ascii_alphabetic() || c == '_' || c == '$'
}

pub fn in_name(c: char) -> bool
    ensures { result ≡ letters.is_in_name c }
{
    begins_name(c) || c.is_ascii_digit()
}

pub fn quote(c: char) -> bool
    ensures { result ≡ letters.is_quote c }
{
    c == '\'' || c == '"'
}

/// A point, or the letter of an exponent.
pub fn goes_on(c: char) -> bool
    ensures { result ≡ letters.goes_on c }
{
    c == '.' || c == 'e' || c == 'E'
}

pub fn hex(c: char) -> bool
    ensures { result ≡ letters.is_hex c }
{
    c.is_ascii_digit() || ('a' <= c && c <= 'f') || ('A' <= c && c <= 'F')
}

/// The value of a hexadecimal digit.
pub fn hex_value(c: char) -> u32
    requires { letters.is_hex c ≡ true }
    ensures value { result ≡ letters.hex_value c }
    ensures low { result < 16 }
{
    let n = c as u32;
    if n <= 57 {
        n - 48
    } else if n <= 70 {
        n - 55
    } else {
        n - 87
    }
}

/// What stands behind a `\` for itself or for a control character.
pub fn escaped(c: char) -> char
    ensures { result ≡ letters.escaped c }
{
    match c {
        'n' => '\n',
        'f' => '\u{c}',
        'r' => '\r',
        't' => '\t',
        'v' => '\u{b}',
        _ => c,
    }
}
