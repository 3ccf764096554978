//! Characters of tags.
ghost use Rattle.ng_tags.specs.Letters as letters;
ghost use Rattle.std.specs.Prelude.{◌≡◌};

/// Whether it may stand in the name of an element, behind its first letter.
pub fn in_name(c: char) -> bool
    ensures { result ≡ letters.is_in_name c }
{
    c.is_ascii_alphabetic() || c.is_ascii_digit() || c == '-' || c == ':' || c == '_'
}

/// Tab, line feed, form feed or space.
pub fn space(c: char) -> bool
    ensures { result ≡ letters.is_space c }
{
    c == '\t' || c == '\n' || c == '\u{c}' || c == ' '
}

/// Whether it may stand in the name of an attribute.
pub fn in_attribute(c: char) -> bool
    ensures { result ≡ letters.is_in_attribute c }
{
    !(space(c) || c == '"' || c == '\'' || c == '<' || c == '>' || c == '/' || c == '=')
}

/// Whether it may stand in a value without quotes.
pub fn bare(c: char) -> bool
    ensures { result ≡ letters.is_bare c }
{
    !(space(c) || c == '"' || c == '\'' || c == '=' || c == '<' || c == '>' || c == '`')
}

/// Whether a tag begins with it behind a `<`.
pub fn begins_tag(c: char) -> bool
    ensures { result ≡ letters.begins_tag c }
{
    c.is_ascii_alphabetic() || c == '/' || c == '!' || c == '?'
}

/// A capital letter as a small one.
pub fn lower(c: char) -> char
    ensures { result ≡ letters.lower c }
{
    c.to_ascii_lowercase()
}
