//! Cuts a text at the end of a line or of a word, and takes off what stands round it.
ghost use Rattle.std.specs.Prelude.{◌≡◌, ◌≤◌, ◌<◌, ◌∷◌, length, take, get_or, true, not, IfSome, option_map};
ghost use Rattle.std.specs.List.{list_all};
ghost use Rattle.std.specs.Str.{chars};
ghost use Rattle.ng_script.specs.Words.{is_blank, ends, front, onward, past_blanks, word, next_part};
ghost use Rattle.ng_script.specs.Lines.{trimmed, without_return, lines, lines_after};

use ng_base::reader::Plain;
use ng_base::trimming::{Back, Class, trim, without_front};

/// A part of a text, which goes up to the character that ends it.
#[derive(Clone, Copy, Debug, PartialEq, Eq)]
pub enum Part {
    Line,
    Word,
}

/// Whether a byte ends a part.
fn ends(part: Part, b: u8) -> bool
    ensures { result ≡ ends part b }
{
    match part {
        Part::Line => b == b'\n',
        Part::Word => b == b' ' || b == b'\t',
    }
}

/// How many bytes stand before the first that ends a part.
fn length_before(part: Part, bytes: &[u8]) -> usize
    ensures within { result ≤ length bytes.now }
    ensures inside { list_all (λ c. not (ends part c)) (take result bytes.now) ≡ true }
    ensures ends { result < length bytes.now → ends part (get_or bytes.now result 0) ≡ true }
{
    let mut count = 0;
    for b in bytes {
        if ends(part, *b) {
            return count;
        }
        count += 1;
    }
    count
}

/// What stands before the first character that ends a part, and the text from there on.
pub fn cut(part: Part, text: &str) -> (&str, &str)
    ensures front { chars result.0.now ≡ front (ends part) (chars text.now) }
    ensures rest { chars result.1.now ≡ onward (ends part) (chars text.now) }
{
    let count = length_before(part, text.as_bytes());
    (&text[..count], &text[count..])
}

/// A space or a tab.
#[derive(Drop)]
struct Blank;

impl Class for Blank {
    ghost holds = { is_blank };

    fn has(c: char) -> bool {
        c == ' ' || c == '\t'
    }
}

/// Without the blanks in front.
pub fn past_blanks(text: &str) -> &str
    ensures { chars result.now ≡ past_blanks (chars text.now) }
{
    without_front::<Blank>(text)
}

/// Without the blanks at both ends.
pub fn trimmed(text: &str) -> &str
    ensures { chars result.now ≡ trimmed (chars text.now) }
{
    trim::<Blank>(text)
}

/// Without a return at the end.
#[tactic(auto, using(crate::proofs::LineCuts::at_end))]
fn without_return(text: &str) -> &str
    ensures { chars result.now ≡ without_return (chars text.now) }
{
    match Back::new(text).last() {
        Some((c, before)) => { if c == '\r' { before.rest() } else { text } }
        None => text,
    }
}

/// The first word of a text, and what stands after it and the blanks that follow it.
pub fn next_word(text: &str) -> (&str, &str)
    ensures word { chars result.0.now ≡ word (chars text.now) }
    ensures rest { chars result.1.now ≡ next_part (chars text.now) }
{
    let (word, rest) = cut(Part::Word, text);
    (word, past_blanks(rest))
}

/// The first line of a text, and the text after the line feed that ends it.
pub fn next_line(text: &str) -> (&str, Option<&str>)
    ensures lines { lines (chars text.now) ≡ chars result.0.now ∷ lines_after (option_map (λ t. chars t.now) result.1) }
    ensures less { IfSome result.1 (λ t. length (chars t.now) < length (chars text.now)) }
{
    let (line, rest) = cut(Part::Line, text);
    match Plain::new(rest).first() {
        None => (line, None),
        Some((_, more)) => (without_return(line), Some(more.rest())),
    }
}
