//! Texts without the characters of a class, as white space, in front, at the end, or round them.
ghost use Rattle.std.specs.Prelude.{◌≡◌, ◌++◌, ◌∷◌, [], ℕ, Bool, MatchOption};
ghost use Rattle.std.specs.Char.{is_ascii_whitespace};
ghost use Rattle.std.specs.List.{list_all, list_any};
ghost use Rattle.std.specs.Str.{chars};
ghost use Rattle.ng_base.specs.Trimming as spec;

use crate::reader::Plain;
use std::marker::Model;

/// A class of characters.
pub trait Class {
    /// Whether a character is one of them.
    ghost holds: { ℕ → Bool };

    /// Whether a character is one of them.
    fn has(c: char) -> bool
        ensures { result ≡ holds c };
}

/// Space, tab, LF, FF, CR.
#[derive(Drop)]
pub struct AsciiSpace;

impl Class for AsciiSpace {
    ghost holds = { is_ascii_whitespace };

    fn has(c: char) -> bool {
        c.is_ascii_whitespace()
    }
}

/// The last character of a text, and what stands before it.
fn last_of(text: &str) -> Option<(char, &str)>
    ensures { MatchOption result (chars text.now ≡ []) (λ p. chars text.now ≡ chars p.1.now ++ p.0 ∷ []) }
{
    let mut all = text.chars();
    let c = all.next_back()?;
    Some((c, all.as_str()))
}

/// A text that is read from its end.
#[derive(Drop)]
pub struct Back<'a> {
    text: &'a str,
}

impl<'a> Model for Back<'a> {
    ghost use Rattle.std.specs.Prelude.{ℕ, List};
    ghost use Rattle.std.specs.Str.{chars, IsUtf8};

    ghost Value = { List ℕ };

    ghost view = { λ b. chars b.text.now };

    ghost invariant = { λ b. IsUtf8 b.text.now };
}

impl<'a> Back<'a> {
    /// At the end of a text.
    pub fn new(text: &'a str) -> Back<'a>
        ensures { result ≡ chars text.now }
    {
        Back { text }
    }

    /// The last character, and what stands before it.
    pub fn last(&self) -> Option<(char, Back<'a>)>
        ensures { MatchOption result (self.now ≡ []) (λ p. self.now ≡ p.1 ++ p.0 ∷ []) }
    {
        let (c, text) = last_of(self.text)?;
        Some((c, Back { text }))
    }

    /// What is left.
    pub fn rest(&self) -> &'a str
        ensures { chars result.now ≡ self.now }
    {
        self.text
    }
}

/// What stands after the characters of a class in front.
pub fn past<'a, C: Class>(mut reader: Plain<'a>) -> Plain<'a>
    ensures { result ≡ spec.past C.holds reader.entry }
{
    while let Some((c, rest)) = reader.first() {
        if !C::has(c) {
            return reader;
        }
        reader = rest;
    }
    reader
}

/// A text without the characters of a class in front.
pub fn without_front<C: Class>(text: &str) -> &str
    ensures { chars result.now ≡ spec.past C.holds (chars text.now) }
{
    past::<C>(Plain::new(text)).rest()
}

/// A text without the characters of a class at its end.
pub fn without_end<C: Class>(text: &str) -> &str
    ensures { chars result.now ≡ spec.without_end C.holds (chars text.now) }
{
    let mut back = Back::new(text);
    while let Some((c, before)) = back.last() {
        if !C::has(c) {
            return back.rest();
        }
        back = before;
    }
    back.rest()
}

/// A text without the characters of a class round it.
pub fn trim<C: Class>(text: &str) -> &str
    ensures { chars result.now ≡ spec.trimmed C.holds (chars text.now) }
{
    without_end::<C>(without_front::<C>(text))
}

/// Whether all characters that are left are of a class.
pub fn only<C: Class>(mut reader: Plain<'_>) -> bool
    ensures { result ≡ list_all C.holds reader.entry }
{
    while let Some(c) = reader.next() {
        if !C::has(c) {
            return false;
        }
    }
    true
}

/// Whether one of the characters that are left is of a class.
pub fn any<C: Class>(mut reader: Plain<'_>) -> bool
    ensures { result ≡ list_any C.holds reader.entry }
{
    while let Some(c) = reader.next() {
        if C::has(c) {
            return true;
        }
    }
    false
}
