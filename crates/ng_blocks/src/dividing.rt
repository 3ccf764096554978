//! Where a repeat's text is cut: at the first `in`, and at the first `track by`, between white space.
ghost use Rattle.std.specs.Prelude.{◌≡◌, [], IfOk, None, Some, false};
ghost use Rattle.std.specs.Str.{chars};
ghost use Rattle.std.specs.List.{list_all};
ghost use Rattle.ng_language.specs.Letters.{is_space};
ghost use Rattle.ng_blocks.specs.Dividing.{after_word, spaced_on, after_in, after_track_by, after_divider, cut_from};

use ng_base::reader::Plain;
use ng_base::trimming;
use ng_base::txt::Txt;
use ng_lex::letters::{WhiteSpace, space};
use std::alloc::{AllocError, Global};

/// What a repeat's text is cut at.
#[derive(Clone, Copy)]
pub enum Divider {
    In,
    TrackBy,
}

/// What stands after a word, where the text begins with it.
fn past_word<'a>(word: &str, text: &Plain<'a>) -> Option<Plain<'a>>
    ensures { result ≡ after_word word.now text.now }
{
    let mut reader = Plain::new(text.rest());
    for byte in word.as_bytes() {
        let Some((c, rest)) = reader.first() else {
            return None;
        };
        if c as u32 != *byte as u32 {
            return None;
        }
        reader = rest;
    }
    Some(reader)
}

/// The text, where it begins with white space.
fn spaced(text: Plain<'_>) -> Option<Plain<'_>>
    ensures { result ≡ spaced_on text.entry }
{
    let (c, _) = text.first()?;
    if space(c) { Some(text) } else { None }
}

/// What stands after `in`.
fn past_in<'a>(text: &Plain<'a>) -> Option<Plain<'a>>
    ensures { result ≡ after_in text.now }
{
    spaced(past_word("in", text)?)
}

/// What stands after `track by`.
fn past_track_by<'a>(text: &Plain<'a>) -> Option<Plain<'a>>
    ensures { result ≡ after_track_by text.now }
{
    let between = spaced(past_word("track", text)?)?;
    spaced(past_word("by", &trimming::past::<WhiteSpace>(between))?)
}

/// What stands after a divider, where the text begins with it and goes on with white space.
fn past<'a>(divider: Divider, text: &Plain<'a>) -> Option<Plain<'a>>
    ensures { result ≡ after_divider divider text.now }
{
    match divider {
        Divider::In => past_in(text),
        Divider::TrackBy => past_track_by(text),
    }
}

/// What stands before and after the first divider between white space.
pub fn cut<'a>(
    alloc: Global,
    divider: Divider,
    text: &'a str,
) -> Result<Option<(Txt, Plain<'a>)>, AllocError>
    ensures { IfOk result (λ r. r ≡ cut_from divider [] (chars text.now)) }
{
    let mut before = Txt::new(alloc);
    let mut reader = Plain::new(text);
    while let Some((c, rest)) = reader.first() {
        before.push(c)?;
        if space(c) {
            if let Some(after) = past(divider, &rest) {
                return Ok(Some((before, after)));
            }
        }
        reader = rest;
    }
    Ok(None)
}

/// Whether nothing but white space stands in a text.
pub fn blank(text: &str) -> bool
    ensures { result ≡ list_all is_space (chars text.now) }
{
    trimming::only::<WhiteSpace>(Plain::new(text))
}
