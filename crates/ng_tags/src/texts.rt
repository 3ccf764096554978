//! Texts with references, up to what ends them.
ghost use Rattle.ng_tags.specs.Texts as texts;
ghost use Rattle.std.specs.Prelude.{◌≡◌, ◌≤◌, length, IfOk};

use crate::fault::{HtmlFault, HtmlKind, met_or};
use crate::letters::{bare, begins_tag};
use crate::references::read_character;
use crate::skips::{past, past_spaces, read_name};
use crate::until::Until;
use ng_base::reader::Reader;
use ng_base::txt::Txt;
use std::alloc::{AllocError, Global};

/// A text so far, and the first fault of a reference in it.
#[derive(Drop)]
pub struct Decoded {
    pub text: Txt,
    pub fault: Option<HtmlFault>,
}

/// Whether a `<` begins a tag, with this behind it.
pub fn tag_follows(reader: &Reader<'_>) -> bool
    ensures { result ≡ texts.tag_follows reader.now }
{
    match reader.first() {
        None => false,
        Some((c, _, _)) => begins_tag(c),
    }
}

/// Behind the end tag of this name, if its `/` stands first.
pub fn past_end_tag<'a>(
    alloc: Global,
    name: &Txt,
    reader: &Reader<'a>,
) -> Result<Option<Reader<'a>>, AllocError>
    ensures { IfOk result (λ r. r ≡ texts.past_end_tag name.now reader.now) }
{
    match past('/', reader) {
        None => Ok(None),
        Some(rest) => {
            let (found, rest) = read_name(Txt::new(alloc), rest)?;
            if name.same(&found) {
                Ok(past('>', &past_spaces(rest)))
            } else {
                Ok(None)
            }
        }
    }
}

/// Whether a text ends before this character, with that behind it.
fn ends(alloc: Global, until: &Until, c: char, rest: &Reader<'_>) -> Result<bool, AllocError>
    ensures { IfOk result (λ b. b ≡ texts.ends until.now c rest.now) }
{
    match until {
        Until::Tag => Ok(c == '<' && tag_follows(rest)),
        Until::Double => Ok(c == '"'),
        Until::Single => Ok(c == '\''),
        Until::Space => Ok(!bare(c)),
        Until::EndTag(name) => Ok(c == '<' && past_end_tag(alloc, name, rest)?.is_some()),
    }
}

/// Whether a text may end before this character.
fn may_end(until: &Until, c: char) -> bool
    ensures { result ≡ texts.may_end until.now c }
{
    match until {
        Until::Tag => c == '<',
        Until::Double => c == '"',
        Until::Single => c == '\'',
        Until::Space => !bare(c),
        Until::EndTag(_) => c == '<',
    }
}

/// Whether it goes on with this character as it is, whatever stands behind it.
fn goes_on(until: &Until, c: char) -> bool
    ensures { result ≡ texts.goes_on until.now c }
{
    c != '&' && !may_end(until, c)
}

/// A character more, or a reference that is refused at its place.
pub fn with_character(d: Decoded, place: usize, read: Option<char>) -> Result<Decoded, AllocError>
    ensures { IfOk result (λ r. r ≡ texts.with_character d place read) }
{
    let Decoded { mut text, fault } = d;
    match read {
        Some(c) => {
            text.push(c)?;
            Ok(Decoded { text, fault })
        }
        None => {
            let here = HtmlFault {
                place: place as u64,
                kind: HtmlKind::BadReference,
            };
            Ok(Decoded {
                text,
                fault: Some(met_or(fault, here)),
            })
        }
    }
}

/// A text with the characters at the front that stand for themselves. A value without quotes may end among them, so
/// it takes none of them at once.
fn with_run<'a>(
    until: &Until,
    mut d: Decoded,
    reader: Reader<'a>,
) -> Result<(Decoded, Reader<'a>), AllocError>
    ensures same { IfOk result (λ r. texts.text_from until.now r.0 r.1 ≡ texts.text_from until.now d reader.entry) }
    ensures shorter { IfOk result (λ r. length r.1 ≤ length reader.entry) }
{
    match until {
        Until::Space => Ok((d, reader)),
        _ => {
            let (front, rest) = reader.run();
            d.text.push_str(front)?;
            Ok((d, rest))
        }
    }
}

/// A text of which this stands before, up to what ends it.
#[tactic(auto, using(crate::proofs::TextTurns::text_turns))]
pub fn read_text<'a>(
    alloc: Global,
    until: &Until,
    mut d: Decoded,
    mut reader: Reader<'a>,
) -> Result<(Decoded, Reader<'a>), AllocError>
    ensures { IfOk result (λ r. r ≡ texts.text_from until.now d reader.entry) }
{
    while let Some((c, place, rest)) = reader.first() {
        if goes_on(until, c) {
            d.text.push(c)?;
            let (longer, behind) = with_run(until, d, rest)?;
            d = longer;
            reader = behind;
        } else {
            if ends(alloc, until, c, &rest)? {
                return Ok((d, reader));
            }
            let (read, rest) = read_character(alloc, c, rest)?;
            d = with_character(d, place, read)?;
            reader = rest;
        }
    }
    Ok((d, reader))
}

/// A text up to what ends it.
pub fn read_whole<'a>(
    alloc: Global,
    until: &Until,
    reader: Reader<'a>,
) -> Result<(Decoded, Reader<'a>), AllocError>
    ensures { IfOk result (λ r. r ≡ texts.text_run until.now reader.entry) }
{
    let d = Decoded {
        text: Txt::new(alloc),
        fault: None,
    };
    read_text(alloc, until, d, reader)
}
