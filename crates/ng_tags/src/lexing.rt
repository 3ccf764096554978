//! The next tag, text or comment.
ghost use Rattle.ng_base.specs.Meets.{Gives};
ghost use Rattle.ng_tags.specs.Free.{is_free};
ghost use Rattle.ng_tags.specs.Lexing as specs;
ghost use Rattle.ng_tags.specs.References as refs;
ghost use Rattle.std.specs.Prelude.{◌≡◌};

use crate::attributes::no_text;
use crate::comments::read_comment;
use crate::event::Event;
use crate::fault::HtmlFault;
use crate::letters::lower;
use crate::references::read_character;
use crate::tags::{no_tag, read_end, read_start};
use crate::texts::{Decoded, read_text, tag_follows, with_character};
use crate::until::Until;
use ng_base::reader::Reader;
use std::alloc::Global;

/// What begins with a `<` at a place.
fn read_markup<'a>(
    alloc: Global,
    total: usize,
    place: usize,
    reader: Reader<'a>,
) -> Result<(Event, Reader<'a>), HtmlFault>
    ensures { Gives is_free (λ r. r) (specs.markup total place reader.entry) result }
{
    match reader.first() {
        None => Err(no_tag(place)),
        Some((c, _, rest)) => {
            if c.is_ascii_alphabetic() {
                read_start(alloc, total, place, c, rest)
            } else if c == '/' {
                read_end(alloc, total, place, rest)
            } else if c == '!' {
                read_comment(alloc, total, place, rest)
            } else {
                Err(no_tag(place))
            }
        }
    }
}

/// A text that begins with this character at a place.
fn read_text_event<'a>(
    alloc: Global,
    place: usize,
    c: char,
    reader: Reader<'a>,
) -> Result<(Event, Reader<'a>), HtmlFault>
    ensures { Gives is_free (λ r. r) (specs.text_event place (specs.text_behind place (refs.character c reader.entry))) result }
{
    let (read, rest) = read_character(alloc, c, reader)?;
    let first = with_character(no_text(alloc), place, read)?;
    let (d, rest) = read_text(alloc, &Until::Tag, first, rest)?;
    let Decoded { text, fault } = d;
    match fault {
        None => {
            let place = place as u64;
            Ok((Event::Text { text, place }, rest))
        }
        Some(fault) => Err(fault),
    }
}

/// The tag, text or comment that begins with this character at a place, in a document of so many bytes, and what is
/// left. Where a start tag has a fault, no more is promised of what is left than that it is less.
pub fn next_event<'a>(
    alloc: Global,
    total: usize,
    c: char,
    place: usize,
    rest: Reader<'a>,
) -> Result<(Event, Reader<'a>), HtmlFault>
    ensures { Gives is_free (λ r. r) (specs.event_at total (c, place) rest.entry) result }
{
    if c == '<' && tag_follows(&rest) {
        read_markup(alloc, total, place, rest)
    } else {
        read_text_event(alloc, place, c, rest)
    }
}
