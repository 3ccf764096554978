//! Reads a document.
ghost use Rattle.std.specs.Prelude.{◌≡◌, ◌++◌, [], OnOk, length};
ghost use Rattle.ng_base.specs.Meets.{Gives};
ghost use Rattle.ng_html.specs.Free.{fault, is_free};
ghost use Rattle.ng_tags.specs.declared.fault.HtmlKind.TheVariants as kind;
ghost use Rattle.ng_html.specs.Laws.{Found, OneRefusal, Only, Refused};
ghost use Rattle.ng_html.specs.Building.{empty};
ghost use Rattle.ng_html.specs.Reading.{before_zero as zeroless, begin, cells_of, read_bytes, read_cells, read_on};
ghost use Rattle.ng_html.specs.TreeSeen.{source_of};

use crate::build::{Builder, finish, take};
use crate::source::Source;
use ng_base::lists::Places;
use ng_base::reader::Reader;
use ng_tags::event::Event;
use ng_tags::fault::{HtmlFault, HtmlKind};
use ng_tags::{after_doctype, next_event};
use std::alloc::{AllocError, Global};

/// Notes the places of the nodes that begin with an event.
fn note(places: &mut Places, e: &Event) -> Result<(), AllocError>
    ensures { OnOk result (places.new ≡ places.old ++ begin e.now) }
{
    match e {
        Event::Start(tag) => places.push(tag.place),
        Event::Raw {
            tag,
            text,
            text_place,
        } => {
            places.push(tag.place)?;
            if text.is_empty() {
                return Ok(());
            }
            places.push(*text_place)
        }
        Event::Text { place, .. } => places.push(*place),
        Event::Comment { place, .. } => places.push(*place),
        Event::End { .. } => Ok(()),
    }
}

/// The forest of the events of a text.
#[tactic(auto, using(crate::proofs::Turns::turns))]
fn read_all(alloc: Global, total: usize, mut reader: Reader<'_>) -> Result<Source, HtmlFault>
    ensures { Gives is_free source_of (read_on total empty [] reader.entry) result }
{
    let mut built = Builder::new(alloc);
    let mut places = Places::new(alloc);
    while let Some((c, place, rest)) = reader.first() {
        let (event, rest) = next_event(alloc, total, c, place, rest)?;
        note(&mut places, &event)?;
        built = take(alloc, built, event)?;
        reader = rest;
    }
    let forest = finish(built, total)?;
    Ok(Source { forest, places })
}

/// The forest of a text, behind its doctype.
fn read_text(alloc: Global, text: &str) -> Result<Source, HtmlFault>
    ensures { Gives is_free source_of (read_cells (length text.now) (cells_of text.now)) result }
{
    let reader = after_doctype(Reader::new(text))?;
    read_all(alloc, text.len(), reader)
}

/// The number of bytes before the first zero byte.
fn before_zero(bytes: &[u8]) -> usize
    ensures { result ≡ zeroless bytes.now }
{
    let mut count = 0;
    for byte in bytes {
        if *byte == 0 {
            return count;
        }
        count += 1;
    }
    count
}

fn no_text(place: usize) -> HtmlFault
    ensures { result ≡ fault kind.Utf8 place }
{
    HtmlFault {
        place: place as u64,
        kind: HtmlKind::Utf8,
    }
}

/// The forest of a document.
pub fn read(alloc: Global, bytes: &[u8]) -> Result<Source, HtmlFault>
    // What is read is spelled by the bytes, each node at its place.
    ensures found { Found bytes.now result }
    // What the bytes spell is read, unless memory is refused.
    ensures only { Only bytes.now result }
    // What is refused is the refusal of these bytes: all before it is read, and what stands there cannot be.
    ensures refused { Refused bytes.now result }
    // The refusal of these bytes is what is answered, unless memory is refused.
    ensures one { OneRefusal bytes.now result }
    // The answer is the one of the reading from the left, unless memory is refused.
    ensures exact { Gives is_free source_of (read_bytes bytes.now) result }
{
    match str::from_utf8(bytes) {
        Err(e) => Err(no_text(before_zero(&bytes[..e.valid_up_to()]))),
        Ok(text) => {
            let sound = before_zero(bytes);
            if sound < bytes.len() {
                return Err(no_text(sound));
            }
            read_text(alloc, text)
        }
    }
}
