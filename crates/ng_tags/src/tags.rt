//! Start tags and end tags, and elements of text alone.
ghost use Rattle.ng_base.specs.Meets.{Gives};
ghost use Rattle.ng_tags.specs.Free as faults;
ghost use Rattle.ng_tags.specs.Free.{is_free};
ghost use Rattle.ng_tags.specs.Tags as specs;
ghost use Rattle.ng_tags.specs.Attributes as attributes;
ghost use Rattle.ng_tags.specs.Letters as letters;
ghost use Rattle.ng_tags.specs.Skips as skips;
ghost use Rattle.ng_tags.specs.declared.fault.HtmlKind.TheVariants as kinds;
ghost use Rattle.std.specs.Prelude.{◌≡◌, ◌∷◌, [], IfOk, None};

use crate::attributes::{Inside, cut, read_attributes};
use crate::event::{Event, Tag};
use crate::fault::{HtmlFault, HtmlKind, met_or};
use crate::letters::{lower, space};
use crate::skips::{past_spaces, place_in, read_name};
use crate::tables::{left_out, line_dropping, raw};
use crate::texts::{Decoded, past_end_tag, read_whole};
use crate::until::Until;
use ng_base::reader::Reader;
use ng_base::txt::Txt;
use std::alloc::{AllocError, Global};

/// No tag at a place.
pub fn no_tag(place: usize) -> HtmlFault
    ensures { result ≡ faults.fault kinds.BadTag place }
{
    HtmlFault {
        place: place as u64,
        kind: HtmlKind::BadTag,
    }
}

/// Behind a line feed, if it stands first.
fn past_line_feed(reader: Reader<'_>) -> Reader<'_>
    ensures { result ≡ specs.past_line_feed reader.entry }
{
    match reader.first() {
        Some((c, _, rest)) if c == '\n' => rest,
        _ => reader,
    }
}

/// Where the content of an element of this name begins.
fn behind_tag<'a>(name: &Txt, reader: Reader<'a>) -> Reader<'a>
    ensures { result ≡ specs.behind_tag name.now reader.entry }
{
    if line_dropping(name) {
        past_line_feed(reader)
    } else {
        reader
    }
}

fn with_fault(tag: Tag, fault: HtmlFault) -> Tag
    ensures { result ≡ specs.with_fault tag fault }
{
    Tag {
        name: tag.name,
        attrs: tag.attrs,
        place: tag.place,
        closed: tag.closed,
        fault: Some(fault),
    }
}

/// An element of text alone, unless a reference in it is refused.
fn raw_or(tag: Tag, place: usize, d: Decoded) -> Event
    ensures { result ≡ specs.raw_or tag place d.text d.fault }
{
    let Decoded { text, fault } = d;
    match fault {
        None => Event::Raw {
            tag,
            text,
            text_place: place as u64,
        },
        Some(fault) => Event::Start(with_fault(tag, fault)),
    }
}

/// Behind the end tag that ends a text.
fn past_end<'a>(
    alloc: Global,
    name: &Txt,
    reader: &Reader<'a>,
) -> Result<Option<Reader<'a>>, AllocError>
    ensures { IfOk result (λ r. r ≡ specs.past_end name.now reader.now) }
{
    match reader.first() {
        None => Ok(None),
        Some((_, _, rest)) => past_end_tag(alloc, name, &rest),
    }
}

/// An element of text alone, behind its tag.
fn read_raw<'a>(
    alloc: Global,
    total: usize,
    tag: Tag,
    reader: Reader<'a>,
) -> Result<(Event, Reader<'a>), AllocError>
    ensures { IfOk result (λ r. r ≡ specs.raw_event total tag reader.entry) }
{
    let place = place_in(total, &reader);
    let until = Until::EndTag(tag.name.copied()?);
    let (d, rest) = read_whole(alloc, &until, reader)?;
    match past_end(alloc, &tag.name, &rest)? {
        None => {
            let fault = met_or(d.fault, cut(total));
            Ok((Event::Start(with_fault(tag, fault)), rest))
        }
        Some(rest) => Ok((raw_or(tag, place, d), rest)),
    }
}

/// Whether the content of an element of text alone follows.
fn opens_raw(tag: &Tag) -> bool
    ensures { result ≡ specs.opens_raw tag.now }
{
    raw(&tag.name) && !tag.closed && tag.fault.is_none()
}

/// A start tag, with the content of an element of text alone.
fn started<'a>(
    alloc: Global,
    total: usize,
    tag: Tag,
    reader: Reader<'a>,
) -> Result<(Event, Reader<'a>), AllocError>
    ensures { IfOk result (λ r. r ≡ specs.started total tag reader.entry) }
{
    let rest = behind_tag(&tag.name, reader);
    if opens_raw(&tag) {
        read_raw(alloc, total, tag, rest)
    } else {
        Ok((Event::Start(tag), rest))
    }
}

/// Whether this may stand right behind a tag's name.
fn may_follow_name(reader: &Reader<'_>) -> bool
    ensures { result ≡ specs.may_follow_name reader.now }
{
    match reader.first() {
        None => true,
        Some((c, _, _)) => space(c) || c == '>' || c == '/',
    }
}

/// A start tag of this name, behind the name.
fn read_inside<'a>(
    alloc: Global,
    total: usize,
    place: usize,
    name: Txt,
    reader: Reader<'a>,
) -> Result<(Event, Reader<'a>), AllocError>
    ensures { IfOk result (λ r. r ≡ specs.start_with total place name (attributes.attributes total reader.entry)) }
{
    let (inside, rest) = read_attributes(alloc, total, reader)?;
    let Inside {
        attrs,
        closed,
        fault,
    } = inside;
    let tag = Tag {
        name,
        attrs,
        place: place as u64,
        closed,
        fault,
    };
    started(alloc, total, tag, rest)
}

/// A start tag at a place, whose name begins so.
pub fn read_start<'a>(
    alloc: Global,
    total: usize,
    place: usize,
    c: char,
    reader: Reader<'a>,
) -> Result<(Event, Reader<'a>), HtmlFault>
    ensures { Gives is_free (λ r. r) (specs.start_tag total place (skips.name_run (letters.lower c ∷ []) reader.entry)) result }
{
    let mut name = Txt::new(alloc);
    name.push(lower(c))?;
    let (name, rest) = read_name(name, reader)?;
    if left_out(&name) || !may_follow_name(&rest) {
        return Err(no_tag(place));
    }
    let (event, rest) = read_inside(alloc, total, place, name, rest)?;
    Ok((event, rest))
}

/// The `>` of an end tag.
fn read_end_tag_end<'a>(
    total: usize,
    place: usize,
    name: Txt,
    reader: Reader<'a>,
) -> Result<(Event, Reader<'a>), HtmlFault>
    ensures { Gives is_free (λ r. r) (specs.end_tag_end total place name reader.entry) result }
{
    match reader.first() {
        None => Err(cut(total)),
        Some((c, _, rest)) => {
            if c == '>' {
                let place = place as u64;
                Ok((Event::End { name, place }, rest))
            } else {
                Err(no_tag(place))
            }
        }
    }
}

/// An end tag at a place, whose name begins so.
fn read_end_tag_named<'a>(
    alloc: Global,
    total: usize,
    place: usize,
    c: char,
    reader: Reader<'a>,
) -> Result<(Event, Reader<'a>), HtmlFault>
    ensures { Gives is_free (λ r. r) (specs.end_tag_named total place (skips.name_run (letters.lower c ∷ []) reader.entry)) result }
{
    let mut name = Txt::new(alloc);
    name.push(lower(c))?;
    let (name, rest) = read_name(name, reader)?;
    if left_out(&name) {
        return Err(no_tag(place));
    }
    read_end_tag_end(total, place, name, past_spaces(rest))
}

/// An end tag at a place, behind its `</`.
pub fn read_end<'a>(
    alloc: Global,
    total: usize,
    place: usize,
    reader: Reader<'a>,
) -> Result<(Event, Reader<'a>), HtmlFault>
    ensures { Gives is_free (λ r. r) (specs.end_tag total place reader.entry) result }
{
    match reader.first() {
        Some((c, _, rest)) if c.is_ascii_alphabetic() => read_end_tag_named(
            alloc, total, place, c, rest,
        ),
        _ => Err(no_tag(place)),
    }
}
