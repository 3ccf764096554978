//! Attributes of a tag.
ghost use Rattle.ng_tags.specs.Attributes as specs;
ghost use Rattle.ng_tags.specs.Free as faults;
ghost use Rattle.ng_tags.specs.Letters as letters;
ghost use Rattle.ng_tags.specs.Texts as texts;
ghost use Rattle.ng_tags.specs.declared.until.Until.TheVariants as untils;
ghost use Rattle.ng_tags.specs.declared.fault.HtmlKind.TheVariants as kinds;
ghost use Rattle.std.specs.Prelude.{◌≡◌, ◌∷◌, [], IfOk, OnOk, None};

use crate::attrs::Attrs;
use crate::fault::{HtmlFault, HtmlKind, met_first, met_or};
use crate::letters::{bare, in_attribute, lower, space};
use crate::skips::past_spaces;
use crate::texts::{Decoded, read_whole};
use crate::until::Until;
use ng_base::reader::Reader;
use ng_base::txt::Txt;
use std::alloc::{AllocError, Global};
use std::collections::BTreeMap;

/// What stands in a tag behind its name.
#[derive(Drop)]
pub struct Inside {
    pub attrs: Attrs,
    /// Whether it ends in `/>`.
    pub closed: bool,
    pub fault: Option<HtmlFault>,
}

/// What was read, or the fault that ends the reading of the tag; memory may be refused.
type Tried<T> = Result<Result<T, HtmlFault>, AllocError>;

fn bad(place: usize) -> HtmlFault
    ensures { result ≡ faults.fault kinds.BadAttr place }
{
    HtmlFault {
        place: place as u64,
        kind: HtmlKind::BadAttr,
    }
}

/// The document's end comes too early.
pub fn cut(total: usize) -> HtmlFault
    ensures { result ≡ faults.fault kinds.Unclosed total }
{
    HtmlFault {
        place: total as u64,
        kind: HtmlKind::Unclosed,
    }
}

/// The name of an attribute, of which this stands before, in small letters.
fn read_attribute_name<'a>(
    mut name: Txt,
    mut reader: Reader<'a>,
) -> Result<(Txt, Reader<'a>), AllocError>
    ensures { IfOk result (λ r. r ≡ specs.attribute_run name reader.entry) }
{
    while let Some((c, _, rest)) = reader.first() {
        if !in_attribute(c) {
            return Ok((name, reader));
        }
        name.push(lower(c))?;
        reader = rest;
    }
    Ok((name, reader))
}

/// A value up to its quote.
fn read_quoted<'a>(
    alloc: Global,
    total: usize,
    until: &Until,
    reader: Reader<'a>,
) -> Tried<(Decoded, Reader<'a>)>
    ensures { IfOk result (λ r. r ≡ specs.quoted total (texts.text_run until.now reader.entry)) }
{
    let (d, rest) = read_whole(alloc, until, reader)?;
    match rest.first() {
        None => Ok(Err(met_or(d.fault, cut(total)))),
        Some((_, _, rest)) => Ok(Ok((d, rest))),
    }
}

/// A value without quotes.
fn read_bare(alloc: Global, reader: Reader<'_>) -> Tried<(Decoded, Reader<'_>)>
    ensures { IfOk result (λ r. r ≡ specs.unquoted (texts.text_run untils.Space reader.entry)) }
{
    let (d, rest) = read_whole(alloc, &Until::Space, reader)?;
    match rest.first() {
        Some((c, place, _)) if c == '`' => Ok(Err(met_or(d.fault, bad(place)))),
        _ => Ok(Ok((d, rest))),
    }
}

/// The value behind a `=`.
fn read_value<'a>(alloc: Global, total: usize, reader: Reader<'a>) -> Tried<(Decoded, Reader<'a>)>
    ensures { IfOk result (λ r. r ≡ specs.value_at total reader.entry) }
{
    match reader.first() {
        None => Ok(Err(cut(total))),
        Some((c, place, rest)) => {
            if c == '"' {
                read_quoted(alloc, total, &Until::Double, rest)
            } else if c == '\'' {
                read_quoted(alloc, total, &Until::Single, rest)
            } else if bare(c) {
                read_bare(alloc, reader)
            } else {
                Ok(Err(bad(place)))
            }
        }
    }
}

/// A text so far that has no character.
pub fn no_text(alloc: Global) -> Decoded
    ensures { result ≡ texts.no_text }
{
    Decoded {
        text: Txt::new(alloc),
        fault: None,
    }
}

/// The value behind a name, which is empty where no `=` stands.
fn read_value_behind<'a>(
    alloc: Global,
    total: usize,
    reader: Reader<'a>,
) -> Tried<(Decoded, Reader<'a>)>
    ensures { IfOk result (λ r. r ≡ specs.value_behind total reader.entry) }
{
    match reader.first() {
        Some((c, _, rest)) if c == '=' => read_value(alloc, total, past_spaces(rest)),
        _ => Ok(Ok((no_text(alloc), reader))),
    }
}

/// A name that begins so, and its value.
fn read_named<'a>(
    alloc: Global,
    total: usize,
    c: char,
    reader: Reader<'a>,
) -> Tried<(Txt, Decoded, Reader<'a>)>
    ensures { IfOk result (λ r. r ≡ specs.named total (specs.attribute_run (letters.lower c ∷ []) reader.entry)) }
{
    let mut name = Txt::new(alloc);
    name.push(lower(c))?;
    let (name, rest) = read_attribute_name(name, reader)?;
    match read_value_behind(alloc, total, past_spaces(rest))? {
        Err(fault) => Ok(Err(fault)),
        Ok((value, rest)) => Ok(Ok((name, value, rest))),
    }
}

/// An attribute that begins with this character at a place.
fn read_attribute<'a>(
    alloc: Global,
    total: usize,
    c: char,
    place: usize,
    reader: Reader<'a>,
) -> Tried<(Txt, Decoded, Reader<'a>)>
    ensures { IfOk result (λ r. r ≡ specs.attribute_at total (c, place) reader.entry) }
{
    if in_attribute(c) {
        read_named(alloc, total, c, reader)
    } else {
        Ok(Err(bad(place)))
    }
}

/// An attribute more, where none of its name is there.
#[tactic(auto, using(crate::proofs::Maps::map_steps))]
fn insert(found: &mut BTreeMap<Txt, Txt>, name: Txt, value: Txt) -> Result<(), AllocError>
    ensures { OnOk result (found.new.entries ≡ specs.with_attribute found.old.entries name value) }
{
    if found.contains_key(&name) {
        return Ok(());
    }
    found.insert(name, value)?;
    Ok(())
}

/// The attributes in the order of their names.
fn listed(alloc: Global, found: BTreeMap<Txt, Txt>) -> Result<Attrs, AllocError>
    ensures { IfOk result (λ a. a ≡ found.entries) }
{
    let mut attrs = Attrs::new(alloc);
    for (name, value) in found {
        attrs.push(name, value)?;
    }
    Ok(attrs)
}

/// The end of a tag.
fn ended(
    alloc: Global,
    found: BTreeMap<Txt, Txt>,
    closed: bool,
    fault: Option<HtmlFault>,
) -> Result<Inside, AllocError>
    ensures { IfOk result (λ i. i ≡ specs.inside found.entries closed fault) }
{
    let attrs = listed(alloc, found)?;
    Ok(Inside {
        attrs,
        closed,
        fault,
    })
}

/// The reading of a tag ends at a fault.
fn broken<'a>(
    alloc: Global,
    found: BTreeMap<Txt, Txt>,
    before: Option<HtmlFault>,
    fault: HtmlFault,
    reader: Reader<'a>,
) -> Result<(Inside, Reader<'a>), AllocError>
    ensures { IfOk result (λ r. r ≡ specs.broken found.entries before fault reader.entry) }
{
    let inside = ended(alloc, found, false, Some(met_or(before, fault)))?;
    Ok((inside, reader))
}

/// Behind a `/` at a place.
fn read_slash<'a>(
    alloc: Global,
    total: usize,
    found: BTreeMap<Txt, Txt>,
    fault: Option<HtmlFault>,
    place: usize,
    reader: Reader<'a>,
) -> Result<(Inside, Reader<'a>), AllocError>
    ensures { IfOk result (λ r. r ≡ specs.slash total found.entries fault place reader.entry) }
{
    match reader.first() {
        None => broken(alloc, found, fault, cut(total), reader),
        Some((c, _, rest)) => {
            if c == '>' {
                Ok((ended(alloc, found, true, fault)?, rest))
            } else {
                broken(alloc, found, fault, bad(place), reader)
            }
        }
    }
}

/// The attributes up to the end of the tag.
#[tactic(auto, using(crate::proofs::AttributeTurns::attribute_turns))]
pub fn read_attributes<'a>(
    alloc: Global,
    total: usize,
    mut reader: Reader<'a>,
) -> Result<(Inside, Reader<'a>), AllocError>
    ensures { IfOk result (λ r. r ≡ specs.attributes total reader.entry) }
{
    let mut found = BTreeMap::new(alloc);
    let mut fault = None;
    while let Some((c, place, rest)) = reader.first() {
        if c == '>' {
            return Ok((ended(alloc, found, false, fault)?, rest));
        }
        if c == '/' {
            return read_slash(alloc, total, found, fault, place, rest);
        }
        if space(c) {
            reader = rest;
        } else {
            match read_attribute(alloc, total, c, place, rest)? {
                Err(e) => return broken(alloc, found, fault, e, reader),
                Ok((name, value, rest)) => {
                    let Decoded { text, fault: inner } = value;
                    insert(&mut found, name, text)?;
                    fault = met_first(fault, inner);
                    reader = rest;
                }
            }
        }
    }
    broken(alloc, found, fault, cut(total), reader)
}
