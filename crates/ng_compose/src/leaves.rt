//! Parts of a composed fragment without children: texts, comments and anchors, each where one node more may be written; and where all ends.
ghost use Rattle.std.specs.Prelude.{◌≡◌, [], true, map, option_map, IfOk, OnOk};
ghost use Rattle.ng_drawing.specs.Template.{no_acts, one_scope, comment_part, element_part, children, no_parts};
ghost use Rattle.ng_parse.specs.ProgramOf.{program};
ghost use Rattle.ng_parts.specs.ActsOf.{acts_of};
ghost use Rattle.ng_compose.specs.ComposedOf.{region_of, composed_of, written_part};
ghost use Rattle.ng_drawing.specs.Composing.{gives, ends, alone, writes, followed, text_composed, anchor_there, anchor_composed, bound_composed, deep_part};
ghost use Rattle.ng_parts.specs.Seen.{part_of, contents_of, parts_of};

use crate::composed::{Composed, add_holes, has_site, on};
use crate::regions::Region;
use ng_base::fault::Memory;
use ng_base::txt::Txt;
use ng_copies::moving::{moved_numbers, moved_pieces, number};
use ng_parse::Program;
use ng_parts::acts::{Acts, copied_programs};
use ng_parts::parts::{Contents, Part, Parts, anchor, bound, children, comment, element, text};
use ng_parts::pieces::{Attributes, Pieces};
use std::alloc::{AllocError, Global};

/// A text.
fn compose_text(
    alloc: Global,
    region: &Region<'_>,
    made: &mut Composed,
    pieces: &Pieces,
) -> Result<Part, Memory>
    ensures { IfOk result (λ p. (alone (part_of p), composed_of made.new) ≡ text_composed (region_of region.now) pieces.now (composed_of made.old)) }
{
    let mut numbers = Vec::new(alloc);
    add_holes(&mut numbers, pieces)?;
    made.add_sites(alloc, region, on(region.scope), numbers.as_slice())?;
    Ok(text(moved_pieces(alloc, made.moved.as_slice(), pieces)?))
}

/// An anchor whose outlet has a site.
fn compose_outlet(
    alloc: Global,
    region: &Region<'_>,
    made: &mut Composed,
    outlet: u32,
    own: &[u32],
    starts: &[Program],
) -> Result<Part, Memory>
    ensures { IfOk result (λ p. (alone (part_of p), composed_of made.new) ≡ anchor_there (region_of region.now) outlet own.now (map program starts.now) (composed_of made.old)) }
{
    made.add_sites(alloc, region, on(region.scope), own)?;
    let own = moved_numbers(alloc, made.moved.as_slice(), own)?;
    let n = made.add_outlet(alloc, region, outlet)?;
    Ok(anchor(n, own, copied_programs(alloc, starts)?))
}

/// An anchor.
fn compose_anchor(
    alloc: Global,
    region: &Region<'_>,
    made: &mut Composed,
    outlet: u32,
    own: &[u32],
    starts: &[Program],
) -> Result<Option<Part>, Memory>
    ensures { IfOk result (λ p. (written_part (option_map part_of p), composed_of made.new) ≡ anchor_composed (region_of region.now) outlet own.now (map program starts.now) (composed_of made.old)) }
{
    if has_site(region.source, made.moved.as_slice(), outlet, own) {
        Ok(Some(compose_outlet(alloc, region, made, outlet, own, starts)?))
    } else {
        made.ended = true;
        Ok(None)
    }
}

/// A text, unless no more nodes may be written.
pub(crate) fn write_text(
    alloc: Global,
    region: &Region<'_>,
    made: &mut Composed,
    pieces: &Pieces,
) -> Result<Option<Part>, Memory>
    ensures { IfOk result (λ p. (written_part (option_map part_of p), composed_of made.new) ≡ writes (text_composed (region_of region.now) pieces.now) (composed_of made.old)) }
{
    if made.write_node() {
        Ok(Some(compose_text(alloc, region, made, pieces)?))
    } else {
        Ok(None)
    }
}

/// A comment, unless no more nodes may be written.
pub(crate) fn write_comment(made: &mut Composed, words: &Txt) -> Result<Option<Part>, Memory>
    ensures { IfOk result (λ p. (written_part (option_map part_of p), composed_of made.new) ≡ writes (gives (alone (comment_part words.now))) (composed_of made.old)) }
{
    if made.write_node() {
        Ok(Some(comment(words.copied()?)))
    } else {
        Ok(None)
    }
}

/// An anchor, unless no more nodes may be written.
pub(crate) fn write_anchor(
    alloc: Global,
    region: &Region<'_>,
    made: &mut Composed,
    outlet: u32,
    own: &[u32],
    starts: &[Program],
) -> Result<Option<Part>, Memory>
    ensures { IfOk result (λ p. (written_part (option_map part_of p), composed_of made.new) ≡ writes (anchor_composed (region_of region.now) outlet own.now (map program starts.now)) (composed_of made.old)) }
{
    if made.write_node() {
        compose_anchor(alloc, region, made, outlet, own, starts)
    } else {
        Ok(None)
    }
}

/// That nothing is made of an element.
fn deep_acts(alloc: Global) -> Acts
    ensures { acts_of result ≡ record no_acts { scopes = record one_scope { deep = true } } }
{
    let mut acts = Acts::new(alloc);
    acts.scopes.deep = true;
    acts
}

/// An element without sites, attributes and children.
fn bare_element(alloc: Global, name: Txt, acts: Acts) -> Part
    ensures { part_of result ≡ element_part name [] (acts_of acts) [] (children no_parts) }
{
    let own = Vec::new(alloc);
    let attributes = Attributes::new(alloc);
    let contents = children(Parts::new(alloc));
    element(name, own, acts, attributes, contents)
}

/// An element that is inside too many directives: nothing is made of it, and nothing comes behind it.
pub(crate) fn deep_part(alloc: Global, made: &mut Composed, name: &Txt) -> Result<Part, Memory>
    ensures { IfOk result (λ p. (alone (part_of p), composed_of made.new) ≡ ends (alone (deep_part name.now)) (composed_of made.old)) }
{
    made.ended = true;
    Ok(bare_element(alloc, name.copied()?, deep_acts(alloc)))
}

/// A part more, where one was written.
pub(crate) fn add_part(done: &mut Parts, part: Option<Part>) -> Result<(), AllocError>
    ensures { OnOk result (parts_of done.new ≡ followed (parts_of done.old) (written_part (option_map part_of part))) }
{
    match part {
        None => Ok(()),
        Some(part) => done.push(part),
    }
}

/// Nothing is entered any more.
pub(crate) fn end_contents(alloc: Global, made: &mut Composed) -> Contents
    ensures { (contents_of result, composed_of made.new) ≡ ends (children no_parts) (composed_of made.old) }
{
    made.ended = true;
    children(Parts::new(alloc))
}

/// The text that a site shows.
pub(crate) fn compose_bound(alloc: Global, made: &mut Composed, n: u32) -> Contents
    ensures { (contents_of result, composed_of made.new) ≡ bound_composed n (composed_of made.old) }
{
    if made.write_node() {
        bound(number(made.moved.as_slice(), n))
    } else {
        children(Parts::new(alloc))
    }
}
