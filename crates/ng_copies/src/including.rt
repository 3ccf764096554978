//! A template in an element (API: ngInclude). Its sites follow those of the element, so that each number of one is higher.
ghost use Rattle.std.specs.Prelude.{◌≡◌, ◌++◌, ◌∷◌, [], map, length, Some, option_map, MatchOption, IfOk, OnOk};
ghost use Rattle.ng_drawing.specs.Included.{later_hiding, later_class, later_value, later_attributes, later_part, later_contents, later_parts, later_outlet, is_no_parts, is_childless, opened_part, opened_with, opened, filled_with, included_in, included as included_of};
ghost use Rattle.ng_drawing.specs.Template.{parts_from};
ghost use Rattle.ng_parts.specs.AttributeOf.{hiding_of, class_of, value_of};
ghost use Rattle.ng_parts.specs.FragmentOf.{sites_of, outlet_of, fragment_of};
ghost use Rattle.ng_drawing.specs.Numbering.{HasOrder};
ghost use Rattle.ng_parts.specs.Seen.{part_of, contents_of, parts_of};
ghost use Rattle.ng_copies.specs.WholeOf.{opened_of, whole_of};

use crate::later::{later_acts, later_numbers, later_pieces};
use ng_base::fault::Memory;
use ng_base::txt::Txt;
use ng_parts::acts::{Acts, copied_acts, copied_numbers, copied_programs};
use ng_parts::classes::{ClassValue, Hiding};
use ng_parts::fragment::Fragment;
use ng_parts::outlets::Outlet;
use ng_parts::parts::{Contents, Part, Parts, anchor, bound, children, comment, element, text};
use ng_parts::pieces::{AttributeValue, Attributes};
use ng_parts::site::{SITE_LIMIT, Site, after};
use std::alloc::{AllocError, Global};

/// A fragment, of a template or made of two.
#[derive(Drop)]
pub enum Whole<'a> {
    Kept(&'a Fragment),
    Made(Fragment),
}

/// An element without children: its name, the numbers of its own sites, what it does and its attributes.
#[derive(Drop)]
struct Opened<'a> {
    name: &'a Txt,
    own: &'a [u32],
    acts: &'a Acts,
    attributes: &'a Attributes,
}

impl Whole<'_> {
    /// The fragment.
    pub fn fragment(&self) -> &Fragment
        ensures { fragment_of result.now ≡ whole_of self.now }
    {
        match self {
            Whole::Kept(fragment) => fragment,
            Whole::Made(fragment) => fragment,
        }
    }
}

/// What hides an element.
fn later_hiding(by: u32, hiding: &Hiding) -> Result<Hiding, Memory>
    ensures { IfOk result (λ h. hiding_of h ≡ later_hiding by (hiding_of hiding.now)) }
{
    match hiding {
        Hiding::WhileTrue(n) => Ok(Hiding::WhileTrue(after(by, *n)?)),
        Hiding::WhileFalse(n) => Ok(Hiding::WhileFalse(after(by, *n)?)),
    }
}

/// All that hides an element.
fn later_hidings(alloc: Global, by: u32, hidings: &[Hiding]) -> Result<Vec<Hiding>, Memory>
    ensures { IfOk result (λ v. map hiding_of v.items ≡ map (later_hiding by) (map hiding_of hidings.now)) }
{
    let mut moved = Vec::new(alloc);
    for hiding in hidings {
        moved.push(later_hiding(by, hiding)?)?;
    }
    Ok(moved)
}

/// What a class is made of.
fn later_class(alloc: Global, by: u32, class: &ClassValue) -> Result<ClassValue, Memory>
    ensures { IfOk result (λ c. class_of c ≡ later_class by (class_of class.now)) }
{
    Ok(ClassValue {
        written: class.written,
        pieces: later_pieces(alloc, by, &class.pieces)?,
        words: later_numbers(alloc, by, class.words.as_slice())?,
        hidings: later_hidings(alloc, by, class.hidings.as_slice())?,
    })
}

/// What an attribute gets.
fn later_value(alloc: Global, by: u32, value: &AttributeValue) -> Result<AttributeValue, Memory>
    ensures { IfOk result (λ v. value_of v ≡ later_value by (value_of value.now)) }
{
    match value {
        AttributeValue::Always(pieces) => {
            Ok(AttributeValue::Always(later_pieces(alloc, by, pieces)?))
        }
        AttributeValue::UnlessEmpty(pieces) => {
            Ok(AttributeValue::UnlessEmpty(later_pieces(alloc, by, pieces)?))
        }
        AttributeValue::Flag(word, n) => Ok(AttributeValue::Flag(word.copied()?, after(by, *n)?)),
        AttributeValue::Classes(class) => {
            Ok(AttributeValue::Classes(later_class(alloc, by, class)?))
        }
    }
}

/// The attributes of an element.
fn later_attributes(alloc: Global, by: u32, attributes: &Attributes) -> Result<Attributes, Memory>
    ensures { IfOk result (λ a. a ≡ later_attributes by attributes.now) }
{
    let mut moved = Attributes::new(alloc);
    for one in attributes.as_slice() {
        moved.push(one.name.copied()?, later_value(alloc, by, &one.value)?)?;
    }
    Ok(moved)
}

/// All that hides an element, again.
fn copied_hidings(alloc: Global, hidings: &[Hiding]) -> Result<Vec<Hiding>, AllocError>
    ensures { IfOk result (λ v. map hiding_of v.items ≡ map hiding_of hidings.now) }
{
    let mut copies = Vec::new(alloc);
    for hiding in hidings {
        copies.push(match hiding {
            Hiding::WhileTrue(n) => Hiding::WhileTrue(*n),
            Hiding::WhileFalse(n) => Hiding::WhileFalse(*n),
        })?;
    }
    Ok(copies)
}

/// What a class is made of, again.
fn copied_class(alloc: Global, class: &ClassValue) -> Result<ClassValue, AllocError>
    ensures { IfOk result (λ c. class_of c ≡ class_of class.now) }
{
    Ok(ClassValue {
        written: class.written,
        pieces: class.pieces.copied(alloc)?,
        words: copied_numbers(alloc, class.words.as_slice())?,
        hidings: copied_hidings(alloc, class.hidings.as_slice())?,
    })
}

/// What an attribute gets, again.
fn copied_value(alloc: Global, value: &AttributeValue) -> Result<AttributeValue, AllocError>
    ensures { IfOk result (λ v. value_of v ≡ value_of value.now) }
{
    match value {
        AttributeValue::Always(pieces) => Ok(AttributeValue::Always(pieces.copied(alloc)?)),
        AttributeValue::UnlessEmpty(pieces) => {
            Ok(AttributeValue::UnlessEmpty(pieces.copied(alloc)?))
        }
        AttributeValue::Flag(word, n) => Ok(AttributeValue::Flag(word.copied()?, *n)),
        AttributeValue::Classes(class) => Ok(AttributeValue::Classes(copied_class(alloc, class)?)),
    }
}

/// The attributes of an element, again.
fn copied_attributes(alloc: Global, attributes: &Attributes) -> Result<Attributes, AllocError>
    ensures { IfOk result (λ a. a ≡ attributes.now) }
{
    let mut copies = Attributes::new(alloc);
    for one in attributes.as_slice() {
        copies.push(one.name.copied()?, copied_value(alloc, &one.value)?)?;
    }
    Ok(copies)
}

/// A part.
#[cycle(later)]
fn later_part(alloc: Global, by: u32, part: &Part) -> Result<Part, Memory>
    ensures { IfOk result (λ p. part_of p ≡ later_part by (part_of part.now)) }
{
    match part {
        Part::Text(pieces) => Ok(text(later_pieces(alloc, by, pieces)?)),
        Part::Comment(words) => Ok(comment(words.copied()?)),
        Part::Element {
            name,
            own,
            acts,
            attributes,
            contents,
        } => {
            let own = later_numbers(alloc, by, own.as_slice())?;
            let acts = later_acts(alloc, by, acts)?;
            let attributes = later_attributes(alloc, by, attributes)?;
            let contents = later_contents(alloc, by, contents)?;
            Ok(element(name.copied()?, own, acts, attributes, contents))
        }
        Part::Anchor {
            outlet,
            own,
            starts,
        } => {
            let own = later_numbers(alloc, by, own.as_slice())?;
            Ok(anchor(*outlet, own, copied_programs(alloc, starts.as_slice())?))
        }
    }
}

/// The contents of an element.
#[cycle(later)]
fn later_contents(alloc: Global, by: u32, contents: &Contents) -> Result<Contents, Memory>
    ensures { IfOk result (λ c. contents_of c ≡ later_contents by (contents_of contents.now)) }
{
    match contents {
        Contents::Children(parts) => Ok(children(later_parts(alloc, by, parts)?)),
        Contents::Bound(n) => Ok(bound(after(by, *n)?)),
    }
}

/// Parts.
#[cycle(later)]
fn later_parts(alloc: Global, by: u32, parts: &Parts) -> Result<Parts, Memory>
    ensures { IfOk result (λ ps. parts_of ps ≡ later_parts by (parts_of parts.now)) }
{
    let mut moved = Parts::new(alloc);
    for part in parts.as_slice() {
        let later = later_part(alloc, by, part)?;
        moved.push(later)?;
    }
    Ok(moved)
}

/// Sites again, after others.
fn add_sites(alloc: Global, into: &mut Vec<Site>, sites: &[Site]) -> Result<(), Memory>
    ensures { OnOk result (sites_of into.new.items ≡ sites_of into.old.items ++ sites_of sites.now) }
{
    for site in sites {
        into.push(site.copied(alloc)?)?;
    }
    Ok(())
}

/// Outlets whose sites come after so many others.
fn later_outlets(alloc: Global, by: u32, outlets: &[Outlet]) -> Result<Vec<Outlet>, Memory>
    ensures { IfOk result (λ v. map outlet_of v.items ≡ map (later_outlet by) (map outlet_of outlets.now)) }
{
    let mut moved = Vec::new(alloc);
    for outlet in outlets {
        moved.push(Outlet {
            site: after(by, outlet.site)?,
            filling: outlet.filling.copied(alloc)?,
        })?;
    }
    Ok(moved)
}

/// The first part and the others.
fn first_part(parts: &[Part]) -> Option<(&Part, &[Part])>
    ensures { MatchOption result (parts.now ≡ []) (λ r. parts.now ≡ r.0.now ∷ r.1.now) }
{
    parts.split_first()
}

/// Whether there is no part.
fn has_none(parts: &[Part]) -> bool
    ensures { result ≡ is_no_parts (parts_from (map part_of parts.now)) }
{
    match first_part(parts) {
        None => true,
        Some(_) => false,
    }
}

/// Whether contents have no child and no text.
fn is_childless(contents: &Contents) -> bool
    ensures { result ≡ is_childless (contents_of contents.now) }
{
    match contents {
        Contents::Children(parts) => has_none(parts.as_slice()),
        Contents::Bound(_) => false,
    }
}

/// An element without children.
fn opened_part(part: &Part) -> Option<Opened<'_>>
    ensures { option_map opened_of result ≡ opened_part (part_of part.now) }
{
    match part {
        Part::Text(_) => None,
        Part::Comment(_) => None,
        Part::Element {
            name,
            own,
            acts,
            attributes,
            contents,
        } => {
            if is_childless(contents) {
                Some(Opened {
                    name,
                    own: own.as_slice(),
                    acts,
                    attributes,
                })
            } else {
                None
            }
        }
        Part::Anchor { .. } => None,
    }
}

/// An element without children, if no part follows it.
fn opened_with<'a>(part: &'a Part, others: &[Part]) -> Option<Opened<'a>>
    ensures { option_map opened_of result ≡ opened_with (part_of part.now) (parts_from (map part_of others.now)) }
{
    if has_none(others) {
        opened_part(part)
    } else {
        None
    }
}

/// An element without children, which is all that there is.
fn opened_in(parts: &Parts) -> Option<Opened<'_>>
    ensures { option_map opened_of result ≡ opened (parts_of parts.now) }
{
    match first_part(parts.as_slice()) {
        None => None,
        Some((part, others)) => opened_with(part, others),
    }
}

/// An element with these children.
fn filled(alloc: Global, e: &Opened<'_>, kids: Parts) -> Result<Parts, Memory>
    ensures { IfOk result (λ ps. parts_of ps ≡ filled_with (opened_of e.now) (parts_of kids)) }
{
    let own = copied_numbers(alloc, e.own)?;
    let acts = copied_acts(alloc, e.acts)?;
    let attributes = copied_attributes(alloc, e.attributes)?;
    let part = element(e.name.copied()?, own, acts, attributes, children(kids));
    let mut parts = Parts::new(alloc);
    parts.push(part)?;
    Ok(parts)
}

/// The sites of two fragments, one after the other.
fn all_sites(alloc: Global, f: &Fragment, g: &Fragment) -> Result<Vec<Site>, Memory>
    ensures { IfOk result (λ v. sites_of v.items ≡ (fragment_of f.now).sites ++ (fragment_of g.now).sites) }
{
    let mut sites = Vec::new(alloc);
    add_sites(alloc, &mut sites, f.sites())?;
    add_sites(alloc, &mut sites, g.sites())?;
    Ok(sites)
}

/// How many sites a fragment has.
fn site_count(f: &Fragment) -> Result<u32, Memory>
    ensures { IfOk result (λ n. n ≡ length (fragment_of f.now).sites) }
{
    let count = f.sites().len();
    if count > SITE_LIMIT {
        return Err(Memory::Worn);
    }
    Ok(count as u32)
}

/// An element with the parts of a template as its children.
fn with_children(
    alloc: Global,
    f: &Fragment,
    g: &Fragment,
    e: &Opened<'_>,
) -> Result<Fragment, Memory>
    ensures { IfOk result (λ x. fragment_of x ≡ included_in (Some (opened_of e.now)) (fragment_of f.now) (fragment_of g.now)) }
{
    let by = site_count(f)?;
    let kids = later_parts(alloc, by, g.parts())?;
    let parts = filled(alloc, e, kids)?;
    let sites = all_sites(alloc, f, g)?;
    let outlets = later_outlets(alloc, by, g.outlets())?;
    Ok(Fragment::alone(alloc, parts, sites, outlets))
}

/// A template in an element that has no children yet. What is no such element is replaced by it.
pub fn included<'a>(alloc: Global, f: &Fragment, g: &'a Fragment) -> Result<Whole<'a>, Memory>
    requires element { HasOrder (fragment_of f.now) }
    requires template { HasOrder (fragment_of g.now) }
    ensures included { IfOk result (λ w. whole_of w ≡ included_of (fragment_of f.now) (fragment_of g.now)) }
    ensures order { IfOk result (λ w. HasOrder (whole_of w)) }
{
    match opened_in(f.parts()) {
        None => Ok(Whole::Kept(g)),
        Some(e) => Ok(Whole::Made(with_children(alloc, f, g, &e)?)),
    }
}
