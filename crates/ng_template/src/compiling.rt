//! Compiles a document.
ghost use Rattle.std.specs.Prelude.{◌≡◌, [], None, Ok, true, IfOk, option_map, unwrap_or};
ghost use Rattle.ng_base.specs.Meets.{Gives};
ghost use Rattle.ng_html.specs.Seen.{node_of, forest_of};
ghost use Rattle.ng_html.specs.TreeSeen.{source_of};
ghost use Rattle.ng_interp.specs.Parts.{pieces_in};
ghost use Rattle.ng_directives.specs.Places.{first_place};
ghost use Rattle.ng_template.specs.Compiles.{past as past_of, text_made, after_node as after_node_of, after_forest as after_forest_of, contents_made, inside_made, passed_over as passed_over_of, emptied_inside as emptied_inside_of, emptied_made, element_made, closed_made, rounds as rounds_of, compiled_node, compiled_forest, compiled, apart_inside};
ghost use Rattle.ng_template.specs.AroundOf.{inside_of, blocks_of, case_of, outermost_of};
ghost use Rattle.ng_directives.specs.Free.{is_tpl_want};
ghost use Rattle.ng_drawing.specs.Numbering.{is_regular};
ghost use Rattle.ng_parts.specs.Seen.{part_of, contents_of, parts_of};
ghost use Rattle.ng_parts.specs.FragmentOf.{fragments_of};
ghost use Rattle.ng_parts.specs.TemplateOf.{template_of};
ghost use Rattle.ng_elements.specs.HeadOf.{head_of, made_of};
ghost use Rattle.ng_directives.specs.Texts.{judged};

use crate::around::{Around, Block, Found, Inside, find_blocks};
use crate::wrapping::{Outermost, wrap};
use ng_base::txt::Txt;
use ng_collect::{Pick, Registry};
use ng_directives::fault::{TplFault, TplKind};
use ng_directives::known::Known;
use ng_directives::texts::{count_holes, first_of, place_parts, read_text, refusal, worn};
use ng_drawing::kind::SiteKind;
use ng_elements::elements::{Element, has_template, is_apart};
use ng_elements::heads::{finished, given_at, in_place, opened_at, switch_inside};
use ng_elements::plain::plain_part;
use ng_elements::using::{any_templates, transcludes};
use ng_html::attrs::Attrs;
use ng_html::forest::{Forest, Node};
use ng_html::source::Source;
use ng_parts::fragment::Fragment;
use ng_parts::parts::{Contents, Part, Parts, bound as bound_to, children, comment, text};
use ng_parts::site::SITE_LIMIT;
use ng_parts::tpl::{Making, Tpl};
use std::alloc::Global;

/// A text, whose sites come after those before.
fn text_at<'a>(
    alloc: Global,
    known: &mut Known,
    whole: &Txt,
    made: Making<'a>,
) -> Result<(Part, Making<'a>), TplFault>
    ensures { Gives is_tpl_want (λ q. (part_of q.0, made_of q.1)) (text_made (made_of made.entry) (judged (first_place (made_of made.entry).places) (pieces_in whole.now))) result }
{
    let (first, others) = first_of(made.places);
    let parts = read_text(alloc, known, first, whole)?;
    if made.sites.len() + count_holes(parts.as_slice()) > SITE_LIMIT {
        return Err(worn());
    }
    let (pieces, sites) = place_parts(alloc, SiteKind::Text, made.sites, parts)?;
    Ok((
        text(pieces),
        Making {
            places: others,
            sites,
            outlets: made.outlets,
            bodies: made.bodies,
        },
    ))
}

/// The same after one place more.
fn past(made: Making<'_>) -> Making<'_>
    ensures { made_of result ≡ past_of (made_of made.entry) }
{
    let (_, others) = first_of(made.places);
    Making {
        places: others,
        ..made
    }
}

/// The places that are left after a node and all nodes in it.
#[cycle(pass)]
fn after_node<'a>(node: &Node, places: &'a [u64]) -> &'a [u64]
    ensures { result.now ≡ after_node_of (node_of node.now) places.now }
{
    let (_, others) = first_of(places);
    match node {
        Node::Text(_) => others,
        Node::Comment(_) => others,
        Node::Element { kids, .. } => after_forest(kids, others),
    }
}

/// The places that are left after a forest.
#[cycle(pass)]
fn after_forest<'a>(forest: &Forest, places: &'a [u64]) -> &'a [u64]
    ensures { result.now ≡ after_forest_of (forest_of forest.now) places.now }
{
    let mut left = places;
    for node in &forest.items {
        left = after_node(node, left);
    }
    left
}

/// What is being made, after the places of a node and of all nodes in it.
fn past_all<'a>(node: &Node, made: Making<'a>) -> Making<'a>
    ensures { made_of result ≡ record (made_of made.entry) { places = after_node_of (node_of node.now) (made_of made.entry).places } }
{
    Making {
        places: after_node(node, made.places),
        ..made
    }
}

/// A fragment without sites and outlets.
fn begun_body<'a>(alloc: Global, places: &'a [u64], bodies: Vec<Fragment>) -> Making<'a>
    ensures { made_of result ≡ record { places = places.now; sites = []; outlets = []; bodies = fragments_of bodies.items } }
{
    Making {
        places,
        sites: Vec::new(alloc),
        outlets: Vec::new(alloc),
        bodies,
    }
}

/// What is round an element: the outermost, and the blocks in that.
fn rounds(switch: Option<u32>, found: Found) -> Option<(Outermost, Vec<Block>)>
    ensures { option_map (λ r. (outermost_of r.0, blocks_of r.1.items)) result ≡ rounds_of (unwrap_or switch 0) (option_map case_of found.case) (blocks_of found.heads.items) }
{
    let Found { case, heads } = found;
    match case {
        Some(case) => Some((Outermost::Case(switch.unwrap_or(0), case), heads)),
        None => {
            let mut others = heads;
            if others.is_empty() {
                return None;
            }
            let first = others.remove(0);
            Some((Outermost::Block(first), others))
        }
    }
}

/// The part of a node, which may have a switch round it, of whose site this is the number.
#[cycle(build)]
fn part_at<'a>(
    alloc: Global,
    r: &Registry,
    slots: bool,
    known: &mut Known,
    outer: Option<u32>,
    node: &Node,
    made: Making<'a>,
) -> Result<(Part, Making<'a>), TplFault>
    ensures { Gives is_tpl_want (λ q. (part_of q.0, made_of q.1)) (compiled_node r.now slots outer (node_of node.now) (made_of made.entry)) result }
{
    match node {
        Node::Text(whole) => text_at(alloc, known, whole, made),
        Node::Comment(whole) => Ok((comment(whole.copied()?), past(made))),
        Node::Element { name, attrs, kids } => {
            let (place, _) = first_of(made.places);
            let Around { found, inside } = find_blocks(
                alloc,
                known,
                node,
                r,
                place,
                slots,
                outer.is_some(),
            )?;
            match rounds(outer, found) {
                None => element_at(
                    alloc, r, slots, known, outer, kids, node, name, attrs, inside, made,
                ),
                Some((outermost, others)) => {
                    let Making {
                        places,
                        sites,
                        outlets,
                        bodies,
                    } = made;
                    let body = begun_body(alloc, places, bodies);
                    let (part, after) = element_at(
                        alloc, r, slots, known, None, kids, node, name, attrs, inside, body,
                    )?;
                    wrap(alloc, outermost, others, sites, outlets, part, after)
                }
            }
        }
    }
}

/// The children of an element are a body of their own, after those that are made.
#[cycle(build)]
fn apart_at<'a>(
    alloc: Global,
    r: &Registry,
    slots: bool,
    known: &mut Known,
    kids: &Forest,
    e: Element,
    made: Making<'a>,
) -> Result<(Element, Contents, Making<'a>), TplFault>
    ensures { Gives is_tpl_want (λ q. (head_of q.0, contents_of q.1, made_of q.2)) (apart_inside (forest_of kids.now) (λ o k. compiled_forest r.now slots o (forest_of kids.now) k) (head_of e) (made_of made.entry)) result }
{
    let Making {
        places,
        sites,
        outlets,
        bodies,
    } = made;
    let body = begun_body(alloc, places, bodies);
    let (parts, after) = parts_at(alloc, r, slots, known, None, kids, body)?;
    given_at(alloc, kids, e, sites, outlets, parts, after)
}

/// The contents of an element whose children are not compiled, since a template will stand in their place.
#[cycle(build)]
fn emptied_inside<'a>(
    alloc: Global,
    r: &Registry,
    slots: bool,
    known: &mut Known,
    kids: &Forest,
    e: Element,
    made: Making<'a>,
) -> Result<(Element, Contents, Making<'a>), TplFault>
    ensures { Gives is_tpl_want (λ q. (head_of q.0, contents_of q.1, made_of q.2)) (emptied_inside_of r.now (forest_of kids.now) (λ o k. compiled_forest r.now slots o (forest_of kids.now) k) (head_of e) (made_of made.entry)) result }
{
    if transcludes(r, &e.acts.uses) {
        return apart_at(alloc, r, slots, known, kids, e, made);
    }
    let contents = in_place(alloc, e.bound);
    Ok((e, contents, passed_over(kids, made)))
}

/// An element of which all is made but its contents, and whose children are not compiled, since a template will stand in their place.
#[cycle(build)]
fn emptied_with<'a>(
    alloc: Global,
    r: &Registry,
    slots: bool,
    known: &mut Known,
    kids: &Forest,
    name: &Txt,
    e: Element,
    inner: Making<'a>,
) -> Result<(Part, Making<'a>), TplFault>
    ensures { Gives is_tpl_want (λ q. (part_of q.0, made_of q.1)) (closed_made name.now (emptied_inside_of r.now (forest_of kids.now) (λ o k. compiled_forest r.now slots o (forest_of kids.now) k) (head_of e) (made_of inner.entry))) result }
{
    let (e, contents, after) = emptied_inside(alloc, r, slots, known, kids, e, inner)?;
    Ok((finished(alloc, name, e, contents)?, after))
}

/// An element by itself whose children are not compiled, since a template will stand in their place.
#[cycle(build)]
fn emptied_at<'a>(
    alloc: Global,
    r: &Registry,
    slots: bool,
    known: &mut Known,
    kids: &Forest,
    name: &Txt,
    attrs: &Attrs,
    picked: Vec<Pick>,
    made: Making<'a>,
) -> Result<(Part, Making<'a>), TplFault>
    ensures { Gives is_tpl_want (λ q. (part_of q.0, made_of q.1)) (emptied_made r.now name.now attrs.now (forest_of kids.now) (λ o k. compiled_forest r.now slots o (forest_of kids.now) k) picked.items (made_of made.entry)) result }
{
    let (place, _) = first_of(made.places);
    if any_templates(r, picked.as_slice()) {
        return Err(refusal(TplKind::MultiDir, place));
    }
    let (e, inner) = opened_at(alloc, r, known, name, attrs, picked.as_slice(), made)?;
    emptied_with(alloc, r, slots, known, kids, name, e, inner)
}

/// Children in whose place something else stands.
fn passed_over<'a>(kids: &Forest, made: Making<'a>) -> Making<'a>
    ensures { made_of result ≡ passed_over_of (forest_of kids.now) (made_of made.entry) }
{
    Making {
        places: after_forest(kids, made.places),
        ..made
    }
}

/// An element of which all is made but its contents.
#[cycle(build)]
fn filled_with<'a>(
    alloc: Global,
    r: &Registry,
    slots: bool,
    known: &mut Known,
    outer: Option<u32>,
    kids: &Forest,
    name: &Txt,
    e: Element,
    inner: Making<'a>,
) -> Result<(Part, Making<'a>), TplFault>
    ensures { Gives is_tpl_want (λ q. (part_of q.0, made_of q.1)) (closed_made name.now (inside_made r.now (forest_of kids.now) (λ o k. compiled_forest r.now slots o (forest_of kids.now) k) outer (head_of e) (made_of inner.entry))) result }
{
    let (e, contents, after) = inside_at(alloc, r, slots, known, outer, kids, e, inner)?;
    Ok((finished(alloc, name, e, contents)?, after))
}

/// The part of an element by itself.
#[cycle(build)]
fn element_at<'a>(
    alloc: Global,
    r: &Registry,
    slots: bool,
    known: &mut Known,
    outer: Option<u32>,
    kids: &Forest,
    node: &Node,
    name: &Txt,
    attrs: &Attrs,
    inside: Inside,
    made: Making<'a>,
) -> Result<(Part, Making<'a>), TplFault>
    ensures { Gives is_tpl_want (λ q. (part_of q.0, made_of q.1)) (element_made r.now (node_of node.now) name.now attrs.now (forest_of kids.now) (inside_of inside) (λ o k. compiled_forest r.now slots o (forest_of kids.now) k) outer (made_of made.entry)) result }
{
    match inside {
        Inside::Plain => Ok((plain_part(alloc, node)?, past_all(node, made))),
        Inside::Picks(picked) => {
            let (e, inner) = opened_at(alloc, r, known, name, attrs, picked.as_slice(), made)?;
            filled_with(alloc, r, slots, known, outer, kids, name, e, inner)
        }
        Inside::Template(picked) => emptied_at(
            alloc, r, slots, known, kids, name, attrs, picked, made,
        ),
    }
}

/// The contents of an element: its children, unless a template or a text stands in their place.
#[cycle(build)]
fn inside_at<'a>(
    alloc: Global,
    r: &Registry,
    slots: bool,
    known: &mut Known,
    outer: Option<u32>,
    kids: &Forest,
    e: Element,
    made: Making<'a>,
) -> Result<(Element, Contents, Making<'a>), TplFault>
    ensures { Gives is_tpl_want (λ q. (head_of q.0, contents_of q.1, made_of q.2)) (inside_made r.now (forest_of kids.now) (λ o k. compiled_forest r.now slots o (forest_of kids.now) k) outer (head_of e) (made_of made.entry)) result }
{
    if is_apart(r, &e) {
        return apart_at(alloc, r, slots, known, kids, e, made);
    }
    if has_template(&e) {
        let contents = in_place(alloc, e.bound);
        return Ok((e, contents, passed_over(kids, made)));
    }
    let near = switch_inside(r, &e, outer);
    let (contents, after) = contents_at(alloc, r, slots, known, near, e.bound, kids, made)?;
    Ok((e, contents, after))
}

/// The contents of an element: its children, unless the text of a site stands in their place.
#[cycle(build)]
fn contents_at<'a>(
    alloc: Global,
    r: &Registry,
    slots: bool,
    known: &mut Known,
    near: Option<u32>,
    bound: Option<u32>,
    kids: &Forest,
    made: Making<'a>,
) -> Result<(Contents, Making<'a>), TplFault>
    ensures { Gives is_tpl_want (λ q. (contents_of q.0, made_of q.1)) (contents_made bound (forest_of kids.now) (made_of made.entry) (compiled_forest r.now slots near (forest_of kids.now) (made_of made.entry))) result }
{
    match bound {
        None => {
            let (parts, after) = parts_at(alloc, r, slots, known, near, kids, made)?;
            Ok((children(parts), after))
        }
        Some(n) => Ok((bound_to(n), passed_over(kids, made))),
    }
}

/// The parts of a forest.
#[cycle(build)]
fn parts_at<'a>(
    alloc: Global,
    r: &Registry,
    slots: bool,
    known: &mut Known,
    near: Option<u32>,
    forest: &Forest,
    made: Making<'a>,
) -> Result<(Parts, Making<'a>), TplFault>
    ensures { Gives is_tpl_want (λ q. (parts_of q.0, made_of q.1)) (compiled_forest r.now slots near (forest_of forest.now) (made_of made.entry)) result }
{
    let mut parts = Parts::new(alloc);
    let mut now = made;
    for node in &forest.items {
        let (part, after) = part_at(alloc, r, slots, known, near, node, now)?;
        parts.push(part)?;
        now = after;
    }
    Ok((parts, now))
}

/// Compiles a document (guide: HTML Compiler). The first refusal in document order stands, at the `<` of its element or at the first
/// byte of its text: in an element LeftOut, MultiDir, Orphan where no slot may stand, CaseWithoutSwitch, what is wrong with the text of a block round
/// it, and then directive by directive, in their order, Expression, UnknownFilter and, unless it is a program that runs, Impure; in a text Expression
/// of all its holes, UnknownFilter of all, then Impure of all. The children in whose place a bound text or a template stands are neither compiled nor
/// refused, unless a directive transcludes them. Of a plain element and of what is in it nothing is read.
pub fn compile(alloc: Global, s: &Source, r: &Registry, slots: bool) -> Result<Tpl, TplFault>
    ensures template { Gives is_tpl_want template_of (compiled (source_of s.now) r.now slots) result }
    ensures regular { IfOk result (λ t. is_regular (template_of t) ≡ true) }
{
    let made = begun_body(alloc, s.places.as_slice(), Vec::new(alloc));
    let (parts, made) = parts_at(
        alloc,
        r,
        slots,
        &mut Known::new(alloc),
        None,
        &s.forest,
        made,
    )?;
    let own = Fragment::alone(alloc, parts, made.sites, made.outlets);
    Ok(Tpl::new(own, made.bodies))
}
