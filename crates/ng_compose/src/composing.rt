//! A fragment with the templates of its directives in it (guide: Directives; API: `$compile`, `template`, `transclude`, ngTransclude). Its sites and
//! outlets are numbered anew in document order, and for each it is said on which scope it stands.
ghost use Rattle.std.specs.Prelude.{◌≡◌, ◌+◌, Some, nat_lt, option_map, IfOk};
ghost use Rattle.ng_drawing.specs.Template.{children};
ghost use Rattle.ng_parts.specs.ActsOf.{uses_of, outside_of, scopes_of, acts_of};
ghost use Rattle.ng_compose.specs.ComposedOf.{region_of, composed_of, written_part};
ghost use Rattle.ng_drawing.specs.Composing.{◌▸◌, gives, alone, writes, directive_count, unless_deep, within, scopes_for, scopes_composed, template_in, given_in, slot_entered, given_composed, template_entered, used_composed, element_composed, part_composed, contents_composed, parts_composed, composed_in, fuel_for, region_of as first_region, nothing_composed, fragment_by, composed};
ghost use Rattle.ng_parts.specs.FragmentOf.{fragment_of};
ghost use Rattle.ng_drawing.specs.Named.{fragments_at};
ghost use Rattle.ng_compose.specs.Kept.{templates_of};
ghost use Rattle.ng_drawing.specs.Numbering.{HasOrder};
ghost use Rattle.ng_parts.specs.Seen.{part_of, contents_of, parts_of};
ghost use Rattle.ng_copies.specs.WholeOf.{whole_of};

use crate::composed::{Composed, bound_numbers, on};
use crate::directed::is_directed;
use crate::leaves::{
    add_part, compose_bound, deep_part, end_contents, write_anchor, write_comment, write_text,
};
use crate::regions::{
    Region, content_region, directive_count, given_in, handed_all, outside_in, region_in,
    template_region,
};
use crate::templates::Templates;
use ng_base::fault::Memory;
use ng_base::name::TplId;
use ng_base::txt::Txt;
use ng_copies::including::Whole;
use ng_copies::moving::{moved_acts, moved_attributes, moved_numbers};
use ng_drawing::origin::{Content, Home};
use ng_parts::acts::{Acts, Outside, Scopes, Uses};
use ng_parts::fragment::{Fragment, SiteScopes};
use ng_parts::parts::{Contents, Part, Parts, children, element};
use ng_parts::pieces::Attributes;
use std::alloc::Global;

/// A part, unless no more nodes may be written.
#[cycle(composing)]
fn compose_part(
    all: &Templates,
    alloc: Global,
    fuel: u32,
    region: &Region<'_>,
    made: &mut Composed,
    part: &Part,
) -> Result<Option<Part>, Memory>
    ensures { IfOk result (λ p. (written_part (option_map part_of p), composed_of made.new) ≡ part_composed (fragments_at (templates_of all.now)) (composed_in (fragments_at (templates_of all.now)) fuel) (region_of region.now) (part_of part.now) (composed_of made.old)) }
{
    match part {
        Part::Text(pieces) => write_text(alloc, region, made, pieces),
        Part::Comment(words) => write_comment(made, words),
        Part::Anchor {
            outlet,
            own,
            starts,
        } => write_anchor(
            alloc,
            region,
            made,
            *outlet,
            own.as_slice(),
            starts.as_slice(),
        ),
        Part::Element {
            name,
            own,
            acts,
            attributes,
            contents,
        } => place_element(
            all,
            alloc,
            fuel,
            region,
            made,
            name,
            own.as_slice(),
            acts,
            attributes,
            contents,
        ),
    }
}

/// Whether an element has more directives than may be inside one another here.
fn is_deep(region: &Region<'_>, acts: &Acts) -> bool
    ensures { result ≡ nat_lt (region_of region.now).home.room (directive_count (acts_of acts.now).uses) }
{
    (region.home.room as usize) < directive_count(&acts.uses)
}

/// An element, unless it is inside too many directives.
#[cycle(composing)]
fn place_element(
    all: &Templates,
    alloc: Global,
    fuel: u32,
    region: &Region<'_>,
    made: &mut Composed,
    name: &Txt,
    own: &[u32],
    acts: &Acts,
    attributes: &Attributes,
    contents: &Contents,
) -> Result<Option<Part>, Memory>
    ensures { IfOk result (λ p. (written_part (option_map part_of p), composed_of made.new) ≡ unless_deep (region_of region.now) name.now (acts_of acts.now).uses (element_composed (fragments_at (templates_of all.now)) (composed_in (fragments_at (templates_of all.now)) fuel) (region_of region.now) name.now own.now (acts_of acts.now) attributes.now (λ q. contents_composed (fragments_at (templates_of all.now)) (composed_in (fragments_at (templates_of all.now)) fuel) q (contents_of contents.now))) (composed_of made.old)) }
{
    if is_deep(region, acts) {
        Ok(Some(deep_part(alloc, made, name)?))
    } else {
        write_element(
            all, alloc, fuel, region, made, name, own, acts, attributes, contents,
        )
    }
}

/// An element, unless no more nodes may be written.
#[cycle(composing)]
fn write_element(
    all: &Templates,
    alloc: Global,
    fuel: u32,
    region: &Region<'_>,
    made: &mut Composed,
    name: &Txt,
    own: &[u32],
    acts: &Acts,
    attributes: &Attributes,
    contents: &Contents,
) -> Result<Option<Part>, Memory>
    ensures { IfOk result (λ p. (written_part (option_map part_of p), composed_of made.new) ≡ writes (element_composed (fragments_at (templates_of all.now)) (composed_in (fragments_at (templates_of all.now)) fuel) (region_of region.now) name.now own.now (acts_of acts.now) attributes.now (λ q. contents_composed (fragments_at (templates_of all.now)) (composed_in (fragments_at (templates_of all.now)) fuel) q (contents_of contents.now))) (composed_of made.old)) }
{
    if made.write_node() {
        Ok(Some(compose_element(
            all, alloc, fuel, region, made, name, own, acts, attributes, contents,
        )?))
    } else {
        Ok(None)
    }
}

/// The scopes of an element with directives, and the sites of their bindings on these.
fn open_for(
    alloc: Global,
    region: &Region<'_>,
    made: &mut Composed,
    slot: Option<Outside>,
    uses: &Uses,
) -> Result<Scopes, Memory>
    ensures { IfOk result (λ s. (scopes_of s, composed_of made.new) ≡ scopes_for (region_of region.now) (Some (uses_of uses.now)) (option_map outside_of slot) (composed_of made.old)) }
{
    let own = made.scope_if(uses.child, region.scope)?;
    let isolate = made.scope_if(uses.isolate.is_some(), 0)?;
    let mark = SiteScopes {
        under: isolate,
        over: own,
    };
    let numbers = bound_numbers(alloc, uses.bindings.as_slice())?;
    made.add_sites(alloc, region, mark, numbers.as_slice())?;
    Ok(Scopes {
        outer: region.scope,
        own,
        isolate,
        slot,
        deep: false,
    })
}

/// The scopes of an element, and the sites of its directives' bindings on these.
fn open_scopes(
    alloc: Global,
    region: &Region<'_>,
    made: &mut Composed,
    acts: &Acts,
) -> Result<Scopes, Memory>
    ensures { IfOk result (λ s. (scopes_of s, composed_of made.new) ≡ scopes_composed (region_of region.now) (acts_of acts.now) (composed_of made.old)) }
{
    let slot = outside_in(given_in(acts.slot, region), region);
    match &acts.uses {
        None => Ok(Scopes {
            outer: region.scope,
            own: region.scope,
            isolate: 0,
            slot,
            deep: false,
        }),
        Some(uses) => open_for(alloc, region, made, slot, uses),
    }
}

/// An element: its scopes are made after its node; then come the sites of its directives' bindings, and then its own.
#[cycle(composing)]
fn compose_element(
    all: &Templates,
    alloc: Global,
    fuel: u32,
    region: &Region<'_>,
    made: &mut Composed,
    name: &Txt,
    own: &[u32],
    acts: &Acts,
    attributes: &Attributes,
    contents: &Contents,
) -> Result<Part, Memory>
    ensures { IfOk result (λ p. (alone (part_of p), composed_of made.new) ≡ element_composed (fragments_at (templates_of all.now)) (composed_in (fragments_at (templates_of all.now)) fuel) (region_of region.now) name.now own.now (acts_of acts.now) attributes.now (λ q. contents_composed (fragments_at (templates_of all.now)) (composed_in (fragments_at (templates_of all.now)) fuel) q (contents_of contents.now)) (composed_of made.old)) }
{
    let scopes = open_scopes(alloc, region, made, acts)?;
    made.add_sites(alloc, region, on(scopes.own), own)?;
    let own = moved_numbers(alloc, made.moved.as_slice(), own)?;
    let attributes = moved_attributes(alloc, made.moved.as_slice(), attributes)?;
    let done = moved_acts(alloc, made.moved.as_slice(), acts, scopes)?;
    let inner = region_in(alloc, &acts.uses, scopes.own, region)?;
    let contents = compose_inside(all, alloc, fuel, &inner, made, acts, scopes, contents)?;
    Ok(element(name.copied()?, own, done, attributes, contents))
}

/// The template of an element's directive, if there is one.
fn template_in(uses: &Option<Uses>) -> Option<(&Uses, TplId)>
    ensures { option_map (λ r. (uses_of r.0.now, r.1.0)) result ≡ template_in (option_map uses_of uses.now) }
{
    match uses {
        None => None,
        Some(uses) => match uses.template {
            None => None,
            Some(template) => Some((uses, template)),
        },
    }
}

/// The contents of an element: the template of its directive, or what a slot is given, or its own.
#[cycle(composing)]
fn compose_inside(
    all: &Templates,
    alloc: Global,
    fuel: u32,
    inner: &Region<'_>,
    made: &mut Composed,
    acts: &Acts,
    scopes: Scopes,
    contents: &Contents,
) -> Result<Contents, Memory>
    ensures { IfOk result (λ k. (contents_of k, composed_of made.new) ≡ used_composed (fragments_at (templates_of all.now)) (composed_in (fragments_at (templates_of all.now)) fuel) (acts_of acts.now) (scopes_of scopes) (region_of inner.now) (contents_composed (fragments_at (templates_of all.now)) (composed_in (fragments_at (templates_of all.now)) fuel) (region_of inner.now) (contents_of contents.now)) (composed_of made.old)) }
{
    match template_in(&acts.uses) {
        Some((uses, template)) => {
            enter_template(all, alloc, fuel, inner, made, uses, template, scopes)
        }
        None => compose_given(all, alloc, fuel, inner, made, acts.slot, contents),
    }
}

/// What a slot is given, or the element's own contents.
#[cycle(composing)]
fn compose_given(
    all: &Templates,
    alloc: Global,
    fuel: u32,
    inner: &Region<'_>,
    made: &mut Composed,
    slot: bool,
    contents: &Contents,
) -> Result<Contents, Memory>
    ensures { IfOk result (λ k. (contents_of k, composed_of made.new) ≡ given_composed (fragments_at (templates_of all.now)) (composed_in (fragments_at (templates_of all.now)) fuel) (region_of inner.now) (given_in slot (region_of inner.now)) (contents_composed (fragments_at (templates_of all.now)) (composed_in (fragments_at (templates_of all.now)) fuel) (region_of inner.now) (contents_of contents.now)) (composed_of made.old)) }
{
    match given_in(slot, inner) {
        Some(content) => enter_content(all, alloc, fuel, inner, made, content),
        None => compose_contents(all, alloc, fuel, inner, made, contents),
    }
}

/// The template of a directive.
#[cycle(composing)]
fn enter_template(
    all: &Templates,
    alloc: Global,
    fuel: u32,
    inner: &Region<'_>,
    made: &mut Composed,
    uses: &Uses,
    template: TplId,
    scopes: Scopes,
) -> Result<Contents, Memory>
    ensures { IfOk result (λ k. (contents_of k, composed_of made.new) ≡ template_entered (fragments_at (templates_of all.now)) (composed_in (fragments_at (templates_of all.now)) fuel) (uses_of uses.now) template (scopes_of scopes) (region_of inner.now) (composed_of made.old)) }
{
    match all.fragment(template, 0) {
        None => Ok(end_contents(alloc, made)),
        Some(source) => {
            let region = template_region(alloc, uses, source, template, scopes, inner)?;
            enter(all, alloc, fuel, &region, made)
        }
    }
}

/// The children that a slot is given, on a scope of their own.
#[cycle(composing)]
fn enter_content(
    all: &Templates,
    alloc: Global,
    fuel: u32,
    inner: &Region<'_>,
    made: &mut Composed,
    content: Content,
) -> Result<Contents, Memory>
    ensures { IfOk result (λ k. (contents_of k, composed_of made.new) ≡ slot_entered (fragments_at (templates_of all.now)) (composed_in (fragments_at (templates_of all.now)) fuel) (region_of inner.now) content (composed_of made.old)) }
{
    let scope = made.add_scope()?;
    match all.fragment(content.template, content.body) {
        None => Ok(end_contents(alloc, made)),
        Some(source) => {
            let region = content_region(alloc, source, content, scope, inner)?;
            enter(all, alloc, fuel, &region, made)
        }
    }
}

/// The parts of a fragment in a region of its own, with numbers of their own.
#[cycle(composing)]
fn enter(
    all: &Templates,
    alloc: Global,
    fuel: u32,
    region: &Region<'_>,
    made: &mut Composed,
) -> Result<Contents, Memory>
    ensures { IfOk result (λ k. (contents_of k, composed_of made.new) ≡ (within (composed_in (fragments_at (templates_of all.now)) fuel (region_of region.now)) ▸ λ ps. gives (children ps)) (composed_of made.old)) }
{
    if fuel == 0 {
        Ok(end_contents(alloc, made))
    } else {
        let moved = made.take_moved(alloc);
        let parts = compose_parts(all, alloc, fuel - 1, region, made, region.source.parts())?;
        made.put_moved(moved);
        Ok(children(parts))
    }
}

/// The contents of an element that are its own.
#[cycle(composing)]
fn compose_contents(
    all: &Templates,
    alloc: Global,
    fuel: u32,
    region: &Region<'_>,
    made: &mut Composed,
    contents: &Contents,
) -> Result<Contents, Memory>
    ensures { IfOk result (λ k. (contents_of k, composed_of made.new) ≡ contents_composed (fragments_at (templates_of all.now)) (composed_in (fragments_at (templates_of all.now)) fuel) (region_of region.now) (contents_of contents.now) (composed_of made.old)) }
{
    match contents {
        Contents::Children(parts) => {
            Ok(children(compose_parts(all, alloc, fuel, region, made, parts)?))
        }
        Contents::Bound(n) => Ok(compose_bound(alloc, made, *n)),
    }
}

/// Parts.
#[cycle(composing)]
fn compose_parts(
    all: &Templates,
    alloc: Global,
    fuel: u32,
    region: &Region<'_>,
    made: &mut Composed,
    parts: &Parts,
) -> Result<Parts, Memory>
    ensures { IfOk result (λ ps. (parts_of ps, composed_of made.new) ≡ parts_composed (fragments_at (templates_of all.now)) (composed_in (fragments_at (templates_of all.now)) fuel) (region_of region.now) (parts_of parts.now) (composed_of made.old)) }
{
    let mut done = Parts::new(alloc);
    for part in parts.as_slice() {
        if made.ended {
            return Ok(done);
        }
        let more = compose_part(all, alloc, fuel, region, made, part)?;
        add_part(&mut done, more)?;
    }
    Ok(done)
}

/// How many templates and slots may be entered, one in another.
fn fuel_in(home: &Home) -> Result<u32, Memory>
    ensures { IfOk result (λ n. fuel_for home.now ≡ n + 1) }
{
    match u32::try_from(home.given.as_slice().len()) {
        Err(_) => Err(Memory::Worn),
        Ok(given) => match home.room.checked_add(home.room) {
            None => Err(Memory::Worn),
            Some(rooms) => match rooms.checked_add(given) {
                None => Err(Memory::Worn),
                Some(fuel) => Ok(fuel),
            },
        },
    }
}

/// A fragment of a home with the templates of its directives in it.
fn compose_fragment(
    all: &Templates,
    alloc: Global,
    home: Home,
    source: &Fragment,
) -> Result<Fragment, Memory>
    ensures { IfOk result (λ f. fragment_of f ≡ fragment_by (composed_in (fragments_at (templates_of all.now)) (fuel_for home) (first_region (fragment_of source.now) home) nothing_composed)) }
{
    let fuel = fuel_in(&home)?;
    let outsides = handed_all(alloc, &home.given)?;
    let region = Region {
        source,
        home,
        outsides,
        scope: 0,
    };
    let mut made = Composed::new(alloc);
    let parts = compose_parts(all, alloc, fuel, &region, &mut made, source.parts())?;
    Ok(made.fragment(parts))
}

/// A fragment of a home with the templates of its directives in it. One without directives of the application and slots is as it is.
pub(crate) fn compose<'a>(
    all: &Templates,
    alloc: Global,
    home: Home,
    whole: Whole<'a>,
) -> Result<Whole<'a>, Memory>
    requires order { HasOrder (whole_of whole) }
    ensures composed { IfOk result (λ w. whole_of w ≡ composed (fragments_at (templates_of all.now)) home (whole_of whole.entry)) }
    ensures order { IfOk result (λ w. HasOrder (whole_of w)) }
{
    if is_directed(whole.fragment().parts()) {
        let made = compose_fragment(all, alloc, home, whole.fragment())?;
        Ok(Whole::Made(made))
    } else {
        Ok(whole)
    }
}
