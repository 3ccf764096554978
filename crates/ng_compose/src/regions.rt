//! Where parts of a fragment are composed: which fragment they are of, what slots in it are given, and the scopes round it (guide: Directives; API:
//! ngTransclude).
ghost use Rattle.std.specs.Prelude.{◌≡◌, ◌-◌, ◌++◌, ◌∷◌, [], length, map, option_map, MatchOption, IfOk, OnOk, if◌then◌else◌};
ghost use Rattle.ng_drawing.specs.Template.{handed};
ghost use Rattle.ng_parts.specs.ActsOf.{uses_of, outside_of, scopes_of};
ghost use Rattle.ng_compose.specs.ComposedOf.{region_of};
ghost use Rattle.ng_parts.specs.FragmentOf.{fragment_of};
ghost use Rattle.ng_drawing.specs.Composing.{directive_count, region_in, content_given, given_by, outsides_by, head_or, tail_of, template_region, content_region, given_in, outside_in, handed_all};

use ng_base::fault::Memory;
use ng_base::name::TplId;
use ng_drawing::origin::{Content, Given, Home};
use ng_parts::acts::{Outside, Scopes, Uses};
use ng_parts::fragment::Fragment;
use std::alloc::{AllocError, Global};

/// Where parts are composed: the fragment that they are of; its template, how many templates may still be inside one another there, and what its slots
/// are given; the scopes outside the directives that give it; and the scope.
#[derive(Drop)]
pub(crate) struct Region<'a> {
    pub(crate) source: &'a Fragment,
    pub(crate) home: Home,
    pub(crate) outsides: Vec<Outside>,
    pub(crate) scope: u32,
}

/// Some scopes outside more.
fn add_outsides(all: &mut Vec<Outside>, more: &[Outside]) -> Result<(), AllocError>
    ensures { OnOk result (all.new.items ≡ all.old.items ++ more.now) }
{
    for outside in more {
        all.push(*outside)?;
    }
    Ok(())
}

/// The first and the others.
fn first_outside(outsides: &[Outside]) -> Option<(&Outside, &[Outside])>
    ensures { MatchOption result (outsides.now ≡ []) (λ r. outsides.now ≡ r.0.now ∷ r.1.now) }
{
    outsides.split_first()
}

/// The scopes outside, again.
pub(crate) fn copied_outsides(
    alloc: Global,
    outsides: &[Outside],
) -> Result<Vec<Outside>, AllocError>
    ensures { IfOk result (λ v. v.items ≡ outsides.now) }
{
    let mut all = Vec::new(alloc);
    add_outsides(&mut all, outsides)?;
    Ok(all)
}

/// How many directives an element has.
pub(crate) fn directive_count(uses: &Option<Uses>) -> usize
    ensures { result ≡ directive_count (option_map uses_of uses.now) }
{
    match uses {
        None => 0,
        Some(uses) => uses.directives.len(),
    }
}

/// What is left of a room.
fn room_left(room: u32, count: usize) -> u32
    ensures { result ≡ room - count }
{
    match u32::try_from(count) {
        Ok(n) => room.saturating_sub(n),
        Err(_) => 0,
    }
}

/// What a directive's children are in its template.
fn content_given(home: &Home, content: Option<u32>) -> Option<Content>
    ensures { result ≡ content_given home.now content }
{
    match content {
        None => None,
        Some(body) => Some(Content {
            template: home.template,
            body,
        }),
    }
}

/// Some more that slots are given.
fn add_given(given: &mut Given, more: &[Option<Content>]) -> Result<(), AllocError>
    ensures { OnOk result (given.new ≡ given.old ++ more.now) }
{
    for content in more {
        given.push(*content)?;
    }
    Ok(())
}

/// The first and the others.
fn first_given(given: &[Option<Content>]) -> Option<(&Option<Content>, &[Option<Content>])>
    ensures { MatchOption result (given.now ≡ []) (λ r. given.now ≡ r.0.now ∷ r.1.now) }
{
    given.split_first()
}

/// What the slots in a directive's template are given.
fn given_by(alloc: Global, uses: &Uses, home: &Home) -> Result<Given, AllocError>
    ensures { IfOk result (λ g. g ≡ given_by (uses_of uses.now) home.now) }
{
    let mut given = Given::new(alloc);
    if !uses.passes {
        return Ok(given);
    }
    given.push(content_given(home, uses.content))?;
    add_given(&mut given, home.given.as_slice())?;
    Ok(given)
}

/// The scopes outside the directives that give them.
fn outsides_by(
    alloc: Global,
    uses: &Uses,
    outer: u32,
    outsides: &[Outside],
) -> Result<Vec<Outside>, AllocError>
    ensures { IfOk result (λ v. map outside_of v.items ≡ outsides_by (uses_of uses.now) outer (map outside_of outsides.now)) }
{
    let mut all = Vec::new(alloc);
    if !uses.passes {
        return Ok(all);
    }
    all.push(Outside::Inside(outer))?;
    add_outsides(&mut all, outsides)?;
    Ok(all)
}

/// What is given behind the first.
fn other_given(alloc: Global, given: &Given) -> Result<Given, AllocError>
    ensures { IfOk result (λ g. g ≡ tail_of given.now) }
{
    let mut others = Given::new(alloc);
    match first_given(given.as_slice()) {
        None => Ok(others),
        Some((_, rest)) => {
            add_given(&mut others, rest)?;
            Ok(others)
        }
    }
}

/// The scopes outside behind the first.
fn other_outsides(alloc: Global, outsides: &[Outside]) -> Result<Vec<Outside>, AllocError>
    ensures { IfOk result (λ v. v.items ≡ tail_of outsides.now) }
{
    let mut others = Vec::new(alloc);
    match first_outside(outsides) {
        None => Ok(others),
        Some((_, rest)) => {
            add_outsides(&mut others, rest)?;
            Ok(others)
        }
    }
}

/// What a slot is given in a region.
pub(crate) fn given_in(slot: bool, region: &Region<'_>) -> Option<Content>
    ensures { result ≡ given_in slot (region_of region.now) }
{
    if !slot {
        return None;
    }
    match first_given(region.home.given.as_slice()) {
        None => None,
        Some((content, _)) => *content,
    }
}

/// The first scope outside.
fn first_or_handed(outsides: &[Outside]) -> Outside
    ensures { outside_of result ≡ head_or (handed 0) (map outside_of outsides.now) }
{
    match first_outside(outsides) {
        None => Outside::Handed(0),
        Some((outside, _)) => *outside,
    }
}

/// The scope outside what a slot is given.
pub(crate) fn outside_in(given: Option<Content>, region: &Region<'_>) -> Option<Outside>
    ensures { option_map outside_of result ≡ outside_in given (region_of region.now) }
{
    match given {
        None => None,
        Some(_) => Some(first_or_handed(region.outsides.as_slice())),
    }
}

/// The region in an element on a scope, in which so many templates less may be inside one another.
pub(crate) fn region_in<'a>(
    alloc: Global,
    uses: &Option<Uses>,
    scope: u32,
    region: &Region<'a>,
) -> Result<Region<'a>, Memory>
    ensures { IfOk result (λ r. region_of r ≡ region_in (option_map uses_of uses.now) scope (region_of region.now)) }
{
    let mut home = region.home.copied(alloc)?;
    home.room = room_left(home.room, directive_count(uses));
    let outsides = copied_outsides(alloc, region.outsides.as_slice())?;
    Ok(Region {
        source: region.source,
        home,
        outsides,
        scope,
    })
}

/// The scope that a directive's template is on.
fn template_scope(uses: &Uses, scopes: Scopes) -> u32
    ensures { result ≡ (if (uses_of uses.now).apart then (scopes_of scopes).isolate else (scopes_of scopes).own) }
{
    if uses.apart {
        scopes.isolate
    } else {
        scopes.own
    }
}

/// The region of a directive's template.
pub(crate) fn template_region<'a>(
    alloc: Global,
    uses: &Uses,
    source: &'a Fragment,
    template: TplId,
    scopes: Scopes,
    inner: &Region<'_>,
) -> Result<Region<'a>, Memory>
    ensures { IfOk result (λ r. region_of r ≡ template_region (uses_of uses.now) (fragment_of source.now) template (scopes_of scopes).outer (scopes_of scopes).own (scopes_of scopes).isolate (region_of inner.now)) }
{
    let given = given_by(alloc, uses, &inner.home)?;
    let outsides = outsides_by(alloc, uses, scopes.outer, inner.outsides.as_slice())?;
    let scope = template_scope(uses, scopes);
    Ok(Region {
        source,
        home: Home {
            template,
            room: inner.home.room,
            given,
        },
        outsides,
        scope,
    })
}

/// The region of the children that a slot is given, on a scope.
pub(crate) fn content_region<'a>(
    alloc: Global,
    source: &'a Fragment,
    content: Content,
    scope: u32,
    inner: &Region<'_>,
) -> Result<Region<'a>, Memory>
    ensures { IfOk result (λ r. region_of r ≡ content_region (fragment_of source.now) content scope (region_of inner.now)) }
{
    let given = other_given(alloc, &inner.home.given)?;
    let outsides = other_outsides(alloc, inner.outsides.as_slice())?;
    Ok(Region {
        source,
        home: Home {
            template: content.template,
            room: inner.home.room,
            given,
        },
        outsides,
        scope,
    })
}

/// One scope more that is handed.
fn push_handed(all: &mut Vec<Outside>) -> Result<(), Memory>
    ensures { OnOk result (map outside_of all.new.items ≡ map outside_of all.old.items ++ handed (length all.old.items) ∷ []) }
{
    match u32::try_from(all.len()) {
        Err(_) => Err(Memory::Worn),
        Ok(n) => {
            all.push(Outside::Handed(n))?;
            Ok(())
        }
    }
}

/// One scope that is handed for each.
fn handed_to(alloc: Global, given: &[Option<Content>]) -> Result<Vec<Outside>, Memory>
    ensures { IfOk result (λ v. map outside_of v.items ≡ handed_all 0 given.now) }
{
    let mut all = Vec::new(alloc);
    for _ in given {
        push_handed(&mut all)?;
    }
    Ok(all)
}

/// The scopes outside what the slots of an instance are given, which are handed to it.
pub(crate) fn handed_all(alloc: Global, given: &Given) -> Result<Vec<Outside>, Memory>
    ensures { IfOk result (λ v. map outside_of v.items ≡ handed_all 0 given.now) }
{
    handed_to(alloc, given.as_slice())
}
