//! The outlets of an instance: at which anchors they stand, and the bodies that fill them.
ghost use Rattle.std.specs.Prelude.{List, ◌≡◌, None, Some, map, slice_get, slice_index_or, option_map, IfOk, OnOk};
ghost use Rattle.ng_base.specs.declared.path.Key.{Key};
ghost use Rattle.ng_dom.specs.Lists.{put_at};
ghost use Rattle.ng_parts.specs.ActsOf.{outside_of};
ghost use Rattle.ng_parts.specs.FragmentOf.{outlet_of as template_outlet, spot_of, fragment_of};
ghost use Rattle.ng_drawing.specs.Named.{Named};
ghost use Rattle.ng_instances.specs.BoundOf.{ground_of, round_of};
ghost use Rattle.ng_instances.specs.Changing.{round_by, outlet_on, outlets_on};
ghost use Rattle.ng_instances.specs.Instances.{Inners, linked_at, outlets_changed, with_body, body_added};
ghost use Rattle.ng_instances.specs.PlaceOf.{outlet_of_linked};
ghost use Rattle.ng_instances.specs.Registering.{scope_in_ground, outside_in_ground};
ghost use Rattle.ng_build.specs.Shape.{anchors};
ghost use Rattle.ng_instances.specs.InstanceOf.{body_of, outlet_of, instances_of, spot_in};

use crate::filling::copied_scopes;
use crate::instances::{Linked, OutletState, SharedBody};
use ng_base::fault::Memory;
use ng_base::name::ScopeId;
use ng_base::path::Path;
use ng_build::anchors::add_anchors;
use ng_drawing::origin::{Home, Origin};
use ng_parts::{Fragment, Outlet, OutletScope, Outside};
use std::alloc::{AllocError, Global};
use std::collections::BTreeMap;

/// The scopes of an instance by their numbers: its own and then the inner ones; and those outside what its slots are given.
#[derive(Drop)]
pub struct Ground<'a> {
    pub scopes: &'a [ScopeId],
    pub outsides: &'a [ScopeId],
}

/// The first of some scopes.
fn first_scope(scopes: &[ScopeId]) -> ScopeId
    ensures { result.0 ≡ slice_index_or (map (λ s. s.0) scopes.now) 0 0 }
{
    match scopes.get(0) {
        None => ScopeId(0),
        Some(scope) => *scope,
    }
}

/// A scope by its number, or the first of them.
pub(crate) fn scope_among(scopes: &[ScopeId], n: u32) -> ScopeId
    ensures { result.0 ≡ slice_index_or (map (λ s. s.0) scopes.now) n (slice_index_or (map (λ s. s.0) scopes.now) 0 0) }
{
    match scopes.get(n as usize) {
        None => first_scope(scopes),
        Some(scope) => *scope,
    }
}

impl Ground<'_> {
    /// A scope by its number; the instance's own, where there is none of that number.
    pub fn scope(&self, n: u32) -> ScopeId
        ensures { result.0 ≡ scope_in_ground (ground_of self.now) n }
    {
        scope_among(self.scopes, n)
    }

    /// A scope outside a directive's element.
    pub(crate) fn outside(&self, outside: Outside) -> ScopeId
        ensures { result.0 ≡ outside_in_ground (ground_of self.now) (outside_of outside) }
    {
        match outside {
            Outside::Inside(n) => self.scope(n),
            Outside::Handed(i) => match self.outsides.get(i as usize) {
                None => ScopeId(0),
                Some(scope) => *scope,
            },
        }
    }

    /// Scopes outside directives' elements.
    fn all_outside(&self, alloc: Global, outsides: &[Outside]) -> Result<Vec<ScopeId>, AllocError>
        ensures { IfOk result (λ v. map (λ s. s.0) v.items ≡ map (outside_in_ground (ground_of self.now)) (map outside_of outsides.now)) }
    {
        let mut all = Vec::with_capacity(alloc, outsides.len())?;
        for outside in outsides {
            all.push(self.outside(*outside))?;
        }
        Ok(all)
    }
}

/// Where the bodies of an outlet come from, the scope round them, and the scopes outside what the slots in them are given.
#[derive(Drop)]
struct Round {
    home: Home,
    scope: ScopeId,
    outsides: Vec<ScopeId>,
}

/// That of an outlet of which nothing is said: it is inside what an origin draws.
fn round_inside(alloc: Global, origin: &Origin, ground: &Ground<'_>) -> Result<Round, AllocError>
    ensures { IfOk result (λ r. round_of r ≡ round_by origin.now (ground_of ground.now) None) }
{
    Ok(Round {
        home: origin.inner(alloc)?,
        scope: ground.scope(0),
        outsides: copied_scopes(alloc, ground.outsides)?,
    })
}

/// That of an outlet of which it is said.
fn round_at(
    alloc: Global,
    origin: &Origin,
    ground: &Ground<'_>,
    spot: &OutletScope,
) -> Result<Round, AllocError>
    ensures { IfOk result (λ r. round_of r ≡ round_by origin.now (ground_of ground.now) (Some (spot_of spot.now))) }
{
    Ok(Round {
        home: spot.home.copied(alloc)?,
        scope: ground.scope(spot.scope),
        outsides: ground.all_outside(alloc, spot.outsides.as_slice())?,
    })
}

/// That of an outlet of a fragment of an origin.
fn round_of(
    alloc: Global,
    origin: &Origin,
    ground: &Ground<'_>,
    fragment: &Fragment,
    i: usize,
) -> Result<Round, AllocError>
    ensures { IfOk result (λ r. round_of r ≡ round_by origin.now (ground_of ground.now) (slice_get (fragment_of fragment.now).spots i)) }
{
    match fragment.spot(i) {
        None => round_inside(alloc, origin, ground),
        Some(spot) => round_at(alloc, origin, ground, spot),
    }
}

/// An outlet that nothing fills yet.
fn outlet_at(
    alloc: Global,
    round: Round,
    serials: &[u64],
    outlet: &Outlet,
    anchor: u64,
) -> Result<OutletState, AllocError>
    ensures { IfOk result (λ o. outlet_of o ≡ outlet_on (round_of round) serials.now (template_outlet outlet.now) anchor) }
{
    let Round {
        home,
        scope,
        outsides,
    } = round;
    Ok(OutletState {
        serial: match serials.get(outlet.site as usize) {
            None => 0,
            Some(serial) => *serial,
        },
        home,
        scope,
        outsides,
        filling: outlet.filling.copied(alloc)?,
        anchor,
        bodies: Vec::new(alloc),
    })
}

/// The outlets of a fragment, at anchors of these names.
fn outlets_at(
    alloc: Global,
    origin: &Origin,
    ground: &Ground<'_>,
    serials: &[u64],
    fragment: &Fragment,
    names: &[u64],
) -> Result<Vec<OutletState>, AllocError>
    ensures { IfOk result (λ v. map outlet_of v.items ≡ outlets_on origin.now (ground_of ground.now) serials.now (fragment_of fragment.now) names.now) }
{
    let mut left = names;
    let outlets = fragment.outlets();
    let mut made = Vec::with_capacity(alloc, outlets.len())?;
    for i in 0..outlets.len() {
        match left.split_first() {
            None => return Ok(made),
            Some((name, others)) => {
                let round = round_of(alloc, origin, ground, fragment, i)?;
                made.push(outlet_at(alloc, round, serials, &outlets[i], *name)?)?;
                left = others;
            }
        }
    }
    Ok(made)
}

/// The outlets of a fragment whose nodes have the names from one on.
pub(crate) fn outlets_of(
    alloc: Global,
    origin: &Origin,
    ground: &Ground<'_>,
    serials: &[u64],
    fragment: &Fragment,
    node: u64,
) -> Result<Vec<OutletState>, Memory>
    ensures { IfOk result (λ v. map outlet_of v.items ≡ outlets_on origin.now (ground_of ground.now) serials.now (fragment_of fragment.now) (anchors node (fragment_of fragment.now).parts)) }
{
    let mut names = Vec::new(alloc);
    add_anchors(&mut names, node, fragment.parts().as_slice())?;
    Ok(outlets_at(alloc, origin, ground, serials, fragment, names.as_slice())?)
}

/// An outlet of an instance.
pub fn outlet_in<'a>(
    instances: &'a BTreeMap<Path, Linked>,
    holder: &Path,
    outlet: usize,
) -> Option<&'a OutletState>
    ensures { (all : List Named) → option_map (λ x. outlet_of x.now) result ≡ outlet_of_linked outlet (linked_at holder.now (instances_of all instances.now.entries)) }
{
    match instances.get(holder) {
        None => None,
        Some(one) => one.outlets.get(outlet),
    }
}

/// A body is put before the one at a place, or at the end.
#[tactic(auto, using(ng_dom::proofs::Places::puts))]
fn put_body(bodies: &mut Vec<SharedBody>, at: u32, body: SharedBody) -> Result<(), AllocError>
    ensures { OnOk result (map body_of bodies.new.items ≡ put_at at (body_of body) (map body_of bodies.old.items)) }
{
    if (at as usize) < bodies.len() {
        bodies.insert(at as usize, body)?;
    } else {
        bodies.push(body)?;
    }
    Ok(())
}

/// A body more in an outlet.
fn push_body(state: &mut OutletState, at: u32, body: SharedBody) -> Result<(), AllocError>
    ensures { OnOk result (outlet_of state.new ≡ with_body at (body_of body) (outlet_of state.old)) }
{
    put_body(&mut state.bodies, at, body)
}

/// A body more in the outlet of a number.
fn add_body(
    outlets: &mut Vec<OutletState>,
    outlet: usize,
    at: u32,
    body: SharedBody,
) -> Result<(), AllocError>
    ensures { OnOk result (map outlet_of outlets.new.items ≡ body_added outlet at (body_of body) (map outlet_of outlets.old.items)) }
{
    if outlet < outlets.len() {
        push_body(&mut outlets[outlet], at, body)?;
    }
    Ok(())
}

/// A body stands in an outlet of an instance.
pub fn take_in(
    instances: &mut BTreeMap<Path, Linked>,
    holder: &Path,
    outlet: usize,
    at: u32,
    body: SharedBody,
) -> Result<(), AllocError>
    ensures taken { (all : List Named) → OnOk result (instances_of all instances.new.entries ≡ outlets_changed holder.now (body_added outlet at (body_of body)) (instances_of all instances.old.entries)) }
    ensures spots { (inner : Inners) → (k : Key) → OnOk result (spot_in inner instances.new.entries k ≡ spot_in inner instances.old.entries k) }
{
    match instances.get_mut(holder) {
        None => Ok(()),
        Some(one) => add_body(&mut one.outlets, outlet, at, body),
    }
}
