//! The bodies of an outlet in another order, with other roles (API: ngRepeat).
ghost use Rattle.std.specs.Prelude.{List, ◌≡◌, map, OnOk, IfOk};
ghost use Rattle.ng_base.specs.declared.path.Key.{Key};
ghost use Rattle.ng_drawing.specs.Named.{Named};
ghost use Rattle.ng_link.specs.Arranging.{are_alike as alike_of, ArePlaces, AreAt, IsPlaceOf, IsOrder, PicksBy, IsRearranged};
ghost use Rattle.ng_link.specs.Calls.{arranged_at};
ghost use Rattle.ng_instances.specs.Instances.{Body as BodyOf, Inners, with_bodies, bodies_arranged, outlets_changed, linked_at};
ghost use Rattle.ng_instances.specs.PlaceOf.{outlet_of_linked};
ghost use Rattle.ng_link.specs.Standing.{IsStanding};
ghost use Rattle.ng_instances.specs.InstanceOf.{body_of, outlet_of, instances_of, spot_in};
ghost use Rattle.ng_link.specs.State.{state_of, templates_of};

use crate::works::Works;
use ng_base::fault::Memory;
use ng_base::lists::Numbers;
use ng_base::name::{NodeId, Serial};
use ng_base::path::Path;
use ng_dom::dom::Dom;
use ng_instances::instances::{Linked, OutletState, SharedBody};
use ng_instances::outlets::outlet_in;
use std::alloc::Global;
use std::collections::BTreeMap;

/// Whether bodies are on the same paths, one by one.
fn are_alike(old: &[SharedBody], new: &[SharedBody]) -> bool
    ensures { result ≡ alike_of (map body_of old.now) (map body_of new.now) }
{
    if old.len() != new.len() {
        return false;
    }
    for i in 0..old.len() {
        if *old[i].path() != *new[i].path() {
            return false;
        }
    }
    true
}

/// The place of the i-th body of some, which is less than 2^32.
fn place_at(i: usize) -> Result<u32, Memory>
    ensures { IfOk result (λ n. n ≡ i) }
{
    match u32::try_from(i) {
        Ok(n) => Ok(n),
        Err(_) => Err(Memory::Worn),
    }
}

/// The places of bodies, by their paths.
fn places_by(alloc: Global, bodies: &[SharedBody]) -> Result<BTreeMap<Path, u32>, Memory>
    ensures { IfOk result (λ places. ArePlaces (map body_of bodies.now) places.entries) }
{
    let mut places = BTreeMap::new(alloc);
    for i in 0..bodies.len() {
        let _ = places.insert(bodies[i].path().copied()?, place_at(i)?)?;
    }
    Ok(places)
}

/// The place of a body, by its path.
fn place_in(places: &BTreeMap<Path, u32>, p: &Path) -> Result<u32, Memory>
    ensures { (bs : List BodyOf) → ArePlaces bs places.now.entries → IfOk result (λ i. IsPlaceOf bs p.now i) }
{
    match places.get(p) {
        None => Err(Memory::Worn),
        Some(i) => Ok(*i),
    }
}

/// The places that bodies have among others.
fn order_of(alloc: Global, old: &[SharedBody], new: &[SharedBody]) -> Result<Numbers, Memory>
    ensures { IfOk result (λ is. AreAt (map body_of old.now) is (map body_of new.now)) }
{
    let places = places_by(alloc, old)?;
    let mut order = Numbers::new(alloc);
    for body in new {
        order.push(place_in(&places, body.path())?)?;
    }
    Ok(order)
}

/// The anchor of an outlet and the order that its bodies come to, where it is another.
fn order_in(
    alloc: Global,
    instances: &BTreeMap<Path, Linked>,
    holder: &Path,
    outlet: usize,
    bodies: &[SharedBody],
) -> Result<Option<(u64, Numbers)>, Memory>
    ensures { (all : List Named) → IfOk result (λ r. IsOrder r (map body_of bodies.now) (outlet_of_linked outlet (linked_at holder.now (instances_of all instances.now.entries)))) }
{
    match outlet_in(instances, holder, outlet) {
        None => Ok(None),
        Some(state) => {
            if are_alike(state.bodies.as_slice(), bodies) {
                return Ok(None);
            }
            let order = order_of(alloc, state.bodies.as_slice(), bodies)?;
            Ok(Some((state.anchor, order)))
        }
    }
}

/// The nodes of bodies that change their places are moved, and no other.
fn pick(dom: &mut Dom, order: &Option<(u64, Numbers)>) -> Result<(), Memory>
    ensures { OnOk result (PicksBy order.now dom.old dom.new) }
{
    match order {
        None => Ok(()),
        Some((anchor, order)) => {
            let anchor = NodeId {
                slot: 0,
                made: Serial(*anchor),
            };
            dom.pick_groups(anchor, order)
        }
    }
}

/// An outlet gets other bodies.
fn put_bodies(state: &mut OutletState, bodies: Vec<SharedBody>)
    ensures { outlet_of state.new ≡ with_bodies (map body_of bodies.items) (outlet_of state.old) }
{
    state.bodies = bodies;
}

/// The outlet of a number gets other bodies.
#[tactic(auto, using(ng_instances::proofs::Written::arranged_set, ng_instances::proofs::Written::arranged_past))]
fn set_bodies(outlets: &mut Vec<OutletState>, outlet: usize, bodies: Vec<SharedBody>)
    ensures { map outlet_of outlets.new.items ≡ bodies_arranged outlet (map body_of bodies.items) (map outlet_of outlets.old.items) }
{
    if outlet < outlets.len() {
        put_bodies(&mut outlets[outlet], bodies);
    }
}

/// An outlet of an instance gets other bodies.
fn set_held(
    instances: &mut BTreeMap<Path, Linked>,
    holder: &Path,
    outlet: usize,
    bodies: Vec<SharedBody>,
)
    ensures arranged { (all : List Named) → instances_of all instances.new.entries ≡ outlets_changed holder.now (bodies_arranged outlet (map body_of bodies.items)) (instances_of all instances.old.entries) }
    ensures spots { (inner : Inners) → (k : Key) → spot_in inner instances.new.entries k ≡ spot_in inner instances.old.entries k }
{
    match instances.get_mut(holder) {
        None => {}
        Some(one) => set_bodies(&mut one.outlets, outlet, bodies),
    }
}

impl Works {
    /// The bodies of an outlet are these, which are those that stood there, in another order or with other roles. The nodes of those that
    /// change their places are moved, and no other.
    pub fn arrange(
        &mut self,
        holder: &Path,
        outlet: usize,
        bodies: Vec<SharedBody>,
    ) -> Result<(), Memory>
        requires stands { IsStanding self.old }
        requires same { IsRearranged (map body_of bodies.items) outlet holder.now (state_of self.old).instances }
        ensures state { OnOk result (state_of self.new ≡ arranged_at holder.now outlet (map body_of bodies.items) (state_of self.old)) }
        ensures stands { OnOk result (IsStanding self.new) }
        ensures core { self.new.core ≡ self.old.core }
        ensures templates { templates_of self.new ≡ templates_of self.old }
    {
        let order = order_in(
            self.alloc,
            &self.instances,
            holder,
            outlet,
            bodies.as_slice(),
        )?;
        pick(&mut self.dom, &order)?;
        set_held(&mut self.instances, holder, outlet, bodies);
        Ok(())
    }
}
