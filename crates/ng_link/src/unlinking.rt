//! Unlinking: a body goes, with those in it (API: ngIf, ngSwitch, ngRepeat).
ghost use Rattle.std.specs.Prelude.{List, Some, ◌≡◌, true, map, not, OnOk, IfOk, IfErr, IfSome, MatchOption, option_and_then, slice_get};
ghost use Rattle.std.specs.BTreeMap.{is_at};
ghost use Rattle.std.specs.List.{filter};
ghost use Rattle.std.specs.Map.{lookup, lookup_key, remove_entry};
ghost use Rattle.std.specs.Ordering.{nat_cmp};
ghost use Rattle.ng_base.specs.declared.fault.Memory.TheVariants.{Refused};
ghost use Rattle.ng_base.specs.declared.path.Key.{Key as KeyOf};
ghost use Rattle.ng_dom.specs.Lists.{without_at};
ghost use Rattle.ng_drawing.specs.Named.{Named};
ghost use Rattle.ng_behaviour.specs.Keys.{begins as begins_with};
ghost use Rattle.ng_link.specs.Calls.{cut_at, unlinked_at};
ghost use Rattle.ng_instances.specs.Instances.{OutletState as OutletOf, Inners, is_path, linked_at, outlets_changed, owners_less};
ghost use Rattle.ng_link.specs.Standing.{IsStanding, IsHeld, IsHeldIn, body_count, held_count};
ghost use Rattle.ng_instances.specs.InstanceOf.{body_of, outlet_of, instances_of, spot_in};
ghost use Rattle.ng_link.specs.State.{state_of, templates_of};
ghost use Rattle.ng_link.specs.Unlinking.{IsBodyAt, IsHeldAt, body_cut, CutsOut};

use crate::works::Works;
use ng_base::fault::Memory;
use ng_base::name::{NodeId, Serial};
use ng_base::path::Path;
use ng_build::forgetting::{begins, forget_on};
use ng_dom::dom::Dom;
use ng_instances::instances::{Linked, OutletState, SharedBody};
use std::alloc::AllocError;
use std::collections::BTreeMap;
use std::ops::Bound;

/// Whether the body at a place is on a path.
fn is_on(bodies: &[SharedBody], i: usize, p: &Path) -> bool
    ensures { result ≡ true → IsBodyAt p.now i (map body_of bodies.now) }
{
    match bodies.get(i) {
        None => false,
        Some(body) => *p == *body.path(),
    }
}

/// The last place of a body among others.
fn last_place(bodies: &[SharedBody], p: &Path) -> Option<usize>
    ensures { MatchOption result (body_count p.now (map body_of bodies.now) ≡ 0) (λ i. IsBodyAt p.now i (map body_of bodies.now)) }
{
    let mut i = bodies.len();
    while i > 0 {
        i -= 1;
        if *p == *bodies[i].path() {
            return Some(i);
        }
    }
    None
}

/// The outlet that has a body on a path at a place.
fn guessed(outlets: &[OutletState], p: &Path, guess: usize) -> Option<usize>
    ensures { IfSome result (λ o. IsHeldAt p.now o guess (map outlet_of outlets.now)) }
{
    for o in 0..outlets.len() {
        if is_on(outlets[o].bodies.as_slice(), guess, p) {
            return Some(o);
        }
    }
    None
}

/// The outlet that holds a body, and the body's place there, among all bodies.
fn look_for(outlets: &[OutletState], p: &Path) -> Option<(usize, usize)>
    ensures { MatchOption result (held_count p.now (map outlet_of outlets.now) ≡ 0) (λ r. IsHeldAt p.now r.0 r.1 (map outlet_of outlets.now)) }
{
    for o in 0..outlets.len() {
        if let Some(i) = last_place(outlets[o].bodies.as_slice(), p) {
            return Some((o, i));
        }
    }
    None
}

/// The outlet that holds a body, and the body's place there: the one that is guessed, if it is there.
fn find_body(outlets: &[OutletState], p: &Path, guess: usize) -> Option<(usize, usize)>
    ensures { MatchOption result (held_count p.now (map outlet_of outlets.now) ≡ 0) (λ r. IsHeldAt p.now r.0 r.1 (map outlet_of outlets.now)) }
{
    match guessed(outlets, p, guess) {
        Some(o) => Some((o, guess)),
        None => look_for(outlets, p),
    }
}

/// A body is taken out of others.
#[tactic(auto, using(ng_dom::proofs::Places::cuts))]
fn cut_body(bodies: &mut Vec<SharedBody>, i: usize)
    ensures { map body_of bodies.new.items ≡ without_at i (map body_of bodies.old.items) }
{
    if i < bodies.len() {
        let _ = bodies.remove(i);
    }
}

/// A body is taken out of an outlet. The answer is the outlet's anchor.
fn cut_outlet(outlets: &mut Vec<OutletState>, o: usize, i: usize) -> u64
    ensures outlets { map outlet_of outlets.new.items ≡ body_cut o i (map outlet_of outlets.old.items) }
    ensures anchor { (x : OutletOf) → slice_get (map outlet_of outlets.old.items) o ≡ Some x → result ≡ x.anchor }
{
    match outlets.get_mut(o) {
        None => 0,
        Some(outlet) => {
            cut_body(&mut outlet.bodies, i);
            outlet.anchor
        }
    }
}

/// Where an instance holds a body.
fn held_at(
    instances: &BTreeMap<Path, Linked>,
    holder: &Path,
    p: &Path,
    guess: usize,
) -> Option<(usize, usize)>
    ensures { (all : List Named) (holds : IsHeldIn holder.now p.now (instances_of all instances.now.entries)) → MatchOption result ⊥ (λ r. IsHeldAt p.now r.0 r.1 holds.0.page.outlets) }
{
    match instances.get(holder) {
        None => None,
        Some(one) => find_body(one.outlets.as_slice(), p, guess),
    }
}

/// A body is taken out of an instance's outlet. The answer is the outlet's anchor.
fn cut_held(instances: &mut BTreeMap<Path, Linked>, holder: &Path, o: usize, i: usize) -> u64
    ensures instances { (all : List Named) → instances_of all instances.new.entries ≡ outlets_changed holder.now (body_cut o i) (instances_of all instances.old.entries) }
    ensures spots { (inner : Inners) → (k : KeyOf) → spot_in inner instances.new.entries k ≡ spot_in inner instances.old.entries k }
    ensures anchor { (all : List Named) (x : OutletOf) → option_and_then (λ l. slice_get l.page.outlets o) (linked_at holder.now (instances_of all instances.old.entries)) ≡ Some x → result ≡ x.anchor }
{
    match instances.get_mut(holder) {
        None => 0,
        Some(one) => cut_outlet(&mut one.outlets, o, i),
    }
}

/// The nodes of a body are taken away, and its place with them.
fn cut_nodes(dom: &mut Dom, anchor: u64, i: usize) -> Result<(), Memory>
    ensures { OnOk result (CutsOut anchor i dom.old dom.new) }
{
    let Ok(at) = u32::try_from(i) else {
        return Err(Memory::Worn);
    };
    let anchor = NodeId {
        slot: 0,
        made: Serial(anchor),
    };
    dom.empty_group(anchor, at)?;
    dom.cut_group(anchor, at);
    Ok(())
}

/// The first path from one on that begins with it.
fn first_below(instances: &BTreeMap<Path, Linked>, p: &Path) -> Result<Option<Path>, AllocError>
    ensures { IfOk result (λ r. r ≡ lookup_key (begins_with p.now) instances.now.entries) }
{
    match instances
        .range((Bound::Included(p), Bound::Unbounded))
        .next()
    {
        None => Ok(None),
        Some((path, _)) => {
            if begins(p.as_slice(), path.as_slice()) {
                Ok(Some(path.copied()?))
            } else {
                Ok(None)
            }
        }
    }
}

/// The paths of inner scopes from one on that begin with it.
fn first_inner(inner: &BTreeMap<Path, Path>, p: &Path) -> Result<Option<Path>, AllocError>
    ensures { IfOk result (λ q. q ≡ lookup_key (begins_with p.now) inner.now.entries) }
{
    match inner.range((Bound::Included(p), Bound::Unbounded)).next() {
        None => Ok(None),
        Some((path, _)) => {
            if begins(p.as_slice(), path.as_slice()) {
                Ok(Some(path.copied()?))
            } else {
                Ok(None)
            }
        }
    }
}

/// A path is taken out.
fn forget_path(inner: &mut BTreeMap<Path, Path>, path: Path)
    ensures { inner.new.entries ≡ remove_entry (is_path path) inner.old.entries }
{
    let _ = inner.remove(&path);
}

/// The inner scopes on a path and below it are taken out.
fn forget_inner(inner: &mut BTreeMap<Path, Path>, p: &Path) -> Result<(), AllocError>
    ensures { OnOk result (inner.new.entries ≡ filter (λ e. not (begins_with p.now e.0)) inner.old.entries) }
{
    while let Some(path) = first_inner(inner, p)? {
        forget_path(inner, path);
    }
    Ok(())
}

/// An instance is taken out, and the name of its first node with it.
fn forget_one(instances: &mut BTreeMap<Path, Linked>, owners: &mut BTreeMap<u64, Path>, path: Path)
    ensures instances { instances.new.entries ≡ remove_entry (is_path path) instances.old.entries }
    ensures owners { MatchOption (lookup (is_path path) instances.old.entries) (owners.new.entries ≡ owners.old.entries) (λ one. owners.new.entries ≡ remove_entry (is_at (nat_cmp one.node)) owners.old.entries) }
{
    match instances.remove(&path) {
        None => {}
        Some(one) => {
            let _ = owners.remove(&one.node);
        }
    }
}

/// The instances on a path and below it are taken out.
fn forget_below(
    instances: &mut BTreeMap<Path, Linked>,
    owners: &mut BTreeMap<u64, Path>,
    p: &Path,
) -> Result<(), AllocError>
    ensures instances { OnOk result (instances.new.entries ≡ filter (λ e. not (begins_with p.now e.0)) instances.old.entries) }
    ensures owners { OnOk result (owners.new.entries ≡ owners_less (λ one. one.node) p.now instances.old.entries owners.old.entries) }
{
    while let Some(path) = first_below(instances, p)? {
        forget_one(instances, owners, path);
    }
    Ok(())
}

impl Works {
    /// The instances of a body, and of those in it, go with their nodes.
    fn cut(&mut self, holder: &Path, p: &Path, guess: usize) -> Result<(), Memory>
        requires stands { IsStanding self.old }
        requires held { IsHeld holder.now p.now (state_of self.old) }
        ensures state { OnOk result (state_of self.new ≡ cut_at holder.now p.now (state_of self.old)) }
        ensures stands { OnOk result (IsStanding self.new) }
        ensures core { self.new.core ≡ self.old.core }
        ensures templates { templates_of self.new ≡ templates_of self.old }
    {
        let Some((o, i)) = held_at(&self.instances, holder, p, guess) else {
            unreachable!();
        };
        let anchor = cut_held(&mut self.instances, holder, o, i);
        cut_nodes(&mut self.dom, anchor, i)?;
        forget_below(&mut self.instances, &mut self.owners, p)?;
        forget_inner(&mut self.inner, p)?;
        forget_on(&mut self.resting, p)?;
        forget_on(&mut self.controls, p)?;
        Ok(())
    }

    /// A body that an instance holds goes, with those in it.
    fn take_out(&mut self, holder: &Path, p: &Path, guess: usize) -> Result<(), Memory>
        requires stands { IsStanding self.old }
        requires held { IsHeld holder.now p.now (state_of self.old) }
        ensures state { OnOk result (state_of self.new ≡ unlinked_at holder.now p.now (state_of self.old)) }
        ensures stands { OnOk result (IsStanding self.new) }
        ensures core { self.new.core ≡ self.old.core }
        ensures templates { templates_of self.new ≡ templates_of self.old }
    {
        self.leave(p)?;
        self.cut(holder, p, guess)?;
        Ok(())
    }

    /// A body that an instance holds goes, with those in it. Its place among the bodies of its outlet may be guessed. It costs what it takes and
    /// a move of the bodies behind it by one, and where the guess is wrong a look at each body of the instance. It draws
    /// from no counter, so it never tells that one stands at its last value.
    pub fn unlink(&mut self, holder: &Path, p: &Path, guess: usize) -> Result<(), Memory>
        requires stands { IsStanding self.old }
        requires held { IsHeld holder.now p.now (state_of self.old) }
        ensures state { OnOk result (state_of self.new ≡ unlinked_at holder.now p.now (state_of self.old)) }
        ensures stands { OnOk result (IsStanding self.new) }
        ensures core { self.new.core ≡ self.old.core }
        ensures templates { templates_of self.new ≡ templates_of self.old }
        ensures refused { IfErr result (λ e. e ≡ Refused) }
    {
        match self.take_out(holder, p, guess) {
            Ok(()) => Ok(()),
            Err(_) => Err(Memory::Refused),
        }
    }
}
