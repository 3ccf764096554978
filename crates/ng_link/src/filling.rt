//! What stands under a key, and the bodies that stand in outlets, with their scopes.
ghost use Rattle.std.specs.Prelude.{List, ◌≡◌, Some, map, IfOk, IfSome};
ghost use Rattle.ng_drawing.specs.Named.{Named};
ghost use Rattle.ng_link.specs.Events.{scope_in, scopes_at};
ghost use Rattle.ng_link.specs.SiteAt.{StandsAt};
ghost use Rattle.ng_instances.specs.Instances.{OutletState as OutletOf, linked_at, instance_path as instance_path_of};
ghost use Rattle.ng_instances.specs.PlaceOf.{outlet_of_linked};
ghost use Rattle.ng_instances.specs.InstanceOf.{body_of, instances_of};
ghost use Rattle.ng_link.specs.State.{state_of};
ghost use Rattle.ng_link.specs.Walking.{AreOf, Table};

use crate::works::Works;
use ng_base::fault::Memory;
use ng_base::name::ScopeId;
use ng_base::path::{Key, Path};
use ng_instances::filling::copied_bodies;
use ng_instances::instances::{Linked, SharedBody, instance_path};
use ng_instances::outlets::outlet_in;
use ng_instances::sites::{SiteHere, site_here};
use std::alloc::{AllocError, Global};
use std::cmp::Ordering;
use std::collections::BTreeMap;
use std::collections::btree_map::Range;
use std::ops::Bound;

/// How many instances ahead are looked at for one: those in a body stand between it and the next.
const NEAR: u32 = 4;

/// The scope of the instance on a path, where it is one of the first ahead.
fn scope_ahead(ahead: &mut Range<'_, Path, Linked>, p: &Path) -> Option<ScopeId>
    ensures found { (all : List Named) (is : Table) → AreOf is ahead.old → IfSome result (λ s. s.0 ≡ scope_in (linked_at p.now (instances_of all is))) }
    ensures rest { (is : Table) → AreOf is ahead.old → AreOf is ahead.new }
{
    for _i in 0..NEAR {
        let Some((path, one)) = ahead.next() else {
            return None;
        };
        match path.cmp(p) {
            Ordering::Less => {}
            Ordering::Equal => return Some(one.scope),
            Ordering::Greater => return None,
        }
    }
    None
}

/// The scope of the instance on a path: it is looked up where it is none of the first ahead, and the walk goes on behind it.
fn next_scope<'a>(
    instances: &'a BTreeMap<Path, Linked>,
    ahead: &mut Range<'a, Path, Linked>,
    p: &Path,
) -> ScopeId
    requires ahead { AreOf instances.now.entries ahead.old }
    ensures scope { (all : List Named) → result.0 ≡ scope_in (linked_at p.now (instances_of all instances.now.entries)) }
    ensures ahead { AreOf instances.now.entries ahead.new }
{
    if let Some(scope) = scope_ahead(ahead, p) {
        return scope;
    }
    *ahead = instances.range((Bound::Included(p), Bound::Unbounded));
    match ahead.next() {
        None => ScopeId(0),
        Some((path, one)) => { if *path == *p { one.scope } else { ScopeId(0) } }
    }
}

/// The scopes of the instances on the paths of bodies that an instance holds. Where these rise, it is one walk over the instances.
fn scopes_of(
    alloc: Global,
    instances: &BTreeMap<Path, Linked>,
    holder: &Path,
    bodies: &[SharedBody],
) -> Result<Vec<ScopeId>, AllocError>
    ensures { (all : List Named) → IfOk result (λ v. map (λ s. s.0) v.items ≡ scopes_at (map body_of bodies.now) (instances_of all instances.now.entries)) }
{
    let mut scopes = Vec::with_capacity(alloc, bodies.len())?;
    let mut ahead = instances.range((Bound::Included(holder), Bound::Unbounded));
    for body in bodies {
        scopes.push(next_scope(instances, &mut ahead, body.path()))?;
    }
    Ok(scopes)
}

impl Works {
    /// What stands under the key of a watcher: nothing of what is linked, or a site, with what it fills.
    pub fn site_here(&self, key: &Key) -> Result<Option<SiteHere>, Memory>
        ensures { IfOk result (StandsAt self.now key.now) }
    {
        site_here(self.alloc, &self.instances, &self.inner, key)
    }

    /// The path of the instance that has a scope of a path.
    pub fn instance_path<'a>(&'a self, p: &'a Path) -> &'a Path
        ensures { result.now ≡ instance_path_of (state_of self.now).inner p.now }
    {
        instance_path(&self.inner, p)
    }

    /// The bodies that stand in an outlet of an instance, in order.
    pub fn bodies_in(&self, holder: &Path, outlet: usize) -> Result<Vec<SharedBody>, Memory>
        ensures { IfOk result (λ v. (x : OutletOf) → outlet_of_linked outlet (linked_at holder.now (state_of self.now).instances) ≡ Some x → map body_of v.items ≡ x.bodies) }
    {
        match outlet_in(&self.instances, holder, outlet) {
            None => Ok(Vec::new(self.alloc)),
            Some(state) => copied_bodies(self.alloc, state.bodies.as_slice()),
        }
    }

    /// The scopes of the bodies that stand in an outlet of an instance, in order.
    pub fn scopes_in(&self, holder: &Path, outlet: usize) -> Result<Vec<ScopeId>, Memory>
        ensures { IfOk result (λ v. (x : OutletOf) → outlet_of_linked outlet (linked_at holder.now (state_of self.now).instances) ≡ Some x → map (λ s. s.0) v.items ≡ scopes_at x.bodies (state_of self.now).instances) }
    {
        match outlet_in(&self.instances, holder, outlet) {
            None => Ok(Vec::new(self.alloc)),
            Some(state) => Ok(scopes_of(
                self.alloc,
                &self.instances,
                holder,
                state.bodies.as_slice(),
            )?),
        }
    }

    /// The scope of the instance on a path.
    pub fn scope_on(&self, p: &Path) -> ScopeId
        ensures { result.0 ≡ scope_in (linked_at p.now (state_of self.now).instances) }
    {
        match self.instances.get(p) {
            None => ScopeId(0),
            Some(one) => one.scope,
        }
    }
}
