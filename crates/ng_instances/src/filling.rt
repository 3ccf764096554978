//! The outlets that a site fills, for the fire of a block (API: ngIf, ngSwitch, ngRepeat, ngInclude).
ghost use Rattle.std.specs.Prelude.{List, ◌≡◌, Some, map, IfOk};
ghost use Rattle.ng_instances.specs.Due.{due_of, due_at, due_from, all_due, told_bodies, without_rows};
ghost use Rattle.ng_instances.specs.Instances.{key_in};
ghost use Rattle.ng_instances.specs.InstanceOf.{body_of, outlet_of, page_of, linked_of};
ghost use Rattle.ng_drawing.specs.Named.{Named};
ghost use Rattle.ng_parts.specs.FragmentOf.{filling_of};
ghost use Rattle.ng_behaviour.specs.Keys.{is_key};

use crate::instances::{Linked, OutletState, SharedBody};
use ng_base::fault::Memory;
use ng_base::name::ScopeId;
use ng_base::path::{Key, Path};
use ng_drawing::origin::Home;
use ng_parts::Filling;
use std::alloc::{AllocError, Global};

/// An outlet that a site fills: its number, how it is filled, where the bodies come from, the scope round them, the scopes outside what the slots in
/// them are given, and those that stand. The rows of a repeat are not among these: they are looked up where they stand.
#[derive(Drop)]
pub struct Due {
    pub outlet: usize,
    pub home: Home,
    pub scope: ScopeId,
    pub outsides: Vec<ScopeId>,
    pub filling: Filling,
    pub bodies: Vec<SharedBody>,
}

/// The same bodies, each with one owner more.
pub fn copied_bodies(alloc: Global, bodies: &[SharedBody]) -> Result<Vec<SharedBody>, Memory>
    ensures { IfOk result (λ v. map body_of v.items ≡ map body_of bodies.now) }
{
    let mut copies = Vec::with_capacity(alloc, bodies.len())?;
    for body in bodies {
        copies.push(body.copied()?)?;
    }
    Ok(copies)
}

/// Scopes again.
pub fn copied_scopes(alloc: Global, scopes: &[ScopeId]) -> Result<Vec<ScopeId>, AllocError>
    ensures { IfOk result (λ v. v.items ≡ scopes.now) }
{
    let mut copies = Vec::with_capacity(alloc, scopes.len())?;
    for scope in scopes {
        copies.push(*scope)?;
    }
    Ok(copies)
}

/// The bodies of an outlet that may go at once.
fn bodies_due(
    alloc: Global,
    filling: &Filling,
    bodies: &[SharedBody],
) -> Result<Vec<SharedBody>, Memory>
    ensures { IfOk result (λ v. map body_of v.items ≡ told_bodies (filling_of filling.now) (map body_of bodies.now)) }
{
    match filling {
        Filling::ForEach(_, _) => Ok(Vec::new(alloc)),
        Filling::BodyIf(_) => copied_bodies(alloc, bodies),
        Filling::OnCase(_, _) => copied_bodies(alloc, bodies),
        Filling::ByName(_) => copied_bodies(alloc, bodies),
    }
}

/// An outlet by its number.
fn due_outlet(alloc: Global, outlet: usize, state: &OutletState) -> Result<Due, Memory>
    ensures { IfOk result (λ d. due_of d ≡ without_rows (due_at outlet (outlet_of state.now))) }
{
    Ok(Due {
        outlet,
        home: state.home.copied(alloc)?,
        scope: state.scope,
        outsides: copied_scopes(alloc, state.outsides.as_slice())?,
        filling: state.filling.copied(alloc)?,
        bodies: bodies_due(alloc, &state.filling, state.bodies.as_slice())?,
    })
}

/// The outlets that a site fills, by its number of registration.
fn due_among(alloc: Global, outlets: &[OutletState], serial: u64) -> Result<Vec<Due>, Memory>
    ensures { IfOk result (λ v. map due_of v.items ≡ map without_rows (due_from serial 0 (map outlet_of outlets.now))) }
{
    let mut all = Vec::new(alloc);
    for i in 0..outlets.len() {
        let state = &outlets[i];
        if state.serial == serial {
            all.push(due_outlet(alloc, i, state)?)?;
        }
    }
    Ok(all)
}

impl Linked {
    /// Whether a key is on the path of the scope that its site stands on, where this is the path of the instance's own.
    fn is_own(&self, path: &Path, key: &Key) -> bool
        ensures { result ≡ is_key key.now (key_in (page_of path.now self.now) key.now.serial.0) }
    {
        key.path == *self.path_at(path, self.mark_at(key.serial.0).under)
    }

    /// The outlets that the site of a key fills, in order.
    pub fn due(&self, alloc: Global, path: &Path, key: &Key) -> Result<Vec<Due>, Memory>
        ensures { (all : List Named) → IfOk result (λ v. map due_of v.items ≡ map without_rows (all_due key.now (Some (linked_of all path.now self.now)))) }
    {
        if !self.is_own(path, key) {
            return Ok(Vec::new(alloc));
        }
        due_among(alloc, self.outlets.as_slice(), key.serial.0)
    }
}
