//! What linking has come to before nodes stand: the scopes, numbers of registration and keys of the sites, and how they are watched.
ghost use Rattle.std.specs.Prelude.{ℕ, List, ◌≡◌, ◌<◌, [], length, map, option_map, Some, Ok, true, IfOk, OnOk};
ghost use Rattle.std.specs.BTreeMap.{insert_entry};
ghost use Rattle.std.specs.List.{AllByRecursion};
ghost use Rattle.std.specs.Map.{keys_of as map_keys};
ghost use Rattle.std.specs.Ordering.{nat_cmp};
ghost use Rattle.ng_base.specs.declared.path.Key.{Key};
ghost use Rattle.ng_behaviour.specs.Scopes.{path_at};
ghost use Rattle.ng_drawing.specs.Template.{Fragment};
ghost use Rattle.ng_parts.specs.ActsOf.{outside_of};
ghost use Rattle.ng_parts.specs.FragmentOf.{mark_of, fragment_of};
ghost use Rattle.ng_instances.specs.Changing.{inner_on, any_on};
ghost use Rattle.ng_instances.specs.Instances.{scope_number, with_inner};
ghost use Rattle.ng_value.specs.Snaps.{snap_of};
ghost use Rattle.ng_instances.specs.Bindings.{bound_in_table, BoundStands, AllStand};
ghost use Rattle.ng_instances.specs.BoundOf.{bound_of, bounds_of, inner_of, ground_of, registered_of};
ghost use Rattle.ng_instances.specs.MarksOf.{marks_of};
ghost use Rattle.ng_instances.specs.Registering.{scope_in_ground, outside_in_ground, marks_from, way_of, kept_of, site_key, keys_on, with_mark, row_on, IsGrounded, rows_from, site_rows, any_lives};
ghost use Rattle.ng_instances.specs.RowOf.{row_of};
ghost use Rattle.ng_instances.specs.InstanceOf.{page_of};

use crate::instances::{Bound, Inner, Linked};
use crate::outlets::{Ground, scope_among};
use crate::placing::Row;
use ng_base::fault::Memory;
use ng_base::name::{Oid, ScopeId};
use ng_base::path::{Key, Path};
use ng_base::txt::Txt;
use ng_build::copying::key_on;
use ng_core::core_state::Core;
use ng_parts::{Fragment, Outside, SiteScopes};
use ng_value::copies::copied;
use ng_value::snapshot::Snap;
use std::alloc::{AllocError, Global};
use std::collections::BTreeMap;

/// What linking has come to before nodes stand: the numbers of registration of the sites, and what those of bindings have kept; the scopes of the
/// instance by their numbers, its own and then the inner ones; those outside what its slots are given; and what the sites of bindings write.
#[derive(Drop)]
pub struct Registered {
    pub serials: Vec<u64>,
    pub kept: Vec<Option<Snap>>,
    pub scopes: Vec<ScopeId>,
    pub outsides: Vec<ScopeId>,
    pub bounds: BTreeMap<u64, Bound>,
}

impl Registered {
    /// A scope by its number; the instance's own, where there is none of that number.
    pub fn scope(&self, n: u32) -> ScopeId
        ensures { result.0 ≡ scope_in_ground (registered_of self.now).at_hand n }
    {
        scope_among(self.scopes.as_slice(), n)
    }

    /// A scope outside a directive's element.
    pub fn outside(&self, outside: Outside) -> ScopeId
        ensures { result.0 ≡ outside_in_ground (registered_of self.now).at_hand (outside_of outside) }
    {
        match outside {
            Outside::Inside(n) => self.scope(n),
            Outside::Handed(i) => match self.outsides.get(i as usize) {
                None => ScopeId(0),
                Some(scope) => *scope,
            },
        }
    }
}

/// The property of an isolate scope that a two-way binding is compared with.
fn way_by(core: &Core, bound: &Bound) -> Result<Option<(Oid, Txt)>, AllocError>
    requires { BoundStands (length core.now.scopes) (bound_of bound.now) }
    ensures { IfOk result (λ w. option_map (λ o. (o.0.0, o.1)) w ≡ way_of core.now.scopes (Some (bound_of bound.now))) }
{
    match bound {
        Bound::TwoWay { scope, name, .. } => {
            Ok(Some((core.scopes.object(*scope), name.copied()?)))
        }
        _ => Ok(None),
    }
}

/// That of a site, by its number of registration.
fn way_for(
    core: &Core,
    bounds: &BTreeMap<u64, Bound>,
    serial: u64,
) -> Result<Option<(Oid, Txt)>, AllocError>
    requires { AllStand (length core.now.scopes) (bounds_of bounds.now.entries) }
    ensures { IfOk result (λ w. option_map (λ o. (o.0.0, o.1)) w ≡ way_of core.now.scopes (bound_in_table serial (bounds_of bounds.now.entries))) }
{
    match bounds.get(&serial) {
        None => Ok(None),
        Some(bound) => way_by(core, bound),
    }
}

/// A snapshot again, if there is one.
fn copied_kept(alloc: Global, kept: Option<&Option<Snap>>) -> Result<Option<Snap>, Memory>
    ensures { IfOk result (λ k. option_map snap_of k ≡ kept_of (option_map (λ s. option_map snap_of s.now) kept.entry)) }
{
    match kept {
        Some(Some(snap)) => Ok(Some(Snap::of_view(copied(alloc, snap.view())?))),
        _ => Ok(None),
    }
}

/// The key of a site by its number.
fn site_key(
    core: &Core,
    ground: &Ground<'_>,
    mark: SiteScopes,
    serial: u64,
) -> Result<Key, AllocError>
    requires { IsGrounded (length core.now.scopes) (ground_of ground.now) }
    ensures { IfOk result (λ k. k ≡ site_key core.now.scopes (ground_of ground.now) (mark_of mark) serial) }
{
    key_on(core.scopes.path(ground.scope(mark.under)), serial)
}

/// The keys of sites by their numbers.
pub(crate) fn site_keys(
    alloc: Global,
    core: &Core,
    ground: &Ground<'_>,
    fragment: &Fragment,
    serials: &[u64],
) -> Result<Vec<Key>, AllocError>
    requires { IsGrounded (length core.now.scopes) (ground_of ground.now) }
    ensures { IfOk result (λ v. v.items ≡ keys_on core.now.scopes (fragment_of fragment.now) (ground_of ground.now) 0 serials.now) }
{
    let mut keys = Vec::with_capacity(alloc, serials.len())?;
    for i in 0..serials.len() {
        keys.push(site_key(core, ground, fragment.mark(i), serials[i])?)?;
    }
    Ok(keys)
}

/// How a site is watched.
fn site_row(
    alloc: Global,
    core: &Core,
    ground: &Ground<'_>,
    mark: SiteScopes,
    made: &Registered,
    i: usize,
    serial: u64,
) -> Result<Row, Memory>
    requires grounded { IsGrounded (length core.now.scopes) (ground_of ground.now) }
    requires bounds { AllStand (length core.now.scopes) (registered_of made.now).bounds }
    ensures { IfOk result (λ r. row_of r ≡ row_on core.now.scopes (ground_of ground.now) (mark_of mark) (registered_of made.now) i serial) }
{
    Ok(Row {
        key: site_key(core, ground, mark, serial)?,
        object: core.scopes.object(ground.scope(mark.over)),
        way: way_for(core, &made.bounds, serial)?,
        kept: copied_kept(alloc, made.kept.get(i))?,
    })
}

/// How sites of these numbers are watched.
fn rows_on(
    alloc: Global,
    core: &Core,
    ground: &Ground<'_>,
    fragment: &Fragment,
    made: &Registered,
    serials: &[u64],
) -> Result<Vec<Row>, Memory>
    requires same { ground_of ground.now ≡ (registered_of made.now).at_hand }
    requires grounded { IsGrounded (length core.now.scopes) (ground_of ground.now) }
    requires bounds { AllStand (length core.now.scopes) (registered_of made.now).bounds }
    ensures { IfOk result (λ v. map row_of v.items ≡ rows_from core.now.scopes (fragment_of fragment.now) (registered_of made.now) 0 serials.now) }
{
    let mut rows = Vec::with_capacity(alloc, serials.len())?;
    for i in 0..serials.len() {
        rows.push(site_row(alloc, core, ground, fragment.mark(i), made, i, serials[i])?)?;
    }
    Ok(rows)
}

/// How the sites of a fragment are watched.
pub fn site_rows(
    alloc: Global,
    core: &Core,
    ground: &Ground<'_>,
    fragment: &Fragment,
    made: &Registered,
) -> Result<Vec<Row>, Memory>
    requires same { ground_of ground.now ≡ (registered_of made.now).at_hand }
    requires grounded { IsGrounded (length core.now.scopes) (ground_of ground.now) }
    requires bounds { AllStand (length core.now.scopes) (registered_of made.now).bounds }
    ensures { IfOk result (λ v. map row_of v.items ≡ site_rows core.now.scopes (fragment_of fragment.now) (registered_of made.now)) }
{
    rows_on(alloc, core, ground, fragment, made, made.serials.as_slice())
}

/// The scopes of a site are noted.
fn put_mark(
    marks: &mut BTreeMap<u64, SiteScopes>,
    serial: u64,
    mark: SiteScopes,
) -> Result<(), AllocError>
    ensures { OnOk result (marks_of marks.new.entries ≡ insert_entry nat_cmp (marks_of marks.old.entries) serial (mark_of mark)) }
{
    let _ = marks.insert(serial, mark)?;
    Ok(())
}

/// They are, unless they are the instance's own alone.
fn note_mark(
    marks: &mut BTreeMap<u64, SiteScopes>,
    serial: u64,
    mark: SiteScopes,
) -> Result<(), AllocError>
    ensures { OnOk result (marks_of marks.new.entries ≡ with_mark serial (mark_of mark) (marks_of marks.old.entries)) }
{
    if mark.under == 0 && mark.over == 0 {
        Ok(())
    } else {
        put_mark(marks, serial, mark)
    }
}

/// The scopes of the sites that don't stand on the instance's own alone, by their numbers of registration.
pub(crate) fn site_marks(
    alloc: Global,
    fragment: &Fragment,
    serials: &[u64],
) -> Result<BTreeMap<u64, SiteScopes>, AllocError>
    ensures { IfOk result (λ m. marks_of m.entries ≡ marks_from (fragment_of fragment.now) 0 serials.now []) }
{
    let mut marks = BTreeMap::new(alloc);
    for i in 0..serials.len() {
        note_mark(&mut marks, serials[i], fragment.mark(i))?;
    }
    Ok(marks)
}

/// Whether a site of an instance is on a scope that lives.
pub fn any_lives(core: &Core, one: &Linked) -> bool
    requires { (path : List ℕ) × ((n : ℕ) → scope_number (page_of path one.now) n < length core.now.scopes) }
    ensures { (path : List ℕ) → result ≡ any_on core.now.scopes (page_of path one.now) (map_keys one.now.spots.entries) }
{
    for serial in one.spots.keys() {
        let mark = one.mark_at(*serial);
        if core.scopes.is_live(one.scope_at(mark.under)) {
            return true;
        }
    }
    false
}

/// An inner scope with its path.
fn inner_at(core: &Core, scope: ScopeId) -> Result<Inner, AllocError>
    requires { scope.0 < length core.now.scopes }
    ensures { IfOk result (λ i. inner_of i ≡ record { scope = scope.0; path = path_at core.now.scopes scope.0 }) }
{
    Ok(Inner {
        scope,
        path: core.scopes.path(scope).copied()?,
    })
}

/// The inner scopes with their paths.
pub(crate) fn inner_of(
    alloc: Global,
    core: &Core,
    scopes: &[ScopeId],
) -> Result<Vec<Inner>, AllocError>
    requires { AllByRecursion (λ n. n < length core.now.scopes) (map (λ s. s.0) scopes.now) }
    ensures { IfOk result (λ v. map inner_of v.items ≡ inner_on core.now.scopes (map (λ s. s.0) scopes.now)) }
{
    let mut inner = Vec::new(alloc);
    for i in 1..scopes.len() {
        inner.push(inner_at(core, scopes[i])?)?;
    }
    Ok(inner)
}

/// The paths of an instance's inner scopes are noted with its own.
pub fn note_inner(
    table: &mut BTreeMap<Path, Path>,
    path: &Path,
    inner: &[Inner],
) -> Result<(), AllocError>
    ensures { OnOk result (table.new.entries ≡ with_inner path.now (map inner_of inner.now) table.old.entries) }
{
    for one in inner {
        let _ = table.insert(one.path.copied()?, path.copied()?)?;
    }
    Ok(())
}
