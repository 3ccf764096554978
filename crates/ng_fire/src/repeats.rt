//! The fire of a repeat's site: rows go, are kept, and are made (API: ngRepeat).
ghost use Rattle.std.specs.Prelude.{ℕ, ◌≡◌, ◌<◌, ◌≤◌, ◌+◌, length, map, slice_get, false, true, Ok, IfOk, IfSome, OnOk};
ghost use Rattle.ng_base.specs.Objects.{StandsAmong};
ghost use Rattle.ng_base.specs.ViewOf.{view_of};
ghost use Rattle.ng_blocks.specs.Plans.{planned, has_double as has_double_of};
ghost use Rattle.ng_rows.specs.Chosen.{told_on};
ghost use Rattle.ng_fire.specs.Blocks.{filled};
ghost use Rattle.ng_fire.specs.FireOf.{firing};
ghost use Rattle.ng_rows.specs.RepeatRows.{keys_of, kept_rows as kept_rows_of, role_for as role_for_row, rows_from as rows_from_all, row_names};
ghost use Rattle.ng_fire.specs.Repeats.{all_ended, bodies_at, body_at, by_items, by_keys, filled_to, repeat_fired, row_fired, rows_at, rows_changed, rows_fired, rows_taken};
ghost use Rattle.ng_rows.specs.RepeatsOf.{row_of, rows_of, AreNames, RowsOfStand};
ghost use Rattle.ng_rows.specs.RowsInOrder.{in_order, IsPart};
ghost use Rattle.ng_fire.specs.RowsKnown.{AreKeptOn, AreRowsAt, HaveGone, IsSpot, KeptOrGone};
ghost use Rattle.ng_fire.specs.Serving.{BodiesStay, Keeps, OthersStay, RestStays};
ghost use Rattle.ng_rows.specs.TrackingOf.{item_of, items_of, ItemsStand};
ghost use Rattle.ng_changes.specs.Whole.{IsWhole};
ghost use Rattle.ng_language.specs.Views.{ViewStands};
ghost use Rattle.ng_instances.specs.Changing.{in_outlet};
ghost use Rattle.ng_link.specs.Arranging.{IsRearranged};
ghost use Rattle.ng_link.specs.Calls.{arranged_at, with_core};
ghost use Rattle.ng_link.specs.Events.{scope_in};
ghost use Rattle.ng_link.specs.Standing.{IsStanding};
ghost use Rattle.ng_instances.specs.Instances.{linked_at};
ghost use Rattle.ng_instances.specs.PlaceOf.{place_of as place_of_code};
ghost use Rattle.ng_instances.specs.InstanceOf.{body_of};
ghost use Rattle.ng_link.specs.State.{state_of, templates_of};
ghost use Rattle.ng_parts.specs.RepeatedOf.{repeated_of};

use crate::blocks::{end_body, fault, link_body};
use crate::keeping::scope_for;
use ng_base::fault::{Fault, Memory};
use ng_base::lists::Sources;
use ng_base::name::ScopeId;
use ng_base::path::Path;
use ng_base::view::View;
use ng_blocks::{Plan, TrackKeys};
use ng_changes::following::Followed;
use ng_changes::scoping::make_child;
use ng_drawing::origin::Origin;
use ng_drawing::roles::entries_in;
use ng_instances::instances::SharedBody;
use ng_instances::linking::Place;
use ng_link::works::Works;
use ng_parts::Repeated;
use ng_rows::ordering::are_in_order;
use ng_rows::rows::{Ground, Row, ground_for, kept_rows, plan_rows, role_for, rows_from, tell_row};
use ng_rows::tracking::{Item, make_items, place_of, track_keys};
use std::alloc::Global;

/// An outlet of an instance, the fragment that its rows are made of, the scope round them, and the scopes outside what the slots in them are given.
#[derive(Drop)]
pub(crate) struct Spot<'a> {
    pub(crate) holder: &'a Path,
    pub(crate) outlet: usize,
    pub(crate) origin: Origin,
    pub(crate) scope: ScopeId,
    pub(crate) outsides: &'a [ScopeId],
}

/// The scope of the row at a place is destroyed.
#[tactic(auto, using(ng_rows::proofs::RowAt::row_at, ng_rows::proofs::RowAt::no_row_at))]
fn end_row(
    works: &mut Works,
    alloc: Global,
    bodies: &[SharedBody],
    i: u32,
    told: &mut Followed,
) -> Result<(), Memory>
    requires whole { IsWhole works.old }
    ensures fired { OnOk result (firing works.new told.new ≡ all_ended (body_at (slice_get (map body_of bodies.now) i)) (firing works.old told.old)) }
    ensures instances { OnOk result ((state_of works.new).instances ≡ (state_of works.old).instances) }
    ensures grown { OnOk result (length works.old.core.store ≤ length works.new.core.store) }
    ensures whole { OnOk result (IsWhole works.new) }
    ensures templates { templates_of works.new ≡ templates_of works.old }
{
    match bodies.get(i as usize) {
        None => Ok(()),
        Some(body) => end_body(works, alloc, body.path(), told),
    }
}

/// The scopes of the rows at some places are destroyed, in order.
fn end_rows(
    works: &mut Works,
    alloc: Global,
    bodies: &[SharedBody],
    gone: &[u32],
    told: &mut Followed,
) -> Result<(), Memory>
    requires whole { IsWhole works.old }
    ensures fired { OnOk result (firing works.new told.new ≡ all_ended (bodies_at (map body_of bodies.now) gone.now) (firing works.old told.old)) }
    ensures instances { OnOk result ((state_of works.new).instances ≡ (state_of works.old).instances) }
    ensures grown { OnOk result (length works.old.core.store ≤ length works.new.core.store) }
    ensures whole { OnOk result (IsWhole works.new) }
    ensures templates { templates_of works.new ≡ templates_of works.old }
{
    for i in gone {
        end_row(works, alloc, bodies, *i, told)?;
    }
    Ok(())
}

/// The row at a place is taken out.
#[tactic(auto, using(ng_rows::proofs::RowAt::row_at, ng_rows::proofs::RowAt::no_row_at))]
fn take_row(works: &mut Works, spot: &Spot<'_>, bodies: &[SharedBody], i: u32) -> Result<(), Memory>
    requires whole { IsWhole works.old }
    requires row { AreRowsAt spot.now.holder.now spot.now.outlet (body_at (slice_get (map body_of bodies.now) i)) (state_of works.old).instances }
    ensures state { OnOk result (state_of works.new ≡ rows_taken spot.now.holder.now (body_at (slice_get (map body_of bodies.now) i)) (state_of works.old)) }
    ensures gone { OnOk result (HaveGone spot.now.holder.now spot.now.outlet (body_at (slice_get (map body_of bodies.now) i)) (state_of works.old).instances (state_of works.new).instances) }
    ensures keeps { OnOk result (Keeps spot.now.holder.now (state_of works.old).instances (state_of works.new).instances) }
    ensures rest { OnOk result (RestStays spot.now.holder.now (body_at (slice_get (map body_of bodies.now) i)) (state_of works.old).instances (state_of works.new).instances) }
    ensures core { works.new.core ≡ works.old.core }
    ensures whole { OnOk result (IsWhole works.new) }
    ensures templates { templates_of works.new ≡ templates_of works.old }
{
    match bodies.get(i as usize) {
        None => Ok(()),
        Some(body) => works.unlink(spot.holder, body.path(), i as usize),
    }
}

/// The rows whose scopes are destroyed are taken out, the last one first.
fn take_rows(
    works: &mut Works,
    spot: &Spot<'_>,
    bodies: &[SharedBody],
    gone: &[u32],
) -> Result<(), Memory>
    requires whole { IsWhole works.old }
    requires rows { AreRowsAt spot.now.holder.now spot.now.outlet (bodies_at (map body_of bodies.now) gone.now) (state_of works.old).instances }
    ensures state { OnOk result (state_of works.new ≡ rows_taken spot.now.holder.now (bodies_at (map body_of bodies.now) gone.now) (state_of works.old)) }
    ensures gone { OnOk result (HaveGone spot.now.holder.now spot.now.outlet (bodies_at (map body_of bodies.now) gone.now) (state_of works.old).instances (state_of works.new).instances) }
    ensures keeps { OnOk result (Keeps spot.now.holder.now (state_of works.old).instances (state_of works.new).instances) }
    ensures rest { OnOk result (RestStays spot.now.holder.now (bodies_at (map body_of bodies.now) gone.now) (state_of works.old).instances (state_of works.new).instances) }
    ensures core { works.new.core ≡ works.old.core }
    ensures whole { OnOk result (IsWhole works.new) }
    ensures templates { templates_of works.new ≡ templates_of works.old }
{
    for k in 0..gone.len() {
        let j = gone.len() - 1 - k;
        take_row(works, spot, bodies, gone[j])?;
    }
    Ok(())
}

/// A row that is kept is told its names.
fn keep_row(
    works: &mut Works,
    ground: &Ground<'_>,
    i: u32,
    scope: ScopeId,
    row: &Row<'_>,
) -> Result<(), Memory>
    requires whole { IsWhole works.old }
    requires names { AreNames ground.now.names }
    requires place { i < ground.now.count }
    requires scope { scope.0 < length works.old.core.scopes }
    requires row { StandsAmong (length works.old.core.store) row.now.item.now.value }
    ensures state { OnOk result (state_of works.new ≡ with_core (told_on scope.0 (row_names (repeated_of ground.now.repeated.now) ground.now.count i (item_of row.now.item.now)) (state_of works.old).core) (state_of works.old)) }
    ensures whole { OnOk result (IsWhole works.new) }
    ensures store { length works.new.core.store ≡ length works.old.core.store }
    ensures templates { templates_of works.new ≡ templates_of works.old }
{
    tell_row(&mut works.core, scope, ground, i, row.item)
}

/// The place of a row that is made before the one at a place.
fn place_for(alloc: Global, spot: &Spot<'_>, at: u32, row: &Row<'_>) -> Result<Place, Memory>
    ensures { IfOk result (λ p. place_of_code p ≡ in_outlet spot.now.holder.now spot.now.outlet at (role_for_row (row_of row.now))) }
{
    Ok(Place::Outlet {
        holder: spot.holder.copied()?,
        outlet: spot.outlet,
        at,
        role: role_for(alloc, row)?,
    })
}

/// A row is made before the one at a place, once its scope has been told its names.
fn make_row(
    works: &mut Works,
    alloc: Global,
    spot: &Spot<'_>,
    ground: &Ground<'_>,
    i: u32,
    at: u32,
    row: &Row<'_>,
    told: &mut Followed,
) -> Result<(), Memory>
    requires whole { IsWhole works.old }
    requires spot { IsSpot (templates_of works.old) (state_of works.old).instances spot.now }
    requires names { AreNames ground.now.names }
    requires place { i < ground.now.count }
    requires row { StandsAmong (length works.old.core.store) row.now.item.now.value }
    ensures fired { OnOk result (firing works.new told.new ≡ filled (in_outlet spot.now.holder.now spot.now.outlet at (role_for_row (row_of row.now))) spot.now.scope.0 (map (λ s. s.0) spot.now.outsides.now) (row_names (repeated_of ground.now.repeated.now) ground.now.count i (item_of row.now.item.now)) spot.now.origin (firing works.old told.old)) }
    ensures keeps { OnOk result (Keeps spot.now.holder.now (state_of works.old).instances (state_of works.new).instances) }
    ensures others { OnOk result (OthersStay spot.now.holder.now (state_of works.old).instances (state_of works.new).instances) }
    ensures grown { OnOk result (length works.old.core.store ≤ length works.new.core.store) }
    ensures whole { OnOk result (IsWhole works.new) }
    ensures templates { templates_of works.new ≡ templates_of works.old }
{
    let place = place_for(alloc, spot, at, row)?;
    match make_child(works, spot.scope)? {
        Some(child) => {
            tell_row(&mut works.core, child, ground, i, row.item)?;
            link_body(
                works,
                alloc,
                &place,
                &spot.origin,
                child,
                spot.outsides,
                told,
            )
        }
        None => {
            fault(works, Fault::StoreFull, told);
            Ok(())
        }
    }
}

/// The row of an entry is kept on its scope, or made unless one before it could not be made. The answer is how many rows stand then before the next.
fn fire_row(
    works: &mut Works,
    alloc: Global,
    spot: &Spot<'_>,
    ground: &Ground<'_>,
    i: u32,
    at: u32,
    row: &Row<'_>,
    scope: ScopeId,
    told: &mut Followed,
) -> Result<u32, Memory>
    requires whole { IsWhole works.old }
    requires spot { IsSpot (templates_of works.old) (state_of works.old).instances spot.now }
    requires names { AreNames ground.now.names }
    requires place { i < ground.now.count }
    requires few { at ≤ i }
    requires row { StandsAmong (length works.old.core.store) row.now.item.now.value }
    requires scope { IfSome (row_of row.now).from (λ p. scope.0 ≡ scope_in (linked_at p (state_of works.old).instances)) }
    ensures fired { IfOk result (λ n. filled_to n (firing works.new told.new) ≡ row_fired spot.now.holder.now spot.now.scope.0 (map (λ s. s.0) spot.now.outsides.now) spot.now.outlet spot.now.origin (row_of row.now) (row_names (repeated_of ground.now.repeated.now) ground.now.count i (item_of row.now.item.now)) (row_of row.now).from (filled_to at (firing works.old told.old))) }
    ensures few { IfOk result (λ n. n ≤ i + 1) }
    ensures keeps { OnOk result (Keeps spot.now.holder.now (state_of works.old).instances (state_of works.new).instances) }
    ensures others { OnOk result (OthersStay spot.now.holder.now (state_of works.old).instances (state_of works.new).instances) }
    ensures grown { OnOk result (length works.old.core.store ≤ length works.new.core.store) }
    ensures whole { OnOk result (IsWhole works.new) }
    ensures templates { templates_of works.new ≡ templates_of works.old }
{
    match row.from {
        Some(_) => {
            keep_row(works, ground, i, scope, row)?;
            place_of(at as usize + 1)
        }
        None => {
            if told.faulted {
                return Ok(at);
            }
            make_row(works, alloc, spot, ground, i, at, row, told)?;
            if told.faulted {
                Ok(at)
            } else {
                place_of(at as usize + 1)
            }
        }
    }
}

/// The rows of all entries, in order. These are the scopes of those that are kept.
fn fire_rows(
    works: &mut Works,
    alloc: Global,
    spot: &Spot<'_>,
    ground: &Ground<'_>,
    rows: &[Row<'_>],
    scopes: &[ScopeId],
    told: &mut Followed,
) -> Result<(), Memory>
    requires whole { IsWhole works.old }
    requires spot { IsSpot (templates_of works.old) (state_of works.old).instances spot.now }
    requires names { AreNames ground.now.names }
    requires count { length rows.now ≡ ground.now.count }
    requires rows { RowsOfStand (length works.old.core.store) (rows_of rows.now) }
    requires scopes { AreKeptOn spot.now.holder.now (state_of works.old).instances (kept_rows_of (rows_of rows.now)) (map (λ s. s.0) scopes.now) }
    ensures fired { OnOk result (firing works.new told.new ≡ (rows_fired spot.now.holder.now spot.now.scope.0 (map (λ s. s.0) spot.now.outsides.now) spot.now.outlet spot.now.origin (repeated_of ground.now.repeated.now) ground.now.count 0 (rows_of rows.now) (filled_to 0 (firing works.old told.old))).firing) }
    ensures keeps { OnOk result (Keeps spot.now.holder.now (state_of works.old).instances (state_of works.new).instances) }
    ensures others { OnOk result (OthersStay spot.now.holder.now (state_of works.old).instances (state_of works.new).instances) }
    ensures grown { OnOk result (length works.old.core.store ≤ length works.new.core.store) }
    ensures whole { OnOk result (IsWhole works.new) }
    ensures templates { templates_of works.new ≡ templates_of works.old }
{
    let mut at = 0;
    let mut left = scopes;
    for i in 0..rows.len() {
        let place = place_of(i)?;
        let row = &rows[i];
        let (scope, others) = scope_for(row, left);
        at = fire_row(works, alloc, spot, ground, place, at, row, scope, told)?;
        left = others;
    }
    Ok(())
}

/// The rows that are kept are put in the order of their entries, unless they stand so already.
fn arrange_rows(
    works: &mut Works,
    alloc: Global,
    spot: &Spot<'_>,
    bodies: &[SharedBody],
    sources: &Sources,
    rows: &[Row<'_>],
) -> Result<(), Memory>
    requires stands { IsStanding works.old }
    requires same { IsRearranged (kept_rows_of (rows_of rows.now)) spot.now.outlet spot.now.holder.now (state_of works.old).instances }
    requires order { in_order (map body_of bodies.now) 0 (rows_of rows.now) sources.now ≡ true → rows_at spot.now.holder.now spot.now.outlet (state_of works.old).instances ≡ kept_rows_of (rows_of rows.now) }
    ensures state { OnOk result (state_of works.new ≡ arranged_at spot.now.holder.now spot.now.outlet (kept_rows_of (rows_of rows.now)) (state_of works.old)) }
    ensures stands { OnOk result (IsStanding works.new) }
    ensures core { works.new.core ≡ works.old.core }
    ensures templates { templates_of works.new ≡ templates_of works.old }
{
    if are_in_order(bodies, sources, rows) {
        return Ok(());
    }
    works.arrange(spot.holder, spot.outlet, kept_rows(alloc, rows)?)
}

/// Rows go, are kept in the order of their entries, and are made. Those that are kept keep their scopes and their nodes.
fn change_rows(
    works: &mut Works,
    alloc: Global,
    spot: &Spot<'_>,
    repeated: &Repeated,
    bodies: &[SharedBody],
    plan: &Plan,
    rows: &[Row<'_>],
    told: &mut Followed,
) -> Result<(), Memory>
    requires whole { IsWhole works.old }
    requires spot { IsSpot (templates_of works.old) (state_of works.old).instances spot.now }
    requires rows { RowsOfStand (length works.old.core.store) (rows_of rows.now) }
    requires stand { rows_at spot.now.holder.now spot.now.outlet (state_of works.old).instances ≡ map body_of bodies.now }
    requires all { KeptOrGone (map body_of bodies.now) plan.now.gone (rows_of rows.now) }
    requires order { in_order (map body_of bodies.now) 0 (rows_of rows.now) plan.now.from ≡ true → IsPart (kept_rows_of (rows_of rows.now)) (map body_of bodies.now) }
    ensures fired { OnOk result (firing works.new told.new ≡ rows_changed spot.now.holder.now spot.now.scope.0 (map (λ s. s.0) spot.now.outsides.now) spot.now.outlet spot.now.origin (repeated_of repeated.now) (bodies_at (map body_of bodies.now) plan.now.gone) (rows_of rows.now) (firing works.old told.old)) }
    ensures keeps { OnOk result (Keeps spot.now.holder.now (state_of works.old).instances (state_of works.new).instances) }
    ensures kept { OnOk result (BodiesStay (kept_rows_of (rows_of rows.now)) (state_of works.old).instances (state_of works.new).instances) }
    ensures grown { OnOk result (length works.old.core.store ≤ length works.new.core.store) }
    ensures whole { OnOk result (IsWhole works.new) }
    ensures templates { templates_of works.new ≡ templates_of works.old }
{
    let ground = ground_for(alloc, repeated, rows.len())?;
    end_rows(works, alloc, bodies, plan.gone.as_slice(), told)?;
    take_rows(works, spot, bodies, plan.gone.as_slice())?;
    arrange_rows(works, alloc, spot, bodies, &plan.from, rows)?;
    let scopes = works.scopes_in(spot.holder, spot.outlet)?;
    fire_rows(works, alloc, spot, &ground, rows, scopes.as_slice(), told)
}

/// Rows by a plan.
fn fire_plan(
    works: &mut Works,
    alloc: Global,
    spot: &Spot<'_>,
    repeated: &Repeated,
    bodies: &[SharedBody],
    items: &[Item],
    keys: &TrackKeys,
    plan: &Plan,
    told: &mut Followed,
) -> Result<(), Memory>
    requires whole { IsWhole works.old }
    requires spot { IsSpot (templates_of works.old) (state_of works.old).instances spot.now }
    requires items { ItemsStand (length works.old.core.store) (items_of items.now) }
    requires stand { rows_at spot.now.holder.now spot.now.outlet (state_of works.old).instances ≡ map body_of bodies.now }
    requires old { has_double_of (keys_of (map body_of bodies.now)) ≡ false }
    requires as_many { length (items_of items.now) ≡ length keys.now }
    requires plan { planned (keys_of (map body_of bodies.now)) keys.now ≡ Ok plan.now }
    ensures fired { OnOk result (firing works.new told.new ≡ by_keys spot.now.holder.now spot.now.scope.0 (map (λ s. s.0) spot.now.outsides.now) spot.now.outlet spot.now.origin (repeated_of repeated.now) (map body_of bodies.now) (items_of items.now) (Ok keys.now) (firing works.old told.old)) }
    ensures keeps { OnOk result (Keeps spot.now.holder.now (state_of works.old).instances (state_of works.new).instances) }
    ensures kept { OnOk result (BodiesStay (kept_rows_of (rows_from_all (map body_of bodies.now) (items_of items.now) keys.now plan.now.from)) (state_of works.old).instances (state_of works.new).instances) }
    ensures grown { OnOk result (length works.old.core.store ≤ length works.new.core.store) }
    ensures whole { OnOk result (IsWhole works.new) }
    ensures templates { templates_of works.new ≡ templates_of works.old }
{
    let rows = rows_from(alloc, bodies, items, keys, &plan.from)?;
    change_rows(
        works,
        alloc,
        spot,
        repeated,
        bodies,
        plan,
        rows.as_slice(),
        told,
    )
}

/// The rows that items of these keys call for, unless two have one key.
fn fire_keyed(
    works: &mut Works,
    alloc: Global,
    spot: &Spot<'_>,
    repeated: &Repeated,
    bodies: &[SharedBody],
    items: &[Item],
    keys: &TrackKeys,
    told: &mut Followed,
) -> Result<(), Memory>
    requires whole { IsWhole works.old }
    requires spot { IsSpot (templates_of works.old) (state_of works.old).instances spot.now }
    requires items { ItemsStand (length works.old.core.store) (items_of items.now) }
    requires stand { rows_at spot.now.holder.now spot.now.outlet (state_of works.old).instances ≡ map body_of bodies.now }
    requires as_many { length (items_of items.now) ≡ length keys.now }
    ensures fired { OnOk result (firing works.new told.new ≡ by_keys spot.now.holder.now spot.now.scope.0 (map (λ s. s.0) spot.now.outsides.now) spot.now.outlet spot.now.origin (repeated_of repeated.now) (rows_at spot.now.holder.now spot.now.outlet (state_of works.old).instances) (items_of items.now) (Ok keys.now) (firing works.old told.old)) }
    ensures keeps { OnOk result (Keeps spot.now.holder.now (state_of works.old).instances (state_of works.new).instances) }
    ensures grown { OnOk result (length works.old.core.store ≤ length works.new.core.store) }
    ensures whole { OnOk result (IsWhole works.new) }
    ensures templates { templates_of works.new ≡ templates_of works.old }
{
    match plan_rows(alloc, bodies, keys)? {
        Err(f) => {
            fault(works, f, told);
            Ok(())
        }
        Ok(plan) => fire_plan(
            works, alloc, spot, repeated, bodies, items, keys, &plan, told,
        ),
    }
}

/// The rows that items call for, unless a track expression faults.
fn fire_items(
    works: &mut Works,
    alloc: Global,
    spot: &Spot<'_>,
    repeated: &Repeated,
    items: Vec<Item>,
    told: &mut Followed,
) -> Result<(), Memory>
    requires whole { IsWhole works.old }
    requires spot { IsSpot (templates_of works.old) (state_of works.old).instances spot.now }
    requires items { ItemsStand (length works.old.core.store) (items_of items.items) }
    ensures fired { OnOk result (firing works.new told.new ≡ by_items spot.now.holder.now spot.now.scope.0 (map (λ s. s.0) spot.now.outsides.now) spot.now.outlet spot.now.origin (repeated_of repeated.now) (Ok (items_of items.items)) (firing works.old told.old)) }
    ensures keeps { OnOk result (Keeps spot.now.holder.now (state_of works.old).instances (state_of works.new).instances) }
    ensures grown { OnOk result (length works.old.core.store ≤ length works.new.core.store) }
    ensures whole { OnOk result (IsWhole works.new) }
    ensures templates { templates_of works.new ≡ templates_of works.old }
{
    let bodies = works.bodies_in(spot.holder, spot.outlet)?;
    let rows = bodies.as_slice();
    let entries = items.as_slice();
    let object = works.core.scopes.object(spot.scope);
    let tracked = track_keys(alloc, &works.core.store, object, repeated, entries);
    match tracked {
        Err(Fault::Memory(memory)) => Err(memory),
        Err(f) => {
            fault(works, f, told);
            Ok(())
        }
        Ok(keys) => fire_keyed(works, alloc, spot, repeated, rows, entries, &keys, told),
    }
}

/// The rows of an outlet become those that a collection calls for, of which this is kept.
pub(crate) fn fire_repeat(
    works: &mut Works,
    alloc: Global,
    spot: &Spot<'_>,
    repeated: &Repeated,
    value: &View,
    told: &mut Followed,
) -> Result<(), Memory>
    requires whole { IsWhole works.old }
    requires spot { IsSpot (templates_of works.old) (state_of works.old).instances spot.now }
    requires value { ViewStands (length works.old.core.store) (view_of value.now) }
    ensures fired { OnOk result (firing works.new told.new ≡ repeat_fired spot.now.holder.now spot.now.scope.0 (map (λ s. s.0) spot.now.outsides.now) (view_of value.now) spot.now.outlet spot.now.origin (repeated_of repeated.now) (firing works.old told.old)) }
    ensures keeps { OnOk result (Keeps spot.now.holder.now (state_of works.old).instances (state_of works.new).instances) }
    ensures grown { OnOk result (length works.old.core.store ≤ length works.new.core.store) }
    ensures whole { OnOk result (IsWhole works.new) }
    ensures templates { templates_of works.new ≡ templates_of works.old }
{
    let entries = entries_in(alloc, value)?;
    let made = make_items(&mut works.core, alloc, entries);
    match made {
        Err(Fault::Memory(memory)) => Err(memory),
        Err(f) => {
            fault(works, f, told);
            Ok(())
        }
        Ok(items) => fire_items(works, alloc, spot, repeated, items, told),
    }
}
