//! A fragment is linked: its steps are done in link order, and then it stands.
ghost use Rattle.std.specs.Prelude.{◌≡◌, ◌<◌, ◌≤◌, ◌-◌, length, map, drop, Ok, Some, None, true, IfErr, IfOk, IsSome, OnOk};
ghost use Rattle.ng_base.specs.Faults.{is_memory};
ghost use Rattle.ng_behaviour.specs.Scopes.{path_at};
ghost use Rattle.ng_act.specs.Worn.{HasCause};
ghost use Rattle.ng_core.specs.Frames as cores;
ghost use Rattle.ng_core.specs.Frames.{IsSound};
ghost use Rattle.ng_drawing.specs.Nodes.{node_limit};
ghost use Rattle.ng_drawing.specs.Template.{Fragment};
ghost use Rattle.ng_changes.specs.Changes.{changed};
ghost use Rattle.ng_steps.specs.Links.{rested_on, rested_on_all, all_buried, given_up, placed, first_of, link_at as linked_at_place};
ghost use Rattle.ng_steps.specs.LinkingOf.{linking, AreBelow, IsGrounded};
ghost use Rattle.ng_steps.specs.Worn.{is_worn};
ghost use Rattle.ng_changes.specs.Whole.{IsWhole};
ghost use Rattle.ng_instances.specs.BoundOf.{registered_of};
ghost use Rattle.ng_link.specs.Calls.{with_core};
ghost use Rattle.ng_build.specs.Linking.{steps_within, fault_in};
ghost use Rattle.ng_instances.specs.PlaceOf.{place_of};
ghost use Rattle.ng_link.specs.FreePlace.{IsFree};
ghost use Rattle.ng_link.specs.Placing.{IsRegistered};
ghost use Rattle.ng_build.specs.Shape.{linked};
ghost use Rattle.ng_link.specs.State.{state_of, templates_of, live_nodes};
ghost use Rattle.ng_build.specs.StepOf.{step_of};
ghost use Rattle.ng_drawing.specs.Named.{fragment_for};

use crate::progress::Progress;
use crate::stepping::link_steps;
use crate::wear::is_worn;
use ng_act::wear::told;
use ng_base::fault::{Fault, Memory};
use ng_base::name::ScopeId;
use ng_build::ordering::LinkStep;
use ng_changes::changing::apply_changes;
use ng_core::burying::bury;
use ng_core::core_state::Core;
use ng_drawing::origin::Origin;
use ng_instances::filling::copied_scopes;
use ng_instances::linking::Place;
use ng_link::works::Works;
use std::alloc::Global;

/// The most nodes of a page.
const NODE_LIMIT: usize = 200_000;

/// What a linking came to: the fault that it met, or it stands; and whether a watcher was added.
#[derive(Clone, Copy, Debug, PartialEq, Eq)]
pub struct Built {
    pub fault: Option<Fault>,
    pub added: bool,
}

/// How many nodes find room beside so many; never are there more than find room.
fn room_beside(live: usize) -> Result<usize, Memory>
    ensures room { IfOk result (λ r. r ≡ node_limit - live) }
    ensures few { OnOk result (live ≤ node_limit) }
{
    if live > NODE_LIMIT {
        return Err(Memory::Worn);
    }
    Ok(NODE_LIMIT - live)
}

/// The steps that come before one node more than so many, or before a directive that is inside too many others; and why not all are done.
fn steps_within(room: usize, steps: &[LinkStep]) -> (&[LinkStep], Option<Fault>)
    ensures steps { map step_of result.0.now ≡ steps_within room (map step_of steps.now) }
    ensures fault { result.1 ≡ fault_in room (map step_of steps.now) }
{
    let mut left = room;
    for i in 0..steps.len() {
        match &steps[i] {
            LinkStep::Makes => {
                if left == 0 {
                    return (&steps[..i], Some(Fault::NodeLimit));
                }
                left -= 1;
            }
            LinkStep::Stops => return (&steps[..i], Some(Fault::Depth)),
            _ => {}
        }
    }
    (steps, None)
}

/// On a scope that died meanwhile the sites rest.
fn rest_on_dead(works: &mut Works, scope: ScopeId) -> Result<(), Memory>
    requires whole { IsWhole works.old }
    requires scope { scope.0 < length works.old.core.scopes }
    ensures state { OnOk result (state_of works.new ≡ rested_on scope.0 (state_of works.old)) }
    ensures core { works.new.core ≡ works.old.core }
    ensures grown { OnOk result (length works.old.core.store ≤ length works.new.core.store) }
    ensures whole { OnOk result (IsWhole works.new) }
    ensures templates { templates_of works.new ≡ templates_of works.old }
{
    if works.core.scopes.is_live(scope) {
        return Ok(());
    }
    let path = works.core.scopes.path(scope).copied()?;
    works.leave(&path)
}

/// On each scope of an instance that died meanwhile the sites rest.
fn rest_on_all(works: &mut Works, scopes: &[ScopeId]) -> Result<(), Memory>
    requires whole { IsWhole works.old }
    requires scopes { AreBelow (length works.old.core.scopes) (map (λ s. s.0) scopes.now) }
    ensures state { OnOk result (state_of works.new ≡ rested_on_all (map (λ s. s.0) scopes.now) (state_of works.old)) }
    ensures grown { OnOk result (length works.old.core.store ≤ length works.new.core.store) }
    ensures whole { OnOk result (IsWhole works.new) }
    ensures templates { templates_of works.new ≡ templates_of works.old }
{
    for scope in scopes {
        rest_on_dead(works, *scope)?;
    }
    Ok(())
}

/// Want of memory alone is met where a fragment finds room.
fn placed(made: Result<bool, Fault>) -> Result<bool, Memory>
    requires { IfErr made (λ e. is_memory e ≡ true) }
    ensures { IfOk result (λ b. made ≡ Ok b) }
{
    match made {
        Ok(lives) => Ok(lives),
        Err(Fault::Memory(memory)) => Err(memory),
        Err(_) => unreachable!(),
    }
}

/// Scopes are buried, all but the first.
fn bury_rest(core: &mut Core, scopes: &[ScopeId]) -> Result<(), Memory>
    requires sound { IsSound core.old }
    requires scopes { AreBelow (length core.old.scopes) (map (λ s. s.0) scopes.now) }
    ensures run { OnOk result (cores.state_of core.new ≡ all_buried (drop 1 (map (λ s. s.0) scopes.now)) (cores.state_of core.old)) }
    ensures sound { OnOk result (IsSound core.new) }
    ensures depth { core.new.depth ≡ core.old.depth }
    ensures count { length core.new.scopes ≡ length core.old.scopes }
    ensures grown { length core.old.store ≤ length core.new.store }
{
    for i in 1..scopes.len() {
        bury(core, scopes[i])?;
    }
    Ok(())
}

/// The scopes that were made in vain, all but the instance's own.
fn discard_inner(works: &mut Works, alloc: Global, scopes: &[ScopeId]) -> Result<(), Memory>
    requires whole { IsWhole works.old }
    requires scopes { AreBelow (length works.old.core.scopes) (map (λ s. s.0) scopes.now) }
    ensures state { OnOk result (state_of works.new ≡ changed (with_core (all_buried (drop 1 (map (λ s. s.0) scopes.now)) (state_of works.old).core) (state_of works.old))) }
    ensures grown { OnOk result (length works.old.core.store ≤ length works.new.core.store) }
    ensures whole { OnOk result (IsWhole works.new) }
    ensures templates { templates_of works.new ≡ templates_of works.old }
{
    bury_rest(&mut works.core, scopes)?;
    apply_changes(works, alloc)?;
    Ok(())
}

/// A linking that met a fault: nothing stands, and the scopes that it made were made in vain.
fn given_up(works: &mut Works, alloc: Global, done: Progress, fault: Fault) -> Result<Built, Memory>
    requires whole { IsWhole works.old }
    requires grounded { IsGrounded works.old done }
    ensures state { OnOk result (state_of works.new ≡ (given_up fault (linking works.old done)).state) }
    ensures built { IfOk result (λ b. b ≡ record { fault = Some fault; added = done.added }) }
    ensures grown { OnOk result (length works.old.core.store ≤ length works.new.core.store) }
    ensures whole { OnOk result (IsWhole works.new) }
    ensures templates { templates_of works.new ≡ templates_of works.old }
{
    discard_inner(works, alloc, done.made.scopes.as_slice())?;
    Ok(Built {
        fault: Some(fault),
        added: done.added,
    })
}

/// A linking whose steps are done stands.
fn stand(
    works: &mut Works,
    alloc: Global,
    place: &Place,
    origin: &Origin,
    scope: ScopeId,
    done: Progress,
) -> Result<Built, Memory>
    requires whole { IsWhole works.old }
    requires template { IsSome (fragment_for (templates_of works.old) origin.now) }
    requires scope { scope.0 < length works.old.core.scopes }
    requires grounded { IsGrounded works.old done }
    requires free { IsFree (place_of place.now) (path_at works.old.core.scopes scope.0) (state_of works.old) }
    requires room { (f : Fragment) → fragment_for (templates_of works.old) origin.now ≡ Some f → linked (live_nodes (state_of works.old)) f.parts ≡ Ok tt }
    requires made { (f : Fragment) → fragment_for (templates_of works.old) origin.now ≡ Some f → IsRegistered f scope.0 (registered_of done.made) (state_of works.old) }
    ensures stands { IfOk result (λ b. (f : Fragment) → fragment_for (templates_of works.old) origin.now ≡ Some f → (state_of works.new ≡ (placed (place_of place.now) origin.now scope.0 f (linking works.old done)).state) × (b.added ≡ (placed (place_of place.now) origin.now scope.0 f (linking works.old done)).added)) }
    ensures fault { IfOk result (λ b. b.fault ≡ None) }
    ensures grown { OnOk result (length works.old.core.store ≤ length works.new.core.store) }
    ensures whole { OnOk result (IsWhole works.new) }
    ensures templates { templates_of works.new ≡ templates_of works.old }
{
    let Progress { made, added, .. } = done;
    let scopes = copied_scopes(alloc, made.scopes.as_slice())?;
    let lives = placed(works.place(place, origin, scope, made))?;
    rest_on_all(works, scopes.as_slice())?;
    Ok(Built {
        fault: None,
        added: added || lives,
    })
}

/// A fragment is linked at a place on a scope: its steps are done, as many as find room.
fn link_fragment(
    works: &mut Works,
    alloc: Global,
    place: &Place,
    origin: &Origin,
    scope: ScopeId,
    outsides: Vec<ScopeId>,
) -> Result<Built, Memory>
    requires whole { IsWhole works.old }
    requires template { IsSome (fragment_for (templates_of works.old) origin.now) }
    requires scope { scope.0 < length works.old.core.scopes }
    requires outsides { AreBelow (length works.old.core.scopes) (map (λ s. s.0) outsides.items) }
    requires free { IsFree (place_of place.now) (path_at works.old.core.scopes scope.0) (state_of works.old) }
    ensures linked { IfOk result (λ b. (f : Fragment) → fragment_for (templates_of works.old) origin.now ≡ Some f → (state_of works.new ≡ (linked_at_place (place_of place.now) origin.now scope.0 (map (λ s. s.0) outsides.items) f (state_of works.old)).state) × (b.added ≡ (linked_at_place (place_of place.now) origin.now scope.0 (map (λ s. s.0) outsides.items) f (state_of works.old)).added) × (b.fault ≡ (linked_at_place (place_of place.now) origin.now scope.0 (map (λ s. s.0) outsides.items) f (state_of works.old)).fault)) }
    ensures grown { OnOk result (length works.old.core.store ≤ length works.new.core.store) }
    ensures whole { OnOk result (IsWhole works.new) }
    ensures templates { templates_of works.new ≡ templates_of works.old }
{
    let live = works.live_nodes();
    let room = room_beside(live)?;
    let order = works.link_order(origin)?;
    let cut = steps_within(room, order.steps.as_slice());
    let done = link_steps(works, alloc, scope, outsides, &order, cut.0)?;
    let met = first_fault(done.fault, cut.1);
    match met {
        Some(fault) => given_up(works, alloc, done, fault),
        None => stand(works, alloc, place, origin, scope, done),
    }
}

/// A fragment is linked at a place on a scope, where the slots in it are given something by directives of which these are the scopes outside (guide:
/// HTML Compiler, "How directives are compiled"): its steps are done in link order; then its sites are watched, and its nodes stand. The nodes are
/// counted before the first is made: where they find no room nothing stands, and what the programs of the elements that did have done stays. So it is
/// where a directive is inside too many others, and where a scope can't be made.
pub fn link_at(
    works: &mut Works,
    alloc: Global,
    place: &Place,
    origin: &Origin,
    scope: ScopeId,
    outsides: Vec<ScopeId>,
) -> Result<Built, Memory>
    requires whole { IsWhole works.old }
    requires template { IsSome (fragment_for (templates_of works.old) origin.now) }
    requires scope { scope.0 < length works.old.core.scopes }
    requires outsides { AreBelow (length works.old.core.scopes) (map (λ s. s.0) outsides.items) }
    requires free { IsFree (place_of place.now) (path_at works.old.core.scopes scope.0) (state_of works.old) }
    ensures linked { IfOk result (λ b. (f : Fragment) → fragment_for (templates_of works.old) origin.now ≡ Some f → (state_of works.new ≡ (linked_at_place (place_of place.now) origin.now scope.0 (map (λ s. s.0) outsides.items) f (state_of works.old)).state) × (b.added ≡ (linked_at_place (place_of place.now) origin.now scope.0 (map (λ s. s.0) outsides.items) f (state_of works.old)).added) × (b.fault ≡ (linked_at_place (place_of place.now) origin.now scope.0 (map (λ s. s.0) outsides.items) f (state_of works.old)).fault)) }
    ensures grown { OnOk result (length works.old.core.store ≤ length works.new.core.store) }
    ensures whole { OnOk result (IsWhole works.new) }
    ensures templates { templates_of works.new ≡ templates_of works.old }
    ensures worn { IfErr result (HasCause (is_worn (state_of works.new))) }
{
    match link_fragment(works, alloc, place, origin, scope, outsides) {
        Ok(built) => Ok(built),
        Err(memory) => Err(told(is_worn(works), memory)),
    }
}

/// A fault that was met, or else one that the steps are cut by.
fn first_fault(met: Option<Fault>, cut: Option<Fault>) -> Option<Fault>
    ensures { result ≡ first_of met cut }
{
    match met {
        Some(fault) => Some(fault),
        None => cut,
    }
}
