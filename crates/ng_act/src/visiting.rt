//! A scope that an event reaches: its listeners have their turns.
ghost use Rattle.std.specs.Prelude.{◌≡◌, ◌<◌, ◌≤◌, ◌-◌, length, OnOk};
ghost use Rattle.ng_base.specs.ViewOf.{view_of};
ghost use Rattle.ng_language.specs.Views.{ViewStands};
ghost use Rattle.ng_act.specs.Emitting.{visits, visited, turned};
ghost use Rattle.ng_act.specs.Actions.{does};
ghost use Rattle.ng_act.specs.Kept.{Kept};
ghost use Rattle.ng_core.specs.EventOf.{event_of};
ghost use Rattle.ng_core.specs.Frames.{state_of, IsSound};
ghost use Rattle.ng_act.specs.Turns.{closed, walk_turns};
ghost use Rattle.ng_behaviour.specs.Listeners.{called, place_of};
ghost use Rattle.ng_behaviour.specs.Scopes.{live_at};
ghost use Rattle.ng_events.specs.Stands.{lists_of, open_of, IsOpen};

use crate::calling::run_body;
use ng_base::fault::{Fault, Memory};
use ng_base::name::{FunId, ScopeId};
use ng_base::value::Value;
use ng_core::core_state::Core;
use ng_core::event_objects::{Event, locals_of, show_current};
use ng_core::opening::{begin_walk, end_walk, next_turn};
use ng_events::listeners::EventWalk;
use std::alloc::Global;

/// A scope is reached.
#[cycle(act)]
pub(crate) fn visit(core: &mut Core, alloc: Global, scope: ScopeId, e: &Event) -> Result<(), Memory>
    requires sound { IsSound core.old }
    requires scope { scope.0 < length core.old.scopes }
    requires inside { open_of core.old.listeners < core.old.depth }
    requires object { e.now.object.0 < length core.old.store }
    requires args { ViewStands (length core.old.store) (view_of e.now.args) }
    ensures run { OnOk result (state_of core.new ≡ visits (does (64 - core.old.depth)) (event_of e.now) scope.0 (state_of core.old)) }
    ensures kept { Kept core.old core.new }
{
    if !core.scopes.is_live(scope) {
        return Ok(());
    }
    let current = core.scopes.object(scope);
    show_current(core, e, Value::Obj(current))?;
    hear(core, alloc, scope, e)
}

/// The listeners that stand at a scope have their turns.
#[cycle(act)]
fn hear(core: &mut Core, alloc: Global, scope: ScopeId, e: &Event) -> Result<(), Memory>
    requires sound { IsSound core.old }
    requires scope { scope.0 < length core.old.scopes }
    requires inside { open_of core.old.listeners < core.old.depth }
    requires object { e.now.object.0 < length core.old.store }
    requires args { ViewStands (length core.old.store) (view_of e.now.args) }
    ensures run { OnOk result (state_of core.new ≡ visited (does (64 - core.old.depth)) (event_of e.now) scope.0 (place_of (state_of core.old).heard scope.0 e.now.name) (state_of core.old)) }
    ensures kept { Kept core.old core.new }
{
    let mut walk = begin_walk(core, scope, &e.name);
    let end = take_turns(core, alloc, scope, e, &mut walk);
    end_walk(core, walk);
    end
}

/// Each listener of a walk has one turn.
#[cycle(act)]
fn take_turns(
    core: &mut Core,
    alloc: Global,
    scope: ScopeId,
    e: &Event,
    walk: &mut EventWalk,
) -> Result<(), Memory>
    requires sound { IsSound core.old }
    requires scope { scope.0 < length core.old.scopes }
    requires object { e.now.object.0 < length core.old.store }
    requires args { ViewStands (length core.old.store) (view_of e.now.args) }
    requires walk { IsOpen core.old.listeners walk.old }
    ensures run { OnOk result (state_of core.new ≡ walk_turns (does (64 - core.old.depth)) (event_of e.now) scope.0 core.old.listeners walk.old (state_of core.old)) }
    ensures sound { IsSound core.new }
    ensures closed { closed core.new.listeners walk.new ≡ closed core.old.listeners walk.old }
    ensures bare { core.new.listeners.bare ≡ core.old.listeners.bare }
    ensures open { open_of core.new.listeners ≡ open_of core.old.listeners }
    ensures depth { core.new.depth ≡ core.old.depth }
    ensures count { length core.new.scopes ≡ length core.old.scopes }
    ensures grown { length core.old.store ≤ length core.new.store }
    ensures still { IsOpen core.new.listeners walk.new }
    ensures walk { walk.new ≡ walk.old }
{
    while let Some(id) = next_turn(core, walk) {
        take_turn(core, alloc, scope, e, id)?;
    }
    Ok(())
}

/// A listener's turn: it runs where it still stands and its scope is live, and its fault is handed over.
#[cycle(act)]
fn take_turn(
    core: &mut Core,
    alloc: Global,
    scope: ScopeId,
    e: &Event,
    id: FunId,
) -> Result<(), Memory>
    requires sound { IsSound core.old }
    requires scope { scope.0 < length core.old.scopes }
    requires object { e.now.object.0 < length core.old.store }
    requires args { ViewStands (length core.old.store) (view_of e.now.args) }
    ensures run { OnOk result (state_of core.new ≡ turned (does (64 - core.old.depth)) (event_of e.now) scope.0 (live_at core.old.scopes scope.0) (called (lists_of core.old.listeners) id.0) (state_of core.old)) }
    ensures kept { Kept core.old core.new }
{
    let body = match core.listeners.body(id) {
        None => return Ok(()),
        Some(body) => body.copied(alloc)?,
    };
    let live = core.scopes.is_live(scope);
    if !live {
        return Ok(());
    }
    let locals = locals_of(alloc, e)?;
    match run_body(core, alloc, scope, locals, &body) {
        Ok(_) => Ok(()),
        Err(Fault::Memory(memory)) => Err(memory),
        Err(fault) => {
            core.hand_over(fault);
            Ok(())
        }
    }
}
