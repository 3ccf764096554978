//! Bodies, events and walks over listeners, as they are opened and closed.
ghost use Rattle.std.specs.Prelude.{◌≡◌, ◌<◌, ◌≤◌, ◌+◌, Some, None, length, IfSome, IfNone, MatchOption};
ghost use Rattle.ng_core.specs.Frames.{state_of, held, IsSound};
ghost use Rattle.ng_core.specs.State.{with_body, with_locals};
ghost use Rattle.ng_events.specs.Stands.{open_of, IsOpen, Begins, Goes, Ends};
ghost use Rattle.ng_members.specs.Leaves.{LocalsStand};

use crate::core_state::Core;
use ng_base::locals::Locals;
use ng_base::name::{FunId, ScopeId};
use ng_base::txt::Txt;
use ng_events::listeners::EventWalk;
use std::mem::replace;

/// As many bodies and events are open at most.
pub const ROOM: u32 = 64;

/// A body more is open, with its own locals. The result are those of the body around it.
#[tactic(auto, using(crate::proofs::SoundCores::opened))]
pub fn enter_body(core: &mut Core, locals: Locals) -> Locals
    requires sound { IsSound core.old }
    requires locals { LocalsStand (length core.old.store) locals }
    requires room { core.old.depth < 64 }
    requires count { core.old.bodies < 100000 }
    ensures run { state_of core.new ≡ with_locals locals (with_body (state_of core.old)) }
    ensures outer { result ≡ core.old.locals }
    ensures sound { IsSound core.new }
    ensures held { held core.new ≡ held core.old }
    ensures depth { core.new.depth ≡ core.old.depth + 1 }
    ensures scopes { core.new.scopes ≡ core.old.scopes }
    ensures store { core.new.store ≡ core.old.store }
{
    core.bodies += 1;
    core.depth += 1;
    replace(&mut core.locals, locals)
}

/// A body is over, and the locals of the one around it are back.
#[tactic(auto, using(crate::proofs::SoundCores::opened))]
pub fn leave_body(core: &mut Core, outer: Locals)
    requires sound { IsSound core.old }
    requires locals { LocalsStand (length core.old.store) outer }
    requires open { open_of core.old.listeners < core.old.depth }
    ensures run { state_of core.new ≡ with_locals outer (state_of core.old) }
    ensures sound { IsSound core.new }
    ensures held { held core.new ≡ held core.old }
    ensures depth { core.new.depth + 1 ≡ core.old.depth }
    ensures scopes { core.new.scopes ≡ core.old.scopes }
    ensures store { core.new.store ≡ core.old.store }
{
    core.depth -= 1;
    core.locals = outer;
}

/// An event more is open.
#[tactic(auto, using(crate::proofs::SoundCores::opened))]
pub fn open_event(core: &mut Core)
    requires sound { IsSound core.old }
    requires room { core.old.depth < 64 }
    ensures run { state_of core.new ≡ state_of core.old }
    ensures sound { IsSound core.new }
    ensures held { held core.new ≡ held core.old }
    ensures depth { core.new.depth ≡ core.old.depth + 1 }
    ensures scopes { core.new.scopes ≡ core.old.scopes }
    ensures store { core.new.store ≡ core.old.store }
{
    core.depth += 1;
}

/// An event is over.
#[tactic(auto, using(crate::proofs::SoundCores::opened))]
pub fn close_event(core: &mut Core)
    requires sound { IsSound core.old }
    requires open { open_of core.old.listeners < core.old.depth }
    ensures run { state_of core.new ≡ state_of core.old }
    ensures sound { IsSound core.new }
    ensures held { held core.new ≡ held core.old }
    ensures depth { core.new.depth + 1 ≡ core.old.depth }
    ensures scopes { core.new.scopes ≡ core.old.scopes }
    ensures store { core.new.store ≡ core.old.store }
{
    core.depth -= 1;
}

/// A walk over the listeners that stand at a scope for a name begins.
#[tactic(auto, using(crate::proofs::SoundCores::opened))]
pub fn begin_walk(core: &mut Core, scope: ScopeId, name: &Txt) -> EventWalk
    requires sound { IsSound core.old }
    requires inside { open_of core.old.listeners < core.old.depth }
    ensures run { state_of core.new ≡ state_of core.old }
    ensures begins { Begins core.old.listeners scope.0 name.now result core.new.listeners }
    ensures open { open_of core.new.listeners ≡ open_of core.old.listeners + 1 }
    ensures is_open { IsOpen core.new.listeners result }
    ensures sound { IsSound core.new }
    ensures depth { core.new.depth ≡ core.old.depth }
    ensures scopes { core.new.scopes ≡ core.old.scopes }
    ensures store { core.new.store ≡ core.old.store }
{
    match core.listeners.begin(scope, name) {
        Some(walk) => walk,
        None => unreachable!(),
    }
}

/// The next listener of a walk.
#[tactic(auto, using(crate::proofs::SoundCores::opened))]
pub fn next_turn(core: &mut Core, walk: &mut EventWalk) -> Option<FunId>
    requires sound { IsSound core.old }
    requires open { IsOpen core.old.listeners walk.old }
    ensures run { state_of core.new ≡ state_of core.old }
    ensures goes { Goes core.old.listeners walk.old result core.new.listeners }
    ensures bare { core.new.listeners.bare ≡ core.old.listeners.bare }
    ensures open { open_of core.new.listeners ≡ open_of core.old.listeners }
    ensures still { IsOpen core.new.listeners walk.new }
    ensures walk { walk.new ≡ walk.old }
    ensures sound { IsSound core.new }
    ensures depth { core.new.depth ≡ core.old.depth }
    ensures scopes { core.new.scopes ≡ core.old.scopes }
    ensures store { core.new.store ≡ core.old.store }
{
    core.listeners.next(walk)
}

/// A walk ends.
#[tactic(auto, using(crate::proofs::SoundCores::opened))]
pub fn end_walk(core: &mut Core, walk: EventWalk)
    requires sound { IsSound core.old }
    requires open { IsOpen core.old.listeners walk }
    ensures run { state_of core.new ≡ state_of core.old }
    ensures ends { Ends core.old.listeners walk core.new.listeners }
    ensures open { open_of core.new.listeners + 1 ≡ open_of core.old.listeners }
    ensures sound { IsSound core.new }
    ensures depth { core.new.depth ≡ core.old.depth }
    ensures scopes { core.new.scopes ≡ core.old.scopes }
    ensures store { core.new.store ≡ core.old.store }
{
    core.listeners.end(walk);
}
