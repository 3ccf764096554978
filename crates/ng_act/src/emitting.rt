//! Events that go up or down, and the death of a scope, which broadcasts one.
ghost use Rattle.std.specs.Prelude.{◌≡◌, ◌<◌, ◌≤◌, ◌-◌, [], length, codes, IfOk, OnOk, Some};
ghost use Rattle.std.specs.List.{AllByRecursion};
ghost use Rattle.ng_base.specs.Views.{views_list};
ghost use Rattle.ng_base.specs.ViewOf.{view_of, views_of};
ghost use Rattle.ng_language.specs.Views.{ViewStands};
ghost use Rattle.ng_core.specs.Burying.{many};
ghost use Rattle.ng_act.specs.Asked.{an_emit, a_broadcast};
ghost use Rattle.ng_act.specs.Calls.{destroys};
ghost use Rattle.ng_act.specs.Emitting.{rises, sweeps, visits};
ghost use Rattle.ng_act.specs.Actions.{does, emitted, broadcasted};
ghost use Rattle.ng_act.specs.Kept.{Kept};
ghost use Rattle.ng_core.specs.EventOf.{event_of};
ghost use Rattle.ng_core.specs.Frames.{state_of, held, IsSound, Acts};
ghost use Rattle.ng_core.specs.State.{handed};
ghost use Rattle.ng_events.specs.Stands.{open_of};

use crate::visiting::visit;
use ng_base::fault::{Fault, Memory};
use ng_base::name::ScopeId;
use ng_base::txt::Txt;
use ng_base::view::{View, Views};
use ng_core::burying::{bury, next_below, parent_of};
use ng_core::core_state::Core;
use ng_core::event_objects::{Event, announce, finish, is_stopped};
use ng_core::opening::{ROOM, close_event, open_event};
use std::alloc::Global;

/// A scope and all below it die (API: `$rootScope.Scope`, `$destroy`).
#[cycle(act)]
pub fn destroy(core: &mut Core, alloc: Global, scope: ScopeId) -> Result<(), Memory>
    requires sound { IsSound core.old }
    requires scope { scope.0 < length core.old.scopes }
    ensures run { OnOk result (state_of core.new ≡ destroys (does (64 - core.old.depth)) scope.0 (state_of core.old)) }
    ensures sound { IsSound core.new }
    ensures held { held core.new ≡ held core.old }
    ensures depth { core.new.depth ≡ core.old.depth }
    ensures count { length core.new.scopes ≡ length core.old.scopes }
    ensures grown { length core.old.store ≤ length core.new.store }
{
    if !core.scopes.is_live(scope) {
        return Ok(());
    }
    announce_death(core, alloc, scope)?;
    bury(core, scope)
}

/// The broadcast of `$destroy`, whose fault is handed over.
#[cycle(act)]
fn announce_death(core: &mut Core, alloc: Global, scope: ScopeId) -> Result<(), Memory>
    requires sound { IsSound core.old }
    requires scope { scope.0 < length core.old.scopes }
    ensures run { OnOk result (state_of core.new ≡ handed (does (64 - core.old.depth) (a_broadcast scope.0 (codes "$destroy") []) (state_of core.old))) }
    ensures kept { Kept core.old core.new }
{
    let mut name = Txt::new(alloc);
    name.push_word("$destroy")?;
    match broadcast_views(core, alloc, scope, &name, Views::new(alloc)) {
        Ok(_) => Ok(()),
        Err(Fault::Memory(memory)) => Err(memory),
        Err(fault) => {
            core.hand_over(fault);
            Ok(())
        }
    }
}

/// An event that goes up.
#[cycle(act)]
pub(crate) fn emit_views(
    core: &mut Core,
    alloc: Global,
    scope: ScopeId,
    name: &Txt,
    args: Views,
) -> Result<View, Fault>
    requires sound { IsSound core.old }
    requires scope { scope.0 < length core.old.scopes }
    requires args { AllByRecursion (ViewStands (length core.old.store)) (views_list (views_of args)) }
    ensures run { Acts view_of result (state_of core.new) (does (64 - core.old.depth) (an_emit scope.0 name.now (views_list (views_of args))) (state_of core.old)) }
    ensures kept { Kept core.old core.new }
    ensures stands { IfOk result (λ w. ViewStands (length core.new.store) (view_of w)) }
{
    if core.depth >= ROOM {
        return Err(Fault::Depth);
    }
    open_event(core);
    let value = emit_open(core, alloc, scope, name, args);
    close_event(core);
    value
}

/// An event that goes up, once it is open.
#[cycle(act)]
fn emit_open(
    core: &mut Core,
    alloc: Global,
    scope: ScopeId,
    name: &Txt,
    args: Views,
) -> Result<View, Fault>
    requires sound { IsSound core.old }
    requires scope { scope.0 < length core.old.scopes }
    requires inside { open_of core.old.listeners < core.old.depth }
    requires args { AllByRecursion (ViewStands (length core.old.store)) (views_list (views_of args)) }
    ensures run { Acts view_of result (state_of core.new) (emitted (does (64 - core.old.depth)) scope.0 name.now (views_list (views_of args)) (state_of core.old)) }
    ensures kept { Kept core.old core.new }
    ensures stands { IfOk result (λ w. ViewStands (length core.new.store) (view_of w)) }
{
    let e = announce(core, alloc, scope, name, args)?;
    rise(core, alloc, scope, &e)?;
    finish(core, &e)
}

/// An event that goes down.
#[cycle(act)]
pub(crate) fn broadcast_views(
    core: &mut Core,
    alloc: Global,
    scope: ScopeId,
    name: &Txt,
    args: Views,
) -> Result<View, Fault>
    requires sound { IsSound core.old }
    requires scope { scope.0 < length core.old.scopes }
    requires args { AllByRecursion (ViewStands (length core.old.store)) (views_list (views_of args)) }
    ensures run { Acts view_of result (state_of core.new) (does (64 - core.old.depth) (a_broadcast scope.0 name.now (views_list (views_of args))) (state_of core.old)) }
    ensures kept { Kept core.old core.new }
    ensures stands { IfOk result (λ w. ViewStands (length core.new.store) (view_of w)) }
{
    if core.depth >= ROOM {
        return Err(Fault::Depth);
    }
    open_event(core);
    let value = broadcast_open(core, alloc, scope, name, args);
    close_event(core);
    value
}

/// An event that goes down, once it is open.
#[cycle(act)]
fn broadcast_open(
    core: &mut Core,
    alloc: Global,
    scope: ScopeId,
    name: &Txt,
    args: Views,
) -> Result<View, Fault>
    requires sound { IsSound core.old }
    requires scope { scope.0 < length core.old.scopes }
    requires inside { open_of core.old.listeners < core.old.depth }
    requires args { AllByRecursion (ViewStands (length core.old.store)) (views_list (views_of args)) }
    ensures run { Acts view_of result (state_of core.new) (broadcasted (does (64 - core.old.depth)) scope.0 name.now (views_list (views_of args)) (state_of core.old)) }
    ensures kept { Kept core.old core.new }
    ensures stands { IfOk result (λ w. ViewStands (length core.new.store) (view_of w)) }
{
    let e = announce(core, alloc, scope, name, args)?;
    sweep(core, alloc, scope, &e)?;
    finish(core, &e)
}

/// The scope and then each parent.
#[cycle(act)]
fn rise(core: &mut Core, alloc: Global, scope: ScopeId, e: &Event) -> Result<(), Memory>
    requires sound { IsSound core.old }
    requires scope { scope.0 < length core.old.scopes }
    requires inside { open_of core.old.listeners < core.old.depth }
    requires object { e.now.object.0 < length core.old.store }
    requires args { ViewStands (length core.old.store) (view_of e.now.args) }
    ensures run { OnOk result (state_of core.new ≡ rises (many (state_of core.old)) (does (64 - core.old.depth)) (event_of e.now) (Some scope.0) (state_of core.old)) }
    ensures kept { Kept core.old core.new }
{
    let mut next = Some(scope);
    for _i in 0..core.store.count() {
        match next {
            None => return Ok(()),
            Some(at) => {
                visit(core, alloc, at, e)?;
                if is_stopped(core, e) {
                    return Ok(());
                }
                next = parent_of(core, at);
            }
        }
    }
    Ok(())
}

/// The scope, and then the live scopes below it in the order of their paths.
#[cycle(act)]
fn sweep(core: &mut Core, alloc: Global, scope: ScopeId, e: &Event) -> Result<(), Memory>
    requires sound { IsSound core.old }
    requires scope { scope.0 < length core.old.scopes }
    requires inside { open_of core.old.listeners < core.old.depth }
    requires object { e.now.object.0 < length core.old.store }
    requires args { ViewStands (length core.old.store) (view_of e.now.args) }
    ensures run { OnOk result (state_of core.new ≡ sweeps (many (state_of core.old)) (does (64 - core.old.depth)) (event_of e.now) scope.0 scope.0 (visits (does (64 - core.old.depth)) (event_of e.now) scope.0 (state_of core.old))) }
    ensures kept { Kept core.old core.new }
{
    let count = core.store.count();
    visit(core, alloc, scope, e)?;
    let mut last = scope;
    for _i in 0..count {
        match next_below(core, last, scope) {
            None => return Ok(()),
            Some(at) => {
                visit(core, alloc, at, e)?;
                last = at;
            }
        }
    }
    Ok(())
}
