//! What the crates above call: a program is run, an event is emitted or broadcast, a scope dies. Each tells that a counter stands
//! at its last value only where one does.
ghost use Rattle.std.specs.Prelude.{◌≡◌, ◌<◌, ◌≤◌, ◌-◌, ℕ, length, map, Ok, IfOk, IfErr, OnOk};
ghost use Rattle.std.specs.List.{AllByRecursion};
ghost use Rattle.ng_base.specs.Objects.{StandsAmong};
ghost use Rattle.ng_base.specs.Views.{ViewTree, prim, views_list};
ghost use Rattle.ng_base.specs.ViewOf.{view_of, views_of};
ghost use Rattle.ng_language.specs.Views.{ViewStands};
ghost use Rattle.ng_act.specs.Asked.{a_body, an_emit, a_broadcast};
ghost use Rattle.ng_act.specs.Actions.{does};
ghost use Rattle.ng_act.specs.Calls.{destroys};
ghost use Rattle.ng_act.specs.Running.{act_run, as_value_run, same};
ghost use Rattle.ng_core.specs.Frames.{state_of, held, IsSound, Acts};
ghost use Rattle.ng_core.specs.State.{State, Run, with_locals};
ghost use Rattle.ng_act.specs.Worn.{is_worn, HasCause, FaultHasCause};
ghost use Rattle.ng_parse.specs.ProgramOf.{program};
ghost use Rattle.ng_members.specs.Leaves.{LocalsStand};
ghost use Rattle.ng_write.specs.Making.{value_in};

use crate::calling::run_body;
use crate::emitting::{broadcast_views, destroy as end_scope, emit_views};
use crate::series::programmed;
use crate::wear::{is_worn, told, told_fault};
use ng_base::fault::{Fault, Memory};
use ng_base::lists::Values;
use ng_base::locals::Locals;
use ng_base::name::ScopeId;
use ng_base::txt::Txt;
use ng_base::value::Value;
use ng_base::view::{View, Views};
use ng_core::binding::value_in;
use ng_core::core_state::Core;
use ng_parse::Program;
use std::alloc::Global;
use std::mem::swap;

/// Values as arguments of an event.
fn views_from(alloc: Global, values: &Values) -> Result<Views, Memory>
    ensures { IfOk result (λ vs. views_list (views_of vs) ≡ map prim values.now) }
{
    let mut views = Views::new(alloc);
    let given = values.as_slice();
    for v in given {
        views.push(View::of_value(v.copied()?))?;
    }
    Ok(views)
}

/// What a public call answers: the value of a view, or the fault, whose want of memory has its cause.
#[tactic(auto, using(crate::proofs::Values::told_acts))]
fn answered(core: &Core, end: Result<View, Fault>) -> Result<Value, Fault>
    ensures ok { IfOk end (λ v. result ≡ Ok (value_in (view_of v))) }
    ensures run { (s : State) (r : Run ViewTree) → Acts view_of end s r → Acts same result s (as_value_run r) }
    ensures stands { (n : ℕ) → IfOk end (λ v. ViewStands n (view_of v)) → IfOk result (StandsAmong n) }
    ensures worn { IfErr result (FaultHasCause (is_worn (state_of core.now))) }
{
    match end {
        Ok(view) => Ok(value_in(view)),
        Err(fault) => Err(told_fault(is_worn(core), fault)),
    }
}

/// A scope and all below it die (API: `$rootScope.Scope`, `$destroy`).
pub fn destroy(core: &mut Core, alloc: Global, scope: ScopeId) -> Result<(), Memory>
    requires sound { IsSound core.old }
    requires scope { scope.0 < length core.old.scopes }
    ensures run { OnOk result (state_of core.new ≡ destroys (does (64 - core.old.depth)) scope.0 (state_of core.old)) }
    ensures sound { IsSound core.new }
    ensures held { held core.new ≡ held core.old }
    ensures depth { core.new.depth ≡ core.old.depth }
    ensures count { length core.new.scopes ≡ length core.old.scopes }
    ensures grown { length core.old.store ≤ length core.new.store }
    ensures worn { IfErr result (HasCause (is_worn (state_of core.new))) }
{
    match end_scope(core, alloc, scope) {
        Ok(()) => Ok(()),
        Err(memory) => Err(told(is_worn(core), memory)),
    }
}

/// Runs a program on a scope, with locals of its own, which it may change (guide: Expressions). The first fault stands, and
/// what was done before it stays.
pub fn act(
    core: &mut Core,
    alloc: Global,
    scope: ScopeId,
    locals: &mut Locals,
    p: &Program,
) -> Result<Value, Fault>
    requires sound { IsSound core.old }
    requires scope { scope.0 < length core.old.scopes }
    requires locals { LocalsStand (length core.old.store) locals.old }
    ensures run { Acts same result (with_locals locals.new (state_of core.new)) (act_run (64 - core.old.depth) scope.0 locals.old (program p.now) (state_of core.old)) }
    ensures outer { core.new.locals ≡ core.old.locals }
    ensures locals { LocalsStand (length core.new.store) locals.new }
    ensures sound { IsSound core.new }
    ensures held { held core.new ≡ held core.old }
    ensures depth { core.new.depth ≡ core.old.depth }
    ensures count { length core.new.scopes ≡ length core.old.scopes }
    ensures grown { length core.old.store ≤ length core.new.store }
    ensures stands { IfOk result (StandsAmong (length core.new.store)) }
    ensures worn { IfErr result (FaultHasCause (is_worn (state_of core.new))) }
{
    exchange(core, locals);
    let end = programmed(core, alloc, scope, p.statements());
    exchange(core, locals);
    answered(core, end)
}

/// The locals of the core and others change places.
fn exchange(core: &mut Core, locals: &mut Locals)
    requires sound { IsSound core.old }
    requires locals { LocalsStand (length core.old.store) locals.old }
    ensures run { state_of core.new ≡ with_locals locals.old (state_of core.old) }
    ensures inner { core.new.locals ≡ locals.old }
    ensures outer { locals.new ≡ core.old.locals }
    ensures sound { IsSound core.new }
    ensures held { held core.new ≡ held core.old }
    ensures depth { core.new.depth ≡ core.old.depth }
    ensures scopes { core.new.scopes ≡ core.old.scopes }
    ensures store { core.new.store ≡ core.old.store }
{
    swap(&mut core.locals, locals);
}

/// Runs a program as a body on a scope, as a watch's program or a task: Depth and CallLimit come before it begins.
pub fn act_body(
    core: &mut Core,
    alloc: Global,
    scope: ScopeId,
    locals: Locals,
    p: &Program,
) -> Result<Value, Fault>
    requires sound { IsSound core.old }
    requires scope { scope.0 < length core.old.scopes }
    requires locals { LocalsStand (length core.old.store) locals }
    ensures run { Acts same result (state_of core.new) (as_value_run (does (64 - core.old.depth) (a_body scope.0 locals (program p.now)) (state_of core.old))) }
    ensures sound { IsSound core.new }
    ensures held { held core.new ≡ held core.old }
    ensures depth { core.new.depth ≡ core.old.depth }
    ensures count { length core.new.scopes ≡ length core.old.scopes }
    ensures grown { length core.old.store ≤ length core.new.store }
    ensures stands { IfOk result (StandsAmong (length core.new.store)) }
    ensures worn { IfErr result (FaultHasCause (is_worn (state_of core.new))) }
{
    let end = run_body(core, alloc, scope, locals, p);
    answered(core, end)
}

/// Emits an event from a scope upwards (API: `$rootScope.Scope`, `$emit`): the value is the event's object.
pub fn emit(
    core: &mut Core,
    alloc: Global,
    scope: ScopeId,
    name: &Txt,
    args: &Values,
) -> Result<Value, Fault>
    requires sound { IsSound core.old }
    requires scope { scope.0 < length core.old.scopes }
    requires args { AllByRecursion (StandsAmong (length core.old.store)) args.now }
    ensures run { Acts same result (state_of core.new) (as_value_run (does (64 - core.old.depth) (an_emit scope.0 name.now (map prim args.now)) (state_of core.old))) }
    ensures sound { IsSound core.new }
    ensures held { held core.new ≡ held core.old }
    ensures depth { core.new.depth ≡ core.old.depth }
    ensures count { length core.new.scopes ≡ length core.old.scopes }
    ensures grown { length core.old.store ≤ length core.new.store }
    ensures stands { IfOk result (StandsAmong (length core.new.store)) }
    ensures worn { IfErr result (FaultHasCause (is_worn (state_of core.new))) }
{
    let args = match views_from(alloc, args) {
        Ok(args) => args,
        Err(memory) => return Err(Fault::Memory(told(is_worn(core), memory))),
    };
    let end = emit_views(core, alloc, scope, name, args);
    answered(core, end)
}

/// Broadcasts an event from a scope downwards (API: `$rootScope.Scope`, `$broadcast`): the value is the event's object.
pub fn broadcast(
    core: &mut Core,
    alloc: Global,
    scope: ScopeId,
    name: &Txt,
    args: &Values,
) -> Result<Value, Fault>
    requires sound { IsSound core.old }
    requires scope { scope.0 < length core.old.scopes }
    requires args { AllByRecursion (StandsAmong (length core.old.store)) args.now }
    ensures run { Acts same result (state_of core.new) (as_value_run (does (64 - core.old.depth) (a_broadcast scope.0 name.now (map prim args.now)) (state_of core.old))) }
    ensures sound { IsSound core.new }
    ensures held { held core.new ≡ held core.old }
    ensures depth { core.new.depth ≡ core.old.depth }
    ensures count { length core.new.scopes ≡ length core.old.scopes }
    ensures grown { length core.old.store ≤ length core.new.store }
    ensures stands { IfOk result (StandsAmong (length core.new.store)) }
    ensures worn { IfErr result (FaultHasCause (is_worn (state_of core.new))) }
{
    let args = match views_from(alloc, args) {
        Ok(args) => args,
        Err(memory) => return Err(Fault::Memory(told(is_worn(core), memory))),
    };
    let end = broadcast_views(core, alloc, scope, name, args);
    answered(core, end)
}
