//! Calls with their arguments, and the bodies that they open.
ghost use Rattle.std.specs.Prelude.{◌<◌, ◌-◌, length, map, slice_get, IfOk};
ghost use Rattle.std.specs.List.{AllByRecursion};
ghost use Rattle.ng_base.specs.Views.{views_list};
ghost use Rattle.ng_base.specs.ViewOf.{view_of, views_of};
ghost use Rattle.ng_language.specs.Views.{ViewStands};
ghost use Rattle.ng_parse.specs.ProgramOf.{program};
ghost use Rattle.ng_members.specs.Leaves.{LocalsStand};
ghost use Rattle.ng_act.specs.Asked.{a_body};
ghost use Rattle.ng_act.specs.Calls.{runs, scope_run, method_run, function_run};
ghost use Rattle.ng_act.specs.Actions.{does};
ghost use Rattle.ng_act.specs.Kept.{Kept};
ghost use Rattle.ng_core.specs.Frames.{state_of, IsSound, Acts, fun_of};
ghost use Rattle.ng_core.specs.PlaceOf.{TargetStands};

use crate::emitting::{broadcast_views, destroy, emit_views};
use crate::series::programmed;
use ng_base::fault::Fault;
use ng_base::locals::Locals;
use ng_base::name::{FunId, ScopeId};
use ng_base::view::{View, Views};
use ng_core::binding::after_first;
use ng_core::called::{Called, ScopeMethod, outlives};
use ng_core::callees::{Callee, find_callee};
use ng_core::core_state::Core;
use ng_core::keeping::{call_method, change_array};
use ng_core::opening::{ROOM, enter_body, leave_body};
use ng_core::reading::program_given;
use ng_core::scope_calls::{call_of_event, defer, on, unlisten, unwatch, watch, watch_kind};
use ng_language::snapshots::SnapKind;
use ng_members::lists::argument;
use ng_members::members::undefined;
use ng_parse::Program;
use ng_value::texts::to_text;
use std::alloc::Global;

/// As many bodies are entered by one command at most.
const MANY_BODIES: u32 = 100_000;

/// A call with its arguments.
#[cycle(act)]
pub(crate) fn call(
    core: &mut Core,
    alloc: Global,
    called: Called,
    v: View,
    args: Views,
) -> Result<View, Fault>
    requires sound { IsSound core.old }
    requires target { TargetStands (length core.old.store) (length core.old.scopes) called }
    requires view { ViewStands (length core.old.store) (view_of v) }
    requires args { AllByRecursion (ViewStands (length core.old.store)) (views_list (views_of args)) }
    ensures run { Acts view_of result (state_of core.new) (runs (does (64 - core.old.depth)) called (view_of v) (views_list (views_of args)) (state_of core.old)) }
    ensures kept { Kept core.old core.new }
    ensures stands { IfOk result (λ w. ViewStands (length core.new.store) (view_of w)) }
{
    match called {
        Called::Nothing => Ok(undefined()),
        Called::Other => Err(Fault::NotAFunction),
        Called::Function(f) => call_function(core, alloc, f, &args),
        Called::Pure(method) => call_method(core, alloc, method, &v, &args),
        Called::OfArray(o, method) => change_array(core, alloc, o, method, &args),
        Called::OfEvent(o, method) => call_of_event(core, alloc, o, method),
        Called::OfScope(scope, method) => call_scope(core, alloc, scope, method, args),
    }
}

/// A function is called.
#[cycle(act)]
fn call_function(core: &mut Core, alloc: Global, f: FunId, args: &Views) -> Result<View, Fault>
    requires sound { IsSound core.old }
    requires args { AllByRecursion (ViewStands (length core.old.store)) (views_list (views_of args.now)) }
    ensures run { Acts view_of result (state_of core.new) (function_run (does (64 - core.old.depth)) f.0 (slice_get (map fun_of core.old.funs.items) f.0) (views_list (views_of args.now)) (state_of core.old)) }
    ensures kept { Kept core.old core.new }
    ensures stands { IfOk result (λ w. ViewStands (length core.new.store) (view_of w)) }
{
    match find_callee(core, alloc, f, args)? {
        Callee::None => Err(Fault::NotAFunction),
        Callee::Taker => Ok(unlisten(core, f)),
        Callee::Unwatcher(scope, serial) => unwatch(core, scope, serial),
        Callee::Body(scope, locals, p) => run_body(core, alloc, scope, locals, &p),
    }
}

/// A method of a scope.
#[cycle(act)]
fn call_scope(
    core: &mut Core,
    alloc: Global,
    scope: ScopeId,
    method: ScopeMethod,
    args: Views,
) -> Result<View, Fault>
    requires sound { IsSound core.old }
    requires scope { scope.0 < length core.old.scopes }
    requires args { AllByRecursion (ViewStands (length core.old.store)) (views_list (views_of args)) }
    ensures run { Acts view_of result (state_of core.new) (scope_run (does (64 - core.old.depth)) scope.0 method (views_list (views_of args)) (state_of core.old)) }
    ensures kept { Kept core.old core.new }
    ensures stands { IfOk result (λ w. ViewStands (length core.new.store) (view_of w)) }
{
    if outlives(method) || core.scopes.is_live(scope) {
        run_method(core, alloc, scope, method, &args)
    } else {
        Ok(undefined())
    }
}

/// A method that a scope has still.
#[cycle(act)]
fn run_method(
    core: &mut Core,
    alloc: Global,
    scope: ScopeId,
    method: ScopeMethod,
    args: &Views,
) -> Result<View, Fault>
    requires sound { IsSound core.old }
    requires scope { scope.0 < length core.old.scopes }
    requires args { AllByRecursion (ViewStands (length core.old.store)) (views_list (views_of args.now)) }
    ensures run { Acts view_of result (state_of core.new) (method_run (does (64 - core.old.depth)) scope.0 method (views_list (views_of args.now)) (state_of core.old)) }
    ensures kept { Kept core.old core.new }
    ensures stands { IfOk result (λ w. ViewStands (length core.new.store) (view_of w)) }
{
    let missing = undefined();
    match method {
        ScopeMethod::On => on(core, alloc, scope, args),
        ScopeMethod::Emit => {
            let name = to_text(alloc, &core.store, argument(args, 0, &missing))?;
            let after = after_first(alloc, args)?;
            emit_views(core, alloc, scope, &name, after)
        }
        ScopeMethod::Broadcast => {
            let name = to_text(alloc, &core.store, argument(args, 0, &missing))?;
            let after = after_first(alloc, args)?;
            broadcast_views(core, alloc, scope, &name, after)
        }
        ScopeMethod::Destroy => {
            destroy(core, alloc, scope)?;
            Ok(undefined())
        }
        ScopeMethod::Eval => {
            let p = program_given(alloc, argument(args, 0, &missing))?;
            run_body(core, alloc, scope, Locals::new(alloc), &p)
        }
        ScopeMethod::Apply => Err(Fault::InProgress),
        ScopeMethod::Digest => Err(Fault::InProgress),
        ScopeMethod::Watch => watch(core, alloc, scope, watch_kind(args), args),
        ScopeMethod::WatchCollection => watch(core, alloc, scope, SnapKind::Collection, args),
        ScopeMethod::EvalAsync => defer(core, alloc, scope, args),
        ScopeMethod::LeftOut => Err(Fault::OutOfProfile),
    }
}

/// A body on a scope, with its own locals.
#[cycle(act)]
pub(crate) fn run_body(
    core: &mut Core,
    alloc: Global,
    scope: ScopeId,
    locals: Locals,
    p: &Program,
) -> Result<View, Fault>
    requires sound { IsSound core.old }
    requires scope { scope.0 < length core.old.scopes }
    requires locals { LocalsStand (length core.old.store) locals }
    ensures run { Acts view_of result (state_of core.new) (does (64 - core.old.depth) (a_body scope.0 locals (program p.now)) (state_of core.old)) }
    ensures kept { Kept core.old core.new }
    ensures stands { IfOk result (λ w. ViewStands (length core.new.store) (view_of w)) }
{
    if core.depth >= ROOM {
        return Err(Fault::Depth);
    }
    if core.bodies >= MANY_BODIES {
        return Err(Fault::CallLimit);
    }
    let outer = enter_body(core, locals);
    let value = programmed(core, alloc, scope, p.statements());
    leave_body(core, outer);
    value
}
