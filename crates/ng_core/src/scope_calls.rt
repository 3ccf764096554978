//! The calls of scopes that open no body and no event, those of event objects, and the functions that take out again.
ghost use Rattle.std.specs.Prelude.{◌≡◌, ◌<◌, ◌≤◌, length, IfOk, OnOk, Ok, true};
ghost use Rattle.std.specs.List.{AllByRecursion};
ghost use Rattle.ng_base.specs.Views.{views_list};
ghost use Rattle.ng_base.specs.ViewOf.{view_of, views_of};
ghost use Rattle.ng_language.specs.Views.{ViewStands};
ghost use Rattle.ng_core.specs.Keeping.{nothing};
ghost use Rattle.ng_core.specs.ScopeCalls.{listens, ons, event_run, watches, declares, defers};
ghost use Rattle.ng_core.specs.Calling.{watch_kind};
ghost use Rattle.ng_core.specs.State.{with_change, removes, with_heard};
ghost use Rattle.ng_behaviour.specs.Listeners.{without_listener};
ghost use Rattle.ng_members.specs.Methods.{argument};
ghost use Rattle.ng_evaluation.specs.Purity.{are_pure, all_filters_known};
ghost use Rattle.ng_core.specs.Frames.{state_of, held, IsSound, Acts};
ghost use Rattle.ng_parse.specs.ProgramOf.{program as trees_of};

use crate::core_state::{Core, Function};
use crate::pending::{DeclaredWatch, Task, WatchChange};
use crate::reading::{program_given, watch_given};
use ng_base::fault::{Fault, Memory};
use ng_base::name::{FunId, Oid, ScopeId, Serial};
use ng_base::txt::Txt;
use ng_base::value::Value;
use ng_base::view::{View, Views};
use ng_language::snapshots::SnapKind;
use ng_members::lists::argument;
use ng_members::members::undefined;
use ng_parse::Program;
use ng_value::operators::truthy;
use ng_value::texts::to_text;
use ng_write::events::{EventCall, call_event};
use std::alloc::Global;

/// Registers a listener under the name of the function that takes it out, which is the value.
pub fn listen(core: &mut Core, scope: ScopeId, name: &Txt, p: Program) -> Result<View, Fault>
    requires sound { IsSound core.old }
    ensures run { Acts view_of result (state_of core.new) (listens scope.0 name.now (trees_of p) (state_of core.old)) }
    ensures sound { IsSound core.new }
    ensures held { held core.new ≡ held core.old }
    ensures depth { core.new.depth ≡ core.old.depth }
    ensures count { length core.new.scopes ≡ length core.old.scopes }
    ensures grown { length core.old.store ≤ length core.new.store }
    ensures stands { IfOk result (λ w. ViewStands (length core.new.store) (view_of w)) }
{
    let count = core.funs.len();
    if count >= u32::MAX as usize {
        return Err(Fault::Memory(Memory::Worn));
    }
    let id = FunId(count as u32);
    if core.listeners.body(id).is_some() {
        return Err(Fault::Memory(Memory::Worn));
    }
    core.listeners.on(scope, name, p, id)?;
    core.funs.push(Function::Taker)?;
    Ok(View::of_value(Value::Fun(id)))
}

/// `$on` (API: `$rootScope.Scope`, `$on`).
pub fn on(core: &mut Core, alloc: Global, scope: ScopeId, args: &Views) -> Result<View, Fault>
    requires sound { IsSound core.old }
    requires args { AllByRecursion (ViewStands (length core.old.store)) (views_list (views_of args.now)) }
    ensures run { Acts view_of result (state_of core.new) (ons scope.0 (views_list (views_of args.now)) (state_of core.old)) }
    ensures sound { IsSound core.new }
    ensures held { held core.new ≡ held core.old }
    ensures depth { core.new.depth ≡ core.old.depth }
    ensures count { length core.new.scopes ≡ length core.old.scopes }
    ensures grown { length core.old.store ≤ length core.new.store }
    ensures stands { IfOk result (λ w. ViewStands (length core.new.store) (view_of w)) }
{
    let missing = undefined();
    let name = to_text(alloc, &core.store, argument(args, 0, &missing))?;
    let p = program_given(alloc, argument(args, 1, &missing))?;
    listen(core, scope, &name, p)
}

/// A method of an event object.
#[tactic(auto, using(crate::proofs::SoundCores::grown))]
pub fn call_of_event(
    core: &mut Core,
    alloc: Global,
    event: Oid,
    call: EventCall,
) -> Result<View, Fault>
    requires sound { IsSound core.old }
    requires event { event.0 < length core.old.store }
    ensures run { Acts view_of result (state_of core.new) (event_run event.0 call (state_of core.old), Ok nothing) }
    ensures sound { IsSound core.new }
    ensures held { held core.new ≡ held core.old }
    ensures depth { core.new.depth ≡ core.old.depth }
    ensures count { length core.new.scopes ≡ length core.old.scopes }
    ensures grown { length core.old.store ≤ length core.new.store }
    ensures stands { IfOk result (λ w. ViewStands (length core.new.store) (view_of w)) }
{
    call_event(alloc, &mut core.store, event, call)?;
    match call {
        EventCall::StopPropagation => core.stopped.push(event.0)?,
        EventCall::PreventDefault => {}
    }
    Ok(undefined())
}

/// Declares a watch under the next number: the value is the function that takes it out.
pub fn watch_declared(
    core: &mut Core,
    scope: ScopeId,
    kind: SnapKind,
    program: Program,
    listener: Program,
) -> Result<View, Fault>
    requires sound { IsSound core.old }
    requires scope { scope.0 < length core.old.scopes }
    requires pure { are_pure (trees_of program) ≡ true }
    requires known { all_filters_known (trees_of program) ≡ true }
    ensures run { Acts view_of result (state_of core.new) (watches scope.0 kind (trees_of program) (trees_of listener) (state_of core.old)) }
    ensures sound { IsSound core.new }
    ensures held { held core.new ≡ held core.old }
    ensures depth { core.new.depth ≡ core.old.depth }
    ensures count { length core.new.scopes ≡ length core.old.scopes }
    ensures grown { length core.old.store ≤ length core.new.store }
    ensures stands { IfOk result (λ w. ViewStands (length core.new.store) (view_of w)) }
{
    let count = core.funs.len();
    let serial = core.serial;
    if count >= u32::MAX as usize || serial.0 == u64::MAX {
        return Err(Fault::Memory(Memory::Worn));
    }
    core.funs.push(Function::Unwatcher(scope, serial))?;
    core.changes.push(WatchChange::Add(DeclaredWatch {
        scope,
        serial,
        kind,
        program,
        listener,
    }))?;
    core.serial = Serial(serial.0 + 1);
    Ok(View::of_value(Value::Fun(FunId(count as u32))))
}

/// `$watch` and `$watchCollection` (API: `$rootScope.Scope`, `$watch`).
pub fn watch(
    core: &mut Core,
    alloc: Global,
    scope: ScopeId,
    kind: SnapKind,
    args: &Views,
) -> Result<View, Fault>
    requires sound { IsSound core.old }
    requires scope { scope.0 < length core.old.scopes }
    ensures run { Acts view_of result (state_of core.new) (declares scope.0 kind (views_list (views_of args.now)) (state_of core.old)) }
    ensures sound { IsSound core.new }
    ensures held { held core.new ≡ held core.old }
    ensures depth { core.new.depth ≡ core.old.depth }
    ensures count { length core.new.scopes ≡ length core.old.scopes }
    ensures grown { length core.old.store ≤ length core.new.store }
    ensures stands { IfOk result (λ w. ViewStands (length core.new.store) (view_of w)) }
{
    let missing = undefined();
    let watched = watch_given(alloc, argument(args, 0, &missing))?;
    let listener = program_given(alloc, argument(args, 1, &missing))?;
    watch_declared(core, scope, kind, watched, listener)
}

/// What a `$watch` compares, by its third argument.
pub fn watch_kind(args: &Views) -> SnapKind
    ensures { result ≡ watch_kind (argument (views_list (views_of args.now)) 2) }
{
    let missing = undefined();
    if truthy(argument(args, 2, &missing)) {
        SnapKind::Deep
    } else {
        SnapKind::Reference
    }
}

/// `$evalAsync` (API: `$rootScope.Scope`, `$evalAsync`).
pub fn defer(core: &mut Core, alloc: Global, scope: ScopeId, args: &Views) -> Result<View, Fault>
    requires sound { IsSound core.old }
    requires scope { scope.0 < length core.old.scopes }
    ensures run { Acts view_of result (state_of core.new) (defers scope.0 (views_list (views_of args.now)) (state_of core.old)) }
    ensures sound { IsSound core.new }
    ensures held { held core.new ≡ held core.old }
    ensures depth { core.new.depth ≡ core.old.depth }
    ensures count { length core.new.scopes ≡ length core.old.scopes }
    ensures grown { length core.old.store ≤ length core.new.store }
    ensures stands { IfOk result (λ w. ViewStands (length core.new.store) (view_of w)) }
{
    let missing = undefined();
    let program = program_given(alloc, argument(args, 0, &missing))?;
    core.tasks.push_back(Task { scope, program })?;
    Ok(undefined())
}

/// Takes a declared watch out.
pub fn unwatch(core: &mut Core, scope: ScopeId, serial: Serial) -> Result<View, Fault>
    requires sound { IsSound core.old }
    requires scope { scope.0 < length core.old.scopes }
    ensures run { Acts view_of result (state_of core.new) (with_change (removes scope.0 serial.0) (state_of core.old), Ok nothing) }
    ensures sound { IsSound core.new }
    ensures held { held core.new ≡ held core.old }
    ensures depth { core.new.depth ≡ core.old.depth }
    ensures count { length core.new.scopes ≡ length core.old.scopes }
    ensures grown { length core.old.store ≤ length core.new.store }
    ensures stands { IfOk result (λ w. ViewStands (length core.new.store) (view_of w)) }
{
    core.changes.push(WatchChange::Remove(scope, serial))?;
    Ok(undefined())
}

/// Takes the listener of a name out.
pub fn unlisten(core: &mut Core, f: FunId) -> View
    requires sound { IsSound core.old }
    ensures run { state_of core.new ≡ with_heard (without_listener (state_of core.old).heard f.0) (state_of core.old) }
    ensures value { view_of result ≡ nothing }
    ensures sound { IsSound core.new }
    ensures held { held core.new ≡ held core.old }
    ensures depth { core.new.depth ≡ core.old.depth }
    ensures count { length core.new.scopes ≡ length core.old.scopes }
    ensures grown { length core.old.store ≤ length core.new.store }
{
    core.listeners.off(f);
    undefined()
}
