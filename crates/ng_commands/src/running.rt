//! What commands do before their digest.
ghost use Rattle.std.specs.Prelude.{◌≡◌, ◌<◌, ◌≤◌, length, true, IfOk, OnOk};
ghost use Rattle.std.specs.List.{AllByRecursion};
ghost use Rattle.serde_json.specs.View.{view};
ghost use Rattle.ng_core.specs.Frames as cores;
ghost use Rattle.ng_core.specs.Frames.{IsSound, Acts};
ghost use Rattle.ng_act.specs.Running.{same};
ghost use Rattle.ng_base.specs.Objects.{StandsAmong};
ghost use Rattle.ng_language.specs.Objects.{items_at};
ghost use Rattle.ng_changes.specs.Runs.{destroyed};
ghost use Rattle.ng_link.specs.State.{state_of};
ghost use Rattle.ng_parse.specs.ProgramOf.{program};
ghost use Rattle.ng_evaluation.specs.Purity.{are_pure, all_filters_known};
ghost use Rattle.ng_control.specs.Typed.{TakesText, IsCheckbox};
ghost use Rattle.ng_build.specs.Controls.{IsOfKind};
ghost use Rattle.ng_link.specs.Events.{state_by, control_at};
ghost use Rattle.ng_commands.specs.Commands.{begun, json_fault as json_fault_of, items_in, json_run, emit_run, broadcast_run, asked_run, applies, queues, probes, destroys_scope, emits, broadcasts, types, checks};
ghost use Rattle.ng_commands.specs.BetweenSteps.{PageIs};

use ng_act::running::{broadcast, destroy, emit};
use ng_base::fault::{Fault, Memory};
use ng_base::heap::Heap;
use ng_base::lists::Values;
use ng_base::name::{Oid, ScopeId};
use ng_base::txt::Txt;
use ng_base::value::Value;
use ng_changes::changing::apply_changes;
use ng_changes::following::follow;
use ng_changes::programs::run_program;
use ng_core::core_state::{Core, Handed};
use ng_core::pending::Task;
use ng_link::works::Works;
use ng_parse::Program;
use ng_settling::inputs::write_model;
use ng_store::json::JsonFault;
use ng_store::store::Store;
use serde_json::Value as Json;
use std::alloc::Global;

/// A command begins: no body was entered, and no fault was handed over.
pub fn begin(works: &mut Works)
    ensures state { state_of works.new ≡ begun (state_of works.old) }
    ensures page { PageIs works.old → PageIs works.new }
{
    works.core.bodies = 0;
    works.core.handed = Handed {
        count: 0,
        first: None,
    };
}

/// A scope dies, and all below it, while no body and no event is open.
fn destroy_first(core: &mut Core, alloc: Global, scope: ScopeId) -> Result<(), Memory>
    requires sound { IsSound core.old }
    requires idle { core.old.depth ≡ 0 }
    requires scope { scope.0 < length core.old.scopes }
    ensures run { OnOk result (cores.state_of core.new ≡ destroyed scope.0 (cores.state_of core.old)) }
    ensures sound { IsSound core.new }
    ensures idle { core.new.depth ≡ 0 }
    ensures count { length core.new.scopes ≡ length core.old.scopes }
    ensures grown { length core.old.store ≤ length core.new.store }
{
    destroy(core, alloc, scope)
}

/// Why JSON is not read as the arguments of an event.
fn json_fault(refused: JsonFault) -> Fault
    ensures { result ≡ json_fault_of refused }
{
    match refused {
        JsonFault::Number => Fault::Range,
        JsonFault::Full => Fault::StoreFull,
        JsonFault::Memory(memory) => Fault::Memory(memory),
    }
}

/// The items of an array.
fn items(alloc: Global, store: &Store, o: Oid) -> Result<Values, Memory>
    requires { o.0 < length store.now }
    ensures items { IfOk result (λ vs. vs ≡ items_at store.now o.0) }
    ensures stand { IfOk result (λ vs. AllByRecursion (StandsAmong (length store.now)) vs) }
{
    store.sound();
    let mut values = Values::new(alloc);
    for i in 0..store.len(o) {
        values.push(store.item(o, i).copied()?)?;
    }
    Ok(values)
}

/// The items of a value that is an array.
fn items_of(alloc: Global, store: &Store, v: &Value) -> Result<Values, Memory>
    requires { StandsAmong (length store.now) v.now }
    ensures items { IfOk result (λ vs. vs ≡ items_in store.now v.now) }
    ensures stand { IfOk result (λ vs. AllByRecursion (StandsAmong (length store.now)) vs) }
{
    match v {
        Value::Obj(o) => items(alloc, store, *o),
        _ => Ok(Values::new(alloc)),
    }
}

/// Reads JSON into the store of a core. The value is there, or why it is not.
fn read_json(core: &mut Core, args: &Json) -> Result<Value, Fault>
    requires sound { IsSound core.old }
    ensures value { Acts same result (cores.state_of core.new) (json_run (view args.now) (cores.state_of core.old)) }
    ensures stands { IfOk result (StandsAmong (length core.new.store)) }
    ensures sound { IsSound core.new }
    ensures depth { core.new.depth ≡ core.old.depth }
    ensures scopes { core.new.scopes ≡ core.old.scopes }
    ensures grown { length core.old.store ≤ length core.new.store }
{
    match core.store.of_json(args) {
        Ok(value) => Ok(value),
        Err(refused) => Err(json_fault(refused)),
    }
}

/// Emits an event whose arguments are the items of a JSON list.
fn emit_event(
    core: &mut Core,
    alloc: Global,
    scope: ScopeId,
    name: &Txt,
    args: &Json,
) -> Result<Value, Fault>
    requires sound { IsSound core.old }
    requires idle { core.old.depth ≡ 0 }
    requires scope { scope.0 < length core.old.scopes }
    ensures run { Acts same result (cores.state_of core.new) (emit_run scope.0 name.now (view args.now) (cores.state_of core.old)) }
    ensures sound { IsSound core.new }
    ensures idle { core.new.depth ≡ 0 }
    ensures count { length core.new.scopes ≡ length core.old.scopes }
    ensures grown { length core.old.store ≤ length core.new.store }
{
    let value = read_json(core, args)?;
    let values = items_of(alloc, &core.store, &value)?;
    emit(core, alloc, scope, name, &values)
}

/// Broadcasts an event whose arguments are the items of a JSON list.
fn broadcast_event(
    core: &mut Core,
    alloc: Global,
    scope: ScopeId,
    name: &Txt,
    args: &Json,
) -> Result<Value, Fault>
    requires sound { IsSound core.old }
    requires idle { core.old.depth ≡ 0 }
    requires scope { scope.0 < length core.old.scopes }
    ensures run { Acts same result (cores.state_of core.new) (broadcast_run scope.0 name.now (view args.now) (cores.state_of core.old)) }
    ensures sound { IsSound core.new }
    ensures idle { core.new.depth ≡ 0 }
    ensures count { length core.new.scopes ≡ length core.old.scopes }
    ensures grown { length core.old.store ≤ length core.new.store }
{
    let value = read_json(core, args)?;
    let values = items_of(alloc, &core.store, &value)?;
    broadcast(core, alloc, scope, name, &values)
}

/// A program on a scope.
pub fn apply(works: &mut Works, alloc: Global, scope: ScopeId, p: &Program) -> Result<(), Memory>
    requires page { PageIs works.old }
    requires scope { scope.0 < length (state_of works.old).core.scopes }
    ensures state { OnOk result (state_of works.new ≡ asked_run (applies scope.0 (program p.now)) (state_of works.old)) }
    ensures page { OnOk result (PageIs works.new) }
{
    let end = run_program(&mut works.core, alloc, scope, p);
    follow(works, alloc, end)?;
    Ok(())
}

/// A task on the root.
pub fn queue(works: &mut Works, alloc: Global, p: &Program) -> Result<(), Memory>
    requires { PageIs works.old }
    ensures state { OnOk result (state_of works.new ≡ asked_run (queues (program p.now)) (state_of works.old)) }
    ensures page { OnOk result (PageIs works.new) }
{
    let program = p.copied(alloc)?;
    works.core.tasks.push_back(Task {
        scope: ScopeId(0),
        program,
    })?;
    Ok(())
}

/// A probe.
pub fn probe(works: &mut Works, alloc: Global, p: &Program) -> Result<(), Memory>
    requires page { PageIs works.old }
    requires pure { are_pure (program p.now) ≡ true }
    requires known { all_filters_known (program p.now) ≡ true }
    ensures state { OnOk result (state_of works.new ≡ asked_run (probes (program p.now)) (state_of works.old)) }
    ensures page { OnOk result (PageIs works.new) }
{
    let program = p.copied(alloc)?;
    works.core.probes.push(program)?;
    Ok(())
}

/// The end of a scope and of those below it.
pub fn destroy_scope(works: &mut Works, alloc: Global, scope: ScopeId) -> Result<(), Memory>
    requires page { PageIs works.old }
    requires scope { scope.0 < length (state_of works.old).core.scopes }
    ensures state { OnOk result (state_of works.new ≡ asked_run (destroys_scope scope.0) (state_of works.old)) }
    ensures page { OnOk result (PageIs works.new) }
{
    destroy_first(&mut works.core, alloc, scope)?;
    apply_changes(works, alloc)?;
    Ok(())
}

/// An event from a scope upwards.
pub fn emit_from(
    works: &mut Works,
    alloc: Global,
    scope: ScopeId,
    name: &Txt,
    args: &Json,
) -> Result<(), Memory>
    requires page { PageIs works.old }
    requires scope { scope.0 < length (state_of works.old).core.scopes }
    ensures state { OnOk result (state_of works.new ≡ asked_run (emits scope.0 name.now (view args.now)) (state_of works.old)) }
    ensures page { OnOk result (PageIs works.new) }
{
    let end = emit_event(&mut works.core, alloc, scope, name, args);
    follow(works, alloc, end)?;
    Ok(())
}

/// An event from a scope downwards.
pub fn broadcast_from(
    works: &mut Works,
    alloc: Global,
    scope: ScopeId,
    name: &Txt,
    args: &Json,
) -> Result<(), Memory>
    requires page { PageIs works.old }
    requires scope { scope.0 < length (state_of works.old).core.scopes }
    ensures state { OnOk result (state_of works.new ≡ asked_run (broadcasts scope.0 name.now (view args.now)) (state_of works.old)) }
    ensures page { OnOk result (PageIs works.new) }
{
    let end = broadcast_event(&mut works.core, alloc, scope, name, args);
    follow(works, alloc, end)?;
    Ok(())
}

/// A text is typed into the control that a node is, and its model is written.
pub fn type_in(works: &mut Works, alloc: Global, n: u64, text: &Txt) -> Result<(), Memory>
    requires page { PageIs works.old }
    requires control { IsOfKind TakesText (state_by (control_at (state_of works.old) n) (state_of works.old)) }
    ensures state { OnOk result (state_of works.new ≡ asked_run (types n text.now) (state_of works.old)) }
    ensures page { OnOk result (PageIs works.new) }
{
    let Some(control) = works.control_at(n)? else {
        unreachable!();
    };
    let scope = works.scope_of(n);
    let value = works.take_text(&control.key, text.copied()?)?;
    let changes = control.changes.as_slice();
    write_model(works, alloc, scope, &control.writes, value, changes)
}

/// The checkbox that a node is is checked, or not, and its model is written.
pub fn check_in(works: &mut Works, alloc: Global, n: u64, on: bool) -> Result<(), Memory>
    requires page { PageIs works.old }
    requires control { IsOfKind IsCheckbox (state_by (control_at (state_of works.old) n) (state_of works.old)) }
    ensures state { OnOk result (state_of works.new ≡ asked_run (checks n on) (state_of works.old)) }
    ensures page { OnOk result (PageIs works.new) }
{
    let Some(control) = works.control_at(n)? else {
        unreachable!();
    };
    let scope = works.scope_of(n);
    let value = works.take_check(&control.key, on)?;
    let changes = control.changes.as_slice();
    write_model(works, alloc, scope, &control.writes, value, changes)
}
