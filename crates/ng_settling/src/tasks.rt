//! Programs that run while no other is open, and the tasks among them.
ghost use Rattle.std.specs.Prelude.{◌≡◌, ◌<◌, ◌≤◌, ◌∷◌, [], length, IfOk, OnOk, IfSome, IfNone};
ghost use Rattle.ng_act.specs.Asked.{a_body};
ghost use Rattle.ng_core.specs.Frames as cores;
ghost use Rattle.ng_core.specs.Frames.{IsSound, Acts, task_of};
ghost use Rattle.ng_act.specs.Running.{as_value_run, same};
ghost use Rattle.ng_changes.specs.Runs.{any_waits, asked_first, followed, ran, without_task};
ghost use Rattle.ng_changes.specs.Whole.{IsWhole};
ghost use Rattle.ng_link.specs.Calls.{with_core};
ghost use Rattle.ng_link.specs.State.{state_of, templates_of};
ghost use Rattle.ng_parse.specs.ProgramOf.{program};
ghost use Rattle.ng_members.specs.Leaves.{LocalsStand};

use ng_act::running::act_body;
use ng_base::fault::{Fault, Memory};
use ng_base::locals::Locals;
use ng_base::name::ScopeId;
use ng_base::value::Value;
use ng_changes::following::{Followed, follow};
use ng_core::core_state::Core;
use ng_core::pending::Task;
use ng_link::works::Works;
use ng_parse::Program;
use std::alloc::Global;

/// Runs a program as a body while none is open.
pub(crate) fn run_first(
    core: &mut Core,
    alloc: Global,
    scope: ScopeId,
    locals: Locals,
    p: &Program,
) -> Result<Value, Fault>
    requires sound { IsSound core.old }
    requires idle { core.old.depth ≡ 0 }
    requires scope { scope.0 < length core.old.scopes }
    requires locals { LocalsStand (length core.old.store) locals }
    ensures run { Acts same result (cores.state_of core.new) (as_value_run (asked_first (a_body scope.0 locals (program p.now)) (cores.state_of core.old))) }
    ensures sound { IsSound core.new }
    ensures idle { core.new.depth ≡ 0 }
    ensures count { length core.new.scopes ≡ length core.old.scopes }
    ensures grown { length core.old.store ≤ length core.new.store }
{
    act_body(core, alloc, scope, locals, p)
}

/// Takes the first task that waits.
fn take_task(works: &mut Works) -> Option<Task>
    requires { IsWhole works.old }
    ensures none { IfNone result ((state_of works.old).core.tasks ≡ []) }
    ensures unchanged { IfNone result (state_of works.new ≡ state_of works.old) }
    ensures first { IfSome result (λ t. (state_of works.old).core.tasks ≡ task_of t ∷ (state_of works.new).core.tasks) }
    ensures state { state_of works.new ≡ with_core (without_task (state_of works.new).core.tasks (state_of works.old).core) (state_of works.old) }
    ensures scope { IfSome result (λ t. t.scope.0 < length works.new.core.scopes) }
    ensures whole { IsWhole works.new }
    ensures templates { templates_of works.new ≡ templates_of works.old }
{
    works.core.tasks.pop_front()
}

/// Runs a program on a scope as a body, and does what comes after it.
fn run_alone(
    works: &mut Works,
    alloc: Global,
    scope: ScopeId,
    p: &Program,
) -> Result<Followed, Memory>
    requires whole { IsWhole works.old }
    requires scope { scope.0 < length works.old.core.scopes }
    ensures state { OnOk result (state_of works.new ≡ followed (asked_first (a_body scope.0 [] (program p.now)) (state_of works.old).core) (state_of works.old)) }
    ensures whole { OnOk result (IsWhole works.new) }
    ensures linked { OnOk result ((state_of works.new).instances ≡ (state_of works.old).instances) }
    ensures templates { templates_of works.new ≡ templates_of works.old }
{
    let end = run_first(&mut works.core, alloc, scope, Locals::new(alloc), p);
    follow(works, alloc, end)
}

/// Runs the first task that waits on its scope, live or not (API: `$rootScope.Scope`, `$evalAsync`). False where none waits.
pub fn run_task(works: &mut Works, alloc: Global) -> Result<bool, Memory>
    requires { IsWhole works.old }
    ensures state { OnOk result (state_of works.new ≡ ran (state_of works.old)) }
    ensures answer { IfOk result (λ waited. waited ≡ any_waits (state_of works.old).core.tasks) }
    ensures whole { OnOk result (IsWhole works.new) }
    ensures linked { OnOk result ((state_of works.new).instances ≡ (state_of works.old).instances) }
    ensures templates { templates_of works.new ≡ templates_of works.old }
{
    match take_task(works) {
        None => Ok(false),
        Some(task) => {
            run_alone(works, alloc, task.scope, &task.program)?;
            Ok(true)
        }
    }
}
