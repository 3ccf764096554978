//! What is put in to a control: its model is written, and then the programs of `ng-change` run (API: ngModel; API: ngChange).
ghost use Rattle.std.specs.Prelude.{◌≡◌, ◌<◌, ◌≤◌, ◌∷◌, [], length, map, IfOk, OnOk};
ghost use Rattle.ng_act.specs.Running.{same};
ghost use Rattle.ng_base.specs.Objects.{StandsAmong};
ghost use Rattle.ng_core.specs.Frames as cores;
ghost use Rattle.ng_core.specs.Frames.{IsSound, Acts};
ghost use Rattle.ng_settling.specs.Inputs.{write_run, all_run, written};
ghost use Rattle.ng_changes.specs.Whole.{IsWhole};
ghost use Rattle.ng_link.specs.State.{state_of, templates_of};
ghost use Rattle.ng_parse.specs.ProgramOf.{program};
ghost use Rattle.ng_directives.specs.Writing.{input_name};

use ng_act::running::act;
use ng_base::fault::{Fault, Memory};
use ng_base::locals::Locals;
use ng_base::name::ScopeId;
use ng_base::txt::Txt;
use ng_base::value::Value;
use ng_changes::following::follow;
use ng_changes::programs::run_program;
use ng_core::core_state::Core;
use ng_link::works::Works;
use ng_parse::Program;
use std::alloc::Global;

/// What was put in, as the local that the program which writes reads.
fn input_locals(alloc: Global, value: Value) -> Result<Locals, Memory>
    ensures { IfOk result (λ ls. ls ≡ (input_name, value) ∷ []) }
{
    let mut name = Txt::new(alloc);
    name.push_word("=")?;
    let mut locals = Locals::new(alloc);
    locals.push(name, value)?;
    Ok(locals)
}

/// The program that writes a model runs on a scope.
pub fn run_write(
    core: &mut Core,
    alloc: Global,
    scope: ScopeId,
    p: &Program,
    value: Value,
) -> Result<Value, Fault>
    requires sound { IsSound core.old }
    requires idle { core.old.depth ≡ 0 }
    requires scope { scope.0 < length core.old.scopes }
    requires value { StandsAmong (length core.old.store) value }
    ensures run { Acts same result (cores.state_of core.new) (write_run scope.0 (program p.now) value (cores.state_of core.old)) }
    ensures sound { IsSound core.new }
    ensures idle { core.new.depth ≡ 0 }
    ensures count { length core.new.scopes ≡ length core.old.scopes }
    ensures grown { length core.old.store ≤ length core.new.store }
{
    let mut locals = input_locals(alloc, value)?;
    act(core, alloc, scope, &mut locals, p)
}

/// A program runs on a scope, and what comes after it is done.
fn run_one(works: &mut Works, alloc: Global, scope: ScopeId, p: &Program) -> Result<(), Memory>
    requires whole { IsWhole works.old }
    requires scope { scope.0 < length works.old.core.scopes }
    ensures state { OnOk result (state_of works.new ≡ all_run scope.0 (program p.now ∷ []) (state_of works.old)) }
    ensures whole { OnOk result (IsWhole works.new) }
    ensures count { OnOk result (length works.new.core.scopes ≡ length works.old.core.scopes) }
    ensures linked { OnOk result ((state_of works.new).instances ≡ (state_of works.old).instances) }
    ensures templates { templates_of works.new ≡ templates_of works.old }
{
    let end = run_program(&mut works.core, alloc, scope, p);
    follow(works, alloc, end)?;
    Ok(())
}

/// Programs run on a scope, one after another.
fn run_all(
    works: &mut Works,
    alloc: Global,
    scope: ScopeId,
    programs: &[Program],
) -> Result<(), Memory>
    requires whole { IsWhole works.old }
    requires scope { scope.0 < length works.old.core.scopes }
    ensures state { OnOk result (state_of works.new ≡ all_run scope.0 (map program programs.now) (state_of works.old)) }
    ensures whole { OnOk result (IsWhole works.new) }
    ensures linked { OnOk result ((state_of works.new).instances ≡ (state_of works.old).instances) }
    ensures templates { templates_of works.new ≡ templates_of works.old }
{
    for p in programs {
        run_one(works, alloc, scope, p)?;
    }
    Ok(())
}

/// A model on a scope is written to, and then the programs of `ng-change` run. They don't where the write faulted.
pub fn write_model(
    works: &mut Works,
    alloc: Global,
    scope: ScopeId,
    p: &Program,
    value: Value,
    changes: &[Program],
) -> Result<(), Memory>
    requires whole { IsWhole works.old }
    requires scope { scope.0 < length works.old.core.scopes }
    requires value { StandsAmong (length works.old.core.store) value }
    ensures state { OnOk result (state_of works.new ≡ written scope.0 (program p.now) value (map program changes.now) (state_of works.old)) }
    ensures whole { OnOk result (IsWhole works.new) }
    ensures linked { OnOk result ((state_of works.new).instances ≡ (state_of works.old).instances) }
    ensures templates { templates_of works.new ≡ templates_of works.old }
{
    let end = run_write(&mut works.core, alloc, scope, p, value);
    let followed = follow(works, alloc, end)?;
    if followed.faulted {
        return Ok(());
    }
    run_all(works, alloc, scope, changes)
}
