//! A program that a command, or `ng-init`, runs on a scope.
ghost use Rattle.std.specs.Prelude.{◌≡◌, ◌<◌, ◌≤◌, length};
ghost use Rattle.ng_core.specs.Frames as cores;
ghost use Rattle.ng_core.specs.Frames.{IsSound, Acts};
ghost use Rattle.ng_act.specs.Running.{same};
ghost use Rattle.ng_changes.specs.Runs.{program_run};
ghost use Rattle.ng_parse.specs.ProgramOf.{program};

use ng_act::running::act;
use ng_base::fault::Fault;
use ng_base::locals::Locals;
use ng_base::name::ScopeId;
use ng_base::value::Value;
use ng_core::core_state::Core;
use ng_parse::Program;
use std::alloc::Global;

/// A program runs on a scope, with no locals.
pub fn run_program(
    core: &mut Core,
    alloc: Global,
    scope: ScopeId,
    p: &Program,
) -> Result<Value, Fault>
    requires sound { IsSound core.old }
    requires idle { core.old.depth ≡ 0 }
    requires scope { scope.0 < length core.old.scopes }
    ensures run { Acts same result (cores.state_of core.new) (program_run scope.0 (program p.now) (cores.state_of core.old)) }
    ensures sound { IsSound core.new }
    ensures idle { core.new.depth ≡ 0 }
    ensures count { length core.new.scopes ≡ length core.old.scopes }
    ensures grown { length core.old.store ≤ length core.new.store }
{
    let mut locals = Locals::new(alloc);
    act(core, alloc, scope, &mut locals, p)
}
