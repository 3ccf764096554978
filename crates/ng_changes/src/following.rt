//! What comes after a program that ran: its fault is handed over, and what it left for the watchers is done.
ghost use Rattle.std.specs.Prelude.{◌≡◌, ◌≤◌, length, IfOk, OnOk, is_err};
ghost use Rattle.ng_core.specs.Frames as cores;
ghost use Rattle.ng_core.specs.Frames.{Acts};
ghost use Rattle.ng_act.specs.Running.{same};
ghost use Rattle.ng_core.specs.State.{Run};
ghost use Rattle.ng_base.specs.declared.value.Value.{Value as Given};
ghost use Rattle.ng_changes.specs.Changes.{changed, has_additions};
ghost use Rattle.ng_changes.specs.Runs.{followed};
ghost use Rattle.ng_changes.specs.Whole.{IsWhole, Unless};
ghost use Rattle.ng_link.specs.Calls.{with_core};
ghost use Rattle.ng_link.specs.State.{state_of, templates_of};
ghost use Rattle.ng_core.specs.State.{with_fault};

use crate::changing::apply_changes;
use ng_base::fault::{Fault, Memory};
use ng_base::value::Value;
use ng_link::works::Works;
use std::alloc::Global;

/// What a program that ran came to: whether it faulted, and whether it left a watcher more.
#[derive(Clone, Copy, Debug, PartialEq, Eq)]
pub struct Followed {
    pub faulted: bool,
    pub added: bool,
}

/// What a program left for the watchers is done, and it is told whether it faulted.
fn done(works: &mut Works, alloc: Global, faulted: bool) -> Result<Followed, Memory>
    requires { IsWhole works.old }
    ensures state { OnOk result (state_of works.new ≡ changed (state_of works.old)) }
    ensures faulted { IfOk result (λ f. f.faulted ≡ faulted) }
    ensures added { IfOk result (λ f. f.added ≡ has_additions (state_of works.old).core.changes) }
    ensures grown { OnOk result (length works.old.core.store ≤ length works.new.core.store) }
    ensures whole { OnOk result (IsWhole works.new) }
    ensures scopes { OnOk result (works.new.core.scopes ≡ works.old.core.scopes) }
    ensures linked { OnOk result ((state_of works.new).instances ≡ (state_of works.old).instances) }
    ensures templates { templates_of works.new ≡ templates_of works.old }
{
    let added = apply_changes(works, alloc)?;
    Ok(Followed { faulted, added })
}

/// A fault is handed over.
pub fn hand_over(works: &mut Works, fault: Fault)
    requires { IsWhole works.old }
    ensures state { state_of works.new ≡ with_core (with_fault fault (state_of works.old).core) (state_of works.old) }
    ensures grown { length works.old.core.store ≤ length works.new.core.store }
    ensures whole { IsWhole works.new }
    ensures scopes { works.new.core.scopes ≡ works.old.core.scopes }
    ensures templates { templates_of works.new ≡ templates_of works.old }
{
    works.core.hand_over(fault);
}

/// After a program ran on the core: its fault is handed over, and what it left for the watchers is done, also after a fault.
pub fn follow(
    works: &mut Works,
    alloc: Global,
    end: Result<Value, Fault>,
) -> Result<Followed, Memory>
    requires { Unless end (IsWhole works.old) }
    ensures state { IfOk result (λ f. (r : Run Given) → Acts same end (cores.state_of works.old.core) r → (state_of works.new ≡ followed r (state_of works.old)) × (f.faulted ≡ is_err r.1)) }
    ensures added { IfOk result (λ f. (r : Run Given) → Acts same end (cores.state_of works.old.core) r → f.added ≡ has_additions r.0.changes) }
    ensures grown { OnOk result (length works.old.core.store ≤ length works.new.core.store) }
    ensures whole { OnOk result (IsWhole works.new) }
    ensures scopes { OnOk result (works.new.core.scopes ≡ works.old.core.scopes) }
    ensures linked { OnOk result ((state_of works.new).instances ≡ (state_of works.old).instances) }
    ensures templates { templates_of works.new ≡ templates_of works.old }
{
    match end {
        Ok(_) => done(works, alloc, false),
        Err(Fault::Memory(memory)) => Err(memory),
        Err(fault) => {
            hand_over(works, fault);
            done(works, alloc, true)
        }
    }
}
