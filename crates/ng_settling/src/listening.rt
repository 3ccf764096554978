//! The program of a declared watch is run.
ghost use Rattle.std.specs.Prelude.{◌≡◌, ◌<◌, ◌≤◌, ℕ, length, option_map, IfOk};
ghost use Rattle.ng_core.specs.Frames.{state_of, IsSound, Acts};
ghost use Rattle.ng_act.specs.Running.{as_value_run, same};
ghost use Rattle.ng_base.specs.ViewOf.{view_of};
ghost use Rattle.ng_settling.specs.ListenerRuns.{former_value, listener_locals, listener_run};
ghost use Rattle.ng_changes.specs.Whole.{KeptStands};
ghost use Rattle.ng_language.specs.Views.{ViewStands};
ghost use Rattle.ng_link.specs.State.{listening_of};
ghost use Rattle.ng_value.specs.Snaps.{snap_of};
ghost use Rattle.ng_members.specs.Leaves.{LocalsStand};

use crate::tasks::run_first;
use ng_base::fault::Fault;
use ng_base::locals::Locals;
use ng_base::txt::Txt;
use ng_base::value::Value;
use ng_base::view::View;
use ng_core::binding::value_in;
use ng_core::core_state::Core;
use ng_core::keeping::keep;
use ng_instances::instances::Listener;
use ng_value::copies::copied;
use ng_value::snapshot::Snap;
use std::alloc::{AllocError, Global};

/// The value of a snapshot, or of the value of now where nothing was kept.
fn former_value(
    core: &mut Core,
    alloc: Global,
    former: Option<Snap>,
    value: &View,
) -> Result<View, Fault>
    requires sound { IsSound core.old }
    requires former { KeptStands (length core.old.store) (option_map snap_of former) }
    requires value { ViewStands (length core.old.store) (view_of value.now) }
    ensures run { Acts view_of result (state_of core.new) (former_value (option_map snap_of former) (view_of value.now) (state_of core.old)) }
    ensures sound { IsSound core.new }
    ensures depth { core.new.depth ≡ core.old.depth }
    ensures count { length core.new.scopes ≡ length core.old.scopes }
    ensures grown { length core.old.store ≤ length core.new.store }
    ensures stands { IfOk result (λ w. ViewStands (length core.new.store) (view_of w)) }
{
    match former {
        None => Ok(copied(alloc, value)?),
        Some(former) => keep(core, alloc, former.view()),
    }
}

/// The locals `value` and `old`.
fn listener_locals(alloc: Global, value: View, old: View) -> Result<Locals, AllocError>
    ensures locals { IfOk result (λ ls. ls ≡ listener_locals (view_of value) (view_of old)) }
    ensures stands { (n : ℕ) → ViewStands n (view_of value) → ViewStands n (view_of old) → IfOk result (LocalsStand n) }
{
    let mut first = Txt::new(alloc);
    first.push_word("value")?;
    let mut second = Txt::new(alloc);
    second.push_word("old")?;
    let mut locals = Locals::new(alloc);
    locals.push(first, value_in(value))?;
    locals.push(second, value_in(old))?;
    Ok(locals)
}

/// The program of a declared watch runs with the value of now and the former snapshot.
pub fn run_listener(
    core: &mut Core,
    alloc: Global,
    listener: &Listener,
    former: Option<Snap>,
    value: &View,
) -> Result<Value, Fault>
    requires sound { IsSound core.old }
    requires idle { core.old.depth ≡ 0 }
    requires scope { listener.now.scope.0 < length core.old.scopes }
    requires former { KeptStands (length core.old.store) (option_map snap_of former) }
    requires value { ViewStands (length core.old.store) (view_of value.now) }
    ensures run { Acts same result (state_of core.new) (as_value_run (listener_run (listening_of listener.now) (option_map snap_of former) (view_of value.now) (state_of core.old))) }
    ensures sound { IsSound core.new }
    ensures idle { core.new.depth ≡ 0 }
    ensures count { length core.new.scopes ≡ length core.old.scopes }
    ensures grown { length core.old.store ≤ length core.new.store }
{
    let value = keep(core, alloc, value)?;
    let old = former_value(core, alloc, former, &value)?;
    let locals = listener_locals(alloc, value, old)?;
    run_first(core, alloc, listener.scope, locals, &listener.program)
}
