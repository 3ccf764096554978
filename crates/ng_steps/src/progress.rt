//! How far a linking has come, and the numbers of registration that it gives.
ghost use Rattle.std.specs.Prelude.{◌≡◌, ◌≤◌, ◌++◌, ◌∷◌, [], length, None, IfOk, OnOk};
ghost use Rattle.ng_core.specs.State.{with_serial};
ghost use Rattle.ng_steps.specs.Links.{registered};
ghost use Rattle.ng_steps.specs.LinkingOf.{linking};
ghost use Rattle.ng_changes.specs.Whole.{IsWhole};
ghost use Rattle.ng_instances.specs.BoundOf.{registered_of};
ghost use Rattle.ng_link.specs.Calls.{with_core};
ghost use Rattle.ng_link.specs.State.{state_of, templates_of};

use ng_base::fault::{Fault, Memory};
use ng_base::name::Serial;
use ng_instances::linking::Registered;
use ng_link::works::Works;

/// How far a linking has come: what its steps have come to so far, whether a watcher was added, and the fault that it met, behind which no step is
/// done.
#[derive(Drop)]
pub(crate) struct Progress {
    pub made: Registered,
    pub added: bool,
    pub fault: Option<Fault>,
}

/// The next number of registration is given.
pub(crate) fn register(works: &mut Works) -> Result<u64, Memory>
    requires whole { IsWhole works.old }
    ensures state { OnOk result (state_of works.new ≡ with_core (with_serial (state_of works.old).core) (state_of works.old)) }
    ensures number { IfOk result (λ n. n ≡ (state_of works.old).core.serial) }
    ensures grown { length works.old.core.store ≤ length works.new.core.store }
    ensures whole { OnOk result (IsWhole works.new) }
    ensures scopes { works.new.core.scopes ≡ works.old.core.scopes }
    ensures templates { templates_of works.new ≡ templates_of works.old }
{
    let serial = works.core.serial.0;
    let Some(next) = serial.checked_add(1) else {
        return Err(Memory::Worn);
    };
    works.core.serial = Serial(next);
    Ok(serial)
}

/// A site gets the next number of registration, and has kept nothing yet.
pub(crate) fn register_site(works: &mut Works, done: &mut Progress) -> Result<u64, Memory>
    requires whole { IsWhole works.old }
    ensures registered { OnOk result (linking works.new done.new ≡ registered (linking works.old done.old)) }
    ensures serials { IfOk result (λ n. done.new.made.serials.items ≡ done.old.made.serials.items ++ n ∷ []) }
    ensures number { IfOk result (λ n. n ≡ (state_of works.old).core.serial) }
    ensures at_hand { (registered_of done.new.made).at_hand ≡ (registered_of done.old.made).at_hand }
    ensures grown { OnOk result (length works.old.core.store ≤ length works.new.core.store) }
    ensures whole { OnOk result (IsWhole works.new) }
    ensures scopes { works.new.core.scopes ≡ works.old.core.scopes }
    ensures templates { templates_of works.new ≡ templates_of works.old }
{
    let serial = register(works)?;
    done.made.serials.push(serial)?;
    done.made.kept.push(None)?;
    Ok(serial)
}
