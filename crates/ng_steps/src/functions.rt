//! Functions that are made on the core.
ghost use Rattle.std.specs.Prelude.{◌≡◌, ◌≤◌, ◌++◌, [], ◌∷◌, length, IfOk, OnOk};
ghost use Rattle.ng_core.specs.Frames as cores;
ghost use Rattle.ng_core.specs.Frames.{IsSound, FunStands, fun_of};
ghost use Rattle.ng_core.specs.State.{with_funs};

use ng_base::fault::Memory;
use ng_base::name::FunId;
use ng_core::core_state::{Core, Function as CoreFunction};

/// A function that is new: its name.
pub(crate) fn new_function(core: &mut Core, function: CoreFunction) -> Result<FunId, Memory>
    requires sound { IsSound core.old }
    requires stands { FunStands (length core.old.scopes) (fun_of function) }
    ensures run { OnOk result (cores.state_of core.new ≡ with_funs ((cores.state_of core.old).funs ++ fun_of function ∷ []) (cores.state_of core.old)) }
    ensures id { IfOk result (λ i. i.0 ≡ length core.old.funs.items) }
    ensures sound { OnOk result (IsSound core.new) }
    ensures depth { core.new.depth ≡ core.old.depth }
    ensures count { length core.new.scopes ≡ length core.old.scopes }
    ensures grown { length core.old.store ≤ length core.new.store }
{
    let count = core.funs.len();
    if count >= u32::MAX as usize {
        return Err(Memory::Worn);
    }
    core.funs.push(function)?;
    Ok(FunId(count as u32))
}
