//! Counters at their last values, and how a public call tells want of memory.
//!
//! Many a function within answers `Memory::Worn` where a length has no room in its type, which is no counter. So a public call
//! that was told `Worn` looks whether a counter does stand at its last value: where none does, it answers `Refused`.
ghost use Rattle.std.specs.Prelude.{◌≡◌, false};
ghost use Rattle.ng_base.specs.Faults.{is_memory};
ghost use Rattle.ng_core.specs.Frames.{state_of};
ghost use Rattle.ng_act.specs.Worn.{is_worn, told, told_fault, HasCause, FaultHasCause};

use ng_base::fault::{Fault, Memory};
use ng_core::core_state::Core;

/// Whether no further function has a name, or no further registration a number.
pub fn is_worn(core: &Core) -> bool
    ensures { result ≡ is_worn (state_of core.now) }
{
    core.funs.len() >= u32::MAX as usize || core.serial.0 == u64::MAX
}

/// Want of memory as a public call tells it: `Worn` only where a counter does stand at its last value.
pub fn told(worn: bool, memory: Memory) -> Memory
    ensures answer { result ≡ told worn memory }
    ensures cause { HasCause worn result }
{
    match memory {
        Memory::Refused => Memory::Refused,
        Memory::Worn => { if worn { Memory::Worn } else { Memory::Refused } }
    }
}

/// A fault as a public call tells it.
pub fn told_fault(worn: bool, fault: Fault) -> Fault
    ensures answer { result ≡ told_fault worn fault }
    ensures same { is_memory result ≡ false → fault ≡ result }
    ensures cause { FaultHasCause worn result }
{
    match fault {
        Fault::Memory(memory) => Fault::Memory(told(worn, memory)),
        other => other,
    }
}
