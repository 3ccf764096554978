//! The commands of a script.
ghost use Rattle.std.specs.Prelude.{IfOk};
ghost use Rattle.ng_base.specs.Meets.{Gives};
ghost use Rattle.ng_inputs.specs.Acts.{AreSound};
ghost use Rattle.ng_script.specs.Acts.{entries_of};
ghost use Rattle.ng_script.specs.Free.{is_free};
ghost use Rattle.ng_script.specs.Scripts.{script_of};

use ng_script::{Commands, ScriptFault, read};
use std::alloc::Global;

/// The commands of a script. Each probe changes nothing, and the arguments of each event are a list.
pub(crate) fn read_commands(alloc: Global, bytes: &[u8]) -> Result<Commands, ScriptFault>
    ensures commands { Gives is_free entries_of (script_of bytes.now) result }
    ensures sound { IfOk result (λ commands. AreSound (entries_of commands)) }
{
    read(alloc, bytes)
}
