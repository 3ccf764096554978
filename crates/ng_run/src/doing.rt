//! The commands of a script, done over a sink.
ghost use Rattle.std.specs.Prelude.{◌≡◌, ◌&&◌};
ghost use Rattle.ng_inputs.specs.Acts.{AreSound, IsSound};
ghost use Rattle.ng_script.specs.Acts.{act_of, entry_of, entries_of};
ghost use Rattle.ng_run.specs.Doing.{DidOne, DidAll, FaultsBy};
ghost use Rattle.ng_page.specs.Ready.{IsReady};
ghost use Rattle.ng_run.specs.ReplyOf.{LeavesPage};
ghost use Rattle.ng_printing.specs.Left.{Left};

use crate::commands::do_command;
use ng_base::outside::{Sink, put_all};
use ng_page::page::Page;
use ng_script::{Command, Commands};
use ng_words::words::Flags;
use std::alloc::Global;

/// Why a run ends before its last command: a put failed, or memory was refused.
#[derive(Clone, Copy, Debug, PartialEq, Eq)]
pub(crate) enum Halt {
    Put,
    Memory,
}

/// Does a command, the one of this number, and puts its step. Tells whether all went well in it.
fn do_one<K: Sink>(
    alloc: Global,
    sink: &mut K,
    page: &mut Page,
    flags: Flags,
    number: u64,
    command: &Command,
) -> Result<bool, Halt>
    requires ready { IsReady page.old }
    requires sound { IsSound (act_of command.now.what) }
    ensures did { DidOne K.taken K.faults sink.old sink.new flags.trace number (entry_of command.now) page.old page.new result }
    ensures faults { FaultsBy (K.faults sink.old) (K.faults sink.new) result }
{
    let lines = match do_command(alloc, page, flags, number, command) {
        Ok(lines) => lines,
        Err(_) => return Err(Halt::Memory),
    };
    match put_all(sink, lines.piece.as_slice()) {
        Ok(()) => Ok(lines.well),
        Err(_) => Err(Halt::Put),
    }
}

/// Whether both went well.
fn both(first: bool, second: bool) -> bool
    ensures { result ≡ (first && second) }
{
    first && second
}

/// Does the commands of a script one after another, and puts the step of each. Tells whether all went well in them.
pub(crate) fn do_all<K: Sink>(
    alloc: Global,
    sink: &mut K,
    page: &mut Page,
    flags: Flags,
    commands: &Commands,
) -> Result<bool, Halt>
    requires ready { IsReady page.old }
    requires sound { AreSound (entries_of commands.now) }
    ensures did { (left : Left) → LeavesPage page.old left → DidAll K.taken K.faults sink.old sink.new flags.trace (entries_of commands.now) left page.new result }
    ensures faults { FaultsBy (K.faults sink.old) (K.faults sink.new) result }
{
    let list = commands.as_slice();
    let mut number = 0;
    let mut well = true;
    for command in list {
        number += 1;
        match do_one(alloc, sink, page, flags, number, command) {
            Ok(one) => well = both(well, one),
            Err(halt) => return Err(halt),
        }
    }
    Ok(well)
}
