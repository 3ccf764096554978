//! Commands, done on a page, with what their steps print.
ghost use Rattle.std.specs.Prelude.{IfOk};
ghost use Rattle.ng_script.specs.Acts.{act_of, entry_of};
ghost use Rattle.ng_inputs.specs.Acts.{IsSound};
ghost use Rattle.ng_page.specs.Ready.{IsReady};
ghost use Rattle.ng_run.specs.Doing.{IsStepOf};

use ng_base::fault::Memory;
use ng_page::page::Page;
use ng_performing::performing::{Done, perform};
use ng_printing::events::event_step;
use ng_printing::lines::header;
use ng_printing::reply::Lines;
use ng_printing::step::{aimless, idle, step};
use ng_script::Command;
use ng_words::words::Flags;
use std::alloc::Global;

/// Does a command, the one of this number, and tells what its step prints.
pub(crate) fn do_command(
    alloc: Global,
    page: &mut Page,
    flags: Flags,
    number: u64,
    command: &Command,
) -> Result<Lines, Memory>
    requires ready { IsReady page.old }
    requires sound { IsSound (act_of command.now.what) }
    ensures { IfOk result (λ l. IsStepOf flags.trace number (entry_of command.now) page.old l page.new) }
{
    let header = header(alloc, number, &command.shown)?;
    match perform(alloc, page, &command.what)? {
        Done::Aimless => Ok(aimless(header)?),
        Done::Idle => Ok(idle(header)?),
        Done::Outcome(outcome) => step(alloc, flags, header, page, &outcome),
        Done::Outcomes(outcomes) => event_step(alloc, flags, header, page, outcomes.as_slice()),
    }
}
