//! The programs of an application: what its entries spell.
ghost use Rattle.std.specs.Prelude.{◌≡◌, [], map, true, IfOk};
ghost use Rattle.ng_base.specs.Meets.{Gives};
ghost use Rattle.ng_parse.specs.ProgramOf.{program as trees_of};
ghost use Rattle.ng_evaluation.specs.Purity.{all_filters_known};
ghost use Rattle.ng_entries.specs.Free.{is_app_want};
ghost use Rattle.ng_parts.specs.ProgramsOf.{function_of, watch_of, listener_of};
ghost use Rattle.ng_app.specs.Programs.{program_at, function_read, watch_read, listener_read, functions_read, watches_read, listeners_read};

use ng_base::fault::Fault;
use ng_base::txt::Txt;
use ng_base::value::Value;
use ng_base::view::View;
use ng_core::reading::program_given;
use ng_entries::entries::{FunctionEntry, ListenerEntry, WatchEntry};
use ng_entries::fault::{AppFault, AppKind, Member};
use ng_entries::members::fault_at;
use ng_parse::Program;
use ng_parts::programs::{Function as AppFunction, Listener as AppListener, Watch as AppWatch};
use ng_purity::is_pure;
use std::alloc::Global;

/// The program that the text of an entry spells.
pub(crate) fn program_at(
    alloc: Global,
    member: Member,
    item: usize,
    text: Txt,
) -> Result<Program, AppFault>
    ensures program { Gives is_app_want trees_of (program_at member item text) result }
    ensures known { IfOk result (λ p. all_filters_known (trees_of p) ≡ true) }
{
    match program_given(alloc, &View::of_value(Value::Text(text))) {
        Ok(program) => Ok(program),
        Err(Fault::Memory(memory)) => Err(AppFault::of_memory(memory)),
        Err(_) => Err(fault_at(member, item, AppKind::Expression)),
    }
}

/// A function of a member's entry.
pub(crate) fn function_read(
    alloc: Global,
    member: Member,
    item: usize,
    entry: FunctionEntry,
) -> Result<AppFunction, AppFault>
    ensures { Gives is_app_want function_of (function_read member item entry) result }
{
    let FunctionEntry { name, params, body } = entry;
    let program = program_at(alloc, member, item, body)?;
    Ok(AppFunction {
        name,
        params,
        program,
    })
}

/// A watch of a member's entry.
pub(crate) fn watch_read(
    alloc: Global,
    member: Member,
    item: usize,
    entry: WatchEntry,
) -> Result<AppWatch, AppFault>
    ensures { Gives is_app_want watch_of (watch_read member item entry) result }
{
    let WatchEntry {
        kind,
        watched,
        body,
    } = entry;
    let watched = program_at(alloc, member, item, watched)?;
    let listener = program_at(alloc, member, item, body)?;
    if is_pure(&watched) {
        Ok(AppWatch {
            kind,
            watched,
            listener,
        })
    } else {
        Err(fault_at(member, item, AppKind::Impure))
    }
}

/// A listener of a member's entry.
pub(crate) fn listener_read(
    alloc: Global,
    member: Member,
    item: usize,
    entry: ListenerEntry,
) -> Result<AppListener, AppFault>
    ensures { Gives is_app_want listener_of (listener_read member item entry) result }
{
    let ListenerEntry { name, body } = entry;
    let program = program_at(alloc, member, item, body)?;
    Ok(AppListener { name, program })
}

/// The functions of entries.
pub(crate) fn functions_read(
    alloc: Global,
    entries: Vec<FunctionEntry>,
) -> Result<Vec<AppFunction>, AppFault>
    ensures { Gives is_app_want (λ v. map function_of v.items) (functions_read [] entries.items) result }
{
    let mut functions = Vec::new(alloc);
    for entry in entries {
        let function = function_read(alloc, Member::Functions, functions.len(), entry)?;
        functions.push(function)?;
    }
    Ok(functions)
}

/// The watches of entries.
pub(crate) fn watches_read(
    alloc: Global,
    entries: Vec<WatchEntry>,
) -> Result<Vec<AppWatch>, AppFault>
    ensures { Gives is_app_want (λ v. map watch_of v.items) (watches_read [] entries.items) result }
{
    let mut watches = Vec::new(alloc);
    for entry in entries {
        let watch = watch_read(alloc, Member::Watch, watches.len(), entry)?;
        watches.push(watch)?;
    }
    Ok(watches)
}

/// The listeners of entries.
pub(crate) fn listeners_read(
    alloc: Global,
    entries: Vec<ListenerEntry>,
) -> Result<Vec<AppListener>, AppFault>
    ensures { Gives is_app_want (λ v. map listener_of v.items) (listeners_read [] entries.items) result }
{
    let mut listeners = Vec::new(alloc);
    for entry in entries {
        let listener = listener_read(alloc, Member::On, listeners.len(), entry)?;
        listeners.push(listener)?;
    }
    Ok(listeners)
}
