//! What a directive does on its scope when its element is linked (guide: Directives, "Creating Directives").
ghost use Rattle.std.specs.Prelude.{◌≡◌, ◌<◌, ◌≤◌, [], ◌∷◌, length, map, slice_get, IfOk, OnOk, IsOk};
ghost use Rattle.ng_core.specs.Frames as cores;
ghost use Rattle.ng_core.specs.Frames.{IsSound};
ghost use Rattle.ng_steps.specs.Attending.{installs, installs_all, functions_in, installed_on, declares_all, registers_all, registered_on, attended};
ghost use Rattle.ng_steps.specs.AttendingOf.{IsLeaving};
ghost use Rattle.ng_changes.specs.Changes.{changed, has_additions};
ghost use Rattle.ng_changes.specs.Whole.{IsWhole};
ghost use Rattle.ng_link.specs.Calls.{with_core};
ghost use Rattle.ng_link.specs.State.{state_of, templates_of};
ghost use Rattle.ng_parts.specs.ProgramsOf.{function_of as function_in, watch_of, listener_of};

use crate::binding::tell_name;
use crate::functions::new_function;
use crate::stepping::start;
use ng_base::fault::{Fault, Memory};
use ng_base::name::ScopeId;
use ng_base::value::Value;
use ng_base::view::View;
use ng_changes::changing::apply_changes;
use ng_core::core_state::{Core, Function as CoreFunction};
use ng_core::scope_calls::{listen, watch_declared};
use ng_link::works::Works;
use ng_parse::Program;
use ng_parts::programs::{Function, Listener, Watch};
use std::alloc::Global;

/// Registering asks for memory alone.
fn registered(end: Result<View, Fault>) -> Result<(), Memory>
    ensures { OnOk result (IsOk end) }
{
    match end {
        Ok(_) => Ok(()),
        Err(Fault::Memory(memory)) => Err(memory),
        Err(_) => Err(Memory::Refused),
    }
}

/// A function is installed on a scope.
fn install_one(core: &mut Core, scope: ScopeId, function: Function) -> Result<(), Memory>
    requires sound { IsSound core.old }
    requires scope { scope.0 < length core.old.scopes }
    ensures run { OnOk result (cores.state_of core.new ≡ installs scope.0 (function_in function) (cores.state_of core.old)) }
    ensures sound { OnOk result (IsSound core.new) }
    ensures depth { core.new.depth ≡ core.old.depth }
    ensures count { length core.new.scopes ≡ length core.old.scopes }
    ensures grown { length core.old.store ≤ length core.new.store }
{
    let Function {
        name,
        params,
        program,
    } = function;
    let id = new_function(core, CoreFunction::Declared(scope, params, program))?;
    tell_name(core, scope, &name, Value::Fun(id))
}

/// Functions are installed on a scope, in order.
fn install_all(core: &mut Core, scope: ScopeId, functions: Vec<Function>) -> Result<(), Memory>
    requires sound { IsSound core.old }
    requires scope { scope.0 < length core.old.scopes }
    ensures run { OnOk result (cores.state_of core.new ≡ installs_all scope.0 (map function_in functions.items) (cores.state_of core.old)) }
    ensures sound { OnOk result (IsSound core.new) }
    ensures depth { core.new.depth ≡ core.old.depth }
    ensures count { length core.new.scopes ≡ length core.old.scopes }
    ensures grown { length core.old.store ≤ length core.new.store }
{
    for function in functions {
        install_one(core, scope, function)?;
    }
    Ok(())
}

/// The functions of a directive, if it is there.
fn functions_of(works: &Works, alloc: Global, directive: u32) -> Result<Vec<Function>, Memory>
    ensures { IfOk result (λ v. map function_in v.items ≡ functions_in (slice_get (state_of works.now).directives directive)) }
{
    match works.directive(directive) {
        None => Ok(Vec::new(alloc)),
        Some(programs) => programs.copied_functions(alloc),
    }
}

/// The functions of a directive are installed on a scope.
pub(crate) fn install(
    works: &mut Works,
    alloc: Global,
    directive: u32,
    scope: ScopeId,
) -> Result<(), Memory>
    requires whole { IsWhole works.old }
    requires scope { scope.0 < length works.old.core.scopes }
    ensures state { OnOk result (state_of works.new ≡ installed_on directive scope.0 (state_of works.old)) }
    ensures count { OnOk result (length works.new.core.scopes ≡ length works.old.core.scopes) }
    ensures grown { OnOk result (length works.old.core.store ≤ length works.new.core.store) }
    ensures whole { OnOk result (IsWhole works.new) }
    ensures templates { templates_of works.new ≡ templates_of works.old }
{
    let functions = functions_of(works, alloc, directive)?;
    install_all(&mut works.core, scope, functions)
}

/// A watch is declared on a scope.
fn declare(core: &mut Core, scope: ScopeId, watch: Watch) -> Result<(), Memory>
    requires sound { IsSound core.old }
    requires scope { scope.0 < length core.old.scopes }
    ensures run { OnOk result (cores.state_of core.new ≡ declares_all scope.0 (watch_of watch ∷ []) (cores.state_of core.old)) }
    ensures sound { OnOk result (IsSound core.new) }
    ensures depth { core.new.depth ≡ core.old.depth }
    ensures count { length core.new.scopes ≡ length core.old.scopes }
    ensures grown { length core.old.store ≤ length core.new.store }
{
    let Watch {
        kind,
        watched,
        listener,
    } = watch;
    registered(watch_declared(core, scope, kind, watched, listener))
}

/// Watches are declared on a scope, in order.
fn declare_all(core: &mut Core, scope: ScopeId, watches: Vec<Watch>) -> Result<(), Memory>
    requires sound { IsSound core.old }
    requires scope { scope.0 < length core.old.scopes }
    ensures run { OnOk result (cores.state_of core.new ≡ declares_all scope.0 (map watch_of watches.items) (cores.state_of core.old)) }
    ensures sound { OnOk result (IsSound core.new) }
    ensures depth { core.new.depth ≡ core.old.depth }
    ensures count { length core.new.scopes ≡ length core.old.scopes }
    ensures grown { length core.old.store ≤ length core.new.store }
{
    for watch in watches {
        declare(core, scope, watch)?;
    }
    Ok(())
}

/// A listener is registered on a scope.
fn hear(core: &mut Core, scope: ScopeId, listener: Listener) -> Result<(), Memory>
    requires sound { IsSound core.old }
    ensures run { OnOk result (cores.state_of core.new ≡ registers_all scope.0 (listener_of listener ∷ []) (cores.state_of core.old)) }
    ensures sound { OnOk result (IsSound core.new) }
    ensures depth { core.new.depth ≡ core.old.depth }
    ensures count { length core.new.scopes ≡ length core.old.scopes }
    ensures grown { length core.old.store ≤ length core.new.store }
{
    let Listener { name, program } = listener;
    registered(listen(core, scope, &name, program))
}

/// Listeners are registered on a scope, in order.
fn hear_all(core: &mut Core, scope: ScopeId, listeners: Vec<Listener>) -> Result<(), Memory>
    requires sound { IsSound core.old }
    ensures run { OnOk result (cores.state_of core.new ≡ registers_all scope.0 (map listener_of listeners.items) (cores.state_of core.old)) }
    ensures sound { OnOk result (IsSound core.new) }
    ensures depth { core.new.depth ≡ core.old.depth }
    ensures count { length core.new.scopes ≡ length core.old.scopes }
    ensures grown { length core.old.store ≤ length core.new.store }
{
    for listener in listeners {
        hear(core, scope, listener)?;
    }
    Ok(())
}

/// Watches and listeners come on a scope that lives.
fn register_all(
    core: &mut Core,
    scope: ScopeId,
    watches: Vec<Watch>,
    listeners: Vec<Listener>,
) -> Result<(), Memory>
    requires sound { IsSound core.old }
    requires scope { scope.0 < length core.old.scopes }
    ensures run { OnOk result (cores.state_of core.new ≡ registered_on scope.0 (map watch_of watches.items) (map listener_of listeners.items) (cores.state_of core.old)) }
    ensures sound { OnOk result (IsSound core.new) }
    ensures depth { core.new.depth ≡ core.old.depth }
    ensures count { length core.new.scopes ≡ length core.old.scopes }
    ensures grown { length core.old.store ≤ length core.new.store }
{
    if !core.scopes.is_live(scope) {
        return Ok(());
    }
    declare_all(core, scope, watches)?;
    hear_all(core, scope, listeners)
}

/// What a directive leaves when its element is linked: watches, listeners, and the program that links it.
#[derive(Drop)]
struct Leaving {
    watches: Vec<Watch>,
    listeners: Vec<Listener>,
    link: Program,
}

/// What a directive leaves, if it is there.
fn left_by(works: &Works, alloc: Global, directive: u32) -> Result<Option<Leaving>, Memory>
    ensures { IfOk result (λ o. IsLeaving o (slice_get (state_of works.now).directives directive)) }
{
    match works.directive(directive) {
        None => Ok(None),
        Some(programs) => Ok(Some(Leaving {
            watches: programs.copied_watches(alloc)?,
            listeners: programs.copied_listeners(alloc)?,
            link: programs.link.copied(alloc)?,
        })),
    }
}

/// Watches and listeners come on a scope that lives, and what that leaves for the watchers is done.
fn attend_first(
    works: &mut Works,
    alloc: Global,
    scope: ScopeId,
    watches: Vec<Watch>,
    listeners: Vec<Listener>,
) -> Result<bool, Memory>
    requires whole { IsWhole works.old }
    requires scope { scope.0 < length works.old.core.scopes }
    ensures state { OnOk result (state_of works.new ≡ changed (with_core (registered_on scope.0 (map watch_of watches.items) (map listener_of listeners.items) (state_of works.old).core) (state_of works.old))) }
    ensures added { IfOk result (λ a. a ≡ has_additions (registered_on scope.0 (map watch_of watches.items) (map listener_of listeners.items) (state_of works.old).core).changes) }
    ensures count { OnOk result (length works.new.core.scopes ≡ length works.old.core.scopes) }
    ensures grown { OnOk result (length works.old.core.store ≤ length works.new.core.store) }
    ensures whole { OnOk result (IsWhole works.new) }
    ensures templates { templates_of works.new ≡ templates_of works.old }
{
    register_all(&mut works.core, scope, watches, listeners)?;
    apply_changes(works, alloc)
}

/// The watches and listeners of a directive come on a scope that lives, and then its program runs there: its fault is handed over, and what it left
/// for the watchers is done. The answer is whether a watcher was added.
pub(crate) fn attend(
    works: &mut Works,
    alloc: Global,
    directive: u32,
    scope: ScopeId,
) -> Result<bool, Memory>
    requires whole { IsWhole works.old }
    requires scope { scope.0 < length works.old.core.scopes }
    ensures state { OnOk result (state_of works.new ≡ (attended directive scope.0 (state_of works.old)).0) }
    ensures added { IfOk result (λ a. a ≡ (attended directive scope.0 (state_of works.old)).1) }
    ensures count { OnOk result (length works.new.core.scopes ≡ length works.old.core.scopes) }
    ensures grown { OnOk result (length works.old.core.store ≤ length works.new.core.store) }
    ensures whole { OnOk result (IsWhole works.new) }
    ensures templates { templates_of works.new ≡ templates_of works.old }
{
    let found = left_by(works, alloc, directive)?;
    match found {
        None => Ok(false),
        Some(left) => {
            let Leaving {
                watches,
                listeners,
                link,
            } = left;
            let added = attend_first(works, alloc, scope, watches, listeners)?;
            let more = start(works, alloc, scope, &link)?;
            Ok(added || more)
        }
    }
}
