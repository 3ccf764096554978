//! What is installed and registered on the root scope before the application's program runs.
ghost use Rattle.std.specs.Prelude.{◌≡◌, ◌<◌, ◌++◌, length, map, IfOk, OnOk, IsOk};
ghost use Rattle.ng_core.specs.Frames.{state_of, IsSound};
ghost use Rattle.ng_app.specs.Directives.{all_unnamed, all_programs};
ghost use Rattle.ng_app.specs.Templates.{all_named};
ghost use Rattle.ng_compose.specs.Kept.{templates_of};
ghost use Rattle.ng_compose.specs.DirectivesOf.{directives_of};
ghost use Rattle.ng_app.specs.Installing.{installs, declares, registers, installs_all, declares_all, registers_all};
ghost use Rattle.ng_parts.specs.ProgramsOf.{function_of, watch_of, listener_of};
ghost use Rattle.ng_app.specs.ProgramsOf.{partial_of, directive_of};

use crate::app::App;
use crate::items::{AppDirective, AppTemplate};
use ng_base::fault::{Fault, Memory};
use ng_base::name::{FunId, ScopeId};
use ng_base::value::Value;
use ng_base::view::View;
use ng_compose::Templates;
use ng_core::core_state::{Core, Function};
use ng_core::scope_calls::{listen, watch_declared};
use ng_parse::Program;
use ng_parts::programs::{Function as AppFunction, Listener as AppListener, Watch as AppWatch};

/// Registering asks for memory alone.
fn registered(end: Result<View, Fault>) -> Result<(), Memory>
    ensures { OnOk result (IsOk end) }
{
    match end {
        Ok(_) => Ok(()),
        Err(Fault::Memory(memory)) => Err(memory),
        Err(_) => Err(Memory::Refused),
    }
}

/// Installs a function on the root scope.
fn install(core: &mut Core, function: AppFunction) -> Result<(), Memory>
    requires sound { IsSound core.old }
    requires root { 0 < length core.old.scopes }
    ensures state { OnOk result (state_of core.new ≡ installs (function_of function) (state_of core.old)) }
    ensures sound { OnOk result (IsSound core.new) }
    ensures scopes { OnOk result (core.new.scopes ≡ core.old.scopes) }
    ensures depth { OnOk result (core.new.depth ≡ core.old.depth) }
{
    let count = core.funs.len();
    if count >= u32::MAX as usize {
        return Err(Memory::Worn);
    }
    let root = ScopeId(0);
    let AppFunction {
        name,
        params,
        program,
    } = function;
    let object = core.scopes.object(root);
    core.store
        .set(object, &name, Value::Fun(FunId(count as u32)))?;
    core.funs.push(Function::Declared(root, params, program))?;
    Ok(())
}

/// Declares a watch on the root scope.
fn declare(core: &mut Core, watch: AppWatch) -> Result<(), Memory>
    requires sound { IsSound core.old }
    requires root { 0 < length core.old.scopes }
    ensures state { OnOk result (state_of core.new ≡ declares (watch_of watch) (state_of core.old)) }
    ensures sound { OnOk result (IsSound core.new) }
    ensures scopes { OnOk result (length core.new.scopes ≡ length core.old.scopes) }
    ensures depth { OnOk result (core.new.depth ≡ core.old.depth) }
{
    let AppWatch {
        kind,
        watched,
        listener,
    } = watch;
    registered(watch_declared(core, ScopeId(0), kind, watched, listener))
}

/// Registers a listener on the root scope.
fn register(core: &mut Core, listener: AppListener) -> Result<(), Memory>
    requires sound { IsSound core.old }
    ensures state { OnOk result (state_of core.new ≡ registers (listener_of listener) (state_of core.old)) }
    ensures sound { OnOk result (IsSound core.new) }
    ensures scopes { OnOk result (length core.new.scopes ≡ length core.old.scopes) }
    ensures depth { OnOk result (core.new.depth ≡ core.old.depth) }
{
    let AppListener { name, program } = listener;
    registered(listen(core, ScopeId(0), &name, program))
}

fn install_all(core: &mut Core, functions: Vec<AppFunction>) -> Result<(), Memory>
    requires sound { IsSound core.old }
    requires root { 0 < length core.old.scopes }
    ensures state { OnOk result (state_of core.new ≡ installs_all (map function_of functions.items) (state_of core.old)) }
    ensures sound { OnOk result (IsSound core.new) }
    ensures scopes { OnOk result (length core.new.scopes ≡ length core.old.scopes) }
    ensures depth { OnOk result (core.new.depth ≡ core.old.depth) }
{
    for function in functions {
        install(core, function)?;
    }
    Ok(())
}

fn declare_all(core: &mut Core, watches: Vec<AppWatch>) -> Result<(), Memory>
    requires sound { IsSound core.old }
    requires root { 0 < length core.old.scopes }
    ensures state { OnOk result (state_of core.new ≡ declares_all (map watch_of watches.items) (state_of core.old)) }
    ensures sound { OnOk result (IsSound core.new) }
    ensures scopes { OnOk result (length core.new.scopes ≡ length core.old.scopes) }
    ensures depth { OnOk result (core.new.depth ≡ core.old.depth) }
{
    for watch in watches {
        declare(core, watch)?;
    }
    Ok(())
}

fn register_all(core: &mut Core, listeners: Vec<AppListener>) -> Result<(), Memory>
    requires sound { IsSound core.old }
    ensures state { OnOk result (state_of core.new ≡ registers_all (map listener_of listeners.items) (state_of core.old)) }
    ensures sound { OnOk result (IsSound core.new) }
    ensures scopes { OnOk result (length core.new.scopes ≡ length core.old.scopes) }
    ensures depth { OnOk result (core.new.depth ≡ core.old.depth) }
{
    for listener in listeners {
        register(core, listener)?;
    }
    Ok(())
}

/// Templates are kept by their names.
fn keep_all(templates: &mut Templates, all: Vec<AppTemplate>) -> Result<(), Memory>
    ensures templates { OnOk result (templates_of templates.new ≡ templates_of templates.old ++ all_named (map partial_of all.items)) }
    ensures directives { OnOk result (directives_of templates.new ≡ directives_of templates.old) }
{
    for one in all {
        let AppTemplate { name, template } = one;
        templates.add(Some(name), template)?;
    }
    Ok(())
}

/// The templates of directives are kept, and their programs.
fn keep_directives(templates: &mut Templates, all: Vec<AppDirective>) -> Result<(), Memory>
    ensures templates { OnOk result (templates_of templates.new ≡ templates_of templates.old ++ all_unnamed (map directive_of all.items)) }
    ensures programs { OnOk result (directives_of templates.new ≡ directives_of templates.old ++ all_programs (map directive_of all.items)) }
{
    for one in all {
        let AppDirective { template, programs } = one;
        if let Some(template) = template {
            templates.add(None, template)?;
        }
        templates.add_directive(programs)?;
    }
    Ok(())
}

impl App {
    ghost use Rattle.ng_app.specs.AppOf.{facts};
    ghost use Rattle.ng_app.specs.Installing.{installed};
    ghost use Rattle.ng_parse.specs.ProgramOf.{program as trees_of};

    /// Keeps the templates of directives and then those by names after those that are there, and the programs of directives;
    /// installs the functions, declares the watches and registers the listeners. Gives the core, and the program that runs next.
    pub fn begin(self, templates: &mut Templates) -> Result<(Core, Program), Memory>
        ensures state { IfOk result (λ r. state_of r.0 ≡ installed (facts self)) }
        ensures templates { OnOk result (templates_of templates.new ≡ templates_of templates.old ++ (all_unnamed (facts self).directives ++ all_named (facts self).templates)) }
        ensures directives { OnOk result (directives_of templates.new ≡ directives_of templates.old ++ all_programs (facts self).directives) }
        ensures run { IfOk result (λ r. trees_of r.1 ≡ (facts self).run) }
        ensures sound { IfOk result (λ r. IsSound r.0) }
        ensures root { IfOk result (λ r. length r.0.scopes ≡ 1) }
        ensures depth { IfOk result (λ r. r.0.depth ≡ 0) }
    {
        let App {
            core,
            templates: all,
            directives,
            functions,
            run,
            watches,
            listeners,
            ..
        } = self;
        let mut core = core;
        keep_directives(templates, directives)?;
        keep_all(templates, all)?;
        install_all(&mut core, functions)?;
        declare_all(&mut core, watches)?;
        register_all(&mut core, listeners)?;
        Ok((core, run))
    }
}
