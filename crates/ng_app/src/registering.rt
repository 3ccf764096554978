//! The directives of an application, registered: what they ask of their elements, their templates, and what they do (guide: Directives,
//! "Creating Directives").
ghost use Rattle.std.specs.Prelude.{◌≡◌, ◌++◌, [], map, option_map, IfOk, OnOk, IsOk};
ghost use Rattle.ng_base.specs.Meets.{Gives, Meets};
ghost use Rattle.ng_parts.specs.ProgramsOf.{programs_of, function_of, watch_of, listener_of};
ghost use Rattle.ng_parts.specs.TemplateOf.{template_of};
ghost use Rattle.ng_app.specs.Directives.{stands, judged_by, judged, definitions_in, definitions, rest_in, directive_template, directive_templates, functions_at, watches_at, listeners_at, programs_read, directives_from};
ghost use Rattle.ng_entries.specs.EntryOf.{entry_of};
ghost use Rattle.ng_app.specs.RestOf.{rest_of};
ghost use Rattle.ng_entries.specs.Free.{is_app_want};
ghost use Rattle.ng_app.specs.ProgramsOf.{directive_of};

use crate::items::AppDirective;
use crate::programs::{function_read, listener_read, program_at, watch_read};
use crate::templates::text_template;
use ng_base::fault::Memory;
use ng_base::txt::Txt;
use ng_collect::definition::{is_bound, is_directive_name, is_restrict};
use ng_collect::{DefFault, DirectiveDef, Registry};
use ng_entries::directives::DirectiveEntry;
use ng_entries::entries::{FunctionEntry, ListenerEntry, WatchEntry};
use ng_entries::fault::{AppFault, AppKind, Member};
use ng_entries::members::fault_at;
use ng_parts::Tpl;
use ng_parts::programs::{
    Function as AppFunction, Listener as AppListener, Programs, Watch as AppWatch,
};
use std::alloc::Global;

/// What a definition is judged by.
#[derive(Clone, Copy)]
pub enum Point {
    Name,
    Restrict,
    Binding,
}

/// Whether a definition stands on a point.
fn stands(alloc: Global, point: Point, def: &DirectiveDef) -> Result<bool, Memory>
    ensures { IfOk result (λ b. b ≡ stands point def.now) }
{
    match point {
        Point::Name => Ok(is_directive_name(&def.name)),
        Point::Restrict => Ok(is_restrict(&def.restrict)),
        Point::Binding => is_bound(alloc, &def.scope),
    }
}

/// The first entry that does not is refused.
fn judge_by(
    alloc: Global,
    point: Point,
    kind: AppKind,
    entries: &[DirectiveEntry],
) -> Result<(), AppFault>
    ensures { Meets is_app_want (judged_by point kind (map entry_of entries.now)) result }
{
    let mut item = 0;
    for entry in entries {
        if !stands(alloc, point, &entry.def)? {
            return Err(fault_at(Member::Directives, item, kind));
        }
        item += 1;
    }
    Ok(())
}

/// Whether each definition stands: BadName of all entries first, then BadRestrict of all, then BadBinding of all.
fn judge(alloc: Global, entries: &[DirectiveEntry]) -> Result<(), AppFault>
    ensures { Meets is_app_want (judged (map entry_of entries.now)) result }
{
    judge_by(alloc, Point::Name, AppKind::BadName, entries)?;
    judge_by(alloc, Point::Restrict, AppKind::BadRestrict, entries)?;
    judge_by(alloc, Point::Binding, AppKind::BadBinding, entries)
}

/// A definition that was judged is added, or memory is refused.
fn added(answer: Result<(), DefFault>) -> Result<(), Memory>
    ensures { OnOk result (IsOk answer) }
{
    match answer {
        Ok(()) => Ok(()),
        Err(DefFault::Memory(memory)) => Err(memory),
        Err(_) => Err(Memory::Refused),
    }
}

/// The programs of a directive as they are written.
#[derive(Drop)]
pub struct Rest {
    functions: Vec<FunctionEntry>,
    watches: Vec<WatchEntry>,
    listeners: Vec<ListenerEntry>,
    link: Txt,
}

/// The definitions are added, and the programs are left.
fn add_all(
    alloc: Global,
    registry: &mut Registry,
    entries: Vec<DirectiveEntry>,
) -> Result<Vec<Rest>, Memory>
    ensures rests { IfOk result (λ v. map rest_of v.items ≡ map rest_in (map entry_of entries.items)) }
    ensures added { OnOk result (registry.new ≡ registry.old ++ definitions_in (map entry_of entries.items)) }
{
    let mut rests = Vec::new(alloc);
    for entry in entries {
        let DirectiveEntry {
            def,
            functions,
            watches,
            listeners,
            link,
        } = entry;
        added(registry.add(def))?;
        rests.push(Rest {
            functions,
            watches,
            listeners,
            link,
        })?;
    }
    Ok(rests)
}

/// The registry of the directives, unless one is refused, and their programs as they are written.
pub(crate) fn registered(
    alloc: Global,
    entries: Vec<DirectiveEntry>,
) -> Result<(Registry, Vec<Rest>), AppFault>
    ensures definitions { Gives is_app_want (λ r. r.0) (definitions (map entry_of entries.items)) result }
    ensures rests { IfOk result (λ r. map rest_of r.1.items ≡ map rest_in (map entry_of entries.items)) }
{
    judge(alloc, entries.as_slice())?;
    let mut registry = Registry::new(alloc)?;
    let rests = add_all(alloc, &mut registry, entries)?;
    Ok((registry, rests))
}

/// The template of a directive, in which slots may stand where it transcludes.
fn directive_template(
    alloc: Global,
    registry: &Registry,
    item: usize,
    def: &DirectiveDef,
) -> Result<Option<Tpl>, AppFault>
    ensures { Gives is_app_want (option_map template_of) (directive_template registry.now item def.now) result }
{
    match &def.template {
        None => Ok(None),
        Some(text) => {
            let slots = def.transclude;
            let template = text_template(alloc, Member::Directives, item, text, registry, slots)?;
            Ok(Some(template))
        }
    }
}

/// The templates of the directives, in order.
pub(crate) fn directive_templates(
    alloc: Global,
    registry: &Registry,
) -> Result<Vec<Option<Tpl>>, AppFault>
    ensures { Gives is_app_want (λ v. map (option_map template_of) v.items) (directive_templates registry.now) result }
{
    let mut templates = Vec::new(alloc);
    for def in registry.definitions() {
        let template = directive_template(alloc, registry, templates.len(), def)?;
        templates.push(template)?;
    }
    Ok(templates)
}

/// The functions of a directive.
fn functions_at(
    alloc: Global,
    item: usize,
    entries: Vec<FunctionEntry>,
) -> Result<Vec<AppFunction>, AppFault>
    ensures { Gives is_app_want (λ v. map function_of v.items) (functions_at item [] entries.items) result }
{
    let mut functions = Vec::new(alloc);
    for entry in entries {
        let function = function_read(alloc, Member::Directives, item, entry)?;
        functions.push(function)?;
    }
    Ok(functions)
}

/// Its watches.
fn watches_at(
    alloc: Global,
    item: usize,
    entries: Vec<WatchEntry>,
) -> Result<Vec<AppWatch>, AppFault>
    ensures { Gives is_app_want (λ v. map watch_of v.items) (watches_at item [] entries.items) result }
{
    let mut watches = Vec::new(alloc);
    for entry in entries {
        let watch = watch_read(alloc, Member::Directives, item, entry)?;
        watches.push(watch)?;
    }
    Ok(watches)
}

/// Its listeners.
fn listeners_at(
    alloc: Global,
    item: usize,
    entries: Vec<ListenerEntry>,
) -> Result<Vec<AppListener>, AppFault>
    ensures { Gives is_app_want (λ v. map listener_of v.items) (listeners_at item [] entries.items) result }
{
    let mut listeners = Vec::new(alloc);
    for entry in entries {
        let listener = listener_read(alloc, Member::Directives, item, entry)?;
        listeners.push(listener)?;
    }
    Ok(listeners)
}

/// The programs of a directive.
fn programs_read(alloc: Global, item: usize, rest: Rest) -> Result<Programs, AppFault>
    ensures { Gives is_app_want programs_of (programs_read item (rest_of rest)) result }
{
    let Rest {
        functions,
        watches,
        listeners,
        link,
    } = rest;
    let functions = functions_at(alloc, item, functions)?;
    let watches = watches_at(alloc, item, watches)?;
    let listeners = listeners_at(alloc, item, listeners)?;
    let link = program_at(alloc, Member::Directives, item, link)?;
    Ok(Programs {
        functions,
        watches,
        listeners,
        link,
    })
}

/// The directives: their templates with their programs.
pub(crate) fn directives_read(
    alloc: Global,
    templates: Vec<Option<Tpl>>,
    rests: Vec<Rest>,
) -> Result<Vec<AppDirective>, AppFault>
    ensures { Gives is_app_want (λ v. map directive_of v.items) (directives_from [] (map (option_map template_of) templates.items) (map rest_of rests.items)) result }
{
    let mut left = templates.into_iter();
    let mut directives = Vec::new(alloc);
    for rest in rests {
        let Some(template) = left.next() else {
            return Ok(directives);
        };
        let programs = programs_read(alloc, directives.len(), rest)?;
        directives.push(AppDirective { template, programs })?;
    }
    Ok(directives)
}
