//! The entries of an application's members, as they are written.
ghost use Rattle.std.specs.Prelude.{◌≡◌, [], Some, None, option_map, IfOk};
ghost use Rattle.std.specs.Str.{chars};
ghost use Rattle.serde_json.specs.View.{view, members_view, items_view};
ghost use Rattle.ng_base.specs.Meets.{Gives};
ghost use Rattle.ng_entries.specs.DirectiveEntries.{accepted, functions_in, watches_in, listeners_in};
ghost use Rattle.ng_entries.specs.Entries.{is_function_name, is_watch_name, is_listener_name, is_directive_member, is_name_of, has_form, formed, kind_named, kind_of, template_entry, function_entry, watch_entry, listener_entry, templates_after, functions_after, watches_after, listeners_after, template_entries, function_entries, watch_entries, listener_entries, run_entry};
ghost use Rattle.ng_entries.specs.Free.{is_app_want};

use crate::fault::{AppFault, AppKind, Member};
use crate::members::{fault, fault_at, member, text_in, text_of};
use crate::parameters::params_of;
use ng_base::lists::Names;
use ng_base::txt::Txt;
use ng_language::snapshots::SnapKind;
use serde_json::{Map, Value as Json};
use std::alloc::{AllocError, Global};

/// What an entry is.
#[derive(Clone, Copy, Debug, PartialEq, Eq)]
pub enum Form {
    Function,
    Watch,
    Listener,
    Directive,
}

/// A template: its name and its text.
#[derive(Drop)]
pub struct TemplateEntry {
    pub name: Txt,
    pub text: Txt,
}

/// A function: its name, its parameters, the text of its program.
#[derive(Drop)]
pub struct FunctionEntry {
    pub name: Txt,
    pub params: Names,
    pub body: Txt,
}

/// A watch: what it compares, and the texts of what is watched and of the program that runs.
#[derive(Drop)]
pub struct WatchEntry {
    pub kind: SnapKind,
    pub watched: Txt,
    pub body: Txt,
}

/// A listener: the event's name, and the text of the program that runs.
#[derive(Drop)]
pub struct ListenerEntry {
    pub name: Txt,
    pub body: Txt,
}

fn is_function_name(name: &str) -> bool
    ensures { result ≡ is_function_name name.now }
{
    match name {
        "params" => true,
        "do" => true,
        _ => false,
    }
}

fn is_watch_name(name: &str) -> bool
    ensures { result ≡ is_watch_name name.now }
{
    match name {
        "expr" => true,
        "kind" => true,
        "do" => true,
        _ => false,
    }
}

fn is_listener_name(name: &str) -> bool
    ensures { result ≡ is_listener_name name.now }
{
    match name {
        "name" => true,
        "do" => true,
        _ => false,
    }
}

fn is_directive_member(name: &str) -> bool
    ensures { result ≡ is_directive_member name.now }
{
    match name {
        "name" => true,
        "restrict" => true,
        "priority" => true,
        "terminal" => true,
        "scope" => true,
        "template" => true,
        "transclude" => true,
        "functions" => true,
        "watch" => true,
        "on" => true,
        "link" => true,
        _ => false,
    }
}

/// Whether a form has a name.
fn is_name_of(form: Form, name: &str) -> bool
    ensures { result ≡ is_name_of form name.now }
{
    match form {
        Form::Function => is_function_name(name),
        Form::Watch => is_watch_name(name),
        Form::Listener => is_listener_name(name),
        Form::Directive => is_directive_member(name),
    }
}

/// Whether an entry has no names but those of its form.
fn has_form(form: Form, members: &Map<String, Json>) -> bool
    ensures { result ≡ has_form form (members_view members.now.entries) }
{
    for (name, _) in members {
        if !is_name_of(form, name.as_str()) {
            return false;
        }
    }
    true
}

/// The members of an entry of a form.
pub(crate) fn formed(form: Form, value: &Json) -> Option<&Map<String, Json>>
    ensures { option_map (λ m. members_view m.now.entries) result ≡ formed form (view value.now) }
{
    match value {
        Json::Object(members) => {
            if has_form(form, members) {
                Some(members)
            } else {
                None
            }
        }
        _ => None,
    }
}

/// What a watch of this kind compares.
fn kind_named(name: &str) -> Option<SnapKind>
    ensures { result ≡ kind_named name.now }
{
    match name {
        "reference" => Some(SnapKind::Reference),
        "collection" => Some(SnapKind::Collection),
        "value" => Some(SnapKind::Deep),
        _ => None,
    }
}

/// What a watch compares, where its kind may be missing.
fn kind_of(value: Option<&Json>) -> Option<SnapKind>
    ensures { result ≡ kind_of (option_map (λ v. view v.now) value.entry) }
{
    match value {
        None => Some(SnapKind::Reference),
        Some(Json::String(name)) => kind_named(name.as_str()),
        Some(_) => None,
    }
}

/// A template under its name.
fn template_entry(
    alloc: Global,
    name: &str,
    value: &Json,
) -> Result<Option<TemplateEntry>, AllocError>
    ensures { IfOk result (λ t. t ≡ template_entry (chars name.now) (view value.now)) }
{
    let Some(text) = text_of(alloc, value)? else {
        return Ok(None);
    };
    let name = Txt::from_str(alloc, name)?;
    Ok(Some(TemplateEntry { name, text }))
}

/// A function under its name.
fn function_entry(
    alloc: Global,
    name: &str,
    value: &Json,
) -> Result<Option<FunctionEntry>, AllocError>
    ensures { IfOk result (λ f. f ≡ function_entry (chars name.now) (view value.now)) }
{
    let Some(members) = formed(Form::Function, value) else {
        return Ok(None);
    };
    let Some(params) = params_of(alloc, member(members, "params"))? else {
        return Ok(None);
    };
    let Some(body) = text_in(alloc, members, "do")? else {
        return Ok(None);
    };
    let name = Txt::from_str(alloc, name)?;
    Ok(Some(FunctionEntry { name, params, body }))
}

fn watch_entry(alloc: Global, value: &Json) -> Result<Option<WatchEntry>, AllocError>
    ensures { IfOk result (λ w. w ≡ watch_entry (view value.now)) }
{
    let Some(members) = formed(Form::Watch, value) else {
        return Ok(None);
    };
    let Some(kind) = kind_of(member(members, "kind")) else {
        return Ok(None);
    };
    let Some(watched) = text_in(alloc, members, "expr")? else {
        return Ok(None);
    };
    let Some(body) = text_in(alloc, members, "do")? else {
        return Ok(None);
    };
    Ok(Some(WatchEntry {
        kind,
        watched,
        body,
    }))
}

fn listener_entry(alloc: Global, value: &Json) -> Result<Option<ListenerEntry>, AllocError>
    ensures { IfOk result (λ l. l ≡ listener_entry (view value.now)) }
{
    let Some(members) = formed(Form::Listener, value) else {
        return Ok(None);
    };
    let Some(name) = text_in(alloc, members, "name")? else {
        return Ok(None);
    };
    let Some(body) = text_in(alloc, members, "do")? else {
        return Ok(None);
    };
    Ok(Some(ListenerEntry { name, body }))
}

/// The templates of an object, in the order of their names.
fn templates_from(
    alloc: Global,
    members: &Map<String, Json>,
) -> Result<Vec<TemplateEntry>, AppFault>
    ensures { Gives is_app_want (λ v. v.items) (templates_after [] (members_view members.now.entries)) result }
{
    let mut entries = Vec::new(alloc);
    for (name, value) in members {
        match template_entry(alloc, name.as_str(), value)? {
            None => return Err(fault_at(Member::Templates, entries.len(), AppKind::Shape)),
            Some(entry) => entries.push(entry)?,
        }
    }
    Ok(entries)
}

/// The functions of an object, in the order of their names.
fn functions_from(
    alloc: Global,
    members: &Map<String, Json>,
) -> Result<Vec<FunctionEntry>, AppFault>
    ensures { Gives is_app_want (λ v. v.items) (functions_after [] (members_view members.now.entries)) result }
{
    let mut entries = Vec::new(alloc);
    for (name, value) in members {
        match function_entry(alloc, name.as_str(), value)? {
            None => return Err(fault_at(Member::Functions, entries.len(), AppKind::Shape)),
            Some(entry) => entries.push(entry)?,
        }
    }
    Ok(entries)
}

fn watches_from(alloc: Global, items: &[Json]) -> Result<Vec<WatchEntry>, AppFault>
    ensures { Gives is_app_want (λ v. v.items) (watches_after [] (items_view items.now)) result }
{
    let mut entries = Vec::new(alloc);
    for item in items {
        match watch_entry(alloc, item)? {
            None => return Err(fault_at(Member::Watch, entries.len(), AppKind::Shape)),
            Some(entry) => entries.push(entry)?,
        }
    }
    Ok(entries)
}

fn listeners_from(alloc: Global, items: &[Json]) -> Result<Vec<ListenerEntry>, AppFault>
    ensures { Gives is_app_want (λ v. v.items) (listeners_after [] (items_view items.now)) result }
{
    let mut entries = Vec::new(alloc);
    for item in items {
        match listener_entry(alloc, item)? {
            None => return Err(fault_at(Member::On, entries.len(), AppKind::Shape)),
            Some(entry) => entries.push(entry)?,
        }
    }
    Ok(entries)
}

/// The functions of an entry: no answer where one is of another form.
fn functions_of(
    alloc: Global,
    members: &Map<String, Json>,
) -> Result<Option<Vec<FunctionEntry>>, AllocError>
    ensures { IfOk result (λ v. option_map (λ es. es.items) v ≡ accepted (functions_after [] (members_view members.now.entries))) }
{
    let mut entries = Vec::new(alloc);
    for (name, value) in members {
        match function_entry(alloc, name.as_str(), value)? {
            None => return Ok(None),
            Some(entry) => entries.push(entry)?,
        }
    }
    Ok(Some(entries))
}

fn watches_of(alloc: Global, items: &[Json]) -> Result<Option<Vec<WatchEntry>>, AllocError>
    ensures { IfOk result (λ v. option_map (λ es. es.items) v ≡ accepted (watches_after [] (items_view items.now))) }
{
    let mut entries = Vec::new(alloc);
    for item in items {
        match watch_entry(alloc, item)? {
            None => return Ok(None),
            Some(entry) => entries.push(entry)?,
        }
    }
    Ok(Some(entries))
}

fn listeners_of(alloc: Global, items: &[Json]) -> Result<Option<Vec<ListenerEntry>>, AllocError>
    ensures { IfOk result (λ v. option_map (λ es. es.items) v ≡ accepted (listeners_after [] (items_view items.now))) }
{
    let mut entries = Vec::new(alloc);
    for item in items {
        match listener_entry(alloc, item)? {
            None => return Ok(None),
            Some(entry) => entries.push(entry)?,
        }
    }
    Ok(Some(entries))
}

/// The functions of an entry, which may be missing.
pub(crate) fn functions_in(
    alloc: Global,
    value: Option<&Json>,
) -> Result<Option<Vec<FunctionEntry>>, AllocError>
    ensures { IfOk result (λ v. option_map (λ es. es.items) v ≡ functions_in (option_map (λ v. view v.now) value.entry)) }
{
    match value {
        None => Ok(Some(Vec::new(alloc))),
        Some(Json::Object(members)) => functions_of(alloc, members),
        Some(_) => Ok(None),
    }
}

/// The watches of an entry.
pub(crate) fn watches_in(
    alloc: Global,
    value: Option<&Json>,
) -> Result<Option<Vec<WatchEntry>>, AllocError>
    ensures { IfOk result (λ v. option_map (λ es. es.items) v ≡ watches_in (option_map (λ v. view v.now) value.entry)) }
{
    match value {
        None => Ok(Some(Vec::new(alloc))),
        Some(Json::Array(items)) => watches_of(alloc, items.as_slice()),
        Some(_) => Ok(None),
    }
}

/// The listeners of an entry.
pub(crate) fn listeners_in(
    alloc: Global,
    value: Option<&Json>,
) -> Result<Option<Vec<ListenerEntry>>, AllocError>
    ensures { IfOk result (λ v. option_map (λ es. es.items) v ≡ listeners_in (option_map (λ v. view v.now) value.entry)) }
{
    match value {
        None => Ok(Some(Vec::new(alloc))),
        Some(Json::Array(items)) => listeners_of(alloc, items.as_slice()),
        Some(_) => Ok(None),
    }
}

/// The entries of `templates`.
pub fn template_entries(alloc: Global, value: Option<&Json>) -> Result<Vec<TemplateEntry>, AppFault>
    ensures { Gives is_app_want (λ v. v.items) (template_entries (option_map (λ v. view v.now) value.entry)) result }
{
    match value {
        None => Ok(Vec::new(alloc)),
        Some(Json::Object(members)) => templates_from(alloc, members),
        Some(_) => Err(fault(Member::Templates, AppKind::Shape)),
    }
}

/// The entries of `functions`.
pub fn function_entries(alloc: Global, value: Option<&Json>) -> Result<Vec<FunctionEntry>, AppFault>
    ensures { Gives is_app_want (λ v. v.items) (function_entries (option_map (λ v. view v.now) value.entry)) result }
{
    match value {
        None => Ok(Vec::new(alloc)),
        Some(Json::Object(members)) => functions_from(alloc, members),
        Some(_) => Err(fault(Member::Functions, AppKind::Shape)),
    }
}

/// The entries of `watch`.
pub fn watch_entries(alloc: Global, value: Option<&Json>) -> Result<Vec<WatchEntry>, AppFault>
    ensures { Gives is_app_want (λ v. v.items) (watch_entries (option_map (λ v. view v.now) value.entry)) result }
{
    match value {
        None => Ok(Vec::new(alloc)),
        Some(Json::Array(items)) => watches_from(alloc, items.as_slice()),
        Some(_) => Err(fault(Member::Watch, AppKind::Shape)),
    }
}

/// The entries of `on`.
pub fn listener_entries(alloc: Global, value: Option<&Json>) -> Result<Vec<ListenerEntry>, AppFault>
    ensures { Gives is_app_want (λ v. v.items) (listener_entries (option_map (λ v. view v.now) value.entry)) result }
{
    match value {
        None => Ok(Vec::new(alloc)),
        Some(Json::Array(items)) => listeners_from(alloc, items.as_slice()),
        Some(_) => Err(fault(Member::On, AppKind::Shape)),
    }
}

/// The text of `run`.
pub fn run_entry(alloc: Global, value: Option<&Json>) -> Result<Txt, AppFault>
    ensures { Gives is_app_want (λ t. t) (run_entry (option_map (λ v. view v.now) value.entry)) result }
{
    let Some(value) = value else {
        return Ok(Txt::new(alloc));
    };
    match text_of(alloc, value)? {
        None => Err(fault(Member::Run, AppKind::Shape)),
        Some(text) => Ok(text),
    }
}
