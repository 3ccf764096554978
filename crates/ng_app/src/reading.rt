//! The application file: JSON whose members are read in the one format that there is.
ghost use Rattle.std.specs.Prelude.{◌≡◌, codes, Some, None, option_map, IfOk, Err, MatchResult, true, false};
ghost use Rattle.serde_json.specs.Find.{as_object, get_member};
ghost use Rattle.serde_json.specs.View.{view, members_view};
ghost use Rattle.ng_core.specs.Frames.{state_of};
ghost use Rattle.ng_base.specs.Meets.{Gives};
ghost use Rattle.ng_app.specs.App.{member_named, are_known, is_one as is_one_of, is_format, is_data as is_data_of, data_given, data_fault as data_refused, core_with, written as written_in, facts_with, facts_of_format, facts_of_object, facts_of};
ghost use Rattle.ng_app.specs.AppOf.{facts};
ghost use Rattle.ng_entries.specs.Free.{is_app_want, is_app_refused};
ghost use Rattle.ng_app.specs.Fresh.{IsFresh};
ghost use Rattle.ng_app.specs.WrittenOf.{written_of};

use crate::app::App;
use crate::programs::{functions_read, listeners_read, program_at, watches_read};
use crate::registering::{directive_templates, directives_read, registered};
use crate::templates::templates_read;
use ng_base::fault::Memory;
use ng_base::txt::Txt;
use ng_core::core_state::Core;
use ng_entries::directives::{DirectiveEntry, directive_entries};
use ng_entries::entries::{
    FunctionEntry, ListenerEntry, TemplateEntry, WatchEntry, function_entries, listener_entries,
    run_entry, template_entries, watch_entries,
};
use ng_entries::fault::{AppFault, AppKind, Member};
use ng_entries::members::{fault, member};
use ng_store::json::JsonFault;
use serde_json::{Map, Value as Json};
use std::alloc::Global;

/// The member of a name.
fn member_of(name: &str) -> Option<Member>
    ensures { result ≡ member_named name.now }
{
    match name {
        "format" => Some(Member::Format),
        "data" => Some(Member::Facts),
        "templates" => Some(Member::Templates),
        "directives" => Some(Member::Directives),
        "functions" => Some(Member::Functions),
        "run" => Some(Member::Run),
        "watch" => Some(Member::Watch),
        "on" => Some(Member::On),
        _ => None,
    }
}

/// Whether each member is one that an application may have.
fn all_known(members: &Map<String, Json>) -> bool
    ensures { result ≡ are_known (members_view members.now.entries) }
{
    for (name, _) in members {
        if member_of(name.as_str()).is_none() {
            return false;
        }
    }
    true
}

fn is_one(number: Option<u64>) -> bool
    ensures { result ≡ is_one_of number }
{
    match number {
        None => false,
        Some(n) => n == 1,
    }
}

/// Whether the format that is named, if one is, is 1.
fn has_format(members: &Map<String, Json>) -> bool
    ensures { result ≡ is_format (get_member (codes "format") (members_view members.now.entries)) }
{
    match member(members, "format") {
        None => true,
        Some(value) => is_one(value.as_u64()),
    }
}

/// Why data is refused.
fn data_fault(refused: JsonFault) -> AppFault
    ensures { result ≡ data_refused refused }
{
    match refused {
        JsonFault::Number => fault(Member::Facts, AppKind::Number),
        JsonFault::Full => fault(Member::Facts, AppKind::Full),
        JsonFault::Memory(memory) => fault(Member::File, AppKind::Memory(memory)),
    }
}

/// The core of the page of this data, a JSON object.
fn begin(alloc: Global, data_member: Json) -> Result<Core, AppFault>
    ensures state { Gives is_app_want state_of (core_with (view data_member)) result }
    ensures fresh { IfOk result IsFresh }
{
    match Core::of_facts(alloc, data_member) {
        Ok(core) => Ok(core),
        Err(refused) => Err(data_fault(refused)),
    }
}

/// The core of the page whose data, if it is there, is this.
fn read_core(alloc: Global, data_member: Option<Json>) -> Result<Core, AppFault>
    ensures state { Gives is_app_want state_of (core_with (data_given (option_map view data_member))) result }
    ensures fresh { IfOk result IsFresh }
{
    match data_member {
        None => begin(alloc, Json::Object(Map::new(alloc))),
        Some(value) => begin(alloc, value),
    }
}

/// Whether data that is given is an object.
fn is_data(data_member: Option<&Json>) -> bool
    ensures { result ≡ is_data_of (option_map (λ v. view v.now) data_member.entry) }
{
    match data_member {
        None => true,
        Some(value) => value.is_object(),
    }
}

/// The entries of the members.
#[derive(Drop)]
struct Written {
    templates: Vec<TemplateEntry>,
    directives: Vec<DirectiveEntry>,
    functions: Vec<FunctionEntry>,
    run: Txt,
    watches: Vec<WatchEntry>,
    listeners: Vec<ListenerEntry>,
}

/// The entries of the members, each of its form.
fn read_entries(alloc: Global, members: &Map<String, Json>) -> Result<Written, AppFault>
    ensures { Gives is_app_want written_of (written_in (members_view members.now.entries)) result }
{
    let templates = template_entries(alloc, member(members, "templates"))?;
    let directives = directive_entries(alloc, member(members, "directives"))?;
    let functions = function_entries(alloc, member(members, "functions"))?;
    let run = run_entry(alloc, member(members, "run"))?;
    let watches = watch_entries(alloc, member(members, "watch"))?;
    let listeners = listener_entries(alloc, member(members, "on"))?;
    Ok(Written {
        templates,
        directives,
        functions,
        run,
        watches,
        listeners,
    })
}

/// The data is read, then the definitions of directives, and then the templates and the programs, member by member.
fn read_programs(
    alloc: Global,
    data_member: Option<Json>,
    entries: Written,
) -> Result<App, AppFault>
    ensures { Gives is_app_want facts (facts_with (data_given (option_map view data_member)) (written_of entries)) result }
{
    let Written {
        templates,
        directives,
        functions,
        run,
        watches,
        listeners,
    } = entries;
    let core = read_core(alloc, data_member)?;
    let (registry, rests) = registered(alloc, directives)?;
    let templates = templates_read(alloc, templates, &registry)?;
    let own = directive_templates(alloc, &registry)?;
    let directives = directives_read(alloc, own, rests)?;
    let functions = functions_read(alloc, functions)?;
    let run = program_at(alloc, Member::Run, 0, run)?;
    let watches = watches_read(alloc, watches)?;
    let listeners = listeners_read(alloc, listeners)?;
    Ok(App {
        core,
        templates,
        directives,
        functions,
        run,
        watches,
        listeners,
        registry,
    })
}

/// The data, which is taken out of the members; the others are dropped.
fn data_of(mut members: Map<String, Json>) -> Option<Json>
    ensures { option_map view result ≡ get_member (codes "data") (members_view members.entries) }
{
    members.remove("data")
}

/// The application with these members, which are known.
fn read_known(alloc: Global, members: Map<String, Json>) -> Result<App, AppFault>
    ensures { Gives is_app_want facts (facts_of_format (members_view members.entries)) result }
{
    if !has_format(&members) {
        return Err(fault(Member::Format, AppKind::Shape));
    }
    if !is_data(member(&members, "data")) {
        return Err(fault(Member::Facts, AppKind::Shape));
    }
    let entries = read_entries(alloc, &members)?;
    read_programs(alloc, data_of(members), entries)
}

/// The application with these members.
fn read_members_of(alloc: Global, members: Map<String, Json>) -> Result<App, AppFault>
    ensures { Gives is_app_want facts (facts_of_object (Some (members_view members.entries))) result }
{
    if !all_known(&members) {
        return Err(fault(Member::File, AppKind::Shape));
    }
    read_known(alloc, members)
}

/// The application that is this JSON, which is taken, so that the data is dropped as it is read.
fn read_json(alloc: Global, value: Json) -> Result<App, AppFault>
    ensures { Gives is_app_want facts (facts_of_object (as_object (view value))) result }
{
    match value {
        Json::Object(members) => read_members_of(alloc, members),
        _ => Err(fault(Member::File, AppKind::Shape)),
    }
}

/// The JSON of an application.
fn parsed(alloc: Global, bytes: &[u8]) -> Result<Json, AppFault>
    ensures { MatchResult result
        (λ v. facts_of bytes.now ≡ facts_of_object (as_object (view v)))
        (λ e. Gives is_app_want facts (facts_of bytes.now) (Err e)) }
{
    match Json::from_slice(alloc, bytes) {
        Ok(value) => Ok(value),
        Err(error) => {
            if error.is_memory() {
                Err(fault(Member::File, AppKind::Memory(Memory::Refused)))
            } else {
                Err(fault(Member::File, AppKind::Json))
            }
        }
    }
}

/// The JSON of an application whose bytes are taken, and dropped once it is read.
fn parsed_out_of(alloc: Global, bytes: Vec<u8>) -> Result<Json, AppFault>
    ensures { MatchResult result
        (λ v. facts_of bytes.items ≡ facts_of_object (as_object (view v)))
        (λ e. Gives is_app_want facts (facts_of bytes.items) (Err e)) }
{
    parsed(alloc, bytes.as_slice())
}

/// Why an application is not read, told from what a step of its reading said: want of memory is told as refused, since nothing that
/// counts stands behind an application that was not read.
fn told(refusal: AppFault) -> AppFault
    ensures want { is_app_want refusal ≡ true → is_app_refused result ≡ true }
    ensures other { is_app_refused result ≡ false → result ≡ refusal }
{
    match refusal.kind {
        AppKind::Memory(_) => fault(Member::File, AppKind::Memory(Memory::Refused)),
        _ => refusal,
    }
}

/// The application that these bytes spell.
fn read_lent(alloc: Global, bytes: &[u8]) -> Result<App, AppFault>
    ensures { Gives is_app_want facts (facts_of bytes.now) result }
{
    match parsed(alloc, bytes) {
        Ok(value) => read_json(alloc, value),
        Err(fault) => Err(fault),
    }
}

/// The application that these bytes spell, which are dropped before what they spell is read into a store.
fn read_taken(alloc: Global, bytes: Vec<u8>) -> Result<App, AppFault>
    ensures { Gives is_app_want facts (facts_of bytes.items) result }
{
    match parsed_out_of(alloc, bytes) {
        Ok(value) => read_json(alloc, value),
        Err(fault) => Err(fault),
    }
}

impl App {
    /// Reads an application file. The refusals come in this order: JSON that is broken; no object, or a member of another name; a
    /// member that is not of its kind, in the order of the table; a number of the data that is not whole or out of range, and
    /// more than 1,000,000 objects and arrays; of `directives` a name that is none, then a restriction, then a binding; then of
    /// `templates`, entry by entry, a text that is no document and one that is no template; the same of the templates of
    /// `directives`, and then their programs; then of `functions`, `run`, `watch` and `on`, entry by entry, a program that is
    /// none, and of what is watched one that is not pure.
    pub fn read(alloc: Global, bytes: &[u8]) -> Result<App, AppFault>
        ensures { Gives is_app_refused facts (facts_of bytes.now) result }
    {
        match read_lent(alloc, bytes) {
            Ok(app) => Ok(app),
            Err(refusal) => Err(told(refusal)),
        }
    }

    /// The same of bytes that are taken: they are dropped before what they spell is read into a store.
    pub fn take(alloc: Global, bytes: Vec<u8>) -> Result<App, AppFault>
        ensures { Gives is_app_refused facts (facts_of bytes.items) result }
    {
        match read_taken(alloc, bytes) {
            Ok(app) => Ok(app),
            Err(refusal) => Err(told(refusal)),
        }
    }
}
