//! The directives of an application as they are written (guide: Directives, "Creating Directives").
ghost use Rattle.std.specs.Prelude.{◌≡◌, [], map, option_map, Some, IfOk};
ghost use Rattle.serde_json.specs.Data.{boolean};
ghost use Rattle.serde_json.specs.View.{view, members_view, items_view, number_view};
ghost use Rattle.ng_base.specs.Meets.{Gives};
ghost use Rattle.ng_store.specs.Json.{whole};
ghost use Rattle.ng_entries.specs.DirectiveEntries.{flag_of, priority_of, scope_in, scope_of, restrict_of, specs_after, optional_text, link_of, definition_of, directive_entry, directives_after, directive_entries};
ghost use Rattle.ng_entries.specs.EntryOf.{entry_of};
ghost use Rattle.ng_entries.specs.Free.{is_app_want};

use crate::entries::{
    Form, FunctionEntry, ListenerEntry, WatchEntry, formed, functions_in, listeners_in, watches_in,
};
use crate::fault::{AppFault, AppKind, Member};
use crate::members::{fault, fault_at, member, text_in, text_of};
use ng_base::txt::Txt;
use ng_collect::{DirectiveDef, ScopeAsk, Specs};
use serde_json::{Map, Number, Value as Json};
use std::alloc::{AllocError, Global};

/// The largest number of the language.
const LARGEST: i64 = 9_007_199_254_740_991;

/// A directive as it is written.
#[derive(Drop)]
pub struct DirectiveEntry {
    pub def: DirectiveDef,
    pub functions: Vec<FunctionEntry>,
    pub watches: Vec<WatchEntry>,
    pub listeners: Vec<ListenerEntry>,
    pub link: Txt,
}

/// A member that is true or false, and false where it is missing.
fn flag_of(value: Option<&Json>) -> Option<bool>
    ensures { result ≡ flag_of (option_map (λ v. view v.now) value.entry) }
{
    match value {
        None => Some(false),
        Some(Json::Bool(flag)) => Some(*flag),
        Some(_) => None,
    }
}

/// A number as a whole one of the language.
fn whole(n: &Number) -> Option<i64>
    ensures { result ≡ whole (number_view n.now) }
{
    match n.as_i64() {
        Some(n) if -LARGEST <= n && n <= LARGEST => Some(n),
        _ => None,
    }
}

/// The priority, which is 0 where it is missing.
fn priority_of(value: Option<&Json>) -> Option<i64>
    ensures { result ≡ priority_of (option_map (λ v. view v.now) value.entry) }
{
    match value {
        None => Some(0),
        Some(Json::Number(n)) => whole(n),
        Some(_) => None,
    }
}

/// On what it stands, which is both where it is missing.
fn restrict_of(alloc: Global, value: Option<&Json>) -> Result<Option<Txt>, AllocError>
    ensures { IfOk result (λ t. t ≡ restrict_of (option_map (λ v. view v.now) value.entry)) }
{
    match value {
        None => {
            let mut both = Txt::new(alloc);
            both.push_word("EA")?;
            Ok(Some(both))
        }
        Some(value) => text_of(alloc, value),
    }
}

/// The properties of an isolate scope, each with the text of its binding.
fn specs_of(alloc: Global, members: &Map<String, Json>) -> Result<Option<Specs>, AllocError>
    ensures { IfOk result (λ s. s ≡ specs_after [] (members_view members.now.entries)) }
{
    let mut specs = Specs::new(alloc);
    for (name, value) in members {
        let Some(binding) = text_of(alloc, value)? else {
            return Ok(None);
        };
        let name = Txt::from_str(alloc, name.as_str())?;
        specs.push(name, binding)?;
    }
    Ok(Some(specs))
}

fn same_or_child(child: bool) -> ScopeAsk
    ensures { Some result ≡ scope_in (boolean child) }
{
    if child {
        ScopeAsk::Child
    } else {
        ScopeAsk::Same
    }
}

/// The scope that it asks for.
fn scope_of(alloc: Global, value: Option<&Json>) -> Result<Option<ScopeAsk>, AllocError>
    ensures { IfOk result (λ s. s ≡ scope_of (option_map (λ v. view v.now) value.entry)) }
{
    match value {
        None => Ok(Some(ScopeAsk::Same)),
        Some(Json::Bool(child)) => Ok(Some(same_or_child(*child))),
        Some(Json::Object(members)) => match specs_of(alloc, members)? {
            None => Ok(None),
            Some(specs) => Ok(Some(ScopeAsk::Isolate(specs))),
        },
        Some(_) => Ok(None),
    }
}

/// A text that may be missing: no answer where it is of another kind.
fn optional_text(alloc: Global, value: Option<&Json>) -> Result<Option<Option<Txt>>, AllocError>
    ensures { IfOk result (λ t. t ≡ optional_text (option_map (λ v. view v.now) value.entry)) }
{
    match value {
        None => Ok(Some(None)),
        Some(value) => match text_of(alloc, value)? {
            None => Ok(None),
            Some(text) => Ok(Some(Some(text))),
        },
    }
}

/// The text of the program that links it, which is empty where it is missing.
fn link_of(alloc: Global, value: Option<&Json>) -> Result<Option<Txt>, AllocError>
    ensures { IfOk result (λ t. t ≡ link_of (option_map (λ v. view v.now) value.entry)) }
{
    match value {
        None => Ok(Some(Txt::new(alloc))),
        Some(value) => text_of(alloc, value),
    }
}

/// What a directive asks of its elements.
fn definition_of(
    alloc: Global,
    members: &Map<String, Json>,
) -> Result<Option<DirectiveDef>, AllocError>
    ensures { IfOk result (λ d. d ≡ definition_of (members_view members.now.entries)) }
{
    let Some(name) = text_in(alloc, members, "name")? else {
        return Ok(None);
    };
    let Some(restrict) = restrict_of(alloc, member(members, "restrict"))? else {
        return Ok(None);
    };
    let Some(priority) = priority_of(member(members, "priority")) else {
        return Ok(None);
    };
    let Some(terminal) = flag_of(member(members, "terminal")) else {
        return Ok(None);
    };
    let Some(scope) = scope_of(alloc, member(members, "scope"))? else {
        return Ok(None);
    };
    let Some(template) = optional_text(alloc, member(members, "template"))? else {
        return Ok(None);
    };
    let Some(transclude) = flag_of(member(members, "transclude")) else {
        return Ok(None);
    };
    Ok(Some(DirectiveDef {
        name,
        restrict,
        priority,
        terminal,
        scope,
        template,
        transclude,
    }))
}

/// A directive as it is written, if the entry is of its form.
fn directive_entry(alloc: Global, value: &Json) -> Result<Option<DirectiveEntry>, AllocError>
    ensures { IfOk result (λ e. option_map entry_of e ≡ directive_entry (view value.now)) }
{
    let Some(members) = formed(Form::Directive, value) else {
        return Ok(None);
    };
    let Some(def) = definition_of(alloc, members)? else {
        return Ok(None);
    };
    let Some(functions) = functions_in(alloc, member(members, "functions"))? else {
        return Ok(None);
    };
    let Some(watches) = watches_in(alloc, member(members, "watch"))? else {
        return Ok(None);
    };
    let Some(listeners) = listeners_in(alloc, member(members, "on"))? else {
        return Ok(None);
    };
    let Some(link) = link_of(alloc, member(members, "link"))? else {
        return Ok(None);
    };
    Ok(Some(DirectiveEntry {
        def,
        functions,
        watches,
        listeners,
        link,
    }))
}

/// The entries of a list.
fn directives_from(alloc: Global, items: &[Json]) -> Result<Vec<DirectiveEntry>, AppFault>
    ensures { Gives is_app_want (λ v. map entry_of v.items) (directives_after [] (items_view items.now)) result }
{
    let mut entries = Vec::new(alloc);
    for item in items {
        match directive_entry(alloc, item)? {
            None => return Err(fault_at(Member::Directives, entries.len(), AppKind::Shape)),
            Some(entry) => entries.push(entry)?,
        }
    }
    Ok(entries)
}

/// The entries of `directives`.
pub fn directive_entries(
    alloc: Global,
    value: Option<&Json>,
) -> Result<Vec<DirectiveEntry>, AppFault>
    ensures { Gives is_app_want (λ v. map entry_of v.items) (directive_entries (option_map (λ v. view v.now) value.entry)) result }
{
    match value {
        None => Ok(Vec::new(alloc)),
        Some(Json::Array(items)) => directives_from(alloc, items.as_slice()),
        Some(_) => Err(fault(Member::Directives, AppKind::Shape)),
    }
}
