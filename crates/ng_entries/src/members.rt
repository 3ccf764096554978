//! Looking into the members of JSON objects.
ghost use Rattle.std.specs.Prelude.{◌≡◌, option_map, Some, IfOk};
ghost use Rattle.serde_json.specs.Find.{get_member};
ghost use Rattle.serde_json.specs.View.{view, members_view};
ghost use Rattle.ng_entries.specs.Entries.{text_of, text_in};
ghost use Rattle.ng_entries.specs.Refused.{fault as refused, fault_at as refused_at};

use crate::fault::{AppFault, AppKind, Member};
use ng_base::txt::Txt;
use serde_json::{Map, Value as Json};
use std::alloc::{AllocError, Global};

/// A refusal of a member itself.
pub fn fault(member: Member, kind: AppKind) -> AppFault
    ensures { result ≡ refused member kind }
{
    fault_at(member, 0, kind)
}

/// A refusal of an entry.
pub fn fault_at(member: Member, item: usize, kind: AppKind) -> AppFault
    ensures { result ≡ refused_at member item kind }
{
    AppFault {
        member,
        item: item as u64,
        kind,
    }
}

/// The value of a member.
pub fn member<'a>(members: &'a Map<String, Json>, name: &str) -> Option<&'a Json>
    ensures { option_map (λ v. view v.now) result ≡ get_member name.now (members_view members.now.entries) }
{
    members.get(name)
}

/// The characters of a value that is a text.
pub(crate) fn text_of(alloc: Global, value: &Json) -> Result<Option<Txt>, AllocError>
    ensures { IfOk result (λ t. t ≡ text_of (Some (view value.now))) }
{
    match value {
        Json::String(text) => Ok(Some(Txt::from_str(alloc, text.as_str())?)),
        _ => Ok(None),
    }
}

/// The characters of a member that is a text.
pub(crate) fn text_in(
    alloc: Global,
    members: &Map<String, Json>,
    name: &str,
) -> Result<Option<Txt>, AllocError>
    ensures { IfOk result (λ t. t ≡ text_in name.now (members_view members.now.entries)) }
{
    match member(members, name) {
        None => Ok(None),
        Some(value) => text_of(alloc, value),
    }
}
