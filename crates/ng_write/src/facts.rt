//! The data of an application becomes what its root scope has.
//!
//! The object of the data is the root scope's own object (guide: Scopes, "Scope Hierarchies"): it is made as a scope, gets
//! the names that a scope has of its own, and then the members of the data.
ghost use Rattle.std.specs.Prelude.{◌≡◌, ◌<◌, ◌≤◌, length, is_some, Ok};
ghost use Rattle.std.specs.Str.{chars, bytes_eq};
ghost use Rattle.ng_base.specs.Word.{IsWord};
ghost use Rattle.serde_json.specs.View.{view, items_view, members_view, number_view};
ghost use Rattle.ng_language.specs.Objects.{set_name};
ghost use Rattle.ng_store.specs.Json.{json_value, with_json, whole, is_whole, are_items_whole, are_members_whole};
ghost use Rattle.ng_write.specs.Assigning.{is_kept_name};
ghost use Rattle.ng_write.specs.Facts.{facts_are_whole, read_then, members_entered, facts_entered, Reads};

use ng_base::name::Oid;
use ng_base::txt::Txt;
use ng_store::{JsonFault, Store};
use serde_json::{Map, Number, Value as Json};
use std::alloc::Global;

/// The largest number of the language.
const LARGEST: i64 = 9_007_199_254_740_991;

/// Whether a number is whole and in range.
fn is_whole_number(n: &Number) -> bool
    ensures { result ≡ is_some (whole (number_view n.now)) }
{
    match n.as_i64() {
        Some(n) => -LARGEST <= n && n <= LARGEST,
        None => false,
    }
}

/// Whether each number is whole and in range.
#[cycle(whole)]
fn is_whole(v: &Json) -> bool
    ensures { result ≡ is_whole (view v.now) }
{
    match v {
        Json::Number(n) => is_whole_number(n),
        Json::Array(items) => are_items_whole(items.as_slice()),
        Json::Object(members) => are_members_whole(members),
        Json::Null | Json::Bool(_) | Json::String(_) => true,
    }
}

#[cycle(whole)]
fn are_items_whole(items: &[Json]) -> bool
    ensures { result ≡ are_items_whole (items_view items.now) }
{
    for item in items {
        if !is_whole(item) {
            return false;
        }
    }
    true
}

#[cycle(whole)]
fn are_members_whole(members: &Map<String, Json>) -> bool
    ensures { result ≡ are_members_whole (members_view members.now.entries) }
{
    for (_, v) in members {
        if !is_whole(v) {
            return false;
        }
    }
    true
}

/// Whether a name of JSON is a word of ASCII characters. Nothing is allocated.
fn is_name(name: &str, word: &str) -> bool
    requires { IsWord word.now }
    ensures { result ≡ bytes_eq (chars name.now) word.now }
{
    name == word
}

/// Whether a name of JSON is one that a scope keeps for itself.
fn is_left_out(name: &str) -> bool
    ensures { result ≡ is_kept_name (chars name.now) }
{
    is_name(name, "$id") || is_name(name, "$parent") || is_name(name, "$root")
}

/// Whether each number but those under the names that are left out is whole and in range.
fn facts_are_whole(facts: &Map<String, Json>) -> bool
    ensures { result ≡ facts_are_whole (members_view facts.now.entries) }
{
    for (name, v) in facts {
        let known = is_left_out(name.as_str()) || is_whole(v);
        if !known {
            return false;
        }
    }
    true
}

/// Reads a value as a name of an object that stands.
#[tactic(auto, using(crate::proofs::More::as_many, crate::proofs::More::more_by_some))]
fn enter_member(
    alloc: Global,
    store: &mut Store,
    o: Oid,
    name: &str,
    v: Json,
) -> Result<(), JsonFault>
    requires { o.0 < length store.old }
    ensures entered { Reads (read_then (json_value store.old (view v)) store.old (λ w. (set_name (with_json store.old (view v)) o.0 (chars name.now) w, Ok tt))) store.new result }
    ensures grown { length store.old ≤ length store.new }
{
    let name = Txt::from_str(alloc, name)?;
    let value = store.take_json(v)?;
    store.set(o, &name, value)?;
    Ok(())
}

/// Reads members as names of an object that stands. Each is dropped as soon as it is read.
fn enter_members(
    alloc: Global,
    store: &mut Store,
    o: Oid,
    facts: Map<String, Json>,
) -> Result<(), JsonFault>
    requires { o.0 < length store.old }
    ensures entered { Reads (members_entered store.old o.0 (members_view facts.entries)) store.new result }
    ensures grown { length store.old ≤ length store.new }
{
    for (name, v) in facts {
        if !is_left_out(name.as_str()) {
            enter_member(alloc, store, o, name.as_str(), v)?;
        }
    }
    Ok(())
}

/// Reads the members of a JSON object, which it takes, as names of an object that stands, as the root scope's. The names that
/// a scope keeps for itself are left out unread.
pub fn enter_facts(
    alloc: Global,
    store: &mut Store,
    o: Oid,
    facts: Map<String, Json>,
) -> Result<(), JsonFault>
    requires { o.0 < length store.old }
    ensures entered { Reads (facts_entered store.old o.0 (members_view facts.entries)) store.new result }
    ensures grown { length store.old ≤ length store.new }
{
    if !facts_are_whole(&facts) {
        return Err(JsonFault::Number);
    }
    enter_members(alloc, store, o, facts)
}
