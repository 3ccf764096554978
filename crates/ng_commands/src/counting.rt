//! JSON before it is read: whether its numbers are whole, and how many objects it has.
ghost use Rattle.std.specs.Prelude.{◌≡◌, min, is_some};
ghost use Rattle.serde_json.specs.View.{view, items_view, members_view, number_view};
ghost use Rattle.ng_store.specs.Json.{whole, is_whole, are_items_whole, are_members_whole, objects_in, objects_in_items, objects_in_members};

use serde_json::{Map, Number, Value as Json};

/// The largest number of the language.
const LARGEST: i64 = 9_007_199_254_740_991;

/// Whether a number is whole and in range.
fn is_whole_number(n: &Number) -> bool
    ensures { result ≡ is_some (whole (number_view n.now)) }
{
    match n.as_i64() {
        Some(n) => -LARGEST <= n && n <= LARGEST,
        None => false,
    }
}

/// Whether each number is whole and in range.
#[cycle(whole)]
pub(crate) fn is_whole(v: &Json) -> bool
    ensures { result ≡ is_whole (view v.now) }
{
    match v {
        Json::Number(n) => is_whole_number(n),
        Json::Array(items) => are_items_whole(items.as_slice()),
        Json::Object(members) => are_members_whole(members),
        Json::Null | Json::Bool(_) | Json::String(_) => true,
    }
}

#[cycle(whole)]
fn are_items_whole(items: &[Json]) -> bool
    ensures { result ≡ are_items_whole (items_view items.now) }
{
    for item in items {
        if !is_whole(item) {
            return false;
        }
    }
    true
}

#[cycle(whole)]
fn are_members_whole(members: &Map<String, Json>) -> bool
    ensures { result ≡ are_members_whole (members_view members.now.entries) }
{
    for (_, v) in members {
        if !is_whole(v) {
            return false;
        }
    }
    true
}

/// How many arrays and objects stand in it, itself counted, up to the largest count.
#[cycle(count)]
pub(crate) fn count(v: &Json) -> u32
    ensures { result ≡ min (objects_in (view v.now)) 4294967295 }
{
    match v {
        Json::Array(items) => count_items(items.as_slice()).saturating_add(1),
        Json::Object(members) => count_members(members).saturating_add(1),
        Json::Null | Json::Bool(_) | Json::Number(_) | Json::String(_) => 0,
    }
}

#[cycle(count)]
fn count_items(items: &[Json]) -> u32
    ensures { result ≡ min (objects_in_items (items_view items.now)) 4294967295 }
{
    let mut all: u32 = 0;
    for item in items {
        all = all.saturating_add(count(item));
    }
    all
}

#[cycle(count)]
fn count_members(members: &Map<String, Json>) -> u32
    ensures { result ≡ min (objects_in_members (members_view members.now.entries)) 4294967295 }
{
    let mut all: u32 = 0;
    for (_, v) in members {
        all = all.saturating_add(count(v));
    }
    all
}
