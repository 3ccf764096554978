//! JSON in a store.
ghost use Rattle.std.specs.Prelude.{◌≡◌, ◌+◌, ◌≤◌, ◌<◌, [], min, nat_lt, length, vec_len, IfOk, OnOk, IfErr};
ghost use Rattle.serde_json.specs.Events.{items_len};
ghost use Rattle.serde_json.specs.View.{view, items_view, members_view, number_view};
ghost use Rattle.ng_base.specs.declared.fault.Memory.TheVariants.{Refused};
ghost use Rattle.ng_store.specs.Json.{whole, is_whole, are_items_whole, are_members_whole, objects_in, objects_in_items, objects_in_members, is_long, are_items_long, are_members_long, placed, placed_items, placed_members};
ghost use Rattle.ng_store.specs.ObjectOf.{objects_of};
ghost use Rattle.ng_store.specs.declared.json.JsonFault.TheVariants.{Memory as OfMemory};

use crate::stored::Stored;
use indexmap::IndexMap;
use ng_base::fault::Memory;
use ng_base::heap::ObjKind;
use ng_base::name::Oid;
use ng_base::txt::Txt;
use ng_base::value::Value;
use serde_json::{Map, Number, Value as Json};
use std::alloc::{AllocError, AllocFailed, Global};
use thiserror::Error;

/// Why JSON was not read.
#[derive(Clone, Copy, Debug, PartialEq, Eq, Error)]
pub enum JsonFault {
    #[error("a number is not whole or out of range")]
    Number,
    #[error("the store holds no further object")]
    Full,
    #[error("{0}")]
    Memory(Memory),
}

impl From<Memory> for JsonFault {
    ghost from_gives = { λ m e. e ≡ OfMemory m };

    fn from(memory: Memory) -> Self {
        JsonFault::Memory(memory)
    }
}

impl From<AllocError> for JsonFault {
    ghost from_gives = { λ _ e. e ≡ OfMemory Refused };

    fn from(_: AllocError) -> Self {
        JsonFault::Memory(Memory::Refused)
    }
}

impl<T: Drop> From<AllocFailed<T>> for JsonFault {
    ghost from_gives = { λ _ e. e ≡ OfMemory Refused };

    fn from(_: AllocFailed<T>) -> Self {
        JsonFault::Memory(Memory::Refused)
    }
}

/// The largest number of the language.
const LARGEST: i64 = 9_007_199_254_740_991;

/// An array has fewer items than this.
const ITEM_LIMIT: usize = 4_294_967_296;

/// A number as a whole number in range.
pub(crate) fn whole(n: &Number) -> Option<i64>
    ensures { result ≡ whole (number_view n.now) }
{
    match n.as_i64() {
        Some(n) if -LARGEST <= n && n <= LARGEST => Some(n),
        _ => None,
    }
}

/// Whether each number is whole and in range.
#[cycle(whole)]
pub(crate) fn is_whole(v: &Json) -> bool
    ensures { result ≡ is_whole (view v.now) }
{
    match v {
        Json::Number(n) => whole(n).is_some(),
        Json::Array(items) => are_items_whole(items.as_slice()),
        Json::Object(members) => are_members_whole(members),
        Json::Null | Json::Bool(_) | Json::String(_) => true,
    }
}

#[cycle(whole)]
fn are_items_whole(items: &[Json]) -> bool
    ensures { result ≡ are_items_whole (items_view items.now) }
{
    for item in items {
        if !is_whole(item) {
            return false;
        }
    }
    true
}

#[cycle(whole)]
fn are_members_whole(members: &Map<String, Json>) -> bool
    ensures { result ≡ are_members_whole (members_view members.now.entries) }
{
    for (_, v) in members {
        if !is_whole(v) {
            return false;
        }
    }
    true
}

/// How many arrays and objects stand in it, itself counted, up to the largest count.
#[cycle(count)]
pub(crate) fn count(v: &Json) -> u32
    ensures { result ≡ min (objects_in (view v.now)) 4294967295 }
{
    match v {
        Json::Array(items) => count_items(items.as_slice()).saturating_add(1),
        Json::Object(members) => count_members(members).saturating_add(1),
        Json::Null | Json::Bool(_) | Json::Number(_) | Json::String(_) => 0,
    }
}

#[cycle(count)]
fn count_items(items: &[Json]) -> u32
    ensures { result ≡ min (objects_in_items (items_view items.now)) 4294967295 }
{
    let mut all: u32 = 0;
    for item in items {
        all = all.saturating_add(count(item));
    }
    all
}

#[cycle(count)]
fn count_members(members: &Map<String, Json>) -> u32
    ensures { result ≡ min (objects_in_members (members_view members.now.entries)) 4294967295 }
{
    let mut all: u32 = 0;
    for (_, v) in members {
        all = all.saturating_add(count(v));
    }
    all
}

/// Whether an array has few enough items.
#[tactic(auto, using(crate::proofs::JsonLists::json_lists))]
fn is_short(items: &[Json]) -> bool
    ensures { result ≡ nat_lt (items_len (items_view items.now)) 4294967296 }
{
    items.len() < ITEM_LIMIT
}

/// Whether an array in it has 2^32 items or more.
#[cycle(long)]
pub(crate) fn is_long(v: &Json) -> bool
    ensures { result ≡ is_long (view v.now) }
{
    match v {
        Json::Array(items) => {
            if is_short(items.as_slice()) {
                are_items_long(items.as_slice())
            } else {
                true
            }
        }
        Json::Object(members) => are_members_long(members),
        Json::Null | Json::Bool(_) | Json::Number(_) | Json::String(_) => false,
    }
}

#[cycle(long)]
fn are_items_long(items: &[Json]) -> bool
    ensures { result ≡ are_items_long (items_view items.now) }
{
    for item in items {
        if is_long(item) {
            return true;
        }
    }
    false
}

#[cycle(long)]
fn are_members_long(members: &Map<String, Json>) -> bool
    ensures { result ≡ are_members_long (members_view members.now.entries) }
{
    for (_, v) in members {
        if is_long(v) {
            return true;
        }
    }
    false
}
