//! JSON made into objects, which stand behind those that were there.
ghost use Rattle.std.specs.Prelude.{◌≡◌, ◌+◌, ◌++◌, ◌↔◌, if◌then◌else◌, ◌≤◌, ◌<◌, [], length, option_to_list, vec_len, nat_lt, IfOk, IfSome, OnOk, OnErr, IfErr, IsSome};
ghost use Rattle.std.specs.VecDeque.{deque_len};
ghost use Rattle.std.specs.Str.{chars};
ghost use Rattle.serde_json.specs.View.{view, items_view, members_view};
ghost use Rattle.ng_base.specs.declared.fault.Memory.TheVariants.{Refused};
ghost use Rattle.ng_store.specs.Json.{objects_in, objects_in_items, objects_in_members, placed, placed_items, placed_members, last_made, array_of, plain_of, int_of, whole, with_json};
ghost use Rattle.ng_store.specs.ObjectOf.{objects_of, properties_of};

use crate::json::whole;
use crate::properties::Properties;
use crate::shapes::Shapes;
use crate::stored::Stored;
use indexmap::IndexSet;
use ng_base::fault::Memory;
use ng_base::heap::ObjKind;
use ng_base::name::Oid;
use ng_base::txt::Txt;
use ng_base::value::Value;
use serde_json::{Map, Number, Value as Json};
use std::alloc::{AllocError, Global};
use std::collections::VecDeque;

/// How many names are kept to be shared.
const SHARED_NAMES: usize = 1_000;

/// So many shared names are looked through one after another, which takes no text of the one that is sought.
const FEW_NAMES: usize = 12;

/// A list of JSON with room for more items than these gives room back while it empties.
const MUCH_ROOM: usize = 65_536;

/// A number that is whole.
fn number(n: &Number) -> Value
    ensures { result ≡ int_of (whole (Rattle.serde_json.specs.View.number_view n.now)) }
{
    match whole(n) {
        Some(n) => Value::Int(n),
        None => Value::Undefined,
    }
}

/// The name among those that are shared, by a look at one after another where they are few.
fn known_name(names: &IndexSet<Txt>, name: &str) -> Result<Option<Txt>, Memory>
    ensures name { IfOk result (λ found. IfSome found (λ t. t ≡ chars name.now)) }
    ensures refused { IfErr result (λ e. e ≡ Refused) }
{
    if names.len() > FEW_NAMES {
        return Ok(None);
    }
    for known in names.iter() {
        if known.is(name) {
            return Ok(Some(known.copied()?));
        }
    }
    Ok(None)
}

/// The text of a name that is not among the few, and is shared from now on where there is room.
fn added_name(alloc: Global, names: &mut IndexSet<Txt>, name: &str) -> Result<Txt, Memory>
    ensures name { IfOk result (λ t. t ≡ chars name.now) }
    ensures refused { IfErr result (λ e. e ≡ Refused) }
{
    let name = Txt::from_str(alloc, name)?;
    if let Some(known) = names.get(&name) {
        return Ok(known.copied()?);
    }
    if names.len() < SHARED_NAMES {
        names.insert(name.copied()?)?;
    }
    Ok(name)
}

/// The text of a name, which objects share, so that records with the same names take no memory for them.
fn shared_name(alloc: Global, names: &mut IndexSet<Txt>, name: &str) -> Result<Txt, Memory>
    ensures name { IfOk result (λ t. t ≡ chars name.now) }
    ensures refused { IfErr result (λ e. e ≡ Refused) }
{
    match known_name(names, name)? {
        Some(known) => Ok(known),
        None => added_name(alloc, names, name),
    }
}

/// An array behind the objects that were made.
fn put_array(
    alloc: Global,
    base: usize,
    made: &mut Vec<Stored>,
    shapes: &mut Shapes,
    items: Vec<Value>,
) -> Result<Value, Memory>
    requires { base + vec_len made.old < 1000000 }
    ensures placed { IfOk result (λ w. (w, objects_of made.new.items) ≡ last_made base (objects_of made.old.items) (array_of items.items)) }
    ensures count { OnOk result (vec_len made.new ≡ vec_len made.old + 1) }
    ensures refused { IfErr result (λ e. e ≡ Refused) }
{
    let o = Oid((base + made.len()) as u32);
    made.push(Stored {
        kind: ObjKind::Array,
        proto: None,
        items,
        properties: Properties::with_room(alloc, shapes, 0)?,
    })?;
    Ok(Value::Obj(o))
}

/// An object behind those that were made.
fn put_object(
    alloc: Global,
    base: usize,
    made: &mut Vec<Stored>,
    properties: Properties,
) -> Result<Value, Memory>
    requires { base + vec_len made.old < 1000000 }
    ensures placed { IfOk result (λ w. (w, objects_of made.new.items) ≡ last_made base (objects_of made.old.items) (plain_of (properties_of properties))) }
    ensures count { OnOk result (vec_len made.new ≡ vec_len made.old + 1) }
    ensures refused { IfErr result (λ e. e ≡ Refused) }
{
    let o = Oid((base + made.len()) as u32);
    made.push(Stored {
        kind: ObjKind::Plain,
        proto: None,
        items: Vec::new(alloc),
        properties,
    })?;
    Ok(Value::Obj(o))
}

/// The next item of those that are left. The room of a long list is given back once less than half of it is used, so that the
/// items that were placed take none beside their objects.
fn next_item(left: &mut VecDeque<Json>) -> Option<Json>
    ensures items { left.old.items ≡ option_to_list result ++ left.new.items }
    ensures some { IsSome result ↔ (0 < deque_len left.old) }
    ensures count { deque_len left.new + length (option_to_list result) ≡ deque_len left.old }
{
    let next = left.pop_front();
    let room = left.capacity();
    if room > MUCH_ROOM && left.len() < room / 2 {
        left.shrink_to_fit();
    }
    next
}

/// JSON as a value, with the objects that it wants. Each part is dropped as soon as its objects are made.
#[cycle(place)]
pub(crate) fn place(
    alloc: Global,
    base: usize,
    made: &mut Vec<Stored>,
    shapes: &mut Shapes,
    names: &mut IndexSet<Txt>,
    v: Json,
) -> Result<Value, Memory>
    requires { base + vec_len made.old + objects_in (view v) ≤ 1000000 }
    ensures placed { IfOk result (λ w. (w, objects_of made.new.items) ≡ placed base (view v) (objects_of made.old.items)) }
    ensures count { OnOk result (vec_len made.new ≡ vec_len made.old + objects_in (view v)) }
    ensures refused { IfErr result (λ e. e ≡ Refused) }
{
    match v {
        Json::Null => Ok(Value::Null),
        Json::Bool(b) => Ok(Value::Bool(b)),
        Json::Number(n) => Ok(number(&n)),
        Json::String(s) => Ok(Value::Text(Txt::from_str(alloc, s.as_str())?)),
        Json::Array(items) => {
            let items = place_items(alloc, base, made, shapes, names, items)?;
            put_array(alloc, base, made, shapes, items)
        }
        Json::Object(members) => {
            let properties = place_members(alloc, base, made, shapes, names, members)?;
            put_object(alloc, base, made, properties)
        }
    }
}

#[cycle(place)]
fn place_items(
    alloc: Global,
    base: usize,
    made: &mut Vec<Stored>,
    shapes: &mut Shapes,
    names: &mut IndexSet<Txt>,
    items: Vec<Json>,
) -> Result<Vec<Value>, Memory>
    requires { base + vec_len made.old + objects_in_items (items_view items.items) ≤ 1000000 }
    ensures placed { IfOk result (λ w. (w.items, objects_of made.new.items) ≡ placed_items base (items_view items.items) (objects_of made.old.items) []) }
    ensures count { OnOk result (vec_len made.new ≡ vec_len made.old + objects_in_items (items_view items.items)) }
    ensures refused { IfErr result (λ e. e ≡ Refused) }
{
    let mut done = Vec::with_capacity(alloc, items.len())?;
    let mut left = VecDeque::from(items);
    while let Some(item) = next_item(&mut left) {
        done.push(place(alloc, base, made, shapes, names, item)?)?;
    }
    Ok(done)
}

#[cycle(place)]
fn place_members(
    alloc: Global,
    base: usize,
    made: &mut Vec<Stored>,
    shapes: &mut Shapes,
    names: &mut IndexSet<Txt>,
    members: Map<String, Json>,
) -> Result<Properties, Memory>
    requires { base + vec_len made.old + objects_in_members (members_view members.entries) ≤ 1000000 }
    ensures placed { IfOk result (λ w. (properties_of w, objects_of made.new.items) ≡ placed_members base (members_view members.entries) (objects_of made.old.items) []) }
    ensures count { OnOk result (vec_len made.new ≡ vec_len made.old + objects_in_members (members_view members.entries)) }
    ensures refused { IfErr result (λ e. e ≡ Refused) }
{
    let mut done = Properties::with_room(alloc, shapes, members.len())?;
    let mut next = 0;
    for (key, v) in members {
        let value = place(alloc, base, made, shapes, names, v)?;
        let name = shared_name(alloc, names, key.as_str())?;
        done.put(alloc, shapes, &mut next, &name, value)?;
    }
    Ok(done)
}

/// Whether JSON wants more objects than there is room for.
pub(crate) fn overfills(count: usize, v: &Json) -> bool
    requires { count < 9223372036854775808 }
    ensures { result ≡ nat_lt 1000000 (count + objects_in (view v.now)) }
{
    count + crate::json::count(v) as usize > 1_000_000
}

/// For how many objects there is to be room beside those that are made: for those that stand too, where they are fewer.
fn room(stand: usize, made: usize) -> usize
    requires { stand + made ≤ 1000000 }
    ensures { result ≡ (if nat_lt stand made then stand + made else made) }
{
    if stand < made { stand + made } else { made }
}

/// Puts objects that were made behind those that stand. Where fewer stand than were made, those that stand are put in front of
/// the others, so that no second room is taken for many.
fn put_behind(objects: &mut Vec<Stored>, made: Vec<Stored>) -> Result<(), AllocError>
    ensures put { OnOk result (objects.new.items ≡ objects.old.items ++ made.items) }
    ensures unchanged { OnErr result (objects.new.items ≡ objects.old.items) }
{
    let mut made = made;
    let count = made.len();
    if count <= objects.len() {
        return objects.append(&mut made);
    }
    made.append(objects)?;
    made.rotate_left(count);
    *objects = made;
    Ok(())
}

/// Puts the objects of JSON behind those that stand.
pub(crate) fn add(
    alloc: Global,
    objects: &mut Vec<Stored>,
    shapes: &mut Shapes,
    v: Json,
) -> Result<Value, Memory>
    requires { vec_len objects.old + objects_in (view v) ≤ 1000000 }
    ensures value { IfOk result (λ w. w ≡ (placed (length (objects_of objects.old.items)) (view v) []).0) }
    ensures made { OnOk result (objects_of objects.new.items ≡ with_json (objects_of objects.old.items) (view v)) }
    ensures unchanged { OnErr result (objects.new.items ≡ objects.old.items) }
    ensures refused { IfErr result (λ e. e ≡ Refused) }
{
    let room = room(objects.len(), crate::json::count(&v) as usize);
    let mut made = Vec::with_capacity(alloc, room)?;
    let mut names = IndexSet::new(alloc);
    let value = place(alloc, objects.len(), &mut made, shapes, &mut names, v)?;
    put_behind(objects, made)?;
    Ok(value)
}
