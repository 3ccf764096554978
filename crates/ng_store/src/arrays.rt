//! What changes the items of stored arrays.
ghost use Rattle.std.specs.Prelude.{◌≡◌, ◌<◌, ◌≤◌, ◌+◌, ◌-◌, ◌++◌, ◌∷◌, [], length, vec_len, take, drop, reverse, slice_set, slice_range, IfOk, OnOk, OnErr, IfErr};
ghost use Rattle.std.specs.List.{splice};
ghost use Rattle.ng_base.specs.Meets.{Meets};
ghost use Rattle.ng_base.specs.declared.fault.Memory.TheVariants.{Refused};
ghost use Rattle.ng_language.specs.Objects.{items_at, set_items, first_item, last_item};
ghost use Rattle.ng_store.specs.Answers.{is_refused, where_short};
ghost use Rattle.ng_store.specs.ObjectOf.{objects_of};

use crate::stored::Stored;
use ng_base::fault::Memory;
use ng_base::lists::Values;
use ng_base::name::Oid;
use ng_base::value::Value;
use std::alloc::Global;

/// The most items of an array.
const MOST_ITEMS: usize = 4_294_967_295;

/// Adds an item at the end, and gives the length.
pub(crate) fn push(objects: &mut Vec<Stored>, o: Oid, v: Value) -> Result<u32, Memory>
    requires { o.0 < vec_len objects.old }
    ensures length { Meets is_refused (where_short (length (items_at (objects_of objects.old.items) o.0) + 1) (length (items_at (objects_of objects.old.items) o.0) + 1)) result }
    ensures pushed { OnOk result (objects_of objects.new.items ≡ set_items (objects_of objects.old.items) o.0 (items_at (objects_of objects.old.items) o.0 ++ v ∷ [])) }
    ensures unchanged { OnErr result (objects_of objects.new.items ≡ objects_of objects.old.items) }
{
    let stored = &mut objects[o.0 as usize];
    let count = stored.items.len();
    if count >= MOST_ITEMS {
        return Err(Memory::Worn);
    }
    stored.items.push(v)?;
    Ok(count as u32 + 1)
}

/// Adds an item at the front, and gives the length.
pub(crate) fn unshift(objects: &mut Vec<Stored>, o: Oid, v: Value) -> Result<u32, Memory>
    requires { o.0 < vec_len objects.old }
    ensures length { Meets is_refused (where_short (length (items_at (objects_of objects.old.items) o.0) + 1) (length (items_at (objects_of objects.old.items) o.0) + 1)) result }
    ensures pushed { OnOk result (objects_of objects.new.items ≡ set_items (objects_of objects.old.items) o.0 (v ∷ items_at (objects_of objects.old.items) o.0)) }
    ensures unchanged { OnErr result (objects_of objects.new.items ≡ objects_of objects.old.items) }
{
    let stored = &mut objects[o.0 as usize];
    let count = stored.items.len();
    if count >= MOST_ITEMS {
        return Err(Memory::Worn);
    }
    stored.items.insert(0, v)?;
    Ok(count as u32 + 1)
}

/// Takes the last item, Undefined where there is none.
pub(crate) fn pop(objects: &mut Vec<Stored>, o: Oid) -> Value
    requires { o.0 < vec_len objects.old }
    ensures value { result ≡ last_item (items_at (objects_of objects.old.items) o.0) }
    ensures popped { objects_of objects.new.items ≡ set_items (objects_of objects.old.items) o.0 (take (length (items_at (objects_of objects.old.items) o.0) - 1) (items_at (objects_of objects.old.items) o.0)) }
{
    let stored = &mut objects[o.0 as usize];
    pop_item(&mut stored.items)
}

fn pop_item(items: &mut Vec<Value>) -> Value
    ensures value { result ≡ last_item items.old.items }
    ensures popped { items.new.items ≡ take (length items.old.items - 1) items.old.items }
{
    match items.pop() {
        Some(v) => v,
        None => Value::Undefined,
    }
}

/// Takes the first item, Undefined where there is none.
pub(crate) fn shift(objects: &mut Vec<Stored>, o: Oid) -> Value
    requires { o.0 < vec_len objects.old }
    ensures value { result ≡ first_item (items_at (objects_of objects.old.items) o.0) }
    ensures shifted { objects_of objects.new.items ≡ set_items (objects_of objects.old.items) o.0 (drop 1 (items_at (objects_of objects.old.items) o.0)) }
{
    let stored = &mut objects[o.0 as usize];
    shift_item(&mut stored.items)
}

fn shift_item(items: &mut Vec<Value>) -> Value
    ensures value { result ≡ first_item items.old.items }
    ensures shifted { items.new.items ≡ drop 1 items.old.items }
{
    if items.is_empty() {
        return Value::Undefined;
    }
    items.remove(0)
}

/// Turns the items round.
pub(crate) fn reverse(objects: &mut Vec<Stored>, o: Oid)
    requires { o.0 < vec_len objects.old }
    ensures { objects_of objects.new.items ≡ set_items (objects_of objects.old.items) o.0 (reverse (items_at (objects_of objects.old.items) o.0)) }
{
    let stored = &mut objects[o.0 as usize];
    stored.items.reverse();
}

/// Puts a value in the place of an item.
pub(crate) fn put_item(objects: &mut Vec<Stored>, o: Oid, i: u32, v: Value)
    requires object { o.0 < vec_len objects.old }
    requires below { i < length (items_at (objects_of objects.old.items) o.0) }
    ensures { objects_of objects.new.items ≡ set_items (objects_of objects.old.items) o.0 (slice_set (items_at (objects_of objects.old.items) o.0) i v) }
{
    let stored = &mut objects[o.0 as usize];
    stored.items[i as usize] = v;
}

/// Copies of values.
fn copied_all(alloc: Global, values: &[Value]) -> Result<Vec<Value>, Memory>
    ensures copies { IfOk result (λ copies. copies.items ≡ values.now) }
    ensures refused { IfErr result (λ e. e ≡ Refused) }
{
    let mut copies = Vec::new(alloc);
    for v in values {
        copies.push(v.copied()?)?;
    }
    Ok(copies)
}

/// Copies of values, as a list.
fn listed(alloc: Global, values: &[Value]) -> Result<Values, Memory>
    ensures copies { IfOk result (λ copies. copies ≡ values.now) }
    ensures refused { IfErr result (λ e. e ≡ Refused) }
{
    let mut copies = Values::new(alloc);
    for v in values {
        copies.push(v.copied()?)?;
    }
    Ok(copies)
}

/// Puts values in the place of a range.
fn replace(items: &mut Vec<Value>, from: usize, to: usize, new: Vec<Value>) -> Result<(), Memory>
    requires order { from ≤ to }
    requires within { to ≤ vec_len items.old }
    ensures spliced { OnOk result (items.new.items ≡ splice items.old.items from to new.items) }
    ensures unchanged { OnErr result (items.new.items ≡ items.old.items) }
    ensures refused { IfErr result (λ e. e ≡ Refused) }
{
    items.splice(from..to, new)?;
    Ok(())
}

/// Takes a range out, puts values in its place, and gives what was taken.
fn splice_items(
    alloc: Global,
    items: &mut Vec<Value>,
    from: usize,
    count: usize,
    new: &[Value],
) -> Result<Values, Memory>
    requires { from + count ≤ vec_len items.old }
    ensures taken { Meets is_refused (where_short (length items.old.items - count + length new.now) (slice_range items.old.items from (from + count))) result }
    ensures spliced { OnOk result (items.new.items ≡ splice items.old.items from (from + count) new.now) }
    ensures unchanged { OnErr result (items.new.items ≡ items.old.items) }
{
    let kept = items.len() - count;
    if kept > MOST_ITEMS || new.len() > MOST_ITEMS - kept {
        return Err(Memory::Worn);
    }
    let copies = copied_all(alloc, new)?;
    let taken = listed(alloc, &items[from..from + count])?;
    replace(items, from, from + count, copies)?;
    Ok(taken)
}

/// Takes items out, puts values in their place, and gives what was taken.
pub(crate) fn splice(
    alloc: Global,
    objects: &mut Vec<Stored>,
    o: Oid,
    from: u32,
    count: u32,
    new: &[Value],
) -> Result<Values, Memory>
    requires object { o.0 < vec_len objects.old }
    requires within { from + count ≤ length (items_at (objects_of objects.old.items) o.0) }
    ensures taken { Meets is_refused (where_short (length (items_at (objects_of objects.old.items) o.0) - count + length new.now) (slice_range (items_at (objects_of objects.old.items) o.0) from (from + count))) result }
    ensures spliced { OnOk result (objects_of objects.new.items ≡ set_items (objects_of objects.old.items) o.0 (splice (items_at (objects_of objects.old.items) o.0) from (from + count) new.now)) }
    ensures unchanged { OnErr result (objects_of objects.new.items ≡ objects_of objects.old.items) }
{
    let stored = &mut objects[o.0 as usize];
    let taken = splice_items(alloc, &mut stored.items, from as usize, count as usize, new)?;
    Ok(taken)
}
