//! The entries of a repeat's collection as values, and their track keys (API: ngRepeat, "Tracking and Duplicates").
ghost use Rattle.std.specs.Fmt.{signed_decimal};
ghost use Rattle.std.specs.Prelude.{ℕ, ◌≡◌, ◌<◌, ◌≤◌, [], ◌∷◌, length, pos, IfOk, IfSome, OnOk};
ghost use Rattle.ng_core.specs.Frames.{state_of, IsSound, Acts};
ghost use Rattle.ng_base.specs.Faults.{is_memory};
ghost use Rattle.ng_base.specs.Meets.{Meets};
ghost use Rattle.ng_base.specs.Objects.{StandsAmong};
ghost use Rattle.ng_base.specs.ViewOf.{view_of};
ghost use Rattle.ng_base.specs.Views.{prim};
ghost use Rattle.ng_base.specs.declared.value.Value.TheVariants.{Int, Undefined};
ghost use Rattle.ng_drawing.specs.RolesOf.{entry_of, entries_of};
ghost use Rattle.ng_rows.specs.RepeatRows.{item_made, items_made};
ghost use Rattle.ng_rows.specs.Tracking.{index_name as index_name_of, key_value as key_value_of, track_locals as track_locals_of, plain_key as plain_key_of, key_local, tracked_by, tracked_text, track_key as track_key_of, track_keys as track_keys_of};
ghost use Rattle.ng_rows.specs.TrackingOf.{item_of, items_of, AreLocals, EntriesStand, ItemsStand};
ghost use Rattle.ng_language.specs.Texts.{to_text as to_text_of};
ghost use Rattle.ng_language.specs.Views.{ViewStands};
ghost use Rattle.ng_parts.specs.RepeatedOf.{track_of, repeated_of};
ghost use Rattle.ng_value.specs.Snaps.{snap_of};
ghost use Rattle.ng_members.specs.Leaves.{LocalsStand};

use ng_base::fault::{Fault, Memory};
use ng_base::locals::Locals;
use ng_base::name::Oid;
use ng_base::txt::Txt;
use ng_base::value::Value;
use ng_base::view::View;
use ng_blocks::{TrackKey, TrackKeys};
use ng_core::binding::value_in;
use ng_core::core_state::Core;
use ng_core::keeping::keep;
use ng_drawing::roles::Entry;
use ng_parts::{Repeated, Track};
use ng_store::store::Store;
use ng_value::snapshot::Snap;
use ng_value::texts::to_text;
use ng_view::{seen_value, view};
use std::alloc::{AllocError, Global};

/// An entry with its value; that of a fresh list or record is a new object.
#[derive(Drop)]
pub struct Item {
    pub entry: Entry,
    pub value: Value,
}

/// A value, unless it is a fresh list or record.
fn plain_value(v: &View) -> Result<Option<Value>, AllocError>
    ensures value { IfOk result (λ o. IfSome o (λ w. view_of v.now ≡ prim w)) }
    ensures stands { (n : ℕ) → ViewStands n (view_of v.now) → IfOk result (λ o. IfSome o (λ w. StandsAmong n w)) }
{
    match v {
        View::Prim(value) => Ok(Some(value.copied()?)),
        View::List(_) => Ok(None),
        View::Rec(_) => Ok(None),
    }
}

/// An entry gets its value. Most have one already, so that nothing is made.
fn make_item(core: &mut Core, alloc: Global, entry: Entry) -> Result<Item, Fault>
    requires sound { IsSound core.old }
    requires entry { ViewStands (length core.old.store) (snap_of entry.value) }
    ensures run { Acts item_of result (state_of core.new) (item_made (entry_of entry) (state_of core.old)) }
    ensures sound { IsSound core.new }
    ensures depth { core.new.depth ≡ core.old.depth }
    ensures grown { length core.old.store ≤ length core.new.store }
    ensures stands { IfOk result (λ x. StandsAmong (length core.new.store) x.value) }
{
    if let Some(value) = plain_value(entry.value.view())? {
        return Ok(Item { entry, value });
    }
    let view = keep(core, alloc, entry.value.view())?;
    Ok(Item {
        entry,
        value: value_in(view),
    })
}

/// Entries get their values, in order: each fresh list or record becomes a new object.
pub fn make_items(core: &mut Core, alloc: Global, entries: Vec<Entry>) -> Result<Vec<Item>, Fault>
    requires sound { IsSound core.old }
    requires entries { EntriesStand (length core.old.store) (entries_of entries.items) }
    ensures run { Acts (λ v. items_of v.items) result (state_of core.new) (items_made (entries_of entries.items) [] (state_of core.old)) }
    ensures sound { IsSound core.new }
    ensures depth { core.new.depth ≡ core.old.depth }
    ensures grown { length core.old.store ≤ length core.new.store }
    ensures stands { IfOk result (λ v. ItemsStand (length core.new.store) (items_of v.items)) }
{
    let mut items = Vec::with_capacity(alloc, entries.len())?;
    for entry in entries {
        items.push(make_item(core, alloc, entry)?)?;
    }
    Ok(items)
}

/// The name `$index`.
pub(crate) fn index_name(alloc: Global) -> Result<Txt, AllocError>
    ensures { IfOk result (λ t. t ≡ index_name_of) }
{
    let mut name = Txt::new(alloc);
    name.push_word("$index")?;
    Ok(name)
}

/// The key of an entry as programs see it: the name of a named value, or the place of an item.
pub(crate) fn key_value(i: u32, name: &Option<Txt>) -> Result<Value, AllocError>
    ensures { IfOk result (λ v. v ≡ key_value_of i name.now) }
{
    match name {
        None => Ok(Value::Int(i as i64)),
        Some(name) => Ok(Value::Text(name.copied()?)),
    }
}

/// The place of an entry as programs see it.
fn place_value(i: u32) -> Value
    ensures { result ≡ Int (pos i) }
{
    Value::Int(i as i64)
}

/// The locals of a track expression, by their names alone.
fn track_names(alloc: Global, repeated: &Repeated) -> Result<Locals, AllocError>
    ensures { IfOk result (λ ls. ls ≡ (index_name_of, Undefined) ∷ (repeated.now.name, Undefined) ∷ key_local repeated.now.key Undefined) }
{
    let mut locals = Locals::new(alloc);
    locals.push(index_name(alloc)?, Value::Undefined)?;
    locals.push(repeated.name.copied()?, Value::Undefined)?;
    if let Some(key) = &repeated.key {
        locals.push(key.copied()?, Value::Undefined)?;
    }
    Ok(locals)
}

/// The locals of a track expression get the values of an entry.
fn track_values(
    locals: &mut Locals,
    repeated: &Repeated,
    i: u32,
    item: &Item,
) -> Result<(), AllocError>
    requires { AreLocals (repeated_of repeated.now) locals.old }
    ensures locals { OnOk result (locals.new ≡ track_locals_of (repeated_of repeated.now) i (item_of item.now)) }
    ensures names { AreLocals (repeated_of repeated.now) locals.new }
{
    let value = item.value.copied()?;
    let key = key_value(i, &item.entry.name)?;
    let place = place_value(i);
    locals.put(0, place);
    locals.put(1, value);
    match &repeated.key {
        None => Ok(()),
        Some(_) => {
            locals.put(2, key);
            Ok(())
        }
    }
}

/// The key of an entry without a track expression.
fn plain_key(i: u32, name: &Option<Txt>, value: &Snap) -> Result<TrackKey, AllocError>
    ensures { IfOk result (λ k. k ≡ plain_key_of i name.now (snap_of value.now)) }
{
    match name {
        Some(name) => Ok(TrackKey::Text(name.copied()?)),
        None => match value.view() {
            View::Prim(value) => Ok(TrackKey::Prim(value.copied()?)),
            View::List(_) => Ok(TrackKey::Place(i)),
            View::Rec(_) => Ok(TrackKey::Place(i)),
        },
    }
}

/// The text of a whole number.
fn number_text(alloc: Global, number: i64) -> Result<Txt, AllocError>
    ensures { IfOk result (λ t. t ≡ signed_decimal number) }
{
    let mut text = Txt::new(alloc);
    text.push_signed(number)?;
    Ok(text)
}

/// The text of a value that is no fresh list or record. That of a number is spelled at once, since keys are numbers most often.
#[tactic(auto, unfolding(ng_language::specs::Unfolding::level_limit, ng_language::specs::Unfolding::node_limit))]
fn plain_text(alloc: Global, store: &Store, value: &Value) -> Result<Txt, Fault>
    requires { ViewStands (length store.now) (prim value.now) }
    ensures { Meets is_memory (to_text_of store.now (prim value.now)) result }
{
    match value {
        Value::Int(number) => Ok(number_text(alloc, *number)?),
        _ => to_text(alloc, store, &View::of_value(value.copied()?)),
    }
}

/// The text of what a track expression gives. The value of a dotted path is read where it stands.
#[tactic(auto, using(ng_purity::proofs::Pure::pure_are, ng_purity::proofs::Pure::known_are))]
fn tracked_text(
    alloc: Global,
    store: &Store,
    object: Oid,
    locals: &Locals,
    track: &Track,
) -> Result<Txt, Fault>
    requires object { object.0 < length store.now }
    requires locals { LocalsStand (length store.now) locals.now }
    ensures { Meets is_memory (tracked_text store.now object.0 locals.now (track_of track.now)) result }
{
    match seen_value(store, object, locals, track.program()) {
        Some(value) => plain_text(alloc, store, value),
        None => {
            let value = view(alloc, store, object, locals, track.program())?;
            to_text(alloc, store, &value)
        }
    }
}

/// The key of an entry by a track expression: its text.
fn tracked_key(
    alloc: Global,
    store: &Store,
    object: Oid,
    locals: &Locals,
    track: &Track,
) -> Result<TrackKey, Fault>
    requires object { object.0 < length store.now }
    requires locals { LocalsStand (length store.now) locals.now }
    ensures { Meets is_memory (tracked_by store.now object.0 locals.now (track_of track.now)) result }
{
    let text = tracked_text(alloc, store, object, locals, track)?;
    Ok(TrackKey::Text(text))
}

/// The key of an entry. Where it has a track expression the locals get the entry's values.
fn track_key(
    alloc: Global,
    store: &Store,
    object: Oid,
    repeated: &Repeated,
    locals: &mut Locals,
    i: u32,
    item: &Item,
) -> Result<TrackKey, Fault>
    requires object { object.0 < length store.now }
    requires item { StandsAmong (length store.now) item.now.value }
    requires names { AreLocals (repeated_of repeated.now) locals.old }
    ensures key { Meets is_memory (track_key_of store.now object.0 (repeated_of repeated.now) (repeated_of repeated.now).track i (item_of item.now)) result }
    ensures names { AreLocals (repeated_of repeated.now) locals.new }
{
    match &repeated.track {
        None => Ok(plain_key(i, &item.entry.name, &item.entry.value)?),
        Some(track) => {
            track_values(locals, repeated, i, item)?;
            tracked_key(alloc, store, object, locals, track)
        }
    }
}

/// The place of an entry as a number of 32 bits.
pub fn place_of(i: usize) -> Result<u32, Memory>
    ensures { IfOk result (λ n. n ≡ i) }
{
    if i < 4_294_967_295 {
        Ok(i as u32)
    } else {
        Err(Memory::Worn)
    }
}

/// The keys of entries, in order.
pub fn track_keys(
    alloc: Global,
    store: &Store,
    object: Oid,
    repeated: &Repeated,
    items: &[Item],
) -> Result<TrackKeys, Fault>
    requires object { object.0 < length store.now }
    requires items { ItemsStand (length store.now) (items_of items.now) }
    ensures { Meets is_memory (track_keys_of store.now object.0 (repeated_of repeated.now) 0 [] (items_of items.now)) result }
{
    let mut keys = TrackKeys::new(alloc);
    let mut locals = track_names(alloc, repeated)?;
    for i in 0..items.len() {
        let place = place_of(i)?;
        let key = track_key(
            alloc,
            store,
            object,
            repeated,
            &mut locals,
            place,
            &items[i],
        )?;
        keys.push(key)?;
    }
    Ok(keys)
}
