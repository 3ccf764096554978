//! The rows that the entries of a repeat call for, and what their scopes are told (API: ngRepeat).
ghost use Rattle.std.specs.Prelude.{◌≡◌, ◌<◌, ◌≤◌, ◌∷◌, drop, false, length, map, IfOk, OnOk};
ghost use Rattle.ng_core.specs.Frames as cores;
ghost use Rattle.ng_core.specs.Frames.{IsSound};
ghost use Rattle.ng_base.specs.Objects.{StandsAmong};
ghost use Rattle.ng_base.specs.Word.{IsWord};
ghost use Rattle.ng_blocks.specs.Plans.{planned, has_double as has_double_of};
ghost use Rattle.ng_drawing.specs.RolesOf.{entry_of, role_of};
ghost use Rattle.ng_rows.specs.Chosen.{told_on};
ghost use Rattle.ng_rows.specs.RepeatRows.{keys_of as keys_of_bodies, path_from, same_row, rows_from as rows_from_all, role_for as role_for_row, kept_rows as kept_rows_of, place_names as names_of_place, row_names, own_words, values_in, as_fault};
ghost use Rattle.ng_rows.specs.RepeatsOf.{path_of, row_of, rows_of, AreNames};
ghost use Rattle.ng_rows.specs.TrackingOf.{item_of, items_of};
ghost use Rattle.ng_language.specs.Objects.{set_name};
ghost use Rattle.ng_instances.specs.InstanceOf.{body_of};
ghost use Rattle.ng_parts.specs.RepeatedOf.{repeated_of};
ghost use Rattle.ng_store.specs.SetNames.{set_names};

use crate::splicing::{has_double, keys_of, plan_spliced};
use crate::tracking::{Item, index_name, key_value, place_of};
use ng_base::fault::{Fault, Memory};
use ng_base::lists::Sources;
use ng_base::name::{Oid, ScopeId};
use ng_base::txt::Txt;
use ng_base::value::Value;
use ng_blocks::{Plan, PlanFault, TrackKey, TrackKeys, plan};
use ng_core::core_state::Core;
use ng_drawing::roles::{Entry, Role, same_entry};
use ng_instances::instances::SharedBody;
use ng_parts::Repeated;
use ng_store::store::Store;
use std::alloc::{AllocError, Global};

/// The names that a row's scope is told, in the order in which it is told them: that of its item, that of its key where the repeat has one,
/// and those of its place.
#[derive(Drop)]
pub struct RowNames<'a> {
    repeated: &'a Repeated,
    all: Vec<Txt>,
}

/// A row that an entry calls for: the item, its track key, and the body of the row that it comes from, where one stands.
#[derive(Drop)]
pub struct Row<'a> {
    pub item: &'a Item,
    key: &'a TrackKey,
    pub from: Option<&'a SharedBody>,
}

/// What the scopes of all rows of a repeat are told by: the names, and how many entries there are.
#[derive(Drop)]
pub struct Ground<'a> {
    repeated: &'a Repeated,
    names: RowNames<'a>,
    count: u32,
    ghost same: { names.repeated.now ≡ repeated.now },
}

/// So many names are told, where the repeat names its keys.
const NAMES: usize = 8;

/// A word of ASCII characters as a text.
fn text_of(alloc: Global, word: &str) -> Result<Txt, AllocError>
    ensures { IsWord word.now → IfOk result (λ t. t ≡ word.now) }
{
    let mut text = Txt::new(alloc);
    text.push_str(word)?;
    Ok(text)
}

/// The names of a row's item and of its key.
fn own_names(alloc: Global, repeated: &Repeated) -> Result<Vec<Txt>, AllocError>
    ensures { IfOk result (λ v. v.items ≡ own_words (repeated_of repeated.now)) }
{
    let mut own = Vec::with_capacity(alloc, NAMES)?;
    own.push(repeated.name.copied()?)?;
    if let Some(key) = &repeated.key {
        own.push(key.copied()?)?;
    }
    Ok(own)
}

/// All names that a row's scope is told.
fn told_names(alloc: Global, repeated: &Repeated) -> Result<RowNames<'_>, AllocError>
    ensures repeated { IfOk result (λ n. n.repeated.now ≡ repeated.now) }
    ensures names { IfOk result AreNames }
{
    let mut all = own_names(alloc, repeated)?;
    all.push(index_name(alloc)?)?;
    all.push(text_of(alloc, "$first")?)?;
    all.push(text_of(alloc, "$middle")?)?;
    all.push(text_of(alloc, "$last")?)?;
    all.push(text_of(alloc, "$even")?)?;
    all.push(text_of(alloc, "$odd")?)?;
    Ok(RowNames { repeated, all })
}

/// What the rows of so many entries are told by.
pub fn ground_for(alloc: Global, repeated: &Repeated, count: usize) -> Result<Ground<'_>, Memory>
    ensures repeated { IfOk result (λ g. g.repeated.now ≡ repeated.now) }
    ensures names { IfOk result (λ g. AreNames g.names) }
    ensures count { IfOk result (λ g. g.count ≡ count) }
{
    Ok(Ground {
        repeated,
        names: told_names(alloc, repeated)?,
        count: place_of(count)?,
    })
}

/// A name of an object is set.
pub fn tell(store: &mut Store, object: Oid, name: &Txt, value: Value) -> Result<(), Memory>
    requires object { object.0 < length store.old }
    requires value { StandsAmong (length store.old) value }
    ensures told { OnOk result (store.new ≡ set_name store.old object.0 name.now value) }
    ensures count { length store.new ≡ length store.old }
{
    store.set(object, name, value)
}

/// Values from one on.
fn values_from(values: &[Value], first: usize) -> &[Value]
    requires { first ≤ length values.now }
    ensures { result.now ≡ drop first values.now }
{
    &values[first..]
}

/// The names of a row's scope are set to values: two, of which the first is left out where there is no key, and those of its place.
fn tell_values(
    store: &mut Store,
    object: Oid,
    ground: &Ground<'_>,
    i: u32,
    first: usize,
    one: Value,
    two: Value,
) -> Result<(), Memory>
    requires object { object.0 < length store.old }
    requires place { i < ground.now.count }
    requires first { first < 2 }
    requires one { StandsAmong (length store.old) one }
    requires two { StandsAmong (length store.old) two }
    ensures told { OnOk result (store.new ≡ set_names store.old object.0 ground.now.names.all.items (drop first (one ∷ two ∷ values_in (names_of_place ground.now.count i)))) }
    ensures count { length store.new ≡ length store.old }
{
    let is_first = i == 0;
    let is_last = i as usize + 1 == ground.count as usize;
    let is_even = i % 2 == 0;
    let values = [
        one,
        two,
        Value::Int(i as i64),
        Value::Bool(is_first),
        Value::Bool(!(is_first || is_last)),
        Value::Bool(is_last),
        Value::Bool(is_even),
        Value::Bool(!is_even),
    ];
    let names = ground.names.all.as_slice();
    store.set_all(object, names, values_from(&values, first))
}

/// The names of a row's scope are set: its item, its key, and its place.
pub fn tell_row(
    core: &mut Core,
    scope: ScopeId,
    ground: &Ground<'_>,
    i: u32,
    item: &Item,
) -> Result<(), Memory>
    requires sound { IsSound core.old }
    requires scope { scope.0 < length core.old.scopes }
    requires names { AreNames ground.now.names }
    requires place { i < ground.now.count }
    requires item { StandsAmong (length core.old.store) item.now.value }
    ensures told { OnOk result (cores.state_of core.new ≡ told_on scope.0 (row_names (repeated_of ground.now.repeated.now) ground.now.count i (item_of item.now)) (cores.state_of core.old)) }
    ensures sound { OnOk result (IsSound core.new) }
    ensures scopes { core.new.scopes ≡ core.old.scopes }
    ensures depth { core.new.depth ≡ core.old.depth }
    ensures store { length core.new.store ≡ length core.old.store }
{
    let object = core.scopes.object(scope);
    let value = item.value.copied()?;
    let store = &mut core.store;
    match &ground.repeated.key {
        None => tell_values(store, object, ground, i, 1, Value::Undefined, value),
        Some(_) => {
            let key = key_value(i, &item.entry.name)?;
            tell_values(store, object, ground, i, 0, value, key)
        }
    }
}

/// The body of the row at a place.
#[tactic(auto, using(crate::proofs::RowAt::path_at))]
fn body_from(bodies: &[SharedBody], from: Option<u32>) -> Option<&SharedBody>
    ensures { path_of result ≡ path_from (map body_of bodies.now) from }
{
    match from {
        None => None,
        Some(i) => bodies.get(i as usize),
    }
}

/// The rows that are called for.
pub fn rows_from<'a>(
    alloc: Global,
    bodies: &'a [SharedBody],
    items: &'a [Item],
    keys: &'a TrackKeys,
    sources: &Sources,
) -> Result<Vec<Row<'a>>, AllocError>
    ensures { IfOk result (λ v. rows_of v.items ≡ rows_from_all (map body_of bodies.now) (items_of items.now) keys.now sources.now) }
{
    let mut rows = Vec::with_capacity(alloc, items.len())?;
    let mut keys = keys.as_slice();
    let mut sources = sources.as_slice();
    for item in items {
        let Some((key, other_keys)) = keys.split_first() else {
            return Ok(rows);
        };
        let Some((source, other_sources)) = sources.split_first() else {
            return Ok(rows);
        };
        rows.push(Row {
            item,
            key,
            from: body_from(bodies, *source),
        })?;
        keys = other_keys;
        sources = other_sources;
    }
    Ok(rows)
}

/// The role of a row.
pub fn role_for(alloc: Global, row: &Row<'_>) -> Result<Role, Memory>
    ensures { IfOk result (λ r. role_of r ≡ role_for_row (row_of row.now)) }
{
    let entry = row.item.entry.copied(alloc)?;
    Ok(Role::Row(row.key.copied()?, entry))
}

/// Whether a body is the row of an entry under its key.
fn is_row(key: &TrackKey, entry: &Entry, role: &Role) -> bool
    ensures { result ≡ same_row key.now (entry_of entry.now) (role_of role.now) }
{
    match role {
        Role::Body => false,
        Role::Row(own, row) => key.same(own) && same_entry(entry, row),
        Role::Named(_) => false,
    }
}

/// The body of a row that is kept. It is the one that stands, unless that is for another entry.
fn kept_row(alloc: Global, body: &SharedBody, row: &Row<'_>) -> Result<SharedBody, Memory>
    ensures path { IfOk result (λ b. b.path ≡ body.now.path) }
    ensures role { IfOk result (λ b. role_of b.role ≡ role_for_row (row_of row.now)) }
{
    if is_row(row.key, &row.item.entry, body.role()) {
        Ok(body.copied()?)
    } else {
        let path = body.path().copied()?;
        Ok(SharedBody::new(alloc, path, role_for(alloc, row)?)?)
    }
}

/// The rows that are kept, in the order of their entries.
pub fn kept_rows(alloc: Global, rows: &[Row<'_>]) -> Result<Vec<SharedBody>, Memory>
    ensures { IfOk result (λ v. map body_of v.items ≡ kept_rows_of (rows_of rows.now)) }
{
    let mut kept = Vec::with_capacity(alloc, rows.len())?;
    for row in rows {
        if let Some(body) = row.from {
            kept.push(kept_row(alloc, body, row)?)?;
        }
    }
    Ok(kept)
}

/// Which rows go, and which row each entry comes from, unless two entries have one key. No two rows that stand have one.
pub fn plan_rows(
    alloc: Global,
    bodies: &[SharedBody],
    keys: &TrackKeys,
) -> Result<Result<Plan, Fault>, Memory>
    ensures plan { IfOk result (λ p. p ≡ as_fault (planned (keys_of_bodies (map body_of bodies.now)) keys.now)) }
    ensures old { OnOk result (has_double_of (keys_of_bodies (map body_of bodies.now)) ≡ false) }
{
    let _few = place_of(bodies.len())?;
    if let Some(plan) = plan_spliced(alloc, bodies, keys)? {
        return Ok(Ok(plan));
    }
    let old = keys_of(alloc, bodies)?;
    if has_double(alloc, &old)? {
        return Err(Memory::Worn);
    }
    match plan(alloc, &old, keys) {
        Err(PlanFault::Memory(memory)) => Err(memory),
        Err(PlanFault::Dupes) => Ok(Err(Fault::Dupes)),
        Ok(plan) => Ok(Ok(plan)),
    }
}
