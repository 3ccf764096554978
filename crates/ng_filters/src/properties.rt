//! The own properties of objects, in the order of keys.
ghost use Rattle.std.specs.Prelude.{◌≡◌, ◌++◌, ◌∷◌, [], ◌<◌, length, map, IfOk, OnOk, IfErr, decimal};
ghost use Rattle.std.specs.List.{AllByRecursion};
ghost use Rattle.std.specs.BTreeMap.{insert_entry};
ghost use Rattle.std.specs.Map.{values_of};
ghost use Rattle.std.specs.Ordering.{nat_cmp};
ghost use Rattle.ng_base.specs.Objects.{object_at, index_of};
ghost use Rattle.ng_base.specs.ViewOf.{view_of, field_of};
ghost use Rattle.ng_base.specs.declared.fault.Memory.TheVariants.{Refused};
ghost use Rattle.ng_language.specs.Unfolding.{own_entries, in_key_order, with_indexed, with_other, indexed_from, others_of, Field};
ghost use Rattle.ng_language.specs.Views.{ViewStands};
ghost use Rattle.ng_filters.specs.Parts.{properties, indexed};
ghost use Rattle.ng_filters.specs.Seen.{seen, field_seen, indexed_seen};

use crate::view_ref::{ViewRef, of_value, of_view};
use ng_base::fault::Memory;
use ng_base::heap::Heap;
use ng_base::index::index_of;
use ng_base::name::Oid;
use ng_base::txt::Txt;
use ng_base::view::View;
use ng_store::Store;
use std::alloc::Global;
use std::collections::BTreeMap;

/// A name with its value.
#[derive(Drop)]
pub(crate) struct Property<'a> {
    pub(crate) name: Txt,
    pub(crate) value: ViewRef<'a>,
}

/// The own properties of an object of a store.
fn stored(alloc: Global, store: &Store, o: Oid) -> Result<Vec<Property<'_>>, Memory>
    requires { o.0 < length store.now }
    ensures properties { IfOk result (λ v. map field_seen v.items ≡ own_entries (object_at store.now o.0)) }
    ensures refused { IfErr result (λ e. e ≡ Refused) }
{
    let names = store.names(alloc, o)?;
    let mut done = Vec::new(alloc);
    for name in names.as_slice() {
        if let Some(v) = store.own(o, name) {
            done.push(Property {
                name: name.copied()?,
                value: of_value(v),
            })?;
        }
    }
    Ok(done)
}

/// The name of an index.
fn index_name(alloc: Global, i: usize) -> Result<Txt, Memory>
    ensures name { IfOk result (λ t. t ≡ decimal i) }
    ensures refused { IfErr result (λ e. e ≡ Refused) }
{
    let mut name = Txt::new(alloc);
    name.push_number(i as u64)?;
    Ok(name)
}

/// The items of a fresh list under their indices.
fn listed(alloc: Global, views: &[View]) -> Result<Vec<Property<'_>>, Memory>
    ensures properties { IfOk result (λ v. map field_seen v.items ≡ indexed 0 (map view_of views.now)) }
    ensures refused { IfErr result (λ e. e ≡ Refused) }
{
    let mut done = Vec::new(alloc);
    for i in 0..views.len() {
        done.push(Property {
            name: index_name(alloc, i)?,
            value: of_view(&views[i]),
        })?;
    }
    Ok(done)
}

/// Fields with an index, and the others as they stand.
#[derive(Drop)]
struct Split<'a> {
    indexed: BTreeMap<u32, Property<'a>>,
    others: Vec<Property<'a>>,
}

/// Puts a property at its index.
fn insert_indexed<'a>(
    done: &mut BTreeMap<u32, Property<'a>>,
    i: u32,
    property: Property<'a>,
) -> Result<(), Memory>
    ensures inserted { OnOk result (map indexed_seen done.new.entries ≡ insert_entry nat_cmp (map indexed_seen done.old.entries) i (field_seen property.entry)) }
    ensures refused { IfErr result (λ e. e ≡ Refused) }
{
    done.insert(i, property)?;
    Ok(())
}

/// Puts a property at its place.
fn put<'a>(split: &mut Split<'a>, property: Property<'a>) -> Result<(), Memory>
    ensures indexed { OnOk result (map indexed_seen split.new.indexed.entries ≡ with_indexed (map indexed_seen split.old.indexed.entries) (index_of property.entry.name) (field_seen property.entry)) }
    ensures others { OnOk result (map field_seen split.new.others.items ≡ map field_seen split.old.others.items ++ with_other (index_of property.entry.name) (field_seen property.entry) []) }
    ensures refused { IfErr result (λ e. e ≡ Refused) }
{
    match index_of(&property.name) {
        Some(i) => insert_indexed(&mut split.indexed, i, property),
        None => {
            split.others.push(property)?;
            Ok(())
        }
    }
}

/// The fields that have an index, and the others.
fn split_fields<'a>(alloc: Global, fields: &'a [(Txt, View)]) -> Result<Split<'a>, Memory>
    ensures indexed { IfOk result (λ s. map indexed_seen s.indexed.entries ≡ indexed_from [] (map field_of fields.now)) }
    ensures others { IfOk result (λ s. map field_seen s.others.items ≡ others_of (map field_of fields.now)) }
    ensures refused { IfErr result (λ e. e ≡ Refused) }
{
    let mut split = Split {
        indexed: BTreeMap::new(alloc),
        others: Vec::new(alloc),
    };
    for f in fields {
        let property = Property {
            name: f.0.copied()?,
            value: of_view(&f.1),
        };
        put(&mut split, property)?;
    }
    Ok(split)
}

/// The properties of a map by index.
fn values<'a>(
    alloc: Global,
    indexed: BTreeMap<u32, Property<'a>>,
) -> Result<Vec<Property<'a>>, Memory>
    ensures values { IfOk result (λ v. v.items ≡ values_of indexed.entry.entries) }
    ensures refused { IfErr result (λ e. e ≡ Refused) }
{
    let mut done = Vec::new(alloc);
    for (_, property) in indexed {
        done.push(property)?;
    }
    Ok(done)
}

/// Adds properties at the end.
fn add<'a>(done: &mut Vec<Property<'a>>, more: Vec<Property<'a>>) -> Result<(), Memory>
    ensures added { OnOk result (done.new.items ≡ done.old.items ++ more.entry.items) }
    ensures refused { IfErr result (λ e. e ≡ Refused) }
{
    for property in more {
        done.push(property)?;
    }
    Ok(())
}

/// The fields of a fresh record in the order of keys.
fn ordered<'a>(alloc: Global, fields: &'a [(Txt, View)]) -> Result<Vec<Property<'a>>, Memory>
    ensures properties { IfOk result (λ v. map field_seen v.items ≡ in_key_order (map field_of fields.now)) }
    ensures refused { IfErr result (λ e. e ≡ Refused) }
{
    let split = split_fields(alloc, fields)?;
    let mut done = values(alloc, split.indexed)?;
    add(&mut done, split.others)?;
    Ok(done)
}

/// The own properties of a value, as they stand.
fn own_properties<'a>(
    alloc: Global,
    store: &'a Store,
    v: ViewRef<'a>,
) -> Result<Vec<Property<'a>>, Memory>
    requires { ViewStands (length store.now) (seen v) }
    ensures properties { IfOk result (λ own. map field_seen own.items ≡ properties store.now (seen v.entry)) }
    ensures refused { IfErr result (λ e. e ≡ Refused) }
{
    match v {
        ViewRef::Obj(o) => stored(alloc, store, o),
        ViewRef::List(views) => listed(alloc, views.as_slice()),
        ViewRef::Rec(fields) => ordered(alloc, fields.as_slice()),
        _ => Ok(Vec::new(alloc)),
    }
}

/// An object's own properties; those of an array are its items.
pub(crate) fn properties<'a>(
    alloc: Global,
    store: &'a Store,
    v: ViewRef<'a>,
) -> Result<Vec<Property<'a>>, Memory>
    requires { ViewStands (length store.now) (seen v) }
    ensures properties { IfOk result (λ own. map field_seen own.items ≡ properties store.now (seen v.entry)) }
    ensures stands { IfOk result (λ own. AllByRecursion (λ (f : Field). ViewStands (length store.now) f.1) (map field_seen own.items)) }
    ensures refused { IfErr result (λ e. e ≡ Refused) }
{
    store.sound();
    let own = own_properties(alloc, store, v)?;
    Ok(own)
}
