//! The order of a record's names.
ghost use Rattle.std.specs.Prelude.{◌≡◌, ◌++◌, [], map, IfOk, OnOk, IfErr};
ghost use Rattle.ng_base.specs.Views.{fields_list};
ghost use Rattle.ng_base.specs.ViewOf.{view_of, fields_of, field_of};
ghost use Rattle.ng_base.specs.declared.fault.Memory.TheVariants.{Refused};
ghost use Rattle.ng_language.specs.Unfolding.{sorted_from, with_indexed, indexed_from, with_other, others_of, in_key_order, record_order, object_order};
ghost use Rattle.ng_value.specs.Seen.{indexed_field};
ghost use Rattle.std.specs.BTreeMap.{insert_entry};
ghost use Rattle.std.specs.Map.{values_of};
ghost use Rattle.std.specs.Ordering.{nat_cmp};
ghost use Rattle.ng_base.specs.Objects.{index_of};
ghost use Rattle.ng_base.specs.Order.{txt_cmp};

use ng_base::fault::Memory;
use ng_base::index::index_of;
use ng_base::txt::Txt;
use ng_base::view::{Fields, View};
use ng_language::unfolding::Mode;
use std::alloc::Global;
use std::collections::BTreeMap;

/// Puts a field at its place by the bytes of its name.
#[tactic(auto, using(crate::proofs::Orders::orders))]
fn insert_field(done: &mut BTreeMap<Txt, View>, name: Txt, view: View) -> Result<(), Memory>
    ensures inserted { OnOk result (map field_of done.new.entries ≡ insert_entry txt_cmp (map field_of done.old.entries) name (view_of view)) }
    ensures refused { IfErr result (λ e. e ≡ Refused) }
{
    done.insert(name, view)?;
    Ok(())
}

/// Fields by the bytes of their names.
#[tactic(auto, using(crate::proofs::Orders::orders))]
fn sorted(alloc: Global, fields: Vec<(Txt, View)>) -> Result<BTreeMap<Txt, View>, Memory>
    ensures sorted { IfOk result (λ m. map field_of m.entries ≡ sorted_from [] (map field_of fields.items)) }
    ensures refused { IfErr result (λ e. e ≡ Refused) }
{
    let mut done = BTreeMap::new(alloc);
    for (name, view) in fields {
        insert_field(&mut done, name, view)?;
    }
    Ok(done)
}

/// Fields of an array's kind by their indices, and the others as they stand.
#[derive(Drop)]
struct Split {
    indexed: BTreeMap<u32, (Txt, View)>,
    others: Vec<(Txt, View)>,
}

/// Puts a field at its index.
#[tactic(auto, using(crate::proofs::Orders::orders))]
fn insert_indexed(
    done: &mut BTreeMap<u32, (Txt, View)>,
    i: u32,
    field: (Txt, View),
) -> Result<(), Memory>
    ensures inserted { OnOk result (map indexed_field done.new.entries ≡ insert_entry nat_cmp (map indexed_field done.old.entries) i (field_of field)) }
    ensures refused { IfErr result (λ e. e ≡ Refused) }
{
    done.insert(i, field)?;
    Ok(())
}

/// Puts a field at its place.
#[tactic(auto, using(crate::proofs::Orders::orders))]
fn put_field(split: &mut Split, name: Txt, view: View) -> Result<(), Memory>
    ensures indexed { OnOk result (map indexed_field split.new.indexed.entries ≡ with_indexed (map indexed_field split.old.indexed.entries) (index_of name) (name, view_of view)) }
    ensures others { OnOk result (map field_of split.new.others.items ≡ map field_of split.old.others.items ++ with_other (index_of name) (name, view_of view) []) }
    ensures refused { IfErr result (λ e. e ≡ Refused) }
{
    match index_of(&name) {
        Some(i) => {
            insert_indexed(&mut split.indexed, i, (name, view))?;
            Ok(())
        }
        None => {
            split.others.push((name, view))?;
            Ok(())
        }
    }
}

/// The fields that have an index, and the others.
#[tactic(auto, using(crate::proofs::Orders::orders))]
fn split_fields(alloc: Global, fields: Vec<(Txt, View)>) -> Result<Split, Memory>
    ensures indexed { IfOk result (λ s. map indexed_field s.indexed.entries ≡ indexed_from [] (map field_of fields.items)) }
    ensures others { IfOk result (λ s. map field_of s.others.items ≡ others_of (map field_of fields.items)) }
    ensures refused { IfErr result (λ e. e ≡ Refused) }
{
    let mut split = Split {
        indexed: BTreeMap::new(alloc),
        others: Vec::new(alloc),
    };
    for (name, view) in fields {
        put_field(&mut split, name, view)?;
    }
    Ok(split)
}

/// A record of fields in the order of keys.
#[tactic(auto, using(crate::proofs::Orders::orders))]
fn in_key_order(alloc: Global, fields: Vec<(Txt, View)>) -> Result<Fields, Memory>
    ensures fields { IfOk result (λ r. fields_list (fields_of r) ≡ in_key_order (map field_of fields.items)) }
    ensures refused { IfErr result (λ e. e ≡ Refused) }
{
    let split = split_fields(alloc, fields)?;
    let mut done = indexed_record(alloc, split.indexed)?;
    add_fields(&mut done, split.others)?;
    Ok(done)
}

/// A record of the fields that have an index.
fn indexed_record(alloc: Global, indexed: BTreeMap<u32, (Txt, View)>) -> Result<Fields, Memory>
    ensures fields { IfOk result (λ r. fields_list (fields_of r) ≡ map field_of (values_of indexed.entries)) }
    ensures refused { IfErr result (λ e. e ≡ Refused) }
{
    let mut done = Fields::new(alloc);
    for (_, (name, view)) in indexed {
        done.push(name, view)?;
    }
    Ok(done)
}

/// Adds fields at the end of a record.
fn add_fields(done: &mut Fields, fields: Vec<(Txt, View)>) -> Result<(), Memory>
    ensures added { OnOk result (fields_list (fields_of done.new) ≡ fields_list (fields_of done.old) ++ map field_of fields.items) }
    ensures refused { IfErr result (λ e. e ≡ Refused) }
{
    for (name, view) in fields {
        done.push(name, view)?;
    }
    Ok(())
}

/// A record of fields as they stand.
fn record_of(alloc: Global, fields: Vec<(Txt, View)>) -> Result<Fields, Memory>
    ensures fields { IfOk result (λ r. fields_list (fields_of r) ≡ map field_of fields.items) }
    ensures refused { IfErr result (λ e. e ≡ Refused) }
{
    let mut done = Fields::new(alloc);
    for (name, view) in fields {
        done.push(name, view)?;
    }
    Ok(done)
}

/// A record of sorted fields.
fn record_of_map(alloc: Global, fields: BTreeMap<Txt, View>) -> Result<Fields, Memory>
    ensures fields { IfOk result (λ r. fields_list (fields_of r) ≡ map field_of fields.entries) }
    ensures refused { IfErr result (λ e. e ≡ Refused) }
{
    let mut done = Fields::new(alloc);
    for (name, view) in fields {
        done.push(name, view)?;
    }
    Ok(done)
}

/// The fields of a fresh record in their order.
pub(crate) fn record_order(
    alloc: Global,
    mode: Mode,
    fields: Vec<(Txt, View)>,
) -> Result<Fields, Memory>
    ensures fields { IfOk result (λ r. fields_list (fields_of r) ≡ record_order mode (map field_of fields.items)) }
    ensures refused { IfErr result (λ e. e ≡ Refused) }
{
    match mode {
        Mode::Deep => record_of_map(alloc, sorted(alloc, fields)?),
        _ => in_key_order(alloc, fields),
    }
}

/// The properties of an object in their order.
pub(crate) fn object_order(
    alloc: Global,
    mode: Mode,
    fields: Vec<(Txt, View)>,
) -> Result<Fields, Memory>
    ensures fields { IfOk result (λ r. fields_list (fields_of r) ≡ object_order mode (map field_of fields.items)) }
    ensures refused { IfErr result (λ e. e ≡ Refused) }
{
    match mode {
        Mode::Deep => record_of_map(alloc, sorted(alloc, fields)?),
        _ => record_of(alloc, fields),
    }
}
