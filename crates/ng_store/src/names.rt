//! The names of an object in the order of keys.
ghost use Rattle.std.specs.Prelude.{◌≡◌, ◌<◌, ◌^◌, ◌++◌, [], IfOk, OnOk, IfErr, map, length, decimal};
ghost use Rattle.std.specs.List.{range_with_len};
ghost use Rattle.ng_base.specs.Objects.{names_of, indices_from, with_index, other_names};
ghost use Rattle.ng_base.specs.declared.fault.Memory.TheVariants.{Refused};
ghost use Rattle.ng_store.specs.NamesOf.{all_nameless};
ghost use Rattle.ng_store.specs.ObjectOf.{object_of, properties_of};

use crate::properties::Properties;
use crate::stored::Stored;
use ng_base::fault::Memory;
use ng_base::heap::ObjKind;
use ng_base::index::index_of;
use ng_base::lists::Names;
use ng_base::txt::Txt;
use std::alloc::Global;
use std::collections::BTreeSet;

/// The name of an index.
fn index_name(alloc: Global, i: u32) -> Result<Txt, Memory>
    ensures name { IfOk result (λ t. t ≡ decimal i) }
    ensures refused { IfErr result (λ e. e ≡ Refused) }
{
    let mut name = Txt::new(alloc);
    name.push_number(i as u64)?;
    Ok(name)
}

/// The names of an array's items.
fn item_names(alloc: Global, count: u32) -> Result<Names, Memory>
    ensures names { IfOk result (λ names. names ≡ map decimal (range_with_len 0 count)) }
    ensures refused { IfErr result (λ e. e ≡ Refused) }
{
    let mut names = Names::new(alloc);
    for i in 0..count {
        names.push(index_name(alloc, i)?)?;
    }
    Ok(names)
}

/// The indices among the names of properties, ascending.
fn indices(alloc: Global, names: &[Txt]) -> Result<BTreeSet<u32>, Memory>
    ensures indices { IfOk result (λ s. s.keys ≡ indices_from [] (all_nameless names.now)) }
    ensures refused { IfErr result (λ e. e ≡ Refused) }
{
    let mut indices = BTreeSet::new(alloc);
    for name in names {
        if let Some(i) = index_of(name) {
            indices.insert(i)?;
        }
    }
    Ok(indices)
}

/// The names of indices, and behind them the names that are no indices.
fn all_names(alloc: Global, indices: &BTreeSet<u32>, own: &[Txt]) -> Result<Names, Memory>
    ensures names { IfOk result (λ names. names ≡ map decimal indices.now.keys ++ other_names (all_nameless own.now)) }
    ensures refused { IfErr result (λ e. e ≡ Refused) }
{
    let mut names = index_names(alloc, indices)?;
    for name in own {
        if index_of(name).is_none() {
            names.push(name.copied()?)?;
        }
    }
    Ok(names)
}

/// The names of indices.
fn index_names(alloc: Global, indices: &BTreeSet<u32>) -> Result<Names, Memory>
    ensures names { IfOk result (λ names. names ≡ map decimal indices.now.keys) }
    ensures refused { IfErr result (λ e. e ≡ Refused) }
{
    let mut names = Names::new(alloc);
    for i in indices {
        names.push(index_name(alloc, *i)?)?;
    }
    Ok(names)
}

/// The names of properties: indices ascending, then the others in order of insertion.
fn property_names(alloc: Global, properties: &Properties) -> Result<Names, Memory>
    ensures names { IfOk result (λ names. names ≡ map decimal (indices_from [] (properties_of properties.now)) ++ other_names (properties_of properties.now)) }
    ensures refused { IfErr result (λ e. e ≡ Refused) }
{
    let own = properties.names();
    let indices = indices(alloc, own)?;
    let all = all_names(alloc, &indices, own)?;
    Ok(all)
}

/// The object's own names: indices ascending, then the others in order of insertion.
pub(crate) fn names_of(alloc: Global, x: &Stored) -> Result<Names, Memory>
    requires { length x.now.items.items < 2 ^ 32 }
    ensures names { IfOk result (λ names. names ≡ names_of (object_of x.now)) }
    ensures refused { IfErr result (λ e. e ≡ Refused) }
{
    match x.kind {
        ObjKind::Array => item_names(alloc, x.items.len() as u32),
        _ => property_names(alloc, &x.properties),
    }
}
