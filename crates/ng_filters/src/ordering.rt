//! The filter `orderBy`.
ghost use Rattle.std.specs.Prelude.{◌≡◌, ◌<◌, length, map, IfOk, OnOk, IfErr};
ghost use Rattle.std.specs.Ordering.{is_lt};
ghost use Rattle.ng_base.specs.Faults.{is_memory};
ghost use Rattle.ng_base.specs.Meets.{Gives};
ghost use Rattle.ng_base.specs.Views.{views_list};
ghost use Rattle.ng_base.specs.ViewOf.{view_of, views_of};
ghost use Rattle.ng_base.specs.declared.fault.Memory.TheVariants.{Refused};
ghost use Rattle.ng_language.specs.Operators.{truthy};
ghost use Rattle.ng_language.specs.Views.{ViewStands};
ghost use Rattle.ng_filters.specs.Parts.{items};
ghost use Rattle.ng_filters.specs.Ordering.{differ, turned, key_cmp, keys_at, keys_cmp, in_order, is_before, ordered};
ghost use Rattle.ng_filters.specs.Seen.{seen, row_seen, with_keys};

use crate::keys::{Key, key_cmp, key_of};
use crate::parts::{copied_item, count, item, member_at};
use crate::predicates::{Predicate, predicates};
use crate::view_ref::{Shape, ViewRef, of_view, shape_of};
use ng_base::fault::{Fault, Memory};
use ng_base::view::{View, Views};
use ng_store::Store;
use ng_value::copies::copied;
use ng_value::operators::truthy;
use std::alloc::{AllocError, Global};
use std::cmp::Ordering;

/// An item with what it is ordered by, predicate by predicate.
#[derive(Drop)]
pub(crate) struct Row {
    pub(crate) item: View,
    pub(crate) keys: Vec<Key>,
}

/// What an item is ordered by.
fn keys_at(
    alloc: Global,
    store: &Store,
    v: ViewRef<'_>,
    predicates: &[Predicate],
) -> Result<Vec<Key>, Memory>
    requires { ViewStands (length store.now) (seen v) }
    ensures keys { IfOk result (λ keys. keys.items ≡ keys_at store.now predicates.now (seen v.entry)) }
    ensures refused { IfErr result (λ e. e ≡ Refused) }
{
    let mut done = Vec::with_capacity(alloc, predicates.len())?;
    for p in predicates {
        done.push(key_of(alloc, member_at(store, v, &p.path))?)?;
    }
    Ok(done)
}

/// The items of an array, each with what it is ordered by.
fn rows(
    alloc: Global,
    store: &Store,
    v: ViewRef<'_>,
    predicates: &[Predicate],
) -> Result<Vec<Row>, Memory>
    requires { ViewStands (length store.now) (seen v) }
    ensures rows { IfOk result (λ rows. map row_seen rows.items ≡ map (with_keys store.now predicates.now) (items store.now (seen v.entry))) }
    ensures refused { IfErr result (λ e. e ≡ Refused) }
{
    let count = count(store, v);
    let mut done = Vec::with_capacity(alloc, count)?;
    for i in 0..count {
        let keys = keys_at(alloc, store, item(store, v, i), predicates)?;
        done.push(Row {
            item: copied_item(alloc, store, v, i)?,
            keys,
        })?;
    }
    Ok(done)
}

fn differ(a: bool, b: bool) -> bool
    ensures { result ≡ differ a b }
{
    if a { !b } else { b }
}

/// Two keys in rising or in falling order.
fn turned(falling: bool, a: &Key, b: &Key) -> Ordering
    ensures { result ≡ turned falling key_cmp a.now b.now }
{
    if falling {
        key_cmp(b, a)
    } else {
        key_cmp(a, b)
    }
}

/// Two items in order: the first predicate that tells them apart decides.
fn keys_cmp(reversed: bool, predicates: &[Predicate], a: &[Key], b: &[Key]) -> Ordering
    ensures { result ≡ keys_cmp reversed predicates.now a.now b.now }
{
    let mut left = a;
    let mut right = b;
    let mut wanted = predicates;
    while let Some((p, others)) = wanted.split_first() {
        match (left.split_first(), right.split_first()) {
            (None, None) => return Ordering::Equal,
            (None, _) => return Ordering::Less,
            (_, None) => return Ordering::Greater,
            (Some((k, more)), Some((l, rest))) => {
                match turned(differ(reversed, p.falling), k, l) {
                    Ordering::Equal => (),
                    order => return order,
                }
                left = more;
                right = rest;
            }
        }
        wanted = others;
    }
    Ordering::Equal
}

/// Whether a row comes before another, as std asks for it.
fn row_cmp(reversed: bool, predicates: &[Predicate], a: &Row, b: &Row) -> Ordering
    ensures { result ≡ keys_cmp reversed predicates.now a.now.keys.items b.now.keys.items }
{
    keys_cmp(reversed, predicates, a.keys.as_slice(), b.keys.as_slice())
}

/// Sorts rows, so that those of which neither is before the other keep their places.
fn sort(rows: &mut Vec<Row>, reversed: bool, predicates: &[Predicate]) -> Result<(), AllocError>
    ensures { OnOk result (rows.new.items ≡ in_order (λ r s. is_lt (keys_cmp reversed predicates.now r.keys.items s.keys.items)) rows.old.items) }
{
    rows.sort_by(|a, b| row_cmp(reversed, predicates, a, b))
}

/// The items of rows.
fn items_of(alloc: Global, rows: Vec<Row>) -> Result<Views, Memory>
    ensures items { IfOk result (λ views. views_list (views_of views) ≡ map (λ r. view_of r.item) rows.items) }
    ensures refused { IfErr result (λ e. e ≡ Refused) }
{
    let mut done = Views::new(alloc);
    for row in rows {
        done.push(row.item)?;
    }
    Ok(done)
}

/// The items of an array in order.
fn items_in_order(
    alloc: Global,
    store: &Store,
    v: ViewRef<'_>,
    reversed: bool,
    predicates: &[Predicate],
) -> Result<Views, Memory>
    requires { ViewStands (length store.now) (seen v) }
    ensures items { IfOk result (λ views. views_list (views_of views) ≡ in_order (is_before store.now reversed predicates.now) (items store.now (seen v.entry))) }
    ensures refused { IfErr result (λ e. e ≡ Refused) }
{
    let mut rows = rows(alloc, store, v, predicates)?;
    sort(&mut rows, reversed, predicates)?;
    let sorted = items_of(alloc, rows)?;
    Ok(sorted)
}

/// Of an array the items in order; other input itself.
#[tactic(auto, using(crate::proofs::ViewParts::view_parts))]
pub(crate) fn ordered(
    alloc: Global,
    store: &Store,
    v: &View,
    p: &View,
    reversed: &View,
) -> Result<View, Fault>
    requires value { ViewStands (length store.now) (view_of v.now) }
    requires predicates { ViewStands (length store.now) (view_of p.now) }
    ensures { Gives is_memory view_of (ordered store.now (view_of v.now) (view_of p.now) (view_of reversed.now)) result }
{
    match shape_of(store, of_view(v)) {
        Shape::Items => {
            let predicates = predicates(alloc, store, of_view(p))?;
            let reversed = truthy(reversed);
            let items = items_in_order(alloc, store, of_view(v), reversed, predicates.as_slice())?;
            Ok(View::of_list(items))
        }
        _ => Ok(copied(alloc, v)?),
    }
}
