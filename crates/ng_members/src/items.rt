//! The items of arrays and fresh lists, one by one, so that none is copied that is not asked for.
ghost use Rattle.std.specs.Prelude.{◌≡◌, ◌<◌, ◌≤◌, ◌-◌, ◌++◌, ℕ, length, map, take, drop, IfOk, Some, slice_get};
ghost use Rattle.std.specs.List.{AllByRecursion};
ghost use Rattle.ng_base.specs.Views.{prim, views_list};
ghost use Rattle.ng_base.specs.ViewOf.{view_of, views_of};
ghost use Rattle.ng_language.specs.Operators.{strict_eq, strict_same};
ghost use Rattle.ng_language.specs.Views.{ViewStands};
ghost use Rattle.ng_language.specs.Objects.{items_at};
ghost use Rattle.ng_language.specs.Unfolding.{prims};
ghost use Rattle.ng_base.specs.Objects.{StandsAmong};
ghost use Rattle.ng_members.specs.Members.{view_or_undefined};
ghost use Rattle.ng_members.specs.Methods.{is_list, items_of};

use crate::members::is_array;
use ng_base::fault::Memory;
use ng_base::heap::Heap;
use ng_base::name::Oid;
use ng_base::value::Value;
use ng_base::view::{View, Views};
use ng_store::Store;
use ng_value::copies::copied;
use ng_value::operators::{same, strict_eq};
use std::alloc::Global;

/// Whether it is an array or a fresh list.
pub fn is_list(store: &Store, v: &View) -> bool
    requires { ViewStands (length store.now) (view_of v.now) }
    ensures { result ≡ is_list store.now (view_of v.now) }
{
    match v {
        View::Prim(Value::Obj(o)) => is_array(store.kind(*o)),
        View::Prim(_) => false,
        View::List(_) => true,
        View::Rec(_) => false,
    }
}

/// How many views a fresh list has.
pub fn views_count(views: &Views) -> usize
    ensures { result ≡ length (views_list (views_of views.now)) }
{
    views.as_slice().len()
}

/// How many items a stored array has.
#[tactic(auto, using(crate::proofs::Places::counts))]
fn stored_count(store: &Store, o: Oid) -> usize
    requires { o.0 < length store.now }
    ensures { result ≡ length (prims (items_at store.now o.0)) }
{
    store.len(o) as usize
}

/// How many items there are.
pub fn items_count(store: &Store, v: &View) -> usize
    requires { ViewStands (length store.now) (view_of v.now) }
    ensures { result ≡ length (items_of store.now (view_of v.now)) }
{
    match v {
        View::Prim(Value::Obj(o)) => stored_count(store, *o),
        View::Prim(_) => 0,
        View::List(views) => views_count(views),
        View::Rec(_) => 0,
    }
}

/// An item of a stored array.
#[tactic(auto, using(crate::proofs::Places::counts))]
fn stored_item(store: &Store, o: Oid, i: usize) -> &Value
    requires object { o.0 < length store.now }
    requires below { i < length (prims (items_at store.now o.0)) }
    ensures item { slice_get (prims (items_at store.now o.0)) i ≡ Some (prim result.now) }
    ensures stands { StandsAmong (length store.now) result.now }
{
    prove!(i < store.len(o) as usize);
    store.item(o, i as u32)
}

/// A view of a fresh list.
fn listed_view(views: &Views, i: usize) -> &View
    requires { i < length (views_list (views_of views.now)) }
    ensures { slice_get (views_list (views_of views.now)) i ≡ Some (view_of result.now) }
{
    &views.as_slice()[i]
}

/// A copy of the item at a place.
pub fn item_at(alloc: Global, store: &Store, v: &View, i: usize) -> Result<View, Memory>
    requires stands { ViewStands (length store.now) (view_of v.now) }
    requires below { i < length (items_of store.now (view_of v.now)) }
    ensures item { IfOk result (λ w. slice_get (items_of store.now (view_of v.now)) i ≡ Some (view_of w)) }
    ensures stands { IfOk result (λ w. ViewStands (length store.now) (view_of w)) }
{
    match v {
        View::Prim(Value::Obj(o)) => Ok(View::of_value(stored_item(store, *o, i).copied()?)),
        View::Prim(_) => Ok(View::of_value(Value::Undefined)),
        View::List(views) => copied(alloc, listed_view(views, i)),
        View::Rec(_) => Ok(View::of_value(Value::Undefined)),
    }
}

/// `===` between a value and a view.
fn is_value(a: &Value, b: &View) -> bool
    ensures { result ≡ strict_eq (prim a.now) (view_of b.now) }
{
    match (a, b) {
        (Value::Nan, View::Prim(_)) => false,
        (_, View::Prim(b)) => same(a, b),
        _ => false,
    }
}

/// Whether the item at a place is the same by `===`.
pub fn is_item(store: &Store, v: &View, i: usize, x: &View) -> bool
    requires stands { ViewStands (length store.now) (view_of v.now) }
    requires below { i < length (items_of store.now (view_of v.now)) }
    ensures { result ≡ strict_eq (view_or_undefined (slice_get (items_of store.now (view_of v.now)) i)) (view_of x.now) }
{
    match v {
        View::Prim(Value::Obj(o)) => is_value(stored_item(store, *o, i), x),
        View::Prim(_) => false,
        View::List(views) => strict_eq(listed_view(views, i), x),
        View::Rec(_) => false,
    }
}

/// Copies of the items from one place to another, behind those that are there.
pub fn append_items(
    alloc: Global,
    store: &Store,
    v: &View,
    from: usize,
    to: usize,
    done: Views,
) -> Result<Views, Memory>
    requires stands { ViewStands (length store.now) (view_of v.now) }
    requires order { from ≤ to }
    requires within { to ≤ length (items_of store.now (view_of v.now)) }
    requires done { AllByRecursion (ViewStands (length store.now)) (views_list (views_of done)) }
    ensures stands { IfOk result (λ all. AllByRecursion (ViewStands (length store.now)) (views_list (views_of all))) }
    ensures items { IfOk result (λ all. views_list (views_of all) ≡ views_list (views_of done) ++ take (to - from) (drop from (items_of store.now (view_of v.now)))) }
{
    let mut done = done;
    for i in from..to {
        done.push(item_at(alloc, store, v, i)?)?;
    }
    Ok(done)
}
