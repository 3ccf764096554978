//! The methods of arrays and fresh lists.
ghost use Rattle.std.specs.Prelude.{◌≡◌, ◌<◌, ◌++◌, ℕ, length, map, drop, IfOk, OnOk};
ghost use Rattle.std.specs.List.{AllByRecursion};
ghost use Rattle.ng_base.specs.Faults.{is_memory};
ghost use Rattle.ng_base.specs.Meets.{Meets, Gives};
ghost use Rattle.ng_base.specs.Views.{list, views_from, views_list};
ghost use Rattle.ng_base.specs.ViewOf.{view_of, views_of};
ghost use Rattle.ng_language.specs.Views.{ViewStands};
ghost use Rattle.ng_members.specs.Members.{undefined};
ghost use Rattle.ng_members.specs.Methods.{items_of, place_of, place_or_none, argument, from_end, place_at, sliced, parts_of, concatenated, separator, part_text, joined_behind, joined_items, joined};

use crate::items::{append_items, is_item, is_list, item_at, items_count};
use crate::members::{count, undefined};
use ng_base::fault::{Fault, Memory};
use ng_base::txt::Txt;
use ng_base::value::Value;
use ng_base::view::{View, Views};
use ng_store::Store;
use ng_value::copies::copied;
use ng_value::numbers::view_num;
use ng_value::texts::to_text;
use std::alloc::Global;

/// The view of a fresh list.
#[tactic(auto, using(ng_value::proofs::ViewParts::view_parts))]
pub fn list_view(views: Views) -> View
    ensures exact { view_of result ≡ list (views_from (views_list (views_of views))) }
    ensures stands { (n : ℕ) → AllByRecursion (ViewStands n) (views_list (views_of views)) → ViewStands n (view_of result) }
{
    View::of_list(views)
}

/// The view at a place of some views; one that is missing is undefined.
fn view_or<'a>(views: &'a [View], i: usize, missing: &'a View) -> &'a View
    requires { view_of missing.now ≡ undefined }
    ensures { view_of result.now ≡ argument (map view_of views.now) i }
{
    match views.get(i) {
        Some(v) => v,
        None => missing,
    }
}

/// An argument; one that is missing is undefined.
#[tactic(auto, using(crate::proofs::Stand::one_stands))]
pub fn argument<'a>(args: &'a Views, i: usize, missing: &'a View) -> &'a View
    requires { view_of missing.now ≡ undefined }
    ensures stands { (n : ℕ) → AllByRecursion (ViewStands n) (views_list (views_of args.now)) → ViewStands n (view_of result.now) }
    ensures value { view_of result.now ≡ argument (views_list (views_of args.now)) i }
{
    view_or(args.as_slice(), i, missing)
}

/// The first item that is the same by `===`.
pub fn place_of(store: &Store, v: &View, x: &View) -> Option<usize>
    requires { ViewStands (length store.now) (view_of v.now) }
    ensures { result ≡ place_of (view_of x.now) 0 (items_of store.now (view_of v.now)) }
{
    for i in 0..items_count(store, v) {
        if is_item(store, v, i, x) {
            return Some(i);
        }
    }
    None
}

/// A place in a list or a text, or -1.
pub fn place_or_none(place: Option<usize>) -> Result<View, Memory>
    ensures { IfOk result (λ v. view_of v ≡ place_or_none place) }
{
    match place {
        None => Ok(View::of_value(Value::Int(-1))),
        Some(n) => count(n),
    }
}

/// A number below 0 counts from the end, NaN is 0.
pub fn from_end(n: usize, place: Option<i64>) -> usize
    ensures { result ≡ from_end n place }
{
    match place {
        None => 0,
        Some(k) => {
            if k < 0 {
                n.saturating_sub(k.unsigned_abs() as usize)
            } else {
                (k as usize).min(n)
            }
        }
    }
}

/// An index among so many items; one that is undefined stands for another.
pub fn place_at(missing: usize, n: usize, v: &View) -> usize
    ensures { result ≡ place_at missing n (view_of v.now) }
{
    match v {
        View::Prim(Value::Undefined) => missing,
        _ => from_end(n, view_num(v)),
    }
}

/// `slice`: the items from one place to another.
pub fn slice(alloc: Global, store: &Store, v: &View, args: &Views) -> Result<Views, Memory>
    requires { ViewStands (length store.now) (view_of v.now) }
    ensures stands { IfOk result (λ all. AllByRecursion (ViewStands (length store.now)) (views_list (views_of all))) }
    ensures items { IfOk result (λ all. views_list (views_of all) ≡ sliced (views_list (views_of args.now)) (items_of store.now (view_of v.now))) }
{
    let missing = undefined();
    let n = items_count(store, v);
    let from = place_at(0, n, argument(args, 0, &missing));
    let to = place_at(n, n, argument(args, 1, &missing));
    let done = Views::new(alloc);
    if from >= to {
        return Ok(done);
    }
    append_items(alloc, store, v, from, to, done)
}

/// Views with the items of an array or a fresh list behind them, or with what else it is.
fn append_parts(alloc: Global, store: &Store, v: &View, done: Views) -> Result<Views, Memory>
    requires value { ViewStands (length store.now) (view_of v.now) }
    requires done { AllByRecursion (ViewStands (length store.now)) (views_list (views_of done)) }
    ensures stands { IfOk result (λ all. AllByRecursion (ViewStands (length store.now)) (views_list (views_of all))) }
    ensures items { IfOk result (λ all. views_list (views_of all) ≡ views_list (views_of done) ++ parts_of store.now (view_of v.now)) }
{
    if is_list(store, v) {
        return append_items(alloc, store, v, 0, items_count(store, v), done);
    }
    let mut done = done;
    done.push(copied(alloc, v)?)?;
    Ok(done)
}

fn append_all(alloc: Global, store: &Store, args: &[View], done: Views) -> Result<Views, Memory>
    requires args { AllByRecursion (ViewStands (length store.now)) (map view_of args.now) }
    requires done { AllByRecursion (ViewStands (length store.now)) (views_list (views_of done)) }
    ensures stands { IfOk result (λ all. AllByRecursion (ViewStands (length store.now)) (views_list (views_of all))) }
    ensures items { IfOk result (λ all. views_list (views_of all) ≡ concatenated store.now (views_list (views_of done)) (map view_of args.now)) }
{
    let mut done = done;
    for v in args {
        done = append_parts(alloc, store, v, done)?;
    }
    Ok(done)
}

/// `concat`: the items, and those of the arguments behind them.
pub fn concat(alloc: Global, store: &Store, v: &View, args: &Views) -> Result<Views, Memory>
    requires value { ViewStands (length store.now) (view_of v.now) }
    requires args { AllByRecursion (ViewStands (length store.now)) (views_list (views_of args.now)) }
    ensures stands { IfOk result (λ all. AllByRecursion (ViewStands (length store.now)) (views_list (views_of all))) }
    ensures items { IfOk result (λ all. views_list (views_of all) ≡ concatenated store.now (items_of store.now (view_of v.now)) (views_list (views_of args.now))) }
{
    let n = items_count(store, v);
    let done = append_items(alloc, store, v, 0, n, Views::new(alloc))?;
    append_all(alloc, store, args.as_slice(), done)
}

/// What stands between two items of a joined text.
fn separator(alloc: Global, store: &Store, v: &View) -> Result<Txt, Fault>
    requires { ViewStands (length store.now) (view_of v.now) }
    ensures { Meets is_memory (separator store.now (view_of v.now)) result }
{
    match v {
        View::Prim(Value::Undefined) => {
            let mut text = Txt::new(alloc);
            text.push(',')?;
            Ok(text)
        }
        _ => to_text(alloc, store, v),
    }
}

/// An item's text: null and undefined are empty.
fn part_text(alloc: Global, store: &Store, v: &View) -> Result<Txt, Fault>
    requires { ViewStands (length store.now) (view_of v.now) }
    ensures { Meets is_memory (part_text store.now (view_of v.now)) result }
{
    match v {
        View::Prim(Value::Undefined) => Ok(Txt::new(alloc)),
        View::Prim(Value::Null) => Ok(Txt::new(alloc)),
        _ => to_text(alloc, store, v),
    }
}

/// The text of the item at a place.
fn item_text(alloc: Global, store: &Store, v: &View, i: usize) -> Result<Txt, Fault>
    requires stands { ViewStands (length store.now) (view_of v.now) }
    requires below { i < length (items_of store.now (view_of v.now)) }
    ensures { Meets is_memory (part_text store.now (argument (items_of store.now (view_of v.now)) i)) result }
{
    part_text(alloc, store, &item_at(alloc, store, v, i)?)
}

/// Adds a separator and a text.
fn append_text(done: &mut Txt, between: &Txt, text: &Txt) -> Result<(), Memory>
    ensures { OnOk result (done.new ≡ (done.old ++ between.now) ++ text.now) }
{
    done.push_txt(between)?;
    done.push_txt(text)?;
    Ok(())
}

/// The texts of the items behind the first, each behind a separator.
fn join_behind(
    alloc: Global,
    store: &Store,
    v: &View,
    between: &Txt,
    done: Txt,
) -> Result<Txt, Fault>
    requires { ViewStands (length store.now) (view_of v.now) }
    ensures { Meets is_memory (joined_behind store.now between.now done (drop 1 (items_of store.now (view_of v.now)))) result }
{
    let mut done = done;
    for i in 1..items_count(store, v) {
        match item_text(alloc, store, v, i) {
            Ok(text) => append_text(&mut done, between, &text)?,
            Err(fault) => return Err(fault),
        }
    }
    Ok(done)
}

/// The items' texts with a separator between them.
fn join_items(alloc: Global, store: &Store, v: &View, between: &Txt) -> Result<Txt, Fault>
    requires { ViewStands (length store.now) (view_of v.now) }
    ensures { Meets is_memory (joined_items store.now between.now (items_of store.now (view_of v.now))) result }
{
    if items_count(store, v) == 0 {
        return Ok(Txt::new(alloc));
    }
    let first = item_text(alloc, store, v, 0)?;
    join_behind(alloc, store, v, between, first)
}

/// `join`.
pub fn join(alloc: Global, store: &Store, v: &View, between: &View) -> Result<Txt, Fault>
    requires value { ViewStands (length store.now) (view_of v.now) }
    requires between { ViewStands (length store.now) (view_of between.now) }
    ensures { Meets is_memory (joined store.now (view_of between.now) (items_of store.now (view_of v.now))) result }
{
    let between = separator(alloc, store, between)?;
    join_items(alloc, store, v, &between)
}
