//! The arguments of a call, and the locals of a body.
ghost use Rattle.std.specs.Prelude.{◌≡◌, ◌<◌, ℕ, map, drop, length, IfOk};
ghost use Rattle.std.specs.List.{AllByRecursion};
ghost use Rattle.ng_base.specs.Objects.{StandsAmong};
ghost use Rattle.ng_base.specs.Views.{views_list};
ghost use Rattle.ng_base.specs.ViewOf.{view_of, views_of};
ghost use Rattle.ng_language.specs.Views.{ViewStands};
ghost use Rattle.ng_members.specs.Leaves.{LocalsStand};
ghost use Rattle.ng_members.specs.Methods.{argument};
ghost use Rattle.ng_write.specs.Making.{value_in};
ghost use Rattle.ng_core.specs.Calling.{bound_from, names_bound, name_bound};
ghost use Rattle.ng_base.specs.Objects.{names_of, object_at};

use ng_base::fault::Memory;
use ng_base::heap::Heap;
use ng_base::lists::{Names, Values};
use ng_base::locals::Locals;
use ng_base::name::Oid;
use ng_base::txt::Txt;
use ng_base::value::Value;
use ng_base::view::{View, Views};
use ng_store::Store;
use ng_value::copies::copied;
use std::alloc::{AllocError, Global};

/// The value of a view that is no fresh list or record.
pub fn value_in(v: View) -> Value
    ensures value { result ≡ value_in (view_of v) }
    ensures stands { (n : ℕ) → ViewStands n (view_of v) → StandsAmong n result }
{
    match v {
        View::Prim(value) => value,
        View::List(_) => Value::Undefined,
        View::Rec(_) => Value::Undefined,
    }
}

/// A copy of that value.
pub fn value_copied(v: &View) -> Result<Value, AllocError>
    ensures value { IfOk result (λ w. w ≡ value_in (view_of v.now)) }
    ensures stands { (n : ℕ) → ViewStands n (view_of v.now) → IfOk result (λ w. StandsAmong n w) }
{
    match v {
        View::Prim(value) => Ok(value.copied()?),
        View::List(_) => Ok(Value::Undefined),
        View::Rec(_) => Ok(Value::Undefined),
    }
}

/// The arguments as values.
pub fn values_in(alloc: Global, args: &Views) -> Result<Values, Memory>
    ensures { IfOk result (λ vs. vs ≡ map value_in (views_list (views_of args.now))) }
{
    let mut values = Values::new(alloc);
    let given = args.as_slice();
    for v in given {
        values.push(value_copied(v)?)?;
    }
    Ok(values)
}

/// The value of the argument at a place, or undefined.
fn value_at(args: &[View], i: usize) -> Result<Value, AllocError>
    ensures { IfOk result (λ w. w ≡ value_in (argument (map view_of args.now) i)) }
{
    match args.get(i) {
        Some(v) => value_copied(v),
        None => Ok(Value::Undefined),
    }
}

/// The parameters of a function with the arguments of their places: of two equal ones the last is meant.
pub fn bound(alloc: Global, params: &Names, args: &Views) -> Result<Locals, Memory>
    ensures { IfOk result (λ ls. ls ≡ bound_from 0 params.now (views_list (views_of args.now))) }
{
    let names = params.as_slice();
    let given = args.as_slice();
    let mut locals = Locals::new(alloc);
    let mut i = names.len();
    while i > 0 {
        i -= 1;
        locals.push(names[i].copied()?, value_at(given, i)?)?;
    }
    Ok(locals)
}

/// What an object itself has under a name, or undefined.
fn own_value(store: &Store, o: Oid, name: &Txt) -> Result<Value, AllocError>
    requires { o.0 < length store.now }
    ensures value { IfOk result (λ w. w ≡ (name_bound store.now o.0 name.now).1) }
    ensures stands { IfOk result (λ w. StandsAmong (length store.now) w) }
{
    match store.own(o, name) {
        Some(value) => value.copied(),
        None => Ok(Value::Undefined),
    }
}

/// The own names of an object as locals.
fn names_bound_of(alloc: Global, store: &Store, o: Oid) -> Result<Locals, Memory>
    requires { o.0 < length store.now }
    ensures locals { IfOk result (λ ls. ls ≡ map (name_bound store.now o.0) (names_of (object_at store.now o.0))) }
    ensures stands { IfOk result (λ ls. LocalsStand (length store.now) ls) }
{
    let keys = store.keys(o)?;
    let names = keys.as_slice();
    let mut locals = Locals::new(alloc);
    for name in names {
        locals.push(name.copied()?, own_value(store, o, name)?)?;
    }
    Ok(locals)
}

/// The own names of a value as locals: what is no object gives none.
pub fn names_bound(alloc: Global, store: &Store, v: &View) -> Result<Locals, Memory>
    requires { ViewStands (length store.now) (view_of v.now) }
    ensures locals { IfOk result (λ ls. ls ≡ names_bound store.now (view_of v.now)) }
    ensures stands { IfOk result (λ ls. LocalsStand (length store.now) ls) }
{
    match v {
        View::Prim(Value::Obj(o)) => names_bound_of(alloc, store, *o),
        _ => Ok(Locals::new(alloc)),
    }
}

/// The arguments after the first.
pub fn after_first(alloc: Global, args: &Views) -> Result<Views, Memory>
    ensures { IfOk result (λ vs. views_list (views_of vs) ≡ drop 1 (views_list (views_of args.now))) }
{
    let given = args.as_slice();
    let mut views = Views::new(alloc);
    for i in 1..given.len() {
        views.push(copied(alloc, &given[i])?)?;
    }
    Ok(views)
}
