//! Fresh lists and records become objects.
ghost use Rattle.std.specs.Prelude.{◌≡◌, ◌<◌, ◌≤◌, ◌++◌, ◌∷◌, [], ℕ, List, length, map, Ok, Err, None, nat_lt, false, true, IfOk, IfErr, OnOk, OnErr, if◌then◌else◌};
ghost use Rattle.std.specs.List.{AllByRecursion};
ghost use Rattle.ng_base.specs.Faults.{is_memory};
ghost use Rattle.ng_base.specs.Meets.{Meets};
ghost use Rattle.ng_base.specs.Objects.{StandsAmong};
ghost use Rattle.ng_base.specs.Views.{views_from, fields_from};
ghost use Rattle.ng_base.specs.ViewOf.{view_of, field_of};
ghost use Rattle.ng_base.specs.declared.fault.Fault.TheVariants.{StoreFull};
ghost use Rattle.ng_language.specs.Objects.{new_object};
ghost use Rattle.ng_language.specs.Views.{ViewStands, ViewsStand, FieldsStand};
ghost use Rattle.ng_write.specs.Storing.{array_with, plain_with, with_object, PropertiesStand, entered, with_names, stored, stored_views, stored_fields};
ghost use Rattle.ng_write.specs.Written.{Writes};

use crate::parts::{fields_in, first_field, first_property, first_view, views_in};
use ng_base::fault::Fault;
use ng_base::heap::ObjKind;
use ng_base::lists::Values;
use ng_base::name::Oid;
use ng_base::txt::Txt;
use ng_base::value::Value;
use ng_base::view::View;
use ng_store::{Store, StoreFault};
use std::alloc::Global;

/// A new object without names or items.
pub(crate) fn make(store: &mut Store, kind: ObjKind) -> Result<Oid, Fault>
    ensures answer { Meets is_memory (if nat_lt (length store.old) 1000000 then Ok (record { 0 = length store.old }) else Err StoreFull) result }
    ensures made { OnOk result (store.new ≡ store.old ++ new_object kind None ∷ []) }
    ensures unchanged { OnErr result (store.new ≡ store.old) }
{
    match store.make(kind, None) {
        Ok(o) => Ok(o),
        Err(StoreFault::Full) => Err(Fault::StoreFull),
        Err(StoreFault::Memory(m)) => Err(Fault::Memory(m)),
    }
}

/// A new array with its items.
#[tactic(auto, using(crate::proofs::Filled::filled_array, crate::proofs::More::one_more))]
pub(crate) fn add_array(store: &mut Store, items: &[Value]) -> Result<Value, Fault>
    requires { AllByRecursion (StandsAmong (length store.old)) items.now }
    ensures made { Writes (with_object (array_with items.now) store.old) store.new result }
    ensures grown { length store.old ≤ length store.new }
    ensures stands { IfOk result (λ v. StandsAmong (length store.new) v) }
{
    let o = make(store, ObjKind::Array)?;
    store.splice(o, 0, 0, items)?;
    Ok(Value::Obj(o))
}

/// Sets names of an object one after another.
#[tactic(auto, using(crate::proofs::More::as_many))]
fn enter(store: &mut Store, o: Oid, properties: &[(Txt, Value)]) -> Result<(), Fault>
    requires object { o.0 < length store.old }
    requires stands { PropertiesStand (length store.old) properties.now }
    ensures entered { OnOk result (store.new ≡ with_names store.old o.0 properties.now) }
    ensures len { length store.new ≡ length store.old }
    ensures memory { IfErr result (λ e. is_memory e ≡ true) }
{
    let mut left = properties;
    while let Some((property, rest)) = first_property(left) {
        store.set(o, &property.0, property.1.copied()?)?;
        left = rest;
    }
    Ok(())
}

/// A new object with its named values.
#[tactic(auto, using(crate::proofs::Filled::filled_plain, crate::proofs::More::one_more))]
pub(crate) fn add_plain(store: &mut Store, properties: &[(Txt, Value)]) -> Result<Value, Fault>
    requires { PropertiesStand (length store.old) properties.now }
    ensures made { Writes (with_object (plain_with (entered [] properties.now)) store.old) store.new result }
    ensures grown { length store.old ≤ length store.new }
    ensures stands { IfOk result (λ v. StandsAmong (length store.new) v) }
{
    let o = make(store, ObjKind::Plain)?;
    enter(store, o, properties)?;
    Ok(Value::Obj(o))
}

/// The value of a view: a fresh list or record becomes a new object, after what stands in it.
#[cycle(stored)]
pub fn stored(alloc: Global, store: &mut Store, view: &View) -> Result<Value, Fault>
    requires { ViewStands (length store.old) (view_of view.now) }
    ensures stored { Writes (stored store.old (view_of view.now)) store.new result }
    ensures grown { length store.old ≤ length store.new }
    ensures stands { IfOk result (λ v. StandsAmong (length store.new) v) }
{
    match view {
        View::Prim(v) => Ok(v.copied()?),
        View::List(views) => {
            let items = stored_views(alloc, store, views_in(views))?;
            add_array(store, items.as_slice())
        }
        View::Rec(fields) => {
            let properties = stored_fields(alloc, store, fields_in(fields))?;
            add_plain(store, properties.as_slice())
        }
    }
}

/// The values of views, in order.
#[cycle(stored)]
fn stored_views(alloc: Global, store: &mut Store, views: &[View]) -> Result<Values, Fault>
    requires { ViewsStand (length store.old) (views_from (map view_of views.now)) }
    ensures stored { Writes (stored_views store.old [] (views_from (map view_of views.now))) store.new result }
    ensures grown { length store.old ≤ length store.new }
    ensures stands { IfOk result (λ vs. AllByRecursion (StandsAmong (length store.new)) vs) }
{
    let mut done = Values::new(alloc);
    let mut left = views;
    while let Some((view, rest)) = first_view(left) {
        done.push(stored(alloc, store, view)?)?;
        left = rest;
    }
    Ok(done)
}

/// The named values of fields, in order.
#[cycle(stored)]
fn stored_fields(
    alloc: Global,
    store: &mut Store,
    fields: &[(Txt, View)],
) -> Result<Vec<(Txt, Value)>, Fault>
    requires { FieldsStand (length store.old) (fields_from (map field_of fields.now)) }
    ensures stored { IfOk result (λ ps. stored_fields store.old [] (fields_from (map field_of fields.now)) ≡ (store.new, Ok ps.items)) }
    ensures refused { IfErr result (λ e. is_memory e ≡ false → stored_fields store.old [] (fields_from (map field_of fields.now)) ≡ (store.new, Err e)) }
    ensures grown { length store.old ≤ length store.new }
    ensures stands { IfOk result (λ ps. PropertiesStand (length store.new) ps.items) }
{
    let mut done = Vec::new(alloc);
    let mut left = fields;
    while let Some((field, rest)) = first_field(left) {
        let name = field.0.copied()?;
        done.push((name, stored(alloc, store, &field.1)?))?;
        left = rest;
    }
    Ok(done)
}
