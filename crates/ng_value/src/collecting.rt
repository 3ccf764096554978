//! What a collection takes of a stored object: its items or its named values as they are (API: `$watchCollection`).
ghost use Rattle.std.specs.Prelude.{◌≡◌, ◌<◌, ◌++◌, [], length, IfOk, IfErr, OnOk};
ghost use Rattle.ng_base.specs.Objects.{object_at, own_of, StandsAmong};
ghost use Rattle.ng_base.specs.Views.{views_list, fields_list};
ghost use Rattle.ng_base.specs.ViewOf.{view_of, views_of, fields_of};
ghost use Rattle.ng_base.specs.declared.fault.Memory.TheVariants.{Refused};
ghost use Rattle.ng_base.specs.declared.value.Value.TheVariants.{Obj};
ghost use Rattle.ng_language.specs.Unfolding.{prims, own_entries, with_entry, below_object};
ghost use Rattle.ng_language.specs.declared.unfolding.Mode.TheVariants.{Collection};
ghost use Rattle.ng_value.specs.Taken.{taken_object, collected};

use crate::tables::below_object;
use ng_base::fault::Memory;
use ng_base::heap::Heap;
use ng_base::name::Oid;
use ng_base::txt::Txt;
use ng_base::value::Value;
use ng_base::view::{Fields, View, Views};
use ng_language::unfolding::{Below, Mode};
use std::alloc::Global;

/// The items of an array.
fn items<H: Heap>(alloc: Global, h: &H, o: Oid) -> Result<Views, Memory>
    requires { o.0 < length (H.objects h.now) }
    ensures items { IfOk result (λ w. views_list (views_of w) ≡ prims (object_at (H.objects h.now) o.0).items) }
    ensures refused { IfErr result (λ e. e ≡ Refused) }
{
    let mut done = Views::new(alloc);
    for i in 0..h.len(o) {
        let item = h.item(o, i).copied()?;
        done.push(View::of_value(item))?;
    }
    Ok(done)
}

/// Adds a named value of an object, where it has one of its own.
fn take_named<H: Heap>(done: &mut Fields, h: &H, o: Oid, name: &Txt) -> Result<(), Memory>
    requires { o.0 < length (H.objects h.now) }
    ensures taken { OnOk result (fields_list (fields_of done.new) ≡ fields_list (fields_of done.old) ++ with_entry name.now (own_of (object_at (H.objects h.now) o.0) name.now) []) }
    ensures refused { IfErr result (λ e. e ≡ Refused) }
{
    if let Some(v) = h.own(o, name) {
        let value = v.copied()?;
        done.push(name.copied()?, View::of_value(value))?;
    }
    Ok(())
}

/// The named values of an object, in the order of keys.
fn named<H: Heap>(alloc: Global, h: &H, o: Oid) -> Result<Fields, Memory>
    requires { o.0 < length (H.objects h.now) }
    ensures named { IfOk result (λ w. fields_list (fields_of w) ≡ own_entries (object_at (H.objects h.now) o.0)) }
    ensures refused { IfErr result (λ e. e ≡ Refused) }
{
    let names = h.names(alloc, o)?;
    let mut done = Fields::new(alloc);
    for name in names.as_slice() {
        take_named(&mut done, h, o, name)?;
    }
    Ok(done)
}

/// What a collection takes of an object.
#[tactic(auto, using(crate::proofs::ViewParts::view_parts))]
fn collected_object<H: Heap>(alloc: Global, h: &H, o: Oid) -> Result<View, Memory>
    requires { o.0 < length (H.objects h.now) }
    ensures taken { IfOk result (λ w. view_of w ≡ taken_object (below_object Collection (object_at (H.objects h.now) o.0).kind) (Obj o) (object_at (H.objects h.now) o.0)) }
    ensures refused { IfErr result (λ e. e ≡ Refused) }
{
    match below_object(Mode::Collection, h.kind(o)) {
        Below::Nothing => Ok(View::of_value(Value::Obj(o))),
        Below::Items => Ok(View::of_list(items(alloc, h, o)?)),
        Below::Names => Ok(View::of_fields(named(alloc, h, o)?)),
    }
}

/// What a collection takes of a value.
pub(crate) fn collected<H: Heap>(alloc: Global, h: &H, v: &Value) -> Result<View, Memory>
    requires { StandsAmong (length (H.objects h.now)) v.now }
    ensures taken { IfOk result (λ w. view_of w ≡ collected (H.objects h.now) v.now) }
    ensures refused { IfErr result (λ e. e ≡ Refused) }
{
    match v {
        Value::Obj(o) => collected_object(alloc, h, *o),
        _ => Ok(View::of_value(v.copied()?)),
    }
}
