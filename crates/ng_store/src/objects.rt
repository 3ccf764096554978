//! What reads and changes stored objects.
ghost use Rattle.std.specs.Prelude.{◌≡◌, ◌<◌, ◌^◌, length, vec_len, IfOk, option_copied, option_and_then, slice_get, OnOk, OnErr, IsOk, IfErr, is_some, true, bytes_eq};
ghost use Rattle.std.specs.List.{AllByRecursion};
ghost use Rattle.std.specs.Map.{lookup};
ghost use Rattle.ng_base.specs.Objects.{own_of, object_at, own, names_of, StandsAmong};
ghost use Rattle.ng_base.specs.declared.fault.Memory.TheVariants.{Refused};
ghost use Rattle.ng_language.specs.Objects.{AreObjects, look, set_name};
ghost use Rattle.ng_store.specs.ObjectOf.{object_of, objects_of};
ghost use Rattle.ng_store.specs.SetNames.{set_names};

use crate::names::names_of;
use crate::shapes::Shapes;
use crate::stored::Stored;
use ng_base::fault::Memory;
use ng_base::heap::ObjKind;
use ng_base::index::index_of;
use ng_base::lists::Names;
use ng_base::name::Oid;
use ng_base::txt::Txt;
use ng_base::value::Value;
use std::alloc::Global;

/// The value that an object itself has under a name.
pub(crate) fn own_of<'a>(x: &'a Stored, name: &Txt) -> Option<&'a Value>
    ensures { option_copied result ≡ own_of (object_of x.now) name.now }
{
    match x.kind {
        ObjKind::Array => match index_of(name) {
            None => None,
            Some(i) => x.items.get(i as usize),
        },
        _ => x.properties.get(name),
    }
}

/// The kind of an object.
pub(crate) fn kind(objects: &[Stored], o: Oid) -> ObjKind
    requires { o.0 < length objects.now }
    ensures { result ≡ (object_at (objects_of objects.now) o.0).kind }
{
    objects[o.0 as usize].kind
}

/// The number of an array's items.
pub(crate) fn len(objects: &[Stored], o: Oid) -> u32
    requires object { o.0 < length objects.now }
    requires few { length (object_at (objects_of objects.now) o.0).items < 2 ^ 32 }
    ensures { result ≡ length (object_at (objects_of objects.now) o.0).items }
{
    objects[o.0 as usize].items.len() as u32
}

/// An item of an array.
pub(crate) fn item(objects: &[Stored], o: Oid, i: u32) -> &Value
    requires object { o.0 < length objects.now }
    requires below { i < length (object_at (objects_of objects.now) o.0).items }
    ensures { slice_get (object_at (objects_of objects.now) o.0).items i ≡ Some result.now }
{
    &objects[o.0 as usize].items[i as usize]
}

/// An object's own names in the order of keys.
pub(crate) fn names(alloc: Global, objects: &[Stored], o: Oid) -> Result<Names, Memory>
    requires object { o.0 < length objects.now }
    requires few { length (object_at (objects_of objects.now) o.0).items < 2 ^ 32 }
    ensures names { IfOk result (λ names. names ≡ names_of (object_at (objects_of objects.now) o.0)) }
    ensures refused { IfErr result (λ e. e ≡ Refused) }
{
    let stored = &objects[o.0 as usize];
    names_of(alloc, stored)
}

/// The value that the object itself has under a name.
pub(crate) fn own<'a>(objects: &'a [Stored], o: Oid, name: &Txt) -> Option<&'a Value>
    requires { o.0 < length objects.now }
    ensures { option_copied result ≡ own (objects_of objects.now) o.0 name.now }
{
    let stored = &objects[o.0 as usize];
    own_of(stored, name)
}

/// The value under a name, of the object or of its prototypes.
pub(crate) fn look<'a>(objects: &'a [Stored], o: Oid, name: &Txt) -> Option<&'a Value>
    requires within { o.0 < length objects.now }
    requires sound { AreObjects (objects_of objects.now) }
    ensures { option_copied result ≡ look (objects_of objects.now) o.0 name.now }
{
    let mut at = o.0 as usize;
    'prototypes: loop {
        let stored = &objects[at];
        if let Some(v) = own_of(stored, name) {
            return Some(v);
        }
        match stored.proto {
            None => return None,
            Some(p) => at = p.0 as usize,
        }
    }
}

/// Sets a name of an object.
pub(crate) fn set(
    alloc: Global,
    objects: &mut Vec<Stored>,
    shapes: &mut Shapes,
    next: &mut usize,
    o: Oid,
    name: &Txt,
    v: Value,
) -> Result<(), Memory>
    requires { o.0 < vec_len objects.old }
    ensures ok { OnOk result (objects_of objects.new.items ≡ set_name (objects_of objects.old.items) o.0 name.now v) }
    ensures err { OnErr result (objects_of objects.new.items ≡ objects_of objects.old.items) }
    ensures there { is_some (lookup (bytes_eq name.now) (object_at (objects_of objects.old.items) o.0).properties) ≡ true → IsOk result }
    ensures refused { IfErr result (λ e. e ≡ Refused) }
{
    let stored = &mut objects[o.0 as usize];
    stored.properties.put(alloc, shapes, next, name, v)?;
    Ok(())
}

/// Sets names of an object, one after another.
pub(crate) fn set_all(
    alloc: Global,
    objects: &mut Vec<Stored>,
    shapes: &mut Shapes,
    next: &mut usize,
    o: Oid,
    names: &[Txt],
    values: &[Value],
) -> Result<(), Memory>
    requires { o.0 < vec_len objects.old }
    ensures ok { OnOk result (objects_of objects.new.items ≡ set_names (objects_of objects.old.items) o.0 names.now values.now) }
    ensures sound { AllByRecursion (StandsAmong (length (objects_of objects.old.items))) values.now → AreObjects (objects_of objects.old.items) → AreObjects (objects_of objects.new.items) }
    ensures count { length (objects_of objects.new.items) ≡ length (objects_of objects.old.items) }
    ensures refused { IfErr result (λ e. e ≡ Refused) }
{
    let object = &mut objects[o.0 as usize];
    object
        .properties
        .put_all(alloc, shapes, next, names, values)
}
