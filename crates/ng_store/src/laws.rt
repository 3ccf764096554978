//! What a look-up finds, and what a change leaves as it is.
ghost use Rattle.std.specs.Prelude.{◌≡◌, ◌<◌, length, Some, None, IsSome, bytes_eq, false};
ghost use Rattle.ng_base.specs.Objects.{object_at, own, is_array, names_of};
ghost use Rattle.std.specs.List.{IsDistinct};
ghost use Rattle.std.specs.List.Sorted.{IsPermutation};
ghost use Rattle.std.specs.Map.{keys_of};
ghost use Rattle.ng_language.specs.Objects.{look, proto_of, set_name, set_items};

use crate::store::Store;
use ng_base::name::Oid;
use ng_base::txt::Txt;
use ng_base::value::Value;

/// A value that the object itself has is what a look-up finds.
pub fn look_found(store: &Store, o: Oid, name: &Txt)
    requires { IsSome (own store.now o.0 name.now) }
    ensures { look store.now o.0 name.now ≡ own store.now o.0 name.now }
{}

/// Where the object itself hasn't the name, its prototype is asked.
pub fn look_up(store: &Store, o: Oid, p: Oid, name: &Txt)
    requires stands { o.0 < length store.now }
    requires missing { own store.now o.0 name.now ≡ None }
    requires prototype { proto_of store.now o.0 ≡ Some p.0 }
    ensures { look store.now o.0 name.now ≡ look store.now p.0 name.now }
{
    store.sound();
}

/// Where the object itself hasn't the name and has no prototype, nothing is found.
pub fn look_last(store: &Store, o: Oid, name: &Txt)
    requires missing { own store.now o.0 name.now ≡ None }
    requires last { proto_of store.now o.0 ≡ None }
    ensures { look store.now o.0 name.now ≡ None }
{}

/// Setting a name leaves every other object as it was, and every other name of the object.
pub fn set_keeps(store: &Store, o: Oid, name: &Txt, v: &Value, q: Oid, other: &Txt)
    requires { o.0 < length store.now }
    ensures objects { ¬ (q.0 ≡ o.0) → object_at (set_name store.now o.0 name.now v.now) q.0 ≡ object_at store.now q.0 }
    ensures names { bytes_eq name.now other.now ≡ false → own (set_name store.now o.0 name.now v.now) o.0 other.now ≡ own store.now o.0 other.now }
    ensures value { is_array (object_at store.now o.0).kind ≡ false → own (set_name store.now o.0 name.now v.now) o.0 name.now ≡ Some v.now }
{}

/// Changing the items of an array leaves every other object as it was.
pub fn items_keep(store: &Store, o: Oid, items: &[Value], q: Oid)
    requires { o.0 < length store.now }
    ensures objects { ¬ (q.0 ≡ o.0) → object_at (set_items store.now o.0 items.now) q.0 ≡ object_at store.now q.0 }
    ensures items { (object_at (set_items store.now o.0 items.now) o.0).items ≡ items.now }
{}

/// The names of an object that is no array are those of its properties in another order, and no two are equal.
pub fn names_once(store: &Store, o: Oid)
    requires stands { o.0 < length store.now }
    requires plain { is_array (object_at store.now o.0).kind ≡ false }
    ensures same { IsPermutation (keys_of (object_at store.now o.0).properties) (names_of (object_at store.now o.0)) }
    ensures distinct { IsDistinct bytes_eq (keys_of (object_at store.now o.0).properties) }
{
    store.sound();
}
