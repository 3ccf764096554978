//! The store.
ghost use Rattle.std.specs.Prelude.{◌≡◌, ◌<◌, ◌≤◌, ◌+◌, ◌-◌, take, drop, reverse, slice_set, slice_range, ◌++◌, ◌∷◌, [], length, slice_get, Some, true, is_some, option_copied, IfOk, option_map, OnOk, OnErr, IsOk, IfErr, IfSome, bytes_eq, nat_lt, Err, false};
ghost use Rattle.std.specs.List.{splice, AllByRecursion};
ghost use Rattle.std.specs.Map.{lookup};
ghost use Rattle.ng_base.specs.Meets.{Meets};
ghost use Rattle.ng_base.specs.Objects.{own, object_at, names_of, StandsAmong};
ghost use Rattle.ng_base.specs.declared.fault.Memory.TheVariants.{Refused};
ghost use Rattle.ng_language.specs.Objects.{AreObjects, look, set_name, set_items, items_at, first_item, last_item, new_object};
ghost use Rattle.serde_json.specs.View.{view};
ghost use Rattle.ng_store.specs.SetNames.{set_names};
ghost use Rattle.ng_store.specs.Json.{is_json_want, is_long, is_whole, json_value, objects_in, with_json};
ghost use Rattle.ng_store.specs.Answers.{is_refused, is_want, next_name, where_short};
ghost use Rattle.ng_store.specs.declared.store.StoreFault.TheVariants.{Memory as OfMemory};

use crate::json::{JsonFault, is_long, is_whole};
use crate::placing::{add, overfills};
use crate::properties::Properties;
use crate::rooms::Rooms;
use crate::shapes::Shapes;
use crate::stored::Stored;
use crate::{arrays, objects};
use ng_base::fault::Memory;
use ng_base::heap::ObjKind;
use ng_base::lists::{Names, Values};
use ng_base::name::Oid;
use ng_base::txt::Txt;
use ng_base::value::Value;
use std::alloc::{AllocError, AllocFailed, Global};
use std::marker::Model;
use thiserror::Error;

/// Why no object was made.
#[derive(Clone, Copy, Debug, PartialEq, Eq, Error)]
pub enum StoreFault {
    #[error("the store holds no further object")]
    Full,
    #[error("{0}")]
    Memory(Memory),
}

impl From<AllocError> for StoreFault {
    ghost from_gives = { λ _ e. e ≡ OfMemory Refused };

    fn from(_: AllocError) -> Self {
        StoreFault::Memory(Memory::Refused)
    }
}

impl<T: Drop> From<AllocFailed<T>> for StoreFault {
    ghost from_gives = { λ _ e. e ≡ OfMemory Refused };

    fn from(_: AllocFailed<T>) -> Self {
        StoreFault::Memory(Memory::Refused)
    }
}

/// So many objects stand at most.
const OBJECT_LIMIT: usize = 1_000_000;

/// Objects by their names. Contracts see a list of objects.
#[derive(Drop)]
pub struct Store {
    alloc: Global,
    objects: Vec<Stored>,
    /// The names that objects share.
    shapes: Shapes,
    rooms: Rooms,
    /// The place that is looked at first: behind the property that was set last, or where the names began that were set last in one call.
    next: usize,
}

impl Model for Store {
    ghost use Rattle.std.specs.Prelude.{List};
    ghost use Rattle.ng_base.specs.Objects.{Object};
    ghost use Rattle.ng_language.specs.Objects.{AreObjects};

    ghost Value = { List Object };

    ghost use Rattle.ng_store.specs.ObjectOf.{objects_of};

    ghost view = { λ s. objects_of s.objects.items };

    ghost invariant = { λ s. AreObjects (objects_of s.objects.items) };
}

impl Store {
    /// No object.
    pub fn new(alloc: Global) -> Store
        ensures { result ≡ [] }
    {
        Store {
            alloc,
            objects: Vec::new(alloc),
            shapes: Shapes::new(alloc),
            rooms: Rooms::new(alloc),
            next: 0,
        }
    }

    /// The number of objects.
    pub fn count(&self) -> usize
        ensures { result ≡ length self.now }
    {
        self.objects.len()
    }

    /// What holds of the objects of every store: prototypes stand earlier, values name objects that stand.
    pub fn sound(&self)
        ensures { AreObjects self.now }
    {
        let _ = &self.objects;
    }

    /// A new object without names or items.
    pub fn make(&mut self, kind: ObjKind, proto: Option<Oid>) -> Result<Oid, StoreFault>
        requires { IfSome proto (λ p. p.0 < length self.old) }
        ensures answer { Meets is_want (next_name self.old) result }
        ensures made { OnOk result (self.new ≡ self.old ++ new_object kind (option_map (λ p. p.0) proto) ∷ []) }
        ensures unchanged { OnErr result (self.new ≡ self.old) }
    {
        let count = self.objects.len();
        if count >= OBJECT_LIMIT {
            return Err(StoreFault::Full);
        }
        let properties = Properties::new(self.alloc, &mut self.shapes, &mut self.rooms, kind)?;
        self.objects.push(Stored {
            kind,
            proto,
            items: Vec::new(self.alloc),
            properties,
        })?;
        Ok(Oid(count as u32))
    }

    /// The kind of an object.
    pub(crate) fn kind_of(&self, o: Oid) -> ObjKind
        requires { o.0 < length self.now }
        ensures { result ≡ (object_at self.now o.0).kind }
    {
        objects::kind(self.objects.as_slice(), o)
    }

    /// The number of an array's items.
    pub(crate) fn length(&self, o: Oid) -> u32
        requires { o.0 < length self.now }
        ensures { result ≡ length (object_at self.now o.0).items }
    {
        objects::len(self.objects.as_slice(), o)
    }

    /// An item of an array.
    pub(crate) fn item_at(&self, o: Oid, i: u32) -> &Value
        requires object { o.0 < length self.now }
        requires below { i < length (object_at self.now o.0).items }
        ensures item { slice_get (object_at self.now o.0).items i ≡ Some result.now }
        ensures stands { StandsAmong (length self.now) result.now }
    {
        objects::item(self.objects.as_slice(), o, i)
    }

    /// An object's own names in the order of keys.
    pub(crate) fn names_in(&self, alloc: Global, o: Oid) -> Result<Names, Memory>
        requires { o.0 < length self.now }
        ensures names { IfOk result (λ names. names ≡ names_of (object_at self.now o.0)) }
        ensures refused { IfErr result (λ e. e ≡ Refused) }
    {
        objects::names(alloc, self.objects.as_slice(), o)
    }

    /// The value that the object itself has under a name.
    pub(crate) fn own_value(&self, o: Oid, name: &Txt) -> Option<&Value>
        requires { o.0 < length self.now }
        ensures own { option_copied result ≡ own self.now o.0 name.now }
        ensures stands { IfSome result (λ v. StandsAmong (length self.now) v.now) }
    {
        objects::own(self.objects.as_slice(), o, name)
    }

    /// The object's own names: array indices ascending, then the others in order of insertion.
    pub fn keys(&self, o: Oid) -> Result<Names, Memory>
        requires { o.0 < length self.now }
        ensures names { IfOk result (λ names. names ≡ names_of (object_at self.now o.0)) }
        ensures refused { IfErr result (λ e. e ≡ Refused) }
    {
        self.names_in(self.alloc, o)
    }

    /// The value under a name, of the object or of its prototypes.
    pub fn look(&self, o: Oid, name: &Txt) -> Option<&Value>
        requires { o.0 < length self.now }
        ensures value { option_copied result ≡ look self.now o.0 name.now }
        ensures stands { IfSome result (λ v. StandsAmong (length self.now) v.now) }
    {
        objects::look(self.objects.as_slice(), o, name)
    }

    /// Sets a name of an object. A name that is there takes no memory.
    pub fn set(&mut self, o: Oid, name: &Txt, v: Value) -> Result<(), Memory>
        requires object { o.0 < length self.old }
        requires stands { StandsAmong (length self.old) v }
        ensures set { OnOk result (self.new ≡ set_name self.old o.0 name.now v) }
        ensures unchanged { OnErr result (self.new ≡ self.old) }
        ensures there { is_some (lookup (bytes_eq name.now) (object_at self.old o.0).properties) ≡ true → IsOk result }
        ensures refused { IfErr result (λ e. e ≡ Refused) }
    {
        objects::set(
            self.alloc,
            &mut self.objects,
            &mut self.shapes,
            &mut self.next,
            o,
            name,
            v,
        )?;
        Ok(())
    }

    /// Sets names of an object one after another, as far as there are names and values.
    pub fn set_all(&mut self, o: Oid, names: &[Txt], values: &[Value]) -> Result<(), Memory>
        requires object { o.0 < length self.old }
        requires stands { AllByRecursion (StandsAmong (length self.old)) values.now }
        ensures set { OnOk result (self.new ≡ set_names self.old o.0 names.now values.now) }
        ensures count { length self.new ≡ length self.old }
        ensures refused { IfErr result (λ e. e ≡ Refused) }
    {
        objects::set_all(
            self.alloc,
            &mut self.objects,
            &mut self.shapes,
            &mut self.next,
            o,
            names,
            values,
        )
    }

    /// Adds an item at the end of an array, and gives its length.
    pub fn push(&mut self, o: Oid, v: Value) -> Result<u32, Memory>
        requires object { o.0 < length self.old }
        requires stands { StandsAmong (length self.old) v }
        ensures length { Meets is_refused (where_short (length (items_at self.old o.0) + 1) (length (items_at self.old o.0) + 1)) result }
        ensures pushed { OnOk result (self.new ≡ set_items self.old o.0 (items_at self.old o.0 ++ v ∷ [])) }
        ensures unchanged { OnErr result (self.new ≡ self.old) }
    {
        let count = arrays::push(&mut self.objects, o, v)?;
        Ok(count)
    }

    /// Adds an item at the front of an array, and gives its length.
    pub fn unshift(&mut self, o: Oid, v: Value) -> Result<u32, Memory>
        requires object { o.0 < length self.old }
        requires stands { StandsAmong (length self.old) v }
        ensures length { Meets is_refused (where_short (length (items_at self.old o.0) + 1) (length (items_at self.old o.0) + 1)) result }
        ensures pushed { OnOk result (self.new ≡ set_items self.old o.0 (v ∷ items_at self.old o.0)) }
        ensures unchanged { OnErr result (self.new ≡ self.old) }
    {
        let count = arrays::unshift(&mut self.objects, o, v)?;
        Ok(count)
    }

    /// Takes the last item of an array, Undefined where there is none.
    pub fn pop(&mut self, o: Oid) -> Value
        requires { o.0 < length self.old }
        ensures value { result ≡ last_item (items_at self.old o.0) }
        ensures popped { self.new ≡ set_items self.old o.0 (take (length (items_at self.old o.0) - 1) (items_at self.old o.0)) }
        ensures stands { StandsAmong (length self.new) result }
    {
        arrays::pop(&mut self.objects, o)
    }

    /// Takes the first item of an array, Undefined where there is none.
    pub fn shift(&mut self, o: Oid) -> Value
        requires { o.0 < length self.old }
        ensures value { result ≡ first_item (items_at self.old o.0) }
        ensures shifted { self.new ≡ set_items self.old o.0 (drop 1 (items_at self.old o.0)) }
        ensures stands { StandsAmong (length self.new) result }
    {
        arrays::shift(&mut self.objects, o)
    }

    /// Turns the items of an array round.
    pub fn reverse(&mut self, o: Oid)
        requires { o.0 < length self.old }
        ensures { self.new ≡ set_items self.old o.0 (reverse (items_at self.old o.0)) }
    {
        arrays::reverse(&mut self.objects, o);
    }

    /// Puts a value in the place of an item of an array.
    pub fn put_item(&mut self, o: Oid, i: u32, v: Value)
        requires object { o.0 < length self.old }
        requires below { i < length (items_at self.old o.0) }
        requires stands { StandsAmong (length self.old) v }
        ensures { self.new ≡ set_items self.old o.0 (slice_set (items_at self.old o.0) i v) }
    {
        arrays::put_item(&mut self.objects, o, i, v);
    }

    /// Takes items of an array out, puts values in their place, and gives what was taken.
    pub fn splice(&mut self, o: Oid, from: u32, count: u32, new: &[Value]) -> Result<Values, Memory>
        requires object { o.0 < length self.old }
        requires within { from + count ≤ length (items_at self.old o.0) }
        requires stands { AllByRecursion (StandsAmong (length self.old)) new.now }
        ensures taken { Meets is_refused (where_short (length (items_at self.old o.0) - count + length new.now) (slice_range (items_at self.old o.0) from (from + count))) result }
        ensures spliced { OnOk result (self.new ≡ set_items self.old o.0 (splice (items_at self.old o.0) from (from + count) new.now)) }
        ensures stands { IfOk result (λ taken. AllByRecursion (StandsAmong (length self.new)) taken) }
        ensures unchanged { OnErr result (self.new ≡ self.old) }
    {
        let taken = arrays::splice(self.alloc, &mut self.objects, o, from, count, new)?;
        Ok(taken)
    }

    /// Whether JSON may be put into the store, or why not.
    fn check(&self, v: &serde_json::Value) -> Result<(), JsonFault>
        ensures whole { OnOk result (is_whole (view v.now) ≡ true) }
        ensures room { OnOk result (nat_lt 1000000 (length self.now + objects_in (view v.now)) ≡ false) }
        ensures short { OnOk result (is_long (view v.now) ≡ false) }
        ensures refused { IfErr result (λ e. json_value self.now (view v.now) ≡ Err e) }
    {
        if !is_whole(v) {
            return Err(JsonFault::Number);
        }
        if overfills(self.objects.len(), v) {
            return Err(JsonFault::Full);
        }
        if is_long(v) {
            return Err(JsonFault::Memory(Memory::Worn));
        }
        Ok(())
    }

    /// Puts JSON that was checked into the store.
    fn put_json(&mut self, v: serde_json::Value) -> Result<Value, JsonFault>
        requires whole { is_whole (view v) ≡ true }
        requires room { nat_lt 1000000 (length self.old + objects_in (view v)) ≡ false }
        requires short { is_long (view v) ≡ false }
        ensures value { Meets is_json_want (json_value self.old (view v)) result }
        ensures made { OnOk result (self.new ≡ with_json self.old (view v)) }
        ensures stands { IfOk result (λ w. StandsAmong (length self.new) w) }
        ensures unchanged { OnErr result (self.new ≡ self.old) }
    {
        let value = add(self.alloc, &mut self.objects, &mut self.shapes, v)?;
        Ok(value)
    }

    /// Puts JSON into the store, which takes it: the objects in it behind those that stand, names in the order of their
    /// bytes. What was read of it is dropped at once, so that a large one and its objects don't stand beside one another.
    pub fn take_json(&mut self, v: serde_json::Value) -> Result<Value, JsonFault>
        ensures value { Meets is_json_want (json_value self.old (view v)) result }
        ensures made { OnOk result (self.new ≡ with_json self.old (view v)) }
        ensures stands { IfOk result (λ w. StandsAmong (length self.new) w) }
        ensures unchanged { OnErr result (self.new ≡ self.old) }
    {
        self.check(&v)?;
        self.put_json(v)
    }

    /// Puts a copy of JSON into the store: the objects in it behind those that stand, names in the order of their bytes.
    pub fn of_json(&mut self, v: &serde_json::Value) -> Result<Value, JsonFault>
        ensures value { Meets is_json_want (json_value self.old (view v.now)) result }
        ensures made { OnOk result (self.new ≡ with_json self.old (view v.now)) }
        ensures stands { IfOk result (λ w. StandsAmong (length self.new) w) }
        ensures unchanged { OnErr result (self.new ≡ self.old) }
    {
        self.check(v)?;
        self.put_json(v.clone()?)
    }
}
