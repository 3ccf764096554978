//! What reads objects: a store, or anything that stands for a list of objects.
ghost use Rattle.std.specs.Prelude.{◌≡◌, ◌<◌, List, length, slice_get, option_copied, IfOk, IfErr, IfSome};
ghost use Rattle.ng_base.specs.Objects.{Object, object_at, own, names_of, StandsAmong};
ghost use Rattle.ng_base.specs.declared.fault.Memory.TheVariants.{Refused};

use crate::fault::Memory;
use crate::lists::Names;
use crate::name::Oid;
use crate::txt::Txt;
use crate::value::Value;
use std::alloc::Global;

/// What an object is made for.
#[derive(Clone, Copy, Debug, PartialEq, Eq)]
pub enum ObjKind {
    Plain,
    Array,
    Scope,
    Event,
}

/// Reads a list of objects. An object that a value in it names is one of the list.
pub trait Heap {
    /// The objects.
    ghost objects: { Self → List Object };

    /// The kind of an object.
    fn kind(&self, o: Oid) -> ObjKind
        requires { o.0 < length (objects self.now) }
        ensures { result ≡ (object_at (objects self.now) o.0).kind };

    /// The number of an array's items.
    fn len(&self, o: Oid) -> u32
        requires { o.0 < length (objects self.now) }
        ensures { result ≡ length (object_at (objects self.now) o.0).items };

    /// An item of an array.
    fn item(&self, o: Oid, i: u32) -> &Value
        requires stands { o.0 < length (objects self.now) }
        requires below { i < length (object_at (objects self.now) o.0).items }
        ensures item { slice_get (object_at (objects self.now) o.0).items i ≡ Some result.now }
        ensures stands { StandsAmong (length (objects self.now)) result.now };

    /// The object's own names: array indices ascending, then the others in order of insertion.
    fn names(&self, alloc: Global, o: Oid) -> Result<Names, Memory>
        requires { o.0 < length (objects self.now) }
        ensures names { IfOk result (λ names. names ≡ names_of (object_at (objects self.now) o.0)) }
        ensures memory { IfErr result (λ e. e ≡ Refused) };

    /// The value that the object itself has under a name.
    fn own(&self, o: Oid, name: &Txt) -> Option<&Value>
        requires { o.0 < length (objects self.now) }
        ensures own { option_copied result ≡ own (objects self.now) o.0 name.now }
        ensures stands { IfSome result (λ v. StandsAmong (length (objects self.now)) v.now) };
}
