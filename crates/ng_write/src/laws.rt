//! What a reader may take from the definitions of writes.
ghost use Rattle.std.specs.Prelude.{◌≡◌, ◌<◌, Ok, true, false, length};
ghost use Rattle.ng_base.specs.Views.{prim};
ghost use Rattle.ng_base.specs.ViewOf.{view_of};
ghost use Rattle.ng_members.specs.Members.{member};
ghost use Rattle.ng_write.specs.Reading.{OnlyAt, Extends, ReadsAs};
ghost use Rattle.ng_write.specs.Assigning.{object_assigned, is_local, locals_after, name_assigned};
ghost use Rattle.ng_write.specs.Storing.{stored};

use ng_base::locals::Locals;
use ng_base::name::Oid;
use ng_base::txt::Txt;
use ng_base::value::Value;
use ng_base::view::View;
use ng_store::Store;

/// The objects that stood before a fresh list or record became one are as they were, also where it met a fault.
pub fn stored_behind(store: &Store, view: &View)
    ensures { Extends store.now (stored store.now (view_of view.now)).0 }
{}

/// What a fresh list or record became reads as that list or record.
pub fn stored_reads(store: &Store, after: &Store, view: &View, v: &Value)
    requires { stored store.now (view_of view.now) ≡ (after.now, Ok v.now) }
    ensures { ReadsAs after.now v.now (view_of view.now) }
{}

/// An assignment to a name of an object leaves every other object as it was.
pub fn assigned_alone(store: &Store, o: Oid, name: &Txt, v: &Value)
    ensures { OnlyAt o.0 store.now (object_assigned store.now o.0 name.now v.now).0 }
{}

/// A bare name that is assigned to changes a local, where there is one of this name, and no object; else the scope's own
/// object, no other one, and no local.
pub fn bare_name(store: &Store, scope: Oid, locals: &Locals, name: &Txt, v: &Value)
    ensures alone { OnlyAt scope.0 store.now (name_assigned store.now scope.0 locals.now name.now v.now).0 }
    ensures local { is_local locals.now name.now ≡ true → name_assigned store.now scope.0 locals.now name.now v.now ≡ (store.now, Ok tt) }
    ensures scope { is_local locals.now name.now ≡ false → locals_after locals.now name.now v.now ≡ locals.now }
{}

/// Where an assignment answers no fault, what was assigned is read back as the member of that name.
pub fn assigned_reads(store: &Store, o: Oid, name: &Txt, v: &Value)
    requires object { o.0 < length store.now }
    requires done { (object_assigned store.now o.0 name.now v.now).1 ≡ Ok tt }
    ensures { member (object_assigned store.now o.0 name.now v.now).0 (prim (Value.Obj o)) name.now ≡ prim v.now }
{}
