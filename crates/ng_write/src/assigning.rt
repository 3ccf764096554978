//! Assignment to names, members and items.
ghost use Rattle.std.specs.Prelude.{◌≡◌, ◌<◌, ◌≤◌, ℕ, length, Ok, None, Some, if◌then◌else◌};
ghost use Rattle.std.specs.List.{list_all};
ghost use Rattle.std.specs.Char.{is_ascii_digit};
ghost use Rattle.ng_base.specs.Objects.{StandsAmong};
ghost use Rattle.ng_language.specs.Objects.{set_name};
ghost use Rattle.ng_members.specs.Leaves.{LocalsStand};
ghost use Rattle.ng_write.specs.Assigning.{is_kept_name, scope_assigned, length_assigned, item_assigned, is_whole_name, beyond, indexed, array_assigned, object_assigned, member_assigned, is_local, place_among, locals_after, name_assigned};
ghost use Rattle.ng_write.specs.Written.{Writes};

use ng_base::fault::Fault;
use ng_base::heap::{Heap, ObjKind};
use ng_base::index::index_of;
use ng_base::locals::Locals;
use ng_base::name::Oid;
use ng_base::reader::Plain;
use ng_base::txt::Txt;
use ng_base::value::Value;
use ng_store::Store;

/// A scope's number, its parent and the root.
pub(crate) fn is_kept_name(name: &Txt) -> bool
    ensures { result ≡ is_kept_name name.now }
{
    name.is_word("$id") || name.is_word("$parent") || name.is_word("$root")
}

#[tactic(auto, using(crate::proofs::More::as_many))]
fn assign_scope(store: &mut Store, o: Oid, name: &Txt, v: Value) -> Result<(), Fault>
    requires object { o.0 < length store.old }
    requires value { StandsAmong (length store.old) v }
    ensures assigned { Writes (scope_assigned store.old o.0 name.now v) store.new result }
    ensures len { length store.new ≡ length store.old }
{
    if is_kept_name(name) {
        return Err(Fault::NotAssignable);
    }
    store.set(o, name, v)?;
    Ok(())
}

/// Cuts an array.
#[tactic(auto, using(crate::proofs::More::as_many, crate::proofs::Filled::splice_cut))]
fn assign_length(store: &mut Store, o: Oid, v: &Value) -> Result<(), Fault>
    requires { o.0 < length store.old }
    ensures assigned { Writes (length_assigned store.old o.0 v.now) store.new result }
    ensures len { length store.new ≡ length store.old }
{
    let Value::Int(n) = v else {
        return Err(Fault::Range);
    };
    let count = store.len(o);
    if *n < 0 || *n > i64::from(count) {
        return Err(Fault::Range);
    }
    let from = *n as u32;
    store.splice(o, from, count - from, &[])?;
    Ok(())
}

/// Replaces an item of an array, or adds the next.
#[tactic(auto, using(crate::proofs::More::as_many))]
fn assign_index(store: &mut Store, o: Oid, i: u32, v: Value) -> Result<(), Fault>
    requires object { o.0 < length store.old }
    requires value { StandsAmong (length store.old) v }
    ensures assigned { Writes (item_assigned store.old o.0 i v) store.new result }
    ensures len { length store.new ≡ length store.old }
{
    let count = store.len(o);
    if i < count {
        store.put_item(o, i, v);
        return Ok(());
    }
    if i == count {
        store.push(o, v)?;
        return Ok(());
    }
    Err(Fault::Range)
}

/// Digits alone.
fn are_digits(mut reader: Plain<'_>) -> bool
    ensures { result ≡ list_all is_ascii_digit reader.entry }
{
    while let Some(c) = reader.next() {
        if !c.is_ascii_digit() {
            return false;
        }
    }
    true
}

/// Digits without a leading zero, as many as there may be.
fn is_whole_name(name: &Txt) -> bool
    ensures { result ≡ is_whole_name name.now }
{
    let reader = Plain::new(name.as_str());
    let Some((c, rest)) = reader.first() else {
        return false;
    };
    if c == '0' {
        return rest.first().is_none();
    }
    are_digits(reader)
}

/// Why a name of an array that is no index isn't assigned to.
fn beyond(name: &Txt) -> Fault
    ensures { result ≡ beyond name.now }
{
    if is_whole_name(name) {
        Fault::Range
    } else {
        Fault::NotAssignable
    }
}

fn assign_array(store: &mut Store, o: Oid, name: &Txt, v: Value) -> Result<(), Fault>
    requires object { o.0 < length store.old }
    requires value { StandsAmong (length store.old) v }
    ensures assigned { Writes (array_assigned store.old o.0 name.now v) store.new result }
    ensures len { length store.new ≡ length store.old }
{
    if name.is_word("length") {
        return assign_length(store, o, &v);
    }
    match index_of(name) {
        Some(i) => assign_index(store, o, i, v),
        None => Err(beyond(name)),
    }
}

/// Sets a name of an object that keeps none for itself.
#[tactic(auto, using(crate::proofs::More::as_many))]
fn set(store: &mut Store, o: Oid, name: &Txt, v: Value) -> Result<(), Fault>
    requires object { o.0 < length store.old }
    requires value { StandsAmong (length store.old) v }
    ensures set { Writes (set_name store.old o.0 name.now v, Ok tt) store.new result }
    ensures len { length store.new ≡ length store.old }
{
    store.set(o, name, v)?;
    Ok(())
}

/// Assigns to a name of an object.
#[tactic(auto, unfolding(crate::specs::Assigning::object_assigned))]
pub fn assign_object(store: &mut Store, o: Oid, name: &Txt, v: Value) -> Result<(), Fault>
    requires object { o.0 < length store.old }
    requires value { StandsAmong (length store.old) v }
    ensures assigned { Writes (object_assigned store.old o.0 name.now v) store.new result }
    ensures len { length store.new ≡ length store.old }
{
    match store.kind(o) {
        ObjKind::Plain => set(store, o, name, v),
        ObjKind::Array => assign_array(store, o, name, v),
        ObjKind::Scope => assign_scope(store, o, name, v),
        ObjKind::Event => set(store, o, name, v),
    }
}

/// `a.b = v`.
pub fn assign_member(store: &mut Store, target: &Value, name: &Txt, v: Value) -> Result<(), Fault>
    requires target { StandsAmong (length store.old) target.now }
    requires value { StandsAmong (length store.old) v }
    ensures assigned { Writes (member_assigned store.old target.now name.now v) store.new result }
    ensures len { length store.new ≡ length store.old }
{
    match target {
        Value::Obj(o) => assign_object(store, *o, name, v),
        _ => Err(Fault::NotAssignable),
    }
}

/// The place of the local of a name.
fn local_place(locals: &[(Txt, Value)], name: &Txt) -> Option<usize>
    ensures { result ≡ place_among name.now 0 locals.now }
{
    for (i, local) in locals.iter().enumerate() {
        if name.same(&local.0) {
            return Some(i);
        }
    }
    None
}

/// Gives the local of a name another value, where there is one, and else hands the value back.
#[tactic(auto, using(crate::proofs::Placed::places))]
fn assign_local(locals: &mut Locals, name: &Txt, v: Value) -> Option<Value>
    ensures locals { locals.new ≡ locals_after locals.old name.now v }
    ensures handed { result ≡ (if is_local locals.old name.now then None else Some v) }
{
    match local_place(locals.as_slice(), name) {
        Some(place) => {
            locals.put(place, v);
            None
        }
        None => Some(v),
    }
}

/// `a = v`: a local of that name, else a name of the scope's own object.
#[tactic(auto, unfolding(crate::specs::Assigning::name_assigned))]
pub fn assign_name(
    store: &mut Store,
    scope: Oid,
    locals: &mut Locals,
    name: &Txt,
    v: Value,
) -> Result<(), Fault>
    requires scope { scope.0 < length store.old }
    requires value { StandsAmong (length store.old) v }
    ensures assigned { Writes (name_assigned store.old scope.0 locals.old name.now v) store.new result }
    ensures locals { locals.new ≡ locals_after locals.old name.now v }
    ensures stand { LocalsStand (length store.old) locals.old → LocalsStand (length store.new) locals.new }
    ensures len { length store.new ≡ length store.old }
{
    match assign_local(locals, name, v) {
        None => Ok(()),
        Some(v) => assign_object(store, scope, name, v),
    }
}
