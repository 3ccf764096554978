//! What stands under a name of a value.
ghost use Rattle.std.specs.Prelude.{◌≡◌, ◌<◌, ℕ, pos, length, map, IfOk, IfSome, IsSome, Ok, Some, slice_get, true};
ghost use Rattle.std.specs.Map.{lookup};
ghost use Rattle.std.specs.Str.{bytes_eq};
ghost use Rattle.ng_base.specs.Faults.{is_memory};
ghost use Rattle.ng_base.specs.Meets.{Gives};
ghost use Rattle.ng_base.specs.Objects.{object_at, is_array, StandsAmong};
ghost use Rattle.ng_base.specs.Views.{prim, views_list, fields_list};
ghost use Rattle.ng_base.specs.declared.value.Value.TheVariants as value;
ghost use Rattle.ng_base.specs.ViewOf.{view_of, views_of, fields_of, field_of};
ghost use Rattle.ng_base.specs.declared.name.Oid.{Oid};
ghost use Rattle.ng_language.specs.Objects.{items_at};
ghost use Rattle.ng_language.specs.Views.{ViewStands, ViewsStand, FieldsStand};
ghost use Rattle.ng_members.specs.Members.{undefined, view_or_undefined, is_length, count, object_member, char_or_undefined, text_member, list_member, record_member, member, has_members, item};

use crate::items::views_count;
use ng_base::fault::{Fault, Memory};
use ng_base::heap::{Heap, ObjKind};
use ng_base::index::index_of;
use ng_base::name::Oid;
use ng_base::reader::Plain;
use ng_base::txt::Txt;
use ng_base::value::Value;
use ng_base::view::{Fields, View, Views};
use ng_store::Store;
use ng_value::copies::copied;
use ng_value::texts::to_text;
use std::alloc::Global;

/// What isn't there.
pub fn undefined() -> View
    ensures { view_of result ≡ undefined }
{
    View::of_value(Value::Undefined)
}

/// A number of items or characters.
pub fn count(n: usize) -> Result<View, Memory>
    ensures { IfOk result (λ v. view_of v ≡ count n) }
{
    match i64::try_from(n) {
        Ok(n) => Ok(View::of_value(Value::Int(n))),
        Err(_) => Err(Memory::Worn),
    }
}

pub fn is_array(kind: ObjKind) -> bool
    ensures { result ≡ is_array kind }
{
    match kind {
        ObjKind::Array => true,
        ObjKind::Plain => false,
        ObjKind::Scope => false,
        ObjKind::Event => false,
    }
}

fn is_length(name: &Txt) -> bool
    ensures { result ≡ is_length name.now }
{
    name.is_word("length")
}

/// The length of an array, and else what the object or its prototypes have.
fn object_member(store: &Store, o: Oid, name: &Txt) -> Result<View, Memory>
    requires { o.0 < length store.now }
    ensures value { IfOk result (λ v. view_of v ≡ object_member store.now o.0 name.now) }
    ensures stands { IfOk result (λ v. ViewStands (length store.now) (view_of v)) }
{
    if is_array(store.kind(o)) && is_length(name) {
        return count(store.len(o) as usize);
    }
    match store.look(o, name) {
        Some(v) => Ok(View::of_value(v.copied()?)),
        None => Ok(undefined()),
    }
}

/// A character as a text.
fn char_view(alloc: Global, c: char) -> Result<View, Memory>
    ensures { IfOk result (λ v. view_of v ≡ char_or_undefined (Some c)) }
{
    let mut text = Txt::new(alloc);
    text.push(c)?;
    Ok(View::of_value(Value::Text(text)))
}

/// The character at a place of a text.
fn char_at(alloc: Global, t: &Txt, i: u32) -> Result<View, Memory>
    ensures { IfOk result (λ v. view_of v ≡ char_or_undefined (slice_get t.now i)) }
{
    let mut rest = Plain::new(t.as_str());
    let mut left = i;
    while let Some((c, behind)) = rest.first() {
        if left == 0 {
            return char_view(alloc, c);
        }
        left -= 1;
        rest = behind;
    }
    Ok(undefined())
}

fn text_member(alloc: Global, t: &Txt, name: &Txt) -> Result<View, Memory>
    ensures value { IfOk result (λ v. view_of v ≡ text_member t.now name.now) }
    ensures stands { (n : ℕ) → IfOk result (λ v. ViewStands n (view_of v)) }
{
    if is_length(name) {
        return count(t.len());
    }
    match index_of(name) {
        Some(i) => char_at(alloc, t, i),
        None => Ok(undefined()),
    }
}

/// The view at a place of a fresh list.
fn view_at(alloc: Global, views: &[View], i: usize) -> Result<View, Memory>
    ensures value { IfOk result (λ v. view_of v ≡ view_or_undefined (slice_get (map view_of views.now) i)) }
{
    match views.get(i) {
        Some(v) => copied(alloc, v),
        None => Ok(undefined()),
    }
}

fn list_member(alloc: Global, views: &Views, name: &Txt) -> Result<View, Memory>
    ensures value { IfOk result (λ v. view_of v ≡ list_member (views_list (views_of views.now)) name.now) }
    ensures stands { (n : ℕ) → ViewsStand n (views_of views.now) → IfOk result (λ v. ViewStands n (view_of v)) }
{
    if is_length(name) {
        return count(views_count(views));
    }
    match index_of(name) {
        Some(i) => view_at(alloc, views.as_slice(), i as usize),
        None => Ok(undefined()),
    }
}

/// The view under a name of a fresh record.
fn field_under(alloc: Global, fields: &[(Txt, View)], name: &Txt) -> Result<View, Memory>
    ensures { IfOk result (λ v. view_of v ≡ record_member (map field_of fields.now) name.now) }
{
    for field in fields {
        if name.same(&field.0) {
            return copied(alloc, &field.1);
        }
    }
    Ok(undefined())
}

fn record_member(alloc: Global, fields: &Fields, name: &Txt) -> Result<View, Memory>
    ensures value { IfOk result (λ v. view_of v ≡ record_member (fields_list (fields_of fields.now)) name.now) }
    ensures stands { (n : ℕ) → FieldsStand n (fields_of fields.now) → IfOk result (λ v. ViewStands n (view_of v)) }
{
    field_under(alloc, fields.as_slice(), name)
}

/// What stands under a name of a value that is no fresh list or record.
#[tactic(auto, unfolding(crate::specs::Members::member))]
pub fn value_member(alloc: Global, store: &Store, v: &Value, name: &Txt) -> Result<View, Memory>
    requires { ViewStands (length store.now) (prim v.now) }
    ensures value { IfOk result (λ w. view_of w ≡ member store.now (prim v.now) name.now) }
    ensures stands { IfOk result (λ w. ViewStands (length store.now) (view_of w)) }
{
    match v {
        Value::Obj(o) => object_member(store, *o, name),
        Value::Text(t) => text_member(alloc, t, name),
        _ => Ok(undefined()),
    }
}

/// What stands under a name of a value.
#[tactic(auto, unfolding(crate::specs::Members::member))]
pub fn member(alloc: Global, store: &Store, v: &View, name: &Txt) -> Result<View, Memory>
    requires { ViewStands (length store.now) (view_of v.now) }
    ensures value { IfOk result (λ w. view_of w ≡ member store.now (view_of v.now) name.now) }
    ensures stands { IfOk result (λ w. ViewStands (length store.now) (view_of w)) }
{
    match v {
        View::Prim(v) => value_member(alloc, store, v, name),
        View::List(views) => list_member(alloc, views, name),
        View::Rec(fields) => record_member(alloc, fields, name),
    }
}

fn has_members(v: &Value) -> bool
    ensures { result ≡ has_members (prim v.now) }
{
    match v {
        Value::Obj(_) => true,
        Value::Text(_) => true,
        _ => false,
    }
}

/// The item of an array at a whole number.
fn array_item(store: &Store, o: Oid, n: i64) -> Option<&Value>
    requires { o.0 < length store.now }
    ensures value { IfSome result (λ w. item store.now (prim (value.Obj o)) (prim (value.Int n)) ≡ Ok (prim w.now)) }
    ensures stands { IfSome result (λ w. StandsAmong (length store.now) w.now) }
    ensures there { (i : ℕ) → is_array (object_at store.now o.0).kind ≡ true → n ≡ pos i → i < length (items_at store.now o.0) → IsSome result }
{
    if !is_array(store.kind(o)) {
        return None;
    }
    let count = store.len(o);
    match u32::try_from(n) {
        Ok(i) if i < count => Some(store.item(o, i)),
        _ => None,
    }
}

/// The item of a stored array at a whole number: it is read where it stands, and the number is not spelled.
fn item_seen<'a>(store: &'a Store, v: &Value, index: &View) -> Option<&'a Value>
    requires { ViewStands (length store.now) (prim v.now) }
    ensures value { IfSome result (λ w. item store.now (prim v.now) (view_of index.now) ≡ Ok (prim w.now)) }
    ensures stands { IfSome result (λ w. ViewStands (length store.now) (prim w.now)) }
    ensures there { (o : Oid) (i : ℕ) → v.now ≡ value.Obj o → view_of index.now ≡ prim (value.Int (pos i)) → is_array (object_at store.now o.0).kind ≡ true → i < length (items_at store.now o.0) → IsSome result }
{
    match (v, index) {
        (Value::Obj(o), View::Prim(Value::Int(n))) => array_item(store, *o, *n),
        _ => None,
    }
}

/// A member by index of a value that is no fresh list or record: the name is the text of the index.
#[tactic(auto, unfolding(crate::specs::Members::item))]
pub fn value_item(alloc: Global, store: &Store, v: &Value, index: &View) -> Result<View, Fault>
    requires value { ViewStands (length store.now) (prim v.now) }
    requires index { ViewStands (length store.now) (view_of index.now) }
    ensures exact { Gives is_memory view_of (item store.now (prim v.now) (view_of index.now)) result }
    ensures stands { IfOk result (λ w. ViewStands (length store.now) (view_of w)) }
{
    if let Some(w) = item_seen(store, v, index) {
        return Ok(View::of_value(w.copied()?));
    }
    if !has_members(v) {
        return Ok(undefined());
    }
    let name = to_text(alloc, store, index)?;
    Ok(value_member(alloc, store, v, &name)?)
}

/// A member by index of a fresh list or record.
#[tactic(auto, unfolding(crate::specs::Members::item))]
fn fresh_item(alloc: Global, store: &Store, v: &View, index: &View) -> Result<View, Fault>
    requires value { ViewStands (length store.now) (view_of v.now) }
    requires index { ViewStands (length store.now) (view_of index.now) }
    requires fresh { has_members (view_of v.now) ≡ true }
    ensures exact { Gives is_memory view_of (item store.now (view_of v.now) (view_of index.now)) result }
    ensures stands { IfOk result (λ w. ViewStands (length store.now) (view_of w)) }
{
    let name = to_text(alloc, store, index)?;
    Ok(member(alloc, store, v, &name)?)
}

/// A member by index: the name is the text of the index.
#[tactic(auto, unfolding(crate::specs::Members::item))]
pub fn item(alloc: Global, store: &Store, v: &View, index: &View) -> Result<View, Fault>
    requires value { ViewStands (length store.now) (view_of v.now) }
    requires index { ViewStands (length store.now) (view_of index.now) }
    ensures exact { Gives is_memory view_of (item store.now (view_of v.now) (view_of index.now)) result }
    ensures stands { IfOk result (λ w. ViewStands (length store.now) (view_of w)) }
{
    match v {
        View::Prim(v) => value_item(alloc, store, v, index),
        View::List(_) => fresh_item(alloc, store, v, index),
        View::Rec(_) => fresh_item(alloc, store, v, index),
    }
}
