//! What is made along the left of an assignment.
ghost use Rattle.std.specs.Prelude.{◌≡◌, ◌≤◌, length, IfOk};
ghost use Rattle.ng_base.specs.Objects.{StandsAmong};
ghost use Rattle.ng_base.specs.Views.{prim};
ghost use Rattle.ng_base.specs.ViewOf.{view_of};
ghost use Rattle.ng_write.specs.Making.{value_in, member_value, is_nothing, made_member};
ghost use Rattle.ng_write.specs.Written.{Writes};

use crate::assigning::assign_member;
use crate::storing::add_plain;
use ng_base::fault::{Fault, Memory};
use ng_base::txt::Txt;
use ng_base::value::Value;
use ng_base::view::View;
use ng_members::members::member;
use ng_store::Store;
use std::alloc::Global;

fn value_in(view: View) -> Value
    ensures { result ≡ value_in (view_of view) }
{
    match view {
        View::Prim(v) => v,
        View::List(_) => Value::Undefined,
        View::Rec(_) => Value::Undefined,
    }
}

/// The value of a member of a value.
pub fn member_value(
    alloc: Global,
    store: &Store,
    target: &Value,
    name: &Txt,
) -> Result<Value, Memory>
    requires { StandsAmong (length store.now) target.now }
    ensures value { IfOk result (λ v. v ≡ member_value store.now target.now name.now) }
    ensures stands { IfOk result (λ v. StandsAmong (length store.now) v) }
{
    let view = View::of_value(target.copied()?);
    Ok(value_in(member(alloc, store, &view, name)?))
}

/// Undefined or null.
fn is_nothing(v: &Value) -> bool
    ensures { result ≡ is_nothing v.now }
{
    match v {
        Value::Undefined | Value::Null => true,
        _ => false,
    }
}

/// `a.b` along the left of an assignment: an undefined or null one is first made an empty object.
pub fn made_member(
    alloc: Global,
    store: &mut Store,
    target: &Value,
    name: &Txt,
) -> Result<Value, Fault>
    requires { StandsAmong (length store.old) target.now }
    ensures made { Writes (made_member store.old target.now name.now) store.new result }
    ensures grown { length store.old ≤ length store.new }
    ensures stands { IfOk result (λ v. StandsAmong (length store.new) v) }
{
    let found = member_value(alloc, store, target, name)?;
    if !is_nothing(&found) {
        return Ok(found);
    }
    let new = add_plain(store, &[])?;
    assign_member(store, target, name, new.copied()?)?;
    Ok(new)
}
