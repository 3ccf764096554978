//! Values as rows name them.
ghost use Rattle.std.specs.Prelude.{length, IfSome};
ghost use Rattle.ng_base.specs.Objects.{StandsAmong};
ghost use Rattle.ng_base.specs.ViewOf.{view_of};
ghost use Rattle.ng_language.specs.Views.{ViewStands};

use ng_base::name::{FunId, Oid};
use ng_base::txt::Txt;
use ng_base::value::Value;
use ng_base::view::View;
use ng_store::store::Store;
use std::alloc::Global;

/// A value. An object is named by its place in the store.
#[derive(Clone, Copy, Debug)]
pub(crate) enum Of {
    Undefined,
    Null,
    Bool(bool),
    Int(i64),
    Nan,
    Text(&'static str),
    Object(u32),
    Function,
}

/// The value, where memory is at hand and its object stands.
pub(crate) fn value(alloc: Global, store: &Store, of: Of) -> Option<Value>
    ensures { IfSome result (StandsAmong (length store.now)) }
{
    match of {
        Of::Undefined => Some(Value::Undefined),
        Of::Null => Some(Value::Null),
        Of::Bool(b) => Some(Value::Bool(b)),
        Of::Int(n) => Some(Value::Int(n)),
        Of::Nan => Some(Value::Nan),
        Of::Text(t) => Some(Value::Text(Txt::from_str(alloc, t).ok()?)),
        Of::Object(o) => object(store, o),
        Of::Function => Some(Value::Fun(FunId(7))),
    }
}

fn object(store: &Store, o: u32) -> Option<Value>
    ensures { IfSome result (StandsAmong (length store.now)) }
{
    if (o as usize) < store.count() {
        Some(Value::Obj(Oid(o)))
    } else {
        None
    }
}

/// The same as a view.
pub(crate) fn view(alloc: Global, store: &Store, of: Of) -> Option<View>
    ensures { IfSome result (λ v. ViewStands (length store.now) (view_of v)) }
{
    let value = value(alloc, store, of)?;
    Some(View::of_value(value))
}

/// Sets a name of an object, where both stand.
pub(crate) fn put(alloc: Global, store: &mut Store, o: u32, name: &str, of: Of) -> bool {
    let Some(value) = value(alloc, store, of) else {
        return false;
    };
    let Ok(name) = Txt::from_str(alloc, name) else {
        return false;
    };
    if (o as usize) < store.count() {
        store.set(Oid(o), &name, value).is_ok()
    } else {
        false
    }
}
