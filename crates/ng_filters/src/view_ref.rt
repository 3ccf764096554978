//! Values as filters read them: borrowed, with what stands in a store and what is fresh side by side.
ghost use Rattle.std.specs.Prelude.{◌≡◌, ◌<◌, length};
ghost use Rattle.ng_base.specs.Objects.{StandsAmong};
ghost use Rattle.ng_base.specs.Views.{prim};
ghost use Rattle.ng_base.specs.ViewOf.{view_of};
ghost use Rattle.ng_language.specs.Views.{ViewStands};
ghost use Rattle.ng_filters.specs.Parts.{shape_of, shape_of_object};
ghost use Rattle.ng_filters.specs.Seen.{seen};

use ng_base::heap::{Heap, ObjKind};
use ng_base::name::{FunId, Oid};
use ng_base::txt::Txt;
use ng_base::value::Value;
use ng_base::view::{Fields, View, Views};
use ng_store::Store;

/// A value that is read. `Length` is a number of items or characters.
#[derive(Clone, Copy, Drop)]
pub(crate) enum ViewRef<'a> {
    Undefined,
    Null,
    Bool(bool),
    Int(i64),
    Length(usize),
    Nan,
    Text(&'a Txt),
    Obj(Oid),
    Fun(FunId),
    List(&'a Views),
    Rec(&'a Fields),
}

/// What of a value a filter goes through.
#[derive(Clone, Copy, Debug, PartialEq, Eq)]
pub(crate) enum Shape {
    Items,
    Names,
    Function,
    Primitive,
}

/// A value of a store.
pub(crate) fn of_value(v: &Value) -> ViewRef<'_>
    ensures { seen result ≡ prim v.now }
{
    match v {
        Value::Undefined => ViewRef::Undefined,
        Value::Null => ViewRef::Null,
        Value::Bool(b) => ViewRef::Bool(*b),
        Value::Int(n) => ViewRef::Int(*n),
        Value::Nan => ViewRef::Nan,
        Value::Text(t) => ViewRef::Text(t),
        Value::Obj(o) => ViewRef::Obj(*o),
        Value::Fun(f) => ViewRef::Fun(*f),
    }
}

/// A view.
pub(crate) fn of_view(v: &View) -> ViewRef<'_>
    ensures { seen result ≡ view_of v.now }
{
    match v {
        View::Prim(v) => of_value(v),
        View::List(views) => ViewRef::List(views),
        View::Rec(fields) => ViewRef::Rec(fields),
    }
}

fn shape_of_object(kind: ObjKind) -> Shape
    ensures { result ≡ shape_of_object kind }
{
    match kind {
        ObjKind::Array => Shape::Items,
        _ => Shape::Names,
    }
}

/// An array has items, every other object has names, functions stand apart, and the rest are primitives.
pub(crate) fn shape_of(store: &Store, v: ViewRef<'_>) -> Shape
    requires { ViewStands (length store.now) (seen v) }
    ensures { result ≡ shape_of store.now (seen v.entry) }
{
    match v {
        ViewRef::Obj(o) => shape_of_object(store.kind(o)),
        ViewRef::Fun(_) => Shape::Function,
        ViewRef::List(_) => Shape::Items,
        ViewRef::Rec(_) => Shape::Names,
        _ => Shape::Primitive,
    }
}
