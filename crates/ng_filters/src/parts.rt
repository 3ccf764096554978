//! The items and members of a value.
ghost use Rattle.std.specs.Prelude.{◌≡◌, ◌<◌, ◌+◌, ◌∷◌, length, map, drop, option_map, IfOk, IfErr, IfSome};
ghost use Rattle.std.specs.Map.{lookup};
ghost use Rattle.std.specs.Str.{bytes_eq};
ghost use Rattle.ng_base.specs.ViewOf.{view_of, field_of};
ghost use Rattle.ng_base.specs.declared.fault.Memory.TheVariants.{Refused};
ghost use Rattle.ng_language.specs.Views.{ViewStands};
ghost use Rattle.ng_filters.specs.Parts.{items, property, length_of, or_undefined, member, member_at};
ghost use Rattle.ng_filters.specs.Seen.{seen};

use crate::view_ref::{Shape, ViewRef, of_value, of_view, shape_of};
use ng_base::fault::Memory;
use ng_base::heap::Heap;
use ng_base::lists::Names;
use ng_base::txt::Txt;
use ng_base::view::View;
use ng_store::Store;
use ng_value::copies::copied;
use std::alloc::Global;

/// The number of an array's items.
#[tactic(auto, using(crate::proofs::ViewParts::part_lengths))]
pub(crate) fn count(store: &Store, v: ViewRef<'_>) -> usize
    requires { ViewStands (length store.now) (seen v) }
    ensures { result ≡ length (items store.now (seen v.entry)) }
{
    match v {
        ViewRef::Obj(o) => store.len(o) as usize,
        ViewRef::List(views) => views.as_slice().len(),
        _ => 0,
    }
}

/// An item of an array.
pub(crate) fn item<'a>(store: &'a Store, v: ViewRef<'a>, i: usize) -> ViewRef<'a>
    requires stands { ViewStands (length store.now) (seen v) }
    requires below { i < length (items store.now (seen v)) }
    ensures item { drop i (items store.now (seen v.entry)) ≡ seen result ∷ drop (i + 1) (items store.now (seen v.entry)) }
    ensures stands { ViewStands (length store.now) (seen result) }
{
    match v {
        ViewRef::Obj(o) => {
            prove!(i < store.len(o) as usize);
            of_value(store.item(o, i as u32))
        }
        ViewRef::List(views) => of_view(&views.as_slice()[i]),
        _ => unreachable!(),
    }
}

/// A copy of an item of an array.
pub(crate) fn copied_item(
    alloc: Global,
    store: &Store,
    v: ViewRef<'_>,
    i: usize,
) -> Result<View, Memory>
    requires stands { ViewStands (length store.now) (seen v) }
    requires below { i < length (items store.now (seen v)) }
    ensures item { IfOk result (λ view. drop i (items store.now (seen v.entry)) ≡ view_of view ∷ drop (i + 1) (items store.now (seen v.entry))) }
    ensures refused { IfErr result (λ e. e ≡ Refused) }
{
    match v {
        ViewRef::Obj(o) => {
            prove!(i < store.len(o) as usize);
            Ok(View::of_value(store.item(o, i as u32).copied()?))
        }
        ViewRef::List(views) => copied(alloc, &views.as_slice()[i]),
        _ => unreachable!(),
    }
}

/// The first field of a name.
fn field<'a>(fields: &'a [(Txt, View)], name: &Txt) -> Option<&'a View>
    ensures { option_map (λ v. view_of v.now) result ≡ lookup (bytes_eq name.now) (map field_of fields.now) }
{
    for f in fields {
        if name.same(&f.0) {
            return Some(&f.1);
        }
    }
    None
}

/// The value under a name of an object or of its prototypes.
pub(crate) fn property<'a>(store: &'a Store, v: ViewRef<'a>, name: &Txt) -> Option<ViewRef<'a>>
    requires { ViewStands (length store.now) (seen v) }
    ensures property { option_map seen result ≡ property store.now (seen v.entry) name.now }
    ensures stands { IfSome result (λ w. ViewStands (length store.now) (seen w)) }
{
    match v {
        ViewRef::Obj(o) => match store.look(o, name) {
            None => None,
            Some(w) => Some(of_value(w)),
        },
        ViewRef::Rec(fields) => match field(fields.as_slice(), name) {
            None => None,
            Some(w) => Some(of_view(w)),
        },
        _ => None,
    }
}

/// The number of an array's items, or of a text's characters.
fn length_of(store: &Store, v: ViewRef<'_>) -> Option<usize>
    requires { ViewStands (length store.now) (seen v) }
    ensures { result ≡ length_of store.now (seen v.entry) }
{
    match v {
        ViewRef::Text(t) => Some(t.len()),
        ViewRef::Obj(o) => match shape_of(store, v) {
            Shape::Items => Some(store.len(o) as usize),
            _ => None,
        },
        ViewRef::List(views) => Some(views.as_slice().len()),
        _ => None,
    }
}

fn or_undefined(v: Option<ViewRef<'_>>) -> ViewRef<'_>
    ensures { seen result ≡ or_undefined (option_map seen v.entry) }
{
    match v {
        None => ViewRef::Undefined,
        Some(w) => w,
    }
}

/// A member by its name.
pub(crate) fn member<'a>(store: &'a Store, v: ViewRef<'a>, name: &Txt) -> ViewRef<'a>
    requires { ViewStands (length store.now) (seen v) }
    ensures member { seen result ≡ member store.now (seen v.entry) name.now }
    ensures stands { ViewStands (length store.now) (seen result) }
{
    if name.is_word("length") {
        if let Some(n) = length_of(store, v) {
            return ViewRef::Length(n);
        }
    }
    or_undefined(property(store, v, name))
}

/// The member at the end of a path.
pub(crate) fn member_at<'a>(store: &'a Store, v: ViewRef<'a>, path: &Names) -> ViewRef<'a>
    requires { ViewStands (length store.now) (seen v) }
    ensures member { seen result ≡ member_at store.now (seen v.entry) path.now }
    ensures stands { ViewStands (length store.now) (seen result) }
{
    let mut at = v;
    for name in path.as_slice() {
        at = member(store, at, name);
    }
    at
}
