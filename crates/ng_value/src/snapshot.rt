//! Snapshots: what a watcher keeps of a value, and when two differ.
ghost use Rattle.std.specs.Prelude.{◌≡◌, ◌↔◌, IsTrue, map, not};
ghost use Rattle.ng_base.specs.Views.{views_from, fields_from};
ghost use Rattle.ng_base.specs.ViewOf.{view_of, field_of};
ghost use Rattle.ng_language.specs.Snapshots.{same_view, same_views, same_fields, differs};
ghost use Rattle.ng_value.specs.Snaps.{snap_of};

use crate::operators::same;
use crate::parts::{fields_in, first_field, first_view, views_in};
use ng_base::txt::Txt;
use ng_base::view::View;

/// A snapshot: a view that holds what its kind keeps of a value.
#[derive(Drop)]
pub struct Snap {
    view: View,
}

impl Snap {
    /// A snapshot that holds a view as it is.
    pub fn of_view(view: View) -> Snap
        ensures { snap_of result ≡ view_of view }
    {
        Snap { view }
    }

    /// The view that it holds.
    pub fn view(&self) -> &View
        ensures { view_of result.now ≡ snap_of self.now }
    {
        &self.view
    }
}

/// Whether two snapshots differ.
pub fn differs(a: &Snap, b: &Snap) -> bool
    ensures value { result ≡ differs (snap_of a.now) (snap_of b.now) }
    ensures unequal { IsTrue result ↔ ¬ (snap_of a.now ≡ snap_of b.now) }
{
    !same_view(&a.view, &b.view)
}

#[cycle(same)]
fn same_view(a: &View, b: &View) -> bool
    ensures { result ≡ same_view (view_of a.now) (view_of b.now) }
{
    match (a, b) {
        (View::Prim(v), View::Prim(w)) => same(v, w),
        (View::List(x), View::List(y)) => same_views(views_in(x), views_in(y)),
        (View::Rec(x), View::Rec(y)) => same_fields(fields_in(x), fields_in(y)),
        _ => false,
    }
}

#[cycle(same)]
fn same_views(a: &[View], b: &[View]) -> bool
    ensures { result ≡ same_views (views_from (map view_of a.now)) (views_from (map view_of b.now)) }
{
    let mut left = a;
    let mut right = b;
    while let Some((v, rest)) = first_view(left) {
        let Some((w, others)) = first_view(right) else {
            return false;
        };
        if !same_view(v, w) {
            return false;
        }
        left = rest;
        right = others;
    }
    match first_view(right) {
        None => true,
        Some(_) => false,
    }
}

#[cycle(same)]
fn same_fields(a: &[(Txt, View)], b: &[(Txt, View)]) -> bool
    ensures { result ≡ same_fields (fields_from (map field_of a.now)) (fields_from (map field_of b.now)) }
{
    let mut left = a;
    let mut right = b;
    while let Some((f, rest)) = first_field(left) {
        let Some((g, others)) = first_field(right) else {
            return false;
        };
        if !f.0.same(&g.0) {
            return false;
        }
        if !same_view(&f.1, &g.1) {
            return false;
        }
        left = rest;
        right = others;
    }
    match first_field(right) {
        None => true,
        Some(_) => false,
    }
}
