//! Copies of views.
ghost use Rattle.std.specs.Prelude.{◌≡◌, map, IfOk, IfErr};
ghost use Rattle.ng_base.specs.Views.{views_from, fields_from};
ghost use Rattle.ng_base.specs.ViewOf.{view_of, views_of, fields_of, field_of};
ghost use Rattle.ng_base.specs.declared.fault.Memory.TheVariants.{Refused};

use crate::parts::{fields_in, first_field, first_view, views_in};
use ng_base::fault::Memory;
use ng_base::txt::Txt;
use ng_base::view::{Fields, View, Views};
use std::alloc::Global;

/// A copy of a view.
#[cycle(copy)]
pub fn copied(alloc: Global, v: &View) -> Result<View, Memory>
    ensures copy { IfOk result (λ w. view_of w ≡ view_of v.now) }
    ensures refused { IfErr result (λ e. e ≡ Refused) }
{
    match v {
        View::Prim(v) => Ok(View::of_value(v.copied()?)),
        View::List(views) => Ok(View::of_list(copied_views(alloc, views_in(views))?)),
        View::Rec(fields) => Ok(View::of_fields(copied_fields(alloc, fields_in(fields))?)),
    }
}

#[cycle(copy)]
#[tactic(auto, using(crate::proofs::ViewParts::view_parts))]
fn copied_views(alloc: Global, views: &[View]) -> Result<Views, Memory>
    ensures copy { IfOk result (λ w. views_of w ≡ views_from (map view_of views.now)) }
    ensures refused { IfErr result (λ e. e ≡ Refused) }
{
    let mut done = Views::new(alloc);
    let mut left = views;
    while let Some((v, rest)) = first_view(left) {
        done.push(copied(alloc, v)?)?;
        left = rest;
    }
    Ok(done)
}

#[cycle(copy)]
#[tactic(auto, using(crate::proofs::ViewParts::view_parts))]
fn copied_fields(alloc: Global, fields: &[(Txt, View)]) -> Result<Fields, Memory>
    ensures copy { IfOk result (λ w. fields_of w ≡ fields_from (map field_of fields.now)) }
    ensures refused { IfErr result (λ e. e ≡ Refused) }
{
    let mut done = Fields::new(alloc);
    let mut left = fields;
    while let Some((f, rest)) = first_field(left) {
        done.push(f.0.copied()?, copied(alloc, &f.1)?)?;
        left = rest;
    }
    Ok(done)
}
