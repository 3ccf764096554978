//! What a snapshot or a text has of a value, within the limits of levels and nodes.
ghost use Rattle.std.specs.Prelude.{◌≡◌, ◌<◌, ◌≤◌, length, map, []};
ghost use Rattle.std.specs.List.{AllByRecursion};
ghost use Rattle.ng_base.specs.Faults.{is_memory};
ghost use Rattle.ng_base.specs.Meets.{Meets, Gives};
ghost use Rattle.ng_base.specs.Objects.{object_at, StandsAmong};
ghost use Rattle.ng_base.specs.Views.{ViewTree, prim, list, rec, views_from, views_list, fields_from, fields_list};
ghost use Rattle.ng_base.specs.ViewOf.{view_of, views_of, fields_of, field_of};
ghost use Rattle.ng_base.specs.declared.value.Value.TheVariants.{Obj};
ghost use Rattle.ng_language.specs.Unfolding.{unfold_within, unfold_object, unfold_items, unfold_fields, prims, own_entries, below_object, unfold_list, unfold_record, unfolded, name_mode, item_mode, level_limit, node_limit, Field};
ghost use Rattle.ng_language.specs.Views.{ViewStands, ViewsStand, FieldsStand};
ghost use Rattle.ng_value.specs.Seen.{view_spent, views_spent, fields_spent};

use crate::ordering::{object_order, record_order};
use crate::tables::{
    below_object, is_field_left_out, is_property_left_out, item_mode, name_mode, unfolds_lists,
    unfolds_records,
};
use ng_base::fault::Fault;
use ng_base::heap::Heap;
use ng_base::name::Oid;
use ng_base::txt::Txt;
use ng_base::value::Value;
use ng_base::view::{Fields, View, Views};
use ng_language::unfolding::{Below, Mode};
use std::alloc::Global;

/// The view of a list that was unfolded.
#[tactic(auto, using(crate::proofs::ViewParts::view_parts))]
fn list_of(views: Views, left: u32) -> (View, u32)
    ensures { view_spent result ≡ (list (views_from (views_list (views_of views))), left) }
{
    (View::of_list(views), left)
}

/// The view of a record that was unfolded.
#[tactic(auto, using(crate::proofs::ViewParts::view_parts))]
fn record_of(fields: Fields, left: u32) -> (View, u32)
    ensures { view_spent result ≡ (rec (fields_from (fields_list (fields_of fields))), left) }
{
    (View::of_fields(fields), left)
}

/// A value of a heap, unfolded.
#[cycle(unfold)]
fn unfold_value<H: Heap>(
    alloc: Global,
    h: &H,
    mode: Mode,
    levels: u32,
    v: &Value,
    left: u32,
) -> Result<(View, u32), Fault>
    requires { StandsAmong (length (H.objects h.now)) v.now }
    ensures { Gives is_memory view_spent (unfold_within levels (H.objects h.now) mode (prim v.now) left) result }
{
    if levels == 0 || left == 0 {
        return Err(Fault::TooBig);
    }
    match v {
        Value::Obj(o) => unfold_object(alloc, h, mode, levels - 1, *o, left - 1),
        _ => Ok((View::of_value(v.copied()?), left - 1)),
    }
}

/// An object of a heap, unfolded.
#[cycle(unfold)]
fn unfold_object<H: Heap>(
    alloc: Global,
    h: &H,
    mode: Mode,
    levels: u32,
    o: Oid,
    left: u32,
) -> Result<(View, u32), Fault>
    requires { o.0 < length (H.objects h.now) }
    ensures { Gives is_memory view_spent (unfold_object mode (unfold_within levels (H.objects h.now)) (below_object mode (object_at (H.objects h.now) o.0).kind) (Obj o) (object_at (H.objects h.now) o.0) left) result }
{
    match below_object(mode, h.kind(o)) {
        Below::Nothing => Ok((View::of_value(Value::Obj(o)), left)),
        Below::Items => {
            let (views, left) = unfold_stored(alloc, h, item_mode(mode), levels, o, left)?;
            Ok(list_of(views, left))
        }
        Below::Names => {
            let (fields, left) = unfold_properties(alloc, h, mode, levels, o, left)?;
            let fields = object_order(alloc, mode, fields)?;
            Ok(record_of(fields, left))
        }
    }
}

/// The items of an array of a heap, unfolded.
#[cycle(unfold)]
fn unfold_stored<H: Heap>(
    alloc: Global,
    h: &H,
    mode: Mode,
    levels: u32,
    o: Oid,
    left: u32,
) -> Result<(Views, u32), Fault>
    requires { o.0 < length (H.objects h.now) }
    ensures { Gives is_memory views_spent (unfold_items (unfold_within levels (H.objects h.now) mode) (prims (object_at (H.objects h.now) o.0).items) [] left) result }
{
    let mut done = Views::new(alloc);
    let mut left = left;
    for i in 0..h.len(o) {
        match unfold_value(alloc, h, mode, levels, h.item(o, i), left) {
            Ok((view, rest)) => {
                done.push(view)?;
                left = rest;
            }
            Err(fault) => return Err(fault),
        }
    }
    Ok((done, left))
}

/// The named values of an object of a heap, unfolded.
#[cycle(unfold)]
fn unfold_properties<H: Heap>(
    alloc: Global,
    h: &H,
    mode: Mode,
    levels: u32,
    o: Oid,
    left: u32,
) -> Result<(Vec<(Txt, View)>, u32), Fault>
    requires { o.0 < length (H.objects h.now) }
    ensures { Gives is_memory fields_spent (unfold_fields mode (unfold_within levels (H.objects h.now) (name_mode mode)) (own_entries (object_at (H.objects h.now) o.0)) [] left) result }
{
    let names = h.names(alloc, o)?;
    let mut done = Vec::new(alloc);
    let mut left = left;
    for name in names.as_slice() {
        if let Some(v) = h.own(o, name) {
            if !is_property_left_out(mode, name, v) {
                let (view, rest) = unfold_value(alloc, h, name_mode(mode), levels, v, left)?;
                done.push((name.copied()?, view))?;
                left = rest;
            }
        }
    }
    Ok((done, left))
}

/// A view, unfolded.
#[cycle(unfold_view)]
#[tactic(auto, using(crate::proofs::ViewParts::view_parts))]
fn unfold_view<H: Heap>(
    alloc: Global,
    h: &H,
    mode: Mode,
    levels: u32,
    v: &View,
    left: u32,
) -> Result<(View, u32), Fault>
    requires { ViewStands (length (H.objects h.now)) (view_of v.now) }
    ensures { Gives is_memory view_spent (unfold_within levels (H.objects h.now) mode (view_of v.now) left) result }
{
    match v {
        View::Prim(v) => unfold_value(alloc, h, mode, levels, v, left),
        View::List(views) => {
            if levels == 0 || left == 0 {
                return Err(Fault::TooBig);
            }
            unfold_list(alloc, h, mode, levels - 1, views, left - 1)
        }
        View::Rec(fields) => {
            if levels == 0 || left == 0 {
                return Err(Fault::TooBig);
            }
            unfold_record(alloc, h, mode, levels - 1, fields, left - 1)
        }
    }
}

/// A fresh list, unfolded.
#[cycle(unfold_view)]
#[tactic(auto, using(crate::proofs::ViewParts::view_parts))]
fn unfold_list<H: Heap>(
    alloc: Global,
    h: &H,
    mode: Mode,
    levels: u32,
    views: &Views,
    left: u32,
) -> Result<(View, u32), Fault>
    requires { ViewsStand (length (H.objects h.now)) (views_of views.now) }
    ensures { Gives is_memory view_spent (unfold_list mode (unfold_within levels (H.objects h.now)) (views_of views.now) left) result }
{
    if !unfolds_lists(mode) {
        return Ok((View::of_list(Views::new(alloc)), left));
    }
    let (views, left) = unfold_views(alloc, h, item_mode(mode), levels, views.as_slice(), left)?;
    Ok(list_of(views, left))
}

/// A fresh record, unfolded.
#[cycle(unfold_view)]
#[tactic(auto, using(crate::proofs::ViewParts::view_parts))]
fn unfold_record<H: Heap>(
    alloc: Global,
    h: &H,
    mode: Mode,
    levels: u32,
    fields: &Fields,
    left: u32,
) -> Result<(View, u32), Fault>
    requires { FieldsStand (length (H.objects h.now)) (fields_of fields.now) }
    ensures { Gives is_memory view_spent (unfold_record mode (unfold_within levels (H.objects h.now)) (fields_of fields.now) left) result }
{
    if !unfolds_records(mode) {
        return Ok((View::of_fields(Fields::new(alloc)), left));
    }
    let (fields, left) = unfold_fields(alloc, h, mode, levels, fields.as_slice(), left)?;
    let fields = record_order(alloc, mode, fields)?;
    Ok(record_of(fields, left))
}

/// The views of a fresh list, unfolded.
#[cycle(unfold_view)]
fn unfold_views<H: Heap>(
    alloc: Global,
    h: &H,
    mode: Mode,
    levels: u32,
    views: &[View],
    left: u32,
) -> Result<(Views, u32), Fault>
    requires { AllByRecursion (ViewStands (length (H.objects h.now))) (map view_of views.now) }
    ensures { Gives is_memory views_spent (unfold_items (unfold_within levels (H.objects h.now) mode) (map view_of views.now) [] left) result }
{
    let mut done = Views::new(alloc);
    let mut left = left;
    for v in views {
        let (view, rest) = unfold_view(alloc, h, mode, levels, v, left)?;
        done.push(view)?;
        left = rest;
    }
    Ok((done, left))
}

/// The fields of a fresh record, unfolded.
#[cycle(unfold_view)]
fn unfold_fields<H: Heap>(
    alloc: Global,
    h: &H,
    mode: Mode,
    levels: u32,
    fields: &[(Txt, View)],
    left: u32,
) -> Result<(Vec<(Txt, View)>, u32), Fault>
    requires { AllByRecursion (λ (f : Field). ViewStands (length (H.objects h.now)) f.1) (map field_of fields.now) }
    ensures { Gives is_memory fields_spent (unfold_fields mode (unfold_within levels (H.objects h.now) (name_mode mode)) (map field_of fields.now) [] left) result }
{
    let mut done = Vec::new(alloc);
    let mut left = left;
    for f in fields {
        if !is_field_left_out(mode, &f.0, &f.1) {
            let (view, rest) = unfold_view(alloc, h, name_mode(mode), levels, &f.1, left)?;
            done.push((f.0.copied()?, view))?;
            left = rest;
        }
    }
    Ok((done, left))
}

/// The levels that are unfolded, the value's own counted.
fn levels() -> u32
    ensures { result ≡ level_limit }
{
    101
}

/// The nodes that are unfolded.
fn nodes() -> u32
    ensures { result ≡ node_limit }
{
    100_000
}

/// A view without what its mode leaves out, or TooBig.
pub(crate) fn unfolded<H: Heap>(alloc: Global, h: &H, mode: Mode, v: &View) -> Result<View, Fault>
    requires { ViewStands (length (H.objects h.now)) (view_of v.now) }
    ensures { Gives is_memory view_of (unfolded mode (H.objects h.now) (view_of v.now)) result }
{
    let (view, _) = unfold_view(alloc, h, mode, levels(), v, nodes())?;
    Ok(view)
}
