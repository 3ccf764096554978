//! Values as texts.
ghost use Rattle.std.specs.Prelude.{◌≡◌, ◌++◌, [], map, length, OnOk, IfOk, IfErr};
ghost use Rattle.ng_base.specs.Faults.{is_memory};
ghost use Rattle.ng_base.specs.Meets.{Meets};
ghost use Rattle.ng_base.specs.Views.{views_from};
ghost use Rattle.ng_base.specs.ViewOf.{view_of};
ghost use Rattle.ng_base.specs.declared.fault.Memory.TheVariants.{Refused};
ghost use Rattle.ng_language.specs.Texts.{item_text, text_of, items_text, more_text, to_text, json_text, show_text, value_text};
ghost use Rattle.ng_language.specs.Views.{ViewStands};

use crate::json::push_json;
use crate::parts::{first_view, views_in};
use crate::unfolding::unfolded;
use crate::writing::push_value;
use ng_base::fault::{Fault, Memory};
use ng_base::heap::Heap;
use ng_base::txt::Txt;
use ng_base::value::Value;
use ng_base::view::View;
use ng_language::unfolding::Mode;
use std::alloc::Global;

/// A view as a text.
#[cycle(text)]
fn push_text(out: &mut Txt, v: &View) -> Result<(), Memory>
    ensures text { OnOk result (out.new ≡ out.old ++ text_of (view_of v.now)) }
    ensures refused { IfErr result (λ e. e ≡ Refused) }
{
    match v {
        View::Prim(v) => push_value(out, v),
        View::List(views) => push_items(out, views_in(views)),
        View::Rec(_) => {
            out.push_word("[object Object]")?;
            Ok(())
        }
    }
}

/// An item's text: null and undefined are empty.
#[cycle(text)]
fn push_item(out: &mut Txt, v: &View) -> Result<(), Memory>
    ensures text { OnOk result (out.new ≡ out.old ++ item_text (view_of v.now) (text_of (view_of v.now))) }
    ensures refused { IfErr result (λ e. e ≡ Refused) }
{
    match v {
        View::Prim(Value::Undefined) => Ok(()),
        View::Prim(Value::Null) => Ok(()),
        _ => push_text(out, v),
    }
}

#[cycle(text)]
fn push_items(out: &mut Txt, views: &[View]) -> Result<(), Memory>
    ensures text { OnOk result (out.new ≡ out.old ++ items_text (views_from (map view_of views.now))) }
    ensures refused { IfErr result (λ e. e ≡ Refused) }
{
    let Some((v, rest)) = first_view(views) else {
        return Ok(());
    };
    push_item(out, v)?;
    push_more(out, rest)
}

#[cycle(text)]
fn push_more(out: &mut Txt, views: &[View]) -> Result<(), Memory>
    ensures text { OnOk result (out.new ≡ out.old ++ more_text (views_from (map view_of views.now))) }
    ensures refused { IfErr result (λ e. e ≡ Refused) }
{
    let mut left = views;
    while let Some((v, rest)) = first_view(left) {
        out.push(',')?;
        push_item(out, v)?;
        left = rest;
    }
    Ok(())
}

/// The text of what is unfolded of a value.
fn unfolded_text<H: Heap>(alloc: Global, h: &H, v: &View) -> Result<Txt, Fault>
    requires { ViewStands (length (H.objects h.now)) (view_of v.now) }
    ensures { Meets is_memory (to_text (H.objects h.now) (view_of v.now)) result }
{
    let view = unfolded(alloc, h, Mode::Text, v)?;
    let mut out = Txt::new(alloc);
    push_text(&mut out, &view)?;
    Ok(out)
}

/// A value as a text: items are joined by `,`. A text is shared and not built again.
#[tactic(auto, unfolding(ng_language::specs::Unfolding::level_limit, ng_language::specs::Unfolding::node_limit))]
pub fn to_text<H: Heap>(alloc: Global, h: &H, v: &View) -> Result<Txt, Fault>
    requires { ViewStands (length (H.objects h.now)) (view_of v.now) }
    ensures { Meets is_memory (to_text (H.objects h.now) (view_of v.now)) result }
{
    match v {
        View::Prim(Value::Text(t)) => Ok(t.copied()?),
        _ => unfolded_text(alloc, h, v),
    }
}

/// A value as JSON, each item on a line of its own where there is an indent.
pub fn json_text<H: Heap>(alloc: Global, h: &H, v: &View, indent: u8) -> Result<Txt, Fault>
    requires { ViewStands (length (H.objects h.now)) (view_of v.now) }
    ensures { Meets is_memory (json_text (H.objects h.now) indent (view_of v.now)) result }
{
    let view = unfolded(alloc, h, Mode::Json, v)?;
    let margin = Txt::new(alloc);
    let mut out = Txt::new(alloc);
    push_json(&mut out, indent, &margin, &view)?;
    Ok(out)
}

/// A text of a value alone.
fn value_alone(alloc: Global, v: &Value) -> Result<Txt, Memory>
    ensures text { IfOk result (λ t. t ≡ value_text v.now) }
    ensures refused { IfErr result (λ e. e ≡ Refused) }
{
    let mut out = Txt::new(alloc);
    push_value(&mut out, v)?;
    Ok(out)
}

/// What a hole shows: null, undefined and functions nothing, texts and numbers themselves, all else JSON.
pub fn show_text<H: Heap>(alloc: Global, h: &H, v: &View) -> Result<Txt, Fault>
    requires { ViewStands (length (H.objects h.now)) (view_of v.now) }
    ensures { Meets is_memory (show_text (H.objects h.now) (view_of v.now)) result }
{
    match v {
        View::Prim(Value::Undefined) => Ok(Txt::new(alloc)),
        View::Prim(Value::Null) => Ok(Txt::new(alloc)),
        View::Prim(Value::Int(n)) => Ok(value_alone(alloc, &Value::Int(*n))?),
        View::Prim(Value::Nan) => Ok(value_alone(alloc, &Value::Nan)?),
        View::Prim(Value::Text(t)) => Ok(t.copied()?),
        View::Prim(Value::Fun(_)) => Ok(Txt::new(alloc)),
        _ => json_text(alloc, h, v, 0),
    }
}
