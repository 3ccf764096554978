//! The cases of a switch, and the text that they are compared with (API: ngSwitch).
ghost use Rattle.std.specs.Prelude.{◌≡◌, ◌++◌, ◌∷◌, [], map, IfOk, OnOk, MatchOption};
ghost use Rattle.ng_base.specs.Views.{views_from};
ghost use Rattle.ng_base.specs.ViewOf.{view_of};
ghost use Rattle.ng_blocks.specs.Switching.{matches};
ghost use Rattle.ng_language.specs.Texts.{value_text, item_text, text_of, items_text, more_text};

use crate::classes::parts_in;
use ng_base::txt::Txt;
use ng_base::value::Value;
use ng_base::view::View;
use std::alloc::{AllocError, Global};

/// A value as a text.
fn push_value(out: &mut Txt, value: &Value) -> Result<(), AllocError>
    ensures { OnOk result (out.new ≡ out.old ++ value_text value.now) }
{
    match value {
        Value::Undefined => out.push_word("undefined"),
        Value::Null => out.push_word("null"),
        Value::Bool(b) => out.push_word(if *b { "true" } else { "false" }),
        Value::Int(n) => out.push_signed(*n),
        Value::Nan => out.push_word("NaN"),
        Value::Text(text) => out.push_txt(text),
        Value::Obj(_) => out.push_word("[object Object]"),
        Value::Fun(_) => out.push_word("function"),
    }
}

/// A view as a text.
#[cycle(text)]
fn push_text(out: &mut Txt, view: &View) -> Result<(), AllocError>
    ensures { OnOk result (out.new ≡ out.old ++ text_of (view_of view.now)) }
{
    match view {
        View::Prim(value) => push_value(out, value),
        View::List(list) => push_items(out, parts_in(list)),
        View::Rec(_) => out.push_word("[object Object]"),
    }
}

/// An item's text: null and undefined are empty.
#[cycle(text)]
fn push_item(out: &mut Txt, view: &View) -> Result<(), AllocError>
    ensures { OnOk result (out.new ≡ out.old ++ item_text (view_of view.now) (text_of (view_of view.now))) }
{
    match view {
        View::Prim(Value::Undefined) => Ok(()),
        View::Prim(Value::Null) => Ok(()),
        _ => push_text(out, view),
    }
}

/// The first view and the others.
fn first_view(views: &[View]) -> Option<(&View, &[View])>
    ensures { MatchOption result (views.now ≡ []) (λ r. views.now ≡ r.0.now ∷ r.1.now) }
{
    views.split_first()
}

/// Items, joined by `,`.
#[cycle(text)]
fn push_items(out: &mut Txt, views: &[View]) -> Result<(), AllocError>
    ensures { OnOk result (out.new ≡ out.old ++ items_text (views_from (map view_of views.now))) }
{
    let Some((view, rest)) = first_view(views) else {
        return Ok(());
    };
    push_item(out, view)?;
    push_more(out, rest)
}

#[cycle(text)]
fn push_more(out: &mut Txt, views: &[View]) -> Result<(), AllocError>
    ensures { OnOk result (out.new ≡ out.old ++ more_text (views_from (map view_of views.now))) }
{
    let mut left = views;
    while let Some((view, rest)) = first_view(left) {
        out.push(',')?;
        push_item(out, view)?;
        left = rest;
    }
    Ok(())
}

/// The text of a value that was kept. A text is shared and not built again.
pub fn kept_as_text(alloc: Global, view: &View) -> Result<Txt, AllocError>
    ensures { IfOk result (λ t. t ≡ text_of (view_of view.now)) }
{
    if let View::Prim(Value::Text(text)) = view {
        return text.copied();
    }
    let mut out = Txt::new(alloc);
    push_text(&mut out, view)?;
    Ok(out)
}

/// Whether a case has this text.
pub fn has_text(value: &Txt, case: &Option<Txt>) -> bool
    ensures { result ≡ matches value.now case.now }
{
    match case {
        Some(text) => text.same(value),
        None => false,
    }
}
