//! Views written as JSON.
ghost use Rattle.std.specs.Prelude.{◌≡◌, ◌++◌, map, OnOk, IfErr};
ghost use Rattle.ng_base.specs.Views.{views_from, fields_from};
ghost use Rattle.ng_base.specs.ViewOf.{view_of, field_of};
ghost use Rattle.ng_base.specs.declared.fault.Memory.TheVariants.{Refused};
ghost use Rattle.ng_language.specs.Texts.{json_of, json_items, json_more_items, json_fields, json_more_fields, deeper, quoted, colon};

use crate::parts::{fields_in, first_field, first_view, views_in};
use crate::writing::{deeper, push_colon, push_json_value, push_line, push_quoted};
use ng_base::fault::Memory;
use ng_base::txt::Txt;
use ng_base::view::View;

/// A view as JSON, with the margin of its line.
#[cycle(json)]
pub(crate) fn push_json(out: &mut Txt, indent: u8, margin: &Txt, v: &View) -> Result<(), Memory>
    ensures text { OnOk result (out.new ≡ out.old ++ json_of indent margin.now (view_of v.now)) }
    ensures refused { IfErr result (λ e. e ≡ Refused) }
{
    match v {
        View::Prim(v) => push_json_value(out, v),
        View::List(views) => push_items(out, indent, margin, views_in(views)),
        View::Rec(fields) => push_fields(out, indent, margin, fields_in(fields)),
    }
}

#[cycle(json)]
fn push_items(out: &mut Txt, indent: u8, margin: &Txt, views: &[View]) -> Result<(), Memory>
    ensures text { OnOk result (out.new ≡ out.old ++ json_items indent margin.now (views_from (map view_of views.now))) }
    ensures refused { IfErr result (λ e. e ≡ Refused) }
{
    let Some((v, rest)) = first_view(views) else {
        out.push_word("[]")?;
        return Ok(());
    };
    let inner = deeper(margin, indent)?;
    out.push('[')?;
    push_line(out, indent, &inner)?;
    push_json(out, indent, &inner, v)?;
    push_more_items(out, indent, margin, &inner, rest)
}

#[cycle(json)]
fn push_more_items(
    out: &mut Txt,
    indent: u8,
    margin: &Txt,
    inner: &Txt,
    views: &[View],
) -> Result<(), Memory>
    requires { inner.now ≡ deeper indent margin.now }
    ensures text { OnOk result (out.new ≡ out.old ++ json_more_items indent margin.now (views_from (map view_of views.now))) }
    ensures refused { IfErr result (λ e. e ≡ Refused) }
{
    let mut left = views;
    while let Some((v, rest)) = first_view(left) {
        out.push(',')?;
        push_line(out, indent, inner)?;
        push_json(out, indent, inner, v)?;
        left = rest;
    }
    push_line(out, indent, margin)?;
    out.push(']')?;
    Ok(())
}

#[cycle(json)]
fn push_fields(
    out: &mut Txt,
    indent: u8,
    margin: &Txt,
    fields: &[(Txt, View)],
) -> Result<(), Memory>
    ensures text { OnOk result (out.new ≡ out.old ++ json_fields indent margin.now (fields_from (map field_of fields.now))) }
    ensures refused { IfErr result (λ e. e ≡ Refused) }
{
    let Some((f, rest)) = first_field(fields) else {
        out.push_word("{}")?;
        return Ok(());
    };
    let inner = deeper(margin, indent)?;
    out.push('{')?;
    push_line(out, indent, &inner)?;
    push_quoted(out, &f.0)?;
    push_colon(out, indent)?;
    push_json(out, indent, &inner, &f.1)?;
    push_more_fields(out, indent, margin, &inner, rest)
}

#[cycle(json)]
fn push_more_fields(
    out: &mut Txt,
    indent: u8,
    margin: &Txt,
    inner: &Txt,
    fields: &[(Txt, View)],
) -> Result<(), Memory>
    requires { inner.now ≡ deeper indent margin.now }
    ensures text { OnOk result (out.new ≡ out.old ++ json_more_fields indent margin.now (fields_from (map field_of fields.now))) }
    ensures refused { IfErr result (λ e. e ≡ Refused) }
{
    let mut left = fields;
    while let Some((f, rest)) = first_field(left) {
        out.push(',')?;
        push_line(out, indent, inner)?;
        push_quoted(out, &f.0)?;
        push_colon(out, indent)?;
        push_json(out, indent, inner, &f.1)?;
        left = rest;
    }
    push_line(out, indent, margin)?;
    out.push('}')?;
    Ok(())
}
