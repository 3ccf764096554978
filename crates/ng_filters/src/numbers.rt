//! The filters `number` and `json`.
ghost use Rattle.std.specs.Prelude.{◌≡◌, ◌++◌, length, OnOk, IfOk, IfErr, if◌then◌else◌};
ghost use Rattle.ng_base.specs.Faults.{is_memory};
ghost use Rattle.ng_base.specs.Meets.{Gives};
ghost use Rattle.ng_base.specs.ViewOf.{view_of};
ghost use Rattle.ng_base.specs.Views.{prim};
ghost use Rattle.ng_base.specs.declared.value.Value.TheVariants.{Text as TextOf};
ghost use Rattle.ng_base.specs.declared.fault.Memory.TheVariants.{Refused};
ghost use Rattle.ng_language.specs.Views.{ViewStands};
ghost use Rattle.ng_filters.specs.Numbers.{grouped, grouped_number, zeros, fraction, formatted, number, indent, json};

use ng_base::fault::{Fault, Memory};
use ng_base::reader::Plain;
use ng_base::txt::Txt;
use ng_base::value::Value;
use ng_base::view::View;
use ng_store::Store;
use ng_value::numbers::view_num;
use ng_value::operators::truthy;
use ng_value::texts::json_text;
use std::alloc::Global;

/// Adds digits in groups of three.
fn push_grouped(out: &mut Txt, digits: &Txt) -> Result<(), Memory>
    ensures text { OnOk result (out.new ≡ out.old ++ grouped digits.now) }
    ensures refused { IfErr result (λ e. e ≡ Refused) }
{
    let mut reader = Plain::new(digits.as_str());
    let mut left = digits.len();
    while let Some((c, rest)) = reader.first() {
        out.push(c)?;
        left -= 1;
        if left != 0 && left % 3 == 0 {
            out.push(',')?;
        }
        reader = rest;
    }
    Ok(())
}

/// Adds a number with its digits in groups.
fn push_number(alloc: Global, out: &mut Txt, n: i64) -> Result<(), Memory>
    ensures text { OnOk result (out.new ≡ out.old ++ grouped_number n) }
    ensures refused { IfErr result (λ e. e ≡ Refused) }
{
    if n < 0 {
        out.push('-')?;
    }
    let mut digits = Txt::new(alloc);
    digits.push_number(n.unsigned_abs())?;
    push_grouped(out, &digits)
}

fn push_zeros(out: &mut Txt, count: u64) -> Result<(), Memory>
    ensures text { OnOk result (out.new ≡ out.old ++ zeros count) }
    ensures refused { IfErr result (λ e. e ≡ Refused) }
{
    let mut left = count;
    while left > 0 {
        out.push('0')?;
        left -= 1;
    }
    Ok(())
}

/// Adds a point and as many zeros as a whole number from 1 to 20 says.
fn push_fraction(out: &mut Txt, size: &View) -> Result<(), Memory>
    ensures text { OnOk result (out.new ≡ out.old ++ fraction (view_of size.now)) }
    ensures refused { IfErr result (λ e. e ≡ Refused) }
{
    match size {
        View::Prim(Value::Int(n)) => {
            if 1 <= *n && *n <= 20 {
                out.push('.')?;
                push_zeros(out, *n as u64)?;
            }
            Ok(())
        }
        _ => Ok(()),
    }
}

/// A number in groups with its zeros; NaN is the empty text.
fn formatted(alloc: Global, n: Option<i64>, size: &View) -> Result<View, Memory>
    ensures view { IfOk result (λ w. view_of w ≡ prim (TextOf (formatted n (view_of size.now)))) }
    ensures refused { IfErr result (λ e. e ≡ Refused) }
{
    let mut out = Txt::new(alloc);
    if let Some(n) = n {
        push_number(alloc, &mut out, n)?;
        push_fraction(&mut out, size)?;
    }
    Ok(View::of_value(Value::Text(out)))
}

/// A number or the number in a text, in groups; null and undefined are themselves, all else is the empty text.
pub(crate) fn number(alloc: Global, v: &View, size: &View) -> Result<View, Memory>
    ensures view { IfOk result (λ w. view_of w ≡ number (view_of v.now) (view_of size.now)) }
    ensures refused { IfErr result (λ e. e ≡ Refused) }
{
    match v {
        View::Prim(Value::Undefined) => Ok(View::of_value(Value::Undefined)),
        View::Prim(Value::Null) => Ok(View::of_value(Value::Null)),
        View::Prim(Value::Int(n)) => formatted(alloc, Some(*n), size),
        View::Prim(Value::Text(_)) => formatted(alloc, view_num(v), size),
        _ => Ok(View::of_value(Value::Text(Txt::new(alloc)))),
    }
}

/// How far the lines of a JSON text are indented.
fn indent(spacing: &View) -> u8
    ensures { result ≡ indent (view_of spacing.now) }
{
    match spacing {
        View::Prim(Value::Undefined) => 2,
        View::Prim(Value::Int(n)) => {
            if *n <= 0 {
                0
            } else if *n <= 10 {
                *n as u8
            } else {
                10
            }
        }
        View::Prim(Value::Nan) => 0,
        _ => if truthy(spacing) { 2 } else { 0 },
    }
}

/// A value as JSON; undefined is itself.
pub(crate) fn json(alloc: Global, store: &Store, v: &View, spacing: &View) -> Result<View, Fault>
    requires { ViewStands (length store.now) (view_of v.now) }
    ensures { Gives is_memory view_of (json store.now (view_of v.now) (view_of spacing.now)) result }
{
    match v {
        View::Prim(Value::Undefined) => Ok(View::of_value(Value::Undefined)),
        _ => {
            let text = json_text(alloc, store, v, indent(spacing))?;
            Ok(View::of_value(Value::Text(text)))
        }
    }
}
