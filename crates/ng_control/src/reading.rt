//! What a typed text is read as (API: input[text], input[number]).
ghost use Rattle.std.specs.Prelude.{◌≡◌, IfOk, IfErr};
ghost use Rattle.ng_base.specs.declared.fault.Memory.TheVariants.{Refused};
ghost use Rattle.std.specs.Str.{chars};
ghost use Rattle.ng_control.specs.Shown.{is_nil};
ghost use Rattle.ng_control.specs.Typed.{if_trimmed as if_trimmed_of, number_or_undefined as number_or_undefined_of, number_typed as number_typed_of, number_of as number_in, parsed as parsed_of, TakesText};

use crate::kind::ControlKind;
use ng_base::fault::Memory;
use ng_base::reader::Plain;
use ng_base::trimming::{AsciiSpace, any, trim};
use ng_base::txt::Txt;
use ng_base::value::Value;
use ng_base::view::View;
use ng_value::numbers::view_num;
use std::alloc::{AllocError, Global};

/// Whether a text has no character.
pub(crate) fn nil(text: &str) -> bool
    ensures { result ≡ is_nil (chars text.now) }
{
    Plain::new(text).first().is_none()
}

fn if_trimmed(alloc: Global, trims: bool, text: &Txt) -> Result<Txt, AllocError>
    ensures { IfOk result (λ t. t ≡ if_trimmed_of trims text.now) }
{
    if trims {
        Txt::from_str(alloc, trim::<AsciiSpace>(text.as_str()))
    } else {
        text.copied()
    }
}

fn number_or_undefined(n: Option<i64>) -> Value
    ensures { result ≡ number_or_undefined_of n }
{
    match n {
        None => Value::Undefined,
        Some(n) => Value::Int(n),
    }
}

/// The number of a text without white space.
fn number_typed(text: &Txt) -> Result<Value, AllocError>
    ensures { IfOk result (λ v. v ≡ number_typed_of text.now) }
{
    if any::<AsciiSpace>(Plain::new(text.as_str())) {
        return Ok(Value::Undefined);
    }
    let view = View::of_value(Value::Text(text.copied()?));
    Ok(number_or_undefined(view_num(&view)))
}

/// The number of a text, where the empty text has none.
fn number_of(text: &Txt) -> Result<Value, AllocError>
    ensures { IfOk result (λ v. v ≡ number_in text.now) }
{
    if nil(text.as_str()) {
        return Ok(Value::Null);
    }
    number_typed(text)
}

/// What a typed text is read as.
pub(crate) fn parsed(alloc: Global, kind: ControlKind, text: &Txt) -> Result<Value, Memory>
    requires { TakesText kind }
    ensures value { IfOk result (λ v. v ≡ parsed_of kind text.now) }
    ensures refused { IfErr result (λ e. e ≡ Refused) }
{
    match kind {
        ControlKind::Text { trim } => Ok(Value::Text(if_trimmed(alloc, trim, text)?)),
        ControlKind::Number => Ok(number_of(text)?),
        ControlKind::Checkbox => unreachable!(),
    }
}
