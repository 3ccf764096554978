//! What a model is beside what was typed, and its text.
ghost use Rattle.std.specs.Prelude.{◌≡◌, length, option_copied, IfOk};
ghost use Rattle.ng_base.specs.Faults.{is_memory};
ghost use Rattle.ng_base.specs.Meets.{Meets};
ghost use Rattle.ng_base.specs.ViewOf.{view_of};
ghost use Rattle.ng_language.specs.Views.{ViewStands};
ghost use Rattle.ng_control.specs.State.{is_model as is_model_of, while_model as while_model_of};
ghost use Rattle.ng_control.specs.Shown.{model_text as model_text_of, is_checked as is_checked_of, is_undefined as is_undefined_of};

use crate::kind::Typed;
use ng_base::fault::Fault;
use ng_base::heap::Heap;
use ng_base::txt::Txt;
use ng_base::value::Value;
use ng_base::view::View;
use ng_value::operators::same;
use ng_value::texts::to_text;
use std::alloc::{AllocError, Global};

/// Whether the model is this value.
fn is_model(v: &View, value: &Value) -> bool
    ensures { result ≡ is_model_of (view_of v.now) value.now }
{
    match v {
        View::Prim(w) => same(value, w),
        View::List(_) => false,
        View::Rec(_) => false,
    }
}

/// What was typed, as long as the model is what it was read as.
pub(crate) fn while_model<'a>(v: &View, typed: &'a Option<Typed>) -> Option<&'a Typed>
    ensures { option_copied result ≡ while_model_of (view_of v.now) typed.now }
{
    match typed {
        None => None,
        Some(typed) => {
            if is_model(v, &typed.parsed) {
                Some(typed)
            } else {
                None
            }
        }
    }
}

/// What was typed, again.
pub(crate) fn copied_typed(typed: &Option<Typed>) -> Result<Option<Typed>, AllocError>
    ensures { IfOk result (λ t. t ≡ typed.now) }
{
    match typed {
        None => Ok(None),
        Some(typed) => Ok(Some(Typed {
            text: typed.text.copied()?,
            parsed: typed.parsed.copied()?,
        })),
    }
}

/// The text of a model: none for undefined, null and NaN.
pub(crate) fn model_text<H: Heap>(alloc: Global, h: &H, v: &View) -> Result<Txt, Fault>
    requires { ViewStands (length (H.objects h.now)) (view_of v.now) }
    ensures { Meets is_memory (model_text_of (H.objects h.now) (view_of v.now)) result }
{
    match v {
        View::Prim(Value::Undefined) => Ok(Txt::new(alloc)),
        View::Prim(Value::Null) => Ok(Txt::new(alloc)),
        View::Prim(Value::Nan) => Ok(Txt::new(alloc)),
        _ => to_text(alloc, h, v),
    }
}

/// Whether a checkbox is checked.
pub fn is_checked(v: &View) -> bool
    ensures { result ≡ is_checked_of (view_of v.now) }
{
    match v {
        View::Prim(Value::Bool(b)) => *b,
        _ => false,
    }
}

pub(crate) fn is_undefined(v: &Value) -> bool
    ensures { result ≡ is_undefined_of v.now }
{
    match v {
        Value::Undefined => true,
        _ => false,
    }
}
