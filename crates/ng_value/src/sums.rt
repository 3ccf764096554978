//! The sum of two values.
ghost use Rattle.std.specs.Prelude.{◌≡◌, ◌++◌, length};
ghost use Rattle.ng_base.specs.Faults.{is_memory};
ghost use Rattle.ng_base.specs.Meets.{Gives};
ghost use Rattle.ng_base.specs.ViewOf.{view_of};
ghost use Rattle.ng_language.specs.Operators.{of_numbers, sum, view_num};
ghost use Rattle.ng_language.specs.Sums.{is_undefined, is_joined, joined, as_view, add_defined, add};
ghost use Rattle.ng_language.specs.Views.{ViewStands};

use crate::copies::copied;
use crate::numbers::{sum, view_num};
use crate::texts::to_text;
use ng_base::fault::Fault;
use ng_base::heap::Heap;
use ng_base::value::Value;
use ng_base::view::View;
use std::alloc::Global;

fn is_undefined(v: &View) -> bool
    ensures { result ≡ is_undefined (view_of v.now) }
{
    match v {
        View::Prim(Value::Undefined) => true,
        _ => false,
    }
}

/// A text, an object, a function, a fresh list or record.
fn is_joined(v: &View) -> bool
    ensures { result ≡ is_joined (view_of v.now) }
{
    match v {
        View::Prim(Value::Text(_)) => true,
        View::Prim(Value::Obj(_)) => true,
        View::Prim(Value::Fun(_)) => true,
        View::Prim(_) => false,
        View::List(_) => true,
        View::Rec(_) => true,
    }
}

/// The texts of two values, joined.
fn joined<H: Heap>(alloc: Global, h: &H, a: &View, b: &View) -> Result<View, Fault>
    requires left { ViewStands (length (H.objects h.now)) (view_of a.now) }
    requires right { ViewStands (length (H.objects h.now)) (view_of b.now) }
    ensures { Gives is_memory view_of (joined (H.objects h.now) (view_of a.now) (view_of b.now)) result }
{
    let mut text = to_text(alloc, h, a)?;
    let other = to_text(alloc, h, b)?;
    text.push_txt(&other)?;
    Ok(View::of_value(Value::Text(text)))
}

fn number_sum(a: &View, b: &View) -> Result<View, Fault>
    ensures { Gives is_memory view_of (as_view (of_numbers sum (view_num (view_of a.now)) (view_num (view_of b.now)))) result }
{
    match (view_num(a), view_num(b)) {
        (Some(m), Some(n)) => Ok(View::of_value(sum(m, n)?)),
        _ => Ok(View::of_value(Value::Nan)),
    }
}

/// `+`: undefined on one side gives the other side, texts are joined, numbers are added.
pub fn add<H: Heap>(alloc: Global, h: &H, a: &View, b: &View) -> Result<View, Fault>
    requires left { ViewStands (length (H.objects h.now)) (view_of a.now) }
    requires right { ViewStands (length (H.objects h.now)) (view_of b.now) }
    ensures { Gives is_memory view_of (add (H.objects h.now) (view_of a.now) (view_of b.now)) result }
{
    if is_undefined(a) {
        return Ok(copied(alloc, b)?);
    }
    if is_undefined(b) {
        return Ok(copied(alloc, a)?);
    }
    if is_joined(a) || is_joined(b) {
        joined(alloc, h, a, b)
    } else {
        number_sum(a, b)
    }
}
