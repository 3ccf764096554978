//! The filters `uppercase` and `lowercase`.
ghost use Rattle.std.specs.Prelude.{◌≡◌, IfOk, IfErr};
ghost use Rattle.ng_base.specs.ViewOf.{view_of};
ghost use Rattle.ng_base.specs.declared.fault.Memory.TheVariants.{Refused};
ghost use Rattle.ng_filters.specs.Casing.{uppercase, lowercase};

use ng_base::casing::{lower, upper};
use ng_base::fault::Memory;
use ng_base::value::Value;
use ng_base::view::View;
use ng_value::copies::copied;
use std::alloc::Global;

/// A text in upper case, and all else itself.
pub(crate) fn uppercase(alloc: Global, v: &View) -> Result<View, Memory>
    ensures view { IfOk result (λ w. view_of w ≡ uppercase (view_of v.now)) }
    ensures refused { IfErr result (λ e. e ≡ Refused) }
{
    match v {
        View::Prim(Value::Text(t)) => Ok(View::of_value(Value::Text(upper(alloc, t)?))),
        _ => copied(alloc, v),
    }
}

/// A text in lower case, and all else itself.
pub(crate) fn lowercase(alloc: Global, v: &View) -> Result<View, Memory>
    ensures view { IfOk result (λ w. view_of w ≡ lowercase (view_of v.now)) }
    ensures refused { IfErr result (λ e. e ≡ Refused) }
{
    match v {
        View::Prim(Value::Text(t)) => Ok(View::of_value(Value::Text(lower(alloc, t)?))),
        _ => copied(alloc, v),
    }
}
