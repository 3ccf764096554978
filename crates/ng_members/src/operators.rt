//! The operators.
ghost use Rattle.std.specs.Prelude.{◌≡◌, ℕ, length, IfOk};
ghost use Rattle.ng_base.specs.declared.value.Value.TheVariants.{Bool};
ghost use Rattle.ng_base.specs.Faults.{is_memory};
ghost use Rattle.ng_base.specs.Meets.{Gives};
ghost use Rattle.ng_base.specs.Views.{prim};
ghost use Rattle.ng_base.specs.ViewOf.{view_of};
ghost use Rattle.ng_language.specs.Views.{ViewStands};
ghost use Rattle.ng_members.specs.Leaves.{sign_value, operator_value};

use ng_base::fault::Fault;
use ng_base::value::Value;
use ng_base::view::View;
use ng_language::syntax::{Binary, Unary};
use ng_store::Store;
use ng_value::operators::{div, less, loose_eq, mul, rem, strict_eq, sub, truthy};
use ng_value::sums::add;
use std::alloc::Global;

fn truth(b: bool) -> View
    ensures { view_of result ≡ prim (Bool b) }
{
    View::of_value(Value::Bool(b))
}

/// The value of a signed operand.
#[tactic(auto, unfolding(crate::specs::Leaves::sign_value))]
pub fn sign_value(op: Unary, v: &View) -> Result<View, Fault>
    ensures exact { Gives is_memory view_of (sign_value op (view_of v.now)) result }
    ensures stands { (n : ℕ) → IfOk result (λ w. ViewStands n (view_of w)) }
{
    let zero = View::of_value(Value::Int(0));
    match op {
        Unary::Plus => Ok(View::of_value(sub(v, &zero)?)),
        Unary::Minus => Ok(View::of_value(sub(&zero, v)?)),
        Unary::Not => Ok(truth(!truthy(v))),
    }
}

/// The value of an operator between two operands.
#[tactic(auto, unfolding(crate::specs::Leaves::operator_value))]
pub fn operator_value(
    alloc: Global,
    store: &Store,
    op: Binary,
    a: &View,
    b: &View,
) -> Result<View, Fault>
    requires left { ViewStands (length store.now) (view_of a.now) }
    requires right { ViewStands (length store.now) (view_of b.now) }
    ensures exact { Gives is_memory view_of (operator_value store.now op (view_of a.now) (view_of b.now)) result }
    ensures stands { IfOk result (λ w. ViewStands (length store.now) (view_of w)) }
{
    match op {
        Binary::Multiply => Ok(View::of_value(mul(a, b)?)),
        Binary::Divide => Ok(View::of_value(div(a, b)?)),
        Binary::Remainder => Ok(View::of_value(rem(a, b)?)),
        Binary::Add => add(alloc, store, a, b),
        Binary::Subtract => Ok(View::of_value(sub(a, b)?)),
        Binary::Less => Ok(truth(less(a, b, false))),
        Binary::Greater => Ok(truth(less(b, a, false))),
        Binary::AtMost => Ok(truth(less(a, b, true))),
        Binary::AtLeast => Ok(truth(less(b, a, true))),
        Binary::Equal => Ok(truth(loose_eq(a, b))),
        Binary::NotEqual => Ok(truth(!loose_eq(a, b))),
        Binary::Same => Ok(truth(strict_eq(a, b))),
        Binary::NotSame => Ok(truth(!strict_eq(a, b))),
    }
}
