//! The operators that read no heap: truth, equality, order.
ghost use Rattle.std.specs.Prelude.{◌≡◌, ◌↔◌, IsTrue};
ghost use Rattle.ng_base.specs.ViewOf.{view_of};
ghost use Rattle.ng_language.specs.Operators.{is_true, truthy, same, strict_same, strict_eq, loose_same, loose_eq, same_number, text_before, number_before, less, sub, mul, div, remainder_of};

use crate::numbers::{difference, num, product, quotient, remainder, term_num, view_num};
use ng_base::fault::Fault;
use ng_base::reader::Plain;
use ng_base::txt::Txt;
use ng_base::value::Value;
use ng_base::view::View;

fn is_true(v: &Value) -> bool
    ensures { result ≡ is_true v.now }
{
    match v {
        Value::Undefined => false,
        Value::Null => false,
        Value::Bool(b) => *b,
        Value::Int(n) => *n != 0,
        Value::Nan => false,
        Value::Text(t) => !t.is_empty(),
        Value::Obj(_) => true,
        Value::Fun(_) => true,
    }
}

/// Whether a value counts as true.
pub fn truthy(v: &View) -> bool
    ensures { result ≡ truthy (view_of v.now) }
{
    match v {
        View::Prim(v) => is_true(v),
        View::List(_) => true,
        View::Rec(_) => true,
    }
}

/// Whether two values are the same; NaN is the same as NaN.
pub fn same(a: &Value, b: &Value) -> bool
    ensures value { result ≡ same a.now b.now }
    ensures equal { IsTrue result ↔ (a.now ≡ b.now) }
{
    same_values(a, b)
}

fn same_values(a: &Value, b: &Value) -> bool
    ensures { result ≡ same a.now b.now }
{
    match (a, b) {
        (Value::Undefined, Value::Undefined) => true,
        (Value::Null, Value::Null) => true,
        (Value::Bool(a), Value::Bool(b)) => if *a { *b } else { !*b },
        (Value::Int(m), Value::Int(n)) => *m == *n,
        (Value::Nan, Value::Nan) => true,
        (Value::Text(s), Value::Text(t)) => s.same(t),
        (Value::Obj(o), Value::Obj(p)) => o.0 == p.0,
        (Value::Fun(f), Value::Fun(g)) => f.0 == g.0,
        _ => false,
    }
}

fn strict_same(a: &Value, b: &Value) -> bool
    ensures { result ≡ strict_same a.now b.now }
{
    match a {
        Value::Nan => false,
        _ => same(a, b),
    }
}

/// `===`: NaN and fresh lists equal nothing.
pub fn strict_eq(a: &View, b: &View) -> bool
    ensures { result ≡ strict_eq (view_of a.now) (view_of b.now) }
{
    match (a, b) {
        (View::Prim(v), View::Prim(w)) => strict_same(v, w),
        _ => false,
    }
}

fn same_number(a: Option<i64>, b: Option<i64>) -> bool
    ensures { result ≡ same_number a b }
{
    match (a, b) {
        (Some(m), Some(n)) => m == n,
        _ => false,
    }
}

fn loose_same(a: &Value, b: &Value) -> bool
    ensures { result ≡ loose_same a.now b.now }
{
    match (a, b) {
        (Value::Undefined | Value::Null, Value::Undefined | Value::Null) => true,
        (Value::Undefined | Value::Null, _) => false,
        (_, Value::Undefined | Value::Null) => false,
        (Value::Text(s), Value::Text(t)) => s.same(t),
        (Value::Obj(o), Value::Obj(p)) => o.0 == p.0,
        (Value::Fun(f), Value::Fun(g)) => f.0 == g.0,
        (Value::Obj(_) | Value::Fun(_), _) => false,
        (_, Value::Obj(_) | Value::Fun(_)) => false,
        _ => same_number(num(a), num(b)),
    }
}

/// `==`: null and undefined equal each other, primitives of different types are compared by number.
pub fn loose_eq(a: &View, b: &View) -> bool
    ensures { result ≡ loose_eq (view_of a.now) (view_of b.now) }
{
    match (a, b) {
        (View::Prim(v), View::Prim(w)) => loose_same(v, w),
        _ => false,
    }
}

/// Whether one text's characters stand before another's.
fn text_before(or_equal: bool, a: &Txt, b: &Txt) -> bool
    ensures { result ≡ text_before or_equal a.now b.now }
{
    let mut left = Plain::new(a.as_str());
    let mut right = Plain::new(b.as_str());
    while let Some((c, rest)) = left.first() {
        let Some((d, other)) = right.first() else {
            return false;
        };
        if c != d {
            return c < d;
        }
        left = rest;
        right = other;
    }
    match right.first() {
        Some(_) => true,
        None => or_equal,
    }
}

fn number_before(or_equal: bool, a: Option<i64>, b: Option<i64>) -> bool
    ensures { result ≡ number_before or_equal a b }
{
    match (a, b) {
        (Some(m), Some(n)) => {
            if m < n {
                true
            } else if m == n {
                or_equal
            } else {
                false
            }
        }
        _ => false,
    }
}

/// `<`, and `<=` where `or_equal`: two texts by their characters, all else by number.
pub fn less(a: &View, b: &View, or_equal: bool) -> bool
    ensures { result ≡ less or_equal (view_of a.now) (view_of b.now) }
{
    match (a, b) {
        (View::Prim(Value::Text(s)), View::Prim(Value::Text(t))) => text_before(or_equal, s, t),
        _ => number_before(or_equal, view_num(a), view_num(b)),
    }
}

/// `-`: undefined is 0.
pub fn sub(a: &View, b: &View) -> Result<Value, Fault>
    ensures { result ≡ sub (view_of a.now) (view_of b.now) }
{
    match (term_num(a), term_num(b)) {
        (Some(m), Some(n)) => difference(m, n),
        _ => Ok(Value::Nan),
    }
}

/// `*`.
pub fn mul(a: &View, b: &View) -> Result<Value, Fault>
    ensures { result ≡ mul (view_of a.now) (view_of b.now) }
{
    match (view_num(a), view_num(b)) {
        (Some(m), Some(n)) => product(m, n),
        _ => Ok(Value::Nan),
    }
}

/// `/`: NotWhole at a zero divisor and at a quotient that is not whole.
pub fn div(a: &View, b: &View) -> Result<Value, Fault>
    ensures { result ≡ div (view_of a.now) (view_of b.now) }
{
    match (view_num(a), view_num(b)) {
        (Some(m), Some(n)) => quotient(m, n),
        _ => Ok(Value::Nan),
    }
}

/// `%`: NotWhole at a zero divisor; the rest has the dividend's sign.
pub fn rem(a: &View, b: &View) -> Result<Value, Fault>
    ensures { result ≡ remainder_of (view_of a.now) (view_of b.now) }
{
    match (view_num(a), view_num(b)) {
        (Some(m), Some(n)) => remainder(m, n),
        _ => Ok(Value::Nan),
    }
}
