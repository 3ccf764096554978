//! Values as numbers, and sums, products and quotients of numbers.
ghost use Rattle.std.specs.Prelude.{◌≡◌, ◌<◌, ◌↔◌, IsTrue, pos, int_div, int_rem, Err, if◌then◌else◌, IfSome};
ghost use Rattle.std.specs.Ordering.{int_eq};
ghost use Rattle.ng_base.specs.declared.fault.Fault.TheVariants.{NotWhole};
ghost use Rattle.ng_base.specs.ViewOf.{view_of};
ghost use Rattle.ng_language.specs.Operators.{digits_behind, digits, positive, negative, signed, number_in, num, view_num, term_num, in_range, sum, difference, product, quotient, remainder};

use ng_base::fault::Fault;
use ng_base::reader::Plain;
use ng_base::trimming::{AsciiSpace, only, past};
use ng_base::txt::Txt;
use ng_base::value::Value;
use ng_base::view::View;

/// The largest number of the language.
pub(crate) const LARGEST: i64 = 9_007_199_254_740_991;

/// Digits behind those that were read, and then white space.
fn digits_behind(first: u64, mut reader: Plain<'_>) -> Option<u64>
    requires { first < 10 }
    ensures value { result ≡ digits_behind first reader.entry }
    ensures below { IfSome result (λ n. n < 9007199254740992) }
{
    let mut n = first;
    while let Some((c, rest)) = reader.first() {
        if !c.is_ascii_digit() {
            return if only::<AsciiSpace>(reader) {
                Some(n)
            } else {
                None
            };
        }
        let more = 10 * n + (c as u64 - 48);
        if more > LARGEST as u64 {
            return None;
        }
        n = more;
        reader = rest;
    }
    Some(n)
}

fn digits(reader: Plain<'_>) -> Option<u64>
    ensures value { result ≡ digits reader.entry }
    ensures below { IfSome result (λ n. n < 9007199254740992) }
{
    let (c, rest) = reader.first()?;
    if !c.is_ascii_digit() {
        return None;
    }
    digits_behind(c as u64 - 48, rest)
}

fn positive(n: Option<u64>) -> Option<i64>
    requires { IfSome n (λ k. k < 9007199254740992) }
    ensures { result ≡ positive n }
{
    match n {
        None => None,
        Some(n) => Some(n as i64),
    }
}

fn negative(n: Option<u64>) -> Option<i64>
    requires { IfSome n (λ k. k < 9007199254740992) }
    ensures { result ≡ negative n }
{
    match n {
        None => None,
        Some(n) => Some(-(n as i64)),
    }
}

/// A sign and digits, or nothing.
fn signed(reader: Plain<'_>) -> Option<i64>
    ensures { result ≡ signed reader.entry }
{
    let Some((c, rest)) = reader.first() else {
        return Some(0);
    };
    if c == '+' {
        return positive(digits(rest));
    }
    if c == '-' {
        return negative(digits(rest));
    }
    positive(digits(reader))
}

/// A text as a number.
fn number_in(t: &Txt) -> Option<i64>
    ensures { result ≡ number_in t.now }
{
    signed(past::<AsciiSpace>(Plain::new(t.as_str())))
}

/// A value as a number; none is NaN.
pub(crate) fn num(v: &Value) -> Option<i64>
    ensures { result ≡ num v.now }
{
    match v {
        Value::Undefined => None,
        Value::Null => Some(0),
        Value::Bool(b) => Some(if *b { 1 } else { 0 }),
        Value::Int(n) => Some(*n),
        Value::Nan => None,
        Value::Text(t) => number_in(t),
        Value::Obj(_) => None,
        Value::Fun(_) => None,
    }
}

/// A view as a number; none is NaN.
pub fn view_num(v: &View) -> Option<i64>
    ensures { result ≡ view_num (view_of v.now) }
{
    match v {
        View::Prim(v) => num(v),
        View::List(_) => None,
        View::Rec(_) => None,
    }
}

/// For `-` and the signs undefined is 0.
pub(crate) fn term_num(v: &View) -> Option<i64>
    ensures { result ≡ term_num (view_of v.now) }
{
    match v {
        View::Prim(Value::Undefined) => Some(0),
        _ => view_num(v),
    }
}

fn in_range(n: i64) -> Result<Value, Fault>
    ensures { result ≡ in_range n }
{
    if -LARGEST <= n && n <= LARGEST {
        Ok(Value::Int(n))
    } else {
        Err(Fault::Range)
    }
}

pub(crate) fn sum(m: i64, n: i64) -> Result<Value, Fault>
    ensures { result ≡ sum m n }
{
    match m.checked_add(n) {
        Some(k) => in_range(k),
        None => Err(Fault::Range),
    }
}

pub(crate) fn difference(m: i64, n: i64) -> Result<Value, Fault>
    ensures { result ≡ difference m n }
{
    match m.checked_sub(n) {
        Some(k) => in_range(k),
        None => Err(Fault::Range),
    }
}

pub(crate) fn product(m: i64, n: i64) -> Result<Value, Fault>
    ensures { result ≡ product m n }
{
    match m.checked_mul(n) {
        Some(k) => in_range(k),
        None => Err(Fault::Range),
    }
}

/// A whole quotient.
pub(crate) fn quotient(m: i64, n: i64) -> Result<Value, Fault>
    ensures { result ≡ quotient m n }
{
    if is_zero(n) {
        return Err(Fault::NotWhole);
    }
    whole_quotient(rest(m, n), m, n)
}

fn is_zero(n: i64) -> bool
    ensures same { IsTrue result ↔ (n ≡ pos 0) }
    ensures value { result ≡ int_eq n (pos 0) }
{
    n == 0
}

fn rest(m: i64, n: i64) -> i128
    requires { ¬ (n ≡ pos 0) }
    ensures { result ≡ int_rem m n }
{
    (m as i128) % (n as i128)
}

/// A quotient where there is no rest.
fn whole_quotient(rest: i128, m: i64, n: i64) -> Result<Value, Fault>
    requires { ¬ (n ≡ pos 0) }
    ensures { result ≡ (if int_eq rest (pos 0) then in_range (int_div m n) else Err NotWhole) }
{
    if rest == 0 {
        divided(m, n)
    } else {
        Err(Fault::NotWhole)
    }
}

fn divided(m: i64, n: i64) -> Result<Value, Fault>
    requires { ¬ (n ≡ pos 0) }
    ensures { result ≡ in_range (int_div m n) }
{
    match m.checked_div(n) {
        Some(k) => in_range(k),
        None => Err(Fault::Range),
    }
}

/// The rest, with the dividend's sign.
pub(crate) fn remainder(m: i64, n: i64) -> Result<Value, Fault>
    ensures { result ≡ remainder m n }
{
    if n == 0 {
        return Err(Fault::NotWhole);
    }
    wide_in_range((m as i128) % (n as i128))
}

fn wide_in_range(n: i128) -> Result<Value, Fault>
    ensures { result ≡ in_range n }
{
    if -(LARGEST as i128) <= n && n <= LARGEST as i128 {
        Ok(Value::Int(n as i64))
    } else {
        Err(Fault::Range)
    }
}
