//! The methods of arrays that change them.
ghost use Rattle.std.specs.Prelude.{◌≡◌, ◌<◌, ◌≤◌, ◌-◌, ◌+◌, ℕ, length, drop, IfOk};
ghost use Rattle.std.specs.List.{AllByRecursion};
ghost use Rattle.ng_base.specs.Objects.{StandsAmong};
ghost use Rattle.ng_language.specs.Objects.{items_at};
ghost use Rattle.ng_language.specs.Operators.{num};
ghost use Rattle.ng_members.specs.Methods.{from_end};
ghost use Rattle.ng_write.specs.Changing.{change_named, number, pushed, unshifted, spliced, cut_out, cut_from, cut_count, up_to, changed};
ghost use Rattle.ng_write.specs.Written.{Writes};

use crate::storing::add_array;
use ng_base::fault::{Fault, Memory};
use ng_base::heap::Heap;
use ng_base::name::Oid;
use ng_base::txt::Txt;
use ng_base::value::Value;
use ng_base::view::View;
use ng_members::lists::from_end;
use ng_store::Store;
use ng_value::numbers::view_num;

/// A method of arrays that changes them.
#[derive(Clone, Copy, Debug, PartialEq, Eq)]
pub enum Change {
    Push,
    Pop,
    Shift,
    Unshift,
    Splice,
    Reverse,
}

/// So many objects stand at most.
const OBJECT_LIMIT: usize = 1_000_000;

/// The method of a name that changes an array.
pub fn change_named(name: &Txt) -> Option<Change>
    ensures { result ≡ change_named name.now }
{
    if name.is_word("push") {
        Some(Change::Push)
    } else if name.is_word("pop") {
        Some(Change::Pop)
    } else if name.is_word("shift") {
        Some(Change::Shift)
    } else if name.is_word("unshift") {
        Some(Change::Unshift)
    } else if name.is_word("splice") {
        Some(Change::Splice)
    } else if name.is_word("reverse") {
        Some(Change::Reverse)
    } else {
        None
    }
}

/// The length of an array, as a value.
fn length(store: &Store, o: Oid) -> Value
    requires { o.0 < length store.now }
    ensures { result ≡ number (length (items_at store.now o.0)) }
{
    Value::Int(i64::from(store.len(o)))
}

/// Adds values behind the items.
#[tactic(auto, using(crate::proofs::More::as_many))]
fn push(store: &mut Store, o: Oid, args: &[Value]) -> Result<Value, Fault>
    requires object { o.0 < length store.old }
    requires args { AllByRecursion (StandsAmong (length store.old)) args.now }
    ensures pushed { Writes (pushed store.old o.0 args.now) store.new result }
    ensures len { length store.new ≡ length store.old }
{
    let count = store.len(o);
    store.splice(o, count, 0, args)?;
    Ok(length(store, o))
}

/// Adds values before the items.
#[tactic(auto, using(crate::proofs::More::as_many))]
fn unshift(store: &mut Store, o: Oid, args: &[Value]) -> Result<Value, Fault>
    requires object { o.0 < length store.old }
    requires args { AllByRecursion (StandsAmong (length store.old)) args.now }
    ensures unshifted { Writes (unshifted store.old o.0 args.now) store.new result }
    ensures len { length store.new ≡ length store.old }
{
    store.splice(o, 0, 0, args)?;
    Ok(length(store, o))
}

/// A place that an argument names: below 0 it counts from the end, what is no number is 0.
fn place(count: u32, v: &Value) -> Result<u32, Memory>
    ensures place { IfOk result (λ n. n ≡ from_end count (num v.now)) }
    ensures within { IfOk result (λ n. n ≤ count) }
{
    let from = from_end(count as usize, view_num(&View::of_value(v.copied()?)));
    Ok(from as u32)
}

/// As many as an argument asks for, and not more than there are.
fn up_to(most: u32, v: &Value) -> Result<u32, Memory>
    ensures { IfOk result (λ n. n ≡ up_to most (num v.now)) }
{
    let most = i64::from(most);
    let count = match view_num(&View::of_value(v.copied()?)) {
        None => 0,
        Some(n) if n >= most => most,
        Some(n) if n >= 0 => n,
        Some(_) => 0,
    };
    Ok(count as u32)
}

/// The first place that `splice` takes out.
fn cut_from(count: u32, args: &[Value]) -> Result<u32, Memory>
    ensures from { IfOk result (λ n. n ≡ cut_from count args.now) }
    ensures within { IfOk result (λ n. n ≤ count) }
{
    match args.get(0) {
        None => Ok(0),
        Some(v) => place(count, v),
    }
}

/// How many items `splice` takes out.
fn cut_count(count: u32, from: u32, args: &[Value]) -> Result<u32, Memory>
    requires from { from ≡ cut_from count args.now }
    requires within { from ≤ count }
    ensures count { IfOk result (λ n. n ≡ cut_count count args.now) }
    ensures within { IfOk result (λ n. n ≤ count - from) }
{
    if args.is_empty() {
        return Ok(0);
    }
    match args.get(1) {
        None => Ok(count - from),
        Some(v) => up_to(count - from, v),
    }
}

/// Replaces a range of the items by values, and gives a new array of what stood there.
#[tactic(auto, using(crate::proofs::More::as_many, crate::proofs::More::one_more))]
fn cut_out(store: &mut Store, o: Oid, from: u32, count: u32, new: &[Value]) -> Result<Value, Fault>
    requires object { o.0 < length store.old }
    requires within { from + count ≤ length (items_at store.old o.0) }
    requires new { AllByRecursion (StandsAmong (length store.old)) new.now }
    ensures cut { Writes (cut_out store.old o.0 from (from + count) new.now) store.new result }
    ensures grown { length store.old ≤ length store.new }
    ensures stands { IfOk result (λ v. StandsAmong (length store.new) v) }
{
    if store.count() >= OBJECT_LIMIT {
        return Err(Fault::StoreFull);
    }
    let taken = store.splice(o, from, count, new)?;
    add_array(store, taken.as_slice())
}

/// The arguments behind the count.
fn put_in(args: &[Value]) -> &[Value]
    ensures { result.now ≡ drop 2 args.now }
{
    if args.len() < 2 { &[] } else { &args[2..] }
}

fn splice(store: &mut Store, o: Oid, args: &[Value]) -> Result<Value, Fault>
    requires object { o.0 < length store.old }
    requires args { AllByRecursion (StandsAmong (length store.old)) args.now }
    ensures spliced { Writes (spliced store.old o.0 args.now) store.new result }
    ensures grown { length store.old ≤ length store.new }
    ensures stands { IfOk result (λ v. StandsAmong (length store.new) v) }
{
    let count = store.len(o);
    let from = cut_from(count, args)?;
    let cut = cut_count(count, from, args)?;
    cut_out(store, o, from, cut, put_in(args))
}

/// Calls a method of an array that changes it.
#[tactic(auto, using(crate::proofs::More::as_many), unfolding(crate::specs::Changing::changed))]
pub fn change_array(
    store: &mut Store,
    method: Change,
    o: Oid,
    args: &[Value],
) -> Result<Value, Fault>
    requires object { o.0 < length store.old }
    requires args { AllByRecursion (StandsAmong (length store.old)) args.now }
    ensures changed { Writes (changed store.old method o.0 args.now) store.new result }
    ensures grown { length store.old ≤ length store.new }
    ensures stands { IfOk result (λ v. StandsAmong (length store.new) v) }
{
    match method {
        Change::Push => push(store, o, args),
        Change::Pop => Ok(store.pop(o)),
        Change::Shift => Ok(store.shift(o)),
        Change::Unshift => unshift(store, o, args),
        Change::Splice => splice(store, o, args),
        Change::Reverse => {
            store.reverse(o);
            Ok(Value::Obj(o))
        }
    }
}
