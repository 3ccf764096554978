//! Plans of repeats.
ghost use Rattle.std.specs.Prelude.{◌≡◌, ◌<◌, ◌^◌, length, false, IfSome};
ghost use Rattle.ng_blocks.specs.Plans.{has_double};

use ng_base::value::Value;
use ng_blocks::{Plan, TrackKey, TrackKeys, plan};
use std::alloc::Global;

/// Which of so many numbers are the keys, and in which order.
#[derive(Clone, Copy)]
pub(crate) enum Order {
    Rising,
    Falling,
    WithoutTenths,
}

/// The key at a place, if one stands there.
fn key_at(order: Order, size: u64, i: u64) -> Option<u64> {
    match order {
        Order::Rising => Some(i),
        Order::Falling => size.checked_sub(i)?.checked_sub(1),
        Order::WithoutTenths => { if i % 10 == 9 { None } else { Some(i) } }
    }
}

fn entries_in(alloc: Global, order: Order, size: u64) -> Option<TrackKeys> {
    let mut entries = TrackKeys::new(alloc);
    for i in 0..size {
        if let Some(key) = key_at(order, size, i) {
            let number = i64::try_from(key).ok()?;
            entries.push(TrackKey::Prim(Value::Int(number))).ok()?;
        }
    }
    Some(entries)
}

/// So many rows with rising keys.
fn rows(alloc: Global, size: u64) -> Option<TrackKeys>
    ensures { IfSome result (λ r. (has_double r ≡ false) × (length r < 2 ^ 32)) }
{
    let entries = entries_in(alloc, Order::Rising, size)?;
    if entries.as_slice().len() > 10_000_000 {
        return None;
    }
    let nothing = TrackKeys::new(alloc);
    match plan(alloc, &nothing, &entries) {
        Ok(_) => Some(entries),
        Err(_) => None,
    }
}

/// How many rows go, and how many entries come from one.
fn counted(plan: &Plan) -> u64 {
    let mut count = plan.gone.as_slice().len() as u64;
    for source in plan.from.as_slice() {
        if source.is_some() {
            count = count.saturating_add(1);
        }
    }
    count
}

/// The plan of so many rows, once it is made for none and once for rows with rising keys.
pub(crate) fn planned(alloc: Global, order: Order, size: u64) -> Option<u64> {
    let rows = rows(alloc, size)?;
    let entries = entries_in(alloc, order, size)?;
    let plan = plan(alloc, &rows, &entries).ok()?;
    Some(counted(&plan))
}
