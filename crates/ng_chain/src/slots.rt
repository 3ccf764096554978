//! The vector under a chain: slots in rising serials, with holes where entries were removed.
ghost use Rattle.std.specs.Prelude.{◌≡◌, ◌<◌, ◌≤◌, ◌↔◌, ℕ, [], Some, None, IsSome, IsTrue, All, length, slice_index, MatchOption, is_some, option_copied};
ghost use Rattle.std.specs.List.{filter};
ghost use Rattle.ng_chain.specs.Walked.{found, value_of, without, serial_of, walk_at, open_walks, NothingAhead, IsNext};
ghost use Rattle.ng_chain.specs.Slots.{standing, serials, Ascends, passed};

use super::chain::{Span, Token};

/// An entry under its serial, or the hole that it left.
#[derive(Drop)]
pub struct Slot<T> {
    pub serial: u64,
    pub value: Option<T>,
}

/// How many slots are not above a serial.
#[tactic(auto, using(crate::proofs::Places::searches))]
pub fn passed_in<T>(slots: &[Slot<T>], serial: u64) -> usize
    requires { Ascends 0 (serials slots.now) }
    ensures { result ≡ passed serial (serials slots.now) }
{
    let mut low = 0;
    let mut high = slots.len();
    while low < high {
        let middle = low + (high - low) / 2;
        if slots[middle].serial <= serial {
            low = middle + 1;
        } else {
            high = middle;
        }
    }
    low
}

/// The value under a serial, where so many slots are not above it.
#[tactic(auto, using(crate::proofs::Places::reads))]
pub fn value_at<T>(slots: &[Slot<T>], serial: u64, next: usize) -> Option<&T>
    requires ascends { Ascends 0 (serials slots.now) }
    requires next { next ≡ passed serial (serials slots.now) }
    ensures { option_copied result ≡ found (standing slots.now) serial }
{
    if next == 0 {
        return None;
    }
    let slot = &slots[next - 1];
    if slot.serial == serial {
        slot.value.as_ref()
    } else {
        None
    }
}

/// The value of a token.
#[tactic(auto, using(crate::proofs::Places::reads))]
pub fn value_in<'a, T>(slots: &'a [Slot<T>], t: &Token) -> &'a T
    requires ascends { Ascends 0 (serials slots.now) }
    requires stands { IsSome (value_of (standing slots.now) t.now) }
    ensures { value_of (standing slots.now) t.now ≡ Some result.now }
{
    let next = passed_in(slots, t.serial.0);
    match value_at(slots, t.serial.0, next) {
        Some(v) => v,
        None => unreachable!(),
    }
}

/// Takes the entry of a token out and leaves a hole.
#[tactic(auto, using(crate::proofs::Places::reads))]
pub fn take_from<T>(slots: &mut Vec<Slot<T>>, t: Token) -> T
    requires ascends { Ascends 0 (serials slots.old.items) }
    requires stands { IsSome (value_of (standing slots.old.items) t) }
    ensures value { value_of (standing slots.old.items) t ≡ Some result }
    ensures entries { standing slots.new.items ≡ without (serial_of t) (standing slots.old.items) }
    ensures serials { serials slots.new.items ≡ serials slots.old.items }
{
    let next = passed_in(slots.as_slice(), t.serial.0);
    let slot = &mut slots[next - 1];
    match slot.value.take() {
        Some(v) => v,
        None => unreachable!(),
    }
}

/// The place of the next entry of a walk that knows the first slot above its place.
#[tactic(auto, using(crate::proofs::Places::reads))]
pub fn next_in<T>(slots: &[Slot<T>], next: usize, span: Span) -> Option<usize>
    requires ascends { Ascends 0 (serials slots.now) }
    requires next { next ≡ passed span.place (serials slots.now) }
    ensures { MatchOption result (NothingAhead (standing slots.now) span.place span.end) (λ i. (i < length slots.now) × IsNext (standing slots.now) span.place span.end (slice_index (serials slots.now) i)) }
{
    let mut at = next;
    while at < slots.len() {
        let slot = &slots[at];
        if span.end < slot.serial {
            return None;
        }
        if slot.value.is_some() {
            return Some(at);
        }
        at += 1;
    }
    None
}

/// Takes every entry out and leaves holes.
pub fn hollow<T: Drop>(slots: &mut Vec<Slot<T>>)
    ensures entries { standing slots.new.items ≡ [] }
    ensures serials { serials slots.new.items ≡ serials slots.old.items }
{
    for i in 0..slots.len() {
        slots[i].value = None;
    }
}

/// Closes the holes.
pub fn close_holes<T: Drop>(slots: &mut Vec<Slot<T>>)
    ensures { slots.new.items ≡ filter (λ x. is_some x.value) slots.old.items }
{
    slots.retain(|slot| slot.value.is_some());
}

/// The first place in which no walk is open.
pub fn free_place(walks: &[Option<Span>]) -> Option<usize>
    ensures { MatchOption result (open_walks walks.now ≡ length walks.now) (λ i. (i < length walks.now) × (walk_at walks.now i ≡ None)) }
{
    for i in 0..walks.len() {
        if walks[i].is_none() {
            return Some(i);
        }
    }
    None
}

/// Whether no walk is open.
pub fn is_idle(walks: &[Option<Span>]) -> bool
    ensures { IsTrue result ↔ All (λ w. w ≡ None) walks.now }
{
    walks.iter().all(|w| w.is_none())
}
