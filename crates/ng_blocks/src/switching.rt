//! Which cases of a switch are shown (API: `ngSwitch`).
ghost use Rattle.std.specs.Prelude.{◌≡◌, ◌<◌, ◌^◌, length, IfOk};
ghost use Rattle.ng_blocks.specs.Places.{places};
ghost use Rattle.ng_blocks.specs.Switching.{matches, is_default, shown_cases};

use crate::switch_cases::Cases;
use ng_base::fault::Memory;
use ng_base::lists::Numbers;
use ng_base::txt::Txt;
use std::alloc::{AllocError, Global};

fn matches_text(value: &Txt, case: &Option<Txt>) -> bool
    ensures { result ≡ matches value.now case.now }
{
    match case {
        Some(text) => text.same(value),
        None => false,
    }
}

/// The cases that have this text.
fn matching(alloc: Global, value: &Txt, cases: &[Option<Txt>]) -> Result<Numbers, AllocError>
    requires { length cases.now < 2 ^ 32 }
    ensures { IfOk result (λ n. n ≡ places (matches value.now) cases.now) }
{
    let mut numbers = Numbers::new(alloc);
    for (i, case) in cases.iter().enumerate() {
        if matches_text(value, case) {
            numbers.push(i as u32)?;
        }
    }
    Ok(numbers)
}

/// The cases that are defaults.
fn defaults(alloc: Global, cases: &[Option<Txt>]) -> Result<Numbers, AllocError>
    requires { length cases.now < 2 ^ 32 }
    ensures { IfOk result (λ n. n ≡ places is_default cases.now) }
{
    let mut numbers = Numbers::new(alloc);
    for (i, case) in cases.iter().enumerate() {
        if case.is_none() {
            numbers.push(i as u32)?;
        }
    }
    Ok(numbers)
}

/// All cases of the value's text in order, else the defaults.
pub fn cases(alloc: Global, value: &Txt, c: &Cases) -> Result<Numbers, Memory>
    requires { length c.now < 2 ^ 32 }
    ensures { IfOk result (λ n. n ≡ shown_cases value.now c.now) }
{
    let matching = matching(alloc, value, c.as_slice())?;
    if matching.as_slice().is_empty() {
        Ok(defaults(alloc, c.as_slice())?)
    } else {
        Ok(matching)
    }
}
