//! The step of an event: the lines of each handler, and then the document.
ghost use Rattle.std.specs.Prelude.{◌≡◌, ◌++◌, IfOk};
ghost use Rattle.std.specs.List.{flat_map};
ghost use Rattle.ng_link.specs.State.{rendering};
ghost use Rattle.ng_page.specs.Answered.{WhenOk};
ghost use Rattle.ng_page.specs.Dispatch.{last_digest};
ghost use Rattle.ng_page.specs.Dispatched.{told_of, told_all};
ghost use Rattle.ng_page.specs.PageOf.{state_of};
ghost use Rattle.ng_printing.specs.EventStep.{handler_lines, all_went_well, event_step};
ghost use Rattle.ng_printing.specs.StepSeen.{step_seen};
ghost use Rattle.ng_page.specs.Ready.{IsReady, Renders};

use crate::lines::{action, digested, probes, told};
use crate::reply::Lines;
use crate::step::{is_well, last};
use ng_base::fault::Memory;
use ng_digest::log::Report;
use ng_digest::rounds::DigestFault;
use ng_page::outcome::Outcome;
use ng_page::page::Page;
use ng_words::words::Flags;
use std::alloc::Global;

/// The lines of one handler and its digest.
fn handler_lines(alloc: Global, flags: Flags, outcome: &Outcome) -> Result<Vec<u8>, Memory>
    ensures { IfOk result (λ v. v.items ≡ handler_lines flags.trace (told_of outcome.now)) }
{
    let mut bytes = action(alloc, outcome.faults, &outcome.first)?;
    let told = told(alloc, flags.trace, &outcome.digest)?;
    bytes.extend_from_slice(told.as_slice())?;
    let digested = digested(alloc, &outcome.digest)?;
    bytes.extend_from_slice(digested.as_slice())?;
    let probes = probes(alloc, &outcome.probed)?;
    bytes.extend_from_slice(probes.as_slice())?;
    Ok(bytes)
}

/// The lines of all handlers, after a header.
fn all_lines(
    alloc: Global,
    flags: Flags,
    header: Vec<u8>,
    outcomes: &[Outcome],
) -> Result<Vec<u8>, Memory>
    ensures { IfOk result (λ v. v.items ≡ header.items ++ flat_map (handler_lines flags.trace) (told_all outcomes.now)) }
{
    let mut bytes = header;
    for outcome in outcomes {
        let lines = handler_lines(alloc, flags, outcome)?;
        bytes.extend_from_slice(lines.as_slice())?;
    }
    Ok(bytes)
}

/// Whether all went well in each.
fn all_went_well(outcomes: &[Outcome]) -> bool
    ensures { result ≡ all_went_well (told_all outcomes.now) }
{
    for outcome in outcomes {
        if !is_well(&outcome.first, &outcome.digest) {
            return false;
        }
    }
    true
}

/// The digest that was made last, if one was.
fn last_digest(outcomes: &[Outcome]) -> Option<Result<Report, DigestFault>>
    ensures { result ≡ last_digest (told_all outcomes.now) }
{
    let mut digest = None;
    for outcome in outcomes {
        if outcome.digest.is_some() {
            digest = outcome.digest;
        }
    }
    digest
}

/// The step of an event whose handlers have run.
pub fn event_step(
    alloc: Global,
    flags: Flags,
    header: Vec<u8>,
    page: &Page,
    outcomes: &[Outcome],
) -> Result<Lines, Memory>
    requires ready { IsReady page.now }
    requires renders { WhenOk (last_digest (told_all outcomes.now)) (Renders page.now) }
    ensures { IfOk result (λ l. step_seen l ≡ event_step flags.trace header.items (told_all outcomes.now) (rendering (state_of page.now))) }
{
    let mut piece = all_lines(alloc, flags, header, outcomes)?;
    let last = last(alloc, flags, &last_digest(outcomes), page)?;
    piece.extend_from_slice(last.as_slice())?;
    Ok(Lines {
        piece,
        well: all_went_well(outcomes),
    })
}
