//! A step: its lines in their order.
ghost use Rattle.std.specs.Prelude.{◌≡◌, IfOk, option_map};
ghost use Rattle.ng_digest.specs.Early.{plain_answer};
ghost use Rattle.ng_link.specs.State.{rendering};
ghost use Rattle.ng_page.specs.Answered.{WhenOk};
ghost use Rattle.ng_page.specs.OutcomeOf.{outcome_of};
ghost use Rattle.ng_page.specs.PageOf.{state_of};
ghost use Rattle.ng_printing.specs.Lines.{last_line};
ghost use Rattle.ng_printing.specs.Lines.{told_lines};
ghost use Rattle.ng_printing.specs.StepSeen.{step_seen};
ghost use Rattle.ng_page.specs.Ready.{IsReady, Renders};
ghost use Rattle.ng_printing.specs.Left.{is_well as is_well_of, idle_step, aimless_step};
ghost use Rattle.ng_printing.specs.StepLines.{step_of, step_lines};

use crate::lines::{action, digested, probes, told};
use crate::page_lines::{shown_line, static_line};
use crate::reply::Lines;
use ng_base::fault::{Fault, Memory};
use ng_digest::log::Report;
use ng_digest::rounds::DigestFault;
use ng_page::outcome::Outcome;
use ng_page::page::Page;
use ng_words::words::Flags;
use std::alloc::{AllocError, Global};

/// Whether all went well: no fault was handed over, and no digest failed.
pub(crate) fn is_well(first: &Option<Fault>, digest: &Option<Result<Report, DigestFault>>) -> bool
    ensures { result ≡ is_well_of first.now (option_map plain_answer digest.now) }
{
    match first {
        Some(_) => false,
        None => match digest {
            None => true,
            Some(Ok(_)) => true,
            Some(Err(_)) => false,
        },
    }
}

/// The line that a step ends with. After a digest that answered Ok it is the document, or with `--static` the rendering, which is
/// the same.
pub(crate) fn last(
    alloc: Global,
    flags: Flags,
    digest: &Option<Result<Report, DigestFault>>,
    page: &Page,
) -> Result<Vec<u8>, Memory>
    requires ready { IsReady page.now }
    requires renders { WhenOk digest.now (Renders page.now) }
    ensures { IfOk result (λ v. v.items ≡ last_line (option_map plain_answer digest.now) (rendering (state_of page.now))) }
{
    match digest {
        None => Ok(Vec::from_slice(alloc, "idle\n".as_bytes())?),
        Some(Err(_)) => Ok(Vec::new(alloc)),
        Some(Ok(_)) => {
            if flags.is_static {
                static_line(alloc, page)
            } else {
                shown_line(alloc, page)
            }
        }
    }
}

/// The lines of a step after its header.
fn body(alloc: Global, flags: Flags, page: &Page, outcome: &Outcome) -> Result<Vec<u8>, Memory>
    requires ready { IsReady page.now }
    requires renders { WhenOk outcome.now.digest (Renders page.now) }
    ensures { IfOk result (λ v. v.items ≡ step_lines (told_lines flags.trace outcome.now.digest) (outcome_of outcome.now) (rendering (state_of page.now))) }
{
    let mut bytes = action(alloc, outcome.faults, &outcome.first)?;
    let told = told(alloc, flags.trace, &outcome.digest)?;
    bytes.extend_from_slice(told.as_slice())?;
    let digested = digested(alloc, &outcome.digest)?;
    bytes.extend_from_slice(digested.as_slice())?;
    let probes = probes(alloc, &outcome.probed)?;
    bytes.extend_from_slice(probes.as_slice())?;
    let last = last(alloc, flags, &outcome.digest, page)?;
    bytes.extend_from_slice(last.as_slice())?;
    Ok(bytes)
}

/// A step that did something, after its header.
pub fn step(
    alloc: Global,
    flags: Flags,
    header: Vec<u8>,
    page: &Page,
    outcome: &Outcome,
) -> Result<Lines, Memory>
    requires ready { IsReady page.now }
    requires renders { WhenOk outcome.now.digest (Renders page.now) }
    ensures { IfOk result (λ l. step_seen l ≡ step_of header.items (told_lines flags.trace outcome.now.digest) (outcome_of outcome.now) (rendering (state_of page.now))) }
{
    let mut piece = header;
    let body = body(alloc, flags, page, outcome)?;
    piece.extend_from_slice(body.as_slice())?;
    let well = is_well(&outcome.first, &outcome.digest);
    Ok(Lines { piece, well })
}

/// A step that did nothing, since the root or the scope in question does not live.
pub fn idle(header: Vec<u8>) -> Result<Lines, AllocError>
    ensures { IfOk result (λ l. step_seen l ≡ idle_step header.items) }
{
    let mut piece = header;
    piece.extend_from_slice("idle\n".as_bytes())?;
    Ok(Lines { piece, well: true })
}

/// A step that did nothing, since no element stands at its target, or no control of its kind.
pub fn aimless(header: Vec<u8>) -> Result<Lines, AllocError>
    ensures { IfOk result (λ l. step_seen l ≡ aimless_step header.items) }
{
    let mut piece = header;
    piece.extend_from_slice("target: none\n".as_bytes())?;
    Ok(Lines { piece, well: false })
}
