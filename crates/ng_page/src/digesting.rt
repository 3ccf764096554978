//! Digests of a page, and the end of a step.
ghost use Rattle.std.specs.Prelude.{◌≡◌, IfOk, OnOk};
ghost use Rattle.ng_digest.specs.Causes.{Unless};
ghost use Rattle.ng_digest.specs.Early.{plain_of, plain_answer};
ghost use Rattle.ng_digest.specs.Plain.{PlainDigests};
ghost use Rattle.ng_digest.specs.Short.{Digests};
ghost use Rattle.ng_link.specs.State as link;
ghost use Rattle.ng_page.specs.Answered.{ready_place, PlainlyDigests, ShortlyDigests, WhenOk};
ghost use Rattle.ng_page.specs.OutcomeOf.{outcome_of};
ghost use Rattle.ng_page.specs.PageMachine.{page_machine, readied};
ghost use Rattle.ng_commands.specs.BetweenSteps.{WorksAre, PageIs};
ghost use Rattle.ng_page.specs.PlaceOf.{state_of, place_of};
ghost use Rattle.ng_commands.specs.Settled.{IsSettled};
ghost use Rattle.ng_page.specs.Steps.{Ends, EndsShort};
ghost use Rattle.ng_page.specs.KnownClean.{nothing_known};

use crate::engine::Engine;
use crate::known::nothing;
use crate::outcome::Outcome;
use ng_base::fault::Memory;
use ng_base::lists::Words;
use ng_base::name::ScopeId;
use ng_digest::log::Report;
use ng_digest::progress::Progress;
use ng_digest::rounds::{DigestFault, digest};
use ng_link::works::Works;
use ng_watch::watch::Verdict;
use std::alloc::Global;
use std::collections::BTreeSet;
use std::mem::replace;

impl Engine {
    /// A page at work over what stands of it.
    pub(crate) fn new(alloc: Global, works: Works) -> Engine
        ensures { result.works ≡ works }
    {
        Engine {
            alloc,
            works,
            told: BTreeSet::new(alloc),
            faulted: BTreeSet::new(alloc),
            probed: Words::new(alloc),
            ahead: Ok(Verdict::Clean),
            pending: None,
            known: nothing(),
            progress: Progress::new(),
        }
    }

    /// Makes it ready for a digest, in which nothing was counted, remembered or handed over yet.
    fn ready(&mut self)
        ensures place { place_of self.new ≡ ready_place (link.state_of self.old.works) }
        ensures works { WorksAre self.old.works → WorksAre self.new.works }
        ensures known { self.new.known ≡ nothing_known }
    {
        self.told.clear();
        self.faulted.clear();
        self.probed = Words::new(self.alloc);
        self.works.forget_faults();
        self.pending = None;
        self.known = nothing();
        self.progress = Progress::new();
    }

    /// A digest over the watchers (guide: Scopes, "Scope Life Cycle").
    fn digest(&mut self) -> Result<Report, DigestFault>
        requires { PageIs self.old.works }
        ensures short { Digests page_machine (ready_place (link.state_of self.old.works)) result (place_of self.new) }
        ensures plain { Unless result (PlainDigests page_machine (readied (link.state_of self.old.works)) (plain_answer result) (plain_of (place_of self.new))) }
        ensures settled { IfOk result (λ _. IsSettled (link.state_of self.new.works)) }
        ensures page { Unless result (PageIs self.new.works) }
    {
        self.ready();
        digest(self)
    }

    /// Takes what the probes printed.
    fn printed(&mut self) -> Words
        ensures texts { result ≡ self.old.probed }
        ensures works { self.new.works ≡ self.old.works }
    {
        replace(&mut self.probed, Words::new(self.alloc))
    }
}

/// A digest whose answer isn't want of memory, and what its probes print.
fn digested(engine: &mut Engine) -> Result<(Result<Report, DigestFault>, Words), Memory>
    requires { PageIs engine.old.works }
    ensures plain { IfOk result (λ r. PlainlyDigests (link.state_of engine.old.works) (plain_answer r.0) r.1 (link.state_of engine.new.works)) }
    ensures short { IfOk result (λ r. ShortlyDigests (link.state_of engine.old.works) r.0 (link.state_of engine.new.works)) }
    ensures settled { IfOk result (λ r. IfOk r.0 (λ _. IsSettled (link.state_of engine.new.works))) }
    ensures page { OnOk result (PageIs engine.new.works) }
{
    match engine.digest() {
        Ok(report) => Ok((Ok(report), engine.printed())),
        Err(DigestFault::Memory(memory)) => Err(memory),
        Err(fault) => Ok((Err(fault), engine.printed())),
    }
}

/// Ends a step whose program has run: its faults are told, and a digest is made where the root lives.
pub(crate) fn conclude(engine: &mut Engine) -> Result<Outcome, Memory>
    requires { PageIs engine.old.works }
    ensures step { IfOk result (λ o. Ends (link.state_of engine.old.works) (outcome_of o) (link.state_of engine.new.works)) }
    ensures report { IfOk result (λ o. EndsShort (link.state_of engine.old.works) o.digest (link.state_of engine.new.works)) }
    ensures settled { IfOk result (λ o. WhenOk o.digest (IsSettled (link.state_of engine.new.works))) }
    ensures page { OnOk result (PageIs engine.new.works) }
{
    let handed = engine.works.core.handed;
    if !engine.works.core.scopes.is_live(ScopeId(0)) {
        return Ok(Outcome {
            faults: handed.count,
            first: handed.first,
            digest: None,
            probed: Words::new(engine.alloc),
        });
    }
    let (digest, probed) = digested(engine)?;
    Ok(Outcome {
        faults: handed.count,
        first: handed.first,
        digest: Some(digest),
        probed,
    })
}
