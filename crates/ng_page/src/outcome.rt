//! What the calls on a page answer.

ghost use Rattle.std.specs.Prelude.{◌≡◌, ◌++◌, ◌∷◌, [], ◌==◌, length, OnOk, OnErr};

use ng_base::fault::{Fault, Memory};
use ng_base::lists::Words;
use ng_digest::log::Report;
use ng_digest::rounds::DigestFault;
use std::alloc::{AllocError, Global};
use std::marker::Model;
use thiserror::Error;

/// What a call on a page did: how many faults its program handed over and the first of them, the digest's answer, and the
/// texts of the probes. `digest` is `None` where no digest was due.
#[derive(Drop)]
pub struct Outcome {
    pub faults: u32,
    pub first: Option<Fault>,
    pub digest: Option<Result<Report, DigestFault>>,
    pub probed: Words,
}

/// What the handlers of an event have done, one outcome for each that ran, in order.
#[derive(Drop)]
pub struct Outcomes {
    items: Vec<Outcome>,
}

impl Model for Outcomes {
    ghost use Rattle.std.specs.Prelude.{List};
    ghost use Rattle.ng_page.specs.declared.outcome.Outcome.{Outcome as Item};

    ghost Value = { List Item };

    ghost view = { λ l. l.items.items };
}

impl Outcomes {
    /// No outcome.
    pub fn new(alloc: Global) -> Outcomes
        ensures { result ≡ [] }
    {
        Outcomes {
            items: Vec::new(alloc),
        }
    }

    /// Adds an outcome at the end.
    pub fn push(&mut self, outcome: Outcome) -> Result<(), AllocError>
        ensures ok { OnOk result (self.new ≡ self.old ++ outcome ∷ []) }
        ensures err { OnErr result (self.new ≡ self.old) }
    {
        self.items.push(outcome)?;
        Ok(())
    }

    /// Whether there is none.
    pub fn is_empty(&self) -> bool
        ensures { result ≡ (length self.now == 0) }
    {
        self.items.is_empty()
    }

    /// All of them, in order.
    pub fn as_slice(&self) -> &[Outcome]
        ensures { result.now ≡ self.now }
    {
        self.items.as_slice()
    }
}

/// Why a call on a page did nothing. `Idle`: the root or the scope in question does not live. `Spent`: memory ran out in an
/// earlier call, and nothing is said of the page any more.
#[derive(Clone, Copy, Debug, PartialEq, Eq, Error)]
pub enum PageFault {
    #[error("the scope does not live")]
    Idle,
    #[error("memory ran out before")]
    Spent,
    #[error("{0}")]
    Memory(Memory),
}
