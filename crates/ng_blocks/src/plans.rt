//! What becomes of the rows of a repeat.
ghost use Rattle.std.specs.Prelude.{◌≡◌};
ghost use Rattle.ng_base.specs.declared.fault.Memory.TheVariants.{Refused};
ghost use Rattle.ng_blocks.specs.declared.plans.PlanFault.TheVariants.{Memory as Wanting};

use ng_base::fault::Memory;
use ng_base::lists::{Numbers, Sources};
use std::alloc::{AllocError, AllocFailed};
use thiserror::Error;

/// The places of the old rows that go, ascending, and for each new entry the place of the old row that it comes from.
#[derive(Drop)]
pub struct Plan {
    pub gone: Numbers,
    pub from: Sources,
}

/// Why there is no plan.
#[derive(Clone, Copy, Debug, PartialEq, Eq, Error)]
pub enum PlanFault {
    #[error("two entries have one track key")]
    Dupes,
    #[error("{0}")]
    Memory(Memory),
}

impl From<AllocError> for PlanFault {
    ghost from_gives = { λ _ e. e ≡ Wanting Refused };

    fn from(_: AllocError) -> Self {
        PlanFault::Memory(Memory::Refused)
    }
}

impl<T: Drop> From<AllocFailed<T>> for PlanFault {
    ghost from_gives = { λ _ e. e ≡ Wanting Refused };

    fn from(_: AllocFailed<T>) -> Self {
        PlanFault::Memory(Memory::Refused)
    }
}
