//! Why a node could not be made.
ghost use Rattle.ng_base.specs.declared.fault.Memory.TheVariants.{Refused};
ghost use Rattle.ng_dom.specs.declared.fault.DomFault.TheVariants.{Memory as OfMemory};
ghost use Rattle.std.specs.Prelude.{◌≡◌};

use ng_base::fault::Memory;
use std::alloc::{AllocError, AllocFailed};
use thiserror::Error;

/// Why a node could not be made.
#[derive(Clone, Copy, Debug, PartialEq, Eq, Error)]
pub enum DomFault {
    #[error("200,000 nodes are live")]
    NodeLimit,
    #[error("{0}")]
    Memory(Memory),
}

impl From<AllocError> for DomFault {
    ghost from_gives = { λ _ e. e ≡ OfMemory Refused };

    fn from(_: AllocError) -> Self {
        DomFault::Memory(Memory::Refused)
    }
}

impl<T: Drop> From<AllocFailed<T>> for DomFault {
    ghost from_gives = { λ _ e. e ≡ OfMemory Refused };

    fn from(_: AllocFailed<T>) -> Self {
        DomFault::Memory(Memory::Refused)
    }
}
