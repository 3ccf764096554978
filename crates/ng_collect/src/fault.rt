//! Why a directive is not registered, and why the directives of an element are not picked.
ghost use Rattle.std.specs.Prelude.{◌≡◌};
ghost use Rattle.ng_base.specs.declared.fault.Memory.TheVariants.{Refused};
ghost use Rattle.ng_collect.specs.declared.fault.DefFault.TheVariants.{Memory as OfDefinition};
ghost use Rattle.ng_collect.specs.declared.fault.CollectFault.TheVariants.{Memory as OfElement};

use ng_base::fault::Memory;
use std::alloc::{AllocError, AllocFailed};
use thiserror::Error;

/// Why a definition is not registered.
#[derive(Clone, Copy, Debug, PartialEq, Eq, Error)]
pub enum DefFault {
    #[error("the name is no name of a directive")]
    BadName,
    #[error("the text is no binding")]
    BadBinding,
    #[error("a directive stands on elements, on attributes, or on both")]
    BadRestrict,
    #[error("{0}")]
    Memory(Memory),
}

impl From<AllocError> for DefFault {
    ghost from_gives = { λ _ e. e ≡ OfDefinition Refused };

    fn from(_: AllocError) -> Self {
        DefFault::Memory(Memory::Refused)
    }
}

impl<T: Drop> From<AllocFailed<T>> for DefFault {
    ghost from_gives = { λ _ e. e ≡ OfDefinition Refused };

    fn from(_: AllocFailed<T>) -> Self {
        DefFault::Memory(Memory::Refused)
    }
}

/// Why the directives of an element are not picked.
#[derive(Clone, Copy, Debug, PartialEq, Eq, Error)]
pub enum CollectFault {
    #[error("the directives of an element cannot stand together")]
    MultiDir,
    #[error("a name of the core is left out of this profile")]
    LeftOut,
    #[error("{0}")]
    Memory(Memory),
}

impl From<AllocError> for CollectFault {
    ghost from_gives = { λ _ e. e ≡ OfElement Refused };

    fn from(_: AllocError) -> Self {
        CollectFault::Memory(Memory::Refused)
    }
}

impl<T: Drop> From<AllocFailed<T>> for CollectFault {
    ghost from_gives = { λ _ e. e ≡ OfElement Refused };

    fn from(_: AllocFailed<T>) -> Self {
        CollectFault::Memory(Memory::Refused)
    }
}
