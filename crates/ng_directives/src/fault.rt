//! Why a template is refused.
ghost use Rattle.std.specs.Prelude.{◌≡◌, true};
ghost use Rattle.ng_directives.specs.Free.{is_tpl_want};

use ng_base::fault::Memory;
use std::alloc::{AllocError, AllocFailed};
use thiserror::Error;

/// Why a template is refused.
#[derive(Clone, Copy, Debug, PartialEq, Eq, Error)]
pub enum TplKind {
    #[error("Expression")]
    Expression,
    #[error("Impure")]
    Impure,
    #[error("MultiDir")]
    MultiDir,
    #[error("BadRepeat")]
    BadRepeat,
    #[error("CaseWithoutSwitch")]
    CaseWithoutSwitch,
    #[error("UnknownFilter")]
    UnknownFilter,
    #[error("LeftOut")]
    LeftOut,
    #[error("Orphan")]
    Orphan,
    #[error("{0}")]
    Memory(Memory),
}

/// A refusal of a template: the byte where the element or text begins, and why. Want of memory has place 0.
#[derive(Clone, Copy, Debug, PartialEq, Eq, Error)]
#[error("{kind} at byte {place}")]
pub struct TplFault {
    pub place: u64,
    pub kind: TplKind,
}

impl From<AllocError> for TplFault {
    ghost from_gives = { λ _ e. is_tpl_want e ≡ true };

    fn from(_: AllocError) -> Self {
        TplFault {
            place: 0,
            kind: TplKind::Memory(Memory::Refused),
        }
    }
}

impl<T: Drop> From<AllocFailed<T>> for TplFault {
    ghost from_gives = { λ _ e. is_tpl_want e ≡ true };

    fn from(_: AllocFailed<T>) -> Self {
        TplFault {
            place: 0,
            kind: TplKind::Memory(Memory::Refused),
        }
    }
}
