//! Why a script is refused.
ghost use Rattle.ng_base.specs.declared.fault.Memory.TheVariants.{Refused};
ghost use Rattle.ng_script.specs.declared.fault.ScriptKind.TheVariants.{Memory as Wanting};
ghost use Rattle.ng_script.specs.Free.{is_free};
ghost use Rattle.std.specs.Prelude.{◌≡◌, true};

use ng_base::fault::Memory;
use std::alloc::{AllocError, AllocFailed};
use thiserror::Error;

/// Why a line of a script is refused.
#[derive(Clone, Copy, Debug, PartialEq, Eq, Error)]
pub enum ScriptKind {
    #[error("Utf8")]
    Utf8,
    #[error("UnknownCommand")]
    UnknownCommand,
    #[error("BadTarget")]
    BadTarget,
    #[error("BadExpression")]
    BadExpression,
    #[error("TooMany")]
    TooMany,
    #[error("BadArgument")]
    BadArgument,
    #[error("{0}")]
    Memory(Memory),
}

/// A refusal of a script: the number of the line, from 1, and why. Want of memory has the number 0.
#[derive(Clone, Copy, Debug, PartialEq, Eq, Error)]
#[error("{kind} in line {line}")]
pub struct ScriptFault {
    pub line: u64,
    pub kind: ScriptKind,
}

impl From<AllocError> for ScriptKind {
    ghost from_gives = { λ _ e. e ≡ Wanting Refused };

    fn from(_: AllocError) -> Self {
        ScriptKind::Memory(Memory::Refused)
    }
}

impl<T: Drop> From<AllocFailed<T>> for ScriptKind {
    ghost from_gives = { λ _ e. e ≡ Wanting Refused };

    fn from(_: AllocFailed<T>) -> Self {
        ScriptKind::Memory(Memory::Refused)
    }
}

impl From<AllocError> for ScriptFault {
    ghost from_gives = { λ _ e. is_free e ≡ true };

    fn from(_: AllocError) -> Self {
        ScriptFault {
            line: 0,
            kind: ScriptKind::Memory(Memory::Refused),
        }
    }
}
