//! Why an application is refused.
ghost use Rattle.std.specs.Prelude.{◌≡◌, true};
ghost use Rattle.ng_entries.specs.Free.{is_app_want};

use ng_base::fault::Memory;
use std::alloc::{AllocError, AllocFailed};
use thiserror::Error;

/// A member of the application file, or the file itself. `Facts` is the member `data`.
#[derive(Clone, Copy, Debug, PartialEq, Eq, Error)]
pub enum Member {
    #[error("file")]
    File,
    #[error("format")]
    Format,
    #[error("data")]
    Facts,
    #[error("templates")]
    Templates,
    #[error("directives")]
    Directives,
    #[error("functions")]
    Functions,
    #[error("run")]
    Run,
    #[error("watch")]
    Watch,
    #[error("on")]
    On,
}

/// Why an application is refused.
#[derive(Clone, Copy, Debug, PartialEq, Eq, Error)]
pub enum AppKind {
    #[error("Json")]
    Json,
    #[error("Shape")]
    Shape,
    #[error("Number")]
    Number,
    #[error("Full")]
    Full,
    #[error("BadName")]
    BadName,
    #[error("BadRestrict")]
    BadRestrict,
    #[error("BadBinding")]
    BadBinding,
    #[error("Markup")]
    Markup,
    #[error("Template")]
    Template,
    #[error("Expression")]
    Expression,
    #[error("Impure")]
    Impure,
    #[error("{0}")]
    Memory(Memory),
}

/// A refusal of an application: the member, the number of its entry from 0, and why.
#[derive(Clone, Copy, Debug, PartialEq, Eq, Error)]
#[error("{member} {item} {kind}")]
pub struct AppFault {
    pub member: Member,
    pub item: u64,
    pub kind: AppKind,
}

impl AppFault {
    /// Want of memory, which names no member and no entry.
    pub fn of_memory(memory: Memory) -> AppFault
        ensures { is_app_want result ≡ true }
    {
        AppFault {
            member: Member::File,
            item: 0,
            kind: AppKind::Memory(memory),
        }
    }
}

impl From<AllocError> for AppFault {
    ghost from_gives = { λ _ e. is_app_want e ≡ true };

    fn from(_: AllocError) -> Self {
        AppFault::of_memory(Memory::Refused)
    }
}

impl<T: Drop> From<AllocFailed<T>> for AppFault {
    ghost from_gives = { λ _ e. is_app_want e ≡ true };

    fn from(_: AllocFailed<T>) -> Self {
        AppFault::of_memory(Memory::Refused)
    }
}

impl From<Memory> for AppFault {
    ghost from_gives = { λ _ e. is_app_want e ≡ true };

    fn from(memory: Memory) -> Self {
        AppFault::of_memory(memory)
    }
}
