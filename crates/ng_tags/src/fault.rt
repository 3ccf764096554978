//! Why a document is not read, and where.
ghost use Rattle.std.specs.Prelude.{◌≡◌};
ghost use Rattle.ng_tags.specs.Free as faults;
ghost use Rattle.ng_tags.specs.Free.{refused};

use ng_base::fault::Memory;
use std::alloc::{AllocError, AllocFailed};
use thiserror::Error;

/// Why a document is not read.
#[derive(Clone, Copy, Debug, PartialEq, Eq, Error)]
pub enum HtmlKind {
    #[error("no text in UTF-8, or a zero byte")]
    Utf8,
    #[error("the end of the document comes too early")]
    Unclosed,
    #[error("an end tag without its start tag")]
    Unmatched,
    #[error("no tag, or one that is left out")]
    BadTag,
    #[error("no attribute")]
    BadAttr,
    #[error("a reference to no character")]
    BadReference,
    #[error("too many open elements")]
    TooDeep,
    #[error("a start tag that ends itself")]
    SelfClosed,
    #[error("{0}")]
    Memory(Memory),
}

/// A refusal: the byte of the document where it stands, and why.
#[derive(Clone, Copy, Debug, PartialEq, Eq, Error)]
#[error("{kind} at byte {place}")]
pub struct HtmlFault {
    pub place: u64,
    pub kind: HtmlKind,
}

impl From<AllocError> for HtmlFault {
    ghost from_gives = { λ _ e. e ≡ refused };

    fn from(_: AllocError) -> Self {
        HtmlFault {
            place: 0,
            kind: HtmlKind::Memory(Memory::Refused),
        }
    }
}

impl<T: Drop> From<AllocFailed<T>> for HtmlFault {
    ghost from_gives = { λ _ e. e ≡ refused };

    fn from(_: AllocFailed<T>) -> Self {
        HtmlFault {
            place: 0,
            kind: HtmlKind::Memory(Memory::Refused),
        }
    }
}

/// The fault that was met before, or else this one.
pub fn met_or(before: Option<HtmlFault>, fault: HtmlFault) -> HtmlFault
    ensures { result ≡ faults.met_or before fault }
{
    match before {
        None => fault,
        Some(first) => first,
    }
}

/// The fault that was met first.
pub fn met_first(before: Option<HtmlFault>, fault: Option<HtmlFault>) -> Option<HtmlFault>
    ensures { result ≡ faults.met_first before fault }
{
    match before {
        None => fault,
        Some(first) => Some(first),
    }
}
