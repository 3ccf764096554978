//! The parts of a text: plain words, and holes with their programs.
ghost use Rattle.std.specs.Prelude.{◌≡◌, ◌++◌, ◌∷◌, [], map, OnOk, OnErr};

use ng_base::fault::Memory;
use ng_base::txt::Txt;
use ng_language::syntax::{LexKind, ParseKind};
use ng_parse::Program;
use std::alloc::{AllocError, Global};
use thiserror::Error;

/// Plain words, or a hole.
#[derive(Drop)]
pub enum Part {
    Words(Txt),
    Hole { one_time: bool, program: Program },
}

/// The parts of a text: plain words first and last, and between each two of them a hole.
#[derive(Drop)]
pub struct Parts {
    items: Vec<Part>,
}

impl Parts {
    ghost use Rattle.ng_interp.specs.Parts.{piece_of, pieces_of};

    /// No part.
    pub fn new(alloc: Global) -> Parts
        ensures { pieces_of result ≡ [] }
    {
        Parts {
            items: Vec::new(alloc),
        }
    }

    /// Adds a part at the end.
    pub fn push(&mut self, part: Part) -> Result<(), AllocError>
        ensures ok { OnOk result (pieces_of self.new ≡ pieces_of self.old ++ piece_of part ∷ []) }
        ensures err { OnErr result (pieces_of self.new ≡ pieces_of self.old) }
    {
        self.items.push(part)?;
        Ok(())
    }

    /// The parts in order.
    pub fn as_slice(&self) -> &[Part]
        ensures { map piece_of result.now ≡ pieces_of self.now }
    {
        self.items.as_slice()
    }
}

/// Why a hole's text is no program.
#[derive(Clone, Copy, Debug, PartialEq, Eq, Error)]
pub enum InterpKind {
    #[error("{0}")]
    Lex(LexKind),
    #[error("{0}")]
    Parse(ParseKind),
    #[error("{0}")]
    Memory(Memory),
}

/// Where in a text its first hole without a program is refused, and why.
#[derive(Clone, Copy, Debug, PartialEq, Eq, Error)]
#[error("{kind} at byte {place}")]
pub struct InterpFault {
    pub place: u64,
    pub kind: InterpKind,
}

impl From<AllocError> for InterpFault {
    ghost use Rattle.std.specs.Prelude.{true};
    ghost use Rattle.ng_interp.specs.Parts.{is_free};

    ghost from_gives = { λ _ e. is_free e ≡ true };

    fn from(_: AllocError) -> Self {
        InterpFault {
            place: 0,
            kind: InterpKind::Memory(Memory::Refused),
        }
    }
}
