//! What a repeat's text says.
ghost use Rattle.std.specs.Prelude.{◌≡◌};
ghost use Rattle.ng_base.specs.declared.fault.Memory.TheVariants.{Refused};
ghost use Rattle.ng_blocks.specs.declared.repeats.RepeatFault.TheVariants.{Memory as Wanting};

use ng_base::fault::Memory;
use ng_base::txt::Txt;
use ng_parse::Program;
use std::alloc::AllocError;
use thiserror::Error;

/// The name of an item, with the name of its key before it where the text has one.
#[derive(Drop)]
pub struct Head {
    pub key: Option<Txt>,
    pub name: Txt,
}

/// A repeat: `name in source`, or `(key, name) in source`, then perhaps `track by track`.
#[derive(Drop)]
pub struct Repeat {
    pub key: Option<Txt>,
    pub name: Txt,
    pub one_time: bool,
    pub source: Program,
    pub track: Option<Program>,
}

/// Why a text is no repeat.
#[derive(Clone, Copy, Debug, PartialEq, Eq, Error)]
pub enum RepeatFault {
    #[error("the repeat has not the form `name in expression`")]
    BadRepeat,
    #[error("an expression of the repeat cannot be read")]
    Expression,
    #[error("{0}")]
    Memory(Memory),
}

impl From<Memory> for RepeatFault {
    ghost from_gives = { λ m e. e ≡ Wanting m };

    fn from(memory: Memory) -> Self {
        RepeatFault::Memory(memory)
    }
}

impl From<AllocError> for RepeatFault {
    ghost from_gives = { λ _ e. e ≡ Wanting Refused };

    fn from(_: AllocError) -> Self {
        RepeatFault::Memory(Memory::Refused)
    }
}
