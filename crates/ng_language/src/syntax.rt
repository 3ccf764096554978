//! Tokens, operators and refusals of the expression language.
ghost use Rattle.ng_base.specs.declared.fault.Memory.TheVariants.{Refused};
ghost use Rattle.ng_language.specs.Lexing.{is_free};
ghost use Rattle.ng_language.specs.declared.syntax.Refusal.TheVariants.{Memory as Wanting};
ghost use Rattle.std.specs.Prelude.{◌≡◌, true};

use ng_base::fault::Memory;
use ng_base::txt::Txt;
use std::alloc::{AllocError, AllocFailed};
use thiserror::Error;

/// A sign of one to three characters.
#[derive(Clone, Copy, Debug, PartialEq, Eq)]
pub enum Sign {
    Plus,
    Minus,
    Star,
    Slash,
    Percent,
    Assign,
    Equal,
    NotEqual,
    Same,
    NotSame,
    Less,
    Greater,
    AtMost,
    AtLeast,
    And,
    Or,
    Not,
    Bar,
    Question,
    Colon,
    Semicolon,
    Comma,
    Dot,
    OpenRound,
    CloseRound,
    OpenSquare,
    CloseSquare,
    OpenCurly,
    CloseCurly,
}

/// A token of an expression.
#[derive(Drop)]
pub enum Token {
    Name(Txt),
    Number(u64),
    Text(Txt),
    Sign(Sign),
}

/// A word that always means the same.
#[derive(Clone, Copy, Debug, PartialEq, Eq)]
pub enum Constant {
    True,
    False,
    Null,
    Undefined,
}

/// An operator before one operand.
#[derive(Clone, Copy, Debug, PartialEq, Eq)]
pub enum Unary {
    Plus,
    Minus,
    Not,
}

/// An operator between two operands that are both evaluated.
#[derive(Clone, Copy, Debug, PartialEq, Eq)]
pub enum Binary {
    Multiply,
    Divide,
    Remainder,
    Add,
    Subtract,
    Less,
    Greater,
    AtMost,
    AtLeast,
    Equal,
    NotEqual,
    Same,
    NotSame,
}

/// The name of a pair as it is written.
#[derive(Drop)]
pub enum Label {
    Name(Txt),
    Text(Txt),
    Number(u64),
}

/// A level of the left-associative operators, the loosest first.
#[derive(Clone, Copy, Debug, PartialEq, Eq)]
pub enum Level {
    Or,
    And,
    Equality,
    Relation,
    Sum,
    Term,
}

/// What stands between two operands of such a level.
#[derive(Clone, Copy, Debug, PartialEq, Eq)]
pub enum Joint {
    Or,
    And,
    Operator(Binary),
}

/// Why a text is not a row of tokens.
#[derive(Clone, Copy, Debug, PartialEq, Eq, Error)]
pub enum LexKind {
    #[error("no token begins with this character")]
    BadChar,
    #[error("the text has no end")]
    OpenText,
    #[error("the escape is no character")]
    BadEscape,
    #[error("the number is too large")]
    BigNumber,
    #[error("the number has a fraction or an exponent")]
    Fraction,
    #[error("{0}")]
    Memory(Memory),
}

/// Where a text is not a row of tokens, and why.
#[derive(Clone, Copy, Debug, PartialEq, Eq, Error)]
#[error("{kind} at byte {place}")]
pub struct LexFault {
    pub place: u64,
    pub kind: LexKind,
}

/// Why tokens are not a program.
#[derive(Clone, Copy, Debug, PartialEq, Eq, Error)]
pub enum ParseKind {
    #[error("the token is unexpected")]
    Unexpected,
    #[error("the expression ends too early")]
    Ended,
    #[error("the left side cannot be assigned")]
    NotAssignable,
    #[error("the expression is too deep")]
    TooDeep,
    #[error("{0}")]
    Memory(Memory),
}

/// Where tokens are not a program, and why.
#[derive(Clone, Copy, Debug, PartialEq, Eq, Error)]
#[error("{kind} at byte {place}")]
pub struct ParseFault {
    pub place: u64,
    pub kind: ParseKind,
}

/// A refusal inside a row of tokens: how many tokens are left from it on.
#[derive(Clone, Copy, Debug, PartialEq, Eq)]
pub enum Refusal {
    Unfit(usize),
    NotAssignable(usize),
    Memory(Memory),
}

impl From<AllocError> for Refusal {
    ghost from_gives = { λ _ e. e ≡ Wanting Refused };

    fn from(_: AllocError) -> Self {
        Refusal::Memory(Memory::Refused)
    }
}

impl<T: Drop> From<AllocFailed<T>> for Refusal {
    ghost from_gives = { λ _ e. e ≡ Wanting Refused };

    fn from(_: AllocFailed<T>) -> Self {
        Refusal::Memory(Memory::Refused)
    }
}

impl From<AllocError> for LexFault {
    ghost from_gives = { λ _ e. is_free e ≡ true };

    fn from(_: AllocError) -> Self {
        LexFault {
            place: 0,
            kind: LexKind::Memory(Memory::Refused),
        }
    }
}

impl<T: Drop> From<AllocFailed<T>> for LexFault {
    ghost from_gives = { λ _ e. is_free e ≡ true };

    fn from(_: AllocFailed<T>) -> Self {
        LexFault {
            place: 0,
            kind: LexKind::Memory(Memory::Refused),
        }
    }
}
