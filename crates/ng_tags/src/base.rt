//! The bases of numbers in references.

/// Ten or sixteen.
#[derive(Clone, Copy, Debug, PartialEq, Eq)]
pub enum Base {
    Decimal,
    Hexadecimal,
}
