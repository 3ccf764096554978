//! The definitions of the expression language: what its tokens and trees are, which text is which program, and what a
//! program means.
//!
//! Every crate of the language cites this one: a contract of a lexer, parser or evaluator says that the code gives
//! what a definition of `specs/` gives. `syntax` has the few flat types that code and definitions share: tokens,
//! operators, and the refusals of the two readers.
//! It comes from AngularJS's guide, "Expressions". It holds no reader, no evaluator and no table in code.
#![tactic(auto)]

pub mod snapshots;
pub mod syntax;
pub mod unfolding;
