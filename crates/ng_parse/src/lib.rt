//! The parser of the expression language: a row of tokens is a program, or it has one refusal.
//!
//! `parse` first tests the limits on tokens and open brackets, then reads the whole grammar by descent, and at last
//! tests the height of the trees. `one_time` tells a binding that begins with `::` from one that does not.
//!
//! The contract that the crates above use says three things. What is read is spelled so, by the grammar `IsParsed`,
//! a relation by cases on the tree; what is spelled so is read; and which refusal it is and where, by the reading
//! definition `parsed`. Want of memory alone is free.
//!
//! A `Program` is a list of statements, each a tree (`tree::Expr`) that contracts see through the fold `tree`. A program
//! knows that no statement is higher than 100, so nothing that walks over it has to carry that by hand, and no walk
//! goes deeper.
//!
//! In reading order: `tree` and `programs` have the types, `height` walks over them; `first` and `leaf`
//! look at the front of a row of tokens; `build` puts trees together; `read` is the descent, one function a
//! production, and `statements` its start; `limits`, `parsing` and `once` are the calls.
//!
//! The language is the one of AngularJS's guide, "Expressions". Nothing is evaluated here, no filter is looked up, and
//! whether a program is pure is not asked.
#![tactic(auto)]

pub mod build;
pub mod first;
pub mod height;
pub mod leaf;
pub mod limits;
pub mod once;
pub mod parsing;
pub mod programs;
pub mod read;
pub mod statements;
pub mod tree;

pub use ng_language::syntax::{Binary, Constant, Label, ParseFault, ParseKind, Unary};
pub use once::one_time;
pub use parsing::parse;
pub use programs::Program;
pub use tree::{Expr, Pair};
