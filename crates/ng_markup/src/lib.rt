//! Documents as contracts speak of them: forests and their text.
//!
//! This crate has no code. Its definitions stand in `specs/`, one subject a file, and the crates that read,
//! print and compile documents cite them:
//!
//! - `Forest`: a list of nodes, each an element with attributes, a text or a comment; and `print`, the one
//!   text of a forest, which a page shows on one line.
//! - `Tables`: the elements with rules of their own, as tables.
//! - `Attributes`: how an element gets its attributes one after another, and the words of its class.
//!
//! The definition that the crates above use most is `print`: what a page shows is the print of its document,
//! so each promise on what is shown is one on a forest.
//! The rules are those of the HTML standard, cut down to a profile without scripts.
//! It says nothing of scopes or data: the holes of a text are not its subject.
#![tactic(auto)]
