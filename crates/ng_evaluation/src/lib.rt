//! The definitions of programs that change nothing (guide: Expressions): which they are, and their values.
//!
//! This crate has no code. Its definitions stand in `specs/`, and the crates that evaluate and accept programs cite them,
//! as do those that say what a template shows:
//!
//! - `Applied`: the filters, closed, since evaluation asks nothing of how a filter works.
//! - `Purity`: pure programs, and those whose filters are known.
//! - `Evaluation`: the value of a program that changes nothing, by cases on the tree, from left to right, and the first
//!   fault stands.
//!
//! The code is ng_purity's and ng_view's. What members, methods and filters are stands in ng_members and ng_filters.
#![tactic(auto)]
