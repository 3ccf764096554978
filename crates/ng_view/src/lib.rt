//! The values of programs that change nothing (guide: Expressions; API: `$parse`).
//!
//! A watched expression is evaluated again and again, so it must change nothing; which programs may be watched is ng_purity's.
//!
//! `view` is the value of such a program: the definition `evaluated_program` of ng_evaluation, by cases on the
//! tree, from left to right, and the first fault stands. It makes no object: a literal gives a fresh list or record,
//! which has no identity, and a stored array stays a name of an object until a method asks for its items. A store is
//! read and never changed. `seen_value` is the same of a dotted path whose names all stand for something, and copies nothing.
//!
//! In reading order: `paths` reads a dotted path where it stands, `evaluation`
//! is the walk over the tree, `program` the public call, and `laws` what a reader may take from all this.
//!
//! It is not for actions, which assign and call functions, nor for what members, methods and filters are, which stand
//! in ng_members and ng_filters.
#![tactic(auto)]

mod evaluation;
pub mod laws;
mod paths;
mod program;

pub use program::{seen_value, view};
