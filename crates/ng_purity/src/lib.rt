//! Which programs may be watched (guide: Expressions; API: `$parse`).
//!
//! A watched expression is evaluated again and again, so it must change nothing. `is_pure` says whether a program
//! assigns nothing and calls nothing but the methods that change nothing, in dotted form; `filters_known` says whether
//! each filter that it names is there with its number of arguments. Both are asked once, when a program is accepted, and
//! both are definitions of ng_evaluation. `applied` are the filters, as evaluation calls them.
//!
//! In reading order: `purity` and `filters` are the two tests, then `applied`.
//!
//! The values of such programs are ng_view's.
#![tactic(auto)]

pub mod applied;
mod filters;
mod purity;

pub use filters::filters_known;
pub use purity::is_pure;
