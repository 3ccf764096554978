//! The entries of an application's file, as they are written: what stands in each member of its JSON object, or its first refusal,
//! with its member, the number of its entry, and why (guide: Directives; API: `$compile`). No program and no template is read here.
//!
//! Each function of the code has its definition in `specs/` as its contract; want of memory alone is free.
//!
//! In reading order: `fault` has the refusals; `members` looks into JSON; `entries` reads what an entry is, `parameters` the names in it, and
//! `directives` an entry of a directive.
//!
//! What the entries spell is ng_app's.
#![tactic(auto)]

pub mod directives;
pub mod entries;
pub mod fault;
pub mod members;
pub mod parameters;

pub use fault::{AppFault, AppKind, Member};
