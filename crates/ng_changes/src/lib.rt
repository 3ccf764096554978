//! What programs leave for the watchers, and what is done with it (guide: Scopes, "Scope Life Cycle"; API: `$watch`).
//!
//! A program that runs on the core leaves there what the watchers are to become, and its fault is handed over (`specs/Changes.antt`). After
//! each program that a linking, a fire, a task or a command runs, that is done here: `follow`.
//!
//! Each call leaves the state that its definition in `specs/` says, want of memory alone apart, and `IsWhole` of `specs/Whole.antt`
//! holds of the works after it as before.
//!
//! In reading order: `changing`, `following` hands a fault over before that, `programs` runs a program on a scope, `scoping` makes scopes.
//!
//! It links nothing: the steps of a linking are ng_steps', and fires are ng_fire's. Tasks, the programs of declared watches and what comes
//! once a digest has settled are ng_settling's, of which the linking asks nothing.
#![tactic(auto)]

pub mod changing;
pub mod following;
pub mod programs;
pub mod scoping;
