//! What runs between the rounds of a digest and after them, beside fires (API: `$evalAsync`, `$watch`, ngModel).
//!
//! Tasks, the programs of declared watches, what is put in to a control, and what comes once the rounds of a digest are over: `settle`,
//! `give_up`. What a program of these leaves for the watchers is done by ng_changes.
//!
//! Each call leaves the state that its definition in `specs/` says, want of memory alone apart, and `IsWhole` of ng_changes holds of the
//! works after it as before.
//!
//! In reading order: `inputs` has what is put in to a control, then `tasks`, `listening`, `settling`.
//!
//! It links nothing, and the linking asks nothing of it, so it stands beside ng_steps.
#![tactic(auto)]

pub mod inputs;
pub mod listening;
pub mod settling;
pub mod tasks;
