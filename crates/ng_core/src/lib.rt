//! The core of a page: all that programs change, and each step on it that opens no body and no event (guide: Expressions; Scopes;
//! API: `$rootScope.Scope`).
//!
//! [`core_state::Core`] has the objects, the scopes, who listens, the functions, the locals of the body that runs, and what programs
//! leave for the digest: tasks, probes, and what the watchers are to become. `specs/State.antt` is the state that it stands for, and
//! `specs/Frames.antt` says what holds of a core between two calls and what no action changes.
//!
//! Each function of the code has its definition as its contract: it leaves the state and gives the value or the fault that the
//! definition says, want of memory apart; every walk over listeners that was open stays open at its place, as many bodies and
//! events are open as before, and what holds of a core holds after it.
//!
//! In reading order: `core_state` and `pending` have the core, `beginning` the one that a page begins with, `growing` the
//! scopes that a page adds, `called` what a call calls, `callees` what a function does, `reading` the programs that are
//! given as texts, `binding` the values of arguments, `keeping` what is written into the store, `places` what an assignment
//! writes to, `scope_calls` what scopes register, `burying` the death of a scope, `event_names` the names that the objects of
//! events have, `event_objects` these objects, `opening` bodies, events and walks as they are opened and closed, and `leaves` the
//! expressions without parts.
//!
//! It runs no program: ng_act does.
#![tactic(auto)]

pub mod beginning;
pub mod binding;
pub mod burying;
pub mod called;
pub mod callees;
pub mod core_state;
pub mod event_names;
pub mod event_objects;
pub mod growing;
pub mod keeping;
pub mod leaves;
pub mod opening;
pub mod pending;
pub mod places;
pub mod reading;
pub mod scope_calls;
