//! Actions: what running a program does (guide: Expressions; Scopes, "Scope Events Propagation"; API: `$rootScope.Scope`).
//!
//! `specs/Expressions.antt` defines `programmed`, by cases on the tree, from left to right; the first fault stands, and what was
//! done before it stays. `specs/Calls.antt` is what a call does, `specs/Emitting.antt` an event on its way. What opens a body or an
//! event goes through one definition, `does` of `specs/Actions.antt`, by recursion on how many more may be open: so an action ends
//! whatever its listeners do. An event reaches a scope, and then its parents or the live scopes below it; each listener that stood
//! there has one turn, in order, and one that was taken out meanwhile, or whose scope died, doesn't run. A listener's fault is
//! handed over, and the walk goes on.
//!
//! Each function of the code has its definition as its contract, as those of ng_core have. A command sets the count of bodies to 0.
//!
//! In reading order: `acting`, `reaching`, `series`, `calling`, `emitting` and `visiting` run programs and events, `wear` says
//! whether a counter stands at its last value, and `running` has what the crates above call.
//!
//! The steps that open nothing are ng_core's; the digest, and what a fired watch does, are the page's.
#![tactic(auto)]

mod acting;
mod calling;
mod emitting;
mod reaching;
pub mod running;
mod series;
mod visiting;
pub mod wear;
