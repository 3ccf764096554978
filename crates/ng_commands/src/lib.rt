//! What commands and handlers of events do to the works of a page, up to their digest (guide: Scopes, "Integration with the browser event loop").
//!
//! A program runs, its fault is handed over, and what it left for the watchers is done: for `$apply`, tasks and probes, `$destroy`,
//! `$emit` and `$broadcast`, for what is typed or checked (`specs/Commands.antt`), and for a handler of an event of the document, with
//! its `$event` (`specs/Handling.antt`, `specs/EventObject.antt`).
//!
//! `specs/Settled.antt` says what it is for all that is linked to be watched and for each block to have the bodies that it calls for, and
//! `specs/BetweenSteps.antt` that this holds of a page between two steps: each call here keeps it.
//!
//! In reading order: `running` has the commands; `counting` and `event_object` make `$event`, and `handling` runs a handler.
//!
//! No digest is made here: ng_page makes it, and chooses the handlers of an event.
#![tactic(auto)]

pub mod counting;
pub mod event_object;
pub mod handling;
pub mod running;
