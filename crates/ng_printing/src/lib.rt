//! What a step prints: its lines in their order, the last of which shows the page.
//!
//! `specs/StepLines.antt` has the lines of a command's step, and `specs/EventStep.antt` those of an event's; after a digest that failed
//! no document is shown. Whether all went well, as the status of a run tells it, is read off the same step.
//!
//! Each function of the code has its definition as its contract.
//!
//! In reading order: `reply` has the types, `lines` writes lines, `page_lines` the lines that show a page, `step` puts lines together,
//! and `events` those of an event.
//!
//! What a command does is ng_performing's, and the steps of a session are ng_run's.
#![tactic(auto)]

pub mod events;
pub mod lines;
pub mod page_lines;
pub mod reply;
pub mod step;
