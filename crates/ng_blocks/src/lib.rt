//! Blocks without nodes and scopes: what a repeat's text says, which rows it keeps, which cases a switch shows.
//!
//! `parse_repeat` reads `name in expression` and its longer forms (API: `ngRepeat`, "Arguments"). `plan` compares the
//! track keys of the rows that stand with those of the new entries (API: `ngRepeat`, "Tracking and Duplicates"): it says
//! which rows go, and for each entry which row it comes from. `cases` says which cases of a switch are shown (API:
//! `ngSwitch`).
//!
//! The contract that the crates above use is that of these three calls. What `parse_repeat` reads is spelled so, by
//! the relation `IsRepeat` between whole texts and what they say, and what is spelled so is read; `plan` and `cases`
//! give what their definitions give, by keys and by texts, and `plan` is refused exactly where two entries have one
//! key.
//!
//! In reading order: `keys` and `plans` have the types of a plan, `planning` makes it; `switch_cases` and `switching`
//! are the switch; `dividing` cuts a repeat's text, `heads` reads its names, `repeats` has its types, `repeating` reads it
//! whole.
//!
//! Nothing here makes or moves a node, knows a scope, or evaluates a program.
#![tactic(auto)]

pub mod dividing;
pub mod heads;
pub mod keys;
pub mod planning;
pub mod plans;
pub mod repeating;
pub mod repeats;
pub mod switch_cases;
pub mod switching;

pub use keys::{TrackKey, TrackKeys};
pub use planning::plan;
pub use plans::{Plan, PlanFault};
pub use repeating::parse_repeat;
pub use repeats::{Repeat, RepeatFault};
pub use switch_cases::Cases;
pub use switching::cases;
