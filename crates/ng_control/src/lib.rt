//! Form controls: what a user typed, what the model is, and what the element shows of both.
//!
//! There are three kinds: texts, numbers and checkboxes (API: input, textarea; guide: Forms). `Control` keeps the text that was
//! typed with the value that it was read as, and whether the control is dirty and was touched. Each call has its definition in
//! `specs/`: `input` reads a text (`Typed.antt`), `check`, `touch` and `model` change the state (`State.antt`), `shown` is
//! what stands in the element, and `classes` are its state classes (`Shown.antt`). Where the model was kept as a snapshot its text is
//! known, and `shown_with` and `classes_with` are the same without a fault (`Kept.antt`).
//!
//! The contract that the crates above use: the typed text stands exactly as long as the model is what it was read as; it is then
//! shown as it was typed, and else the model is shown. Of each pair of state classes one word stands, in the order `ng-dirty`,
//! `ng-touched`, `ng-invalid`, `ng-empty`. A control keeps no model: `shown` and `classes` are given it. `laws` says that what was
//! typed is shown as it was typed, and that dropping what no longer stands changes nothing that is shown.
//!
//! Not here: where `ng-model` may stand, writing the model into its scope, `ng-change`, and forms.
#![tactic(auto)]

pub mod control;
pub mod kind;
pub mod laws;
mod model;
mod reading;
mod words;

pub use control::Control;
pub use kind::{ControlKind, Typed};
pub use model::is_checked;
