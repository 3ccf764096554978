//! Which rows and bodies a value calls for (API: `ngRepeat`, `ngSwitch`, `ngIf`).
//!
//! The entries of a repeat become items, each with its track key; by these keys its rows are planned: which stay, on which paths, and
//! which names the scope of each is told (`specs/Tracking.antt`, `specs/RepeatRows.antt`). Which bodies of an outlet stay, which go, and
//! which come, is read off its filling and the value (`specs/Chosen.antt`).
//!
//! Each function of the code has its definition as its contract.
//!
//! In reading order: `tracking` has items and their keys, `splicing` plans rows that came or went at one place, `rows` has them all, `ordering` tells whether they
//! stand as their entries do, and `choosing` the bodies.
//!
//! No body is linked or taken out here: ng_fire does that.
#![tactic(auto)]

pub mod choosing;
pub mod ordering;
pub mod rows;
pub mod splicing;
pub mod tracking;
