//! Laws of actions: what a reader may take from the definitions of ng_act and ng_core. It has no code, and nothing stands on it.
//!
//! Who has a turn in an event, what is never written, what dies with a scope and what stays, and which programs change nothing.
//! `specs/Laws.antt` states them.
#![tactic(auto)]

pub mod laws;
