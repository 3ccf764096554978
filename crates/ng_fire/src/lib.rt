//! What a fire does to the works of a page (guide: Scopes, "Scope `$watch` Depths"; API: `$watch`, `$digest`).
//!
//! - `fire`: a dirty watcher keeps its snapshot of now. The site of a template shows it, or, where it is a block's, makes the body that the
//!   value calls for on a new child scope, or destroys the scope of the one that stands and takes it out; that of a binding sets a name of
//!   an isolate scope, or writes back; a declared watch runs its program with the locals `value` and `old`.
//!
//! The contract that the crate above uses: each call leaves the state that its definition in `specs/` says, want of memory
//! alone apart, and `IsWhole` holds of the works after it as before (`specs/Fires.antt`, `Blocks.antt`, `Repeats.antt`, `Bindings.antt`).
//!
//! In reading order: `keeping` tells on which scopes the rows of a repeat that are kept stand, `repeats` has the fire of a repeat's site, `blocks`
//! that of every block's, `bound_fires` that of a binding's, and `firing` every fire.
//!
//! Not here: which watcher is tested when (ng_digest, ng_page), what a program does (ng_act), what it leaves (ng_changes), which rows and bodies
//! a value calls for (ng_rows), how a body is linked (ng_steps), and how nodes and watchers hang together (ng_link).
#![tactic(auto)]

mod blocks;
mod bound_fires;
pub mod firing;
mod keeping;
mod repeats;
