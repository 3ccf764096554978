//! The tree of scopes.
//!
//! A scope is an object of the store with a place in a tree (guide: Scopes, "Scope Hierarchies"). [`scopes::Scopes`] keeps
//! the tree: for each scope its path, its parent, its object, and whether it is live. The objects stand in the store, where
//! a child's object has its parent's as prototype, an isolate's has none, and that of transcluded content has the object of
//! the scope outside, while its parent is the scope that contains it.
//!
//! What the crates above use: after a call that makes a scope the tree is `with_child` of the tree before, and the store has
//! one object more, with its own `$id`, `$parent` and `$root`; `mark_dead` changes liveness alone, of a scope and of all
//! below it; `next_after` is the live scope of the least path above a path, so a broadcast meets parents before children and
//! children in order of making, whatever is made or destroyed meanwhile.
//!
//! Inside, scopes are rows in order of making. A container knows its children, so a path is walked from child to child; the
//! live scopes stand in an ordered map by path, so the next one is found without a walk over all.
//!
//! Not here: what is registered on a scope (`ng_events`, `ng_watch`), and what `$destroy` does beside liveness (`ng_act`).
#![tactic(auto)]

mod index;
mod objects;
mod rows;
pub mod scopes;
