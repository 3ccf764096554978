//! The definitions of what a page does while it runs: the tree of scopes, and what stands in it.
//!
//! Contracts of the scopes, of the listeners, of the actions and of the page cite this crate. It holds `specs/`, and in
//! `proofs/` what is proved of the definitions alone, for the crates above.
//!
//! `Scopes.antt`: a tree of scopes is a list in order of making. Each scope has a path, that is its container's path and its
//! own number there; a parent; the object that programs see (guide: Scopes, "Scope Hierarchies"); and is live or not.
//! `next_scope` is the walk of a broadcast: the live scope of the least path above the last one. `IsScopeTree` says what
//! holds of every tree: paths lead to their scopes and to no others, and nothing is live below what is not.
//! `Keys.antt`: the keys of watchers, in their order, and which are on paths below a path.
//! `ScopeObjects.antt`: the own names `$id`, `$parent` and `$root` of a scope's object.
//!
//! [`laws::next_scope_is_the_least_ahead`]: the next scope is the least of those ahead, and there is none only where none is ahead.
//!
//! There is no code here.
#![tactic(auto)]

pub mod laws;
