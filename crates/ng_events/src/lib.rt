//! Listeners of scope events.
//!
//! `$on` registers a listener of a name on a scope, and gives a function that takes it out again; an event runs the
//! listeners of its name, scope by scope (guide: Scopes, "Scope Events Propagation"). [`listeners::Listeners`] keeps who
//! listens to what: for each scope and name that ever had a listener a list (`ng_chain`) of function names and programs,
//! in order of registration.
//!
//! What the crates above use, in the words of `specs/Stands.antt` and of `ng_behaviour`'s `Listeners.antt`:
//!
//! - `lists_of` is what definitions see, and `walks_at` the walks that are open on each list: each call says what it does to
//!   the one and to the other. A walk of one list touches no other, and `on`, `off` and `drop_scope` touch no walk;
//! - `begin` takes the listeners that stand when a scope is reached, and `next` gives the next of them that still stands;
//!   64 walks are open at most, whatever they are over;
//! - no call but `on` asks for memory.
//!
//! Inside, a map leads from scope and name to the list, another from a function's name to where it stands, so that neither
//! `begin` nor `off` searches the lists. Where a scope and name never had a listener, a walk is a bare one, over no list.
//!
//! Not here: what a listener does, the event object, and which scopes an event reaches (`ng_act`).
#![tactic(auto)]

pub mod listeners;
mod names;
mod stands;
mod table;
