//! The digest over any world.
//!
//! AngularJS's guide: Scopes, "Scope Life Cycle" and "Scope $watch performance"; API: `$rootScope.Scope`, `$digest`.
//!
//! A digest goes round and round over watchers until a round finds none of them dirty. This crate has that loop and
//! nothing else: it knows no watcher, scope, node or expression. What it runs over is a `World`, which has a cursor
//! over its live keys, tests and fires the watcher at the cursor, runs tasks, and keeps a log of counters.
//!
//! The contract that the crate above uses is that of `rounds::digest`. A world says by its member `moves` which state
//! it has and what a test, a fire and a task do to that state. `digest` then ensures two things: the calls that it
//! made are those of the short digest, which remembers the key that was last dirty and stops a round early at it; and
//! the world ends where the plain digest ends, which walks every round to its end, with the same answer, rounds and
//! fires. So a page speaks of the plain digest alone.
//!
//! Worlds that are made for tests stand in `ng_sheets`, and the world of a page in `ng_page`.
//!
//! It is not for the order of watchers, for snapshots, or for what a listener does: these are the world's.
#![tactic(auto)]

pub mod log;
pub mod progress;
pub mod rounds;
pub mod world;
