//! Worlds that are made for tests and measures: the digest over sheets of numbers.
//!
//! A `Board` has numbers, and watchers over them whose bodies are small lists of acts: write a number, put a watcher in,
//! queue a task, fail. A `Sheet` is a board with the place where a digest over it stands, and so a `World` of `ng_digest`.
//!
//! The contract that tests rest on is that of `Sheet::run`, and it is what a page's digest promises too: the calls are those
//! of the short digest, so that the report has its rounds, fires and tests, those after the last fire among them; and the
//! sheet ends where the plain digest over the same board ends, with the same answer.
//!
//! No page, node or expression is here, and nothing that the program is built from stands on this crate.
#![tactic(auto)]

pub mod board;
pub mod sheet;
pub mod watches;
