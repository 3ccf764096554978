//! Values: coercions, operators, texts and snapshots (guide: Expressions; API: `$watch`, `$watchCollection`).
//!
//! A `View` is a value, or a fresh list or record without identity. The operators work on views alone; the texts
//! and the snapshots read stored arrays and objects through any `Heap`. Each table of the language is one table
//! here and one definition by equations in ng_language, row by row: `operators` and `numbers` against Operators,
//! `sums` against Sums, `tables` and `unfolding` against Unfolding, `texts`, `writing`, `json` and `classes`
//! against Texts, `snapshot` against Snapshots, `snapping` and `collecting` against Taken, in this crate.
//!
//! What a text or a snapshot needs of a value is gathered by one traversal, `unfolded`, which follows cyclic data
//! too: it answers TooBig exactly where something stands more than 100 levels below the value, or where there are
//! more than 100,000 nodes, the value counted, and it counts only what its mode unfolds. The texts are then written
//! from the view that it gives, and a `Snap` is that view; of a stored object a collection takes the items, or the
//! named values, as they are, without counting. A deep snapshot has its names in the order of their bytes, so two of
//! them differ exactly where they differ as maps.
//!
//! The crates above use `snap` and `differs`: a watcher is dirty where the snapshot of now differs from the one
//! that it kept. This crate changes no heap, knows no scope, and evaluates no program.
#![tactic(auto)]

pub mod classes;
mod collecting;
pub mod copies;
mod json;
pub mod laws;
pub mod numbers;
pub mod operators;
mod ordering;
mod parts;
pub mod snapping;
pub mod snapshot;
pub mod sums;
mod tables;
pub mod texts;
mod unfolding;
mod writing;
