//! The objects of a page: what scopes, arrays, events and the data of an application are made of.
//!
//! A `Store` is a list of objects. Each has a kind, an optional prototype that stands earlier in the list, and
//! items, if it is an array, or named values in order of insertion (guide: Scopes, "Scope Inheritance"). The
//! crates above use `look`, which goes along the prototypes, and that a change is a change of one object: after
//! `set`, `push` and their kin every other object, and every other name, is as before, since the contract is one
//! equation between the list before and the list after. `set_all` sets several names of one object, which it finds once.
//!
//! Reading, writing a name that is there, and taking items out ask for no memory. `make` and `take_json` answer
//! Full exactly where the 1,000,001st object would be made, and a refusal leaves the store as it was. `take_json`
//! makes the objects inside a value before the value's own, sets names in the order of their bytes, and drops what
//! it has read at once; `of_json` does the same with a copy.
//!
//! `stored` is one object, `properties` its names and values, `shapes` the names that objects share, `rooms` the room for values of scopes, `objects` and `arrays` are functions over the vector of them, `store` is the type that
//! contracts see as a list, `heap` is the store as a list that is read, `json` and `placing` bring JSON in.
//!
//! It is not for values, which have no identity and stand in ng_base, nor for scopes as a tree, which have paths
//! and lives of their own. Nothing here is ever taken out of the list: objects that no one reaches stay.
#![tactic(auto)]

mod arrays;
mod heap;
pub mod json;
pub mod laws;
mod names;
mod objects;
mod placing;
mod properties;
mod rooms;
mod shapes;
pub mod store;
mod stored;

pub use json::JsonFault;
pub use store::{Store, StoreFault};
