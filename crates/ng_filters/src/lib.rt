//! The filters of expressions: `uppercase`, `lowercase`, `number`, `json`, `limitTo`, `filter` and `orderBy` (guide:
//! Filters; API reference: Filter components).
//!
//! The crate above uses two calls. `known` says whether a name and a number of arguments are in the table, which is
//! asked once, when a program is accepted. `apply` gives what the filter makes of its input: the definition in
//! `specs/Applied.antt`, which dispatches to one file a filter, and faults only where that definition does: TooBig
//! where a text or a match goes too deep or too far, Syntax where a predicate of `orderBy` is no path of names.
//!
//! A filter reads a store and makes no object in it. What `limitTo`, `filter` and `orderBy` make of an array is a
//! fresh list of copies of its items; an object in it is the same object. Input that a filter is not for comes back as
//! it is.
//!
//! `table` names the filters, `view_ref` and `parts` are values as they are read, `casing`, `numbers` and `limits` the
//! filters of primitives, `matching` is `filter`, and `predicates`, `keys` and `ordering` are `orderBy`. Letters
//! change their case in ASCII alone, numbers are whole, and no filter knows a locale.
//!
//! It is not for methods of arrays and texts, which belong to evaluation, and holds no filter that a page adds.
#![tactic(auto)]

mod casing;
mod dispatch;
mod keys;
pub mod laws;
mod limits;
mod matching;
mod numbers;
mod ordering;
mod parts;
mod predicates;
mod primitives;
mod properties;
mod table;
mod view_ref;

pub use dispatch::apply;
pub use table::known;
