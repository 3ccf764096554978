//! Reads and prints HTML.
//!
//! A document is a `Forest`: a list of nodes, each an element with its attributes, a text or a comment.
//! Contracts see it through `forest_of`, as the forest of `ng_markup`.
//!
//! - `read` gives the forest of a document, with the place of each node in bytes, or its first refusal from the left.
//!   Its clauses `found` and `only` are what the crates above use: the answer is a forest exactly where the bytes
//!   spell it. `refused` and `one` say the same of refusals: each document that spells no forest has one, at its place.
//! - `write` appends the print of a forest: the crates above show a page by it. `prints_back` is the law that the
//!   print of what was read is read as the same forest.
//!
//! The reader takes one event of `ng_tags` after another: a tag, a text or a comment. `build` keeps the open elements
//! and the tree so far; which start tag closes which element stands in `closings`, and the other elements with rules
//! of their own in `tables`. Nothing recurses by the input, and each event costs what it closes.
//!
//! The definitions: `Grammar` says which events spell a forest, and `Html` which bytes spell a document; `Building` and
//! `Reading` are the reading from the left; `Refusals` is what is refused, rule by rule.
//!
//! The rules are those of the HTML standard's sections on writing documents and on optional tags, cut down to a
//! profile without scripts, which AngularJS's guide calls the template (guide: Templates).
//! It knows no directive and no hole's value, and it mends nothing: what is no document is refused.
#![tactic(auto)]

pub mod attrs;
pub mod build;
pub mod closings;
pub mod fault;
pub mod forest;
pub mod reading;
pub mod source;
pub mod tables;
pub mod writing;

pub use attrs::{Attr, Attrs};
pub use fault::{HtmlFault, HtmlKind};
pub use forest::{Forest, Node};
pub use reading::read;
pub use source::Source;
pub use writing::write;
