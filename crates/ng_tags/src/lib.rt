//! Cuts HTML into tags, texts and comments.
//!
//! `next_event` reads the tag, text or comment at the front of a document, and gives it with what is left. A document is
//! read through a `Reader` of cells, each a character as it reads and its place in bytes. `after_doctype` comes before
//! the first event.
//!
//! What the crate above uses is the contract of `next_event`: the answer is the one of the reading definition `event_at`,
//! with each refusal at its place, and want of memory alone is free. Above `event_at` stand laws (`laws`): what is read as
//! an event is spelled so, by the relation `Lexeme` between an event, its cells and what follows; what is spelled so is
//! read as it; and an event leaves less than there was. `Lexeme` is what a reader of this crate should read first: its
//! file, `specs/Spelling`, says which characters make a tag, an attribute, a reference, a comment.
//!
//! Refusals are met from the left. What can't be a tag is refused at once. What is wrong inside of a start tag stands in
//! the event, since a tag that may not stand here is refused for that first: so the builder decides which fault counts.
//!
//! In reading order: `letters` and `tables` are classes of characters and elements; `skips` looks at the front of a
//! document; `references`, `texts` and `attributes` read what stands in tags and between them; `tags`, `comments`,
//! `lexing` and `doctype` put it together.
//!
//! The rules are those of the HTML standard, "Writing HTML documents" (13.1), cut down to a profile without scripts. Nothing
//! is mended: what that section doesn't allow is refused. This crate opens and closes no element; it takes a document of
//! any size in one pass, and no call goes deeper for a longer document.
#![tactic(auto)]

pub mod attributes;
pub mod attrs;
pub mod base;
pub mod comments;
pub mod doctype;
pub mod event;
pub mod fault;
pub mod laws;
pub mod letters;
pub mod lexing;
pub mod references;
pub mod skips;
pub mod tables;
pub mod tags;
pub mod texts;
pub mod until;

pub use attrs::{Attr, Attrs};
pub use doctype::after_doctype;
pub use event::{Event, Tag};
pub use fault::{HtmlFault, HtmlKind};
pub use lexing::next_event;
