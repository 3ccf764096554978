//! Templates: what a document compiles to (guide: HTML Compiler).
//!
//! `compile` turns a document into a template: its own fragment, and those of its blocks' bodies. The contract that the crates above use
//! is that of `compile`: its answer is `compiled` of `specs/Compiles.antt`, the template or the first refusal with its place; the parts of
//! each fragment have the numbers of its sites and outlets in order, and an element is drawn from its own sites alone
//! (ng_drawing, `specs/Numbering.antt`); and each site's program is pure and names known filters alone. `laws` says of it, in the words of
//! documents, that the sites of the template's own fragment belong to the directives, blocks and holes in document order and that the
//! refusal is the first in that order (`specs/Order.antt`).
//!
//! In reading order: `wording` tells which directives are read, and finds the text of one; `repeating` reads what a repeat says; `around`
//! finds the blocks round an element, and `wrapping` puts it in them; `compiling` walks the document; `laws`.
//!
//! Not here: which directives an element has (ng_collect), how texts are read and what a directive does (ng_directives), what an
//! element's directives come to (ng_elements), what a template is (ng_parts), and the table of templates (ng_compose).
#![tactic(auto)]

mod around;
pub mod compiling;
pub mod laws;
mod repeating;
mod wording;
mod wrapping;

pub use compiling::compile;
