//! Templates as they are kept, and the fragments that are linked (guide: Directives; API: `$compile`, `ngInclude`, `ngTransclude`).
//!
//! `Templates` has the templates of a page, each under a name of its own; some have a name that `ng-include` knows, and some are those
//! of directives. An instance is one of a fragment of a template, or of an element with another template in it; and composing puts the
//! templates of its directives into a fragment, with the children that their slots are given, so that what is linked is one tree of
//! parts on several scopes (ng_drawing, `specs/Composing.antt`). Sites and outlets are numbered anew in document order, and for each it is said on
//! which scope it stands. Composing ends at the first directive that is too deep, and after one node more than a page may have.
//!
//! The contract that the crates above use is that of `Templates::whole`: the fragment of an origin, by `specs/Named.antt` of
//! ng_drawing, numbered in document order.
//!
//! In reading order: `regions` tells where parts are composed, `composed` has what is composed so far, `leaves` writes what has no parts in
//! it, `directed` tells whether anything is to be composed, and `composing` walks; `templates` keeps.
//!
//! It knows no document: ng_template compiles.
#![tactic(auto)]

mod composed;
mod composing;
mod directed;
mod leaves;
mod regions;
pub mod templates;

pub use templates::Templates;
