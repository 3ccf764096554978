//! Which directives an element has.
//!
//! A name of an element or an attribute is a directive's name once a leading `x` or `data` is taken off and its words are in
//! camel case (guide: Directives, "Normalization"). `Registry` has the core's directives, which `table` lists with their
//! priorities, and those of an application in order of registration; `Registry::add` refuses a definition with a name, a
//! binding or a restriction that is none. `collect` gives the directives of an element (guide: HTML Compiler, "How
//! directives are compiled"): those whose name and place fit, sorted by priority, name and registration, down to the
//! priority of the first terminal one. `collect_below` gives those that a block leaves to its body.
//!
//! The contract that the crates above use is that of `collect`: its answer is `collected` of `specs/Collected.antt`, the
//! list or the refusal. LeftOut comes where a name of the core is used that this profile does not have, MultiDir where
//! the directives of one element cannot stand together. `laws` says of the list, in the words of lists, that it is sorted,
//! has what fits and nothing else, and ends after the first terminal priority.
//!
//! `kept_attrs` gives the attributes that stay of an element: `ng-cloak` leaves no trace (API: ngCloak).
//!
//! Not here: what a directive does, the expressions in its attribute, the bindings of an isolate scope once they are read,
//! and whether a slot or a case stands where it may; the template knows that.
#![tactic(auto)]

mod cloak;
pub mod collecting;
mod controls;
pub mod definition;
pub mod fault;
mod holes;
pub mod laws;
pub mod names;
pub mod pick;
mod picking;
mod refusing;
pub mod registry;
mod sorting;
mod spots;
pub mod table;

pub use cloak::{kept_attrs, kept_value};
pub use collecting::{collect, collect_below};
pub use controls::type_of;
pub use definition::{DirectiveDef, ScopeAsk, Specs};
pub use fault::{CollectFault, DefFault};
pub use pick::{Directive, Pick, Picked};
pub use registry::Registry;
pub use table::{CoreDirective, DomEvent};
