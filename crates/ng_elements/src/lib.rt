//! What the directives of an element come to (guide: Directives; API: `$compile`).
//!
//! From an element's directives, in their order, come its attributes, its class, its own sites and what it does; the first of them that
//! is refused, at its place, is the refusal (`specs/Elements.antt`). What the directives of the application ask is read first
//! (`specs/Using.antt`): a scope, a template, transclusion, and the bindings of an isolate scope, whose sites stand before the
//! element's own. An element that is not compiled is copied as it is (`specs/Plain.antt`).
//!
//! Each function of the code has its definition as its contract.
//!
//! In reading order: `bindings` reads what the names of an isolate scope are bound to; `using` has what the directives of the application
//! ask; `plain` copies an element that is plain; `elements` has what all directives come to, and `heads` opens an element before its
//! contents and closes it behind them.
//!
//! Its contents, and the blocks round it, are ng_template's.
#![tactic(auto)]

pub mod bindings;
pub mod elements;
pub mod heads;
pub mod plain;
pub mod using;
