//! The bindings of an isolate scope (guide: Directives, "Isolating the Scope of a Directive"; API: `$compile`, `scope`).
//!
//! A directive with an isolate scope says for each of its properties where the value comes from: `@` the text of an
//! attribute, `=` an expression of the parent that is kept equal on both sides, `<` one that is only read, `&` a
//! function that runs an expression on the parent. A `?` lets the attribute be missing, and a name after it is the
//! attribute's, where that has not the property's own.
//!
//! [`spec::binding_spec`] reads such a text. It is a relation of whole texts: white space, a mode, white space, `?` or
//! nothing, white space, a name or nothing, white space. What is read is written so, what is written so is read, and
//! any other text is `BadBinding`; `=*` is one of those.
//!
//! [`flow::sync`] is the table of a two-way binding. The last value is what both sides had when they were last equal:
//! where the parent has another one now, it goes to the isolate scope; else where the isolate scope has another one, it
//! goes to the parent; else nothing goes. So the parent wins where both were changed.
//!
//! Not here: watching the two sides and writing them, which the crates above do with `sync`'s answer.
#![tactic(auto)]

pub mod flow;
mod reading;
pub mod spec;
