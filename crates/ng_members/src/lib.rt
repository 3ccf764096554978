//! Members, methods and operators of values (guide: Expressions).
//!
//! What stands under a name, a dotted member or an index, what a method of an array or a text gives that changes nothing, and what
//! operators, constants and numbers give. A value is a view: a stored array stays a name of an object until a method asks for its
//! items, and a literal is a fresh list or record, which has no identity. A store is read and never changed.
//!
//! A bare name is a local, or else what the scope and its prototypes have. What isn't there is undefined, and so is a member of
//! undefined or null. A method of an array or a text comes before a member of the same name.
//!
//! In reading order: `members`, `items`, `lists` and `texts` are what stands under a name and what a method gives; `methods` names the
//! methods, and `calls` is what a call calls; `literals`, `operators` and `fields` are leaves, operators and fresh records. The walk
//! over an expression's tree stands in ng_view, and what writes in ng_write.
#![tactic(auto)]

pub mod calls;
pub mod fields;
pub mod items;
pub mod lists;
pub mod literals;
pub mod members;
pub mod methods;
pub mod operators;
pub mod texts;
