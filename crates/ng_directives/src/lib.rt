//! The directives of the core: what each does to an element, and how texts and the texts of directives are read (guide: Directives,
//! Interpolation; API: `ngBind`, `ngModel`, `ngClass` and the others).
//!
//! A text is read to parts, or it is refused: Expression, UnknownFilter or Impure, in this order, at the place of what it stands in
//! (`specs/Texts.antt`). A hole with the text of an earlier one shares its program, so that it is read once. `specs/Manners.antt`
//! lists for each directive what it does: it sets an attribute, a class or the text from a value, it is a model, a program that starts
//! or handles an event, or nothing by itself. `specs/Directives.antt` says what comes of that, `specs/Kinds.antt` which kind of control
//! an element is, and `specs/Writing.antt` which program writes a model.
//!
//! Each function of the code has its definition as its contract; refused memory at place 0 alone is free.
//!
//! In reading order: `fault` has the refusals, of this crate and those above; `known` and `texts` read texts; `manners` lists what each
//! directive does, `directives` reads its text, `writing` that of a model, and `settings` sets what it sets; `kinds` tells the kind of a
//! control.
//!
//! Not here: which directives an element has (ng_collect), how a text is cut and a hole is read (ng_interp), and the directives of
//! the application, whose bindings ng_elements reads.
#![tactic(auto)]

pub mod directives;
pub mod fault;
pub mod kinds;
pub mod known;
pub mod manners;
pub mod settings;
pub mod texts;
pub mod writing;

pub use fault::{TplFault, TplKind};
