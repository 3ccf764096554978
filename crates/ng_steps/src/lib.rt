//! Linking: a fragment is linked on a scope, step by step (guide: HTML Compiler, "How directives are compiled"; API: `$compile`, `scope`).
//!
//! `link_at`: the page's own fragment at the top, or a block's body in an outlet. Its steps are done in link order: scopes are made,
//! the bindings of isolate scopes are registered and set, programs run, sites get their numbers of registration, watches and listeners of
//! directives are attended to; and then it stands. A fault ends it, and what was made is given up (`specs/Links.antt`,
//! `specs/LinkBindings.antt`, `specs/Attending.antt`).
//!
//! Each call leaves the state that its definition says, want of memory alone apart, and holds what `IsWhole` says.
//!
//! In reading order: `linking` links a fragment by the steps of `stepping`, with `binding` and `binding_texts` for isolate scopes,
//! `attending` for what directives do on theirs, and `functions` for those that are installed; `progress` is how far a linking has come;
//! `wear` tells whether a counter of a page stands at its last value.
//!
//! Not here: in which order things are linked (ng_build), and when a fragment is linked (ng_fire, ng_page).
#![tactic(auto)]

pub mod attending;
pub mod binding;
pub mod binding_texts;
pub mod functions;
pub mod linking;
pub mod progress;
pub mod stepping;
pub mod wear;
