//! The page: what a template and an application become, what it shows, and what commands do to it.
//!
//! `Page::start` opens a page: what the application has is installed and registered on the root scope, its program runs, the
//! template is linked there, and a digest is made (guide: Scopes, "Integration with the browser event loop"; HTML Compiler).
//! `Page::apply`, `queue`, `probe`, `digest`, `destroy`, `emit` and `broadcast` are commands: a program runs, its fault is handed
//! over, and a digest follows where the root lives. `Page::dispatch` is an event of the document: each of its handlers is a program
//! with a digest of its own. `Page::print` appends the document on one line, `Page::rendered` computes it afresh, and `Page::find`
//! finds the element that a command is aimed at.
//!
//! The contract that the run above uses is `Commanded` (specs/Commanded): after a command the page's state is the one that the plain
//! digest leaves, from what the program left; the document shows what the sites have kept, and after the answer Ok that is the rendering.
//! ng_commands says what programs leave, `Opening` what opening makes of a page, `PageMachine` what a digest does to it, and `Steps` puts
//! them together. For an event that contract is `Dispatched`; `Dispatch` says which handlers run; `laws` has what is proved of these
//! definitions alone.
//!
//! In reading order: `outcome`; `engine`, `known`, `passing`, `testing` and `world`, which is the engine as the world of ng_digest; `digesting`; `opening`;
//! `dispatching` runs the handlers of an event, `page` has the calls; `laws`. What commands and handlers do before their digest is ng_commands'.
//!
//! Nothing here knows of files, words or output.
#![tactic(auto)]

mod digesting;
mod dispatching;
mod engine;
mod known;
pub mod laws;
mod opening;
pub mod outcome;
pub mod page;
mod passing;
mod testing;
mod world;
