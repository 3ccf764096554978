//! Scripts: the commands that a session gives to a page, read from a file before the first of them is done.
//!
//! `read` takes the bytes of a file and gives its `Commands`, each with its text, its line and what it is to do, or the
//! first refusal with its line. A line holds one command; empty lines and lines that begin with `//` are skipped. A
//! command is a word and its parts, with spaces or tabs between them: targets, names of events, expressions, JSON.
//!
//! The contract that the crates above use says what a script is apart from how it is read. `IsScript` (specs/Readings)
//! goes over the lines of a file, each of which is skipped or spells its command by `Spells` (specs/Spelling): a line is
//! its parts, and each command says which parts it has. What is read is spelled so, what is spelled so is read, and what
//! is refused is `Refuses`: all lines before are commands, and that line cannot be one. Which kind a refusal has is said
//! by `command_of` (specs/Commanding), where the first part from the left that is wrong decides. Want of memory alone is
//! free, and stands in no line.
//!
//! The commands follow the ways in which a page is driven in AngularJS: events of the document, input on a control
//! (guide: Forms), `$apply`, `$evalAsync`, `$emit`, `$broadcast`, `$destroy` and `$digest` on a scope (guide: Scopes;
//! API: `$rootScope.Scope`). The file's form is this project's own.
//!
//! In reading order: `cut` cuts lines and words; `verbs` are the words of commands and the names of events; `targets`,
//! `expressions` and `json` read one part each, `parts` takes them from the left; `commanding` is what a line commands,
//! and `reading` the file. `commands` and `fault` have the types, and `laws` says
//! that the lines of a text are the text, and no others are.
//!
//! Nothing is done here: whether a target stands, and what a command does, is the page's, and which commands are built
//! is the run's. No call goes deeper for a longer script.
#![tactic(auto)]

mod commanding;
pub mod commands;
pub mod cut;
mod expressions;
pub mod fault;
mod json;
pub mod laws;
mod parts;
mod reading;
mod targets;
pub mod verbs;

pub use commands::{Command, Commands, ScopeOf, What};
pub use fault::{ScriptFault, ScriptKind};
pub use reading::read;
