//! What a command asks of a page, and what becomes of it.
//!
//! `perform` does one command of a script on a page: it finds the scope, the control or the element at which the command is aimed, and
//! calls the page. What became of it is told apart: no element, or no control of its kind, stands at the target; nothing was to be
//! done; it was done; or the handlers of its event have run.
//!
//! `specs/Aims.antt` has what a command is aimed at, and what it asks of the page; `Fired.antt` the event that it fires; `Performed.antt`
//! says what the code makes of it.
//!
//! It prints nothing: the lines of a step are ng_printing's, which stands beside it, and ng_run puts the two together.
#![tactic(auto)]

pub mod performing;
