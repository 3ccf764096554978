//! The top call: words and files in, bytes and a status out.
//!
//! `run` does all that the program does. Its contract is the headline: what was written is nothing, or the first steps of the reply
//! that the words and files call for, and that reply whole for all statuses but 7 and 8; where no fetch failed it is the session
//! of the files. The page that is handed back shows what its watchers have kept, and where the last digest of its last step
//! answered Ok it is settled and shows its rendering. Every status has its cause.
//!
//! The definitions stand in `specs/`: `Steps.antt` has what a step is and leaves, and `Happenings.antt` that of an event; `Session.antt`
//! the reply, in pieces of which each is a put; `Run.antt` what a run writes and leaves, and the causes of its statuses. `Doing.antt` says
//! what the code makes of one command and of all of them, and `ReplyOf.antt` what its values stand for. What a command is aimed at and asks
//! of the page is `ng_performing`'s; the lines of a step stand in `ng_printing`; the words, the files and their refusals are defined in
//! `ng_inputs`.
//!
//! In reading order: `commands` makes the step of one command on a page, `doing` those of a script over a sink; `opening` opens a page;
//! `answer` finds the reply to words, and `run` writes it. `laws` says that there is one session at most.
//!
//! Formats and limits are decided below: in `ng_html` and `ng_template` for templates, in `ng_app` for applications, in
//! `ng_script` for scripts. What a command does is the page's.
#![tactic(auto)]

mod answer;
mod commands;
mod doing;
pub mod laws;
mod opening;
pub mod run;
