//! What a run begins with: the files that its words name, and what of the files is refused.
//!
//! The words are read below, in `ng_words`. `files::files_in` are the files that they name, in the order of fetching, and
//! `files::fetch_all` fetches them from the shelf, up to the first that doesn't come. `refusal::accept` takes the bytes of all
//! files and gives the application, the compiled template and the commands of the script, or the first refusal in the order of
//! work: the template's document is read, then the application, then the template is compiled, and the script is read last.
//! `names::refusal_words` tells a refusal.
//!
//! The contract that the run above uses is that of `accept`: `accepted` (specs/Refusals) is what the files give or the first
//! refusal, want of memory alone is free, and the commands are sound (specs/Acts): a probe is pure, and an event's arguments are
//! a list.
//!
//! The definitions stand in `specs/`. `Files.antt` has the files of a run as one list, and what their fetches bring;
//! `Refusals.antt` the order of work, in which the first refusal stands; `Names.antt` the names of refusals; `Acts.antt` what holds
//! of commands that were read; `InputsOf.antt` what the values of the code stand for.
//!
//! Nothing is printed here, and no page is opened. What a file may say is decided below: in `ng_html` and `ng_template` for
//! templates, in `ng_app` for applications, in `ng_script` for scripts.
#![tactic(auto)]

pub mod files;
pub mod names;
pub mod refusal;
mod scripts;
