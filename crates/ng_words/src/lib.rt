//! The words of a run: which files it has, and its flags.
//!
//! `command` tells `clap` the command line: three positionals, three flags and one option, each of which may be left out. What
//! `clap` takes and what each part has then is its contract's; a request for help is among what it refuses. `words::read_words`
//! parses the words by it, and then asks the program's own rule which parts stand together: a template and an application are
//! named, and no name begins with `-`.
//!
//! The contract that the crates above use: `read_words` gives what `words_of` (specs/Words) says, and else memory was refused.
#![tactic(auto)]

mod command;
pub mod words;
