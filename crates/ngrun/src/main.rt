//! The program `ngrun`: opens the page of a template over an application, and does the commands of a script on it.
//!
//! It makes the real shelf and sink, takes its words after the program's name, and does what `run` of `ng_run`
//! says, whose contract is the one that counts; the exit status is the status of the run. What a file holds and
//! what standard output shows is the trusted edge: no contract speaks of it.
//!
//! Nothing is decided here.
#![tactic(auto)]

use ng_base::real::{FileShelf, StdoutSink};
use ng_base::txt::Txt;
use ng_run::run::run;
use std::alloc::Global;
use std::process::ExitCode;
use std::rt::Env;
use std::{env, io, mem};

/// The status where memory was refused.
const NO_MEMORY: u8 = 8;

/// The words after the program's name.
fn words(handle: &(impl Env + Alloc<A = Global>), alloc: Global) -> Option<Vec<Txt>> {
    let mut words = Vec::new(alloc);
    for word in env::args(handle).ok()?.skip(1) {
        let Ok(text) = Txt::from_str(alloc, word.as_str()) else {
            return None;
        };
        if words.push(text).is_err() {
            return None;
        }
    }
    Some(words)
}

fn main(rt: HostRuntime) -> ExitCode {
    let alloc = rt.alloc();
    let Some(words) = words(&rt, alloc) else {
        return ExitCode::from(NO_MEMORY);
    };
    let mut shelf = FileShelf::new(alloc, &rt);
    let mut sink = StdoutSink::new(io::writer(&rt));
    let ran = run(alloc, words.as_slice(), &mut shelf, &mut sink);
    let status = ran.status;
    // The page's memory goes back to the system with the program, all at once.
    mem::forget(ran);
    ExitCode::from(status)
}
