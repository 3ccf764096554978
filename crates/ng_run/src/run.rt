//! The top call.
ghost use Rattle.std.specs.Prelude.{◌≡◌, ◌≢◌, ◌&&◌, ◌∷◌, [], None, if◌then◌else◌};
ghost use Rattle.ng_base.specs.Outside.{Rose};
ghost use Rattle.ng_inputs.specs.Acts.{AreSound};
ghost use Rattle.ng_words.specs.Words.{words_of};
ghost use Rattle.ng_script.specs.Acts.{entries_of};
ghost use Rattle.ng_run.specs.Doing.{WritesPage};
ghost use Rattle.ng_page.specs.Ready.{IsReady};
ghost use Rattle.ng_run.specs.ReplyOf.{LeavesPage};
ghost use Rattle.ng_run.specs.Run.{Puts, Writes, WritesSteps, RunsSession, Causes, HasPage};
ghost use Rattle.ng_run.specs.Session.{Replies, whole};
ghost use Rattle.ng_printing.specs.Left.{Left};

use crate::answer::answer;
use crate::doing::{Halt, do_all};
use ng_base::outside::{Shelf, Sink, put_all};
use ng_base::txt::Txt;
use ng_page::page::Page;
use ng_printing::reply::{Opened, Reply};
use std::alloc::Global;

/// What a run hands back: the exit status, and the page as the last step left it.
#[derive(Drop)]
pub struct Ran {
    pub status: u8,
    pub page: Option<Page>,
}

/// A run that hands no page back.
fn ended(status: u8) -> Ran
    ensures status { result.status ≡ status }
    ensures page { result.page ≡ None }
{
    Ran { status, page: None }
}

/// Writes a reply of one line.
fn write_line<K: Sink>(sink: &mut K, status: u8, piece: &[u8]) -> Ran
    requires { status ≢ 7 }
    ensures put { Puts K.taken K.faults sink.old sink.new result.status result.page whole (record { status = status; pieces = piece.now ∷ []; page = None }) }
    ensures put_failed { result.status ≡ 7 → Rose (K.faults sink.old) (K.faults sink.new) }
    ensures no_fault { result.status ≢ 7 → K.faults sink.new ≡ K.faults sink.old }
    ensures page { result.page ≡ None }
{
    match put_all(sink, piece) {
        Ok(()) => ended(status),
        Err(_) => ended(7),
    }
}

/// The status of steps, by whether all went well in the first and in the others.
fn steps_status(first: bool, others: bool) -> u8
    ensures { result ≡ (if first && others then 0 else 1) }
{
    if first && others { 0 } else { 1 }
}

/// Writes the steps of a page, and does its commands.
fn write_page<K: Sink>(alloc: Global, sink: &mut K, opened: Opened) -> Ran
    requires ready { IsReady opened.page }
    requires sound { AreSound (entries_of opened.commands) }
    ensures steps { (left : Left) → LeavesPage opened.page left → WritesPage K.taken K.faults sink.old sink.new result.status result.page opened left }
    ensures put_failed { result.status ≡ 7 → Rose (K.faults sink.old) (K.faults sink.new) }
    ensures no_fault { result.status ≢ 7 → K.faults sink.new ≡ K.faults sink.old }
    ensures page { HasPage result.status result.page }
{
    let Opened {
        mut page,
        step,
        commands,
        flags,
    } = opened;
    match put_all(sink, step.piece.as_slice()) {
        Err(_) => ended(7),
        Ok(()) => match do_all(alloc, sink, &mut page, flags, &commands) {
            Ok(well) => Ran {
                status: steps_status(step.well, well),
                page: Some(page),
            },
            Err(Halt::Put) => ended(7),
            Err(Halt::Memory) => ended(8),
        },
    }
}

/// Does all that the program does. The words are the names of a template, of an application, and of a script where one is given,
/// and the flags `--trace` and `--static`, each at most once, anywhere before a word `--`. The files are fetched from the shelf in this order; the
/// page is opened, the commands of the script are done on it, and what is to be read goes to the sink, a put for each step.
///
/// The statuses: 0, all steps went well; 1, a step had a fault; 2, the words are not of the form; 3, the template was refused; 4, the
/// application was refused; 5, the script was refused; 6, a fetch failed; 7, a put failed; 8, memory was refused; 9, a file was
/// too long.
pub fn run<S: Shelf, K: Sink>(alloc: Global, words: &[Txt], shelf: &mut S, sink: &mut K) -> Ran
    // What was written is the first bytes of the reply that the words and files call for; where no put failed it is the whole, and
    // the status and the page are its. After a failed put the sink has the steps before it and a first part of that one.
    ensures written { result.status ≢ 8 → Writes K.taken K.faults sink.old sink.new result.status result.page (λ e r. Replies e (words_of words.now) (S.bytes shelf.old) (S.failed shelf.old) (S.failed shelf.new) r) }
    // Where no fetch failed and the shelf tells the files, that reply is their session; at status 8 too its first bytes were written.
    ensures session { RunsSession K.taken sink.old sink.new result.status result.page (words_of words.now) (S.bytes shelf.old) (S.failed shelf.old) (S.failed shelf.new) }
    // Each status but 7 and 8 has its cause in the words, the fetches and the files.
    ensures causes { result.status ≢ 7 → result.status ≢ 8 → Causes (words_of words.now) (S.bytes shelf.old) (S.failed shelf.old) (S.failed shelf.new) result.status }
    // 7 comes exactly where the sink's count of faults rose.
    ensures put_failed { result.status ≡ 7 → Rose (K.faults sink.old) (K.faults sink.new) }
    ensures no_fault { result.status ≢ 7 → K.faults sink.new ≡ K.faults sink.old }
    // 8 is want of memory: nothing was written then, or the first steps, each of them whole.
    ensures unwritten { result.status ≡ 8 → WritesSteps K.taken K.faults sink.old sink.new result.status result.page (λ e r. Replies e (words_of words.now) (S.bytes shelf.old) (S.failed shelf.old) (S.failed shelf.new) r) }
    // A page is handed back exactly where the status is 0 or 1.
    ensures page { HasPage result.status result.page }
{
    match answer(alloc, words, shelf) {
        Err(_) => ended(8),
        Ok(Reply::Line(status, piece)) => write_line(sink, status, piece.as_slice()),
        Ok(Reply::Page(opened)) => write_page(alloc, sink, opened),
    }
}
