//! The reply to the words of a run.
ghost use Rattle.std.specs.Prelude.{◌≡◌, false, IfOk, map};
ghost use Rattle.ng_inputs.specs.Free.{is_want};
ghost use Rattle.ng_inputs.specs.InputsOf.{file_of, inputs_of};
ghost use Rattle.ng_words.specs.Words.{words_of};
ghost use Rattle.ng_run.specs.ReplyOf.{IsLine, IsReplyTo};
ghost use Rattle.ng_run.specs.Session.{SessionWithin, FilesReply, Replies, line as line_of, refused as refused_of, read_line as read_line_of, long_line as long_line_of, usage as usage_of};

use crate::opening::open;
use ng_base::fault::Memory;
use ng_base::outside::Shelf;
use ng_base::txt::Txt;
use ng_inputs::files::{Fetched, File, Inputs, Role, fetch_all, files_in, first_role};
use ng_inputs::names::{push_number, refusal_words};
use ng_inputs::refusal::{Refusal, accept};
use ng_printing::reply::Reply;
use ng_words::words::{Flags, read_words};
use std::alloc::{AllocError, Global};

/// A reply of one line.
fn line(status: u8, text: Vec<u8>) -> Result<Reply, AllocError>
    ensures { IfOk result (λ r. IsLine r (line_of status text.items)) }
{
    let mut piece = text;
    piece.extend_from_slice("\n".as_bytes())?;
    Ok(Reply::Line(status, piece))
}

/// The line on the form of the words.
fn usage(alloc: Global) -> Result<Reply, AllocError>
    ensures { IfOk result (λ r. IsLine r usage_of) }
{
    let text = Vec::from_slice(
        alloc,
        "usage: ngrun [--trace] [--patches] [--static] TEMPLATE APP [SCRIPT] or ngrun --load N".as_bytes(),
    )?;
    line(2, text)
}

/// The line of a file whose fetch failed. Its name is told by the first file that has it.
fn read_line(alloc: Global, files: &[File<'_>], file: &File<'_>) -> Result<Reply, AllocError>
    ensures { IfOk result (λ r. IsLine r (read_line_of (map file_of files.now) (file_of file.now))) }
{
    let mut text = Vec::from_slice(alloc, "read: ".as_bytes())?;
    let role = first_role(file.name, files, file.role);
    text.extend_from_slice(role.name().as_bytes())?;
    line(6, text)
}

/// The line of a file that is too long.
fn long_line(alloc: Global, role: Role, length: u64) -> Result<Reply, AllocError>
    ensures { IfOk result (λ r. IsLine r (long_line_of role length)) }
{
    let mut text = Vec::from_slice(alloc, "long: ".as_bytes())?;
    text.extend_from_slice(role.name().as_bytes())?;
    text.extend_from_slice(" ".as_bytes())?;
    push_number(&mut text, length)?;
    line(9, text)
}

/// The line of a refusal that is no want of memory.
fn refused(alloc: Global, refusal: &Refusal) -> Result<Reply, Memory>
    ensures reply { IfOk result (λ r. IsLine r (refused_of refusal.now)) }
    ensures definite { IfOk result (λ _. is_want refusal.now ≡ false) }
{
    match refusal.memory() {
        Some(memory) => Err(memory),
        None => Ok(line(refusal.status(), refusal_words(alloc, refusal)?)?),
    }
}

/// The session of a run's files.
fn session(alloc: Global, flags: Flags, inputs: Inputs) -> Result<Reply, Memory>
    ensures { IfOk result (λ r. IsReplyTo (λ e q. SessionWithin e flags.trace (inputs_of inputs) q) r) }
{
    match accept(alloc, inputs) {
        Ok(accepted) => Ok(Reply::Page(open(alloc, flags, accepted)?)),
        Err(refusal) => refused(alloc, &refusal),
    }
}

/// The reply to files, which are fetched in their order.
fn answer_to_files<S: Shelf>(
    alloc: Global,
    flags: Flags,
    shelf: &mut S,
    files: &[File<'_>],
) -> Result<Reply, Memory>
    ensures { IfOk result (λ r. IsReplyTo (λ e q. FilesReply e flags.trace (map file_of files.now) (S.bytes shelf.old) (S.failed shelf.old) (S.failed shelf.new) q) r) }
{
    match fetch_all(alloc, shelf, files)? {
        Fetched::Brought(inputs) => session(alloc, flags, inputs),
        Fetched::Unread(file) => Ok(read_line(alloc, files, &file)?),
        Fetched::Overlong(role, length) => Ok(long_line(alloc, role, length)?),
    }
}

/// The reply to the words.
pub(crate) fn answer<S: Shelf>(alloc: Global, words: &[Txt], shelf: &mut S) -> Result<Reply, Memory>
    ensures { IfOk result (λ r. IsReplyTo (λ e q. Replies e (words_of words.now) (S.bytes shelf.old) (S.failed shelf.old) (S.failed shelf.new) q) r) }
{
    let asked = read_words(alloc, words)?;
    match asked {
        None => Ok(usage(alloc)?),
        Some(words) => {
            let files = files_in(alloc, &words)?;
            answer_to_files(alloc, words.flags, shelf, files.as_slice())
        }
    }
}
