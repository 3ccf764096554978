//! Comments.
ghost use Rattle.ng_base.specs.Meets.{Gives};
ghost use Rattle.ng_tags.specs.Free.{is_free};
ghost use Rattle.ng_tags.specs.Lexing as specs;
ghost use Rattle.ng_tags.specs.Skips.{past_word};
ghost use Rattle.std.specs.Prelude.{◌≡◌, [], IfOk, codes};

use crate::attributes::cut;
use crate::event::Event;
use crate::fault::HtmlFault;
use crate::skips::past_word;
use crate::tags::no_tag;
use ng_base::reader::Reader;
use ng_base::txt::Txt;
use std::alloc::{AllocError, Global};

/// A line feed in a comment reads as a space.
fn as_space(c: char) -> char
    ensures { result ≡ specs.as_space c }
{
    if c == '\n' { ' ' } else { c }
}

/// Behind the end of a comment, if it stands first.
fn past_comment_end<'a>(reader: &Reader<'a>) -> Option<Reader<'a>>
    ensures { result ≡ past_word (codes "-->") reader.now }
{
    let (c, _, rest) = reader.first()?;
    if c == '-' {
        past_word(&['-', '>'], rest)
    } else {
        None
    }
}

/// The text of a comment up to its end.
fn read_comment_text(alloc: Global, mut reader: Reader<'_>) -> Result<(Txt, Reader<'_>), AllocError>
    ensures { IfOk result (λ r. r ≡ specs.comment_run [] reader.entry) }
{
    let mut text = Txt::new(alloc);
    while let Some((c, _, rest)) = reader.first() {
        if past_comment_end(&reader).is_some() {
            return Ok((text, reader));
        }
        text.push(as_space(c))?;
        reader = rest;
    }
    Ok((text, reader))
}

/// A comment at a place, behind its `<!`.
pub fn read_comment<'a>(
    alloc: Global,
    total: usize,
    place: usize,
    reader: Reader<'a>,
) -> Result<(Event, Reader<'a>), HtmlFault>
    ensures { Gives is_free (λ r. r) (specs.comment total place (past_word (codes "--") reader.entry)) result }
{
    match past_word(&['-', '-'], reader) {
        None => Err(no_tag(place)),
        Some(rest) => {
            let (text, rest) = read_comment_text(alloc, rest)?;
            match past_comment_end(&rest) {
                None => Err(cut(total)),
                Some(rest) => {
                    let place = place as u64;
                    Ok((Event::Comment { text, place }, rest))
                }
            }
        }
    }
}
