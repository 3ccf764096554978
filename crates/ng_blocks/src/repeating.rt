//! What a repeat's text says (API: `ngRepeat`, "Arguments").
ghost use Rattle.std.specs.Prelude.{IfOk, Ok};
ghost use Rattle.std.specs.Str.{chars};
ghost use Rattle.ng_base.specs.Meets.{Gives};
ghost use Rattle.ng_language.specs.OneTime.{one_time_of};
ghost use Rattle.ng_parse.specs.ProgramOf.{program};
ghost use Rattle.ng_blocks.specs.Repeats.{Says, repeat_of, is_free, program_of, untracked, tracked, tail_read, repeat_read};
ghost use Rattle.ng_blocks.specs.RepeatSpelling.{IsRepeat};

use crate::dividing::{Divider, blank, cut};
use crate::heads::read_head;
use crate::repeats::{Head, Repeat, RepeatFault};
use ng_base::reader::Plain;
use ng_language::syntax::{LexKind, ParseKind};
use ng_lex::lex;
use ng_parse::{Program, one_time, parse};
use std::alloc::Global;

/// The program that a text spells.
fn read_program(alloc: Global, text: &str) -> Result<Program, RepeatFault>
    ensures { Gives is_free program (program_of (chars text.now)) result }
{
    let tokens = match lex(alloc, text) {
        Ok(tokens) => tokens,
        Err(fault) => {
            return match fault.kind {
                LexKind::Memory(memory) => Err(RepeatFault::Memory(memory)),
                _ => Err(RepeatFault::Expression),
            };
        }
    };
    match parse(alloc, &tokens) {
        Ok(program) => Ok(program),
        Err(fault) => match fault.kind {
            ParseKind::Memory(memory) => Err(RepeatFault::Memory(memory)),
            _ => Err(RepeatFault::Expression),
        },
    }
}

/// A repeat without a track expression.
fn read_untracked(alloc: Global, head: Head, source: &str) -> Result<Repeat, RepeatFault>
    ensures { Gives is_free repeat_of (untracked head (one_time_of (chars source.now))) result }
{
    let (one_time, source) = one_time(source);
    if blank(source) {
        return Err(RepeatFault::BadRepeat);
    }
    let source = read_program(alloc, source)?;
    let Head { key, name } = head;
    Ok(Repeat {
        key,
        name,
        one_time,
        source,
        track: None,
    })
}

/// A repeat with a track expression.
fn read_tracked(alloc: Global, head: Head, source: &str, track: &str) -> Result<Repeat, RepeatFault>
    ensures { Gives is_free repeat_of (tracked head (one_time_of (chars source.now)) (chars track.now)) result }
{
    let (one_time, source) = one_time(source);
    if blank(source) || blank(track) {
        return Err(RepeatFault::BadRepeat);
    }
    let source = read_program(alloc, source)?;
    let track = Some(read_program(alloc, track)?);
    let Head { key, name } = head;
    Ok(Repeat {
        key,
        name,
        one_time,
        source,
        track,
    })
}

/// What stands after `in`.
fn read_tail(alloc: Global, head: Head, rest: &Plain<'_>) -> Result<Repeat, RepeatFault>
    ensures { Gives is_free repeat_of (tail_read head rest.now) result }
{
    match cut(alloc, Divider::TrackBy, rest.rest())? {
        None => read_untracked(alloc, head, rest.rest()),
        Some((source, track)) => read_tracked(alloc, head, source.as_str(), track.rest()),
    }
}

fn read_repeat(alloc: Global, text: &str) -> Result<Repeat, RepeatFault>
    ensures { Gives is_free repeat_of (repeat_read (chars text.now)) result }
{
    let Some((before, rest)) = cut(alloc, Divider::In, text)? else {
        return Err(RepeatFault::BadRepeat);
    };
    let Some(head) = read_head(alloc, &before)? else {
        return Err(RepeatFault::BadRepeat);
    };
    read_tail(alloc, head, &rest)
}

/// What a repeat's text says.
pub fn parse_repeat(alloc: Global, text: &str) -> Result<Repeat, RepeatFault>
    // What is read is spelled so.
    ensures found { IfOk result (λ r. IsRepeat (repeat_of r) (chars text.now)) }

    // What is spelled so is read, unless memory runs out.
    ensures only { (r : Says) → IsRepeat r (chars text.now) → Gives is_free repeat_of (Ok r) result }

    // Which refusal it is: the form first, then the expressions.
    ensures exact { Gives is_free repeat_of (repeat_read (chars text.now)) result }
{
    read_repeat(alloc, text)
}
