//! A text's parts, and the text that they show.
ghost use Rattle.std.specs.Prelude.{◌≡◌, ◌∷◌, [], IfOk, MatchOption, Ok};
ghost use Rattle.std.specs.Str.{chars};
ghost use Rattle.ng_base.specs.Meets.{Gives};
ghost use Rattle.ng_language.specs.OneTime.{one_time_of};
ghost use Rattle.ng_parse.specs.ProgramOf.{program};
ghost use Rattle.ng_interp.specs.Parts.{piece_of, pieces_of, is_free, has_hole, is_hole, behind_first, expression_on, bytes_before, place_behind, lex_fault, parse_fault, expression_at, hole_at, piece_at, pieces_on, pieces_in, joined};
ghost use Rattle.ng_interp.specs.PartSpelling.{AreParts};

use crate::cutting::{Cut, cut_text};
use crate::escapes::read_escapes;
use crate::pieces::{InterpFault, InterpKind, Part, Parts};
use ng_base::fault::Memory;
use ng_base::lists::Words;
use ng_base::reader::Plain;
use ng_base::trimming::past;
use ng_base::txt::Txt;
use ng_language::syntax::{LexFault, LexKind, ParseFault, ParseKind};
use ng_lex::letters::WhiteSpace;
use ng_lex::{Tokens, lex_into};
use ng_parse::{Program, one_time, parse};
use std::alloc::Global;

/// Whether one of them is a hole: then escapes are read in the words.
pub fn any_hole(cuts: &[Cut]) -> bool
    ensures { result ≡ has_hole cuts.now }
{
    for cut in cuts {
        if let Cut::Hole(_, _) = cut {
            return true;
        }
    }
    false
}

/// What stands after the first character.
fn past_first<'a>(text: Plain<'a>) -> Plain<'a>
    ensures { result ≡ behind_first text.entry }
{
    match text.first() {
        Some((_, rest)) => rest,
        None => text,
    }
}

/// A hole's text from its expression on.
fn from_expression(once: bool, text: Plain<'_>) -> Plain<'_>
    ensures { result ≡ expression_on once text.entry }
{
    let inner = past::<WhiteSpace>(text);
    if once {
        past::<WhiteSpace>(past_first(past_first(inner)))
    } else {
        inner
    }
}

/// How many bytes of a hole's text stand before its expression.
fn before_expression(once: bool, text: &Txt) -> usize
    ensures { result ≡ bytes_before once text.now }
{
    let expression = from_expression(once, Plain::new(text.as_str()));
    text.as_str().len().saturating_sub(expression.left())
}

/// A refusal of the lexer in a text, whose expression begins at a place.
fn of_lexer(place: u64, fault: LexFault) -> InterpFault
    ensures { result ≡ lex_fault place fault }
{
    let place = place.saturating_add(fault.place);
    match fault.kind {
        LexKind::Memory(memory) => InterpFault {
            place: 0,
            kind: InterpKind::Memory(memory),
        },
        kind => InterpFault {
            place,
            kind: InterpKind::Lex(kind),
        },
    }
}

/// A refusal of the parser in a text, whose expression begins at a place.
fn of_parser(place: u64, fault: ParseFault) -> InterpFault
    ensures { result ≡ parse_fault place fault }
{
    let place = place.saturating_add(fault.place);
    match fault.kind {
        ParseKind::Memory(memory) => InterpFault {
            place: 0,
            kind: InterpKind::Memory(memory),
        },
        kind => InterpFault {
            place,
            kind: InterpKind::Parse(kind),
        },
    }
}

/// The program of an expression that begins at a place of the text.
fn read_expression(
    alloc: Global,
    tokens: &mut Tokens,
    place: u64,
    text: &str,
) -> Result<Program, InterpFault>
    ensures { Gives is_free program (expression_at place (chars text.now)) result }
{
    match lex_into(alloc, tokens, text) {
        Err(fault) => Err(of_lexer(place, fault)),
        Ok(()) => match parse(alloc, tokens) {
            Err(fault) => Err(of_parser(place, fault)),
            Ok(program) => Ok(program),
        },
    }
}

/// The hole with this text, which begins at a place. The list of its tokens is one that a hole before had.
pub fn read_hole(
    alloc: Global,
    tokens: &mut Tokens,
    place: usize,
    text: &Txt,
) -> Result<Part, InterpFault>
    ensures { Gives is_free piece_of (hole_at place text.now) result }
{
    let (one_time, expression) = one_time(text.as_str());
    let before = before_expression(one_time, text) as u64;
    let place = (place as u64).saturating_add(before);
    let program = read_expression(alloc, tokens, place, expression)?;
    Ok(Part::Hole { one_time, program })
}

/// The part of a cut of a text, in which escapes are read or not.
pub fn read_part(
    alloc: Global,
    tokens: &mut Tokens,
    escapes: bool,
    cut: &Cut,
) -> Result<Part, InterpFault>
    ensures { Gives is_free piece_of (piece_at escapes cut.now) result }
{
    match cut {
        Cut::Words(text) => {
            if escapes {
                Ok(Part::Words(read_escapes(alloc, text)?))
            } else {
                Ok(Part::Words(text.copied()?))
            }
        }
        Cut::Hole(place, text) => read_hole(alloc, tokens, *place, text),
    }
}

/// The parts of cuts.
fn read_parts(alloc: Global, escapes: bool, cuts: &[Cut]) -> Result<Parts, InterpFault>
    ensures { Gives is_free pieces_of (pieces_on escapes [] cuts.now) result }
{
    let mut parts = Parts::new(alloc);
    let mut tokens = Tokens::new(alloc);
    for cut in cuts {
        let part = read_part(alloc, &mut tokens, escapes, cut)?;
        parts.push(part)?;
    }
    Ok(parts)
}

fn read_text(alloc: Global, text: &str) -> Result<Parts, InterpFault>
    ensures { Gives is_free pieces_of (pieces_in (chars text.now)) result }
{
    let text = Txt::from_str(alloc, text)?;
    let cuts = cut_text(alloc, &text)?;
    read_parts(alloc, any_hole(cuts.as_slice()), cuts.as_slice())
}

/// The parts of a text: plain words and holes in turn.
pub fn split(alloc: Global, text: &str) -> Result<Parts, InterpFault>
    // What is read is spelled so.
    ensures spelled { IfOk result (λ p. AreParts (pieces_of p) (chars text.now)) }

    // What it reads, or the refusal of the first hole that has no program, at its place.
    ensures exact { Gives is_free pieces_of (pieces_in (chars text.now)) result }
{
    read_text(alloc, text)
}

/// The first text, and those after it.
fn first(texts: &[Txt]) -> Option<(&Txt, &[Txt])>
    ensures { MatchOption result (texts.now ≡ []) (λ r. texts.now ≡ r.0.now ∷ r.1.now) }
{
    if texts.is_empty() {
        return None;
    }
    Some((&texts[0], &texts[1..]))
}

/// The text that the parts show, with one shown text for each hole.
pub fn join(alloc: Global, p: &Parts, shown: &Words) -> Result<Txt, Memory>
    ensures { IfOk result (λ t. t ≡ joined (pieces_of p.now) shown.now) }
{
    let mut text = Txt::new(alloc);
    let mut rest = shown.as_slice();
    for part in p.as_slice() {
        match part {
            Part::Words(words) => text.push_txt(words)?,
            Part::Hole { .. } => {
                if let Some((next, others)) = first(rest) {
                    text.push_txt(next)?;
                    rest = others;
                }
            }
        }
    }
    Ok(text)
}
