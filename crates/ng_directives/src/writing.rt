//! The text of an `ng-model`: a name or a member, and the program that writes to it (API: ngModel; guide: Expressions).
ghost use Rattle.std.specs.Prelude.{◌≡◌, ◌∷◌, [], map, option_map, true, MatchOption, IfErr, IfOk, OnOk};
ghost use Rattle.std.specs.List.{list_all};
ghost use Rattle.ng_base.specs.Meets.{Gives};
ghost use Rattle.ng_interp.specs.Parts.{is_free, piece_of};
ghost use Rattle.ng_parse.specs.ProgramOf.{program as trees};
ghost use Rattle.ng_directives.specs.Directives.{text_on};
ghost use Rattle.ng_directives.specs.Free.{is_tpl_want};
ghost use Rattle.ng_directives.specs.Writing.{writing_tokens, writing_places, writing_in, writing_back, judged_writing, is_named as is_named_of, is_named_piece, named_only, not_named as not_named_of};

use crate::directives::text_of;
use crate::fault::{TplFault, TplKind};
use crate::texts::{refusal, want};
use ng_base::txt::Txt;
use ng_collect::Pick;
use ng_interp::{InterpFault, InterpKind, Part};
use ng_language::syntax::{LexKind, ParseKind, Sign, Token};
use ng_lex::{Tokens, lex};
use ng_parse::leaf::can_assign;
use ng_parse::{Expr, Program, parse};
use std::alloc::{AllocError, Global};

/// The first statement and the others.
fn first_statement(statements: &[Expr]) -> Option<(&Expr, &[Expr])>
    ensures { MatchOption result (statements.now ≡ []) (λ r. statements.now ≡ r.0.now ∷ r.1.now) }
{
    statements.split_first()
}

/// Whether a program is one name or member.
fn is_named(program: &Program) -> bool
    ensures { result ≡ is_named_of (trees program.now) }
{
    match first_statement(program.statements()) {
        None => false,
        Some((first, others)) => first_statement(others).is_none() && can_assign(first),
    }
}

/// Whether a part is a hole that is one, without the mark of a one-time binding.
fn is_named_part(part: &Part) -> bool
    ensures { result ≡ is_named_piece (piece_of part.now) }
{
    match part {
        Part::Words(_) => false,
        Part::Hole { one_time, program } => !*one_time && is_named(program),
    }
}

fn are_named(parts: &[Part]) -> bool
    ensures { result ≡ list_all is_named_piece (map piece_of parts.now) }
{
    for part in parts {
        if !is_named_part(part) {
            return false;
        }
    }
    true
}

/// Why a text that is something else is refused.
fn not_named() -> InterpFault
    ensures { result ≡ not_named_of }
{
    InterpFault {
        place: 0,
        kind: InterpKind::Parse(ParseKind::NotAssignable),
    }
}

/// The parts of a model's text, unless it is something else.
pub(crate) fn only_named(parts: Vec<Part>) -> Result<Vec<Part>, InterpFault>
    ensures { Gives is_free (λ v. map piece_of v.items) (named_only (map piece_of parts.items)) result }
{
    if are_named(parts.as_slice()) {
        Ok(parts)
    } else {
        Err(not_named())
    }
}

/// `=` and the name of the local that has what was put in come behind tokens.
fn add_writing(alloc: Global, tokens: &mut Tokens) -> Result<(), AllocError>
    ensures tokens { OnOk result (tokens.new.tokens.items ≡ writing_tokens tokens.old.tokens.items) }
    ensures places { OnOk result (tokens.new.places.items ≡ writing_places tokens.old.end tokens.old.places.items) }
    ensures end { tokens.new.end ≡ tokens.old.end }
{
    let mut name = Txt::new(alloc);
    name.push_word("=")?;
    tokens.tokens.push(Token::Sign(Sign::Assign))?;
    tokens.tokens.push(Token::Name(name))?;
    tokens.places.push(tokens.end)?;
    tokens.places.push(tokens.end)?;
    Ok(())
}

/// The program that writes to a text, unless it can't be written to.
fn read_writing(alloc: Global, text: &Txt) -> Result<Option<Program>, TplFault>
    ensures program { IfOk result (λ p. option_map trees p ≡ writing_in text.now) }
    ensures fault { IfErr result (λ f. is_tpl_want f ≡ true) }
{
    let mut tokens = match lex(alloc, text.as_str()) {
        Ok(tokens) => tokens,
        Err(fault) => {
            return match fault.kind {
                LexKind::Memory(_) => Err(want()),
                _ => Ok(None),
            };
        }
    };
    add_writing(alloc, &mut tokens)?;
    match parse(alloc, &tokens) {
        Ok(program) => Ok(Some(program)),
        Err(fault) => match fault.kind {
            ParseKind::Memory(_) => Err(want()),
            _ => Ok(None),
        },
    }
}

/// The program that writes to an expression as a whole, which is this one, where that is one name or member (API: `$compile`, `scope`, `=`).
pub fn written_back(
    alloc: Global,
    text: &Txt,
    program: &Program,
) -> Result<Option<Program>, TplFault>
    ensures program { IfOk result (λ p. option_map trees p ≡ writing_back text.now (trees program.now)) }
    ensures fault { IfErr result (λ f. is_tpl_want f ≡ true) }
{
    if !is_named(program) {
        return Ok(None);
    }
    read_writing(alloc, text)
}

/// The program that writes to the text of a directive, unless it can't be written to.
pub fn directive_writing(alloc: Global, place: u64, pick: &Pick) -> Result<Program, TplFault>
    ensures { Gives is_tpl_want trees (judged_writing place (writing_in (text_on pick.now.attribute))) result }
{
    let text = text_of(alloc, &pick.attribute)?;
    match read_writing(alloc, &text)? {
        None => Err(refusal(TplKind::Expression, place)),
        Some(program) => Ok(program),
    }
}
