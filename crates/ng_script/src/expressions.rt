//! The expressions of a script.
ghost use Rattle.std.specs.Prelude.{◌≡◌};
ghost use Rattle.std.specs.Str.{chars};
ghost use Rattle.ng_base.specs.Meets.{Gives};
ghost use Rattle.ng_parse.specs.ProgramOf.{program};
ghost use Rattle.ng_script.specs.Free.{is_want};
ghost use Rattle.ng_script.specs.Expressions.{lex_kind, parse_kind, spelled_in, program_of, pure_program_of};

use crate::fault::ScriptKind;
use ng_base::fault::Memory;
use ng_language::syntax::LexKind;
use ng_lex::{LexFault, lex};
use ng_parse::{ParseFault, ParseKind, Program, parse};
use ng_purity::{filters_known, is_pure};
use std::alloc::Global;

fn from_lexer(fault: LexFault) -> ScriptKind
    ensures { result ≡ lex_kind fault }
{
    match fault.kind {
        LexKind::Memory(_) => ScriptKind::Memory(Memory::Refused),
        _ => ScriptKind::BadExpression,
    }
}

fn from_parser(fault: ParseFault) -> ScriptKind
    ensures { result ≡ parse_kind fault }
{
    match fault.kind {
        ParseKind::Memory(_) => ScriptKind::Memory(Memory::Refused),
        _ => ScriptKind::BadExpression,
    }
}

/// The program that a text spells, whatever filters it names.
fn read_spelled(alloc: Global, text: &str) -> Result<Program, ScriptKind>
    ensures { Gives is_want program (spelled_in (chars text.now)) result }
{
    let tokens = match lex(alloc, text) {
        Ok(tokens) => tokens,
        Err(fault) => return Err(from_lexer(fault)),
    };
    match parse(alloc, &tokens) {
        Ok(program) => Ok(program),
        Err(fault) => Err(from_parser(fault)),
    }
}

/// The program of a text.
pub fn read_program(alloc: Global, text: &str) -> Result<Program, ScriptKind>
    ensures { Gives is_want program (program_of (chars text.now)) result }
{
    let program = read_spelled(alloc, text)?;
    if filters_known(&program) {
        Ok(program)
    } else {
        Err(ScriptKind::BadExpression)
    }
}

/// The program of a text, if it changes nothing.
pub fn read_pure(alloc: Global, text: &str) -> Result<Program, ScriptKind>
    ensures { Gives is_want program (pure_program_of (chars text.now)) result }
{
    let program = read_program(alloc, text)?;
    if is_pure(&program) {
        Ok(program)
    } else {
        Err(ScriptKind::BadExpression)
    }
}
