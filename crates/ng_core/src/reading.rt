//! The programs that calls are given as texts.
ghost use Rattle.std.specs.Prelude.{◌≡◌, true, IfOk};
ghost use Rattle.ng_base.specs.Faults.{is_memory};
ghost use Rattle.ng_base.specs.Meets.{Gives};
ghost use Rattle.ng_base.specs.ViewOf.{view_of};
ghost use Rattle.ng_parse.specs.ProgramOf.{program};
ghost use Rattle.ng_core.specs.Calling.{text_program, program_given, watch_given};
ghost use Rattle.ng_evaluation.specs.Purity.{all_filters_known, are_pure};

use ng_base::fault::Fault;
use ng_base::txt::Txt;
use ng_base::value::Value;
use ng_base::view::View;
use ng_lex::{LexKind, lex};
use ng_parse::{ParseKind, Program, parse};
use ng_purity::{filters_known, is_pure};
use std::alloc::Global;

/// The program that a text spells, if its filters are there.
#[tactic(auto, unfolding(crate::specs::Calling::text_program))]
fn text_program(alloc: Global, text: &Txt) -> Result<Program, Fault>
    ensures program { Gives is_memory program (text_program text.now) result }
    ensures known { IfOk result (λ p. all_filters_known (program p) ≡ true) }
{
    let tokens = match lex(alloc, text.as_str()) {
        Ok(tokens) => tokens,
        Err(fault) => {
            return match fault.kind {
                LexKind::Memory(memory) => Err(Fault::Memory(memory)),
                _ => Err(Fault::Syntax),
            };
        }
    };
    match parse(alloc, &tokens) {
        Ok(program) => {
            if filters_known(&program) {
                Ok(program)
            } else {
                Err(Fault::Syntax)
            }
        }
        Err(fault) => match fault.kind {
            ParseKind::Memory(memory) => Err(Fault::Memory(memory)),
            _ => Err(Fault::Syntax),
        },
    }
}

/// The program of an argument: one that is missing is the empty program.
pub fn program_given(alloc: Global, v: &View) -> Result<Program, Fault>
    ensures program { Gives is_memory program (program_given (view_of v.now)) result }
    ensures known { IfOk result (λ p. all_filters_known (program p) ≡ true) }
{
    match v {
        View::Prim(Value::Undefined) => text_program(alloc, &Txt::new(alloc)),
        View::Prim(Value::Text(text)) => text_program(alloc, text),
        _ => Err(Fault::Syntax),
    }
}

/// The program of an argument that is watched: it changes nothing.
pub fn watch_given(alloc: Global, v: &View) -> Result<Program, Fault>
    ensures program { Gives is_memory program (watch_given (view_of v.now)) result }
    ensures known { IfOk result (λ p. all_filters_known (program p) ≡ true) }
    ensures pure { IfOk result (λ p. are_pure (program p) ≡ true) }
{
    let p = program_given(alloc, v)?;
    if is_pure(&p) {
        Ok(p)
    } else {
        Err(Fault::ImpureCall)
    }
}
