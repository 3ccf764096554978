//! The parser's calls.
ghost use Rattle.ng_base.specs.Meets.{Gives};
ghost use Rattle.ng_language.specs.Grammar.{IsParsed};
ghost use Rattle.ng_language.specs.Heights.{heights};
ghost use Rattle.ng_language.specs.Parsing.{parsed, fault_of, is_free};
ghost use Rattle.ng_language.specs.Trees.{Trees, trees_from};
ghost use Rattle.ng_parse.specs.ProgramOf.{program};
ghost use Rattle.ng_parse.specs.TreeOf.{tree};
ghost use Rattle.std.specs.Prelude.{◌≡◌, ◌≤◌, slice_index_or, length, map, IfOk, Ok};

use crate::height::all_low;
use crate::limits::excess;
use crate::programs::Program;
use crate::statements::read_statements;
use crate::tree::Expr;
use ng_language::syntax::{ParseFault, ParseKind, Refusal};
use ng_lex::Tokens;
use std::alloc::Global;

/// The place of a token, or the end of the text.
fn place_at(t: &Tokens, index: usize) -> u64
    ensures { result ≡ slice_index_or t.now.places.items index t.now.end }
{
    match t.places.get(index) {
        Some(place) => *place,
        None => t.end,
    }
}

fn fault(t: &Tokens, refusal: Refusal) -> ParseFault
    ensures { result ≡ fault_of (length t.now.tokens.items) t.now.places.items t.now.end refusal }
{
    match refusal {
        Refusal::Unfit(0) => ParseFault {
            place: t.end,
            kind: ParseKind::Ended,
        },
        Refusal::Unfit(left) => ParseFault {
            place: place_at(t, t.tokens.len().saturating_sub(left)),
            kind: ParseKind::Unexpected,
        },
        Refusal::NotAssignable(left) => ParseFault {
            place: place_at(t, t.tokens.len().saturating_sub(left)),
            kind: ParseKind::NotAssignable,
        },
        Refusal::Memory(m) => ParseFault {
            place: 0,
            kind: ParseKind::Memory(m),
        },
    }
}

/// The program that the tokens spell, within the limits.
pub fn parse(alloc: Global, t: &Tokens) -> Result<Program, ParseFault>
    // What is read is spelled so.
    ensures found { IfOk result (λ p. IsParsed (program p) t.now.tokens.items) }

    // What is spelled so is read, unless memory runs out.
    ensures only { (bs : Trees) → IsParsed bs t.now.tokens.items → Gives is_free program (Ok bs) result }

    // Which refusal it is, and where.
    ensures exact { Gives is_free program (parsed t.now.tokens.items t.now.places.items t.now.end) result }
{
    read_program(alloc, t)
}

/// The program of statements that are low enough.
fn shared(alloc: Global, statements: Vec<Expr>) -> Result<Program, ParseFault>
    requires { heights (trees_from (map tree statements.items)) ≤ 100 }
    ensures { Gives is_free program (Ok (trees_from (map tree statements.items))) result }
{
    match Program::from_low(alloc, statements) {
        Ok(p) => Ok(p),
        Err(m) => Err(ParseFault {
            place: 0,
            kind: ParseKind::Memory(m),
        }),
    }
}

fn read_program(alloc: Global, t: &Tokens) -> Result<Program, ParseFault>
    ensures { Gives is_free program (parsed t.now.tokens.items t.now.places.items t.now.end) result }
{
    if let Some(index) = excess(t.tokens.as_slice()) {
        return Err(ParseFault {
            place: place_at(t, index),
            kind: ParseKind::TooDeep,
        });
    }
    match read_statements(alloc, Vec::new(alloc), t.tokens.as_slice()) {
        Err(refusal) => Err(fault(t, refusal)),
        Ok(statements) => {
            if all_low(statements.as_slice(), 100) {
                shared(alloc, statements)
            } else {
                Err(ParseFault {
                    place: 0,
                    kind: ParseKind::TooDeep,
                })
            }
        }
    }
}
