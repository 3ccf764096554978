//! The statements of a program.
ghost use Rattle.ng_base.specs.Meets.{Gives};
ghost use Rattle.ng_language.specs.Reading.{statements, separated, is_wanting};
ghost use Rattle.ng_parse.specs.TreeOf.{tree};
ghost use Rattle.std.specs.Prelude.{◌≤◌, ◌+◌, ◌*◌, ℕ, length, map};

use crate::build::with_expr;
use crate::first::behind;
use crate::read::read_statement;
use crate::tree::Expr;
use ng_language::syntax::{Refusal, Sign, Token};
use std::alloc::Global;

/// The statements behind those that are read.
#[cycle(statements)]
pub fn read_statements(
    alloc: Global,
    done: Vec<Expr>,
    tokens: &[Token],
) -> Result<Vec<Expr>, Refusal>
    ensures { (k : ℕ) → 32 * length tokens.now + 23 ≤ k → Gives is_wanting (λ v. map tree v.items) (statements k (map tree done.items) tokens.now) result }
{
    if tokens.is_empty() {
        return Ok(done);
    }
    if let Some(rest) = behind(Sign::Semicolon, tokens) {
        return read_statements(alloc, done, rest);
    }
    let (e, rest) = read_statement(alloc, tokens)?;
    let done = with_expr(done, e)?;
    read_separated(alloc, done, rest)
}

/// What stands behind a statement.
#[cycle(statements)]
fn read_separated(alloc: Global, done: Vec<Expr>, tokens: &[Token]) -> Result<Vec<Expr>, Refusal>
    ensures { (k : ℕ) → 32 * length tokens.now + 24 ≤ k → Gives is_wanting (λ v. map tree v.items) (separated k (map tree done.items) tokens.now) result }
{
    if tokens.is_empty() {
        return Ok(done);
    }
    match behind(Sign::Semicolon, tokens) {
        Some(rest) => read_statements(alloc, done, rest),
        None => Err(Refusal::Unfit(tokens.len())),
    }
}
