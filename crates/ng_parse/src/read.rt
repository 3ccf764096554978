//! The parser by descent. Each function reads one production from the front, and gives what is left.
ghost use Rattle.ng_base.specs.Meets.{Gives};
ghost use Rattle.ng_language.specs.Reading.{statement, filters, named_filter, arguments, expression, assignment, ternary, choice, operators, operand, operations, unary, primary, postfix, called, values, items, pairs, pair, valued, head, leaf, is_wanting};
ghost use Rattle.ng_language.specs.Tokens.{tightness};
ghost use Rattle.ng_parse.specs.TreeOf.{tree, pair_tree};
ghost use Rattle.std.specs.Prelude.{◌≡◌, ◌<◌, ◌≤◌, ◌+◌, ◌-◌, ◌*◌, ℕ, length, map, IfOk};

use crate::build::{
    bracketed, call, chosen, computed_pair, filter, item, join, labelled_pair, member, on_heap,
    with_expr, with_pair,
};
use crate::first::{behind, first_name, first_operator, first_unary};
use crate::leaf::{can_assign, lone, read_label, read_leaf, wanted};
use crate::tree::{Expr, Pair};
use ng_language::syntax::{Label, Level, Refusal, Sign, Token};
use std::alloc::Global;

/// An expression of one token, on the heap.
fn read_one(alloc: Global, tokens: &[Token]) -> Result<(Box<Expr>, &[Token]), Refusal>
    ensures read { Gives is_wanting (λ r. (tree r.0.value, r.1.now)) (leaf tokens.now) result }
    ensures less { IfOk result (λ r. length r.1.now < length tokens.now) }
{
    let (e, rest) = read_leaf(tokens)?;
    let e = on_heap(alloc, e)?;
    Ok((e, rest))
}

/// A statement: an expression and its filters.
#[cycle(descent)]
pub fn read_statement(alloc: Global, tokens: &[Token]) -> Result<(Box<Expr>, &[Token]), Refusal>
    ensures read { (k : ℕ) → 32 * length tokens.now + 21 ≤ k → Gives is_wanting (λ r. (tree r.0.value, r.1.now)) (statement k tokens.now) result }
    ensures less { IfOk result (λ r. length r.1.now < length tokens.now) }
{
    let (e, rest) = read_expression(alloc, tokens)?;
    read_filters(alloc, e, rest)
}

#[cycle(descent)]
fn read_filters(
    alloc: Global,
    e: Box<Expr>,
    tokens: &[Token],
) -> Result<(Box<Expr>, &[Token]), Refusal>
    ensures read { (k : ℕ) → 32 * length tokens.now + 2 ≤ k → Gives is_wanting (λ r. (tree r.0.value, r.1.now)) (filters k (tree e.value) tokens.now) result }
    ensures less { IfOk result (λ r. length r.1.now ≤ length tokens.now) }
{
    match behind(Sign::Bar, tokens) {
        Some(rest) => read_named_filter(alloc, e, rest),
        None => Ok((e, tokens)),
    }
}

#[cycle(descent)]
fn read_named_filter(
    alloc: Global,
    e: Box<Expr>,
    tokens: &[Token],
) -> Result<(Box<Expr>, &[Token]), Refusal>
    ensures read { (k : ℕ) → 32 * length tokens.now + 1 ≤ k → Gives is_wanting (λ r. (tree r.0.value, r.1.now)) (named_filter k (tree e.value) tokens.now) result }
    ensures less { IfOk result (λ r. length r.1.now < length tokens.now) }
{
    match first_name(tokens) {
        Some((name, rest)) => {
            let (args, rest) = read_arguments(alloc, Vec::new(alloc), rest)?;
            let e = filter(alloc, e, name, args)?;
            read_filters(alloc, e, rest)
        }
        None => Err(Refusal::Unfit(tokens.len())),
    }
}

/// The arguments of a filter, behind those that are read.
#[cycle(descent)]
fn read_arguments(
    alloc: Global,
    done: Vec<Expr>,
    tokens: &[Token],
) -> Result<(Vec<Expr>, &[Token]), Refusal>
    ensures read { (k : ℕ) → 32 * length tokens.now + 1 ≤ k → Gives is_wanting (λ r. (map tree r.0.items, r.1.now)) (arguments k (map tree done.items) tokens.now) result }
    ensures less { IfOk result (λ r. length r.1.now ≤ length tokens.now) }
{
    match behind(Sign::Colon, tokens) {
        Some(rest) => {
            let (e, rest) = read_expression(alloc, rest)?;
            let done = with_expr(done, e)?;
            read_arguments(alloc, done, rest)
        }
        None => Ok((done, tokens)),
    }
}

#[cycle(descent)]
fn read_expression(alloc: Global, tokens: &[Token]) -> Result<(Box<Expr>, &[Token]), Refusal>
    ensures read { (k : ℕ) → 32 * length tokens.now + 20 ≤ k → Gives is_wanting (λ r. (tree r.0.value, r.1.now)) (expression k tokens.now) result }
    ensures less { IfOk result (λ r. length r.1.now < length tokens.now) }
{
    let (e, rest) = read_ternary(alloc, tokens)?;
    read_assignment(alloc, e, rest)
}

#[cycle(descent)]
fn read_assignment(
    alloc: Global,
    e: Box<Expr>,
    tokens: &[Token],
) -> Result<(Box<Expr>, &[Token]), Refusal>
    ensures read { (k : ℕ) → 32 * length tokens.now + 1 ≤ k → Gives is_wanting (λ r. (tree r.0.value, r.1.now)) (assignment k (tree e.value) tokens.now) result }
    ensures less { IfOk result (λ r. length r.1.now ≤ length tokens.now) }
{
    match behind(Sign::Assign, tokens) {
        Some(rest) => {
            if !can_assign(&e) {
                return Err(Refusal::NotAssignable(tokens.len()));
            }
            let (value, rest) = read_expression(alloc, rest)?;
            let e = on_heap(alloc, Expr::Assign(e, value))?;
            Ok((e, rest))
        }
        None => Ok((e, tokens)),
    }
}

#[cycle(descent)]
fn read_ternary(alloc: Global, tokens: &[Token]) -> Result<(Box<Expr>, &[Token]), Refusal>
    ensures read { (k : ℕ) → 32 * length tokens.now + 19 ≤ k → Gives is_wanting (λ r. (tree r.0.value, r.1.now)) (ternary k tokens.now) result }
    ensures less { IfOk result (λ r. length r.1.now < length tokens.now) }
{
    let (e, rest) = read_operators(alloc, Level::Or, tokens)?;
    read_choice(alloc, e, rest)
}

#[cycle(descent)]
fn read_choice(
    alloc: Global,
    e: Box<Expr>,
    tokens: &[Token],
) -> Result<(Box<Expr>, &[Token]), Refusal>
    ensures read { (k : ℕ) → 32 * length tokens.now + 1 ≤ k → Gives is_wanting (λ r. (tree r.0.value, r.1.now)) (choice k (tree e.value) tokens.now) result }
    ensures less { IfOk result (λ r. length r.1.now ≤ length tokens.now) }
{
    match behind(Sign::Question, tokens) {
        Some(rest) => {
            let (a, rest) = read_expression(alloc, rest)?;
            let rest = wanted(Sign::Colon, rest)?;
            let (b, rest) = read_expression(alloc, rest)?;
            let e = chosen(alloc, e, a, b)?;
            Ok((e, rest))
        }
        None => Ok((e, tokens)),
    }
}

/// Operands of a level and the operators between them.
#[cycle(descent)]
fn read_operators(
    alloc: Global,
    level: Level,
    tokens: &[Token],
) -> Result<(Box<Expr>, &[Token]), Refusal>
    ensures read { (k : ℕ) → 32 * length tokens.now + 2 * (9 - tightness level) + 8 ≤ k → Gives is_wanting (λ r. (tree r.0.value, r.1.now)) (operators k level tokens.now) result }
    ensures less { IfOk result (λ r. length r.1.now < length tokens.now) }
{
    let (e, rest) = read_operand(alloc, level, tokens)?;
    read_operations(alloc, level, e, rest)
}

#[cycle(descent)]
fn read_operand(
    alloc: Global,
    level: Level,
    tokens: &[Token],
) -> Result<(Box<Expr>, &[Token]), Refusal>
    ensures read { (k : ℕ) → 32 * length tokens.now + 2 * (9 - tightness level) + 7 ≤ k → Gives is_wanting (λ r. (tree r.0.value, r.1.now)) (operand k level tokens.now) result }
    ensures less { IfOk result (λ r. length r.1.now < length tokens.now) }
{
    match level {
        Level::Or => read_operators(alloc, Level::And, tokens),
        Level::And => read_operators(alloc, Level::Equality, tokens),
        Level::Equality => read_operators(alloc, Level::Relation, tokens),
        Level::Relation => read_operators(alloc, Level::Sum, tokens),
        Level::Sum => read_operators(alloc, Level::Term, tokens),
        Level::Term => read_unary(alloc, tokens),
    }
}

#[cycle(descent)]
fn read_operations(
    alloc: Global,
    level: Level,
    e: Box<Expr>,
    tokens: &[Token],
) -> Result<(Box<Expr>, &[Token]), Refusal>
    ensures read { (k : ℕ) → 32 * length tokens.now + 1 ≤ k → Gives is_wanting (λ r. (tree r.0.value, r.1.now)) (operations k level (tree e.value) tokens.now) result }
    ensures less { IfOk result (λ r. length r.1.now ≤ length tokens.now) }
{
    match first_operator(level, tokens) {
        Some((by, rest)) => {
            let (right, rest) = read_operand(alloc, level, rest)?;
            let e = join(alloc, by, e, right)?;
            read_operations(alloc, level, e, rest)
        }
        None => Ok((e, tokens)),
    }
}

#[cycle(descent)]
fn read_unary(alloc: Global, tokens: &[Token]) -> Result<(Box<Expr>, &[Token]), Refusal>
    ensures read { (k : ℕ) → 32 * length tokens.now + 6 ≤ k → Gives is_wanting (λ r. (tree r.0.value, r.1.now)) (unary k tokens.now) result }
    ensures less { IfOk result (λ r. length r.1.now < length tokens.now) }
{
    match first_unary(tokens) {
        Some((op, rest)) => {
            let (e, rest) = read_unary(alloc, rest)?;
            let e = on_heap(alloc, Expr::Unary(op, e))?;
            Ok((e, rest))
        }
        None => read_primary(alloc, tokens),
    }
}

#[cycle(descent)]
fn read_primary(alloc: Global, tokens: &[Token]) -> Result<(Box<Expr>, &[Token]), Refusal>
    ensures read { (k : ℕ) → 32 * length tokens.now + 5 ≤ k → Gives is_wanting (λ r. (tree r.0.value, r.1.now)) (primary k tokens.now) result }
    ensures less { IfOk result (λ r. length r.1.now < length tokens.now) }
{
    let (e, rest) = read_head(alloc, tokens)?;
    read_postfix(alloc, e, rest)
}

#[cycle(descent)]
fn read_postfix(
    alloc: Global,
    e: Box<Expr>,
    tokens: &[Token],
) -> Result<(Box<Expr>, &[Token]), Refusal>
    ensures read { (k : ℕ) → 32 * length tokens.now + 1 ≤ k → Gives is_wanting (λ r. (tree r.0.value, r.1.now)) (postfix k (tree e.value) tokens.now) result }
    ensures less { IfOk result (λ r. length r.1.now ≤ length tokens.now) }
{
    if let Some(rest) = behind(Sign::Dot, tokens) {
        return match first_name(rest) {
            Some((name, rest)) => {
                let e = member(alloc, e, name)?;
                read_postfix(alloc, e, rest)
            }
            None => Err(Refusal::Unfit(rest.len())),
        };
    }
    if let Some(rest) = behind(Sign::OpenSquare, tokens) {
        let (index, rest) = read_expression(alloc, rest)?;
        let rest = wanted(Sign::CloseSquare, rest)?;
        let e = item(alloc, e, index)?;
        return read_postfix(alloc, e, rest);
    }
    if let Some(rest) = behind(Sign::OpenRound, tokens) {
        let (args, rest) = read_called(alloc, rest)?;
        let e = call(alloc, e, args)?;
        return read_postfix(alloc, e, rest);
    }
    Ok((e, tokens))
}

/// The arguments of a call, up to its closing bracket.
#[cycle(descent)]
fn read_called(alloc: Global, tokens: &[Token]) -> Result<(Vec<Expr>, &[Token]), Refusal>
    ensures read { (k : ℕ) → 32 * length tokens.now + 23 ≤ k → Gives is_wanting (λ r. (map tree r.0.items, r.1.now)) (called k tokens.now) result }
    ensures less { IfOk result (λ r. length r.1.now < length tokens.now) }
{
    match behind(Sign::CloseRound, tokens) {
        Some(rest) => Ok((Vec::new(alloc), rest)),
        None => read_values(alloc, Vec::new(alloc), tokens),
    }
}

#[cycle(descent)]
fn read_values(
    alloc: Global,
    done: Vec<Expr>,
    tokens: &[Token],
) -> Result<(Vec<Expr>, &[Token]), Refusal>
    ensures read { (k : ℕ) → 32 * length tokens.now + 22 ≤ k → Gives is_wanting (λ r. (map tree r.0.items, r.1.now)) (values k (map tree done.items) tokens.now) result }
    ensures less { IfOk result (λ r. length r.1.now < length tokens.now) }
{
    let (e, rest) = read_statement(alloc, tokens)?;
    let done = with_expr(done, e)?;
    match behind(Sign::Comma, rest) {
        Some(rest) => read_values(alloc, done, rest),
        None => {
            let rest = wanted(Sign::CloseRound, rest)?;
            Ok((done, rest))
        }
    }
}

/// The items of a list, up to its closing bracket.
#[cycle(descent)]
fn read_items(
    alloc: Global,
    done: Vec<Expr>,
    tokens: &[Token],
) -> Result<(Vec<Expr>, &[Token]), Refusal>
    ensures read { (k : ℕ) → 32 * length tokens.now + 22 ≤ k → Gives is_wanting (λ r. (map tree r.0.items, r.1.now)) (items k (map tree done.items) tokens.now) result }
    ensures less { IfOk result (λ r. length r.1.now < length tokens.now) }
{
    if let Some(rest) = behind(Sign::CloseSquare, tokens) {
        return Ok((done, rest));
    }
    let (e, rest) = read_statement(alloc, tokens)?;
    let done = with_expr(done, e)?;
    match behind(Sign::Comma, rest) {
        Some(rest) => read_items(alloc, done, rest),
        None => {
            let rest = wanted(Sign::CloseSquare, rest)?;
            Ok((done, rest))
        }
    }
}

/// The pairs of a record, up to its closing bracket.
#[cycle(descent)]
fn read_pairs(
    alloc: Global,
    done: Vec<Pair>,
    tokens: &[Token],
) -> Result<(Vec<Pair>, &[Token]), Refusal>
    ensures read { (k : ℕ) → 32 * length tokens.now + 23 ≤ k → Gives is_wanting (λ r. (map pair_tree r.0.items, r.1.now)) (pairs k (map pair_tree done.items) tokens.now) result }
    ensures less { IfOk result (λ r. length r.1.now < length tokens.now) }
{
    if let Some(rest) = behind(Sign::CloseCurly, tokens) {
        return Ok((done, rest));
    }
    let (p, rest) = read_pair(alloc, tokens)?;
    let done = with_pair(done, p)?;
    match behind(Sign::Comma, rest) {
        Some(rest) => read_pairs(alloc, done, rest),
        None => {
            let rest = wanted(Sign::CloseCurly, rest)?;
            Ok((done, rest))
        }
    }
}

#[cycle(descent)]
fn read_pair(alloc: Global, tokens: &[Token]) -> Result<(Pair, &[Token]), Refusal>
    ensures read { (k : ℕ) → 32 * length tokens.now + 22 ≤ k → Gives is_wanting (λ r. (pair_tree r.0, r.1.now)) (pair k tokens.now) result }
    ensures less { IfOk result (λ r. length r.1.now < length tokens.now) }
{
    if let Some(rest) = behind(Sign::OpenSquare, tokens) {
        let (name, rest) = read_expression(alloc, rest)?;
        let rest = wanted(Sign::CloseSquare, rest)?;
        let rest = wanted(Sign::Colon, rest)?;
        let (value, rest) = read_expression(alloc, rest)?;
        return Ok((computed_pair(name, value), rest));
    }
    let (name, rest) = read_label(tokens)?;
    read_valued(alloc, name, rest)
}

/// What stands behind the written name of a pair.
#[cycle(descent)]
fn read_valued(alloc: Global, name: Label, tokens: &[Token]) -> Result<(Pair, &[Token]), Refusal>
    ensures read { (k : ℕ) → 32 * length tokens.now + 1 ≤ k → Gives is_wanting (λ r. (pair_tree r.0, r.1.now)) (valued k name tokens.now) result }
    ensures less { IfOk result (λ r. length r.1.now ≤ length tokens.now) }
{
    match behind(Sign::Colon, tokens) {
        Some(rest) => {
            let (value, rest) = read_expression(alloc, rest)?;
            Ok((labelled_pair(name, value), rest))
        }
        None => lone(name, tokens),
    }
}

#[cycle(descent)]
fn read_head(alloc: Global, tokens: &[Token]) -> Result<(Box<Expr>, &[Token]), Refusal>
    ensures read { (k : ℕ) → 32 * length tokens.now + 4 ≤ k → Gives is_wanting (λ r. (tree r.0.value, r.1.now)) (head k tokens.now) result }
    ensures less { IfOk result (λ r. length r.1.now < length tokens.now) }
{
    if let Some(rest) = behind(Sign::OpenRound, tokens) {
        let (e, rest) = read_statement(alloc, rest)?;
        let rest = wanted(Sign::CloseRound, rest)?;
        let e = bracketed(alloc, e)?;
        return Ok((e, rest));
    }
    if let Some(rest) = behind(Sign::OpenSquare, tokens) {
        let (items, rest) = read_items(alloc, Vec::new(alloc), rest)?;
        let e = on_heap(alloc, Expr::List(items))?;
        return Ok((e, rest));
    }
    if let Some(rest) = behind(Sign::OpenCurly, tokens) {
        let (pairs, rest) = read_pairs(alloc, Vec::new(alloc), rest)?;
        let e = on_heap(alloc, Expr::Record(pairs))?;
        return Ok((e, rest));
    }
    read_one(alloc, tokens)
}
