//! Expressions of one token.
ghost use Rattle.ng_base.specs.Meets.{Gives};
ghost use Rattle.ng_language.specs.Reading.{leaf, word_tree, label, lone_label, expect, is_wanting, is_assignable};
ghost use Rattle.ng_parse.specs.TreeOf.{tree, pair_tree};
ghost use Rattle.std.specs.Prelude.{◌≡◌, ◌<◌, ◌≤◌, length, IfOk};

use crate::first::{behind, first};
use crate::tree::{Expr, Pair};
use ng_base::txt::Txt;
use ng_language::syntax::{Constant, Label, Refusal, Sign, Token};

/// What a word stands for.
pub fn word(name: Txt) -> Expr
    ensures { tree result ≡ word_tree name }
{
    if name.is_word("this") {
        Expr::This
    } else if name.is_word("true") {
        Expr::Constant(Constant::True)
    } else if name.is_word("false") {
        Expr::Constant(Constant::False)
    } else if name.is_word("null") {
        Expr::Constant(Constant::Null)
    } else if name.is_word("undefined") {
        Expr::Constant(Constant::Undefined)
    } else {
        Expr::Name(name)
    }
}

/// A name, a number or a text.
pub fn read_leaf(tokens: &[Token]) -> Result<(Expr, &[Token]), Refusal>
    ensures read { Gives is_wanting (λ r. (tree r.0, r.1.now)) (leaf tokens.now) result }
    ensures less { IfOk result (λ r. length r.1.now < length tokens.now) }
{
    match first(tokens) {
        Some((Token::Name(n), rest)) => {
            if n.is_word("$locals") {
                Err(Refusal::Unfit(tokens.len()))
            } else {
                Ok((word(n.copied()?), rest))
            }
        }
        Some((Token::Number(n), rest)) => Ok((Expr::Number(*n), rest)),
        Some((Token::Text(t), rest)) => Ok((Expr::Text(t.copied()?), rest)),
        _ => Err(Refusal::Unfit(tokens.len())),
    }
}

/// The written name of a pair.
#[tactic(auto, unfolding(ng_language::specs::Tokens::label_at))]
pub fn read_label(tokens: &[Token]) -> Result<(Label, &[Token]), Refusal>
    ensures read { Gives is_wanting (λ r. (r.0, r.1.now)) (label tokens.now) result }
    ensures less { IfOk result (λ r. length r.1.now < length tokens.now) }
{
    match first(tokens) {
        Some((Token::Name(n), rest)) => Ok((Label::Name(n.copied()?), rest)),
        Some((Token::Text(t), rest)) => Ok((Label::Text(t.copied()?), rest)),
        Some((Token::Number(n), rest)) => Ok((Label::Number(*n), rest)),
        _ => Err(Refusal::Unfit(tokens.len())),
    }
}

/// A pair that is a label alone.
pub fn lone(name: Label, tokens: &[Token]) -> Result<(Pair, &[Token]), Refusal>
    ensures read { Gives is_wanting (λ r. (pair_tree r.0, r.1.now)) (lone_label name tokens.now) result }
    ensures less { IfOk result (λ r. length r.1.now ≤ length tokens.now) }
{
    match name {
        Label::Name(n) => {
            let value = word(n.copied()?);
            Ok((Pair::Shorthand(n, value), tokens))
        }
        Label::Text(_) => Err(Refusal::Unfit(tokens.len())),
        Label::Number(_) => Err(Refusal::Unfit(tokens.len())),
    }
}

/// The tokens behind a sign that must stand here.
pub fn wanted(sign: Sign, tokens: &[Token]) -> Result<&[Token], Refusal>
    ensures read { Gives is_wanting (λ r. r.now) (expect sign tokens.now) result }
    ensures less { IfOk result (λ r. length r.now < length tokens.now) }
{
    match behind(sign, tokens) {
        Some(rest) => Ok(rest),
        None => Err(Refusal::Unfit(tokens.len())),
    }
}

/// Whether it is a name or a member.
pub fn can_assign(e: &Expr) -> bool
    ensures { result ≡ is_assignable (tree e.now) }
{
    matches!(e, Expr::Name(_) | Expr::Member(_, _) | Expr::Item(_, _))
}
