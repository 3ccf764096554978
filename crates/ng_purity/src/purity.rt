//! Whether a program is pure.
ghost use Rattle.std.specs.Prelude.{◌≡◌, ◌↔◌, IsTrue, map};
ghost use Rattle.ng_language.specs.Trees.{trees_from, pairs_from};
ghost use Rattle.ng_parse.specs.ProgramOf.{program};
ghost use Rattle.ng_parse.specs.TreeOf.{tree, pair_tree};
ghost use Rattle.ng_evaluation.specs.Purity.{names_method, is_pure_tree, are_pure, is_pure_pair, are_pure_pairs, ArePure};

use ng_members::methods::is_pure_method;
use ng_parse::{Expr, Pair, Program};

/// Whether it is a member with the name of a method that changes nothing.
fn names_method(e: &Expr) -> bool
    ensures { result ≡ names_method (tree e.now) }
{
    match e {
        Expr::Member(_, name) => is_pure_method(name),
        _ => false,
    }
}

#[cycle(purity)]
fn is_pure_tree(e: &Expr) -> bool
    ensures { result ≡ is_pure_tree (tree e.now) }
{
    match e {
        Expr::Number(_) | Expr::Text(_) | Expr::Name(_) | Expr::This | Expr::Constant(_) => true,
        Expr::Member(t, _) => is_pure_tree(t),
        Expr::Item(t, i) => is_pure_tree(t) && is_pure_tree(i),
        Expr::Call(t, args) => names_method(t) && is_pure_tree(t) && are_pure(args.as_slice()),
        Expr::List(items) => are_pure(items.as_slice()),
        Expr::Record(pairs) => are_pure_pairs(pairs.as_slice()),
        Expr::Bracketed(t) => is_pure_tree(t),
        Expr::Unary(_, t) => is_pure_tree(t),
        Expr::Binary(_, a, b) => is_pure_tree(a) && is_pure_tree(b),
        Expr::Both(a, b) => is_pure_tree(a) && is_pure_tree(b),
        Expr::Either(a, b) => is_pure_tree(a) && is_pure_tree(b),
        Expr::Choice(c, a, b) => is_pure_tree(c) && is_pure_tree(a) && is_pure_tree(b),
        Expr::Assign(_, _) => false,
        Expr::Filter(t, _, args) => is_pure_tree(t) && are_pure(args.as_slice()),
    }
}

#[cycle(purity)]
fn are_pure(items: &[Expr]) -> bool
    ensures { result ≡ are_pure (trees_from (map tree items.now)) }
{
    for item in items {
        if !is_pure_tree(item) {
            return false;
        }
    }
    true
}

#[cycle(purity)]
fn is_pure_pair(p: &Pair) -> bool
    ensures { result ≡ is_pure_pair (pair_tree p.now) }
{
    match p {
        Pair::Labelled(_, e) => is_pure_tree(e),
        Pair::Shorthand(_, e) => is_pure_tree(e),
        Pair::Computed(n, e) => is_pure_tree(n) && is_pure_tree(e),
    }
}

#[cycle(purity)]
fn are_pure_pairs(pairs: &[Pair]) -> bool
    ensures { result ≡ are_pure_pairs (pairs_from (map pair_tree pairs.now)) }
{
    for pair in pairs {
        if !is_pure_pair(pair) {
            return false;
        }
    }
    true
}

/// Whether a program is pure: it assigns nothing, and every call is one, in dotted form, of a method that changes nothing.
pub fn is_pure(p: &Program) -> bool
    ensures pure { IsTrue result ↔ ArePure (program p.now) }
    ensures value { result ≡ are_pure (program p.now) }
{
    are_pure(p.statements())
}
