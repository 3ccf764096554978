//! Whether the filters that a program names are there.
ghost use Rattle.std.specs.Prelude.{◌≡◌, ◌↔◌, IsTrue, map};
ghost use Rattle.ng_language.specs.Trees.{trees_from, pairs_from};
ghost use Rattle.ng_parse.specs.ProgramOf.{program};
ghost use Rattle.ng_parse.specs.TreeOf.{tree, pair_tree};
ghost use Rattle.ng_evaluation.specs.Applied.{known};
ghost use Rattle.ng_evaluation.specs.Purity.{count_of, filters_known_tree, all_filters_known, pair_filter_known, pair_filters_known, FiltersKnown};

use crate::applied::known;
use ng_base::txt::Txt;
use ng_parse::{Expr, Pair, Program};

/// No filter takes more arguments.
const MOST_ARGUMENTS: usize = 2;

/// Whether a filter is there and takes as many arguments.
#[tactic(auto, using(crate::proofs::Pure::argument_counts))]
fn is_filter_known(name: &Txt, args: &[Expr]) -> bool
    ensures { result ≡ known name.now (count_of (trees_from (map tree args.now))) }
{
    if args.len() > MOST_ARGUMENTS {
        return false;
    }
    known(name, args.len() as u32)
}

#[cycle(known)]
fn tree_known(e: &Expr) -> bool
    ensures { result ≡ filters_known_tree (tree e.now) }
{
    match e {
        Expr::Number(_) | Expr::Text(_) | Expr::Name(_) | Expr::This | Expr::Constant(_) => true,
        Expr::Member(t, _) => tree_known(t),
        Expr::Item(t, i) => tree_known(t) && tree_known(i),
        Expr::Call(t, args) => tree_known(t) && all_known(args.as_slice()),
        Expr::List(items) => all_known(items.as_slice()),
        Expr::Record(pairs) => pairs_known(pairs.as_slice()),
        Expr::Bracketed(t) => tree_known(t),
        Expr::Unary(_, t) => tree_known(t),
        Expr::Binary(_, a, b) => tree_known(a) && tree_known(b),
        Expr::Both(a, b) => tree_known(a) && tree_known(b),
        Expr::Either(a, b) => tree_known(a) && tree_known(b),
        Expr::Choice(c, a, b) => tree_known(c) && tree_known(a) && tree_known(b),
        Expr::Assign(a, b) => tree_known(a) && tree_known(b),
        Expr::Filter(t, name, args) => {
            is_filter_known(name, args.as_slice()) && tree_known(t) && all_known(args.as_slice())
        }
    }
}

#[cycle(known)]
fn all_known(items: &[Expr]) -> bool
    ensures { result ≡ all_filters_known (trees_from (map tree items.now)) }
{
    for item in items {
        if !tree_known(item) {
            return false;
        }
    }
    true
}

#[cycle(known)]
fn pair_known(p: &Pair) -> bool
    ensures { result ≡ pair_filter_known (pair_tree p.now) }
{
    match p {
        Pair::Labelled(_, e) => tree_known(e),
        Pair::Shorthand(_, e) => tree_known(e),
        Pair::Computed(n, e) => tree_known(n) && tree_known(e),
    }
}

#[cycle(known)]
fn pairs_known(pairs: &[Pair]) -> bool
    ensures { result ≡ pair_filters_known (pairs_from (map pair_tree pairs.now)) }
{
    for pair in pairs {
        if !pair_known(pair) {
            return false;
        }
    }
    true
}

/// Whether each filter that a program names is there, with its number of arguments.
pub fn filters_known(p: &Program) -> bool
    ensures known { IsTrue result ↔ FiltersKnown (program p.now) }
    ensures value { result ≡ all_filters_known (program p.now) }
{
    all_known(p.statements())
}
