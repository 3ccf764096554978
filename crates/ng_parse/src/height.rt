//! Whether expressions are low enough.
ghost use Rattle.ng_language.specs.Heights.{height, heights, pair_height, pair_heights};
ghost use Rattle.ng_language.specs.Trees.{trees_from, pairs_from};
ghost use Rattle.ng_parse.specs.TreeOf.{tree, pair_tree};
ghost use Rattle.std.specs.Prelude.{◌≤◌, ◌↔◌, map, IsTrue};

use crate::tree::{Expr, Pair};

/// Whether an expression is at most so high.
#[cycle(height)]
pub fn is_low(e: &Expr, room: u32) -> bool
    ensures { IsTrue result ↔ (height (tree e.now) ≤ room) }
{
    if room == 0 {
        return false;
    }
    let below = room - 1;
    match e {
        Expr::Number(_) | Expr::Text(_) | Expr::Name(_) | Expr::This | Expr::Constant(_) => true,
        Expr::Member(t, _) => is_low(t, below),
        Expr::Item(t, i) => is_low(t, below) && is_low(i, below),
        Expr::Call(t, args) => is_low(t, below) && all_low(args.as_slice(), below),
        Expr::List(items) => all_low(items.as_slice(), below),
        Expr::Record(pairs) => pairs_low(pairs.as_slice(), below),
        Expr::Bracketed(t) => is_low(t, below),
        Expr::Unary(_, t) => is_low(t, below),
        Expr::Binary(_, a, b) => is_low(a, below) && is_low(b, below),
        Expr::Both(a, b) => is_low(a, below) && is_low(b, below),
        Expr::Either(a, b) => is_low(a, below) && is_low(b, below),
        Expr::Choice(c, a, b) => is_low(c, below) && is_low(a, below) && is_low(b, below),
        Expr::Assign(a, b) => is_low(a, below) && is_low(b, below),
        Expr::Filter(t, _, args) => is_low(t, below) && all_low(args.as_slice(), below),
    }
}

/// Whether expressions are at most so high.
#[cycle(height)]
pub fn all_low(items: &[Expr], room: u32) -> bool
    ensures { IsTrue result ↔ (heights (trees_from (map tree items.now)) ≤ room) }
{
    for item in items {
        if !is_low(item, room) {
            return false;
        }
    }
    true
}

#[cycle(height)]
fn pair_low(p: &Pair, room: u32) -> bool
    ensures { IsTrue result ↔ (pair_height (pair_tree p.now) ≤ room) }
{
    match p {
        Pair::Labelled(_, e) => is_low(e, room),
        Pair::Shorthand(_, e) => is_low(e, room),
        Pair::Computed(n, e) => is_low(n, room) && is_low(e, room),
    }
}

#[cycle(height)]
fn pairs_low(pairs: &[Pair], room: u32) -> bool
    ensures { IsTrue result ↔ (pair_heights (pairs_from (map pair_tree pairs.now)) ≤ room) }
{
    for pair in pairs {
        if !pair_low(pair, room) {
            return false;
        }
    }
    true
}
