//! Expressions and pairs that are put together from read parts.
ghost use Rattle.ng_language.specs.Reading.{joined};
ghost use Rattle.ng_language.specs.Trees.{member_of, item_of, call_of, in_brackets, choice_of, filtered, labelled, computed, trees_from};
ghost use Rattle.ng_parse.specs.TreeOf.{tree, pair_tree};
ghost use Rattle.std.specs.Prelude.{◌≡◌, [], ◌∷◌, ◌++◌, map, IfOk};

use crate::tree::{Expr, Pair};
use ng_base::txt::Txt;
use ng_language::syntax::{Joint, Label};
use std::alloc::{AllocError, AllocFailed, Global};

/// An expression on the heap.
pub fn on_heap(alloc: Global, e: Expr) -> Result<Box<Expr>, AllocError>
    ensures { IfOk result (λ x. tree x.value ≡ tree e) }
{
    Ok(Box::new(alloc, e)?)
}

/// Two operands and what stands between them.
pub fn join(alloc: Global, by: Joint, a: Box<Expr>, b: Box<Expr>) -> Result<Box<Expr>, AllocError>
    ensures { IfOk result (λ x. tree x.value ≡ joined by (tree a.value) (tree b.value)) }
{
    match by {
        Joint::Or => on_heap(alloc, Expr::Either(a, b)),
        Joint::And => on_heap(alloc, Expr::Both(a, b)),
        Joint::Operator(op) => on_heap(alloc, Expr::Binary(op, a, b)),
    }
}

/// A member.
pub fn member(alloc: Global, e: Box<Expr>, name: &Txt) -> Result<Box<Expr>, AllocError>
    ensures { IfOk result (λ x. tree x.value ≡ member_of (tree e.value) name.now) }
{
    let name = name.copied()?;
    on_heap(alloc, Expr::Member(e, name))
}

/// A computed member.
pub fn item(alloc: Global, e: Box<Expr>, index: Box<Expr>) -> Result<Box<Expr>, AllocError>
    ensures { IfOk result (λ x. tree x.value ≡ item_of (tree e.value) (tree index.value)) }
{
    on_heap(alloc, Expr::Item(e, index))
}

/// A call.
pub fn call(alloc: Global, e: Box<Expr>, args: Vec<Expr>) -> Result<Box<Expr>, AllocError>
    ensures { IfOk result (λ x. tree x.value ≡ call_of (tree e.value) (trees_from (map tree args.items))) }
{
    on_heap(alloc, Expr::Call(e, args))
}

/// A choice.
pub fn chosen(
    alloc: Global,
    e: Box<Expr>,
    a: Box<Expr>,
    b: Box<Expr>,
) -> Result<Box<Expr>, AllocError>
    ensures { IfOk result (λ x. tree x.value ≡ choice_of (tree e.value) (tree a.value) (tree b.value)) }
{
    on_heap(alloc, Expr::Choice(e, a, b))
}

/// An expression in brackets.
pub fn bracketed(alloc: Global, e: Box<Expr>) -> Result<Box<Expr>, AllocError>
    ensures { IfOk result (λ x. tree x.value ≡ in_brackets (tree e.value)) }
{
    on_heap(alloc, Expr::Bracketed(e))
}

/// A filter on an expression.
pub fn filter(
    alloc: Global,
    e: Box<Expr>,
    name: &Txt,
    args: Vec<Expr>,
) -> Result<Box<Expr>, AllocError>
    ensures { IfOk result (λ x. tree x.value ≡ filtered (tree e.value) name.now (trees_from (map tree args.items))) }
{
    let name = name.copied()?;
    on_heap(alloc, Expr::Filter(e, name, args))
}

/// One expression more.
pub fn with_expr(mut done: Vec<Expr>, e: Box<Expr>) -> Result<Vec<Expr>, AllocError>
    ensures { IfOk result (λ v. map tree v.items ≡ map tree done.items ++ tree e.value ∷ []) }
{
    done.push(Box::into_inner(e))?;
    Ok(done)
}

/// One pair more.
pub fn with_pair(mut done: Vec<Pair>, p: Pair) -> Result<Vec<Pair>, AllocError>
    ensures { IfOk result (λ v. map pair_tree v.items ≡ map pair_tree done.items ++ pair_tree p ∷ []) }
{
    done.push(p)?;
    Ok(done)
}

/// A pair with a written name.
pub fn labelled_pair(label: Label, value: Box<Expr>) -> Pair
    ensures { pair_tree result ≡ labelled label (tree value.value) }
{
    Pair::Labelled(label, Box::into_inner(value))
}

/// A pair with a computed name.
pub fn computed_pair(name: Box<Expr>, value: Box<Expr>) -> Pair
    ensures { pair_tree result ≡ computed (tree name.value) (tree value.value) }
{
    Pair::Computed(Box::into_inner(name), Box::into_inner(value))
}
