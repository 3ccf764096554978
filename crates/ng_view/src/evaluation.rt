//! The value of an expression, by a walk over its tree from left to right.
ghost use Rattle.std.specs.Prelude.{◌≡◌, ◌<◌, ◌+◌, [], length, map, IfOk};
ghost use Rattle.std.specs.List.{AllByRecursion};
ghost use Rattle.ng_base.specs.Faults.{is_memory};
ghost use Rattle.ng_base.specs.Meets.{Gives};
ghost use Rattle.ng_base.specs.Views.{views_list};
ghost use Rattle.ng_base.specs.ViewOf.{view_of, views_of, field_of};
ghost use Rattle.ng_language.specs.Trees.{trees_from, pairs_from, member_of, item_of, call_of, a_list, a_record, signed, combined, both_of, either_of, choice_of, filtered};
ghost use Rattle.ng_language.specs.Views.{ViewStands};
ghost use Rattle.ng_parse.specs.TreeOf.{tree, pair_tree};
ghost use Rattle.ng_evaluation.specs.Purity.{count_of, IsKnown, FiltersKnown, IsPairKnown, ArePairsKnown};
ghost use Rattle.ng_evaluation.specs.Evaluation.{evaluated, receiver, evaluated_all, evaluated_pair, evaluated_pairs};
ghost use Rattle.ng_members.specs.Leaves.{LocalsStand, Field, FieldsAllStand};

use crate::paths::seen;
use indexmap::IndexMap;
use ng_base::fault::Fault;
use ng_base::locals::Locals;
use ng_base::name::Oid;
use ng_base::txt::Txt;
use ng_base::value::Value;
use ng_base::view::{View, Views};
use ng_language::syntax::{Binary, Unary};
use ng_members::calls::{called_on, find_callee, is_nothing};
use ng_members::fields::{put_field, record_of, record_view};
use ng_members::lists::list_view;
use ng_members::literals::{bare_name, constant, label_name, number, text};
use ng_members::members::{item, member, undefined, value_item, value_member};
use ng_members::operators::{operator_value, sign_value};
use ng_parse::{Expr, Pair};
use ng_purity::applied::apply;
use ng_store::Store;
use ng_value::operators::truthy;
use ng_value::texts::to_text;
use std::alloc::Global;

/// The value of an expression. Each arm that holds a value has a function of its own, so that a leaf enters a small frame.
#[cycle(evaluation)]
pub(crate) fn evaluated(
    alloc: Global,
    store: &Store,
    scope: Oid,
    locals: &Locals,
    e: &Expr,
) -> Result<View, Fault>
    requires scope { scope.0 < length store.now }
    requires locals { LocalsStand (length store.now) locals.now }
    requires known { IsKnown (tree e.now) }
    ensures exact { Gives is_memory view_of (evaluated store.now scope.0 locals.now (tree e.now)) result }
    ensures stands { IfOk result (λ v. ViewStands (length store.now) (view_of v)) }
{
    match e {
        Expr::Number(n) => number(*n),
        Expr::Text(t) => text(t),
        Expr::Name(n) => bare_name(store, scope, locals, n),
        Expr::This => Ok(View::of_value(Value::Obj(scope))),
        Expr::Constant(c) => Ok(constant(*c)),
        Expr::Member(t, n) => evaluated_member(alloc, store, scope, locals, t, n),
        Expr::Item(t, i) => evaluated_item(alloc, store, scope, locals, t, i),
        Expr::Call(t, args) => evaluated_call(alloc, store, scope, locals, t, args),
        Expr::List(items) => evaluated_list(alloc, store, scope, locals, items),
        Expr::Record(pairs) => evaluated_record(alloc, store, scope, locals, pairs),
        Expr::Bracketed(t) => evaluated(alloc, store, scope, locals, t),
        Expr::Unary(op, t) => evaluated_sign(alloc, store, scope, locals, *op, t),
        Expr::Binary(op, a, b) => evaluated_operator(alloc, store, scope, locals, *op, a, b),
        Expr::Both(a, b) => evaluated_both(alloc, store, scope, locals, a, b),
        Expr::Either(a, b) => evaluated_either(alloc, store, scope, locals, a, b),
        Expr::Choice(c, a, b) => evaluated_choice(alloc, store, scope, locals, c, a, b),
        Expr::Assign(_, _) => Err(Fault::ImpureCall),
        Expr::Filter(t, name, args) => evaluated_filter(alloc, store, scope, locals, t, name, args),
    }
}

/// The value under a name of a value.
#[cycle(evaluation)]
#[inline(never)]
fn evaluated_member(
    alloc: Global,
    store: &Store,
    scope: Oid,
    locals: &Locals,
    t: &Expr,
    name: &Txt,
) -> Result<View, Fault>
    requires scope { scope.0 < length store.now }
    requires locals { LocalsStand (length store.now) locals.now }
    requires known { IsKnown (tree t.now) }
    ensures exact { Gives is_memory view_of (evaluated store.now scope.0 locals.now (member_of (tree t.now) name.now)) result }
    ensures stands { IfOk result (λ v. ViewStands (length store.now) (view_of v)) }
{
    if let Some(v) = seen(store, scope, locals, t) {
        return Ok(value_member(alloc, store, v, name)?);
    }
    let v = evaluated(alloc, store, scope, locals, t)?;
    Ok(member(alloc, store, &v, name)?)
}

/// The value under an index of a value.
#[cycle(evaluation)]
#[inline(never)]
fn evaluated_item(
    alloc: Global,
    store: &Store,
    scope: Oid,
    locals: &Locals,
    t: &Expr,
    i: &Expr,
) -> Result<View, Fault>
    requires scope { scope.0 < length store.now }
    requires locals { LocalsStand (length store.now) locals.now }
    requires known { IsKnown (tree t.now) × IsKnown (tree i.now) }
    ensures exact { Gives is_memory view_of (evaluated store.now scope.0 locals.now (item_of (tree t.now) (tree i.now))) result }
    ensures stands { IfOk result (λ v. ViewStands (length store.now) (view_of v)) }
{
    if let Some(v) = seen(store, scope, locals, t) {
        let index = evaluated(alloc, store, scope, locals, i)?;
        return value_item(alloc, store, v, &index);
    }
    let v = evaluated(alloc, store, scope, locals, t)?;
    let index = evaluated(alloc, store, scope, locals, i)?;
    item(alloc, store, &v, &index)
}

/// The value of a call.
#[cycle(evaluation)]
#[inline(never)]
fn evaluated_call(
    alloc: Global,
    store: &Store,
    scope: Oid,
    locals: &Locals,
    t: &Expr,
    args: &Vec<Expr>,
) -> Result<View, Fault>
    requires scope { scope.0 < length store.now }
    requires locals { LocalsStand (length store.now) locals.now }
    requires known { IsKnown (tree t.now) × FiltersKnown (trees_from (map tree args.now.items)) }
    ensures exact { Gives is_memory view_of (evaluated store.now scope.0 locals.now (call_of (tree t.now) (trees_from (map tree args.now.items)))) result }
    ensures stands { IfOk result (λ v. ViewStands (length store.now) (view_of v)) }
{
    let (v, name) = receiver(alloc, store, scope, locals, t)?;
    let callee = find_callee(alloc, store, &v, name)?;
    if is_nothing(callee) {
        return Ok(undefined());
    }
    let args = evaluated_all(alloc, store, scope, locals, args.as_slice())?;
    called_on(alloc, store, callee, &v, &args)
}

/// The value of a list.
#[cycle(evaluation)]
#[inline(never)]
fn evaluated_list(
    alloc: Global,
    store: &Store,
    scope: Oid,
    locals: &Locals,
    items: &Vec<Expr>,
) -> Result<View, Fault>
    requires scope { scope.0 < length store.now }
    requires locals { LocalsStand (length store.now) locals.now }
    requires known { FiltersKnown (trees_from (map tree items.now.items)) }
    ensures exact { Gives is_memory view_of (evaluated store.now scope.0 locals.now (a_list (trees_from (map tree items.now.items)))) result }
    ensures stands { IfOk result (λ v. ViewStands (length store.now) (view_of v)) }
{
    let views = evaluated_all(alloc, store, scope, locals, items.as_slice())?;
    Ok(list_view(views))
}

/// The value of a record.
#[cycle(evaluation)]
#[inline(never)]
fn evaluated_record(
    alloc: Global,
    store: &Store,
    scope: Oid,
    locals: &Locals,
    pairs: &Vec<Pair>,
) -> Result<View, Fault>
    requires scope { scope.0 < length store.now }
    requires locals { LocalsStand (length store.now) locals.now }
    requires known { ArePairsKnown (pairs_from (map pair_tree pairs.now.items)) }
    ensures exact { Gives is_memory view_of (evaluated store.now scope.0 locals.now (a_record (pairs_from (map pair_tree pairs.now.items)))) result }
    ensures stands { IfOk result (λ v. ViewStands (length store.now) (view_of v)) }
{
    let fields = evaluated_pairs(alloc, store, scope, locals, pairs.as_slice())?;
    Ok(record_view(record_of(alloc, fields)?))
}

/// The value of a signed operand.
#[cycle(evaluation)]
#[inline(never)]
fn evaluated_sign(
    alloc: Global,
    store: &Store,
    scope: Oid,
    locals: &Locals,
    op: Unary,
    t: &Expr,
) -> Result<View, Fault>
    requires scope { scope.0 < length store.now }
    requires locals { LocalsStand (length store.now) locals.now }
    requires known { IsKnown (tree t.now) }
    ensures exact { Gives is_memory view_of (evaluated store.now scope.0 locals.now (signed op (tree t.now))) result }
    ensures stands { IfOk result (λ v. ViewStands (length store.now) (view_of v)) }
{
    let v = evaluated(alloc, store, scope, locals, t)?;
    sign_value(op, &v)
}

/// The value of an operator between two operands.
#[cycle(evaluation)]
#[inline(never)]
fn evaluated_operator(
    alloc: Global,
    store: &Store,
    scope: Oid,
    locals: &Locals,
    op: Binary,
    a: &Expr,
    b: &Expr,
) -> Result<View, Fault>
    requires scope { scope.0 < length store.now }
    requires locals { LocalsStand (length store.now) locals.now }
    requires known { IsKnown (tree a.now) × IsKnown (tree b.now) }
    ensures exact { Gives is_memory view_of (evaluated store.now scope.0 locals.now (combined op (tree a.now) (tree b.now))) result }
    ensures stands { IfOk result (λ v. ViewStands (length store.now) (view_of v)) }
{
    let left = evaluated(alloc, store, scope, locals, a)?;
    let right = evaluated(alloc, store, scope, locals, b)?;
    operator_value(alloc, store, op, &left, &right)
}

/// The value of `a && b`.
#[cycle(evaluation)]
#[inline(never)]
fn evaluated_both(
    alloc: Global,
    store: &Store,
    scope: Oid,
    locals: &Locals,
    a: &Expr,
    b: &Expr,
) -> Result<View, Fault>
    requires scope { scope.0 < length store.now }
    requires locals { LocalsStand (length store.now) locals.now }
    requires known { IsKnown (tree a.now) × IsKnown (tree b.now) }
    ensures exact { Gives is_memory view_of (evaluated store.now scope.0 locals.now (both_of (tree a.now) (tree b.now))) result }
    ensures stands { IfOk result (λ v. ViewStands (length store.now) (view_of v)) }
{
    let v = evaluated(alloc, store, scope, locals, a)?;
    if truthy(&v) {
        evaluated(alloc, store, scope, locals, b)
    } else {
        Ok(v)
    }
}

/// The value of `a || b`.
#[cycle(evaluation)]
#[inline(never)]
fn evaluated_either(
    alloc: Global,
    store: &Store,
    scope: Oid,
    locals: &Locals,
    a: &Expr,
    b: &Expr,
) -> Result<View, Fault>
    requires scope { scope.0 < length store.now }
    requires locals { LocalsStand (length store.now) locals.now }
    requires known { IsKnown (tree a.now) × IsKnown (tree b.now) }
    ensures exact { Gives is_memory view_of (evaluated store.now scope.0 locals.now (either_of (tree a.now) (tree b.now))) result }
    ensures stands { IfOk result (λ v. ViewStands (length store.now) (view_of v)) }
{
    let v = evaluated(alloc, store, scope, locals, a)?;
    if truthy(&v) {
        Ok(v)
    } else {
        evaluated(alloc, store, scope, locals, b)
    }
}

/// The value of `c ? a : b`.
#[cycle(evaluation)]
#[inline(never)]
fn evaluated_choice(
    alloc: Global,
    store: &Store,
    scope: Oid,
    locals: &Locals,
    c: &Expr,
    a: &Expr,
    b: &Expr,
) -> Result<View, Fault>
    requires scope { scope.0 < length store.now }
    requires locals { LocalsStand (length store.now) locals.now }
    requires known { IsKnown (tree c.now) × (IsKnown (tree a.now) × IsKnown (tree b.now)) }
    ensures exact { Gives is_memory view_of (evaluated store.now scope.0 locals.now (choice_of (tree c.now) (tree a.now) (tree b.now))) result }
    ensures stands { IfOk result (λ v. ViewStands (length store.now) (view_of v)) }
{
    let v = evaluated(alloc, store, scope, locals, c)?;
    if truthy(&v) {
        evaluated(alloc, store, scope, locals, a)
    } else {
        evaluated(alloc, store, scope, locals, b)
    }
}

/// The value of a filter.
#[cycle(evaluation)]
#[inline(never)]
fn evaluated_filter(
    alloc: Global,
    store: &Store,
    scope: Oid,
    locals: &Locals,
    t: &Expr,
    name: &Txt,
    args: &Vec<Expr>,
) -> Result<View, Fault>
    requires scope { scope.0 < length store.now }
    requires locals { LocalsStand (length store.now) locals.now }
    requires known { IsKnown (filtered (tree t.now) name.now (trees_from (map tree args.now.items))) }
    ensures exact { Gives is_memory view_of (evaluated store.now scope.0 locals.now (filtered (tree t.now) name.now (trees_from (map tree args.now.items)))) result }
    ensures stands { IfOk result (λ v. ViewStands (length store.now) (view_of v)) }
{
    let v = evaluated(alloc, store, scope, locals, t)?;
    let args = evaluated_all(alloc, store, scope, locals, args.as_slice())?;
    apply(alloc, name, store, &v, &args)
}

/// What a dotted call is made on, and the name that it calls.
#[cycle(evaluation)]
fn receiver<'a>(
    alloc: Global,
    store: &Store,
    scope: Oid,
    locals: &Locals,
    e: &'a Expr,
) -> Result<(View, &'a Txt), Fault>
    requires scope { scope.0 < length store.now }
    requires locals { LocalsStand (length store.now) locals.now }
    requires known { IsKnown (tree e.now) }
    ensures exact { Gives is_memory (λ r. (view_of r.0, r.1.now)) (receiver store.now scope.0 locals.now (tree e.now)) result }
    ensures stands { IfOk result (λ r. ViewStands (length store.now) (view_of r.0)) }
{
    match e {
        Expr::Member(t, name) => Ok((evaluated(alloc, store, scope, locals, t)?, name)),
        _ => Err(Fault::ImpureCall),
    }
}

/// The values of expressions, from left to right.
#[cycle(evaluation)]
fn evaluated_all(
    alloc: Global,
    store: &Store,
    scope: Oid,
    locals: &Locals,
    items: &[Expr],
) -> Result<Views, Fault>
    requires scope { scope.0 < length store.now }
    requires locals { LocalsStand (length store.now) locals.now }
    requires known { FiltersKnown (trees_from (map tree items.now)) }
    ensures exact { Gives is_memory (λ vs. views_list (views_of vs)) (evaluated_all store.now scope.0 locals.now [] (trees_from (map tree items.now))) result }
    ensures count { IfOk result (λ vs. length (views_list (views_of vs)) ≡ count_of (trees_from (map tree items.now))) }
    ensures stands { IfOk result (λ vs. AllByRecursion (ViewStands (length store.now)) (views_list (views_of vs))) }
{
    let mut views = Views::new(alloc);
    for item in items {
        let v = evaluated(alloc, store, scope, locals, item)?;
        views.push(v)?;
    }
    Ok(views)
}

/// The name and the value of a pair.
#[cycle(evaluation)]
fn evaluated_pair(
    alloc: Global,
    store: &Store,
    scope: Oid,
    locals: &Locals,
    pair: &Pair,
) -> Result<(Txt, View), Fault>
    requires scope { scope.0 < length store.now }
    requires locals { LocalsStand (length store.now) locals.now }
    requires known { IsPairKnown (pair_tree pair.now) }
    ensures exact { Gives is_memory field_of (evaluated_pair store.now scope.0 locals.now (pair_tree pair.now)) result }
    ensures stands { IfOk result (λ f. ViewStands (length store.now) (view_of f.1)) }
{
    match pair {
        Pair::Labelled(label, e) => {
            let v = evaluated(alloc, store, scope, locals, e)?;
            Ok((label_name(alloc, label)?, v))
        }
        Pair::Shorthand(name, e) => {
            let v = evaluated(alloc, store, scope, locals, e)?;
            Ok((name.copied()?, v))
        }
        Pair::Computed(n, e) => {
            let w = evaluated(alloc, store, scope, locals, n)?;
            let name = to_text(alloc, store, &w)?;
            let v = evaluated(alloc, store, scope, locals, e)?;
            Ok((name, v))
        }
    }
}

/// The fields of a literal. A name that stands twice keeps its first place and its last value.
#[cycle(evaluation)]
fn evaluated_pairs(
    alloc: Global,
    store: &Store,
    scope: Oid,
    locals: &Locals,
    pairs: &[Pair],
) -> Result<IndexMap<Txt, View>, Fault>
    requires scope { scope.0 < length store.now }
    requires locals { LocalsStand (length store.now) locals.now }
    requires known { ArePairsKnown (pairs_from (map pair_tree pairs.now)) }
    ensures exact { Gives is_memory (λ m. map field_of m.entries) (evaluated_pairs store.now scope.0 locals.now [] (pairs_from (map pair_tree pairs.now))) result }
    ensures stands { IfOk result (λ m. FieldsAllStand (length store.now) (map field_of m.entries)) }
{
    let mut fields = IndexMap::new(alloc);
    for pair in pairs {
        let (name, v) = evaluated_pair(alloc, store, scope, locals, pair)?;
        put_field(&mut fields, name, v)?;
    }
    Ok(fields)
}
