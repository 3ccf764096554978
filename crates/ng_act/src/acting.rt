//! The value of an expression, by cases on it.
//!
//! All that opens bodies and events is one cycle, over this file and `reaching`, `series`, `calling`, `emitting` and
//! `visiting`: one function a definition, in the same arms. An arm that holds values has a function of its own, so that a
//! deep expression takes small frames.
ghost use Rattle.std.specs.Prelude.{◌<◌, ◌≤◌, ◌-◌, length, map, IfOk};
ghost use Rattle.ng_base.specs.ViewOf.{view_of};
ghost use Rattle.ng_language.specs.Heights.{height, heights, pair_heights};
ghost use Rattle.ng_language.specs.Trees.{trees_from, pairs_from, member_of, item_of, call_of, a_list, a_record, signed, combined, both_of, either_of, choice_of, assigned, filtered};
ghost use Rattle.ng_language.specs.Views.{ViewStands};
ghost use Rattle.ng_parse.specs.TreeOf.{tree, pair_tree};
ghost use Rattle.ng_act.specs.Expressions.{acted};
ghost use Rattle.ng_act.specs.Actions.{does};
ghost use Rattle.ng_act.specs.Kept.{Kept};
ghost use Rattle.ng_core.specs.Frames.{state_of, IsSound, Acts};

use crate::calling::call;
use crate::reaching::{left, reached};
use crate::series::{acted_all, acted_pairs};
use ng_base::fault::Fault;
use ng_base::name::ScopeId;
use ng_base::txt::Txt;
use ng_base::view::View;
use ng_core::called::is_nothing;
use ng_core::core_state::Core;
use ng_core::keeping::{filter, keep};
use ng_core::leaves::{name_value, scope_value, text_value};
use ng_core::places::assign;
use ng_members::fields::{record_of, record_view};
use ng_members::lists::list_view;
use ng_members::literals::{constant, number};
use ng_members::members::{item, member, undefined};
use ng_members::operators::{operator_value, sign_value};
use ng_parse::{Binary, Expr, Pair, Unary};
use ng_value::operators::truthy;
use std::alloc::Global;

/// The value of an expression.
#[cycle(act)]
pub(crate) fn acted(core: &mut Core, alloc: Global, scope: ScopeId, e: &Expr) -> Result<View, Fault>
    requires sound { IsSound core.old }
    requires scope { scope.0 < length core.old.scopes }
    requires low { height (tree e.now) ≤ 100 }
    ensures run { Acts view_of result (state_of core.new) (acted (does (64 - core.old.depth)) scope.0 (tree e.now) (state_of core.old)) }
    ensures kept { Kept core.old core.new }
    ensures stands { IfOk result (λ w. ViewStands (length core.new.store) (view_of w)) }
{
    match e {
        Expr::Number(n) => number(*n),
        Expr::Text(t) => text_value(t),
        Expr::Name(n) => name_value(core, scope, n),
        Expr::This => Ok(scope_value(core, scope)),
        Expr::Constant(c) => Ok(constant(*c)),
        Expr::Member(t, n) => acted_member(core, alloc, scope, t, n),
        Expr::Item(t, i) => acted_item(core, alloc, scope, t, i),
        Expr::Call(t, args) => acted_call(core, alloc, scope, t, args.as_slice()),
        Expr::List(items) => acted_list(core, alloc, scope, items.as_slice()),
        Expr::Record(pairs) => acted_record(core, alloc, scope, pairs.as_slice()),
        Expr::Bracketed(t) => acted(core, alloc, scope, t),
        Expr::Unary(op, t) => acted_unary(core, alloc, scope, *op, t),
        Expr::Binary(op, a, b) => acted_binary(core, alloc, scope, *op, a, b),
        Expr::Both(a, b) => acted_both(core, alloc, scope, a, b),
        Expr::Either(a, b) => acted_either(core, alloc, scope, a, b),
        Expr::Choice(c, a, b) => acted_choice(core, alloc, scope, c, a, b),
        Expr::Assign(a, b) => acted_assign(core, alloc, scope, a, b),
        Expr::Filter(t, name, args) => acted_filter(core, alloc, scope, t, name, args.as_slice()),
    }
}

/// A member of a value.
#[cycle(act)]
fn acted_member(
    core: &mut Core,
    alloc: Global,
    scope: ScopeId,
    t: &Expr,
    name: &Txt,
) -> Result<View, Fault>
    requires sound { IsSound core.old }
    requires scope { scope.0 < length core.old.scopes }
    requires low { height (tree t.now) ≤ 100 }
    ensures run { Acts view_of result (state_of core.new) (acted (does (64 - core.old.depth)) scope.0 (member_of (tree t.now) name.now) (state_of core.old)) }
    ensures kept { Kept core.old core.new }
    ensures stands { IfOk result (λ w. ViewStands (length core.new.store) (view_of w)) }
{
    let v = acted(core, alloc, scope, t)?;
    Ok(member(alloc, &core.store, &v, name)?)
}

/// An item of a value.
#[cycle(act)]
fn acted_item(
    core: &mut Core,
    alloc: Global,
    scope: ScopeId,
    t: &Expr,
    i: &Expr,
) -> Result<View, Fault>
    requires sound { IsSound core.old }
    requires scope { scope.0 < length core.old.scopes }
    requires low { height (tree t.now) ≤ 100 }
    requires low_index { height (tree i.now) ≤ 100 }
    ensures run { Acts view_of result (state_of core.new) (acted (does (64 - core.old.depth)) scope.0 (item_of (tree t.now) (tree i.now)) (state_of core.old)) }
    ensures kept { Kept core.old core.new }
    ensures stands { IfOk result (λ w. ViewStands (length core.new.store) (view_of w)) }
{
    let v = acted(core, alloc, scope, t)?;
    let index = acted(core, alloc, scope, i)?;
    item(alloc, &core.store, &v, &index)
}

/// A call: what is called comes before the arguments, which are not asked for where nothing is called.
#[cycle(act)]
fn acted_call(
    core: &mut Core,
    alloc: Global,
    scope: ScopeId,
    t: &Expr,
    args: &[Expr],
) -> Result<View, Fault>
    requires sound { IsSound core.old }
    requires scope { scope.0 < length core.old.scopes }
    requires low { height (tree t.now) ≤ 100 }
    requires low_args { heights (trees_from (map tree args.now)) ≤ 100 }
    ensures run { Acts view_of result (state_of core.new) (acted (does (64 - core.old.depth)) scope.0 (call_of (tree t.now) (trees_from (map tree args.now))) (state_of core.old)) }
    ensures kept { Kept core.old core.new }
    ensures stands { IfOk result (λ w. ViewStands (length core.new.store) (view_of w)) }
{
    let (v, called) = reached(core, alloc, scope, t)?;
    if is_nothing(called) {
        return Ok(undefined());
    }
    let args = acted_all(core, alloc, scope, args)?;
    call(core, alloc, called, v, args)
}

/// A list becomes a new array.
#[cycle(act)]
fn acted_list(core: &mut Core, alloc: Global, scope: ScopeId, items: &[Expr]) -> Result<View, Fault>
    requires sound { IsSound core.old }
    requires scope { scope.0 < length core.old.scopes }
    requires low { heights (trees_from (map tree items.now)) ≤ 100 }
    ensures run { Acts view_of result (state_of core.new) (acted (does (64 - core.old.depth)) scope.0 (a_list (trees_from (map tree items.now))) (state_of core.old)) }
    ensures kept { Kept core.old core.new }
    ensures stands { IfOk result (λ w. ViewStands (length core.new.store) (view_of w)) }
{
    let views = acted_all(core, alloc, scope, items)?;
    keep(core, alloc, &list_view(views))
}

/// A record becomes a new object.
#[cycle(act)]
fn acted_record(
    core: &mut Core,
    alloc: Global,
    scope: ScopeId,
    pairs: &[Pair],
) -> Result<View, Fault>
    requires sound { IsSound core.old }
    requires scope { scope.0 < length core.old.scopes }
    requires low { pair_heights (pairs_from (map pair_tree pairs.now)) ≤ 100 }
    ensures run { Acts view_of result (state_of core.new) (acted (does (64 - core.old.depth)) scope.0 (a_record (pairs_from (map pair_tree pairs.now))) (state_of core.old)) }
    ensures kept { Kept core.old core.new }
    ensures stands { IfOk result (λ w. ViewStands (length core.new.store) (view_of w)) }
{
    let fields = acted_pairs(core, alloc, scope, pairs)?;
    keep(core, alloc, &record_view(record_of(alloc, fields)?))
}

/// A sign before a value.
#[cycle(act)]
fn acted_unary(
    core: &mut Core,
    alloc: Global,
    scope: ScopeId,
    op: Unary,
    t: &Expr,
) -> Result<View, Fault>
    requires sound { IsSound core.old }
    requires scope { scope.0 < length core.old.scopes }
    requires low { height (tree t.now) ≤ 100 }
    ensures run { Acts view_of result (state_of core.new) (acted (does (64 - core.old.depth)) scope.0 (signed op (tree t.now)) (state_of core.old)) }
    ensures kept { Kept core.old core.new }
    ensures stands { IfOk result (λ w. ViewStands (length core.new.store) (view_of w)) }
{
    let v = acted(core, alloc, scope, t)?;
    sign_value(op, &v)
}

/// An operator between two values.
#[cycle(act)]
fn acted_binary(
    core: &mut Core,
    alloc: Global,
    scope: ScopeId,
    op: Binary,
    a: &Expr,
    b: &Expr,
) -> Result<View, Fault>
    requires sound { IsSound core.old }
    requires scope { scope.0 < length core.old.scopes }
    requires low { height (tree a.now) ≤ 100 }
    requires low_right { height (tree b.now) ≤ 100 }
    ensures run { Acts view_of result (state_of core.new) (acted (does (64 - core.old.depth)) scope.0 (combined op (tree a.now) (tree b.now)) (state_of core.old)) }
    ensures kept { Kept core.old core.new }
    ensures stands { IfOk result (λ w. ViewStands (length core.new.store) (view_of w)) }
{
    let left = acted(core, alloc, scope, a)?;
    let right = acted(core, alloc, scope, b)?;
    operator_value(alloc, &core.store, op, &left, &right)
}

/// `&&`: the right side is asked for where the left one is truthy.
#[cycle(act)]
fn acted_both(
    core: &mut Core,
    alloc: Global,
    scope: ScopeId,
    a: &Expr,
    b: &Expr,
) -> Result<View, Fault>
    requires sound { IsSound core.old }
    requires scope { scope.0 < length core.old.scopes }
    requires low { height (tree a.now) ≤ 100 }
    requires low_right { height (tree b.now) ≤ 100 }
    ensures run { Acts view_of result (state_of core.new) (acted (does (64 - core.old.depth)) scope.0 (both_of (tree a.now) (tree b.now)) (state_of core.old)) }
    ensures kept { Kept core.old core.new }
    ensures stands { IfOk result (λ w. ViewStands (length core.new.store) (view_of w)) }
{
    let v = acted(core, alloc, scope, a)?;
    if truthy(&v) {
        acted(core, alloc, scope, b)
    } else {
        Ok(v)
    }
}

/// `||`: the right side is asked for where the left one is not truthy.
#[cycle(act)]
fn acted_either(
    core: &mut Core,
    alloc: Global,
    scope: ScopeId,
    a: &Expr,
    b: &Expr,
) -> Result<View, Fault>
    requires sound { IsSound core.old }
    requires scope { scope.0 < length core.old.scopes }
    requires low { height (tree a.now) ≤ 100 }
    requires low_right { height (tree b.now) ≤ 100 }
    ensures run { Acts view_of result (state_of core.new) (acted (does (64 - core.old.depth)) scope.0 (either_of (tree a.now) (tree b.now)) (state_of core.old)) }
    ensures kept { Kept core.old core.new }
    ensures stands { IfOk result (λ w. ViewStands (length core.new.store) (view_of w)) }
{
    let v = acted(core, alloc, scope, a)?;
    if truthy(&v) {
        Ok(v)
    } else {
        acted(core, alloc, scope, b)
    }
}

/// `?`: one of two.
#[cycle(act)]
fn acted_choice(
    core: &mut Core,
    alloc: Global,
    scope: ScopeId,
    c: &Expr,
    a: &Expr,
    b: &Expr,
) -> Result<View, Fault>
    requires sound { IsSound core.old }
    requires scope { scope.0 < length core.old.scopes }
    requires low { height (tree c.now) ≤ 100 }
    requires low_then { height (tree a.now) ≤ 100 }
    requires low_else { height (tree b.now) ≤ 100 }
    ensures run { Acts view_of result (state_of core.new) (acted (does (64 - core.old.depth)) scope.0 (choice_of (tree c.now) (tree a.now) (tree b.now)) (state_of core.old)) }
    ensures kept { Kept core.old core.new }
    ensures stands { IfOk result (λ w. ViewStands (length core.new.store) (view_of w)) }
{
    let v = acted(core, alloc, scope, c)?;
    if truthy(&v) {
        acted(core, alloc, scope, a)
    } else {
        acted(core, alloc, scope, b)
    }
}

/// An assignment: its left side comes first.
#[cycle(act)]
fn acted_assign(
    core: &mut Core,
    alloc: Global,
    scope: ScopeId,
    a: &Expr,
    b: &Expr,
) -> Result<View, Fault>
    requires sound { IsSound core.old }
    requires scope { scope.0 < length core.old.scopes }
    requires low { height (tree a.now) ≤ 100 }
    requires low_right { height (tree b.now) ≤ 100 }
    ensures run { Acts view_of result (state_of core.new) (acted (does (64 - core.old.depth)) scope.0 (assigned (tree a.now) (tree b.now)) (state_of core.old)) }
    ensures kept { Kept core.old core.new }
    ensures stands { IfOk result (λ w. ViewStands (length core.new.store) (view_of w)) }
{
    let place = left(core, alloc, scope, a)?;
    let v = acted(core, alloc, scope, b)?;
    assign(core, scope, place, v)
}

/// A filter.
#[cycle(act)]
fn acted_filter(
    core: &mut Core,
    alloc: Global,
    scope: ScopeId,
    t: &Expr,
    name: &Txt,
    args: &[Expr],
) -> Result<View, Fault>
    requires sound { IsSound core.old }
    requires scope { scope.0 < length core.old.scopes }
    requires low { height (tree t.now) ≤ 100 }
    requires low_args { heights (trees_from (map tree args.now)) ≤ 100 }
    ensures run { Acts view_of result (state_of core.new) (acted (does (64 - core.old.depth)) scope.0 (filtered (tree t.now) name.now (trees_from (map tree args.now))) (state_of core.old)) }
    ensures kept { Kept core.old core.new }
    ensures stands { IfOk result (λ w. ViewStands (length core.new.store) (view_of w)) }
{
    let v = acted(core, alloc, scope, t)?;
    let args = acted_all(core, alloc, scope, args)?;
    filter(core, alloc, name, &v, &args)
}
