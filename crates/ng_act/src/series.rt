//! Expressions one after the other: items, pairs and statements.
ghost use Rattle.std.specs.Prelude.{◌<◌, ◌≤◌, ◌-◌, [], length, map, IfOk};
ghost use Rattle.std.specs.List.{AllByRecursion};
ghost use Rattle.ng_base.specs.Views.{views_list};
ghost use Rattle.ng_base.specs.ViewOf.{view_of, views_of, field_of};
ghost use Rattle.ng_language.specs.Heights.{heights, pair_height, pair_heights};
ghost use Rattle.ng_language.specs.Trees.{trees_from, pairs_from};
ghost use Rattle.ng_language.specs.Views.{ViewStands};
ghost use Rattle.ng_parse.specs.TreeOf.{tree, pair_tree};
ghost use Rattle.ng_members.specs.Leaves.{FieldsAllStand};
ghost use Rattle.ng_act.specs.Expressions.{acted_all, acted_pair, acted_pairs, programmed};
ghost use Rattle.ng_act.specs.Actions.{does};
ghost use Rattle.ng_act.specs.Kept.{Kept};
ghost use Rattle.ng_core.specs.Frames.{state_of, IsSound, Acts};

use crate::acting::acted;
use indexmap::IndexMap;
use ng_base::fault::Fault;
use ng_base::name::ScopeId;
use ng_base::txt::Txt;
use ng_base::view::{View, Views};
use ng_core::core_state::Core;
use ng_members::fields::put_field;
use ng_members::literals::label_name;
use ng_members::members::undefined;
use ng_parse::{Expr, Pair};
use ng_value::texts::to_text;
use std::alloc::Global;

/// The values of expressions, from left to right.
#[cycle(act)]
pub(crate) fn acted_all(
    core: &mut Core,
    alloc: Global,
    scope: ScopeId,
    items: &[Expr],
) -> Result<Views, Fault>
    requires sound { IsSound core.old }
    requires scope { scope.0 < length core.old.scopes }
    requires low { heights (trees_from (map tree items.now)) ≤ 100 }
    ensures run { Acts (λ vs. views_list (views_of vs)) result (state_of core.new) (acted_all (does (64 - core.old.depth)) scope.0 [] (trees_from (map tree items.now)) (state_of core.old)) }
    ensures kept { Kept core.old core.new }
    ensures stands { IfOk result (λ vs. AllByRecursion (ViewStands (length core.new.store)) (views_list (views_of vs))) }
{
    let mut views = Views::new(alloc);
    for item in items {
        let v = acted(core, alloc, scope, item)?;
        views.push(v)?;
    }
    Ok(views)
}

/// The name and the value of a pair.
#[cycle(act)]
fn acted_pair(
    core: &mut Core,
    alloc: Global,
    scope: ScopeId,
    pair: &Pair,
) -> Result<(Txt, View), Fault>
    requires sound { IsSound core.old }
    requires scope { scope.0 < length core.old.scopes }
    requires low { pair_height (pair_tree pair.now) ≤ 100 }
    ensures run { Acts field_of result (state_of core.new) (acted_pair (does (64 - core.old.depth)) scope.0 (pair_tree pair.now) (state_of core.old)) }
    ensures kept { Kept core.old core.new }
    ensures stands { IfOk result (λ f. ViewStands (length core.new.store) (view_of f.1)) }
{
    match pair {
        Pair::Labelled(label, e) => {
            let v = acted(core, alloc, scope, e)?;
            Ok((label_name(alloc, label)?, v))
        }
        Pair::Shorthand(name, e) => {
            let v = acted(core, alloc, scope, e)?;
            Ok((name.copied()?, v))
        }
        Pair::Computed(n, e) => {
            let w = acted(core, alloc, scope, n)?;
            let name = to_text(alloc, &core.store, &w)?;
            let v = acted(core, alloc, scope, e)?;
            Ok((name, v))
        }
    }
}

/// The fields of a literal.
#[cycle(act)]
pub(crate) fn acted_pairs(
    core: &mut Core,
    alloc: Global,
    scope: ScopeId,
    pairs: &[Pair],
) -> Result<IndexMap<Txt, View>, Fault>
    requires sound { IsSound core.old }
    requires scope { scope.0 < length core.old.scopes }
    requires low { pair_heights (pairs_from (map pair_tree pairs.now)) ≤ 100 }
    ensures run { Acts (λ m. map field_of m.entries) result (state_of core.new) (acted_pairs (does (64 - core.old.depth)) scope.0 [] (pairs_from (map pair_tree pairs.now)) (state_of core.old)) }
    ensures kept { Kept core.old core.new }
    ensures stands { IfOk result (λ m. FieldsAllStand (length core.new.store) (map field_of m.entries)) }
{
    let mut fields = IndexMap::new(alloc);
    for pair in pairs {
        let (name, v) = acted_pair(core, alloc, scope, pair)?;
        put_field(&mut fields, name, v)?;
    }
    Ok(fields)
}

/// The value of the last statement, or undefined.
#[cycle(act)]
pub(crate) fn programmed(
    core: &mut Core,
    alloc: Global,
    scope: ScopeId,
    items: &[Expr],
) -> Result<View, Fault>
    requires sound { IsSound core.old }
    requires scope { scope.0 < length core.old.scopes }
    requires low { heights (trees_from (map tree items.now)) ≤ 100 }
    ensures run { Acts view_of result (state_of core.new) (programmed (does (64 - core.old.depth)) scope.0 (trees_from (map tree items.now)) (state_of core.old)) }
    ensures kept { Kept core.old core.new }
    ensures stands { IfOk result (λ w. ViewStands (length core.new.store) (view_of w)) }
{
    let mut value = undefined();
    for item in items {
        value = acted(core, alloc, scope, item)?;
    }
    Ok(value)
}
