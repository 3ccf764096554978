//! What is called, and what an assignment writes to.
ghost use Rattle.std.specs.Prelude.{◌<◌, ◌≤◌, ◌-◌, length, IfOk};
ghost use Rattle.ng_base.specs.ViewOf.{view_of};
ghost use Rattle.ng_language.specs.Heights.{height};
ghost use Rattle.ng_language.specs.Views.{ViewStands};
ghost use Rattle.ng_parse.specs.TreeOf.{tree};
ghost use Rattle.ng_act.specs.Expressions.{acted, reached, left, made};
ghost use Rattle.ng_act.specs.Actions.{does};
ghost use Rattle.ng_act.specs.Kept.{Kept};
ghost use Rattle.ng_core.specs.Frames.{state_of, IsSound, Acts};
ghost use Rattle.ng_core.specs.PlaceOf.{place_of as place_seen, PlaceStands, TargetStands, reached_of};

use crate::acting::acted;
use ng_base::fault::Fault;
use ng_base::name::ScopeId;
use ng_base::view::View;
use ng_core::called::{Called, called_on, value_called};
use ng_core::core_state::Core;
use ng_core::keeping::{make_member, make_name};
use ng_core::places::{Place, index_name, item_called, name_called};
use ng_members::members::undefined;
use ng_parse::Expr;
use std::alloc::Global;

/// What is called, and the value that it is called on.
#[cycle(act)]
pub(crate) fn reached(
    core: &mut Core,
    alloc: Global,
    scope: ScopeId,
    e: &Expr,
) -> Result<(View, Called), Fault>
    requires sound { IsSound core.old }
    requires scope { scope.0 < length core.old.scopes }
    requires low { height (tree e.now) ≤ 100 }
    ensures run { Acts reached_of result (state_of core.new) (reached (does (64 - core.old.depth)) scope.0 (acted (does (64 - core.old.depth)) scope.0 (tree e.now)) (tree e.now) (state_of core.old)) }
    ensures kept { Kept core.old core.new }
    ensures stands { IfOk result (λ r. ViewStands (length core.new.store) (view_of r.0)) }
    ensures target { IfOk result (λ r. TargetStands (length core.new.store) (length core.new.scopes) r.1) }
{
    match e {
        Expr::Member(t, n) => {
            let v = acted(core, alloc, scope, t)?;
            let called = called_on(alloc, &core.store, &core.scopes, &v, n)?;
            Ok((v, called))
        }
        Expr::Item(t, i) => {
            let v = acted(core, alloc, scope, t)?;
            let index = acted(core, alloc, scope, i)?;
            let name = index_name(alloc, &core.store, &v, &index)?;
            let called = item_called(alloc, core, &v, &name)?;
            Ok((v, called))
        }
        Expr::Name(n) => Ok((undefined(), name_called(core, scope, n)?)),
        _ => {
            let v = acted(core, alloc, scope, e)?;
            let called = value_called(&v);
            Ok((v, called))
        }
    }
}

/// The left side of an assignment.
#[cycle(act)]
pub(crate) fn left(core: &mut Core, alloc: Global, scope: ScopeId, e: &Expr) -> Result<Place, Fault>
    requires sound { IsSound core.old }
    requires scope { scope.0 < length core.old.scopes }
    requires low { height (tree e.now) ≤ 100 }
    ensures run { Acts place_seen result (state_of core.new) (left (does (64 - core.old.depth)) scope.0 (tree e.now) (state_of core.old)) }
    ensures kept { Kept core.old core.new }
    ensures stands { IfOk result (λ p. PlaceStands (length core.new.store) p) }
{
    match e {
        Expr::Name(n) => Ok(Place::Bare(n.copied()?)),
        Expr::Member(t, n) => {
            let v = made(core, alloc, scope, t)?;
            Ok(Place::Within(v, n.copied()?))
        }
        Expr::Item(t, i) => {
            let v = made(core, alloc, scope, t)?;
            let index = acted(core, alloc, scope, i)?;
            let name = index_name(alloc, &core.store, &v, &index)?;
            Ok(Place::Within(v, name))
        }
        _ => Err(Fault::NotAssignable),
    }
}

/// Names and members along the left of an assignment, which are made where they are missing.
#[cycle(act)]
fn made(core: &mut Core, alloc: Global, scope: ScopeId, e: &Expr) -> Result<View, Fault>
    requires sound { IsSound core.old }
    requires scope { scope.0 < length core.old.scopes }
    requires low { height (tree e.now) ≤ 100 }
    ensures run { Acts view_of result (state_of core.new) (made (does (64 - core.old.depth)) scope.0 (acted (does (64 - core.old.depth)) scope.0 (tree e.now)) (tree e.now) (state_of core.old)) }
    ensures kept { Kept core.old core.new }
    ensures stands { IfOk result (λ w. ViewStands (length core.new.store) (view_of w)) }
{
    match e {
        Expr::Name(n) => make_name(core, alloc, scope, n),
        Expr::Member(t, n) => {
            let v = made(core, alloc, scope, t)?;
            make_member(core, alloc, v, n)
        }
        Expr::Item(t, i) => {
            let v = made(core, alloc, scope, t)?;
            let index = acted(core, alloc, scope, i)?;
            let name = index_name(alloc, &core.store, &v, &index)?;
            make_member(core, alloc, v, &name)
        }
        _ => acted(core, alloc, scope, e),
    }
}
