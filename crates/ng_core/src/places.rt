//! What an assignment writes to, and what a call finds.
ghost use Rattle.std.specs.Prelude.{◌≡◌, ◌<◌, ◌≤◌, length, IfOk};
ghost use Rattle.ng_base.specs.Faults.{is_memory};
ghost use Rattle.ng_base.specs.Meets.{Meets};
ghost use Rattle.ng_base.specs.ViewOf.{view_of};
ghost use Rattle.ng_language.specs.Views.{ViewStands};
ghost use Rattle.ng_members.specs.Members.{has_members};
ghost use Rattle.ng_core.specs.Places.{index_name, item_called, name_called, assigns};
ghost use Rattle.ng_core.specs.Frames.{state_of, held, IsSound, Acts};
ghost use Rattle.ng_core.specs.PlaceOf.{place_of, PlaceStands, TargetStands};

use crate::called::{Called, called_on, scope_method, value_called};
use crate::core_state::Core;
use crate::keeping::{put_member, put_name};
use ng_base::fault::{Fault, Memory};
use ng_base::name::ScopeId;
use ng_base::txt::Txt;
use ng_base::value::Value;
use ng_base::view::View;
use ng_members::literals::named;
use ng_store::Store;
use ng_value::texts::to_text;
use std::alloc::Global;

/// What an assignment writes to: a bare name, or a name of a value.
#[derive(Drop)]
pub enum Place {
    Bare(Txt),
    Within(View, Txt),
}

fn has_members(v: &View) -> bool
    ensures { result ≡ has_members (view_of v.now) }
{
    match v {
        View::Prim(Value::Obj(_)) => true,
        View::Prim(Value::Text(_)) => true,
        View::Prim(_) => false,
        View::List(_) => true,
        View::Rec(_) => true,
    }
}

/// The name that an index stands for.
pub fn index_name(alloc: Global, store: &Store, v: &View, index: &View) -> Result<Txt, Fault>
    requires { ViewStands (length store.now) (view_of index.now) }
    ensures { Meets is_memory (index_name store.now (view_of v.now) (view_of index.now)) result }
{
    if has_members(v) {
        to_text(alloc, store, index)
    } else {
        Ok(Txt::new(alloc))
    }
}

/// What an index calls on a value.
#[tactic(auto, using(crate::proofs::Targets::target_stands))]
pub fn item_called(alloc: Global, core: &Core, v: &View, name: &Txt) -> Result<Called, Memory>
    requires { ViewStands (length core.now.store) (view_of v.now) }
    ensures called { IfOk result (λ c. c ≡ item_called (state_of core.now) (view_of v.now) name.now) }
    ensures target { IfOk result (λ c. TargetStands (length core.now.store) (length core.now.scopes) c) }
{
    if has_members(v) {
        called_on(alloc, &core.store, &core.scopes, v, name)
    } else {
        Ok(Called::Nothing)
    }
}

/// What a bare name calls.
pub fn name_called(core: &Core, scope: ScopeId, name: &Txt) -> Result<Called, Memory>
    requires sound { IsSound core.now }
    requires scope { scope.0 < length core.now.scopes }
    ensures called { IfOk result (λ c. c ≡ name_called scope.0 name.now (state_of core.now)) }
    ensures target { IfOk result (λ c. TargetStands (length core.now.store) (length core.now.scopes) c) }
{
    match scope_method(name) {
        Some(method) => Ok(Called::OfScope(scope, method)),
        None => {
            let object = core.scopes.object(scope);
            Ok(value_called(&named(&core.store, object, &core.locals, name)?))
        }
    }
}

/// Assigns to a place.
pub fn assign(core: &mut Core, scope: ScopeId, place: Place, v: View) -> Result<View, Fault>
    requires sound { IsSound core.old }
    requires scope { scope.0 < length core.old.scopes }
    requires place { PlaceStands (length core.old.store) place }
    requires view { ViewStands (length core.old.store) (view_of v) }
    ensures run { Acts view_of result (state_of core.new) (assigns scope.0 (place_of place) (view_of v) (state_of core.old)) }
    ensures sound { IsSound core.new }
    ensures held { held core.new ≡ held core.old }
    ensures depth { core.new.depth ≡ core.old.depth }
    ensures count { length core.new.scopes ≡ length core.old.scopes }
    ensures grown { length core.old.store ≤ length core.new.store }
    ensures stands { IfOk result (λ w. ViewStands (length core.new.store) (view_of w)) }
{
    match place {
        Place::Bare(name) => put_name(core, scope, &name, v),
        Place::Within(target, name) => put_member(core, target, &name, v),
    }
}
