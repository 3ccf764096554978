//! What a program writes into the store of a core.
ghost use Rattle.std.specs.Prelude.{◌≡◌, ◌<◌, ◌≤◌, length, map, IfOk, OnOk};
ghost use Rattle.std.specs.List.{AllByRecursion};
ghost use Rattle.ng_base.specs.Faults.{is_memory};
ghost use Rattle.ng_base.specs.Meets.{Gives};
ghost use Rattle.ng_base.specs.Objects.{StandsAmong};
ghost use Rattle.ng_base.specs.Views.{views_list};
ghost use Rattle.ng_base.specs.ViewOf.{view_of, views_of};
ghost use Rattle.ng_language.specs.Views.{ViewStands};
ghost use Rattle.ng_core.specs.Keeping.{stores, stores_result, filter_result, assigns_name, assigns_member, makes_name, makes_member, is_missing, as_view_run};
ghost use Rattle.ng_core.specs.Frames.{state_of, held, IsSound, Acts};
ghost use Rattle.ng_core.specs.State.{written, with_objects};
ghost use Rattle.ng_members.specs.Methods.{method_value};
ghost use Rattle.ng_write.specs.Making.{value_in};
ghost use Rattle.ng_write.specs.Changing.{changed};

use crate::binding::{value_copied, value_in, values_in};
use crate::core_state::Core;
use ng_base::fault::{Fault, Memory};
use ng_base::name::{Oid, ScopeId};
use ng_base::txt::Txt;
use ng_base::value::Value;
use ng_base::view::{Fields, View, Views};
use ng_members::calls::method_value;
use ng_members::fields::record_view;
use ng_members::literals::named;
use ng_members::methods::Method;
use ng_purity::applied::{apply, known};
use ng_write::assigning::{assign_member, assign_name};
use ng_write::changing::{Change, change_array as change};
use ng_write::making::made_member;
use ng_write::storing::stored;
use std::alloc::Global;

/// A fresh list or record becomes a new object.
#[tactic(auto, using(crate::proofs::SoundCores::grown))]
pub fn keep(core: &mut Core, alloc: Global, v: &View) -> Result<View, Fault>
    requires sound { IsSound core.old }
    requires view { ViewStands (length core.old.store) (view_of v.now) }
    ensures run { Acts view_of result (state_of core.new) (stores (view_of v.now) (state_of core.old)) }
    ensures sound { IsSound core.new }
    ensures held { held core.new ≡ held core.old }
    ensures depth { core.new.depth ≡ core.old.depth }
    ensures count { length core.new.scopes ≡ length core.old.scopes }
    ensures grown { length core.old.store ≤ length core.new.store }
    ensures stands { IfOk result (λ w. ViewStands (length core.new.store) (view_of w)) }
{
    let value = stored(alloc, &mut core.store, v)?;
    Ok(View::of_value(value))
}

/// What a method without effects gives.
#[tactic(auto, using(crate::proofs::SoundCores::grown))]
pub fn call_method(
    core: &mut Core,
    alloc: Global,
    method: Method,
    v: &View,
    args: &Views,
) -> Result<View, Fault>
    requires sound { IsSound core.old }
    requires view { ViewStands (length core.old.store) (view_of v.now) }
    requires args { AllByRecursion (ViewStands (length core.old.store)) (views_list (views_of args.now)) }
    ensures run { Acts view_of result (state_of core.new) (stores_result (method_value core.old.store method (view_of v.now) (views_list (views_of args.now))) (state_of core.old)) }
    ensures sound { IsSound core.new }
    ensures held { held core.new ≡ held core.old }
    ensures depth { core.new.depth ≡ core.old.depth }
    ensures count { length core.new.scopes ≡ length core.old.scopes }
    ensures grown { length core.old.store ≤ length core.new.store }
    ensures stands { IfOk result (λ w. ViewStands (length core.new.store) (view_of w)) }
{
    let given = method_value(alloc, &core.store, method, v, args)?;
    keep(core, alloc, &given)
}

/// What a filter that is there makes of a view.
#[tactic(auto, using(ng_members::proofs::Stand::views_all_stand))]
fn filtered(alloc: Global, core: &Core, name: &Txt, v: &View, args: &Views) -> Result<View, Fault>
    requires view { ViewStands (length core.now.store) (view_of v.now) }
    requires args { AllByRecursion (ViewStands (length core.now.store)) (views_list (views_of args.now)) }
    ensures exact { Gives is_memory view_of (filter_result core.now.store name.now (view_of v.now) (views_list (views_of args.now))) result }
    ensures stands { IfOk result (λ w. ViewStands (length core.now.store) (view_of w)) }
{
    let Ok(count) = u32::try_from(args.as_slice().len()) else {
        return Err(Fault::Memory(Memory::Worn));
    };
    if !known(name, count) {
        return Err(Fault::Syntax);
    }
    apply(alloc, name, &core.store, v, args)
}

/// What a filter gives.
#[tactic(auto, using(crate::proofs::SoundCores::grown))]
pub fn filter(
    core: &mut Core,
    alloc: Global,
    name: &Txt,
    v: &View,
    args: &Views,
) -> Result<View, Fault>
    requires sound { IsSound core.old }
    requires view { ViewStands (length core.old.store) (view_of v.now) }
    requires args { AllByRecursion (ViewStands (length core.old.store)) (views_list (views_of args.now)) }
    ensures run { Acts view_of result (state_of core.new) (stores_result (filter_result core.old.store name.now (view_of v.now) (views_list (views_of args.now))) (state_of core.old)) }
    ensures sound { IsSound core.new }
    ensures held { held core.new ≡ held core.old }
    ensures depth { core.new.depth ≡ core.old.depth }
    ensures count { length core.new.scopes ≡ length core.old.scopes }
    ensures grown { length core.old.store ≤ length core.new.store }
    ensures stands { IfOk result (λ w. ViewStands (length core.new.store) (view_of w)) }
{
    let given = filtered(alloc, core, name, v, args)?;
    keep(core, alloc, &given)
}

/// A method that changes an array.
#[tactic(auto, using(crate::proofs::SoundCores::grown))]
pub fn change_array(
    core: &mut Core,
    alloc: Global,
    o: Oid,
    method: Change,
    args: &Views,
) -> Result<View, Fault>
    requires sound { IsSound core.old }
    requires object { o.0 < length core.old.store }
    requires args { AllByRecursion (ViewStands (length core.old.store)) (views_list (views_of args.now)) }
    ensures run { Acts view_of result (state_of core.new) (as_view_run (written (changed core.old.store method o.0 (map value_in (views_list (views_of args.now)))) (state_of core.old))) }
    ensures sound { IsSound core.new }
    ensures held { held core.new ≡ held core.old }
    ensures depth { core.new.depth ≡ core.old.depth }
    ensures count { length core.new.scopes ≡ length core.old.scopes }
    ensures grown { length core.old.store ≤ length core.new.store }
    ensures stands { IfOk result (λ w. ViewStands (length core.new.store) (view_of w)) }
{
    let values = values_in(alloc, args)?;
    let value = change(&mut core.store, method, o, values.as_slice())?;
    Ok(View::of_value(value))
}

/// `a.b = v`.
#[tactic(auto, using(crate::proofs::SoundCores::grown))]
pub fn put_member(core: &mut Core, target: View, name: &Txt, v: View) -> Result<View, Fault>
    requires sound { IsSound core.old }
    requires target { ViewStands (length core.old.store) (view_of target) }
    requires view { ViewStands (length core.old.store) (view_of v) }
    ensures run { Acts view_of result (state_of core.new) (assigns_member (view_of target) name.now (view_of v) (state_of core.old)) }
    ensures sound { IsSound core.new }
    ensures held { held core.new ≡ held core.old }
    ensures depth { core.new.depth ≡ core.old.depth }
    ensures count { length core.new.scopes ≡ length core.old.scopes }
    ensures grown { length core.old.store ≤ length core.new.store }
    ensures stands { IfOk result (λ w. ViewStands (length core.new.store) (view_of w)) }
{
    let target = value_in(target);
    let value = value_copied(&v)?;
    assign_member(&mut core.store, &target, name, value)?;
    Ok(v)
}

/// `a = v`: a local of that name, else a name of the scope's own object.
#[tactic(auto, using(crate::proofs::SoundCores::renamed))]
pub fn put_name(core: &mut Core, scope: ScopeId, name: &Txt, v: View) -> Result<View, Fault>
    requires sound { IsSound core.old }
    requires scope { scope.0 < length core.old.scopes }
    requires view { ViewStands (length core.old.store) (view_of v) }
    ensures run { Acts view_of result (state_of core.new) (assigns_name scope.0 name.now (view_of v) (state_of core.old)) }
    ensures sound { IsSound core.new }
    ensures held { held core.new ≡ held core.old }
    ensures depth { core.new.depth ≡ core.old.depth }
    ensures count { length core.new.scopes ≡ length core.old.scopes }
    ensures grown { length core.old.store ≤ length core.new.store }
    ensures stands { IfOk result (λ w. ViewStands (length core.new.store) (view_of w)) }
{
    let object = core.scopes.object(scope);
    let value = value_copied(&v)?;
    assign_name(&mut core.store, object, &mut core.locals, name, value)?;
    Ok(v)
}

/// Undefined or null.
fn is_missing(v: &View) -> bool
    ensures { result ≡ is_missing (view_of v.now) }
{
    match v {
        View::Prim(Value::Undefined) => true,
        View::Prim(Value::Null) => true,
        _ => false,
    }
}

/// `a` along the left of an assignment: an undefined or null one is made an empty object.
#[tactic(auto, using(crate::proofs::SoundCores::grown))]
pub fn make_name(core: &mut Core, alloc: Global, scope: ScopeId, name: &Txt) -> Result<View, Fault>
    requires sound { IsSound core.old }
    requires scope { scope.0 < length core.old.scopes }
    ensures run { Acts view_of result (state_of core.new) (makes_name scope.0 name.now (state_of core.old)) }
    ensures sound { IsSound core.new }
    ensures held { held core.new ≡ held core.old }
    ensures depth { core.new.depth ≡ core.old.depth }
    ensures count { length core.new.scopes ≡ length core.old.scopes }
    ensures grown { length core.old.store ≤ length core.new.store }
    ensures stands { IfOk result (λ w. ViewStands (length core.new.store) (view_of w)) }
{
    let object = core.scopes.object(scope);
    let found = named(&core.store, object, &core.locals, name)?;
    if !is_missing(&found) {
        return Ok(found);
    }
    let empty = record_view(Fields::new(alloc));
    let new = keep(core, alloc, &empty)?;
    put_name(core, scope, name, new)
}

/// `a.b` along the left of an assignment.
#[tactic(auto, using(crate::proofs::SoundCores::grown))]
pub fn make_member(core: &mut Core, alloc: Global, target: View, name: &Txt) -> Result<View, Fault>
    requires sound { IsSound core.old }
    requires target { ViewStands (length core.old.store) (view_of target) }
    ensures run { Acts view_of result (state_of core.new) (makes_member (view_of target) name.now (state_of core.old)) }
    ensures sound { IsSound core.new }
    ensures held { held core.new ≡ held core.old }
    ensures depth { core.new.depth ≡ core.old.depth }
    ensures count { length core.new.scopes ≡ length core.old.scopes }
    ensures grown { length core.old.store ≤ length core.new.store }
    ensures stands { IfOk result (λ w. ViewStands (length core.new.store) (view_of w)) }
{
    let target = value_in(target);
    let value = made_member(alloc, &mut core.store, &target, name)?;
    Ok(View::of_value(value))
}
