//! The fire of a site that fills outlets (API: ngIf, ngSwitch, ngInclude, ngRepeat): bodies go, and bodies are made.
ghost use Rattle.std.specs.Prelude.{[], ◌∷◌, ◌≡◌, ◌<◌, ◌≤◌, length, map, Some, IsSome, IfOk, OnOk};
ghost use Rattle.ng_core.specs.Frames as cores;
ghost use Rattle.ng_core.specs.Frames.{IsSound};
ghost use Rattle.ng_behaviour.specs.Scopes.{path_at};
ghost use Rattle.std.specs.List.{AllByRecursion};
ghost use Rattle.ng_drawing.specs.RolesOf.{role_of};
ghost use Rattle.ng_drawing.specs.Template.{Fragment};
ghost use Rattle.ng_rows.specs.Chosen.{cases_due};
ghost use Rattle.ng_fire.specs.Blocks.{begins_firing, ended, gone, all_gone, body_linked, body_on, filled, outlet_emptied, outlets_emptied, discarded, faulted_with};
ghost use Rattle.ng_fire.specs.SiteFires.{body_filled, template_filled, named_filled, outlet_filled, outlets_filled, outlets_fired};
ghost use Rattle.ng_fire.specs.FireOf.{firing};
ghost use Rattle.ng_changes.specs.Runs.{destroyed};
ghost use Rattle.ng_steps.specs.LinkingOf.{AreBelow};
ghost use Rattle.ng_fire.specs.Serving.{IsAt, IsThere, AreHeldBy, AreDue, Keeps, Serves};
ghost use Rattle.ng_changes.specs.Whole.{IsWhole};
ghost use Rattle.ng_language.specs.Views.{ViewStands};
ghost use Rattle.ng_instances.specs.Changing.{in_outlet};
ghost use Rattle.ng_instances.specs.Due.{due_of};
ghost use Rattle.ng_instances.specs.PlaceOf.{place_of};
ghost use Rattle.ng_link.specs.FreePlace.{IsFree};
ghost use Rattle.ng_link.specs.Standing.{IsHeld};
ghost use Rattle.ng_instances.specs.InstanceOf.{body_of as body_in};
ghost use Rattle.ng_link.specs.State.{state_of, templates_of};
ghost use Rattle.ng_drawing.specs.Named.{fragment_in, fragment_for};
ghost use Rattle.ng_compose.specs.Kept.{named_from};
ghost use Rattle.ng_value.specs.Snaps.{snap_of};

use crate::repeats::{Spot, fire_repeat};
use ng_act::running::destroy;
use ng_base::fault::{Fault, Memory};
use ng_base::name::ScopeId;
use ng_base::path::Path;
use ng_base::txt::Txt;
use ng_changes::changing::apply_changes;
use ng_changes::following::{Followed, hand_over};
use ng_changes::scoping::make_child;
use ng_core::burying::bury;
use ng_core::core_state::Core;
use ng_drawing::cases::kept_as_text;
use ng_drawing::origin::Origin;
use ng_drawing::roles::Role;
use ng_instances::filling::{Due, copied_scopes};
use ng_instances::instances::SharedBody;
use ng_instances::linking::Place;
use ng_link::works::Works;
use ng_parts::Filling;
use ng_rows::choosing::{body_of, comes, goes};
use ng_steps::linking::link_at;
use ng_value::snapshot::Snap;
use std::alloc::Global;

/// A scope is destroyed while no body and no event is open (API: `$destroy`).
#[tactic(auto, using(ng_changes::proofs::Runs::destroyed_is))]
fn destroy_first(core: &mut Core, alloc: Global, scope: ScopeId) -> Result<(), Memory>
    requires sound { IsSound core.old }
    requires idle { core.old.depth ≡ 0 }
    requires scope { scope.0 < length core.old.scopes }
    ensures run { OnOk result (cores.state_of core.new ≡ destroyed scope.0 (cores.state_of core.old)) }
    ensures sound { IsSound core.new }
    ensures idle { core.new.depth ≡ 0 }
    ensures grown { length core.old.store ≤ length core.new.store }
{
    destroy(core, alloc, scope)?;
    Ok(())
}

/// The scope of a body is destroyed, and what that leaves for the watchers is done.
pub(crate) fn end_body(
    works: &mut Works,
    alloc: Global,
    body: &Path,
    told: &mut Followed,
) -> Result<(), Memory>
    requires whole { IsWhole works.old }
    ensures fired { OnOk result (firing works.new told.new ≡ ended body.now (firing works.old told.old)) }
    ensures grown { OnOk result (length works.old.core.store ≤ length works.new.core.store) }
    ensures whole { OnOk result (IsWhole works.new) }
    ensures templates { templates_of works.new ≡ templates_of works.old }
{
    let scope = works.scope_on(body);
    destroy_first(&mut works.core, alloc, scope)?;
    let added = apply_changes(works, alloc)?;
    told.added = told.added || added;
    Ok(())
}

/// The scope of a body is destroyed, and then the body is gone.
fn take_body(
    works: &mut Works,
    alloc: Global,
    holder: &Path,
    body: &SharedBody,
    told: &mut Followed,
) -> Result<(), Memory>
    requires whole { IsWhole works.old }
    requires held { IsHeld holder.now body.now.path (state_of works.old) }
    ensures fired { OnOk result (firing works.new told.new ≡ gone holder.now (body_in body.now) (firing works.old told.old)) }
    ensures serves { OnOk result (Serves holder.now (body_in body.now ∷ []) (state_of works.old).instances (state_of works.new).instances) }
    ensures grown { OnOk result (length works.old.core.store ≤ length works.new.core.store) }
    ensures whole { OnOk result (IsWhole works.new) }
    ensures templates { templates_of works.new ≡ templates_of works.old }
{
    end_body(works, alloc, body.path(), told)?;
    works.unlink(holder, body.path(), 0)
}

/// Bodies are gone, one after another.
fn take_bodies(
    works: &mut Works,
    alloc: Global,
    holder: &Path,
    bodies: &[SharedBody],
    told: &mut Followed,
) -> Result<(), Memory>
    requires whole { IsWhole works.old }
    requires held { AreHeldBy holder.now (map body_in bodies.now) (state_of works.old).instances }
    ensures fired { OnOk result (firing works.new told.new ≡ all_gone holder.now (map body_in bodies.now) (firing works.old told.old)) }
    ensures serves { OnOk result (Serves holder.now (map body_in bodies.now) (state_of works.old).instances (state_of works.new).instances) }
    ensures grown { OnOk result (length works.old.core.store ≤ length works.new.core.store) }
    ensures whole { OnOk result (IsWhole works.new) }
    ensures templates { templates_of works.new ≡ templates_of works.old }
{
    for body in bodies {
        take_body(works, alloc, holder, body, told)?;
    }
    Ok(())
}

/// The fire itself faults.
pub(crate) fn fault(works: &mut Works, f: Fault, told: &mut Followed)
    requires whole { IsWhole works.old }
    ensures fired { firing works.new told.new ≡ faulted_with f (firing works.old told.old) }
    ensures grown { length works.old.core.store ≤ length works.new.core.store }
    ensures whole { IsWhole works.new }
    ensures templates { templates_of works.new ≡ templates_of works.old }
{
    hand_over(works, f);
    told.faulted = true;
}

/// A scope that was made in vain: it and all below it are dead, and their listeners and watches are gone, without an event.
fn discard(works: &mut Works, alloc: Global, scope: ScopeId) -> Result<(), Memory>
    requires whole { IsWhole works.old }
    requires scope { scope.0 < length works.old.core.scopes }
    ensures state { OnOk result (state_of works.new ≡ discarded scope.0 (state_of works.old)) }
    ensures grown { OnOk result (length works.old.core.store ≤ length works.new.core.store) }
    ensures whole { OnOk result (IsWhole works.new) }
    ensures templates { templates_of works.new ≡ templates_of works.old }
{
    bury(&mut works.core, scope)?;
    apply_changes(works, alloc)?;
    Ok(())
}

/// A body is linked on its scope. Where its nodes find no room, the scope was made in vain.
fn link_within(
    works: &mut Works,
    alloc: Global,
    place: &Place,
    origin: &Origin,
    child: ScopeId,
    outsides: &[ScopeId],
    told: &mut Followed,
) -> Result<(), Memory>
    requires whole { IsWhole works.old }
    requires template { IsSome (fragment_for (templates_of works.old) origin.now) }
    requires scope { child.0 < length works.old.core.scopes }
    requires outsides { AreBelow (length works.old.core.scopes) (map (λ s. s.0) outsides.now) }
    requires free { IsFree (place_of place.now) (path_at works.old.core.scopes child.0) (state_of works.old) }
    ensures fired { OnOk result ((f : Fragment) → fragment_for (templates_of works.old) origin.now ≡ Some f → firing works.new told.new ≡ body_linked (place_of place.now) origin.now f child.0 (map (λ s. s.0) outsides.now) (state_of works.old) (firing works.old told.old)) }
    ensures grown { OnOk result (length works.old.core.store ≤ length works.new.core.store) }
    ensures whole { OnOk result (IsWhole works.new) }
    ensures templates { templates_of works.new ≡ templates_of works.old }
{
    let given = copied_scopes(alloc, outsides)?;
    let built = link_at(works, alloc, place, origin, child, given)?;
    told.added = told.added || built.added;
    if let Some(f) = built.fault {
        discard(works, alloc, child)?;
        fault(works, f, told);
    }
    Ok(())
}

/// A body is linked on its scope, unless a template is included where no more may be. Where that is a fault, or its nodes find no room, the
/// scope was made in vain.
pub(crate) fn link_body(
    works: &mut Works,
    alloc: Global,
    place: &Place,
    origin: &Origin,
    child: ScopeId,
    outsides: &[ScopeId],
    told: &mut Followed,
) -> Result<(), Memory>
    requires whole { IsWhole works.old }
    requires template { IsSome (fragment_for (templates_of works.old) origin.now) }
    requires scope { child.0 < length works.old.core.scopes }
    requires outsides { AreBelow (length works.old.core.scopes) (map (λ s. s.0) outsides.now) }
    requires free { IsFree (place_of place.now) (path_at works.old.core.scopes child.0) (state_of works.old) }
    ensures fired { OnOk result ((f : Fragment) → fragment_for (templates_of works.old) origin.now ≡ Some f → firing works.new told.new ≡ body_on (place_of place.now) origin.now f child.0 (map (λ s. s.0) outsides.now) (state_of works.old) (firing works.old told.old)) }
    ensures grown { OnOk result (length works.old.core.store ≤ length works.new.core.store) }
    ensures whole { OnOk result (IsWhole works.new) }
    ensures templates { templates_of works.new ≡ templates_of works.old }
{
    if origin.is_too_deep() {
        discard(works, alloc, child)?;
        fault(works, Fault::Depth, told);
        return Ok(());
    }
    link_within(works, alloc, place, origin, child, outsides, told)
}

/// A body is made in an outlet of an instance, which stands for this.
fn make_body(
    works: &mut Works,
    alloc: Global,
    holder: &Path,
    due: &Due,
    role: Role,
    origin: &Origin,
    told: &mut Followed,
) -> Result<(), Memory>
    requires whole { IsWhole works.old }
    requires outlet { IsAt holder.now (state_of works.old).instances due.now.outlet due.now.scope.0 (map (λ s. s.0) due.now.outsides.items) }
    requires template { IsSome (fragment_for (templates_of works.old) origin.now) }
    ensures fired { OnOk result (firing works.new told.new ≡ filled (in_outlet holder.now due.now.outlet 0 (role_of role)) due.now.scope.0 (map (λ s. s.0) due.now.outsides.items) [] origin.now (firing works.old told.old)) }
    ensures serves { OnOk result (Serves holder.now [] (state_of works.old).instances (state_of works.new).instances) }
    ensures grown { OnOk result (length works.old.core.store ≤ length works.new.core.store) }
    ensures whole { OnOk result (IsWhole works.new) }
    ensures templates { templates_of works.new ≡ templates_of works.old }
{
    let place = Place::Outlet {
        holder: holder.copied()?,
        outlet: due.outlet,
        at: 0,
        role,
    };
    match make_child(works, due.scope)? {
        Some(child) => link_body(
            works,
            alloc,
            &place,
            origin,
            child,
            due.outsides.as_slice(),
            told,
        ),
        None => {
            fault(works, Fault::StoreFull, told);
            Ok(())
        }
    }
}

/// The bodies of an outlet go, unless they stay at the value of its site.
fn empty_outlet(
    works: &mut Works,
    alloc: Global,
    holder: &Path,
    value: &Snap,
    due: &Due,
    told: &mut Followed,
) -> Result<(), Memory>
    requires whole { IsWhole works.old }
    requires held { AreHeldBy holder.now (map body_in due.now.bodies.items) (state_of works.old).instances }
    ensures fired { OnOk result (firing works.new told.new ≡ outlet_emptied holder.now (snap_of value.now) (due_of due.now) (firing works.old told.old)) }
    ensures serves { OnOk result (Serves holder.now (map body_in due.now.bodies.items) (state_of works.old).instances (state_of works.new).instances) }
    ensures grown { OnOk result (length works.old.core.store ≤ length works.new.core.store) }
    ensures whole { OnOk result (IsWhole works.new) }
    ensures templates { templates_of works.new ≡ templates_of works.old }
{
    if !goes(&due.filling, value) {
        return Ok(());
    }
    take_bodies(works, alloc, holder, due.bodies.as_slice(), told)
}

/// The bodies of outlets go, in order, unless they stay at the value of their site.
fn empty_outlets(
    works: &mut Works,
    alloc: Global,
    holder: &Path,
    value: &Snap,
    all: &[Due],
    told: &mut Followed,
) -> Result<(), Memory>
    requires whole { IsWhole works.old }
    requires due { AreDue (templates_of works.old) holder.now (state_of works.old).instances (map due_of all.now) }
    ensures fired { OnOk result (firing works.new told.new ≡ outlets_emptied holder.now (snap_of value.now) (map due_of all.now) (firing works.old told.old)) }
    ensures there { OnOk result (AllByRecursion (IsThere (templates_of works.new) holder.now (state_of works.new).instances) (map due_of all.now)) }
    ensures grown { OnOk result (length works.old.core.store ≤ length works.new.core.store) }
    ensures whole { OnOk result (IsWhole works.new) }
    ensures templates { templates_of works.new ≡ templates_of works.old }
{
    for due in all {
        empty_outlet(works, alloc, holder, value, due, told)?;
    }
    Ok(())
}

/// The body of an outlet is made where it is to be, unless one before it faulted.
fn fill_body(
    works: &mut Works,
    alloc: Global,
    holder: &Path,
    all: &[Due],
    value: &Snap,
    due: &Due,
    told: &mut Followed,
) -> Result<(), Memory>
    requires whole { IsWhole works.old }
    requires there { IsThere (templates_of works.old) holder.now (state_of works.old).instances (due_of due.now) }
    ensures fired { OnOk result (firing works.new told.new ≡ body_filled holder.now (cases_due (map due_of all.now)) (snap_of value.now) (due_of due.now) (firing works.old told.old)) }
    ensures serves { OnOk result (Serves holder.now [] (state_of works.old).instances (state_of works.new).instances) }
    ensures grown { OnOk result (length works.old.core.store ≤ length works.new.core.store) }
    ensures whole { OnOk result (IsWhole works.new) }
    ensures templates { templates_of works.new ≡ templates_of works.old }
{
    if told.faulted || !comes(alloc, all, value, due)? {
        return Ok(());
    }
    let origin = Origin::plain(due.home.copied(alloc)?, body_of(&due.filling));
    make_body(works, alloc, holder, due, Role::Body, &origin, told)
}

/// A body is made with the template of a name in it, if the application has one.
fn include_template(
    works: &mut Works,
    alloc: Global,
    holder: &Path,
    due: &Due,
    body: u32,
    name: Txt,
    told: &mut Followed,
) -> Result<(), Memory>
    requires whole { IsWhole works.old }
    requires outlet { IsAt holder.now (state_of works.old).instances due.now.outlet due.now.scope.0 (map (λ s. s.0) due.now.outsides.items) }
    requires body { IsSome (fragment_in (templates_of works.old) due.now.home.template.0 body) }
    ensures fired { OnOk result (firing works.new told.new ≡ template_filled holder.now (due_of due.now) body name (named_from 0 name (templates_of works.old)) (firing works.old told.old)) }
    ensures serves { OnOk result (Serves holder.now [] (state_of works.old).instances (state_of works.new).instances) }
    ensures grown { OnOk result (length works.old.core.store ≤ length works.new.core.store) }
    ensures whole { OnOk result (IsWhole works.new) }
    ensures templates { templates_of works.new ≡ templates_of works.old }
{
    let Some(template) = works.templates().named(&name) else {
        fault(works, Fault::NoTemplate, told);
        return Ok(());
    };
    let origin = Origin {
        home: due.home.copied(alloc)?,
        fragment: body,
        included: Some(template),
    };
    make_body(works, alloc, holder, due, Role::Named(name), &origin, told)
}

/// The body of an inclusion is made where it is to be, unless one before it faulted.
fn fill_named(
    works: &mut Works,
    alloc: Global,
    holder: &Path,
    all: &[Due],
    value: &Snap,
    due: &Due,
    body: u32,
    told: &mut Followed,
) -> Result<(), Memory>
    requires whole { IsWhole works.old }
    requires outlet { IsAt holder.now (state_of works.old).instances due.now.outlet due.now.scope.0 (map (λ s. s.0) due.now.outsides.items) }
    requires body { IsSome (fragment_in (templates_of works.old) due.now.home.template.0 body) }
    ensures fired { OnOk result (firing works.new told.new ≡ named_filled holder.now (cases_due (map due_of all.now)) (snap_of value.now) (due_of due.now) body (firing works.old told.old)) }
    ensures serves { OnOk result (Serves holder.now [] (state_of works.old).instances (state_of works.new).instances) }
    ensures grown { OnOk result (length works.old.core.store ≤ length works.new.core.store) }
    ensures whole { OnOk result (IsWhole works.new) }
    ensures templates { templates_of works.new ≡ templates_of works.old }
{
    if told.faulted {
        return Ok(());
    }
    if !comes(alloc, all, value, due)? {
        return Ok(());
    }
    let name = kept_as_text(alloc, value.view())?;
    include_template(works, alloc, holder, due, body, name, told)
}

/// An outlet gets the body or the rows that it is to have, unless one before it faulted.
fn fill_outlet(
    works: &mut Works,
    alloc: Global,
    holder: &Path,
    all: &[Due],
    value: &Snap,
    due: &Due,
    told: &mut Followed,
) -> Result<(), Memory>
    requires whole { IsWhole works.old }
    requires there { IsThere (templates_of works.old) holder.now (state_of works.old).instances (due_of due.now) }
    requires value { ViewStands (length works.old.core.store) (snap_of value.now) }
    ensures fired { OnOk result (firing works.new told.new ≡ outlet_filled holder.now (cases_due (map due_of all.now)) (snap_of value.now) (due_of due.now) (firing works.old told.old)) }
    ensures keeps { OnOk result (Keeps holder.now (state_of works.old).instances (state_of works.new).instances) }
    ensures grown { OnOk result (length works.old.core.store ≤ length works.new.core.store) }
    ensures whole { OnOk result (IsWhole works.new) }
    ensures templates { templates_of works.new ≡ templates_of works.old }
{
    match &due.filling {
        Filling::BodyIf(_) => fill_body(works, alloc, holder, all, value, due, told),
        Filling::OnCase(_, _) => fill_body(works, alloc, holder, all, value, due, told),
        Filling::ForEach(repeated, body) => {
            if told.faulted {
                return Ok(());
            }
            let spot = Spot {
                holder,
                outlet: due.outlet,
                origin: Origin::plain(due.home.copied(alloc)?, *body),
                scope: due.scope,
                outsides: due.outsides.as_slice(),
            };
            fire_repeat(works, alloc, &spot, repeated, value.view(), told)
        }
        Filling::ByName(body) => { fill_named(works, alloc, holder, all, value, due, *body, told) }
    }
}

/// The bodies of outlets are made where they are to be, in order, up to the first fault.
fn fill_outlets(
    works: &mut Works,
    alloc: Global,
    holder: &Path,
    value: &Snap,
    all: &[Due],
    told: &mut Followed,
) -> Result<(), Memory>
    requires whole { IsWhole works.old }
    requires there { AllByRecursion (IsThere (templates_of works.old) holder.now (state_of works.old).instances) (map due_of all.now) }
    requires value { ViewStands (length works.old.core.store) (snap_of value.now) }
    ensures fired { OnOk result (firing works.new told.new ≡ outlets_filled holder.now (cases_due (map due_of all.now)) (snap_of value.now) (map due_of all.now) (firing works.old told.old)) }
    ensures whole { OnOk result (IsWhole works.new) }
    ensures templates { templates_of works.new ≡ templates_of works.old }
{
    for due in all {
        fill_outlet(works, alloc, holder, all, value, due, told)?;
    }
    Ok(())
}

/// Outlets that a site fills get what its value calls for: bodies that are not to stay go, and then those that come are made.
pub(crate) fn fire_outlets(
    works: &mut Works,
    alloc: Global,
    holder: &Path,
    all: &[Due],
    value: &Snap,
) -> Result<Followed, Memory>
    requires whole { IsWhole works.old }
    requires due { AreDue (templates_of works.old) holder.now (state_of works.old).instances (map due_of all.now) }
    requires value { ViewStands (length works.old.core.store) (snap_of value.now) }
    ensures fired { IfOk result (λ f. firing works.new f ≡ outlets_fired holder.now (snap_of value.now) (map due_of all.now) (begins_firing (state_of works.old))) }
    ensures whole { OnOk result (IsWhole works.new) }
    ensures templates { templates_of works.new ≡ templates_of works.old }
{
    let mut told = Followed {
        faulted: false,
        added: false,
    };
    empty_outlets(works, alloc, holder, value, all, &mut told)?;
    fill_outlets(works, alloc, holder, value, all, &mut told)?;
    Ok(told)
}
