//! The rendering of an instance: the bodies in it first, and then its parts round them.
ghost use Rattle.std.specs.Prelude.{◌≡◌, ◌==◌, [], true, map, option_map, slice_get, IfOk, IfErr, if◌then◌else◌};
ghost use Rattle.ng_base.specs.Faults.{is_memory};
ghost use Rattle.ng_base.specs.Meets.{Gives};
ghost use Rattle.std.specs.List.{list_any};
ghost use Rattle.ng_blocks.specs.Switching.{matches};
ghost use Rattle.ng_drawing.specs.Cases.{case_in, cases_of, is_chosen as is_chosen_of, is_chosen_by as is_chosen_by_of, calls_for as calls_for_of};
ghost use Rattle.ng_drawing.specs.Looks.{is_kept_true as is_kept_true_of};
ghost use Rattle.ng_drawing.specs.Roles.{entries_kept, are_rows as are_rows_of};
ghost use Rattle.ng_drawing.specs.RolesOf.{entries_of, role_of};
ghost use Rattle.ng_drawing.specs.Rows.{is_as_called as is_as_called_of, is_included as is_included_of, is_filled as is_filled_of};
ghost use Rattle.ng_drawing.specs.Instance.{rests_in, outlet_now, outlet_at, rendering, rendering_all, rendering_in, outlets_from};
ghost use Rattle.ng_drawing.specs.InstanceOf.{state_of, instance_of, group_of as bodies_of, instances_of};
ghost use Rattle.ng_html.specs.Seen.{forest_of};
ghost use Rattle.ng_drawing.specs.Named.{fragments_in};
ghost use Rattle.ng_compose.specs.Kept.{templates_of};
ghost use Rattle.ng_parts.specs.FragmentOf.{outlet_of, outlets_of, filling_of};
ghost use Rattle.ng_value.specs.Snaps.{snap_of};
ghost use Rattle.ng_render.specs.Free.{is_want};
ghost use Rattle.ng_render.specs.OverOf.{group_of, kept_over, Stands, InstanceStands, InstancesStand, OutletsStand};

use crate::groups::{append, group_from};
use crate::over::{Group, Over};
use crate::parts::rendered;
use crate::sites::shown_now;
use ng_base::fault::{Fault, Memory};
use ng_base::txt::Txt;
use ng_compose::Templates;
use ng_drawing::cases::{has_text, kept_as_text};
use ng_drawing::instance::{Instance, Instances, SiteState};
use ng_drawing::roles::{Entry, Role, are_rows, entries_in, is_one_named};
use ng_html::forest::Forest;
use ng_parts::{Filling, Outlet};
use ng_scopes::scopes::Scopes;
use ng_store::store::Store;
use ng_value::operators::truthy;
use ng_value::snapshot::Snap;
use std::alloc::{AllocError, Global};

/// The templates, the data and the scopes that all instances of a page share.
#[derive(Clone, Copy)]
struct Ground<'a> {
    alloc: Global,
    all: &'a Templates,
    store: &'a Store,
    scopes: &'a Scopes,
}

/// Whether a value was kept that counts as true.
fn is_kept_true(kept: &Option<Snap>) -> bool
    ensures { result ≡ is_kept_true_of (option_map snap_of kept.now) }
{
    match kept {
        None => false,
        Some(kept) => truthy(kept.view()),
    }
}

/// Whether the site of a number rests.
fn rests(states: &[SiteState], n: u32) -> bool
    ensures { result ≡ rests_in (map state_of states.now) n }
{
    match states.get(n as usize) {
        None => true,
        Some(state) => state.rests,
    }
}

/// Whether an outlet is that of a case of the switch of a site and has a text.
fn case_has(outlet: &Outlet, site: u32, value: &Txt) -> bool
    ensures { result ≡ list_any (matches value.now) (if outlet.now.site == site then case_in (filling_of outlet.now.filling) else []) }
{
    if outlet.site != site {
        return false;
    }
    match &outlet.filling {
        Filling::BodyIf(_) => false,
        Filling::OnCase(case, _) => has_text(value, case),
        Filling::ForEach(_, _) => false,
        Filling::ByName(_) => false,
    }
}

/// Whether a case of the switch of a site has a text.
#[tactic(auto, using(ng_drawing::proofs::Choices::any_case))]
fn any_has(outlets: &[Outlet], site: u32, value: &Txt) -> bool
    ensures { result ≡ list_any (matches value.now) (cases_of (outlets_of outlets.now) site) }
{
    for outlet in outlets {
        if case_has(outlet, site, value) {
            return true;
        }
    }
    false
}

/// Whether a case is shown beside those of the switch of a site, where the value has this text.
fn is_chosen(outlets: &[Outlet], site: u32, value: &Txt, case: &Option<Txt>) -> bool
    ensures { result ≡ is_chosen_of (cases_of (outlets_of outlets.now) site) value.now case.now }
{
    match case {
        Some(_) => has_text(value, case),
        None => !any_has(outlets, site, value),
    }
}

/// Whether a value of the switch of a site calls for a case.
fn is_chosen_by(
    alloc: Global,
    outlets: &[Outlet],
    site: u32,
    case: &Option<Txt>,
    shown: &Option<Snap>,
) -> Result<bool, AllocError>
    ensures { IfOk result (λ b. b ≡ is_chosen_by_of (cases_of (outlets_of outlets.now) site) (option_map snap_of shown.now) case.now) }
{
    match shown {
        None => Ok(false),
        Some(snap) => {
            let value = kept_as_text(alloc, snap.view())?;
            Ok(is_chosen(outlets, site, &value, case))
        }
    }
}

/// Whether a value of its site calls for the body of an outlet, which is one of these.
fn calls_for(
    alloc: Global,
    outlets: &[Outlet],
    outlet: &Outlet,
    shown: &Option<Snap>,
) -> Result<bool, AllocError>
    ensures { IfOk result (λ b. b ≡ calls_for_of (cases_of (outlets_of outlets.now) outlet.now.site) (filling_of outlet.now.filling) (option_map snap_of shown.now)) }
{
    match &outlet.filling {
        Filling::BodyIf(_) => Ok(is_kept_true(shown)),
        Filling::OnCase(case, _) => is_chosen_by(alloc, outlets, outlet.site, case, shown),
        Filling::ForEach(_, _) => Ok(false),
        Filling::ByName(_) => Ok(is_kept_true(shown)),
    }
}

/// Whether bodies stand exactly where they are called for.
fn is_as_called(called: bool, roles: &[Role]) -> bool
    ensures { result ≡ is_as_called_of called (map role_of roles.now) }
{
    if called {
        !roles.is_empty()
    } else {
        roles.is_empty()
    }
}

/// The entries of a collection, of which this is shown.
fn entries_shown(alloc: Global, shown: &Option<Snap>) -> Result<Vec<Entry>, Memory>
    ensures { IfOk result (λ v. entries_of v.items ≡ entries_kept (option_map snap_of shown.now)) }
{
    match shown {
        None => Ok(Vec::new(alloc)),
        Some(snap) => entries_in(alloc, snap.view()),
    }
}

/// Whether the template that a value names is included, or none where it names none.
fn is_included(alloc: Global, shown: &Option<Snap>, roles: &[Role]) -> Result<bool, Memory>
    ensures { IfOk result (λ b. b ≡ is_included_of (option_map snap_of shown.now) (map role_of roles.now)) }
{
    match shown {
        None => Ok(is_as_called(false, roles)),
        Some(snap) => {
            if !truthy(snap.view()) {
                return Ok(is_as_called(false, roles));
            }
            let name = kept_as_text(alloc, snap.view())?;
            Ok(is_one_named(&name, roles))
        }
    }
}

/// Whether a body stands in an outlet, which is one of these, exactly where a value of its site calls for it.
fn is_called_for(
    alloc: Global,
    outlets: &[Outlet],
    outlet: &Outlet,
    shown: &Option<Snap>,
    roles: &[Role],
) -> Result<bool, Memory>
    ensures { IfOk result (λ b. b ≡ is_as_called_of (calls_for_of (cases_of (outlets_of outlets.now) outlet.now.site) (filling_of outlet.now.filling) (option_map snap_of shown.now)) (map role_of roles.now)) }
{
    let called = calls_for(alloc, outlets, outlet, shown)?;
    Ok(is_as_called(called, roles))
}

/// Whether a collection has these rows.
fn has_rows(alloc: Global, shown: &Option<Snap>, roles: &[Role]) -> Result<bool, Memory>
    ensures { IfOk result (λ b. b ≡ are_rows_of (entries_kept (option_map snap_of shown.now)) (map role_of roles.now)) }
{
    let entries = entries_shown(alloc, shown)?;
    Ok(are_rows(entries.as_slice(), roles))
}

/// Whether the bodies that stand in an outlet, which is one of these, are those that a value of its site calls for.
fn is_filled(
    alloc: Global,
    outlets: &[Outlet],
    outlet: &Outlet,
    shown: &Option<Snap>,
    roles: &[Role],
) -> Result<bool, Memory>
    ensures { IfOk result (λ b. b ≡ is_filled_of (cases_of (outlets_of outlets.now) outlet.now.site) (filling_of outlet.now.filling) (option_map snap_of shown.now) (map role_of roles.now)) }
{
    match &outlet.filling {
        Filling::BodyIf(_) => is_called_for(alloc, outlets, outlet, shown, roles),
        Filling::OnCase(_, _) => is_called_for(alloc, outlets, outlet, shown, roles),
        Filling::ForEach(_, _) => has_rows(alloc, shown, roles),
        Filling::ByName(_) => is_included(alloc, shown, roles),
    }
}

/// What fills an outlet of which this was rendered, where it is what the value of the site calls for now.
fn filled(
    over: &Over<'_>,
    outlets: &[Outlet],
    outlet: &Outlet,
    roles: &[Role],
    group: Group,
) -> Result<Group, Memory>
    requires { Stands over.now }
    ensures { IfOk result (λ g. group_of g ≡ outlet_now (kept_over over.now) (map state_of over.now.states.now) (cases_of (outlets_of outlets.now)) (outlet_of outlet.now) (map role_of roles.now) (group_of group)) }
{
    if rests(over.states, outlet.site) {
        return Ok(group);
    }
    match shown_now(over, outlet.site) {
        Err(Fault::Memory(memory)) => Err(memory),
        Err(fault) => Ok(Group::Faulted(fault)),
        Ok(shown) => {
            if is_filled(over.alloc, outlets, outlet, &shown, roles)? {
                Ok(group)
            } else {
                Ok(Group::Unfit)
            }
        }
    }
}

/// What fills the outlet of a number, of which this was rendered; one that the fragment doesn't have is filled anyhow.
fn filled_at(
    over: &Over<'_>,
    outlets: &[Outlet],
    k: usize,
    roles: &[Role],
    group: Group,
) -> Result<Group, Memory>
    requires { Stands over.now }
    ensures { IfOk result (λ g. group_of g ≡ outlet_at (kept_over over.now) (map state_of over.now.states.now) (cases_of (outlets_of outlets.now)) (slice_get (outlets_of outlets.now) k) (map role_of roles.now) (group_of group)) }
{
    match outlets.get(k) {
        None => Ok(group),
        Some(outlet) => filled(over, outlets, outlet, roles, group),
    }
}

/// The rendering of an instance.
#[cycle(instance)]
fn rendered_instance(ground: &Ground<'_>, i: &Instance) -> Result<Option<Forest>, Fault>
    requires { InstanceStands ground.now.store.now ground.now.scopes.now (instance_of (fragments_in (templates_of ground.now.all.now)) i.now) }
    ensures { Gives is_memory (option_map forest_of) (rendering ground.now.store.now ground.now.scopes.now (instance_of (fragments_in (templates_of ground.now.all.now)) i.now)) result }
{
    let Some(whole) = ground.all.whole(ground.alloc, &i.origin)? else {
        return Ok(Some(Forest::new(ground.alloc)));
    };
    let fragment = whole.fragment();
    let over = Over {
        alloc: ground.alloc,
        sites: fragment.sites(),
        states: i.sites.as_slice(),
        store: ground.store,
        scopes: ground.scopes,
        known: &[],
        groups: &[],
    };
    let groups = rendered_outlets(ground, i.outlets.as_slice(), &over, fragment.outlets())?;
    let over = Over {
        groups: groups.as_slice(),
        ..over
    };
    rendered(&over, fragment.parts())
}

/// The rendering of the bodies of an outlet.
#[cycle(instance)]
fn rendered_all(ground: &Ground<'_>, bodies: &Instances) -> Result<Option<Forest>, Fault>
    requires { InstancesStand ground.now.store.now ground.now.scopes.now (instances_of (fragments_in (templates_of ground.now.all.now)) bodies.now) }
    ensures { Gives is_memory (option_map forest_of) (rendering_all ground.now.store.now ground.now.scopes.now (instances_of (fragments_in (templates_of ground.now.all.now)) bodies.now)) result }
{
    let mut forest = Forest::new(ground.alloc);
    for body in &bodies.items {
        let Some(more) = rendered_instance(ground, body)? else {
            return Ok(None);
        };
        append(&mut forest, more)?;
    }
    Ok(Some(forest))
}

/// What fills each outlet.
#[cycle(instance)]
fn rendered_outlets(
    ground: &Ground<'_>,
    bodies: &[Instances],
    over: &Over<'_>,
    outlets: &[Outlet],
) -> Result<Vec<Group>, Fault>
    requires over { Stands over.now }
    requires stands { OutletsStand ground.now.store.now ground.now.scopes.now (outlets_from (map (bodies_of (fragments_in (templates_of ground.now.all.now))) bodies.now)) }
    ensures groups { IfOk result (λ gs. map group_of gs.items ≡ rendering_in ground.now.store.now ground.now.scopes.now (kept_over over.now) (map state_of over.now.states.now) (cases_of (outlets_of outlets.now)) (outlets_of outlets.now) (outlets_from (map (bodies_of (fragments_in (templates_of ground.now.all.now))) bodies.now))) }
    ensures faults { IfErr result (λ e. is_memory e ≡ true) }
{
    let mut groups = Vec::new(ground.alloc);
    for (k, these) in bodies.iter().enumerate() {
        let group = group_from(rendered_all(ground, these))?;
        groups.push(filled_at(over, outlets, k, these.roles.as_slice(), group)?)?;
    }
    Ok(groups)
}

/// The document that an instance shows over the data as it stands, computed afresh (guide: Templates). A site that rests shows what it
/// has kept. What stands first in document order ends it: a fault, or a block that has not the bodies that its value calls for.
pub fn render(
    alloc: Global,
    all: &Templates,
    store: &Store,
    scopes: &Scopes,
    i: &Instance,
) -> Result<Option<Forest>, Fault>
    requires { InstanceStands store.now scopes.now (instance_of (fragments_in (templates_of all.now)) i.now) }
    ensures { Gives is_want (option_map forest_of) (rendering store.now scopes.now (instance_of (fragments_in (templates_of all.now)) i.now)) result }
{
    let ground = Ground {
        alloc,
        all,
        store,
        scopes,
    };
    match rendered_instance(&ground, i) {
        Ok(document) => Ok(document),
        // Nothing that counts stands behind a document that is computed afresh.
        Err(Fault::Memory(_)) => Err(Fault::Memory(Memory::Refused)),
        Err(fault) => Err(fault),
    }
}
