//! Where an instance stands, in which order its parts are linked, and what is laid out of it.
ghost use Rattle.std.specs.Prelude.{List, ◌≡◌, ◌<◌, ◌+◌, ◌≤◌, length, map, option_map, Some, Ok, true, IfOk, OnOk, IfErr};
ghost use Rattle.std.specs.List.{AllByRecursion, list_any};
ghost use Rattle.ng_base.specs.Faults.{is_memory};
ghost use Rattle.ng_base.specs.declared.path.Key.{Key};
ghost use Rattle.ng_dom.specs.Document.{rooms, next_name, live_count};
ghost use Rattle.ng_dom.specs.Drawing.{Stands, shows};
ghost use Rattle.ng_dom.specs.Nodes.{names_of};
ghost use Rattle.ng_dom.specs.Rooms.{ReadsIn};
ghost use Rattle.ng_drawing.specs.Nodes.{nodes, node_limit};
ghost use Rattle.ng_drawing.specs.Template.{Site as SiteOf, OutletScope as SpotOf};
ghost use Rattle.ng_parse.specs.ProgramOf.{program};
ghost use Rattle.ng_parts.specs.FragmentOf.{spot_of, fragment_of};
ghost use Rattle.ng_parts.specs.SiteOf.{site_of};
ghost use Rattle.ng_drawing.specs.Named.{Named};
ghost use Rattle.ng_parts.specs.Seen.{parts_of};
ghost use Rattle.ng_build.specs.Building.{unset, parent_name, IsThere, IsPut, IsStood};
ghost use Rattle.ng_build.specs.Linking.{is_binds, steps};
ghost use Rattle.ng_instances.specs.PlaceOf.{place_of, spot_from, spot_for};
ghost use Rattle.ng_instances.specs.BoundOf.{ground_of};
ghost use Rattle.ng_instances.specs.Laid.{IsLaid};
ghost use Rattle.ng_instances.specs.Registering.{IsGrounded};
ghost use Rattle.ng_build.specs.Shape.{keys_by, shape, unfilled, holes};
ghost use Rattle.ng_instances.specs.InstanceOf.{outlet_of, instances_of};
ghost use Rattle.ng_build.specs.StepOf.{step_of, IsWatchable};

use crate::instances::{Bound, Inner, Linked, OutletState};
use crate::outlets::{Ground, outlet_in, outlets_of};
pub use crate::registering::Registered;
use crate::registering::{inner_of, site_keys, site_marks};
use ng_base::fault::{Fault, Memory};
use ng_base::name::{NodeId, ScopeId, Serial};
use ng_base::path::{Key, Path};
use ng_build::building::build_parts;
use ng_build::controlled::ControlHere;
use ng_build::controls::controls_of;
use ng_build::handling::{handlers_of, scopes_of};
use ng_build::ordering::{LinkStep, add_parts};
use ng_core::core_state::Core;
use ng_dom::dom::Dom;
use ng_dom::record::Group;
use ng_drawing::origin::Origin;
use ng_drawing::roles::Role;
use ng_parse::Program;
use ng_parts::acts::Handler;
use ng_parts::{Fragment, OutletScope, Parts, Site, SiteScopes};
use std::alloc::{AllocError, Global};
use std::collections::BTreeMap;

/// Where an instance stands: it is the page's, or a body in an outlet of the instance on a path, which stands for this, and before the one
/// at a place of those that are there, or at the end.
#[derive(Drop)]
pub enum Place {
    Top,
    Outlet {
        holder: Path,
        outlet: usize,
        at: u32,
        role: Role,
    },
}

/// Where the nodes of an instance are built: at the top, or under the anchor of an outlet before the body at a place.
#[derive(Drop)]
pub struct Spot {
    pub parent: Option<NodeId>,
    pub at: u32,
}

/// The spot at a place of an outlet.
fn spot_from(found: Option<&OutletState>, at: u32) -> Spot
    ensures { (parent_name result.parent, result.at) ≡ spot_from at (option_map (λ x. outlet_of x.now) found.entry) }
{
    match found {
        None => Spot {
            parent: None,
            at: 0,
        },
        Some(state) => Spot {
            parent: Some(NodeId {
                slot: 0,
                made: Serial(state.anchor),
            }),
            at,
        },
    }
}

/// Where the nodes of an instance are built.
pub fn spot_for(instances: &BTreeMap<Path, Linked>, place: &Place) -> Spot
    ensures { (all : List Named) → (parent_name result.parent, result.at) ≡ spot_for (place_of place.now) (instances_of all instances.now.entries) }
{
    match place {
        Place::Top => Spot {
            parent: None,
            at: 0,
        },
        Place::Outlet {
            holder,
            outlet,
            at,
            ..
        } => spot_from(outlet_in(instances, holder, *outlet), *at),
    }
}

/// What was built apart stands.
fn stand_at(dom: &mut Dom, spot: &Spot, group: Group) -> Result<(), Memory>
    ensures { OnOk result ((ts : Stands) → names_of (shows unset ts) ≡ group.nodes.items → ReadsIn (rooms dom.old) (parent_name spot.now.parent) (shows unset ts) → IsPut (parent_name spot.now.parent) spot.now.at ts dom.old dom.new) }
{
    match spot.parent {
        None => {
            dom.show(group);
            Ok(())
        }
        Some(anchor) => dom.insert_group(anchor, spot.at, group),
    }
}

/// The nodes of parts stand. The answer is the node of each site.
pub fn link_nodes(
    alloc: Global,
    dom: &mut Dom,
    spot: &Spot,
    keys: &[Key],
    parts: &Parts,
) -> Result<Vec<u64>, Fault>
    requires there { IsThere dom.old spot.now.parent }
    requires room { live_count dom.old + nodes (parts_of parts.now) ≤ node_limit }
    ensures stood { OnOk result (IsStood (parent_name spot.now.parent) spot.now.at (shape (keys_by keys.now) (next_name dom.old) unfilled (parts_of parts.now)) (nodes (parts_of parts.now)) dom.old dom.new) }
    ensures holes { IfOk result (λ h. h.items ≡ holes (next_name dom.old) (parts_of parts.now)) }
    ensures faults { IfErr result (λ e. is_memory e ≡ true) }
{
    let mut spots = Vec::new(alloc);
    let group = build_parts(alloc, dom, keys, &mut spots, spot.parent, parts.as_slice())?;
    stand_at(dom, spot, group)?;
    Ok(spots)
}

/// The order in which parts are linked.
pub fn parts_order(alloc: Global, parts: &Parts) -> Result<Vec<LinkStep>, Memory>
    ensures { IfOk result (λ v. map step_of v.items ≡ steps (parts_of parts.now)) }
{
    let mut order = Vec::new(alloc);
    add_parts(&mut order, alloc, parts.as_slice())?;
    Ok(order)
}

/// The steps of a linking, and the programs of the sites, where bindings are among them.
#[derive(Drop)]
pub struct Order {
    pub steps: Vec<LinkStep>,
    pub programs: Vec<Program>,
    /// The scopes of outlets by their numbers.
    pub outlets: Vec<u32>,
}

/// The programs of sites, which are shared.
fn copied_programs(alloc: Global, sites: &[Site]) -> Result<Vec<Program>, Memory>
    ensures programs { IfOk result (λ v. map program v.items ≡ map (λ (x : SiteOf). x.program) (map site_of sites.now)) }
    ensures pure { IfOk result (λ v. AllByRecursion IsWatchable (map program v.items)) }
{
    let mut programs = Vec::new(alloc);
    for site in sites {
        programs.push(site.program().copied(alloc)?)?;
    }
    Ok(programs)
}

/// Whether a property is bound.
fn is_binds(step: &LinkStep) -> bool
    ensures { result ≡ is_binds (step_of step.now) }
{
    match step {
        LinkStep::Binds(_, _, _) => true,
        _ => false,
    }
}

/// Whether properties are bound.
fn has_binds(steps: &[LinkStep]) -> bool
    ensures { result ≡ list_any is_binds (map step_of steps.now) }
{
    for step in steps {
        if is_binds(step) {
            return true;
        }
    }
    false
}

/// The programs of the sites of a fragment, where properties are bound.
pub fn site_programs(
    alloc: Global,
    steps: &[LinkStep],
    fragment: &Fragment,
) -> Result<Vec<Program>, Memory>
    ensures programs { IfOk result (λ v. list_any is_binds (map step_of steps.now) ≡ true → map program v.items ≡ map (λ (x : SiteOf). x.program) (fragment_of fragment.now).sites) }
    ensures pure { IfOk result (λ v. AllByRecursion IsWatchable (map program v.items)) }
{
    if !has_binds(steps) {
        return Ok(Vec::new(alloc));
    }
    copied_programs(alloc, fragment.sites())
}

/// The scopes of outlets.
pub fn outlet_scopes(alloc: Global, spots: &[OutletScope]) -> Result<Vec<u32>, AllocError>
    ensures { IfOk result (λ v. v.items ≡ map (λ (s : SpotOf). s.scope) (map spot_of spots.now)) }
{
    let mut scopes = Vec::new(alloc);
    for spot in spots {
        scopes.push(spot.scope)?;
    }
    Ok(scopes)
}

/// What an instance has beside its nodes and watchers, with the keys of its sites.
#[derive(Drop)]
pub struct Laid {
    pub handlers: BTreeMap<u64, Vec<Handler>>,
    pub controls: BTreeMap<u64, ControlHere>,
    pub outlets: Vec<OutletState>,
    pub inner: Vec<Inner>,
    pub marks: BTreeMap<u64, SiteScopes>,
    pub elements: BTreeMap<u64, u32>,
    pub keys: Vec<Key>,
}

/// That of a fragment on a scope, whose nodes have the names from one on.
pub fn lay_out(
    alloc: Global,
    core: &Core,
    origin: &Origin,
    scope: ScopeId,
    ground: &Ground<'_>,
    fragment: &Fragment,
    serials: &[u64],
    node: u64,
) -> Result<Laid, Memory>
    requires scope { scope.0 < length core.now.scopes }
    requires scopes { AllByRecursion (λ n. n < length core.now.scopes) (ground_of ground.now).scopes }
    requires grounded { IsGrounded (length core.now.scopes) (ground_of ground.now) }
    ensures { IfOk result (IsLaid core.now.scopes origin.now scope.0 (fragment_of fragment.now) (ground_of ground.now) serials.now node) }
{
    let parts = fragment.parts().as_slice();
    let handlers = handlers_of(alloc, node, parts)?;
    let elements = scopes_of(alloc, node, parts)?;
    let outlets = outlets_of(alloc, origin, ground, serials, fragment, node)?;
    let keys = site_keys(alloc, core, ground, fragment, serials)?;
    let path = core.scopes.path(scope);
    let controls = controls_of(alloc, path, keys.as_slice(), node, parts)?;
    let inner = inner_of(alloc, core, ground.scopes)?;
    let marks = site_marks(alloc, fragment, serials)?;
    Ok(Laid {
        handlers,
        controls,
        outlets,
        inner,
        marks,
        elements,
        keys,
    })
}

/// An instance of all that it has.
pub fn linked_with(
    origin: Origin,
    scope: ScopeId,
    spots: BTreeMap<u64, u64>,
    node: u64,
    laid: Laid,
    bounds: BTreeMap<u64, Bound>,
) -> Linked
    ensures { result ≡ record { origin = origin; scope = scope; spots = spots; node = node; handlers = laid.handlers; controls = laid.controls; outlets = laid.outlets; inner = laid.inner; marks = laid.marks; elements = laid.elements; bounds = bounds } }
{
    let Laid {
        handlers,
        controls,
        outlets,
        inner,
        marks,
        elements,
        ..
    } = laid;
    Linked {
        origin,
        scope,
        spots,
        node,
        handlers,
        controls,
        outlets,
        inner,
        marks,
        elements,
        bounds,
    }
}
