//! Linking: a fragment is placed (guide: HTML Compiler, "How directives are compiled").
ghost use Rattle.std.specs.Prelude.{List, ◌≡◌, ◌<◌, ◌+◌, ◌≤◌, length, Some, Ok, true, IfOk, OnOk, IfErr, IsSome};
ghost use Rattle.std.specs.BTreeMap.{insert_entry};
ghost use Rattle.std.specs.Ordering.{nat_cmp};
ghost use Rattle.ng_base.specs.Faults.{is_memory};
ghost use Rattle.ng_base.specs.Order.{path_cmp};
ghost use Rattle.ng_base.specs.declared.path.Key.{Key};
ghost use Rattle.ng_behaviour.specs.ScopeObjects.{AreAmong};
ghost use Rattle.ng_behaviour.specs.Scopes.{path_at};
ghost use Rattle.ng_dom.specs.Document.{live_count};
ghost use Rattle.ng_drawing.specs.Nodes.{nodes, node_limit};
ghost use Rattle.ng_drawing.specs.Template.{Fragment as FragmentOf};
ghost use Rattle.ng_drawing.specs.Named.{Named, fragment_for};
ghost use Rattle.ng_build.specs.Building.{parent_name, IsThere};
ghost use Rattle.ng_link.specs.Calls.{taken_in, placed_on};
ghost use Rattle.ng_instances.specs.Instances.{Inners};
ghost use Rattle.ng_build.specs.Linking.{steps};
ghost use Rattle.ng_instances.specs.PlaceOf.{place_of, spot_for};
ghost use Rattle.ng_link.specs.FreePlace.{IsFree};
ghost use Rattle.ng_instances.specs.BoundOf.{registered_of};
ghost use Rattle.ng_link.specs.Placing.{IsPrepared, IsRegistered};
ghost use Rattle.ng_instances.specs.Registering.{any_lives};
ghost use Rattle.ng_build.specs.Shape.{linked};
ghost use Rattle.ng_link.specs.Standing.{IsStanding};
ghost use Rattle.ng_instances.specs.InstanceOf.{instances_of, spot_in};
ghost use Rattle.ng_link.specs.State.{state_of, templates_of, live_nodes};
ghost use Rattle.ng_link.specs.OrderOf.{IsOrderOf};

use crate::works::Works;
use ng_base::fault::{Fault, Memory};
use ng_base::name::ScopeId;
use ng_base::path::{Key, Path};
use ng_build::controls::begin_controls;
use ng_drawing::origin::Origin;
use ng_instances::instances::{Linked, SharedBody};
use ng_instances::linking::{
    Order, Place, Spot, lay_out, link_nodes, linked_with, outlet_scopes, parts_order,
    site_programs, spot_for,
};
use ng_instances::outlets::{Ground, take_in};
use ng_instances::placing::{spots_of, watch_all};
pub use ng_instances::registering::Registered;
use ng_instances::registering::{any_lives, note_inner, site_rows};

impl Works {
    /// The order in which a fragment is linked.
    pub fn link_order(&self, origin: &Origin) -> Result<Order, Memory>
        ensures { (f : FragmentOf) → fragment_for (templates_of self.now) origin.now ≡ Some f → IfOk result (IsOrderOf f) }
    {
        match self.templates.whole(self.alloc, origin)? {
            None => Ok(Order {
                steps: Vec::new(self.alloc),
                programs: Vec::new(self.alloc),
                outlets: Vec::new(self.alloc),
            }),
            Some(whole) => {
                let fragment = whole.fragment();
                let steps = parts_order(self.alloc, fragment.parts())?;
                let programs = site_programs(self.alloc, steps.as_slice(), fragment)?;
                let outlets = outlet_scopes(self.alloc, fragment.spots())?;
                Ok(Order {
                    steps,
                    programs,
                    outlets,
                })
            }
        }
    }

    /// How many nodes stand.
    pub fn live_nodes(&self) -> usize
        requires stands { IsStanding self.now }
        ensures { result ≡ live_nodes (state_of self.now) }
    {
        self.dom.live()
    }

    /// A fragment whose steps are done stands at a place on a scope: its sites are watched, its nodes stand, and
    /// its instance is noted (guide: HTML Compiler, "How directives are compiled"). The answer is whether a site is on a scope that lives.
    pub fn place(
        &mut self,
        place: &Place,
        origin: &Origin,
        scope: ScopeId,
        made: Registered,
    ) -> Result<bool, Fault>
        requires template { IsSome (fragment_for (templates_of self.old) origin.now) }
        requires scope { scope.0 < length (state_of self.old).core.scopes }
        requires objects { AreAmong (length (state_of self.old).core.objects) (state_of self.old).core.scopes }
        requires free { IsFree (place_of place.now) (path_at (state_of self.old).core.scopes scope.0) (state_of self.old) }
        requires stands { IsStanding self.old }
        requires room { (f : FragmentOf) → fragment_for (templates_of self.old) origin.now ≡ Some f → linked (live_nodes (state_of self.old)) f.parts ≡ Ok tt }
        requires made { (f : FragmentOf) → fragment_for (templates_of self.old) origin.now ≡ Some f → IsRegistered f scope.0 (registered_of made) (state_of self.old) }
        ensures state { OnOk result ((f : FragmentOf) → fragment_for (templates_of self.old) origin.now ≡ Some f → state_of self.new ≡ placed_on (place_of place.now) origin.now scope.0 f (registered_of made) (state_of self.old)) }
        ensures core { OnOk result (self.new.core ≡ self.old.core) }
        ensures lives { IfOk result (λ b. (f : FragmentOf) → fragment_for (templates_of self.old) origin.now ≡ Some f → b ≡ any_lives (state_of self.old).core.scopes f (registered_of made).at_hand 0 (registered_of made).serials) }
        ensures stands { OnOk result (IsStanding self.new) }
        ensures templates { templates_of self.new ≡ templates_of self.old }
        ensures faults { IfErr result (λ e. is_memory e ≡ true) }
    {
        let _all_stand = self.dom.live();
        let path = self.core.scopes.path(scope).copied()?;
        let spot = spot_for(&self.instances, place);
        let one = self.build(&spot, origin, scope, made)?;
        begin_controls(&mut self.controls, self.alloc, &one.controls)?;
        let lives = any_lives(&self.core, &one);
        note_inner(&mut self.inner, &path, one.inner.as_slice())?;
        self.note(place, path, one)?;
        Ok(lives)
    }

    /// The nodes of a fragment stand, and its sites are watched. The answer is its instance, which is to be noted.
    fn build(
        &mut self,
        spot: &Spot,
        origin: &Origin,
        scope: ScopeId,
        made: Registered,
    ) -> Result<Linked, Fault>
        requires template { IsSome (fragment_for (templates_of self.old) origin.now) }
        requires scope { scope.0 < length (state_of self.old).core.scopes }
        requires there { IsThere self.old.dom spot.now.parent }
        requires room { (f : FragmentOf) → fragment_for (templates_of self.old) origin.now ≡ Some f → live_count self.old.dom + nodes f.parts ≤ node_limit }
        requires made { (f : FragmentOf) → fragment_for (templates_of self.old) origin.now ≡ Some f → IsRegistered f scope.0 (registered_of made) (state_of self.old) }
        ensures built { IfOk result (λ i. (f : FragmentOf) → fragment_for (templates_of self.old) origin.now ≡ Some f → IsPrepared origin.now scope.0 (registered_of made) f (parent_name spot.now.parent, spot.now.at) self.old self.new i) }
        ensures rest { self.new ≡ record self.old { dom = self.new.dom; watchers = self.new.watchers } }
        ensures faults { IfErr result (λ e. is_memory e ≡ true) }
    {
        let Some(whole) = self.templates.whole(self.alloc, origin)? else {
            unreachable!();
        };
        let fragment = whole.fragment();
        let ground = Ground {
            scopes: made.scopes.as_slice(),
            outsides: made.outsides.as_slice(),
        };
        let serials = made.serials.as_slice();
        let node = self.dom.next_name();
        let laid = lay_out(
            self.alloc, &self.core, origin, scope, &ground, fragment, serials, node,
        )?;
        let nodes = link_nodes(
            self.alloc,
            &mut self.dom,
            spot,
            laid.keys.as_slice(),
            fragment.parts(),
        )?;
        let rows = site_rows(self.alloc, &self.core, &ground, fragment, &made)?;
        watch_all(&mut self.watchers, self.alloc, rows, fragment.sites())?;
        let spots = spots_of(self.alloc, serials, nodes.as_slice())?;
        let origin = origin.copied(self.alloc)?;
        let Registered { bounds, .. } = made;
        Ok(linked_with(origin, scope, spots, node, laid, bounds))
    }

    /// An instance is noted under its path, and its path under the name of its first node; a body stands in its outlet.
    fn note(&mut self, place: &Place, path: Path, one: Linked) -> Result<(), Fault>
        ensures instances { OnOk result ((all : List Named) → instances_of all self.new.instances.entries ≡ taken_in (place_of place.now) path (instances_of all (insert_entry path_cmp self.old.instances.entries path one))) }
        ensures spots { OnOk result ((inner : Inners) → (k : Key) → spot_in inner self.new.instances.entries k ≡ spot_in inner (insert_entry path_cmp self.old.instances.entries path one) k) }
        ensures owners { OnOk result (self.new.owners.entries ≡ insert_entry nat_cmp self.old.owners.entries one.node path) }
        ensures rest { self.new ≡ record self.old { instances = self.new.instances; owners = self.new.owners } }
        ensures faults { IfErr result (λ e. is_memory e ≡ true) }
    {
        let _ = self.owners.insert(one.node, path.copied()?)?;
        let copy = path.copied()?;
        let _ = self.instances.insert(path, one)?;
        match place {
            Place::Top => Ok(()),
            Place::Outlet {
                holder,
                outlet,
                at,
                role,
            } => {
                let body = SharedBody::new(self.alloc, copy, role.copied(self.alloc)?)?;
                Ok(take_in(&mut self.instances, holder, *outlet, *at, body)?)
            }
        }
    }
}
