//! The instance that stands, read off the tables.
ghost use Rattle.std.specs.Prelude.{◌≡◌, IfOk, map, option_map};
ghost use Rattle.ng_drawing.specs.Instance.{instances_from};
ghost use Rattle.ng_drawing.specs.InstanceOf.{state_of as seen_state, instance_of as seen_instance, group_of as seen_group};
ghost use Rattle.ng_drawing.specs.Named.{fragments_in};
ghost use Rattle.ng_value.specs.Snaps.{snap_of};
ghost use Rattle.ng_build.specs.Controls.{state_under};
ghost use Rattle.ng_instances.specs.Instances.{Body as BodyOf, read_bodies};
ghost use Rattle.ng_instances.specs.InstanceOf.{body_of, outlet_of, page_of};
ghost use Rattle.ng_link.specs.State.{templates_of, kept_in, site_state, site_states, nothing_linked, roles_in, groups_in, instance_at, body_at, instance, state_of};

use crate::looks::kept_in;
use crate::works::Works;
use ng_base::fault::Memory;
use ng_base::name::{ScopeId, TplId};
use ng_base::path::{Key, Path};
use ng_build::copying::key_on;
use ng_control::Control;
use ng_drawing::instance::{Instance, Instances, SiteState};
use ng_drawing::origin::{Home, Origin};
use ng_instances::instances::{Linked, OutletState, SharedBody};
use ng_value::copies::copied;
use ng_value::snapshot::Snap;

/// What the site of a key shows, copied.
fn kept_copy(works: &Works, key: &Key) -> Result<Option<Snap>, Memory>
    ensures { IfOk result (λ s. option_map snap_of s ≡ kept_in (state_of works.now).watchers (state_of works.now).resting key.now) }
{
    match kept_in(works, key) {
        None => Ok(None),
        Some(s) => Ok(Some(Snap::of_view(copied(works.alloc, s.view())?))),
    }
}

/// The control whose model the site of a key is, copied.
fn control_copy(works: &Works, key: &Key) -> Result<Option<Control>, Memory>
    ensures { IfOk result (λ c. c ≡ state_under key.now (state_of works.now).controls) }
{
    match works.controls.get(key) {
        None => Ok(None),
        Some(control) => Ok(Some(control.copied()?)),
    }
}

/// What was added to a site.
fn site_state(works: &Works, scope: ScopeId, key: Key) -> Result<SiteState, Memory>
    ensures { IfOk result (λ s. seen_state s ≡ site_state (state_of works.now).watchers (state_of works.now).resting (state_of works.now).controls scope.0 key) }
{
    let kept = kept_copy(works, &key)?;
    let rests = !works.watchers.has(&key);
    let control = control_copy(works, &key)?;
    Ok(SiteState {
        key,
        scope,
        kept,
        rests,
        control,
    })
}

/// The sites of an instance.
fn site_states(works: &Works, path: &Path, one: &Linked) -> Result<Vec<SiteState>, Memory>
    ensures { IfOk result (λ v. map seen_state v.items ≡ site_states (state_of works.now).watchers (state_of works.now).resting (state_of works.now).controls (page_of path.now one.now)) }
{
    let mut sites = Vec::new(works.alloc);
    for serial in one.spots.keys() {
        let mark = one.mark_at(*serial);
        let key = key_on(one.path_at(path, mark.under), *serial)?;
        sites.push(site_state(works, one.scope_at(mark.over), key)?)?;
    }
    Ok(sites)
}

/// What is read where nothing is linked: an instance of a fragment that no template has.
fn nothing(works: &Works) -> Instance
    ensures { seen_instance (fragments_in (templates_of works.now)) result ≡ nothing_linked }
{
    Instance {
        origin: Origin::plain(Home::first(works.alloc, TplId(u32::MAX)), 0),
        scope: ScopeId(0),
        sites: Vec::new(works.alloc),
        outlets: Vec::new(works.alloc),
    }
}

/// The instance on a path, with the bodies in it. These come after it in the order of paths, so that there are fewer of them each time.
#[cycle(instance)]
fn instance_on(works: &Works, path: &Path) -> Result<Instance, Memory>
    ensures { IfOk result (λ i. seen_instance (fragments_in (templates_of works.now)) i ≡ instance_at (state_of works.now).watchers (state_of works.now).resting (state_of works.now).controls (state_of works.now).instances path.now) }
{
    let _ = works.instances.len();
    let Some(one) = works.instances.get(path) else {
        return Ok(nothing(works));
    };
    let sites = site_states(works, path, one)?;
    let outlets = outlets_in(works, path, one.outlets.as_slice())?;
    Ok(Instance {
        origin: one.origin.copied(works.alloc)?,
        scope: one.scope,
        sites,
        outlets,
    })
}

/// The bodies in each outlet of an instance.
#[cycle(instance)]
fn outlets_in(
    works: &Works,
    holder: &Path,
    outlets: &[OutletState],
) -> Result<Vec<Instances>, Memory>
    ensures { IfOk result (λ v. map (seen_group (fragments_in (templates_of works.now))) v.items ≡ groups_in (map outlet_of outlets.now) (map instances_from (read_bodies (body_at (state_of works.now) holder.now) (map outlet_of outlets.now)))) }
{
    let mut all = Vec::new(works.alloc);
    for outlet in outlets {
        all.push(bodies_in(works, holder, outlet.bodies.as_slice())?)?;
    }
    Ok(all)
}

/// The bodies in an outlet of an instance.
#[cycle(instance)]
fn bodies_in(works: &Works, holder: &Path, bodies: &[SharedBody]) -> Result<Instances, Memory>
    ensures { IfOk result (λ is. seen_group (fragments_in (templates_of works.now)) is ≡ (roles_in (map body_of bodies.now), instances_from (map (λ (b : BodyOf). body_at (state_of works.now) holder.now b.path) (map body_of bodies.now)))) }
{
    let mut roles = Vec::new(works.alloc);
    let mut items = Vec::new(works.alloc);
    for body in bodies {
        roles.push(body.role().copied(works.alloc)?)?;
        items.push(body_on(works, holder, body.path())?)?;
    }
    Ok(Instances { roles, items })
}

/// The body on a path, where it comes after its holder.
#[cycle(instance)]
fn body_on(works: &Works, holder: &Path, path: &Path) -> Result<Instance, Memory>
    ensures { IfOk result (λ i. seen_instance (fragments_in (templates_of works.now)) i ≡ body_at (state_of works.now) holder.now path.now) }
{
    if holder.cmp(path).is_lt() {
        instance_on(works, path)
    } else {
        Ok(nothing(works))
    }
}

impl Works {
    /// The instance that stands, with what its sites have kept and the bodies in it. It is read off the tables, and its size is that of
    /// the page.
    pub fn instance(&self) -> Result<Option<Instance>, Memory>
        ensures { IfOk result (λ i. option_map (seen_instance (fragments_in (templates_of self.now))) i ≡ instance (state_of self.now)) }
    {
        let root = Path::new(self.alloc);
        if !self.instances.contains_key(&root) {
            return Ok(None);
        }
        Ok(Some(instance_on(self, &root)?))
    }
}
