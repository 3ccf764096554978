//! The fire of a watcher.
ghost use Rattle.std.specs.Prelude.{◌≡◌, ◌<◌, [], length, map, false, true, None, Some, option_map, IsSome, IfErr, IfOk, OnOk};
ghost use Rattle.ng_act.specs.Worn.{HasCause};
ghost use Rattle.ng_base.specs.Faults.{is_memory};
ghost use Rattle.ng_base.specs.Meets.{Gives};
ghost use Rattle.ng_base.specs.ViewOf.{view_of};
ghost use Rattle.ng_base.specs.Views.{ViewTree};
ghost use Rattle.ng_settling.specs.ListenerRuns.{listener_run};
ghost use Rattle.ng_fire.specs.Fires.{fired, fired_by, fire_adds, adds_by, listener_at, value_at, IsDirtyWith};
ghost use Rattle.ng_fire.specs.FireOf.{firing};
ghost use Rattle.ng_fire.specs.SiteFires.{site_fired};
ghost use Rattle.ng_changes.specs.Whole.{IsWhole, KeptStands};
ghost use Rattle.ng_language.specs.Views.{ViewStands};
ghost use Rattle.ng_link.specs.Calls.{keeping_at};
ghost use Rattle.ng_link.specs.SiteAt.{StandsAt, spot_of};
ghost use Rattle.ng_link.specs.State.{state_of, templates_of, listening_of};
ghost use Rattle.ng_instances.specs.Due.{due_of, all_due, without_rows};
ghost use Rattle.ng_instances.specs.Instances.{bound_for, linked_for, is_site};
ghost use Rattle.ng_steps.specs.Worn.{is_worn};
ghost use Rattle.ng_value.specs.Snaps.{snap_of};
ghost use Rattle.ng_watch.specs.Now.{value_now};
ghost use Rattle.ng_watch.specs.Seen.{watching_of};
ghost use Rattle.ng_watch.specs.Table.{found, kept_at};

use crate::blocks::fire_outlets;
use crate::bound_fires::fire_bound;
use ng_act::wear::told;
use ng_base::fault::{Fault, Memory};
use ng_base::locals::Locals;
use ng_base::name::NodeId;
use ng_base::path::Key;
use ng_base::view::View;
use ng_changes::following::{Followed, follow};
use ng_instances::filling::Due;
use ng_instances::instances::Listener;
use ng_instances::sites::{Fills, SiteHere};
use ng_link::works::Works;
use ng_settling::listening::run_listener;
use ng_steps::wear::is_worn;
use ng_store::store::Store;
use ng_value::copies::copied;
use ng_value::snapshot::Snap;
use ng_view::view;
use ng_watch::watch::Watch;
use std::alloc::Global;

/// What a fire did: what the programs that ran came to, and whether it was quiet. A quiet fire ran no program, and neither made nor took away a
/// body: its watcher keeps another snapshot, which is drawn.
#[derive(Clone, Copy, Debug, PartialEq, Eq)]
pub struct FireResult {
    pub followed: Followed,
    pub quiet: bool,
}

/// The value of a watch's program over its scope.
#[tactic(auto, using(ng_purity::proofs::Pure::pure_are, ng_purity::proofs::Pure::known_are), unfolding(ng_watch::specs::Now::value_now))]
fn value_now(alloc: Global, store: &Store, watch: &Watch) -> Result<View, Fault>
    requires { watch.now.scope.0 < length store.now }
    ensures exact { Gives is_memory view_of (value_now store.now (watching_of watch.now)) result }
    ensures stands { IfOk result (λ v. ViewStands (length store.now) (view_of v)) }
{
    let locals = Locals::new(alloc);
    view(alloc, store, watch.scope, &locals, &watch.program)
}

/// The value of a watcher whose test was dirty.
pub(crate) fn dirty_value(alloc: Global, works: &Works, key: &Key) -> Result<View, Memory>
    requires whole { IsWhole works.now }
    requires there { IsSome (found key.now (state_of works.now).watchers) }
    requires dirty { (now : ViewTree) × IsDirtyWith now (state_of works.now) key.now }
    ensures value { IfOk result (λ v. value_at (state_of works.now) key.now ≡ Some (view_of v)) }
    ensures stands { IfOk result (λ v. ViewStands (length works.now.core.store) (view_of v)) }
    ensures snapshot { OnOk result ((now : ViewTree) → IsDirtyWith now (state_of works.now) key.now → ViewStands (length works.now.core.store) now) }
{
    works.core.store.sound();
    match value_now(alloc, &works.core.store, works.watchers().watch(key)) {
        Ok(value) => Ok(value),
        Err(Fault::Memory(memory)) => Err(memory),
        Err(_) => unreachable!(),
    }
}

/// The declared watch of a key, where it is one's.
fn listener_at(alloc: Global, works: &Works, key: &Key) -> Result<Option<Listener>, Memory>
    ensures { IfOk result (λ l. option_map listening_of l ≡ listener_at (state_of works.now) key.now) }
{
    if works.is_site(key) {
        return Ok(None);
    }
    match works.listener(key) {
        None => Ok(None),
        Some(listener) => Ok(Some(Listener {
            scope: listener.scope,
            program: listener.program.copied(alloc)?,
        })),
    }
}

/// The watcher of what is no site keeps a snapshot, and what it had kept is handed back.
fn keep_declared(works: &mut Works, key: &Key, snapshot: Snap) -> Result<Option<Snap>, Memory>
    requires whole { IsWhole works.old }
    requires there { IsSome (found key.now (state_of works.old).watchers) }
    requires stands { ViewStands (length works.old.core.store) (snap_of snapshot) }
    requires declared { is_site (state_of works.old).inner (state_of works.old).instances key.now ≡ false }
    requires nowhere { spot_of works.old key.now ≡ None }
    ensures state { OnOk result (state_of works.new ≡ keeping_at key.now (snap_of snapshot) (state_of works.old)) }
    ensures former { IfOk result (λ f. option_map snap_of f ≡ kept_at key.now (state_of works.old).watchers) }
    ensures stands { IfOk result (λ f. KeptStands (length works.old.core.store) (option_map snap_of f)) }
    ensures core { works.new.core ≡ works.old.core }
    ensures whole { OnOk result (IsWhole works.new) }
    ensures templates { templates_of works.new ≡ templates_of works.old }
{
    works.keep(key, snapshot, None)
}

/// The site of a template keeps a snapshot, and its node shows it.
fn keep_site(works: &mut Works, key: &Key, snapshot: Snap, node: NodeId) -> Result<(), Memory>
    requires whole { IsWhole works.old }
    requires there { IsSome (found key.now (state_of works.old).watchers) }
    requires site { is_site (state_of works.old).inner (state_of works.old).instances key.now ≡ true }
    requires node { spot_of works.old key.now ≡ Some node.made.0 }
    ensures state { OnOk result (state_of works.new ≡ keeping_at key.now (snap_of snapshot) (state_of works.old)) }
    ensures core { works.new.core ≡ works.old.core }
    ensures whole { OnOk result (IsWhole works.new) }
    ensures templates { templates_of works.new ≡ templates_of works.old }
{
    let _ = works.keep(key, snapshot, Some(node))?;
    Ok(())
}

/// A snapshot again.
fn copy_of(alloc: Global, snapshot: &Snap) -> Result<Snap, Memory>
    ensures { IfOk result (λ s. snap_of s ≡ snap_of snapshot.now) }
{
    Ok(Snap::of_view(copied(alloc, snapshot.view())?))
}

/// The outlets of an instance that a value calls for, once the site that fills them has kept it.
fn fire_filling(
    works: &mut Works,
    alloc: Global,
    key: &Key,
    snapshot: Snap,
    node: NodeId,
    all: &[Due],
) -> Result<Followed, Memory>
    requires whole { IsWhole works.old }
    requires there { IsSome (found key.now (state_of works.old).watchers) }
    requires dirty { IsDirtyWith (snap_of snapshot) (state_of works.old) key.now }
    requires site { is_site (state_of works.old).inner (state_of works.old).instances key.now ≡ true }
    requires node { spot_of works.old key.now ≡ Some node.made.0 }
    requires due { map due_of all.now ≡ map without_rows (all_due key.now (linked_for (state_of works.old).inner key.now.path (state_of works.old).instances)) }
    requires unbound { bound_for (state_of works.old).inner (state_of works.old).instances key.now ≡ None }
    ensures fired { IfOk result (λ f. firing works.new f ≡ site_fired key.now (snap_of snapshot) (value_at (state_of works.old) key.now) (kept_at key.now (state_of works.old).watchers) (keeping_at key.now (snap_of snapshot) (state_of works.old))) }
    ensures whole { OnOk result (IsWhole works.new) }
    ensures templates { templates_of works.new ≡ templates_of works.old }
{
    let value = copy_of(alloc, &snapshot)?;
    let _ = dirty_value(alloc, works, key)?;
    keep_site(works, key, snapshot, node)?;
    let holder = works.instance_path(&key.path).copied()?;
    fire_outlets(works, alloc, &holder, all, &value)
}

/// The fire of a site that is no binding's and fills no outlet: it keeps the snapshot and shows it.
fn fire_shown(
    works: &mut Works,
    key: &Key,
    snapshot: Snap,
    node: NodeId,
) -> Result<Followed, Memory>
    requires whole { IsWhole works.old }
    requires there { IsSome (found key.now (state_of works.old).watchers) }
    requires site { is_site (state_of works.old).inner (state_of works.old).instances key.now ≡ true }
    requires node { spot_of works.old key.now ≡ Some node.made.0 }
    requires none { all_due key.now (linked_for (state_of works.old).inner key.now.path (state_of works.old).instances) ≡ [] }
    requires unbound { bound_for (state_of works.old).inner (state_of works.old).instances key.now ≡ None }
    ensures fired { IfOk result (λ f. firing works.new f ≡ site_fired key.now (snap_of snapshot) (value_at (state_of works.old) key.now) (kept_at key.now (state_of works.old).watchers) (keeping_at key.now (snap_of snapshot) (state_of works.old))) }
    ensures kept { OnOk result (state_of works.new ≡ keeping_at key.now (snap_of snapshot) (state_of works.old)) }
    ensures whole { OnOk result (IsWhole works.new) }
    ensures templates { templates_of works.new ≡ templates_of works.old }
{
    keep_site(works, key, snapshot, node)?;
    Ok(quiet())
}

/// The fire of a site that is no binding's: it keeps the snapshot and shows it, and each outlet that it fills gets what the value calls for.
fn fire_unbound(
    works: &mut Works,
    alloc: Global,
    key: &Key,
    snapshot: Snap,
    node: NodeId,
    all: &[Due],
) -> Result<FireResult, Memory>
    requires whole { IsWhole works.old }
    requires there { IsSome (found key.now (state_of works.old).watchers) }
    requires dirty { IsDirtyWith (snap_of snapshot) (state_of works.old) key.now }
    requires site { is_site (state_of works.old).inner (state_of works.old).instances key.now ≡ true }
    requires node { spot_of works.old key.now ≡ Some node.made.0 }
    requires due { map due_of all.now ≡ map without_rows (all_due key.now (linked_for (state_of works.old).inner key.now.path (state_of works.old).instances)) }
    requires unbound { bound_for (state_of works.old).inner (state_of works.old).instances key.now ≡ None }
    ensures fired { IfOk result (λ f. firing works.new f.followed ≡ site_fired key.now (snap_of snapshot) (value_at (state_of works.old) key.now) (kept_at key.now (state_of works.old).watchers) (keeping_at key.now (snap_of snapshot) (state_of works.old))) }
    ensures quiet { IfOk result (λ f. f.quiet ≡ true → state_of works.new ≡ keeping_at key.now (snap_of snapshot) (state_of works.old)) }
    ensures whole { OnOk result (IsWhole works.new) }
    ensures templates { templates_of works.new ≡ templates_of works.old }
{
    if all.is_empty() {
        let followed = fire_shown(works, key, snapshot, node)?;
        Ok(FireResult {
            followed,
            quiet: true,
        })
    } else {
        let followed = fire_filling(works, alloc, key, snapshot, node, all)?;
        Ok(FireResult {
            followed,
            quiet: false,
        })
    }
}

/// The fire of a site: it keeps the snapshot and shows it; what the binding that it is one of asks for is written; and each outlet that it fills gets
/// what the value calls for.
fn fire_drawn(
    works: &mut Works,
    alloc: Global,
    key: &Key,
    snapshot: Snap,
    site: SiteHere,
) -> Result<FireResult, Memory>
    requires whole { IsWhole works.old }
    requires there { IsSome (found key.now (state_of works.old).watchers) }
    requires dirty { IsDirtyWith (snap_of snapshot) (state_of works.old) key.now }
    requires site { StandsAt works.old key.now (Some site) }
    ensures fired { IfOk result (λ f. firing works.new f.followed ≡ site_fired key.now (snap_of snapshot) (value_at (state_of works.old) key.now) (kept_at key.now (state_of works.old).watchers) (keeping_at key.now (snap_of snapshot) (state_of works.old))) }
    ensures quiet { IfOk result (λ f. f.quiet ≡ true → state_of works.new ≡ keeping_at key.now (snap_of snapshot) (state_of works.old)) }
    ensures whole { OnOk result (IsWhole works.new) }
    ensures templates { templates_of works.new ≡ templates_of works.old }
{
    let SiteHere { node, fills } = site;
    match fills {
        Fills::Outlets(all) => fire_unbound(works, alloc, key, snapshot, node, all.as_slice()),
        Fills::Writes(bound) => {
            let followed = fire_bound(works, alloc, key, snapshot, node, &bound)?;
            Ok(FireResult {
                followed,
                quiet: false,
            })
        }
    }
}

/// The program of a declared watch runs, and what comes after it is done.
fn run_declared(
    works: &mut Works,
    alloc: Global,
    listener: &Listener,
    former: Option<Snap>,
    value: &View,
) -> Result<Followed, Memory>
    requires whole { IsWhole works.old }
    requires scope { listener.now.scope.0 < length works.old.core.scopes }
    requires former { KeptStands (length works.old.core.store) (option_map snap_of former) }
    requires value { ViewStands (length works.old.core.store) (view_of value.now) }
    ensures state { IfOk result (λ f. (state_of works.new, f.faulted) ≡ fired_by (Some (listener_run (listening_of listener.now) (option_map snap_of former) (view_of value.now) (state_of works.old).core)) (state_of works.old)) }
    ensures added { IfOk result (λ f. f.added ≡ adds_by (Some (listener_run (listening_of listener.now) (option_map snap_of former) (view_of value.now) (state_of works.old).core))) }
    ensures whole { OnOk result (IsWhole works.new) }
    ensures templates { templates_of works.new ≡ templates_of works.old }
{
    let end = run_listener(&mut works.core, alloc, listener, former, value);
    follow(works, alloc, end)
}

/// The fire of what is no site: its watcher keeps the snapshot, and the program of the declared watch runs.
fn fire_declared(
    works: &mut Works,
    alloc: Global,
    key: &Key,
    snapshot: Snap,
) -> Result<Followed, Memory>
    requires whole { IsWhole works.old }
    requires there { IsSome (found key.now (state_of works.old).watchers) }
    requires dirty { IsDirtyWith (snap_of snapshot) (state_of works.old) key.now }
    requires nowhere { spot_of works.old key.now ≡ None }
    requires declared { is_site (state_of works.old).inner (state_of works.old).instances key.now ≡ false }
    ensures state { IfOk result (λ f. (state_of works.new, f.faulted) ≡ fired key.now (snap_of snapshot) (state_of works.old)) }
    ensures added { IfOk result (λ f. f.added ≡ fire_adds key.now (snap_of snapshot) (state_of works.old)) }
    ensures whole { OnOk result (IsWhole works.new) }
    ensures templates { templates_of works.new ≡ templates_of works.old }
{
    let value = dirty_value(alloc, works, key)?;
    let listener = listener_at(alloc, works, key)?;
    let former = keep_declared(works, key, snapshot)?;
    match listener {
        None => Ok(quiet()),
        Some(listener) => run_declared(works, alloc, &listener, former, &value),
    }
}

/// No program ran.
fn quiet() -> Followed
    ensures faulted { result.faulted ≡ false }
    ensures added { result.added ≡ false }
{
    Followed {
        faulted: false,
        added: false,
    }
}

/// The fire of a watcher whose test was dirty.
fn fire_watcher(
    works: &mut Works,
    alloc: Global,
    key: &Key,
    snapshot: Snap,
) -> Result<FireResult, Memory>
    requires whole { IsWhole works.old }
    requires there { IsSome (found key.now (state_of works.old).watchers) }
    requires dirty { IsDirtyWith (snap_of snapshot) (state_of works.old) key.now }
    ensures state { IfOk result (λ f. (state_of works.new, f.followed.faulted) ≡ fired key.now (snap_of snapshot) (state_of works.old)) }
    ensures added { IfOk result (λ f. f.followed.added ≡ fire_adds key.now (snap_of snapshot) (state_of works.old)) }
    ensures quiet { IfOk result (λ f. f.quiet ≡ true → state_of works.new ≡ keeping_at key.now (snap_of snapshot) (state_of works.old)) }
    ensures whole { OnOk result (IsWhole works.new) }
    ensures templates { templates_of works.new ≡ templates_of works.old }
{
    let here = works.site_here(key)?;
    match here {
        Some(site) => fire_drawn(works, alloc, key, snapshot, site),
        None => {
            let followed = fire_declared(works, alloc, key, snapshot)?;
            Ok(FireResult {
                followed,
                quiet: false,
            })
        }
    }
}

/// The fire of a watcher whose test was dirty: it keeps the snapshot of now, which the site of a template then shows; a declared
/// watch runs its program (guide: Scopes, "Scope `$watch` Depths").
pub fn fire(
    works: &mut Works,
    alloc: Global,
    key: &Key,
    snapshot: Snap,
) -> Result<FireResult, Memory>
    requires whole { IsWhole works.old }
    requires there { IsSome (found key.now (state_of works.old).watchers) }
    requires dirty { IsDirtyWith (snap_of snapshot) (state_of works.old) key.now }
    ensures state { IfOk result (λ f. (state_of works.new, f.followed.faulted) ≡ fired key.now (snap_of snapshot) (state_of works.old)) }
    ensures added { IfOk result (λ f. f.followed.added ≡ fire_adds key.now (snap_of snapshot) (state_of works.old)) }
    ensures quiet { IfOk result (λ f. f.quiet ≡ true → state_of works.new ≡ keeping_at key.now (snap_of snapshot) (state_of works.old)) }
    ensures whole { OnOk result (IsWhole works.new) }
    ensures templates { templates_of works.new ≡ templates_of works.old }
    ensures worn { IfErr result (HasCause (is_worn (state_of works.new))) }
{
    match fire_watcher(works, alloc, key, snapshot) {
        Ok(fired) => Ok(fired),
        Err(memory) => Err(told(is_worn(works), memory)),
    }
}
