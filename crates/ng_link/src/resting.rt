//! Sites come to rest: their watchers are taken out, and they go on showing what they have kept.
ghost use Rattle.std.specs.Prelude.{◌≡◌, List, length, if◌then◌else◌, OnOk, IfErr};
ghost use Rattle.std.specs.BTreeMap.{insert_entry};
ghost use Rattle.std.specs.List.{filter};
ghost use Rattle.std.specs.Prelude.{not, option_map};
ghost use Rattle.ng_dom.specs.Drawing.{Stands};
ghost use Rattle.ng_drawing.specs.Named.{Named};
ghost use Rattle.ng_value.specs.Snaps.{snap_of};
ghost use Rattle.ng_behaviour.specs.Keys.{key_cmp, begins};
ghost use Rattle.ng_watch.specs.Table.{watchers_of};
ghost use Rattle.ng_instances.specs.Instances.{is_site};
ghost use Rattle.ng_link.specs.Calls.{rested, left_at, ended_at};
ghost use Rattle.ng_link.specs.Standing.{Standing, WatchersStand};
ghost use Rattle.ng_instances.specs.InstanceOf.{instances_of};
ghost use Rattle.ng_link.specs.State.{resting_of, declared_of, state_of, templates_of};

use crate::works::Works;
use ng_base::fault::Memory;
use ng_base::path::{Key, Path};
use ng_build::forgetting::forget_on;
use ng_instances::instances::{Linked, Listener};
use ng_instances::placing::is_site;
use ng_value::snapshot::Snap;
use ng_watch::watched::Watched;
use std::alloc::AllocError;
use std::collections::BTreeMap;

/// A site whose watcher was taken out rests with what that had kept.
fn rest(
    instances: &BTreeMap<Path, Linked>,
    inner: &BTreeMap<Path, Path>,
    resting: &mut BTreeMap<Key, Option<Snap>>,
    key: Key,
    kept: Option<Snap>,
) -> Result<(), Memory>
    ensures rested { (all : List Named) → OnOk result (resting_of resting.new.entries ≡ (if is_site inner.now.entries (instances_of all instances.now.entries) key then insert_entry key_cmp (resting_of resting.old.entries) key (option_map snap_of kept) else resting_of resting.old.entries)) }
    ensures refused { IfErr result (λ e. e ≡ Memory.Refused) }
{
    if is_site(instances, inner, &key) {
        resting.insert(key, kept)?;
    }
    Ok(())
}

/// Sites whose watchers were taken out rest, one after another.
fn rest_all(
    instances: &BTreeMap<Path, Linked>,
    inner: &BTreeMap<Path, Path>,
    resting: &mut BTreeMap<Key, Option<Snap>>,
    rows: Vec<(Key, Watched)>,
) -> Result<(), Memory>
    ensures rested { (all : List Named) → OnOk result (resting_of resting.new.entries ≡ rested inner.now.entries (instances_of all instances.now.entries) (watchers_of rows.items) (resting_of resting.old.entries)) }
    ensures refused { IfErr result (λ e. e ≡ Memory.Refused) }
{
    let mut left = rows.into_iter();
    while let Some((key, watched)) = left.next() {
        let Watched { kept, .. } = watched;
        rest(instances, inner, resting, key, kept)?;
    }
    Ok(())
}

/// The listeners of a scope, and of those below it, are taken out.
fn leave_listeners(declared: &mut BTreeMap<Key, Listener>, p: &Path) -> Result<(), AllocError>
    ensures { OnOk result (declared_of declared.new.entries ≡ filter (λ e. not (begins p.now e.0.path)) (declared_of declared.old.entries)) }
{
    forget_on(declared, p)?;
    Ok(())
}

impl Works {
    /// The watchers of a scope, and of those below it, are taken out (API: `$rootScope.Scope`, `$destroy`): its sites rest, and
    /// its declared watches are no more.
    pub fn leave(&mut self, p: &Path) -> Result<(), Memory>
        ensures state { OnOk result (state_of self.new ≡ left_at p.now (state_of self.old)) }
        ensures refused { IfErr result (λ e. e ≡ Memory.Refused) }
        ensures core { self.new.core ≡ self.old.core }
        ensures templates { templates_of self.new ≡ templates_of self.old }
        ensures stands { OnOk result ((ts : Stands) → Standing self.old ts → Standing self.new ts) }
    {
        let _ = self.watchers.count();
        let rows = self.watchers.take_under(self.alloc, p)?;
        rest_all(&self.instances, &self.inner, &mut self.resting, rows)?;
        leave_listeners(&mut self.declared, p)?;
        Ok(())
    }

    /// One-time bindings whose value is there end (guide: Expressions, "One-time binding"): their sites rest.
    pub fn end_over(&mut self) -> Result<(), Memory>
        requires stands { WatchersStand (length (state_of self.old).core.objects) (state_of self.old).watchers }
        ensures state { OnOk result (state_of self.new ≡ ended_at (state_of self.old)) }
        ensures core { self.new.core ≡ self.old.core }
        ensures templates { templates_of self.new ≡ templates_of self.old }
        ensures stands { OnOk result ((ts : Stands) → Standing self.old ts → Standing self.new ts) }
    {
        let _ = self.watchers.count();
        let rows = self.watchers.take_over(self.alloc, &self.core.store)?;
        rest_all(&self.instances, &self.inner, &mut self.resting, rows)?;
        Ok(())
    }
}
