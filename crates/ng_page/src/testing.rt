//! What a test and a fire of a watcher do.
ghost use Rattle.std.specs.Prelude.{◌≡◌, ℕ, List, IsSome, IsTrue, OnOk, IfOk, Err, true, false, is_some, option_copied, option_map};
ghost use Rattle.std.specs.Option.{ForSome};
ghost use Rattle.ng_base.specs.declared.path.Key.{Key as Name};
ghost use Rattle.ng_fire.specs.Fires.{fired, fire_adds, IsDirtyWith};
ghost use Rattle.ng_digest.specs.Place.{Answers, OnTested};
ghost use Rattle.ng_digest.specs.Progress.{came_to, passed};
ghost use Rattle.ng_link.specs.Calls.{keeping_at};
ghost use Rattle.ng_link.specs.State.{state_of};
ghost use Rattle.ng_value.specs.Snaps.{snap_of};
ghost use Rattle.ng_watch.specs.Laws.{is_two_way};
ghost use Rattle.ng_watch.specs.Table.{found};
ghost use Rattle.ng_watch.specs.Walks.{reached_of};
ghost use Rattle.ng_page.specs.PageMachine.{found_as, tell, fired_to, handed_on};
ghost use Rattle.ng_commands.specs.BetweenSteps.{WorksAre};
ghost use Rattle.ng_page.specs.PlaceOf.{seen_of, seen_found, key_at, last_at, found_there, OnDirty};

use ng_base::fault::{Fault, Memory};
use ng_base::path::Key;
use ng_digest::progress::Progress;
use ng_digest::world::Tested;
use ng_fire::firing::{self, FireResult};
use ng_link::works::Works;
use ng_value::snapshot::Snap;
use ng_watch::walking::{Reached, Walk};
use ng_watch::watch::{Verdict, WatchKind};
use std::alloc::{AllocError, Global};
use std::collections::BTreeSet;

/// A copy of a key.
pub(crate) fn copied(key: &Key) -> Result<Key, AllocError>
    ensures { IfOk result (λ k. k ≡ key.now) }
{
    Ok(Key {
        path: key.path.copied()?,
        serial: key.serial,
    })
}

/// A copy of a key, where there is one.
pub(crate) fn copied_if_any(key: Option<&Key>) -> Result<Option<Key>, AllocError>
    ensures { IfOk result (λ k. k ≡ option_copied key.entry) }
{
    match key {
        None => Ok(None),
        Some(key) => Ok(Some(copied(key)?)),
    }
}

/// The cursor comes to where a walk ended, and what the walk found there is at hand. False where it came to no watcher.
pub(crate) fn arrive(
    progress: &mut Progress<Key>,
    ahead: &mut Result<Verdict, Fault>,
    walk: Walk,
) -> bool
    ensures answer { result ≡ is_some (key_at (reached_of walk.reached)) }
    ensures step { progress.new ≡ came_to (key_at (reached_of walk.reached)) (passed walk.passed (last_at (reached_of walk.reached)) progress.old) }
    ensures ahead { seen_found ahead.new ≡ found_there (reached_of walk.reached) (seen_found ahead.old) }
{
    let Walk { passed, reached } = walk;
    match reached {
        Reached::End(last) => {
            progress.pass(passed, last);
            progress.come_to(None)
        }
        Reached::Watcher(key, verdict) => {
            *ahead = Ok(verdict);
            progress.pass(passed, None);
            progress.come_to(Some(key))
        }
        Reached::Faulted(key, fault) => {
            *ahead = Err(fault);
            progress.pass(passed, None);
            progress.come_to(Some(key))
        }
    }
}

/// Hands a watcher's fault over, once in a digest.
fn tell(
    works: &mut Works,
    told: &mut BTreeSet<Key>,
    key: &Key,
    fault: Fault,
) -> Result<(), AllocError>
    ensures state { OnOk result ((fs : List Name) (ps : List (List ℕ)) → seen_of works.new told.new.keys fs ps ≡ tell key.now (Err fault) (seen_of works.old told.old.keys fs ps)) }
    ensures works { OnOk result (WorksAre works.old → WorksAre works.new) }
{
    if told.contains(key) {
        return Ok(());
    }
    told.insert(copied(key)?)?;
    works.hand_over(fault);
    Ok(())
}

/// What the test of a watcher found is handed on: the snapshot of a dirty one to its fire, and a fault to the page.
pub(crate) fn hand_on(
    works: &mut Works,
    told: &mut BTreeSet<Key>,
    pending: &mut Option<Snap>,
    key: &Key,
    found: Result<Verdict, Fault>,
) -> Tested
    ensures answer { Answers (found_as (seen_found found)) result }
    ensures state { OnTested result ((fs : List Name) (ps : List (List ℕ)) → seen_of works.new told.new.keys fs ps ≡ tell key.now (seen_found found) (seen_of works.old told.old.keys fs ps)) }
    ensures handed_on { OnDirty result (option_map snap_of pending.new ≡ handed_on (seen_found found)) }
    ensures works { OnTested result (WorksAre works.old → WorksAre works.new) }
{
    match found {
        Ok(Verdict::Clean) => Tested::Clean,
        Ok(Verdict::Dirty(snapshot)) => {
            *pending = Some(snapshot);
            Tested::Dirty
        }
        Err(fault) => match tell(works, told, key, fault) {
            Ok(()) => Tested::Faulted,
            Err(_) => Tested::Memory(Memory::Refused),
        },
    }
}

/// What a fire came to: whether it added a watcher, and whether it was quiet.
#[derive(Clone, Copy, Debug, PartialEq, Eq)]
pub(crate) struct Ended {
    pub(crate) added: bool,
    pub(crate) quiet: bool,
}

/// Where nothing fired.
pub(crate) fn nothing() -> Ended
    ensures added { result.added ≡ false }
    ensures quiet { result.quiet ≡ false }
{
    Ended {
        added: false,
        quiet: false,
    }
}

/// Whether the watch of a key is known to be clean by what it keeps alone, as a two-way binding isn't.
fn is_plain(works: &Works, key: &Key) -> bool
    requires there { IsSome (found key.now (state_of works.now).watchers) }
    ensures { IsTrue result → ForSome (found key.now (state_of works.now).watchers) (λ w. is_two_way w.watch.kind ≡ false) }
{
    !matches!(works.watchers().watch(key).kind, WatchKind::TwoWay { .. })
}

/// What a fire came to. Only of one that was quiet the kind of its watch is asked.
fn end_of(works: &Works, key: &Key, fired: FireResult) -> Ended
    requires there { fired.quiet ≡ true → IsSome (found key.now (state_of works.now).watchers) }
    ensures added { result.added ≡ fired.followed.added }
    ensures quiet { result.quiet ≡ true → (fired.quiet ≡ true) × ForSome (found key.now (state_of works.now).watchers) (λ w. is_two_way w.watch.kind ≡ false) }
{
    Ended {
        added: fired.followed.added,
        quiet: fired.quiet && is_plain(works, key),
    }
}

/// Fires the watcher of a key: it keeps the snapshot that its test handed on, and then it fires. A fire that faulted is
/// remembered.
pub(crate) fn fire(
    alloc: Global,
    works: &mut Works,
    faulted: &mut BTreeSet<Key>,
    key: &Key,
    snapshot: Snap,
) -> Result<Ended, Memory>
    requires works { WorksAre works.old }
    requires there { IsSome (found key.now (state_of works.old).watchers) }
    requires dirty { IsDirtyWith (snap_of snapshot) (state_of works.old) key.now }
    ensures state { OnOk result ((ts : List Name) (ps : List (List ℕ)) → seen_of works.new ts faulted.new.keys ps ≡ fired_to key.now (fired key.now (snap_of snapshot) (state_of works.old)) (seen_of works.old ts faulted.old.keys ps)) }
    ensures added { IfOk result (λ e. e.added ≡ fire_adds key.now (snap_of snapshot) (state_of works.old)) }
    ensures quiet { IfOk result (λ e. e.quiet ≡ true → (state_of works.new ≡ keeping_at key.now (snap_of snapshot) (state_of works.old)) × ForSome (found key.now (state_of works.old).watchers) (λ w. is_two_way w.watch.kind ≡ false)) }
    ensures works { OnOk result (WorksAre works.new) }
{
    let fired = firing::fire(works, alloc, key, snapshot)?;
    if fired.followed.faulted {
        faulted.insert(copied(key)?)?;
    }
    Ok(end_of(works, key, fired))
}
