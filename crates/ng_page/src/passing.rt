//! Walks over watchers: one tests each; the other passes those that are known to be clean as a walk over clean ones does, and tests only those whose
//! fault was told.
ghost use Rattle.std.specs.Prelude.{◌≡◌, ◌<◌, ℕ, true, false, Ok, Some, Option, IfOk, option_copied};
ghost use Rattle.ng_base.specs.declared.path.Key.{Key as Name};
ghost use Rattle.ng_digest.specs.Laws.{InOrder};
ghost use Rattle.ng_digest.specs.Machine.{above};
ghost use Rattle.ng_link.specs.State as link;
ghost use Rattle.ng_commands.specs.BetweenSteps.{WorksAre};
ghost use Rattle.ng_page.specs.KnownClean.{IsCleanUnlessTold, is_between};
ghost use Rattle.ng_page.specs.PageMachine.{page_machine};
ghost use Rattle.ng_page.specs.PlaceOf.{state_of};
ghost use Rattle.ng_behaviour.specs.Keys.{is_key};
ghost use Rattle.ng_watch.specs.Table.{watchers_of};
ghost use Rattle.ng_watch.specs.Verdicts.{clean};
ghost use Rattle.ng_watch.specs.Walks.{Arrival, Walks, next_of, reached_of, ends_at, behind_all, at_watcher};

use crate::engine::Engine;
use crate::known::is_ahead;
use crate::testing::{copied, copied_if_any};
use ng_base::fault::Memory;
use ng_base::path::Key;
use ng_watch::walking::{Reached, Walk};
use ng_watch::watch::Verdict;
use ng_watch::watchers::Watchers;

/// A walk over clean watchers from a key upwards, at most up to another one, each of which is tested.
pub(crate) fn walk_tested<'a>(
    engine: &'a Engine,
    from: Option<&'a Key>,
    last: Option<&Key>,
) -> Result<Walk, Memory>
    requires { WorksAre engine.now.works }
    ensures way { IfOk result (λ w. Walks (link.state_of engine.now.works).core.objects (link.state_of engine.now.works).watchers (option_copied last.entry) (option_copied from.entry) w.passed (reached_of w.reached)) }
    ensures sorted { InOrder page_machine (state_of engine.now) }
{
    let watchers = engine.works.watchers();
    let _in_order = watchers.count();
    watchers.walk(engine.alloc, &engine.works.core.store, from, last)
}

/// The least key above one, or the least of all.
pub(crate) fn key_from<'a>(watchers: &'a Watchers, from: Option<&Key>) -> Option<&'a Key>
    ensures { option_copied result ≡ next_of (option_copied from.entry) (watchers_of watchers.now) }
{
    match from {
        None => watchers.first(),
        Some(key) => watchers.next_after(key),
    }
}

/// Whether two keys are one. The numbers, which mostly tell them apart, are compared first.
fn is_same(last: &Key, key: &Key) -> bool
    ensures { result ≡ is_key last.now key.now }
{
    last.serial == key.serial && last.path == key.path
}

/// Whether a walk is to end at a key.
fn ends_at(last: Option<&Key>, key: &Key) -> bool
    ensures { result ≡ ends_at (option_copied last.entry) key.now }
{
    match last {
        None => false,
        Some(last) => is_same(last, key),
    }
}

/// Whether a walk that has passed some of so many watchers is to end at a key.
fn is_end(passed: u64, count: u64, last: Option<&Key>, key: &Key) -> bool
    ensures room { result ≡ false → passed < count }
    ensures other { result ≡ false → ends_at (option_copied last.entry) key.now ≡ false }
{
    passed >= count || ends_at(last, key)
}

/// A walk ends behind the last watcher, with the key up to which it went.
fn ended(passed: u64, cursor: Option<&Key>) -> Result<Walk, Memory>
    ensures { IfOk result (λ w. (w.passed ≡ passed) × (reached_of w.reached ≡ behind_all (option_copied cursor.entry))) }
{
    let last = copied_if_any(cursor)?;
    Ok(Walk {
        passed,
        reached: Reached::End(last),
    })
}

/// A walk comes to a watcher that is clean.
fn arrived(passed: u64, key: &Key) -> Result<Walk, Memory>
    ensures { IfOk result (λ w. (w.passed ≡ passed) × (reached_of w.reached ≡ at_watcher key.now (Ok clean))) }
{
    let key = copied(key)?;
    Ok(Walk {
        passed,
        reached: Reached::Watcher(key, Verdict::Clean),
    })
}

/// A walk comes to the next watcher, which may not be clean, and tests it.
fn arrived_told<'a>(
    engine: &'a Engine,
    passed: u64,
    cursor: Option<&'a Key>,
    key: &Key,
) -> Result<Walk, Memory>
    requires works { WorksAre engine.now.works }
    requires next { next_of (option_copied cursor) (link.state_of engine.now.works).watchers ≡ Some key.now }
    ensures { IfOk result (λ w. (w.passed ≡ passed) × ((last : Option Name) → Walks (link.state_of engine.now.works).core.objects (link.state_of engine.now.works).watchers last (option_copied cursor.entry) 0 (reached_of w.reached))) }
{
    let walk = walk_tested(engine, cursor, Some(key))?;
    Ok(Walk {
        passed,
        reached: walk.reached,
    })
}

/// Whether a walk from the cursor upwards comes to a key before it comes to another one.
fn comes_first(cursor: Option<&Key>, last: Option<&Key>, key: &Key) -> bool
    ensures { result ≡ is_between (option_copied cursor.entry) (option_copied last.entry) key.now }
{
    match last {
        None => false,
        Some(last) => is_ahead(cursor, last) && last.cmp(key).is_lt(),
    }
}

/// Where a walk that tests is to end, at a key or before: above a bound it tests one watcher at most.
pub(crate) fn first_end<'a>(
    engine: &'a Engine,
    bound: &Key,
    last: Option<&'a Key>,
) -> Option<&'a Key>
    requires { above page_machine engine.now.progress.cursor bound.now ≡ true }
    ensures { (n : ℕ) (a : Arrival) → Walks (link.state_of engine.now.works).core.objects (link.state_of engine.now.works).watchers (option_copied result) engine.now.progress.cursor n a → Walks (link.state_of engine.now.works).core.objects (link.state_of engine.now.works).watchers (option_copied last.entry) engine.now.progress.cursor n a }
{
    let watchers = engine.works.watchers();
    let _in_order = watchers.count();
    match watchers.next_after(bound) {
        None => last,
        Some(next) => {
            if comes_first(engine.progress.cursor(), last, next) {
                last
            } else {
                Some(next)
            }
        }
    }
}

/// A walk from the cursor upwards, at most up to a key, where all watchers above the cursor are clean but for those that were told.
pub(crate) fn pass_over(engine: &Engine, last: Option<&Key>) -> Result<Walk, Memory>
    requires works { WorksAre engine.now.works }
    requires known { (k : Name) → above page_machine engine.now.progress.cursor k ≡ true → IsCleanUnlessTold engine.now.told.keys (link.state_of engine.now.works).core.objects (link.state_of engine.now.works).watchers k }
    ensures sorted { InOrder page_machine (state_of engine.now) }
    ensures way { IfOk result (λ w. Walks (link.state_of engine.now.works).core.objects (link.state_of engine.now.works).watchers (option_copied last.entry) engine.now.progress.cursor w.passed (reached_of w.reached)) }
{
    let watchers = engine.works.watchers();
    let count = watchers.count();
    let mut cursor = engine.progress.cursor();
    let mut passed = 0;
    'keys: loop {
        match key_from(watchers, cursor) {
            None => return ended(passed, cursor),
            Some(key) => {
                if engine.told.contains(key) {
                    return arrived_told(engine, passed, cursor, key);
                }
                if is_end(passed, count, last, key) {
                    return arrived(passed, key);
                }
                passed += 1;
                cursor = Some(key);
            }
        }
    }
}
