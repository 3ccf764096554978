//! A walk over rows by reference: of the keys that it meets only the one is copied to which it comes.
ghost use Rattle.std.specs.Prelude.{◌≡◌, ◌<◌, Ok, false, length, IfOk, IfSome, IsNone, Result, option_copied, option_map};
ghost use Rattle.std.specs.List.Sorted.{IsStrictlySortedBy};
ghost use Rattle.std.specs.Map.{keys_of};
ghost use Rattle.ng_base.specs.Faults.{is_memory};
ghost use Rattle.ng_base.specs.Meets.{Gives};
ghost use Rattle.ng_base.specs.declared.fault.Fault.{Fault};
ghost use Rattle.ng_watch.specs.Chunks.{joined, row_at};
ghost use Rattle.ng_behaviour.specs.Keys.{key_cmp};
ghost use Rattle.ng_watch.specs.Table.{watchers_of, AllStand};
ghost use Rattle.ng_watch.specs.Verdicts.{Judged, judged_of};
ghost use Rattle.ng_watch.specs.Walks.{Walks, behind_all, at_watcher, reached_of, next_of, ends_at};
ghost use Rattle.ng_watch.specs.declared.watch.Verdict.TheVariants.{Clean};

use crate::chunk::Chunk;
use crate::paths::copied;
use crate::places::{Place, is_of, row_at, step};
use crate::testing::verdict;
use crate::watch::Verdict;
use crate::watched::Watched;
use ng_base::fault::{Fault, Memory};
use ng_base::path::Key;
use ng_store::store::Store;
use std::alloc::{AllocError, Global};

/// Where a walk ended: behind the last watcher, with the key up to which it went; or at a watcher, with what its test found.
#[derive(Drop)]
pub enum Reached {
    End(Option<Key>),
    Watcher(Key, Verdict),
    Faulted(Key, Fault),
}

/// How many watchers a walk passed, and where it ended.
#[derive(Drop)]
pub struct Walk {
    pub passed: u64,
    pub reached: Reached,
}

/// A walk, and the place of the row to which it came.
#[derive(Drop)]
pub(crate) struct Stop {
    pub(crate) walk: Walk,
    pub(crate) at: Place,
}

/// Whether a walk is to end at a row.
fn ends_at(last: Option<&Key>, row: &(Key, Watched)) -> bool
    ensures { result ≡ ends_at (option_copied last.entry) row.now.0 }
{
    match last {
        None => false,
        Some(key) => is_of(row, key),
    }
}

/// What the test of a row found, where a walk that has passed some of so many rows ends there. None where it goes on behind it.
fn ending(
    passed: u64,
    count: u64,
    last: Option<&Key>,
    row: &(Key, Watched),
    found: Result<Verdict, Fault>,
) -> Option<Result<Verdict, Fault>>
    ensures same { IfSome result (λ r. r ≡ found) }
    ensures room { IsNone result → passed < count }
    ensures other { IsNone result → ends_at (option_copied last.entry) row.now.0 ≡ false }
    ensures clean { IsNone result → found ≡ Ok Clean }
{
    if passed >= count || ends_at(last, row) {
        return Some(found);
    }
    match found {
        Ok(Verdict::Clean) => None,
        found => Some(found),
    }
}

/// A copy of the key up to which a walk went.
fn copied_if_any(key: Option<&Key>) -> Result<Option<Key>, AllocError>
    ensures { IfOk result (λ k. k ≡ option_copied key.entry) }
{
    match key {
        None => Ok(None),
        Some(key) => Ok(Some(copied(key)?)),
    }
}

/// A walk ends behind the last row.
fn ended(passed: u64, cursor: Option<&Key>, at: Place) -> Result<Stop, Memory>
    ensures { IfOk result (λ s. (s.walk.passed ≡ passed) × (reached_of s.walk.reached ≡ behind_all (option_copied cursor.entry))) }
{
    let last = copied_if_any(cursor)?;
    Ok(Stop {
        walk: Walk {
            passed,
            reached: Reached::End(last),
        },
        at,
    })
}

/// A walk comes to a row, with what its test found.
fn reach(row: &(Key, Watched), found: Result<Verdict, Fault>) -> Result<Reached, Memory>
    ensures { (asked : Result Judged Fault) → Gives is_memory judged_of asked found → IfOk result (λ r. reached_of r ≡ at_watcher row.now.0 asked) }
{
    match found {
        Ok(verdict) => Ok(Reached::Watcher(copied(&row.0)?, verdict)),
        Err(Fault::Memory(memory)) => Err(memory),
        Err(fault) => Ok(Reached::Faulted(copied(&row.0)?, fault)),
    }
}

/// A walk ends at a row, with what its test found.
fn arrived(
    passed: u64,
    row: &(Key, Watched),
    found: Result<Verdict, Fault>,
    at: Place,
) -> Result<Stop, Memory>
    ensures { (asked : Result Judged Fault) → Gives is_memory judged_of asked found → IfOk result (λ s. (s.walk.passed ≡ passed) × (reached_of s.walk.reached ≡ at_watcher row.now.0 asked)) }
{
    let reached = reach(row, found)?;
    Ok(Stop {
        walk: Walk { passed, reached },
        at,
    })
}

/// A walk over so many rows, from the place of the first one above a key.
pub(crate) fn walk_on<'a>(
    alloc: Global,
    store: &Store,
    chunks: &'a [Chunk],
    count: u64,
    from: Option<&'a Key>,
    start: Place,
    last: Option<&Key>,
) -> Result<Stop, Memory>
    requires sorted { IsStrictlySortedBy key_cmp (keys_of (joined chunks.now)) }
    requires stands { AllStand (length store.now) (watchers_of (joined chunks.now)) }
    requires start { option_map (λ e. e.0) (row_at chunks.now start.chunk start.row) ≡ next_of (option_copied from) (watchers_of (joined chunks.now)) }
    ensures { IfOk result (λ s. Walks store.now (watchers_of (joined chunks.now)) (option_copied last.entry) (option_copied from.entry) s.walk.passed (reached_of s.walk.reached)) }
{
    let mut at = start;
    let mut cursor = from;
    let mut passed = 0;
    'rows: loop {
        match row_at(chunks, at) {
            None => return ended(passed, cursor, at),
            Some(row) => {
                let found = verdict(alloc, store, &row.1);
                if let Some(found) = ending(passed, count, last, row, found) {
                    return arrived(passed, row, found, at);
                }
                passed += 1;
                cursor = Some(&row.0);
                at = step(chunks, at);
            }
        }
    }
}
