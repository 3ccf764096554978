//! The watchers of a page, by their keys.
ghost use Rattle.std.specs.Prelude.{◌≡◌, ◌++◌, [], Some, None, IsSome, is_some, option_map, length, OnOk, OnErr, IfErr, IfOk, IfSome, option_copied, not, Bool};
ghost use Rattle.std.specs.List.{All, AllByRecursion, filter};
ghost use Rattle.ng_base.specs.declared.path.Key.{Key as Name};
ghost use Rattle.ng_watch.specs.declared.watched.Watched.{Watched as Row};
ghost use Rattle.std.specs.List.Sorted.{IsStrictlySortedBy};
ghost use Rattle.std.specs.Map.{keys_of};
ghost use Rattle.std.specs.Option.{ForSome};
ghost use Rattle.ng_base.specs.Faults.{is_memory};
ghost use Rattle.ng_base.specs.Meets.{Gives};
ghost use Rattle.ng_value.specs.Snaps.{snap_of};
ghost use Rattle.ng_watch.specs.Chunks.{joined};
ghost use Rattle.ng_behaviour.specs.Keys.{key_cmp, begins};
ghost use Rattle.ng_watch.specs.Ended.{is_over, over, without_over};
ghost use Rattle.ng_watch.specs.Seen.{watching_of, watcher_of, WatchStands};
ghost use Rattle.ng_watch.specs.Table.{watchers_of, found, kept_at, with_watch, without_watch, under, without_under, first_key, key_after, with_kept, AllStand};
ghost use Rattle.ng_watch.specs.Verdicts.{judged_of, verdict};
ghost use Rattle.ng_watch.specs.Walks.{Walks, reached_of};

use crate::chunk::Chunk;
use crate::ended::is_over;
use crate::paths::copied;
use crate::places::{edge_under, row_under, step};
use crate::table::RowTable;
use crate::testing::verdict;
use crate::walking::Walk;
use crate::watch::{Verdict, Watch};
use crate::watched::Watched;
use ng_base::fault::{Fault, Memory};
use ng_base::path::{Key, Path};
use ng_store::store::Store;
use ng_value::snapshot::Snap;
use std::alloc::{AllocError, Global};
use std::marker::Model;

/// The watchers of a page. Contracts see a list of keys with their watchers, in key order.
#[derive(Drop)]
pub struct Watchers {
    table: RowTable,
}

impl Model for Watchers {
    ghost use Rattle.std.specs.Prelude.{List};
    ghost use Rattle.std.specs.Coded.{codes};
    ghost use Rattle.ng_base.specs.declared.path.Key.{Key as Name};
    ghost use Rattle.ng_base.specs.contracts.path.Key as key;
    ghost use Rattle.ng_watch.specs.contracts.watched.Watched as watched;
    ghost use Rattle.ng_watch.specs.declared.watched.Watched.{Watched as Row};

    ghost Value = { List (Name × Row) };

    ghost coded = { Prim.hlevel (codes, key.the_row.coded, watched.the_row.coded) };

    ghost view = { λ w. w.table };
}

/// The keys of a scope and of those below it, which stand side by side.
fn keys_under(alloc: Global, chunks: &[Chunk], p: &Path) -> Result<Vec<Key>, AllocError>
    requires { IsStrictlySortedBy key_cmp (keys_of (joined chunks.now)) }
    ensures { IfOk result (λ ks. ks.items ≡ keys_of (filter (λ e. begins p.now e.0.path) (joined chunks.now))) }
{
    let mut keys = Vec::new(alloc);
    let mut at = edge_under(chunks, p);
    while let Some(row) = row_under(chunks, at, p) {
        keys.push(copied(&row.0)?)?;
        at = step(chunks, at);
    }
    Ok(keys)
}

/// Adds the keys of the one-time watchers of some rows whose binding has ended.
fn add_over(
    alloc: Global,
    keys: &mut Vec<Key>,
    store: &Store,
    rows: &[(Key, Watched)],
) -> Result<(), Memory>
    requires { All (λ e. WatchStands (length store.now) (watching_of e.1.watch)) rows.now }
    ensures { OnOk result (keys.new.items ≡ keys.old.items ++ keys_of (filter (λ e. is_over store.now (watcher_of e.1)) rows.now)) }
{
    for (key, watched) in rows {
        if is_over(alloc, store, watched)? {
            keys.push(copied(key)?)?;
        }
    }
    Ok(())
}

/// The keys of the one-time watchers whose binding has ended.
fn keys_over(alloc: Global, store: &Store, chunks: &[Chunk]) -> Result<Vec<Key>, Memory>
    requires { AllByRecursion (λ e. WatchStands (length store.now) (watching_of e.1.watch)) (joined chunks.now) }
    ensures { IfOk result (λ ks. ks.items ≡ keys_of (filter (λ e. is_over store.now (watcher_of e.1)) (joined chunks.now))) }
{
    let mut keys = Vec::new(alloc);
    for chunk in chunks {
        add_over(alloc, &mut keys, store, chunk.rows())?;
    }
    Ok(keys)
}

/// Takes the rows of some keys out, and hands them over in order. The keys are those of the rows that pass a test.
fn taken_out(
    alloc: Global,
    table: &mut RowTable,
    keys: &[Key],
) -> Result<Vec<(Key, Watched)>, AllocError>
    requires { IsStrictlySortedBy key_cmp (keys_of table.old) }
    ensures taken { IfOk result (λ rows. (passes : Name × Row → Bool) → keys.now ≡ keys_of (filter passes table.old) → (rows.items ≡ filter passes table.old) × (table.new ≡ filter (λ e. not (passes e)) table.old)) }
    ensures unchanged { OnErr result (table.new ≡ table.old) }
{
    let mut rows = Vec::with_capacity(alloc, keys.len())?;
    for key in keys {
        if let Some(row) = table.remove_entry(key) {
            rows.push_reserved(row);
        }
    }
    Ok(rows)
}

impl Watchers {
    /// No watch.
    pub fn new(alloc: Global) -> Watchers
        ensures { result ≡ [] }
    {
        Watchers {
            table: RowTable::new(alloc),
        }
    }

    /// Adds a watch that has kept nothing. It takes the place of one that had its key.
    pub fn add(&mut self, key: Key, w: Watch) -> Result<(), Memory>
        ensures added { OnOk result (watchers_of self.new ≡ with_watch key (watching_of w) (watchers_of self.old)) }
        ensures unchanged { OnErr result (watchers_of self.new ≡ watchers_of self.old) }
        ensures refused { IfErr result (λ e. e ≡ Memory.Refused) }
    {
        self.table.insert(
            key,
            Watched {
                watch: w,
                kept: None,
            },
        )?;
        Ok(())
    }

    /// Takes a watch out; whether it was there.
    pub fn remove(&mut self, key: &Key) -> bool
        ensures there { result ≡ is_some (found key.now (watchers_of self.old)) }
        ensures removed { watchers_of self.new ≡ without_watch key.now (watchers_of self.old) }
    {
        self.table.remove(key).is_some()
    }

    /// Takes a watcher out and hands it over.
    pub fn take(&mut self, key: &Key) -> Option<Watched>
        ensures taken { option_map watcher_of result ≡ found key.now (watchers_of self.old) }
        ensures removed { watchers_of self.new ≡ without_watch key.now (watchers_of self.old) }
    {
        self.table.remove(key)
    }

    /// Takes the watches of a scope, and of those below it, out.
    pub fn remove_under(&mut self, p: &Path)
        ensures { watchers_of self.new ≡ without_under p.now (watchers_of self.old) }
    {
        self.table.remove_under(p);
    }

    /// Takes the watchers of a scope, and of those below it, out, and hands them over in key order. Other watchers are not
    /// looked at, but for the few by which a search finds the way.
    pub fn take_under(&mut self, alloc: Global, p: &Path) -> Result<Vec<(Key, Watched)>, Memory>
        ensures taken { IfOk result (λ rows. watchers_of rows.items ≡ under p.now (watchers_of self.old)) }
        ensures removed { OnOk result (watchers_of self.new ≡ without_under p.now (watchers_of self.old)) }
        ensures unchanged { OnErr result (watchers_of self.new ≡ watchers_of self.old) }
        ensures refused { IfErr result (λ e. e ≡ Memory.Refused) }
    {
        let keys = keys_under(alloc, self.table.chunks(), p)?;
        let rows = taken_out(alloc, &mut self.table, &keys)?;
        Ok(rows)
    }

    /// Takes the one-time watchers whose binding has ended out, and hands them over in key order.
    pub fn take_over(&mut self, alloc: Global, store: &Store) -> Result<Vec<(Key, Watched)>, Memory>
        requires { AllStand (length store.now) (watchers_of self.old) }
        ensures taken { IfOk result (λ rows. watchers_of rows.items ≡ over store.now (watchers_of self.old)) }
        ensures removed { OnOk result (watchers_of self.new ≡ without_over store.now (watchers_of self.old)) }
        ensures unchanged { OnErr result (watchers_of self.new ≡ watchers_of self.old) }
    {
        let keys = keys_over(alloc, store, self.table.chunks())?;
        let rows = taken_out(alloc, &mut self.table, &keys)?;
        Ok(rows)
    }

    /// The least key.
    pub fn first(&self) -> Option<&Key>
        ensures key { option_copied result ≡ first_key (watchers_of self.now) }
        ensures there { IfSome result (λ k. IsSome (found k.now (watchers_of self.now))) }
    {
        self.table.first()
    }

    /// The least key above one, which need not be there. The next call at the key that is found, or right after it, needs
    /// no search.
    pub fn next_after(&self, key: &Key) -> Option<&Key>
        ensures key { option_copied result ≡ key_after key.now (watchers_of self.now) }
        ensures there { IfSome result (λ k. IsSome (found k.now (watchers_of self.now))) }
    {
        self.table.next_after(key)
    }

    /// The number of watches.
    pub fn count(&self) -> u64
        ensures count { result ≡ length (watchers_of self.now) }
        ensures ordered { IsStrictlySortedBy key_cmp (keys_of (watchers_of self.now)) }
    {
        self.table.len()
    }

    /// The watch of a key.
    pub fn watch(&self, key: &Key) -> &Watch
        requires { IsSome (found key.now (watchers_of self.now)) }
        ensures { option_map (λ w. w.watch) (found key.now (watchers_of self.now)) ≡ Some (watching_of result.now) }
    {
        match self.table.get(key) {
            Some(watched) => &watched.watch,
            None => unreachable!(),
        }
    }

    /// Whether a key has a watch.
    pub fn has(&self, key: &Key) -> bool
        ensures { result ≡ is_some (found key.now (watchers_of self.now)) }
    {
        match self.table.get(key) {
            None => false,
            Some(_) => true,
        }
    }

    /// What the watch of a key has kept, where there is one that has.
    pub fn kept_at(&self, key: &Key) -> Option<&Snap>
        ensures { option_map (λ s. snap_of s.now) result ≡ kept_at key.now (watchers_of self.now) }
    {
        match self.table.get(key) {
            None => None,
            Some(watched) => watched.kept.as_ref(),
        }
    }

    /// What the watch of a key has kept.
    pub fn kept(&self, key: &Key) -> Option<&Snap>
        requires { IsSome (found key.now (watchers_of self.now)) }
        ensures { option_map (λ w. w.kept) (found key.now (watchers_of self.now)) ≡ Some (option_map (λ s. snap_of s.now) result) }
    {
        match self.table.get(key) {
            Some(watched) => watched.kept.as_ref(),
            None => unreachable!(),
        }
    }

    /// The watch of a key keeps a snapshot, and what it had kept is handed back.
    pub fn keep(&mut self, key: &Key, s: Snap) -> Option<Snap>
        requires { IsSome (found key.now (watchers_of self.old)) }
        ensures former { option_map (λ w. w.kept) (found key.now (watchers_of self.old)) ≡ Some (option_map snap_of result) }
        ensures kept { watchers_of self.new ≡ with_kept key.now (Some (snap_of s)) (watchers_of self.old) }
    {
        match self.table.set_kept(key, Some(s)) {
            Some(former) => former,
            None => unreachable!(),
        }
    }

    /// The watch of a key keeps nothing, where there is one.
    pub fn unset(&mut self, key: &Key)
        ensures { watchers_of self.new ≡ with_kept key.now None (watchers_of self.old) }
    {
        let _former = self.table.set_kept(key, None);
    }

    /// A walk over the watchers above a key, or over all: it passes those that are clean, up to the first that isn't, to the one that has
    /// the key `last`, or to the end. The next call at the key to which it comes needs no search.
    pub fn walk<'a>(
        &'a self,
        alloc: Global,
        store: &Store,
        from: Option<&'a Key>,
        last: Option<&Key>,
    ) -> Result<Walk, Memory>
        requires { AllStand (length store.now) (watchers_of self.now) }
        ensures { IfOk result (λ w. Walks store.now (watchers_of self.now) (option_copied last.entry) (option_copied from.entry) w.passed (reached_of w.reached)) }
    {
        self.table.walk(alloc, store, from, last)
    }

    /// The verdict of the watcher of a key, with the snapshot that is to be kept where it is dirty.
    pub fn test(&self, alloc: Global, store: &Store, key: &Key) -> Result<Verdict, Fault>
        requires there { IsSome (found key.now (watchers_of self.now)) }
        requires stands { ForSome (found key.now (watchers_of self.now)) (λ w. WatchStands (length store.now) w.watch) }
        ensures { IfSome (found key.now (watchers_of self.now)) (λ w. Gives is_memory judged_of (verdict store.now w) result) }
    {
        match self.table.get(key) {
            Some(watched) => verdict(alloc, store, watched),
            None => unreachable!(),
        }
    }
}
