//! The rows of the watchers in key order, in chunks, so that a row comes and goes at the cost of its chunk, with the
//! place where a walk stands, so that a walk finds its rows without a search.
ghost use Rattle.std.specs.Prelude.{◌≡◌, [], Some, find, length, not, IfErr, IfOk, IfSome, MatchOption, OnOk, OnErr, option_copied, option_map, slice_get};
ghost use Rattle.std.specs.BTreeMap.{insert_entry};
ghost use Rattle.std.specs.List.{filter};
ghost use Rattle.std.specs.List.Sorted.{IsStrictlySortedBy};
ghost use Rattle.std.specs.Map.{keys_of, lookup, lookup_key, remove_entry, set_value};
ghost use Rattle.ng_base.specs.declared.path.Key.{Key as Name};
ghost use Rattle.ng_watch.specs.declared.watched.Watched.{Watched as Row};
ghost use Rattle.ng_watch.specs.Chunks.{joined};
ghost use Rattle.ng_behaviour.specs.Keys.{key_cmp, is_key, is_above, begins};
ghost use Rattle.ng_watch.specs.Table.{watchers_of, AllStand};
ghost use Rattle.ng_watch.specs.Walks.{Walks, reached_of};

use crate::chunk::Chunk;
use crate::edits::{drop_under, put_in, set_kept, set_watched, take_row};
use crate::places::{
    Place, after, before, edge, find, first_row, is_at, is_of, next_place, place_from, row_at,
    search,
};
use crate::walking::{Walk, walk_on};
use crate::watched::Watched;
use ng_base::fault::Memory;
use ng_base::path::{Key, Path};
use ng_store::store::Store;
use ng_value::snapshot::Snap;
use std::alloc::Global;
use std::cell::Cell;
use std::marker::Model;

/// The place of the first row.
const FIRST: Place = Place { chunk: 0, row: 0 };

/// Rows in key order. Contracts see them as one list. The place is that of the row that was found last, where the next
/// look begins: it stands in a cell, since no answer depends on it.
#[derive(Drop)]
pub(crate) struct RowTable {
    alloc: Global,
    chunks: Vec<Chunk>,
    at: Cell<Place>,
    count: u64,
}

impl Model for RowTable {
    ghost use Rattle.std.specs.Prelude.{List};
    ghost use Rattle.std.specs.Coded.{codes};
    ghost use Rattle.ng_base.specs.declared.path.Key.{Key as Name};
    ghost use Rattle.ng_base.specs.contracts.path.Key as key;
    ghost use Rattle.ng_watch.specs.contracts.watched.Watched as watched;
    ghost use Rattle.ng_watch.specs.declared.watched.Watched.{Watched as Row};
    ghost use Rattle.ng_watch.specs.Chunks.{joined, IsCounted};

    ghost Value = { List (Name × Row) };

    ghost coded = { Prim.hlevel (codes, key.the_row.coded, watched.the_row.coded) };

    ghost view = { λ t. joined t.chunks.items };

    ghost invariant = { λ t. IsCounted t.count (joined t.chunks.items) };
}

/// The key of a row.
fn key_of(row: Option<&(Key, Watched)>) -> Option<&Key>
    ensures { option_copied result ≡ option_map (λ e. e.0) (option_copied row.entry) }
{
    let row = row?;
    Some(&row.0)
}

impl RowTable {
    /// No row.
    pub(crate) fn new(alloc: Global) -> RowTable
        ensures { result ≡ [] }
    {
        RowTable {
            alloc,
            chunks: Vec::new(alloc),
            at: Cell::new(FIRST),
            count: 0,
        }
    }

    /// The number of rows.
    pub(crate) fn len(&self) -> u64
        ensures count { result ≡ length self.now }
        ensures ordered { IsStrictlySortedBy key_cmp (keys_of self.now) }
    {
        self.count
    }

    /// The chunks of the rows.
    pub(crate) fn chunks(&self) -> &[Chunk]
        ensures rows { joined result.now ≡ self.now }
        ensures ordered { IsStrictlySortedBy key_cmp (keys_of self.now) }
    {
        self.chunks.as_slice()
    }

    /// The least key.
    pub(crate) fn first(&self) -> Option<&Key>
        ensures { option_copied result ≡ option_map (λ e. e.0) (slice_get self.now 0) }
    {
        self.at.set(FIRST);
        let row = first_row(&self.chunks)?;
        Some(&row.0)
    }

    /// The least key above one. The place moves on to its row.
    pub(crate) fn next_after(&self, key: &Key) -> Option<&Key>
        ensures { option_copied result ≡ option_map (λ e. e.0) (find (λ e. is_above key.now e.0) self.now) }
    {
        let next = next_place(&self.chunks, self.at.get(), key);
        self.at.set(next);
        key_of(row_at(&self.chunks, next))
    }

    /// A walk over the rows above a key, or over all of them, up to the row of another key. The place moves on to the row to
    /// which it comes.
    pub(crate) fn walk<'a>(
        &'a self,
        alloc: Global,
        store: &Store,
        from: Option<&'a Key>,
        last: Option<&Key>,
    ) -> Result<Walk, Memory>
        requires { AllStand (length store.now) (watchers_of self.now) }
        ensures { IfOk result (λ w. Walks store.now (watchers_of self.now) (option_copied last.entry) (option_copied from.entry) w.passed (reached_of w.reached)) }
    {
        let rows = self.chunks();
        let start = place_from(rows, self.at.get(), from);
        let stop = walk_on(alloc, store, rows, self.count, from, start, last)?;
        self.at.set(stop.at);
        Ok(stop.walk)
    }

    /// The watcher of a key, where its row stands at a place.
    #[inline]
    fn at_place(&self, at: Place, key: &Key) -> Option<&Watched>
        ensures value { IfSome result (λ w. lookup (is_key key.now) self.now ≡ Some w.now) }
    {
        match row_at(&self.chunks, at) {
            Some(row) if is_of(row, key) => Some(&row.1),
            _ => None,
        }
    }

    /// The watcher of a key.
    #[inline]
    pub(crate) fn get(&self, key: &Key) -> Option<&Watched>
        ensures value { option_copied result ≡ lookup (is_key key.now) self.now }
    {
        match self.at_place(self.at.get(), key) {
            Some(watched) => Some(watched),
            None => self.beside(key),
        }
    }

    /// The watcher of a key, of which the row may stand after or before that which was found last, as the holes of one text do; else by a search.
    #[inline(never)]
    fn beside(&self, key: &Key) -> Option<&Watched>
        ensures value { option_copied result ≡ lookup (is_key key.now) self.now }
    {
        let at = self.at.get();
        if let Some(watched) = self.at_place(after(at), key) {
            return Some(watched);
        }
        match self.at_place(before(at), key) {
            Some(watched) => Some(watched),
            None => self.search(key),
        }
    }

    /// The watcher of a key, by a search.
    #[inline(never)]
    fn search(&self, key: &Key) -> Option<&Watched>
        ensures value { option_copied result ≡ lookup (is_key key.now) self.now }
    {
        let Ok(at) = search(&self.chunks, key) else {
            return None;
        };
        self.at.set(at);
        let row = row_at(&self.chunks, at)?;
        Some(&row.1)
    }

    /// Puts a row in at the place of its key. A row that has the key takes the watcher.
    pub(crate) fn insert(&mut self, key: Key, watched: Watched) -> Result<(), Memory>
        ensures ok { OnOk result (self.new ≡ insert_entry key_cmp self.old key watched) }
        ensures err { OnErr result (self.new ≡ self.old) }
        ensures refused { IfErr result (λ e. e ≡ Memory.Refused) }
    {
        let at = edge(&self.chunks, &key.path, key.serial);
        if is_at(&self.chunks, at, &key) {
            set_watched(&mut self.chunks, at, watched);
            return Ok(());
        }
        if self.count == u64::MAX {
            return Err(Memory::Refused);
        }
        put_in(&mut self.chunks, self.alloc, at, (key, watched))?;
        self.count += 1;
        Ok(())
    }

    /// Takes the row of a key out.
    pub(crate) fn remove_entry(&mut self, key: &Key) -> Option<(Key, Watched)>
        ensures key { option_map (λ e. e.0) result ≡ lookup_key (is_key key.now) self.old }
        ensures value { option_map (λ e. e.1) result ≡ lookup (is_key key.now) self.old }
        ensures entries { self.new ≡ remove_entry (is_key key.now) self.old }
        ensures ordered { IsStrictlySortedBy key_cmp (keys_of self.new) }
    {
        let Ok(at) = find(&self.chunks, self.at.get(), key) else {
            return None;
        };
        self.at.set(at);
        self.count -= 1;
        Some(take_row(&mut self.chunks, at))
    }

    /// Takes the row of a key out. Its watcher is handed over.
    pub(crate) fn remove(&mut self, key: &Key) -> Option<Watched>
        ensures value { result ≡ lookup (is_key key.now) self.old }
        ensures entries { self.new ≡ remove_entry (is_key key.now) self.old }
    {
        let (_, watched) = self.remove_entry(key)?;
        Some(watched)
    }

    /// Takes the rows of a path, and of those below it, out.
    pub(crate) fn remove_under(&mut self, p: &Path)
        ensures { self.new ≡ filter (λ e. not (begins p.now e.0.path)) self.old }
    {
        self.count = drop_under(&mut self.chunks, self.count, p);
    }

    /// The watcher of a key keeps a snapshot or nothing. Where there is one, what it had kept is handed back.
    pub(crate) fn set_kept(&mut self, key: &Key, kept: Option<Snap>) -> Option<Option<Snap>>
        ensures former { result ≡ option_map (λ w. w.kept) (lookup (is_key key.now) self.old) }
        ensures kept { MatchOption (lookup (is_key key.now) self.old) (self.new ≡ self.old) (λ w. self.new ≡ set_value (is_key key.now) self.old (record { watch = w.watch; kept = kept })) }
    {
        let Ok(at) = find(&self.chunks, self.at.get(), key) else {
            return None;
        };
        Some(set_kept(&mut self.chunks, at, kept))
    }
}
