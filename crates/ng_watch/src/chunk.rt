//! A run of neighbouring rows of the watchers' table, of which there is at least one.
ghost use Rattle.std.specs.Prelude.{◌≡◌, ◌<◌, ◌≤◌, ◌-◌, ◌++◌, ◌∷◌, [], Some, length, take, drop, IfOk, OnOk, OnErr, IsTrue, option_copied, slice_get};
ghost use Rattle.std.specs.List.{insert, remove, slice_set};
ghost use Rattle.std.specs.List.Sorted.{IsStrictlySortedBy};
ghost use Rattle.std.specs.Map.{keys_of};
ghost use Rattle.ng_base.specs.declared.path.Key.{Key as Name};
ghost use Rattle.ng_watch.specs.declared.watched.Watched.{Watched as Row};
ghost use Rattle.ng_watch.specs.Chunks.{AllBelow, NoneBelow, is_below, key_from};
ghost use Rattle.ng_behaviour.specs.Keys.{key_cmp};

use crate::watched::Watched;
use ng_base::name::Serial;
use ng_base::path::{Key, Path};
use ng_value::snapshot::Snap;
use std::alloc::{AllocError, Global};
use std::marker::Model;
use std::mem;

/// How many rows a chunk has room for.
const ROOM: usize = 64;

/// A run of neighbouring rows, of which there is at least one.
#[derive(Drop)]
pub(crate) struct Chunk {
    rows: Vec<(Key, Watched)>,
}

impl Model for Chunk {
    ghost use Rattle.std.specs.Prelude.{List, ◌<◌, length};
    ghost use Rattle.std.specs.Coded.{codes};
    ghost use Rattle.ng_base.specs.declared.path.Key.{Key as Name};
    ghost use Rattle.ng_base.specs.contracts.path.Key as key;
    ghost use Rattle.ng_watch.specs.contracts.watched.Watched as watched;
    ghost use Rattle.ng_watch.specs.declared.watched.Watched.{Watched as Row};

    ghost Value = { List (Name × Row) };

    ghost coded = { Prim.hlevel (codes, key.the_row.coded, watched.the_row.coded) };

    ghost view = { λ c. c.rows.items };

    ghost invariant = { λ c. 0 < length c.rows.items };
}

/// Whether a row is below the key of a path and a number.
pub(crate) fn is_below(row: &(Key, Watched), path: &Path, serial: Serial) -> bool
    ensures { result ≡ is_below (key_from path.now serial) row.now }
{
    let key = &row.0;
    key.path.cmp(path).then(key.serial.cmp(&serial)).is_lt()
}

impl Chunk {
    /// A chunk of one row.
    pub(crate) fn of_one(alloc: Global, row: (Key, Watched)) -> Result<Chunk, AllocError>
        ensures { IfOk result (λ c. c ≡ row ∷ []) }
    {
        let mut rows = Vec::with_capacity(alloc, ROOM)?;
        rows.push_reserved(row);
        Ok(Chunk { rows })
    }

    /// How many rows it has.
    pub(crate) fn len(&self) -> usize
        ensures len { result ≡ length self.now }
        ensures some { 0 < length self.now }
    {
        self.rows.len()
    }

    /// Whether its room is used up.
    pub(crate) fn is_full(&self) -> bool
        ensures { IsTrue result → 1 < length self.now }
    {
        self.rows.len() >= ROOM
    }

    /// Its rows.
    pub(crate) fn rows(&self) -> &[(Key, Watched)]
        ensures rows { result.now ≡ self.now }
        ensures some { 0 < length self.now }
    {
        self.rows.as_slice()
    }

    /// The row with a number.
    pub(crate) fn row(&self, at: usize) -> Option<&(Key, Watched)>
        ensures { option_copied result ≡ slice_get self.now at }
    {
        self.rows.get(at)
    }

    /// The first row.
    pub(crate) fn first(&self) -> &(Key, Watched)
        ensures { slice_get self.now 0 ≡ Some result.now }
    {
        &self.rows[0]
    }

    /// The last row.
    pub(crate) fn last(&self) -> &(Key, Watched)
        ensures last { slice_get self.now (length self.now - 1) ≡ Some result.now }
        ensures some { 0 < length self.now }
    {
        &self.rows[self.rows.len() - 1]
    }

    /// How many rows are below the key of a path and a number.
    pub(crate) fn below(&self, path: &Path, serial: Serial) -> usize
        requires { IsStrictlySortedBy key_cmp (keys_of self.now) }
        ensures bound { result ≤ length self.now }
        ensures lower { AllBelow (key_from path.now serial) (take result self.now) }
        ensures upper { NoneBelow (key_from path.now serial) (drop result self.now) }
        ensures some { 0 < length self.now }
    {
        self.rows.partition_point(|row| is_below(row, path, serial))
    }

    /// Puts a row in at a place.
    #[inline(always)]
    pub(crate) fn insert(&mut self, at: usize, row: (Key, Watched)) -> Result<(), AllocError>
        requires { at ≤ length self.old }
        ensures ok { OnOk result (self.new ≡ insert self.old at row) }
        ensures err { OnErr result (self.new ≡ self.old) }
    {
        self.rows.insert(at, row)?;
        Ok(())
    }

    /// Takes one of several rows out.
    pub(crate) fn remove(&mut self, at: usize) -> (Key, Watched)
        requires at { at < length self.old }
        requires several { 1 < length self.old }
        ensures row { slice_get self.old at ≡ Some result }
        ensures removed { self.new ≡ remove self.old at }
    {
        self.rows.remove(at)
    }

    /// Its only row.
    pub(crate) fn into_only(self) -> (Key, Watched)
        requires { length self ≡ 1 }
        ensures { self ≡ result ∷ [] }
    {
        let mut rows = self.rows;
        rows.remove(0)
    }

    /// Takes the upper half of the rows out.
    pub(crate) fn split(&mut self) -> Result<Chunk, AllocError>
        requires { 1 < length self.old }
        ensures ok { IfOk result (λ c. self.old ≡ self.new ++ c) }
        ensures err { OnErr result (self.new ≡ self.old) }
    {
        let half = self.rows.len() / 2;
        let rows = self.rows.split_off(half)?;
        Ok(Chunk { rows })
    }

    /// A row has another watcher.
    pub(crate) fn set_watched(&mut self, at: usize, watched: Watched)
        requires { at < length self.old }
        ensures { (e : Name × Row) → slice_get self.old at ≡ Some e → self.new ≡ slice_set self.old at (e.0, watched) }
    {
        self.rows[at].1 = watched;
    }

    /// The watcher of a row keeps a snapshot or nothing, and what it had kept is handed back.
    pub(crate) fn set_kept(&mut self, at: usize, kept: Option<Snap>) -> Option<Snap>
        requires { at < length self.old }
        ensures former { (e : Name × Row) → slice_get self.old at ≡ Some e → result ≡ e.1.kept }
        ensures kept { (e : Name × Row) → slice_get self.old at ≡ Some e → self.new ≡ slice_set self.old at (e.0, record { watch = e.1.watch; kept = kept }) }
    {
        mem::replace(&mut self.rows[at].1.kept, kept)
    }
}
