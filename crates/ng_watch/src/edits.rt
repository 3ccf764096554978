//! Changes of the chunks of the watchers' table at a place.
ghost use Rattle.std.specs.Prelude.{◌≡◌, ◌<◌, ◌≤◌, ◌++◌, ◌∷◌, [], suc, Some, length, IsSome, IfSome, IsTrue, not, OnOk, OnErr};
ghost use Rattle.std.specs.BTreeMap.{insert_entry};
ghost use Rattle.std.specs.List.{filter};
ghost use Rattle.std.specs.List.Sorted.{IsStrictlySortedBy};
ghost use Rattle.std.specs.Map.{keys_of};
ghost use Rattle.std.specs.Option.{ForSome};
ghost use Rattle.ng_watch.specs.Chunks.{joined, before, after, chunk_at, row_at, IsCounted, IsGap};
ghost use Rattle.ng_behaviour.specs.Keys.{begins, key_cmp};

use crate::chunk::Chunk;
use crate::places::{Place, edge, place_under};
use crate::watched::Watched;
use ng_base::path::{Key, Path};
use ng_value::snapshot::Snap;
use std::alloc::{AllocError, Global};

/// The row of a place has another watcher.
pub(crate) fn set_watched(chunks: &mut Vec<Chunk>, at: Place, watched: Watched)
    requires { IsSome (row_at chunks.old.items at.chunk at.row) }
    ensures { ForSome (row_at chunks.old.items at.chunk at.row) (λ e. joined chunks.new.items ≡ before chunks.old.items at.chunk at.row ++ (e.0, watched) ∷ after chunks.old.items at.chunk (suc at.row)) }
{
    chunks[at.chunk].set_watched(at.row, watched);
}

/// The watcher of a place's row keeps a snapshot or nothing, and what it had kept is handed back.
pub(crate) fn set_kept(chunks: &mut Vec<Chunk>, at: Place, kept: Option<Snap>) -> Option<Snap>
    requires { IsSome (row_at chunks.old.items at.chunk at.row) }
    ensures former { ForSome (row_at chunks.old.items at.chunk at.row) (λ e. result ≡ e.1.kept) }
    ensures kept { ForSome (row_at chunks.old.items at.chunk at.row) (λ e. joined chunks.new.items ≡ before chunks.old.items at.chunk at.row ++ (e.0, record { watch = e.1.watch; kept = kept }) ∷ after chunks.old.items at.chunk (suc at.row)) }
{
    chunks[at.chunk].set_kept(at.row, kept)
}

/// Takes the row of a place out, and its chunk with it where that has no other row.
pub(crate) fn take_row(chunks: &mut Vec<Chunk>, at: Place) -> (Key, Watched)
    requires { IsSome (row_at chunks.old.items at.chunk at.row) }
    ensures row { row_at chunks.old.items at.chunk at.row ≡ Some result }
    ensures left { joined chunks.new.items ≡ before chunks.old.items at.chunk at.row ++ after chunks.old.items at.chunk (suc at.row) }
{
    if chunks[at.chunk].len() > 1 {
        chunks[at.chunk].remove(at.row)
    } else {
        chunks.remove(at.chunk).into_only()
    }
}

/// Takes the row of a place out, and lets go of it.
fn drop_row(chunks: &mut Vec<Chunk>, at: Place)
    requires { IsSome (row_at chunks.old.items at.chunk at.row) }
    ensures { joined chunks.new.items ≡ before chunks.old.items at.chunk at.row ++ after chunks.old.items at.chunk (suc at.row) }
{
    let _row = take_row(chunks, at);
}

/// Takes the rows under a path out, of so many rows. How many are left.
pub(crate) fn drop_under(chunks: &mut Vec<Chunk>, count: u64, p: &Path) -> u64
    requires { IsCounted count (joined chunks.old.items) }
    ensures counted { IsCounted result (joined chunks.new.items) }
    ensures rows { joined chunks.new.items ≡ filter (λ e. not (begins p.now e.0.path)) (joined chunks.old.items) }
{
    let mut left = count;
    while let Some(at) = place_under(chunks, p) {
        drop_row(chunks, at);
        left -= 1;
    }
    left
}

/// Puts a row into the chunk of a place.
#[inline(always)]
fn insert_row(chunks: &mut [Chunk], at: Place, row: (Key, Watched)) -> Result<(), AllocError>
    requires chunk { at.chunk < length chunks.old }
    requires row { at.row ≤ length (chunk_at chunks.old at.chunk) }
    ensures ok { OnOk result (joined chunks.new ≡ before chunks.old at.chunk at.row ++ row ∷ after chunks.old at.chunk at.row) }
    ensures err { OnErr result (joined chunks.new ≡ joined chunks.old) }
{
    chunks[at.chunk].insert(at.row, row)
}

/// The place after all rows, where the last chunk has room for one.
fn room_at_end(chunks: &[Chunk]) -> Option<Place>
    ensures chunk { IfSome result (λ p. p.chunk < length chunks.now) }
    ensures row { IfSome result (λ p. p.row ≤ length (chunk_at chunks.now p.chunk)) }
    ensures end { IfSome result (λ p. (before chunks.now p.chunk p.row ≡ joined chunks.now) × (after chunks.now p.chunk p.row ≡ [])) }
{
    let last = chunks.last()?;
    if last.is_full() {
        return None;
    }
    Some(Place {
        chunk: chunks.len() - 1,
        row: last.len(),
    })
}

/// Puts a row in after all others.
#[inline(always)]
fn put_last(chunks: &mut Vec<Chunk>, alloc: Global, row: (Key, Watched)) -> Result<(), AllocError>
    ensures ok { OnOk result (joined chunks.new.items ≡ joined chunks.old.items ++ row ∷ []) }
    ensures err { OnErr result (joined chunks.new.items ≡ joined chunks.old.items) }
{
    if let Some(at) = room_at_end(chunks) {
        return insert_row(chunks, at, row);
    }
    let chunk = Chunk::of_one(alloc, row)?;
    chunks.push(chunk)?;
    Ok(())
}

/// Whether a chunk has no room for one row more.
fn is_full(chunks: &[Chunk], chunk: usize) -> bool
    ensures { IsTrue result → (chunk < length chunks.now) × (1 < length (chunk_at chunks.now chunk)) }
{
    match chunks.get(chunk) {
        None => false,
        Some(chunk) => chunk.is_full(),
    }
}

/// Parts a chunk into two.
fn split(chunks: &mut Vec<Chunk>, chunk: usize) -> Result<(), AllocError>
    requires there { chunk < length chunks.old.items }
    requires several { 1 < length (chunk_at chunks.old.items chunk) }
    ensures { joined chunks.new.items ≡ joined chunks.old.items }
{
    chunks.reserve(1)?;
    let upper = chunks[chunk].split()?;
    match chunks.insert(chunk + 1, upper) {
        Ok(()) => Ok(()),
        Err(_) => unreachable!(),
    }
}

/// Puts a row in at a place, which is past the last chunk where it is to come after all others.
#[inline(always)]
fn put_at(
    chunks: &mut Vec<Chunk>,
    alloc: Global,
    at: Place,
    row: (Key, Watched),
) -> Result<(), AllocError>
    requires { at.row ≤ length (chunk_at chunks.old.items at.chunk) }
    ensures ok { OnOk result (joined chunks.new.items ≡ before chunks.old.items at.chunk at.row ++ row ∷ after chunks.old.items at.chunk at.row) }
    ensures err { OnErr result (joined chunks.new.items ≡ joined chunks.old.items) }
{
    if at.chunk < chunks.len() {
        insert_row(chunks, at, row)
    } else {
        put_last(chunks, alloc, row)
    }
}

/// Puts a row in where its key, which has none, would stand. A chunk that is full is parted first.
pub(crate) fn put_in(
    chunks: &mut Vec<Chunk>,
    alloc: Global,
    at: Place,
    row: (Key, Watched),
) -> Result<(), AllocError>
    requires sorted { IsStrictlySortedBy key_cmp (keys_of (joined chunks.old.items)) }
    requires gap { IsGap row.0 (before chunks.old.items at.chunk at.row) (after chunks.old.items at.chunk at.row) }
    requires row { at.row ≤ length (chunk_at chunks.old.items at.chunk) }
    ensures ok { OnOk result (joined chunks.new.items ≡ insert_entry key_cmp (joined chunks.old.items) row.0 row.1) }
    ensures err { OnErr result (joined chunks.new.items ≡ joined chunks.old.items) }
{
    if !is_full(chunks, at.chunk) {
        return put_at(chunks, alloc, at, row);
    }
    split(chunks, at.chunk)?;
    let at = edge(chunks, &row.0.path, row.0.serial);
    put_at(chunks, alloc, at, row)
}
