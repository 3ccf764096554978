//! Places in the chunks of the watchers' table: what stands there, and where a key stands.
ghost use Rattle.std.specs.Prelude.{◌≡◌, find as find_first, ◌<◌, ◌≤◌, suc, Some, None, true, false, length, IfOk, IfErr, IfSome, IsNone, not, option_copied, option_map, slice_get};
ghost use Rattle.std.specs.List.{filter};
ghost use Rattle.std.specs.List.Sorted.{IsStrictlySortedBy};
ghost use Rattle.std.specs.Map.{keys_of};
ghost use Rattle.std.specs.Option.{ForSome, IsSomeAnd};
ghost use Rattle.ng_watch.specs.Chunks.{joined, before, after, front, chunk_at, row_at, has_key, key_from, is_passed, AllBelow, NotBefore, IsEdge, IsGap};
ghost use Rattle.ng_behaviour.specs.Keys.{begins, is_above, is_key, key_cmp};
ghost use Rattle.ng_watch.specs.Table.{watchers_of};
ghost use Rattle.ng_watch.specs.Walks.{next_of};

use crate::chunk::{Chunk, is_below};
use crate::paths::begins;
use crate::watched::Watched;
use ng_base::name::Serial;
use ng_base::path::{Key, Path};

/// A chunk, and a row of it.
#[derive(Clone, Copy)]
pub(crate) struct Place {
    pub(crate) chunk: usize,
    pub(crate) row: usize,
}

/// The place that may be the next one, in the same chunk.
pub(crate) fn after(at: Place) -> Place {
    Place {
        chunk: at.chunk,
        row: at.row.saturating_add(1),
    }
}

/// The place that may be the one before, in the same chunk.
pub(crate) fn before(at: Place) -> Place {
    Place {
        chunk: at.chunk,
        row: at.row.saturating_sub(1),
    }
}

/// The row of a place.
pub(crate) fn row_at(chunks: &[Chunk], at: Place) -> Option<&(Key, Watched)>
    ensures { option_copied result ≡ row_at chunks.now at.chunk at.row }
{
    match chunks.get(at.chunk) {
        None => None,
        Some(chunk) => chunk.row(at.row),
    }
}

/// The first row of all.
pub(crate) fn first_row(chunks: &[Chunk]) -> Option<&(Key, Watched)>
    ensures { option_copied result ≡ slice_get (joined chunks.now) 0 }
{
    match chunks.first() {
        None => None,
        Some(chunk) => Some(chunk.first()),
    }
}

/// The place of the first row of the chunks from one on.
fn start(chunks: &[Chunk], chunk: usize) -> Place
    ensures row { row_at chunks.now result.chunk result.row ≡ slice_get (after chunks.now chunk 0) 0 }
    ensures rest { after chunks.now result.chunk result.row ≡ after chunks.now chunk 0 }
{
    let at = Place { chunk, row: 0 };
    match chunks.get(chunk) {
        None => at,
        Some(chunk) => {
            let _first = chunk.first();
            at
        }
    }
}

/// The place after one that has a row.
pub(crate) fn step(chunks: &[Chunk], at: Place) -> Place
    ensures row { row_at chunks.now result.chunk result.row ≡ slice_get (after chunks.now at.chunk (suc at.row)) 0 }
    ensures rest { after chunks.now result.chunk result.row ≡ after chunks.now at.chunk (suc at.row) }
{
    match chunks.get(at.chunk) {
        None => at,
        Some(chunk) => {
            if at.row < chunk.len() - 1 {
                Place {
                    chunk: at.chunk,
                    row: at.row + 1,
                }
            } else {
                start(chunks, at.chunk + 1)
            }
        }
    }
}

/// Whether a row has a key. The numbers, which mostly tell two keys apart, are compared first.
pub(crate) fn is_of(row: &(Key, Watched), key: &Key) -> bool
    ensures { result ≡ is_key key.now row.now.0 }
{
    key.serial == row.0.serial && key.path == row.0.path
}

/// Whether the row of a key stands at a place.
pub(crate) fn is_at(chunks: &[Chunk], at: Place, key: &Key) -> bool
    ensures { result ≡ has_key key.now (row_at chunks.now at.chunk at.row) }
{
    match row_at(chunks, at) {
        None => false,
        Some(row) => is_of(row, key),
    }
}

/// Whether all rows of a chunk are below the key of a path and a number.
fn is_passed(chunk: &Chunk, path: &Path, serial: Serial) -> bool
    ensures passed { result ≡ is_passed (key_from path.now serial) chunk.now }
{
    is_below(chunk.last(), path, serial)
}

/// The first chunk that is not wholly below the key of a path and a number, or how many chunks there are. A key above
/// all is told by one comparison.
fn chunk_for(chunks: &[Chunk], path: &Path, serial: Serial) -> usize
    requires { IsStrictlySortedBy key_cmp (keys_of (joined chunks.now)) }
    ensures lower { AllBelow (key_from path.now serial) (front chunks.now result) }
    ensures upper { is_passed (key_from path.now serial) (chunk_at chunks.now result) ≡ false }
{
    let mut low = 0;
    let mut high = chunks.len();
    let mut middle = high.saturating_sub(1);
    while low < high {
        if is_passed(&chunks[middle], path, serial) {
            low = middle + 1;
        } else {
            high = middle;
        }
        middle = low + (high - low) / 2;
    }
    low
}

/// Where the rows that are not below the key of a path and a number begin.
#[inline(never)]
pub(crate) fn edge(chunks: &[Chunk], path: &Path, serial: Serial) -> Place
    requires { IsStrictlySortedBy key_cmp (keys_of (joined chunks.now)) }
    ensures edge { IsEdge (key_from path.now serial) chunks.now result.chunk result.row }
    ensures row { result.row ≤ length (chunk_at chunks.now result.chunk) }
{
    let at = chunk_for(chunks, path, serial);
    match chunks.get(at) {
        None => Place { chunk: at, row: 0 },
        Some(chunk) => Place {
            chunk: at,
            row: chunk.below(path, serial),
        },
    }
}

/// The place of a key's row, or the one where it would stand, by a search.
#[inline(never)]
pub(crate) fn search(chunks: &[Chunk], key: &Key) -> Result<Place, Place>
    requires { IsStrictlySortedBy key_cmp (keys_of (joined chunks.now)) }
    ensures there { IfOk result (λ p. has_key key.now (row_at chunks.now p.chunk p.row) ≡ true) }
    ensures gap { IfErr result (λ p. IsGap key.now (before chunks.now p.chunk p.row) (after chunks.now p.chunk p.row)) }
    ensures next { IfErr result (λ p. slice_get (after chunks.now p.chunk p.row) 0 ≡ row_at chunks.now p.chunk p.row) }
{
    let at = edge(chunks, &key.path, key.serial);
    if is_at(chunks, at, key) {
        Ok(at)
    } else {
        Err(at)
    }
}

/// The place of a key's row, or the one where it would stand. A place that may be right is looked at first.
#[inline]
pub(crate) fn find(chunks: &[Chunk], at: Place, key: &Key) -> Result<Place, Place>
    requires { IsStrictlySortedBy key_cmp (keys_of (joined chunks.now)) }
    ensures there { IfOk result (λ p. has_key key.now (row_at chunks.now p.chunk p.row) ≡ true) }
    ensures gap { IfErr result (λ p. IsGap key.now (before chunks.now p.chunk p.row) (after chunks.now p.chunk p.row)) }
    ensures next { IfErr result (λ p. slice_get (after chunks.now p.chunk p.row) 0 ≡ row_at chunks.now p.chunk p.row) }
{
    if is_at(chunks, at, key) {
        Ok(at)
    } else {
        search(chunks, key)
    }
}

/// The place of the first row above a key, if there is one. A place where the key may stand is looked at first.
pub(crate) fn next_place(chunks: &[Chunk], at: Place, key: &Key) -> Place
    requires { IsStrictlySortedBy key_cmp (keys_of (joined chunks.now)) }
    ensures { row_at chunks.now result.chunk result.row ≡ find_first (λ e. is_above key.now e.0) (joined chunks.now) }
{
    match find(chunks, at, key) {
        Ok(at) => step(chunks, at),
        Err(at) => at,
    }
}

/// The place of the first row above a key, or of the first row of all. A place where the key may stand is looked at first.
pub(crate) fn place_from(chunks: &[Chunk], at: Place, from: Option<&Key>) -> Place
    requires { IsStrictlySortedBy key_cmp (keys_of (joined chunks.now)) }
    ensures { option_map (λ e. e.0) (row_at chunks.now result.chunk result.row) ≡ next_of (option_copied from.entry) (watchers_of (joined chunks.now)) }
{
    match from {
        None => start(chunks, 0),
        Some(key) => next_place(chunks, at, key),
    }
}

/// The row of a place, where that is under a path.
pub(crate) fn row_under<'a>(chunks: &'a [Chunk], at: Place, p: &Path) -> Option<&'a (Key, Watched)>
    ensures there { IfSome result (λ e. (row_at chunks.now at.chunk at.row ≡ Some e.now) × (begins p.now e.now.0.path ≡ true)) }
    ensures none { IsNone result → ForSome (row_at chunks.now at.chunk at.row) (λ e. begins p.now e.0.path ≡ false) }
{
    let row = row_at(chunks, at)?;
    if begins(p.as_slice(), row.0.path.as_slice()) {
        Some(row)
    } else {
        None
    }
}

/// The place where the rows that are under a path begin, if there are any.
pub(crate) fn edge_under(chunks: &[Chunk], p: &Path) -> Place
    requires { IsStrictlySortedBy key_cmp (keys_of (joined chunks.now)) }
    ensures apart { filter (λ e. begins p.now e.0.path) (joined chunks.now) ≡ filter (λ e. begins p.now e.0.path) (after chunks.now result.chunk result.row) }
    ensures behind { NotBefore p.now (after chunks.now result.chunk result.row) }
    ensures row { slice_get (after chunks.now result.chunk result.row) 0 ≡ row_at chunks.now result.chunk result.row }
{
    edge(chunks, p, Serial(0))
}

/// The place of a row that is under a path, if there is one.
pub(crate) fn place_under(chunks: &[Chunk], p: &Path) -> Option<Place>
    requires { IsStrictlySortedBy key_cmp (keys_of (joined chunks.now)) }
    ensures there { IfSome result (λ at. IsSomeAnd (row_at chunks.now at.chunk at.row) (λ e. begins p.now e.0.path ≡ true)) }
    ensures none { IsNone result → filter (λ e. not (begins p.now e.0.path)) (joined chunks.now) ≡ joined chunks.now }
{
    let at = edge(chunks, p, Serial(0));
    match row_at(chunks, at) {
        None => None,
        Some(row) => {
            if begins(p.as_slice(), row.0.path.as_slice()) {
                Some(at)
            } else {
                None
            }
        }
    }
}
