//! Which rows a repeat keeps (API: `ngRepeat`).
ghost use Rattle.std.specs.Prelude.{◌≡◌, ◌<◌, ◌^◌, length, map, not, false, IfOk, Ok, Err, if◌then◌else◌};
ghost use Rattle.ng_base.specs.Meets.{Meets, Gives};
ghost use Rattle.ng_blocks.specs.Plans.{has_double, gone_places, row_of, planned, is_free};
ghost use Rattle.ng_blocks.specs.declared.plans.PlanFault.TheVariants.{Dupes};

use crate::keys::{TrackKey, TrackKeys};
use crate::plans::{Plan, PlanFault};
use indexmap::IndexSet;
use ng_base::lists::{Numbers, Sources};
use std::alloc::{AllocError, Global};

/// The keys as a set in their order, where no two of them are the same.
fn set_of(alloc: Global, keys: &[TrackKey]) -> Result<IndexSet<TrackKey>, PlanFault>
    ensures { Gives is_free (λ s. s.keys) (if has_double keys.now then Err Dupes else Ok keys.now) result }
{
    let mut set = IndexSet::new(alloc);
    for key in keys {
        if !set.insert(key.copied()?)? {
            return Err(PlanFault::Dupes);
        }
    }
    Ok(set)
}

/// The places of the rows whose key is not among the entries.
fn gone(
    alloc: Global,
    rows: &[TrackKey],
    entries: &IndexSet<TrackKey>,
) -> Result<Numbers, AllocError>
    requires { length rows.now < 2 ^ 32 }
    ensures { IfOk result (λ n. n ≡ gone_places rows.now entries.now.keys) }
{
    let mut numbers = Numbers::new(alloc);
    for (i, key) in rows.iter().enumerate() {
        if !entries.contains(key) {
            numbers.push(i as u32)?;
        }
    }
    Ok(numbers)
}

/// For each entry the place of the row of its key.
fn sources(
    alloc: Global,
    rows: &IndexSet<TrackKey>,
    entries: &[TrackKey],
) -> Result<Sources, AllocError>
    requires { length rows.now.keys < 2 ^ 32 }
    ensures { IfOk result (λ s. s ≡ map (row_of rows.now.keys) entries.now) }
{
    let mut sources = Sources::new(alloc);
    for key in entries {
        sources.push(place_of(rows, key))?;
    }
    Ok(sources)
}

/// The place of the row of a key.
fn place_of(rows: &IndexSet<TrackKey>, key: &TrackKey) -> Option<u32>
    requires { length rows.now.keys < 2 ^ 32 }
    ensures { result ≡ row_of rows.now.keys key.now }
{
    match rows.get_index_of(key) {
        Some(place) => Some(place as u32),
        None => None,
    }
}

/// Which rows go, and which row each entry comes from. Once that is done the entries are the rows.
pub fn plan(alloc: Global, old: &TrackKeys, new: &TrackKeys) -> Result<Plan, PlanFault>
    requires few { length old.now < 2 ^ 32 }
    requires differ { has_double old.now ≡ false }
    ensures { Meets is_free (planned old.now new.now) result }
{
    let rows = set_of(alloc, old.as_slice())?;
    let entries = set_of(alloc, new.as_slice())?;
    Ok(Plan {
        gone: gone(alloc, old.as_slice(), &entries)?,
        from: sources(alloc, &rows, new.as_slice())?,
    })
}
