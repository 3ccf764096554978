//! The index of the live scopes by path.
ghost use Rattle.std.specs.Prelude.{◌≡◌, ◌<◌, ℕ, List, Bool, true, false, Some, None, IsSome, length, MatchOption, OnOk, OnErr, ◌&&◌, if◌then◌else◌};
ghost use Rattle.std.specs.BTreeMap.{get};
ghost use Rattle.std.specs.BTreeMap.Range.{IsFromStart};
ghost use Rattle.std.specs.Ordering.{is_gt, is_eq};
ghost use Rattle.ng_base.specs.Order.{path_cmp};
ghost use Rattle.ng_behaviour.specs.Scopes.{begins};
ghost use Rattle.ng_scopes.specs.Index.{IsFirst, NoneFrom, IsFirstAhead, NoneAbove};

use ng_base::path::Path;
use std::alloc::AllocError;
use std::collections::BTreeMap;
use std::ops::Bound;

/// Whether a path begins with another.
pub fn begins(u: &[u32], p: &[u32]) -> bool
    ensures { result ≡ begins u.now p.now }
{
    match u.split_first() {
        None => true,
        Some((x, xs)) => match p.split_first() {
            None => false,
            Some((y, ys)) => *x == *y && begins(xs, ys),
        },
    }
}

/// The live scope of the least path from a path on, where that begins with `under`.
pub fn first_from(index: &BTreeMap<Path, u32>, from: &Path, under: &Path) -> Option<u32>
    requires { is_gt (path_cmp under.now from.now) ≡ false }
    ensures { MatchOption result (NoneFrom (get path_cmp index.now) (Bound.Included from.now) under.now) (IsFirst (get path_cmp index.now) (Bound.Included from.now) under.now) }
{
    let start = Bound::Included(from);
    match index.range((start, Bound::Unbounded)).next() {
        None => None,
        Some((path, id)) => {
            if begins(under.as_slice(), path.as_slice()) {
                Some(*id)
            } else {
                None
            }
        }
    }
}

/// The live scope of the least path above a path, where that begins with `under`.
pub fn first_above(index: &BTreeMap<Path, u32>, p: &Path, under: &Path) -> Option<u32>
    requires { is_gt (path_cmp under.now p.now) ≡ false }
    ensures { MatchOption result (NoneFrom (get path_cmp index.now) (Bound.Excluded p.now) under.now) (IsFirst (get path_cmp index.now) (Bound.Excluded p.now) under.now) }
{
    let start = Bound::Excluded(p);
    match index.range((start, Bound::Unbounded)).next() {
        None => None,
        Some((path, id)) => {
            if begins(under.as_slice(), path.as_slice()) {
                Some(*id)
            } else {
                None
            }
        }
    }
}

/// The live scope of the least path above `p` that begins with `under`.
#[tactic(auto, using(crate::proofs::Ahead::bounds))]
pub fn first_ahead(index: &BTreeMap<Path, u32>, p: &Path, under: &Path) -> Option<u32>
    ensures { MatchOption result (NoneAbove (get path_cmp index.now) p.now under.now) (IsFirstAhead (get path_cmp index.now) p.now under.now) }
{
    if *p < *under {
        first_from(index, under, under)
    } else {
        first_above(index, p, under)
    }
}

/// A path is to lead to a scope, where that is live.
pub fn enlist(
    index: &mut BTreeMap<Path, u32>,
    path: &Path,
    id: u32,
    live: bool,
) -> Result<(), AllocError>
    ensures ok { OnOk result ((q : List ℕ) → get path_cmp index.new q ≡ (if live && is_eq (path_cmp path.now q) then Some id else get path_cmp index.old q)) }
    ensures err { OnErr result ((q : List ℕ) → get path_cmp index.new q ≡ get path_cmp index.old q) }
{
    if live {
        let key = path.copied()?;
        index.insert(key, id)?;
    }
    Ok(())
}

/// A path is to lead to no scope.
pub fn delist(index: &mut BTreeMap<Path, u32>, path: &Path)
    ensures { (q : List ℕ) → get path_cmp index.new q ≡ (if is_eq (path_cmp path.now q) then None else get path_cmp index.old q) }
{
    let _ = index.remove(path);
}
