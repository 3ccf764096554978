//! Which rows a repeat keeps where rows came or went at one place alone: it takes no look-up of a key (API: ngRepeat).
ghost use Rattle.std.specs.Prelude.{◌≡◌, ◌↔◌, ◌-◌, ◌≤◌, [], ◌++◌, length, map, take, drop, IfOk, IfSome, IsTrue, OnOk};
ghost use Rattle.ng_blocks.specs.Plans.{has_double as has_double_of};
ghost use Rattle.ng_drawing.specs.RolesOf.{role_of};
ghost use Rattle.ng_instances.specs.InstanceOf.{body_of};
ghost use Rattle.ng_rows.specs.RepeatRows.{key_of as key_of_role, keys_of as keys_of_bodies};
ghost use Rattle.ng_rows.specs.Splices.{places_on, sources_on, no_sources, number_of as number_of_key, next_after as next_number, rise_from, IsPlan};

use crate::tracking::place_of;
use indexmap::IndexSet;
use ng_base::fault::Memory;
use ng_base::index::index_of;
use ng_base::lists::{Numbers, Sources};
use ng_blocks::{Plan, TrackKey, TrackKeys};
use ng_drawing::roles::Role;
use ng_instances::instances::SharedBody;
use std::alloc::{AllocError, Global};

/// The key of a row that stands.
fn key_of(role: &Role) -> Result<TrackKey, AllocError>
    ensures { IfOk result (λ k. k ≡ key_of_role (role_of role.now)) }
{
    match role {
        Role::Body | Role::Named(_) => Ok(TrackKey::Place(0)),
        Role::Row(key, _) => key.copied(),
    }
}

/// The keys of the rows that stand.
pub(crate) fn keys_of(alloc: Global, bodies: &[SharedBody]) -> Result<TrackKeys, AllocError>
    ensures { IfOk result (λ ks. ks ≡ keys_of_bodies (map body_of bodies.now)) }
{
    let mut keys = TrackKeys::new(alloc);
    for body in bodies {
        keys.push(key_of(body.role())?)?;
    }
    Ok(keys)
}

/// Whether a row that stands has a key, which is read where it is.
fn has_key(role: &Role, key: &TrackKey) -> bool
    ensures { IsTrue result ↔ (key_of_role (role_of role.now) ≡ key.now) }
{
    match role {
        Role::Body | Role::Named(_) => TrackKey::Place(0).same(key),
        Role::Row(own, _) => own.same(key),
    }
}

/// Whether two of these keys are the same.
pub(crate) fn has_double(alloc: Global, keys: &TrackKeys) -> Result<bool, Memory>
    ensures { IfOk result (λ b. b ≡ has_double_of keys.now) }
{
    let mut set = IndexSet::new(alloc);
    for key in keys.as_slice() {
        if !set.insert(key.copied()?)? {
            return Ok(true);
        }
    }
    Ok(false)
}

/// The number that the text of a key spells, or the place that it is.
fn number_of(key: &TrackKey) -> Option<u32>
    ensures { result ≡ number_of_key key.now }
{
    match key {
        TrackKey::Prim(_) => None,
        TrackKey::Place(place) => Some(*place),
        TrackKey::Text(text) => index_of(text),
    }
}

/// The number of the key of a row that stands.
fn number_of_row(role: &Role) -> Option<u32>
    ensures { result ≡ number_of_key (key_of_role (role_of role.now)) }
{
    match role {
        Role::Body | Role::Named(_) => Some(0),
        Role::Row(key, _) => number_of(key),
    }
}

/// What a number that comes next is at least.
fn next_after(least: u64, number: Option<u32>) -> Option<u64>
    ensures { result ≡ next_number least number }
{
    match number {
        None => None,
        Some(n) => {
            if (n as u64) < least {
                None
            } else {
                Some(n as u64 + 1)
            }
        }
    }
}

/// Whether the numbers of keys rise.
fn are_rising(keys: &[TrackKey]) -> bool
    ensures { result ≡ rise_from 0 keys.now }
{
    let mut least = 0;
    for key in keys {
        match next_after(least, number_of(key)) {
            None => return false,
            Some(next) => least = next,
        }
    }
    true
}

/// Whether the numbers of the keys of rows that stand rise.
fn rows_rise(bodies: &[SharedBody]) -> bool
    ensures { result ≡ rise_from 0 (keys_of_bodies (map body_of bodies.now)) }
{
    let mut least = 0;
    for body in bodies {
        match next_after(least, number_of_row(body.role())) {
            None => return false,
            Some(next) => least = next,
        }
    }
    true
}

/// Whether two of these keys are the same, which is seen at once where their numbers rise.
fn are_doubled(alloc: Global, keys: &TrackKeys) -> Result<bool, Memory>
    ensures { IfOk result (λ b. b ≡ has_double_of keys.now) }
{
    if are_rising(keys.as_slice()) {
        return Ok(false);
    }
    has_double(alloc, keys)
}

/// Whether two of the rows that stand have one key, which is seen at once where the numbers of their keys rise.
fn rows_doubled(alloc: Global, bodies: &[SharedBody]) -> Result<bool, Memory>
    ensures { IfOk result (λ b. b ≡ has_double_of (keys_of_bodies (map body_of bodies.now))) }
{
    if rows_rise(bodies) {
        return Ok(false);
    }
    let keys = keys_of(alloc, bodies)?;
    has_double(alloc, &keys)
}

/// How many rows in front have the keys that are in front, of at most as many as there are of both.
fn same_front(bodies: &[SharedBody], keys: &[TrackKey], most: usize) -> usize
    requires bodies { most ≤ length bodies.now }
    requires keys { most ≤ length keys.now }
    ensures within { result ≤ most }
    ensures same { take result (keys_of_bodies (map body_of bodies.now)) ≡ take result keys.now }
{
    for i in 0..most {
        if !has_key(bodies[i].role(), &keys[i]) {
            return i;
        }
    }
    most
}

/// Whether as many rows at the end have the keys that are at the end.
fn is_end(bodies: &[SharedBody], keys: &[TrackKey], count: usize) -> bool
    requires bodies { count ≤ length bodies.now }
    requires keys { count ≤ length keys.now }
    ensures { IsTrue result → drop (length bodies.now - count) (keys_of_bodies (map body_of bodies.now)) ≡ drop (length keys.now - count) keys.now }
{
    for behind in 0..count {
        let i = bodies.len() - 1 - behind;
        let j = keys.len() - 1 - behind;
        if !has_key(bodies[i].role(), &keys[j]) {
            return false;
        }
    }
    true
}

/// Entries that come from the rows between two places.
fn add_sources(sources: &mut Sources, first: u32, end: u32) -> Result<(), AllocError>
    ensures { OnOk result (sources.new ≡ sources.old ++ sources_on first (end - first)) }
{
    for i in first..end {
        sources.push(Some(i))?;
    }
    Ok(())
}

/// Entries that come from no row.
fn add_nothing(sources: &mut Sources, count: u32) -> Result<(), AllocError>
    ensures { OnOk result (sources.new ≡ sources.old ++ no_sources count) }
{
    let mut left = count;
    while left > 0 {
        sources.push(None)?;
        left -= 1;
    }
    Ok(())
}

/// The places between two.
fn numbers_between(alloc: Global, first: u32, end: u32) -> Result<Numbers, AllocError>
    ensures { IfOk result (λ n. n ≡ places_on first (end - first)) }
{
    let mut numbers = Numbers::new(alloc);
    for i in first..end {
        numbers.push(i)?;
    }
    Ok(numbers)
}

/// What is planned where entries came behind so many rows.
fn plan_came(alloc: Global, old: u32, more: u32, front: u32) -> Result<Plan, AllocError>
    ensures gone { IfOk result (λ p. p.gone ≡ []) }
    ensures from { IfOk result (λ p. p.from ≡ sources_on 0 front ++ (no_sources more ++ sources_on front (old - front))) }
{
    let mut from = Sources::new(alloc);
    add_sources(&mut from, 0, front)?;
    add_nothing(&mut from, more)?;
    add_sources(&mut from, front, old)?;
    Ok(Plan {
        gone: Numbers::new(alloc),
        from,
    })
}

/// What is planned where the rows between two places went.
fn plan_went(alloc: Global, old: u32, front: u32, end: u32) -> Result<Plan, AllocError>
    ensures gone { IfOk result (λ p. p.gone ≡ places_on front (end - front)) }
    ensures from { IfOk result (λ p. p.from ≡ sources_on 0 front ++ sources_on end (old - end)) }
{
    let mut from = Sources::new(alloc);
    add_sources(&mut from, 0, front)?;
    add_sources(&mut from, end, old)?;
    Ok(Plan {
        gone: numbers_between(alloc, front, end)?,
        from,
    })
}

/// A plan where entries came at one place alone.
fn came(alloc: Global, bodies: &[SharedBody], keys: &TrackKeys) -> Result<Option<Plan>, Memory>
    requires { length bodies.now ≤ length keys.now }
    ensures { IfOk result (λ r. IfSome r (IsPlan (keys_of_bodies (map body_of bodies.now)) keys.now)) }
{
    let entries = keys.as_slice();
    let first = same_front(bodies, entries, bodies.len());
    if !is_end(bodies, entries, bodies.len() - first) {
        return Ok(None);
    }
    if are_doubled(alloc, keys)? {
        return Ok(None);
    }
    let count = place_of(bodies.len())?;
    let more = place_of(entries.len() - bodies.len())?;
    let front = place_of(first)?;
    Ok(Some(plan_came(alloc, count, more, front)?))
}

/// A plan where rows went at one place alone.
fn went(alloc: Global, bodies: &[SharedBody], keys: &TrackKeys) -> Result<Option<Plan>, Memory>
    requires { length keys.now ≤ length bodies.now }
    ensures { IfOk result (λ r. IfSome r (IsPlan (keys_of_bodies (map body_of bodies.now)) keys.now)) }
{
    let entries = keys.as_slice();
    let first = same_front(bodies, entries, entries.len());
    if !is_end(bodies, entries, entries.len() - first) {
        return Ok(None);
    }
    if rows_doubled(alloc, bodies)? {
        return Ok(None);
    }
    let count = place_of(bodies.len())?;
    let end = place_of(first + (bodies.len() - entries.len()))?;
    let front = place_of(first)?;
    Ok(Some(plan_went(alloc, count, front, end)?))
}

/// A plan where rows came or went at one place alone and no two have one key, as most often. The keys of the rows are read where they are.
pub(crate) fn plan_spliced(
    alloc: Global,
    bodies: &[SharedBody],
    keys: &TrackKeys,
) -> Result<Option<Plan>, Memory>
    ensures { IfOk result (λ r. IfSome r (IsPlan (keys_of_bodies (map body_of bodies.now)) keys.now)) }
{
    let entries = keys.as_slice();
    if bodies.len() <= entries.len() {
        came(alloc, bodies, keys)
    } else {
        went(alloc, bodies, keys)
    }
}
