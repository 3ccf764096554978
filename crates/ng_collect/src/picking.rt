//! What is picked where: the directives whose name and place fit.
ghost use Rattle.std.specs.Prelude.{◌≡◌, ◌++◌, filter, IfOk, OnOk};
ghost use Rattle.std.specs.List.{flat_map, enumerate_from};
ghost use Rattle.ng_collect.specs.Picks.{pick as pick_of, core_pick as core_pick_of, interpolated_pick as interpolated_pick_of, fits as fits_at, user_pick, picks_at, is_below as is_below_limit, all_picks as all_picks_of};
ghost use Rattle.ng_collect.specs.Table.{named as named_of};

use crate::definition::{DirectiveDef, allows_attributes, allows_elements};
use crate::pick::{Directive, Pick};
use crate::spots::{Spot, copied_attr, is_interpolated, stands_at};
use crate::table::{named, priority};
use ng_html::attrs::Attr;
use std::alloc::{AllocError, Global};

const INTERPOLATED_PRIORITY: i64 = 100;

fn copied_attribute(attribute: &Option<Attr>) -> Result<Option<Attr>, AllocError>
    ensures { IfOk result (λ a. a ≡ attribute.now) }
{
    match attribute {
        None => Ok(None),
        Some(attr) => Ok(Some(copied_attr(attr)?)),
    }
}

fn pick(directive: Directive, priority: i64, spot: &Spot) -> Result<Pick, AllocError>
    ensures { IfOk result (λ p. p ≡ pick_of directive priority spot.now) }
{
    Ok(Pick {
        directive,
        name: spot.name.copied()?,
        priority,
        attribute: copied_attribute(&spot.attribute)?,
    })
}

/// Adds the core's directive of this name.
fn push_core(into: &mut Vec<Pick>, spot: &Spot) -> Result<(), AllocError>
    ensures { OnOk result (into.new.items ≡ into.old.items ++ core_pick_of (named_of spot.now.name) spot.now) }
{
    match named(&spot.name) {
        None => Ok(()),
        Some(directive) => {
            if stands_at(spot, directive) {
                into.push(pick(Directive::Core(directive), priority(directive), spot)?)?;
            }
            Ok(())
        }
    }
}

/// Adds an attribute with a hole.
fn push_interpolated(alloc: Global, into: &mut Vec<Pick>, spot: &Spot) -> Result<(), AllocError>
    ensures { OnOk result (into.new.items ≡ into.old.items ++ interpolated_pick_of spot.now) }
{
    if is_interpolated(alloc, spot)? {
        into.push(pick(Directive::Interpolated, INTERPOLATED_PRIORITY, spot)?)?;
    }
    Ok(())
}

/// Whether a directive of the application has this name, and stands on what this is.
fn fits(d: &DirectiveDef, spot: &Spot) -> bool
    ensures { result ≡ fits_at d.now spot.now }
{
    if !d.name.same(&spot.name) {
        return false;
    }
    if spot.attribute.is_some() {
        allows_attributes(&d.restrict)
    } else {
        allows_elements(&d.restrict)
    }
}

/// Adds the directives of the application.
fn push_users(into: &mut Vec<Pick>, defs: &[DirectiveDef], spot: &Spot) -> Result<(), AllocError>
    ensures { OnOk result (into.new.items ≡ into.old.items ++ flat_map (user_pick spot.now) (enumerate_from 0 defs.now)) }
{
    for (i, d) in defs.iter().enumerate() {
        if fits(d, spot) {
            into.push(pick(Directive::User(i), d.priority, spot)?)?;
        }
    }
    Ok(())
}

/// Adds what is picked here.
fn push_picks(
    alloc: Global,
    into: &mut Vec<Pick>,
    defs: &[DirectiveDef],
    spot: &Spot,
) -> Result<(), AllocError>
    ensures { OnOk result (into.new.items ≡ into.old.items ++ picks_at defs.now spot.now) }
{
    push_core(into, spot)?;
    push_interpolated(alloc, into, spot)?;
    push_users(into, defs, spot)
}

/// What is picked anywhere.
fn every_pick(alloc: Global, defs: &[DirectiveDef], spots: &[Spot]) -> Result<Vec<Pick>, AllocError>
    ensures { IfOk result (λ v. v.items ≡ flat_map (picks_at defs.now) spots.now) }
{
    let mut picks = Vec::new(alloc);
    for spot in spots {
        push_picks(alloc, &mut picks, defs, spot)?;
    }
    Ok(picks)
}

/// Whether a block of this priority leaves it to its body.
fn is_below(limit: Option<i64>, p: &Pick) -> bool
    ensures { result ≡ is_below_limit limit p.now }
{
    match limit {
        None => true,
        Some(limit) => p.priority.cmp(&limit).is_lt(),
    }
}

/// What a block of this priority leaves to its body.
fn below(alloc: Global, limit: Option<i64>, picks: Vec<Pick>) -> Result<Vec<Pick>, AllocError>
    ensures { IfOk result (λ v. v.items ≡ filter (is_below_limit limit) picks.items) }
{
    let mut kept = Vec::new(alloc);
    for p in picks {
        if is_below(limit, &p) {
            kept.push(p)?;
        }
    }
    Ok(kept)
}

/// All that fit an element.
pub(crate) fn all_picks(
    alloc: Global,
    defs: &[DirectiveDef],
    limit: Option<i64>,
    spots: &[Spot],
) -> Result<Vec<Pick>, AllocError>
    ensures { IfOk result (λ v. v.items ≡ all_picks_of defs.now limit spots.now) }
{
    let picks = every_pick(alloc, defs, spots)?;
    below(alloc, limit, picks)
}
