//! What stands under the key of a watcher (guide: HTML Compiler, "How directives are compiled").
ghost use Rattle.std.specs.Prelude.{◌≡◌, List, Some, map, is_some, IfOk};
ghost use Rattle.ng_drawing.specs.Named.{Named};
ghost use Rattle.ng_instances.specs.Bindings.{bound_in_table};
ghost use Rattle.ng_instances.specs.BoundOf.{piece_of, bound_of, bounds_of};
ghost use Rattle.ng_instances.specs.Due.{all_due};
ghost use Rattle.ng_instances.specs.Instances.{is_site, bound_for, linked_for};
ghost use Rattle.ng_instances.specs.InstanceOf.{instances_of, linked_of, spot_at, spot_in};
ghost use Rattle.ng_instances.specs.SiteHere.{FillsAs, StandsAs};

use crate::filling::Due;
use crate::instances::{Bound, BoundPiece, Linked, instance_path};
use ng_base::fault::Memory;
use ng_base::name::{NodeId, Serial};
use ng_base::path::{Key, Path};
use ng_parts::acts::copied_program;
use std::alloc::{AllocError, Global};
use std::collections::BTreeMap;

/// What the fire of a site writes, if it is a binding's, or else the outlets that it fills, in order.
#[derive(Drop)]
pub enum Fills {
    Writes(Bound),
    Outlets(Vec<Due>),
}

/// A site, with the node that it is drawn in.
#[derive(Drop)]
pub struct SiteHere {
    pub node: NodeId,
    pub fills: Fills,
}

/// A piece again.
fn copied_piece(piece: &BoundPiece) -> Result<BoundPiece, AllocError>
    ensures { IfOk result (λ p. piece_of p ≡ piece_of piece.now) }
{
    match piece {
        BoundPiece::Word(word) => Ok(BoundPiece::Word(word.copied()?)),
        BoundPiece::Hole(serial) => Ok(BoundPiece::Hole(*serial)),
    }
}

/// The same pieces again.
fn copied_pieces(alloc: Global, pieces: &[BoundPiece]) -> Result<Vec<BoundPiece>, AllocError>
    ensures { IfOk result (λ v. map piece_of v.items ≡ map piece_of pieces.now) }
{
    let mut all = Vec::new(alloc);
    for piece in pieces {
        all.push(copied_piece(piece)?)?;
    }
    Ok(all)
}

/// What the fire of a site writes, again.
pub fn copied_bound(alloc: Global, bound: &Bound) -> Result<Bound, Memory>
    ensures { IfOk result (λ b. bound_of b ≡ bound_of bound.now) }
{
    match bound {
        Bound::Text {
            scope,
            name,
            pieces,
        } => Ok(Bound::Text {
            scope: *scope,
            name: name.copied()?,
            pieces: copied_pieces(alloc, pieces.as_slice())?,
        }),
        Bound::OneWay { scope, name } => Ok(Bound::OneWay {
            scope: *scope,
            name: name.copied()?,
        }),
        Bound::TwoWay {
            scope,
            name,
            over,
            writes,
        } => Ok(Bound::TwoWay {
            scope: *scope,
            name: name.copied()?,
            over: *over,
            writes: copied_program(alloc, writes)?,
        }),
    }
}

/// What a site of an instance fills, where this is the path of the instance's own scope.
fn fills_in(alloc: Global, one: &Linked, path: &Path, key: &Key) -> Result<Fills, Memory>
    ensures { (all : List Named) → IfOk result (FillsAs (bound_in_table key.now.serial.0 (bounds_of one.now.bounds.entries)) (all_due key.now (Some (linked_of all path.now one.now)))) }
{
    match one.bounds.get(&key.serial.0) {
        None => Ok(Fills::Outlets(one.due(alloc, path, key)?)),
        Some(bound) => Ok(Fills::Writes(copied_bound(alloc, bound)?)),
    }
}

/// The site of an instance that has a key, where this is the path of the instance's own scope.
fn site_in(alloc: Global, one: &Linked, path: &Path, key: &Key) -> Result<Option<SiteHere>, Memory>
    ensures { (all : List Named) → IfOk result (StandsAs (is_some (spot_at one.now key.now)) (spot_at one.now key.now) (bound_in_table key.now.serial.0 (bounds_of one.now.bounds.entries)) (all_due key.now (Some (linked_of all path.now one.now)))) }
{
    match one.spots.get(&key.serial.0) {
        None => Ok(None),
        Some(n) => {
            let node = NodeId {
                slot: 0,
                made: Serial(*n),
            };
            let fills = fills_in(alloc, one, path, key)?;
            Ok(Some(SiteHere { node, fills }))
        }
    }
}

/// What stands under the key of a watcher, by one look-up of the instance.
pub fn site_here(
    alloc: Global,
    instances: &BTreeMap<Path, Linked>,
    inner: &BTreeMap<Path, Path>,
    key: &Key,
) -> Result<Option<SiteHere>, Memory>
    ensures { (all : List Named) → IfOk result (StandsAs (is_site inner.now.entries (instances_of all instances.now.entries) key.now) (spot_in inner.now.entries instances.now.entries key.now) (bound_for inner.now.entries (instances_of all instances.now.entries) key.now) (all_due key.now (linked_for inner.now.entries key.now.path (instances_of all instances.now.entries)))) }
{
    let path = instance_path(inner, &key.path);
    match instances.get(path) {
        None => Ok(None),
        Some(one) => site_in(alloc, one, path, key),
    }
}
