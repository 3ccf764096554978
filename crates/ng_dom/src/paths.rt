//! The path of a node in what is printed, by a walk from the front.
ghost use Rattle.std.specs.Prelude.{◌≡◌, suc, [], ◌∷◌, map, IfOk, reverse};
ghost use Rattle.ng_dom.specs.Walks.{read, read_all, read_groups, read_shape};
ghost use Rattle.ng_dom.specs.Kept.{rooms_of, shape_kept};
ghost use Rattle.ng_dom.specs.Paths.{under, way, way_groups};
ghost use Rattle.ng_dom.specs.declared.paths.Way.TheVariants.{Reached};

use crate::record::Content;
use crate::records::Records;
use ng_base::path::Path;
use std::alloc::{AllocError, Global};

/// The numbers on the way up from a node that was found; or the place after all nodes that were passed.
#[derive(Drop)]
pub enum Way {
    Reached(Path),
    Passed(u32),
}

/// The place after this. A path has no number for one that a `u32` doesn't hold.
fn place_after(i: u32) -> Result<u32, AllocError>
    ensures { IfOk result (λ j. j ≡ suc i) }
{
    if i == u32::MAX {
        return Err(AllocError);
    }
    Ok(i + 1)
}

/// The node is found at a place.
fn reached(alloc: Global, i: u32) -> Result<Way, AllocError>
    ensures { IfOk result (λ w. w ≡ Reached (i ∷ [])) }
{
    let mut up = Path::new(alloc);
    up.push(i)?;
    Ok(Way::Reached(up))
}

/// What was found inside the node at a place.
fn under(i: u32, inside: Way) -> Result<Way, AllocError>
    ensures { IfOk result (λ w. w ≡ under i inside) }
{
    match inside {
        Way::Reached(mut up) => {
            up.push(i)?;
            Ok(Way::Reached(up))
        }
        Way::Passed(_) => Ok(Way::Passed(place_after(i)?)),
    }
}

/// Looks for a node below a name, so many levels deep.
#[tactic(auto, using(crate::proofs::Ways::way_steps))]
#[cycle(way)]
fn way_node(
    nodes: &Records,
    alloc: Global,
    deep: u64,
    n: u64,
    i: u32,
    m: u64,
) -> Result<Way, AllocError>
    ensures { IfOk result (λ w. w ≡ way n i (read deep (rooms_of nodes.now) m)) }
{
    if deep == 0 {
        return Ok(Way::Passed(i));
    }
    match nodes.get(m) {
        None => Ok(Way::Passed(i)),
        Some(node) => way_content(nodes, alloc, deep - 1, n, i, m, &node.content),
    }
}

#[tactic(auto, using(crate::proofs::Ways::way_steps))]
#[cycle(way)]
fn way_content(
    nodes: &Records,
    alloc: Global,
    deep: u64,
    n: u64,
    i: u32,
    m: u64,
    content: &Content,
) -> Result<Way, AllocError>
    ensures { IfOk result (λ w. w ≡ way n i (read_shape (read deep (rooms_of nodes.now)) m (shape_kept content.now))) }
{
    if m == n {
        return reached(alloc, i);
    }
    match content {
        Content::Text(_) => Ok(Way::Passed(place_after(i)?)),
        Content::Comment(_) => Ok(Way::Passed(place_after(i)?)),
        Content::Element { kids, .. } => {
            let inside = way_all(nodes, alloc, deep, n, 0, kids.as_slice())?;
            under(i, inside)
        }
        Content::Anchor(groups) => {
            let next = place_after(i)?;
            way_groups(nodes, alloc, deep, n, next, groups.as_slice())
        }
    }
}

/// Looks for a node below some names.
#[tactic(auto, using(crate::proofs::Ways::way_steps))]
#[cycle(way)]
pub fn way_all(
    nodes: &Records,
    alloc: Global,
    deep: u64,
    n: u64,
    i: u32,
    names: &[u64],
) -> Result<Way, AllocError>
    ensures { IfOk result (λ w. w ≡ way n i (read_all (read deep (rooms_of nodes.now)) names.now)) }
{
    let mut rest = i;
    for m in names {
        match way_node(nodes, alloc, deep, n, rest, *m)? {
            Way::Reached(up) => return Ok(Way::Reached(up)),
            Way::Passed(j) => rest = j,
        }
    }
    Ok(Way::Passed(rest))
}

#[tactic(auto, using(crate::proofs::Ways::way_steps))]
#[cycle(way)]
fn way_groups(
    nodes: &Records,
    alloc: Global,
    deep: u64,
    n: u64,
    i: u32,
    groups: &[Vec<u64>],
) -> Result<Way, AllocError>
    ensures { IfOk result (λ w. w ≡ way_groups n i (read_groups (read deep (rooms_of nodes.now)) (map (λ g. g.items) groups.now))) }
{
    let mut rest = i;
    for group in groups {
        match way_all(nodes, alloc, deep, n, rest, group.as_slice())? {
            Way::Reached(up) => return Ok(Way::Reached(up)),
            Way::Passed(j) => rest = j,
        }
    }
    Ok(Way::Passed(rest))
}

/// A path of these numbers, from the last to the first.
pub fn reversed(alloc: Global, numbers: &[u32]) -> Result<Path, AllocError>
    ensures { IfOk result (λ p. p ≡ reverse numbers.now) }
{
    let mut path = Path::new(alloc);
    let mut left = numbers.len();
    while left > 0 {
        left -= 1;
        path.push(numbers[left])?;
    }
    Ok(path)
}
