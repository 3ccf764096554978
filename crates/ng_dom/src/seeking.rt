//! Looks for a node by its place among those that are printed one beside another, or by its name.
ghost use Rattle.std.specs.Prelude.{◌≡◌, ◌∷◌, [], List, None, length, min, map};
ghost use Rattle.ng_dom.specs.Asked.{shape_kids, kids_in};
ghost use Rattle.ng_dom.specs.Printed.{seek, found, level_node, level, level_groups, is_it};
ghost use Rattle.ng_dom.specs.Walks.{read, read_all, read_groups, read_shape};
ghost use Rattle.ng_dom.specs.Nodes.{NamedNode, named_anchor, name_of};
ghost use Rattle.ng_dom.specs.Kept.{rooms_of, shape_kept};

use crate::record::Content;
use crate::records::Records;

/// A node that was found, with the places that were left; or the places that are left once all were passed.
#[derive(Clone, Copy, Drop)]
pub enum Sought {
    Found(u64, u32),
    Left(u32),
}

fn is_it(until: Option<u64>, n: u64) -> bool
    ensures { result ≡ is_it until n }
{
    match until {
        None => false,
        Some(m) => m == n,
    }
}

/// One node is met.
fn seek_one(until: Option<u64>, left: u32, n: u64) -> Sought
    ensures { (x : NamedNode) → name_of x ≡ n → result ≡ seek until left (x ∷ []) }
{
    if left == 0 {
        return Sought::Found(n, 0);
    }
    if is_it(until, n) {
        Sought::Found(n, left)
    } else {
        Sought::Left(left - 1)
    }
}

/// Looks below a name, so many levels of groups deep.
#[tactic(auto, using(crate::proofs::Levels::seek_steps))]
#[cycle(sought)]
fn seek_node(nodes: &Records, deep: u64, until: Option<u64>, left: u32, n: u64) -> Sought
    ensures { result ≡ seek until left (level (read deep (rooms_of nodes.now) n)) }
{
    if deep == 0 {
        return Sought::Left(left);
    }
    match nodes.get(n) {
        None => Sought::Left(left),
        Some(node) => seek_content(nodes, deep - 1, until, left, n, &node.content),
    }
}

#[tactic(auto, using(crate::proofs::Levels::seek_steps))]
#[cycle(sought)]
fn seek_content(
    nodes: &Records,
    deep: u64,
    until: Option<u64>,
    left: u32,
    n: u64,
    content: &Content,
) -> Sought
    ensures { result ≡ seek until left (level (read_shape (read deep (rooms_of nodes.now)) n (shape_kept content.now))) }
{
    match content {
        Content::Text(_) => seek_one(until, left, n),
        Content::Comment(_) => seek_one(until, left, n),
        Content::Element { .. } => seek_one(until, left, n),
        Content::Anchor(groups) => seek_anchor(nodes, deep, until, left, n, groups.as_slice()),
    }
}

/// An anchor is met, and then what its groups hold.
#[cycle(sought)]
fn seek_anchor(
    nodes: &Records,
    deep: u64,
    until: Option<u64>,
    left: u32,
    n: u64,
    groups: &[Vec<u64>],
) -> Sought
    ensures { result ≡ seek until left (level_node (named_anchor n (read_groups (read deep (rooms_of nodes.now)) (map (λ g. g.items) groups.now)))) }
{
    match seek_one(until, left, n) {
        Sought::Found(m, j) => Sought::Found(m, j),
        Sought::Left(j) => seek_groups(nodes, deep, until, j, groups),
    }
}

/// Looks below some names.
#[tactic(auto, using(crate::proofs::Levels::seek_steps))]
#[cycle(sought)]
pub fn seek_all(nodes: &Records, deep: u64, until: Option<u64>, left: u32, names: &[u64]) -> Sought
    ensures { result ≡ seek until left (level (read_all (read deep (rooms_of nodes.now)) names.now)) }
{
    let mut rest = left;
    for n in names {
        match seek_node(nodes, deep, until, rest, *n) {
            Sought::Found(m, j) => return Sought::Found(m, j),
            Sought::Left(j) => rest = j,
        }
    }
    Sought::Left(rest)
}

#[tactic(auto, using(crate::proofs::Levels::seek_steps))]
#[cycle(sought)]
fn seek_groups(
    nodes: &Records,
    deep: u64,
    until: Option<u64>,
    left: u32,
    groups: &[Vec<u64>],
) -> Sought
    ensures { result ≡ seek until left (level_groups (read_groups (read deep (rooms_of nodes.now)) (map (λ g. g.items) groups.now))) }
{
    let mut rest = left;
    for group in groups {
        match seek_all(nodes, deep, until, rest, group.as_slice()) {
            Sought::Found(m, j) => return Sought::Found(m, j),
            Sought::Left(j) => rest = j,
        }
    }
    Sought::Left(rest)
}

/// Looks among what is printed inside a node.
pub fn seek_kids(nodes: &Records, deep: u64, until: Option<u64>, left: u32, n: u64) -> Sought
    ensures { result ≡ seek until left (level (read_all (read deep (rooms_of nodes.now)) (kids_in (rooms_of nodes.now n)))) }
{
    match nodes.get(n) {
        None => Sought::Left(left),
        Some(node) => seek_inside(nodes, deep, until, left, &node.content),
    }
}

fn seek_inside(
    nodes: &Records,
    deep: u64,
    until: Option<u64>,
    left: u32,
    content: &Content,
) -> Sought
    ensures { result ≡ seek until left (level (read_all (read deep (rooms_of nodes.now)) (shape_kids (shape_kept content.now)))) }
{
    match content {
        Content::Element { kids, .. } => seek_all(nodes, deep, until, left, kids.as_slice()),
        Content::Text(_) => Sought::Left(left),
        Content::Comment(_) => Sought::Left(left),
        Content::Anchor(_) => Sought::Left(left),
    }
}

/// The node that was found.
pub fn found(s: Sought) -> Option<u64>
    ensures { result ≡ found s }
{
    match s {
        Sought::Found(n, _) => Some(n),
        Sought::Left(_) => None,
    }
}

/// How many nodes were passed, as far as a `u32` counts.
pub fn passed(s: Sought) -> u32
    ensures { (xs : List NamedNode) → s ≡ seek None 4294967295 xs → result ≡ min (length xs) 4294967295 }
{
    match s {
        Sought::Found(_, _) => u32::MAX,
        Sought::Left(j) => u32::MAX - j,
    }
}
