//! Changes of one node of the table.
ghost use Rattle.std.specs.Prelude.{◌≡◌, ◌≤◌, ◌+◌, [], option_map, ℕ, ◌==◌, is_some, Some, None, OnOk, OnErr, IfOk, if◌then◌else◌};
ghost use Rattle.ng_dom.specs.Records.{node_at, live_in};
ghost use Rattle.ng_dom.specs.Lists.{put_at, without_at, list_at, lists_at, moved_to, filled_with, emptied_at};
ghost use Rattle.ng_dom.specs.Editing.{attribute_set, attribute_dropped};
ghost use Rattle.ng_dom.specs.Rooms.{room_changed, room_added, shape_told, shape_with_attributes, shape_with_kids, shape_with_groups};
ghost use Rattle.ng_dom.specs.Removal.{room_gone, shape_without, groups_in};
ghost use Rattle.ng_dom.specs.Kept.{rooms_of, homes_of, room_kept, SameNodes};

use crate::edits;
use crate::record::Record;
use crate::records::Records;
use ng_base::txt::Txt;
use std::alloc::{AllocError, Global};
use std::collections::BTreeMap;

/// A new node under a name that no node has.
#[tactic(auto, using(crate::proofs::Touching::rooms_more, crate::proofs::Touching::homes_more))]
pub fn add(nodes: &mut Records, n: u64, node: Record) -> Result<(), AllocError>
    requires { (q : ℕ) → n ≤ q → node_at nodes.old q ≡ None }
    ensures rooms { OnOk result ((q : ℕ) → rooms_of nodes.new q ≡ room_added n (room_kept node) (rooms_of nodes.old) q) }
    ensures homes { OnOk result ((q : ℕ) → homes_of nodes.new q ≡ (if q == n then Some node.home else homes_of nodes.old q)) }
    ensures live { OnOk result (live_in nodes.new ≡ live_in nodes.old + 1) }
    ensures err { OnErr result (nodes.new ≡ nodes.old) }
{
    nodes.push(n, node)
}

/// A node is taken out.
#[tactic(auto, using(crate::proofs::Touching::rooms_less))]
pub fn take(nodes: &mut Records, n: u64) -> Option<Record>
    ensures value { result ≡ node_at nodes.old n }
    ensures others { (q : ℕ) → node_at nodes.new q ≡ (if q == n then None else node_at nodes.old q) }
    ensures rooms { (q : ℕ) → rooms_of nodes.new q ≡ room_gone n (rooms_of nodes.old) q }
    ensures live { live_in nodes.new + (if is_some result then 1 else 0) ≡ live_in nodes.old }
{
    nodes.remove(n)
}

/// A text or comment shows another text.
#[tactic(auto, using(crate::proofs::Touching::rooms_set, crate::proofs::Touching::rooms_missed, crate::proofs::Touching::same_nodes))]
pub fn tell(nodes: &mut Records, n: u64, t: Txt)
    ensures rooms { (q : ℕ) → rooms_of nodes.new q ≡ room_changed n (shape_told t) (rooms_of nodes.old) q }
    ensures same { SameNodes nodes.old nodes.new }
{
    match nodes.get_mut(n) {
        None => {}
        Some(node) => edits::tell(node, t),
    }
}

/// An element has an attribute of this value.
#[tactic(auto, using(crate::proofs::Touching::rooms_set, crate::proofs::Touching::rooms_missed, crate::proofs::Touching::same_nodes))]
pub fn set_attribute(nodes: &mut Records, n: u64, name: &Txt, v: Txt) -> Result<(), AllocError>
    ensures rooms { OnOk result ((q : ℕ) → rooms_of nodes.new q ≡ room_changed n (shape_with_attributes (attribute_set name.now v)) (rooms_of nodes.old) q) }
    ensures same { SameNodes nodes.old nodes.new }
{
    match nodes.get_mut(n) {
        None => Ok(()),
        Some(node) => edits::set_attribute(node, name, v),
    }
}

/// An element has these attributes in place of its own.
#[tactic(auto, using(crate::proofs::Touching::rooms_set, crate::proofs::Touching::rooms_missed, crate::proofs::Touching::same_nodes))]
pub fn replace_attributes(nodes: &mut Records, n: u64, ats: BTreeMap<Txt, Txt>)
    ensures rooms { (q : ℕ) → rooms_of nodes.new q ≡ room_changed n (shape_with_attributes (λ _. ats.entries)) (rooms_of nodes.old) q }
    ensures same { SameNodes nodes.old nodes.new }
{
    match nodes.get_mut(n) {
        None => {}
        Some(node) => edits::replace_attributes(node, ats),
    }
}

/// An element has no attribute of this name.
#[tactic(auto, using(crate::proofs::Touching::rooms_set, crate::proofs::Touching::rooms_missed, crate::proofs::Touching::same_nodes))]
pub fn drop_attribute(nodes: &mut Records, n: u64, name: &Txt)
    ensures rooms { (q : ℕ) → rooms_of nodes.new q ≡ room_changed n (shape_with_attributes (attribute_dropped name.now)) (rooms_of nodes.old) q }
    ensures same { SameNodes nodes.old nodes.new }
{
    match nodes.get_mut(n) {
        None => {}
        Some(node) => edits::drop_attribute(node, name),
    }
}

/// An element has one child more.
#[tactic(auto, using(crate::proofs::Touching::rooms_set, crate::proofs::Touching::rooms_missed, crate::proofs::Touching::same_nodes))]
pub fn put_kid(nodes: &mut Records, parent: u64, i: usize, n: u64) -> Result<(), AllocError>
    ensures rooms { OnOk result ((q : ℕ) → rooms_of nodes.new q ≡ room_changed parent (shape_with_kids (put_at i n)) (rooms_of nodes.old) q) }
    ensures same { SameNodes nodes.old nodes.new }
    ensures err { OnErr result ((q : ℕ) → rooms_of nodes.new q ≡ rooms_of nodes.old q) }
{
    match nodes.get_mut(parent) {
        None => Ok(()),
        Some(node) => edits::put_kid(node, i, n),
    }
}

/// An anchor has one group more.
#[tactic(auto, using(crate::proofs::Touching::rooms_set, crate::proofs::Touching::rooms_missed, crate::proofs::Touching::same_nodes))]
pub fn put_group(
    nodes: &mut Records,
    anchor: u64,
    i: usize,
    group: Vec<u64>,
) -> Result<(), AllocError>
    ensures rooms { OnOk result ((q : ℕ) → rooms_of nodes.new q ≡ room_changed anchor (shape_with_groups (put_at i group.items)) (rooms_of nodes.old) q) }
    ensures same { SameNodes nodes.old nodes.new }
{
    match nodes.get_mut(anchor) {
        None => Ok(()),
        Some(node) => edits::put_group(node, i, group),
    }
}

/// An anchor has one group less.
#[tactic(auto, using(crate::proofs::Touching::rooms_set, crate::proofs::Touching::rooms_missed, crate::proofs::Touching::same_nodes))]
pub fn cut_group(nodes: &mut Records, anchor: u64, i: usize)
    ensures rooms { (q : ℕ) → rooms_of nodes.new q ≡ room_changed anchor (shape_with_groups (without_at i)) (rooms_of nodes.old) q }
    ensures same { SameNodes nodes.old nodes.new }
{
    match nodes.get_mut(anchor) {
        None => {}
        Some(node) => edits::cut_group(node, i),
    }
}

/// An anchor has the groups of these places, in this order.
#[tactic(auto, using(crate::proofs::Touching::rooms_set, crate::proofs::Touching::rooms_missed, crate::proofs::Touching::same_nodes))]
pub fn pick_groups(
    nodes: &mut Records,
    alloc: Global,
    anchor: u64,
    order: &[u32],
) -> Result<(), AllocError>
    ensures rooms { OnOk result ((q : ℕ) → rooms_of nodes.new q ≡ room_changed anchor (shape_with_groups (lists_at order.now)) (rooms_of nodes.old) q) }
    ensures same { SameNodes nodes.old nodes.new }
{
    match nodes.get_mut(anchor) {
        None => Ok(()),
        Some(node) => edits::pick_groups(node, alloc, order),
    }
}

/// A child is put before the i-th of the others.
#[tactic(auto, using(crate::proofs::Touching::rooms_set, crate::proofs::Touching::rooms_missed, crate::proofs::Touching::same_nodes))]
pub fn move_kid(nodes: &mut Records, parent: u64, n: u64, i: usize) -> Result<(), AllocError>
    ensures rooms { OnOk result ((q : ℕ) → rooms_of nodes.new q ≡ room_changed parent (shape_with_kids (moved_to i n)) (rooms_of nodes.old) q) }
    ensures same { SameNodes nodes.old nodes.new }
{
    match nodes.get_mut(parent) {
        None => Ok(()),
        Some(node) => edits::move_kid(node, n, i),
    }
}

/// The parent of a node, where it is live.
pub fn parent_of(nodes: &Records, n: u64) -> Option<Option<u64>>
    ensures { result ≡ option_map (λ x. x.parent) (rooms_of nodes.now n) }
{
    match nodes.get(n) {
        None => None,
        Some(node) => Some(node.parent),
    }
}

/// A name is taken out of what its parent holds.
#[tactic(auto, using(crate::proofs::Touching::rooms_set, crate::proofs::Touching::rooms_missed, crate::proofs::Touching::same_nodes))]
pub fn cut_name(nodes: &mut Records, alloc: Global, parent: u64, n: u64) -> Result<(), AllocError>
    ensures rooms { OnOk result ((q : ℕ) → rooms_of nodes.new q ≡ room_changed parent (shape_without n) (rooms_of nodes.old) q) }
    ensures same { SameNodes nodes.old nodes.new }
{
    match nodes.get_mut(parent) {
        None => Ok(()),
        Some(node) => edits::cut_name(node, alloc, n),
    }
}

/// An element has these children.
#[tactic(auto, using(crate::proofs::Touching::rooms_set, crate::proofs::Touching::rooms_missed, crate::proofs::Touching::same_nodes))]
pub fn fill(nodes: &mut Records, n: u64, kids: Vec<u64>)
    ensures rooms { (q : ℕ) → rooms_of nodes.new q ≡ room_changed n (shape_with_kids (filled_with kids.items)) (rooms_of nodes.old) q }
    ensures same { SameNodes nodes.old nodes.new }
{
    match nodes.get_mut(n) {
        None => {}
        Some(node) => edits::fill(node, kids),
    }
}

/// The i-th group of an anchor is handed out, and stands empty.
#[tactic(auto, using(crate::proofs::Touching::rooms_set, crate::proofs::Touching::rooms_missed, crate::proofs::Touching::same_nodes))]
pub fn empty_group(nodes: &mut Records, alloc: Global, anchor: u64, i: usize) -> Vec<u64>
    ensures rooms { (q : ℕ) → rooms_of nodes.new q ≡ room_changed anchor (shape_with_groups (emptied_at i)) (rooms_of nodes.old) q }
    ensures group { result.items ≡ list_at i (groups_in (rooms_of nodes.old anchor)) }
    ensures same { SameNodes nodes.old nodes.new }
{
    match nodes.get_mut(anchor) {
        None => Vec::new(alloc),
        Some(node) => edits::empty_group(node, alloc, i),
    }
}
