//! Takes nodes away for good, with all that they hold.
ghost use Rattle.std.specs.Prelude.{◌≡◌, ◌++◌, ◌∷◌, [], ◌+◌, ◌*◌, ◌^◌, ◌≤◌, ℕ, List, map, vec_len, OnOk};
ghost use Rattle.ng_dom.specs.Records.{live_in};
ghost use Rattle.ng_dom.specs.Rooms.{Rooms};
ghost use Rattle.ng_dom.specs.Removal.{Takes, Taking, one_if, chosen, chosen_groups, chosen_held, is_under};
ghost use Rattle.ng_dom.specs.Kept.{rooms_of, shape_kept, Loses};

use crate::nodes::take;
use crate::record::Content;
use crate::records::Records;
use std::alloc::AllocError;

/// Whether a node is live and has this parent.
fn is_under(nodes: &Records, parent: u64, n: u64) -> bool
    ensures { result ≡ is_under (rooms_of nodes.now) parent n }
{
    match nodes.get(n) {
        None => false,
        Some(node) => match node.parent {
            None => false,
            Some(p) => p == parent,
        },
    }
}

/// A name that is under a parent is to be taken too.
fn push_one(nodes: &Records, left: &mut Vec<u64>, parent: u64, n: u64) -> Result<(), AllocError>
    ensures { OnOk result (left.new.items ≡ left.old.items ++ one_if (is_under (rooms_of nodes.now) parent n) n) }
{
    if is_under(nodes, parent, n) {
        left.push(n)?;
    }
    Ok(())
}

/// Those of some names that are under a parent are to be taken too.
fn push_under(
    nodes: &Records,
    left: &mut Vec<u64>,
    parent: u64,
    names: &[u64],
) -> Result<(), AllocError>
    ensures { OnOk result (left.new.items ≡ left.old.items ++ chosen (is_under (rooms_of nodes.now) parent) names.now) }
{
    for n in names {
        push_one(nodes, left, parent, *n)?;
    }
    Ok(())
}

fn push_groups(
    nodes: &Records,
    left: &mut Vec<u64>,
    parent: u64,
    groups: &[Vec<u64>],
) -> Result<(), AllocError>
    ensures { OnOk result (left.new.items ≡ left.old.items ++ chosen_groups (is_under (rooms_of nodes.now) parent) (map (λ g. g.items) groups.now)) }
{
    for group in groups {
        push_under(nodes, left, parent, group.as_slice())?;
    }
    Ok(())
}

/// What a node that is gone held is to be taken too.
fn push_held(
    nodes: &Records,
    left: &mut Vec<u64>,
    parent: u64,
    content: &Content,
) -> Result<(), AllocError>
    ensures { OnOk result (left.new.items ≡ left.old.items ++ chosen_held (is_under (rooms_of nodes.now) parent) (shape_kept content.now)) }
{
    match content {
        Content::Text(_) => Ok(()),
        Content::Comment(_) => Ok(()),
        Content::Element { kids, .. } => push_under(nodes, left, parent, kids.as_slice()),
        Content::Anchor(groups) => push_groups(nodes, left, parent, groups.as_slice()),
    }
}

/// Takes one node away, if it is there.
fn take_one(nodes: &mut Records, left: &mut Vec<u64>, n: u64) -> Result<(), AllocError>
    ensures taken { OnOk result ((names : List ℕ) (r : Rooms) → Taking names r (rooms_of nodes.old) (left.old.items ++ n ∷ []) → Taking names r (rooms_of nodes.new) left.new.items) }
    ensures loses { Loses nodes.old nodes.new }
    ensures less { OnOk result (2 ^ 64 * live_in nodes.new + vec_len left.new ≤ 2 ^ 64 * live_in nodes.old + vec_len left.old) }
{
    match take(nodes, n) {
        None => Ok(()),
        Some(node) => push_held(nodes, left, n, &node.content),
    }
}

/// Takes these nodes away, each with all that it holds. It costs what it takes.
pub fn take_away(nodes: &mut Records, names: Vec<u64>) -> Result<(), AllocError>
    ensures takes { OnOk result (Takes names.items (rooms_of nodes.old) (rooms_of nodes.new)) }
    ensures loses { Loses nodes.old nodes.new }
{
    let mut left = names;
    while let Some(n) = left.pop() {
        take_one(nodes, &mut left, n)?;
    }
    Ok(())
}
