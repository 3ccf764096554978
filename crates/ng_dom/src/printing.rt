//! The document as a plain forest.
ghost use Rattle.std.specs.Prelude.{◌≡◌, map, IfOk, OnOk, OnErr};
ghost use Rattle.ng_markup.specs.Forest.{node, no_nodes, element};
ghost use Rattle.ng_html.specs.Seen.{forest_of, node_of};
ghost use Rattle.ng_dom.specs.Nodes.{followed_by};
ghost use Rattle.ng_dom.specs.Walks.{told, told_all, told_groups, told_shape};
ghost use Rattle.ng_dom.specs.Kept.{rooms_of, shape_kept};

use crate::record::Content;
use crate::records::Records;
use ng_base::txt::Txt;
use ng_html::attrs::Attrs;
use ng_html::forest::{Forest, Node, comment_node, element_node, text_node};
use std::alloc::{AllocError, Global};
use std::collections::BTreeMap;

/// The attributes in order of their names.
fn attrs_of(alloc: Global, attributes: &BTreeMap<Txt, Txt>) -> Result<Attrs, AllocError>
    ensures { IfOk result (λ attrs. attrs ≡ attributes.now.entries) }
{
    let mut attrs = Attrs::new(alloc);
    for (name, value) in attributes.iter() {
        attrs.push(name.copied()?, value.copied()?)?;
    }
    Ok(attrs)
}

/// Adds a node at the end.
#[tactic(auto, using(crate::proofs::Telling::tell_steps))]
fn push(into: &mut Forest, n: Node) -> Result<(), AllocError>
    ensures { OnOk result (forest_of into.new ≡ followed_by (forest_of into.old) (node (node_of n) no_nodes)) }
{
    into.push(n)?;
    Ok(())
}

/// Adds a node with all that it holds, so many levels deep.
#[tactic(auto, using(crate::proofs::Telling::tell_steps))]
#[cycle(told)]
pub fn add_node(
    nodes: &Records,
    alloc: Global,
    deep: u64,
    n: u64,
    into: &mut Forest,
) -> Result<(), AllocError>
    ensures { OnOk result (forest_of into.new ≡ followed_by (forest_of into.old) (told deep (rooms_of nodes.now) n)) }
{
    if deep == 0 {
        return Ok(());
    }
    match nodes.get(n) {
        None => Ok(()),
        Some(node) => add_content(nodes, alloc, deep - 1, &node.content, into),
    }
}

#[tactic(auto, using(crate::proofs::Telling::tell_steps))]
#[cycle(told)]
fn add_content(
    nodes: &Records,
    alloc: Global,
    deep: u64,
    content: &Content,
    into: &mut Forest,
) -> Result<(), AllocError>
    ensures { OnOk result (forest_of into.new ≡ followed_by (forest_of into.old) (told_shape (told deep (rooms_of nodes.now)) (shape_kept content.now))) }
{
    match content {
        Content::Text(t) => push(into, text_node(t.copied()?)),
        Content::Comment(t) => push(into, comment_node(t.copied()?)),
        Content::Element {
            name,
            attributes,
            kids,
        } => {
            let mut inner = Forest::new(alloc);
            add_all(nodes, alloc, deep, kids.as_slice(), &mut inner)?;
            push(
                into,
                element_node(name.copied()?, attrs_of(alloc, attributes)?, inner),
            )
        }
        Content::Anchor(groups) => {
            push(into, comment_node(Txt::new(alloc)))?;
            add_groups(nodes, alloc, deep, groups.as_slice(), into)
        }
    }
}

/// Adds nodes one after another.
#[tactic(auto, using(crate::proofs::Telling::tell_steps))]
#[cycle(told)]
pub fn add_all(
    nodes: &Records,
    alloc: Global,
    deep: u64,
    names: &[u64],
    into: &mut Forest,
) -> Result<(), AllocError>
    ensures { OnOk result (forest_of into.new ≡ followed_by (forest_of into.old) (told_all (told deep (rooms_of nodes.now)) names.now)) }
{
    for n in names {
        add_node(nodes, alloc, deep, *n, into)?;
    }
    Ok(())
}

#[tactic(auto, using(crate::proofs::Telling::tell_steps))]
#[cycle(told)]
fn add_groups(
    nodes: &Records,
    alloc: Global,
    deep: u64,
    groups: &[Vec<u64>],
    into: &mut Forest,
) -> Result<(), AllocError>
    ensures { OnOk result (forest_of into.new ≡ followed_by (forest_of into.old) (told_groups (told deep (rooms_of nodes.now)) (map (λ g. g.items) groups.now))) }
{
    for group in groups {
        add_all(nodes, alloc, deep, group.as_slice(), into)?;
    }
    Ok(())
}
