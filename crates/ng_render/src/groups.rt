//! What fills an outlet (API: ngIf).
ghost use Rattle.std.specs.Prelude.{◌≡◌, IfOk, OnOk, option_map};
ghost use Rattle.ng_base.specs.Faults.{is_memory};
ghost use Rattle.ng_base.specs.Meets.{Gives};
ghost use Rattle.ng_drawing.specs.Drawing.{followed_by, Rendered};
ghost use Rattle.ng_html.specs.Seen.{node_of, forest_of};
ghost use Rattle.ng_markup.specs.Forest.{Forest as MarkupForest};
ghost use Rattle.ng_render.specs.OverOf.{group_of, groups_over};

use crate::over::{Group, Over};
use ng_base::fault::{Fault, Memory};
use ng_html::attrs::Attrs;
use ng_html::forest::{Forest, Node, comment_node, element_node, text_node};
use std::alloc::{AllocError, Global};

/// The same attributes again. Their texts are shared.
fn copied_attrs(alloc: Global, attrs: &Attrs) -> Result<Attrs, AllocError>
    ensures { IfOk result (λ a. a ≡ attrs.now) }
{
    let mut copy = Attrs::new(alloc);
    for attr in attrs.as_slice() {
        copy.push(attr.name.copied()?, attr.value.copied()?)?;
    }
    Ok(copy)
}

/// The same node again.
#[cycle(copied)]
fn copied_node(alloc: Global, node: &Node) -> Result<Node, AllocError>
    ensures { IfOk result (λ n. node_of n ≡ node_of node.now) }
{
    match node {
        Node::Text(text) => Ok(text_node(text.copied()?)),
        Node::Comment(text) => Ok(comment_node(text.copied()?)),
        Node::Element { name, attrs, kids } => {
            let name = name.copied()?;
            let attrs = copied_attrs(alloc, attrs)?;
            let mut inside = Forest::new(alloc);
            append_copy(alloc, kids, &mut inside)?;
            Ok(element_node(name, attrs, inside))
        }
    }
}

/// Copies of a forest's nodes are added at the end.
#[cycle(copied)]
fn append_copy(alloc: Global, more: &Forest, into: &mut Forest) -> Result<(), AllocError>
    ensures { OnOk result (forest_of into.new ≡ followed_by (forest_of into.old) (forest_of more.now)) }
{
    for node in &more.items {
        let copy = copied_node(alloc, node)?;
        into.push(copy)?;
    }
    Ok(())
}

/// Nodes are added at the end.
#[tactic(auto, using(crate::proofs::Walks::forest_steps))]
pub(crate) fn append(into: &mut Forest, more: Forest) -> Result<(), AllocError>
    ensures { OnOk result (forest_of into.new ≡ followed_by (forest_of into.old) (forest_of more)) }
{
    for node in more.items {
        into.push(node)?;
    }
    Ok(())
}

/// What was rendered of the bodies of an outlet, unless memory was wanted.
pub(crate) fn group_from(rendered: Result<Option<Forest>, Fault>) -> Result<Group, Memory>
    ensures { (asked : Rendered MarkupForest) → Gives is_memory (option_map forest_of) asked rendered → IfOk result (λ g. group_of g ≡ asked) }
{
    match rendered {
        Ok(Some(forest)) => Ok(Group::Shown(forest)),
        Ok(None) => Ok(Group::Unfit),
        Err(Fault::Memory(memory)) => Err(memory),
        Err(fault) => Ok(Group::Faulted(fault)),
    }
}

/// What fills the outlet of a number.
pub(crate) fn group_in(over: &Over<'_>, outlet: u32) -> Result<Option<Forest>, Fault>
    ensures { Gives is_memory (option_map forest_of) (groups_over over.now outlet) result }
{
    match over.groups.get(outlet as usize) {
        None => Ok(Some(Forest::new(over.alloc))),
        Some(Group::Shown(forest)) => {
            let mut copy = Forest::new(over.alloc);
            append_copy(over.alloc, forest, &mut copy)?;
            Ok(Some(copy))
        }
        Some(Group::Unfit) => Ok(None),
        Some(Group::Faulted(fault)) => Err(*fault),
    }
}
