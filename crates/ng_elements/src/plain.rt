//! Elements that are plain (API: ngNonBindable).
ghost use Rattle.std.specs.Prelude.{◌≡◌, IfOk};
ghost use Rattle.ng_html.specs.Seen.{node_of, forest_of};
ghost use Rattle.ng_elements.specs.Plain.{plain_values as plain_values_of, plain_part as plain_part_of, plain_parts as plain_parts_of};
ghost use Rattle.ng_parts.specs.Seen.{part_of, parts_of};

use ng_html::attrs::Attrs;
use ng_html::forest::{Forest, Node};
use ng_parts::acts::Acts;
use ng_parts::parts::{Part, Parts, children, comment, element, text};
use ng_parts::pieces::{AttributeValue, Attributes, Pieces};
use std::alloc::{AllocError, Global};

/// Attributes whose values are plain words.
pub(crate) fn plain_values(alloc: Global, attrs: &Attrs) -> Result<Attributes, AllocError>
    ensures { IfOk result (λ a. a ≡ plain_values_of attrs.now) }
{
    let mut values = Attributes::new(alloc);
    for attr in attrs.as_slice() {
        let pieces = Pieces::word(alloc, attr.value.copied()?)?;
        values.push(attr.name.copied()?, AttributeValue::Always(pieces))?;
    }
    Ok(values)
}

/// The part of a node of which nothing is read.
#[cycle(plain)]
pub fn plain_part(alloc: Global, node: &Node) -> Result<Part, AllocError>
    ensures { IfOk result (λ p. part_of p ≡ plain_part_of (node_of node.now)) }
{
    match node {
        Node::Text(whole) => Ok(text(Pieces::word(alloc, whole.copied()?)?)),
        Node::Comment(whole) => Ok(comment(whole.copied()?)),
        Node::Element { name, attrs, kids } => {
            let name = name.copied()?;
            let attributes = plain_values(alloc, attrs)?;
            let parts = plain_parts(alloc, kids)?;
            Ok(element(
                name,
                Vec::new(alloc),
                Acts::new(alloc),
                attributes,
                children(parts),
            ))
        }
    }
}

/// The parts of a forest of which nothing is read.
#[cycle(plain)]
fn plain_parts(alloc: Global, forest: &Forest) -> Result<Parts, AllocError>
    ensures { IfOk result (λ ps. parts_of ps ≡ plain_parts_of (forest_of forest.now)) }
{
    let mut parts = Parts::new(alloc);
    for node in &forest.items {
        let part = plain_part(alloc, node)?;
        parts.push(part)?;
    }
    Ok(parts)
}
