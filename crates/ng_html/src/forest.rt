//! Forests.
ghost use Rattle.std.specs.Prelude.{◌≡◌, OnOk, OnErr, map};
ghost use Rattle.ng_markup.specs.Forest.{no_nodes, with_node, element, text, comment, forest_from};
ghost use Rattle.ng_html.specs.Seen.{node_of, forest_of};

use ng_base::txt::Txt;
use ng_tags::attrs::Attrs;
use std::alloc::{AllocError, Global};

/// A node.
#[cycle(node)]
#[derive(Drop)]
pub enum Node {
    Element {
        name: Txt,
        attrs: Attrs,
        kids: Forest,
    },
    Text(Txt),
    Comment(Txt),
}

/// A list of nodes.
#[cycle(node)]
#[derive(Drop)]
pub struct Forest {
    pub items: Vec<Node>,
}

#[tactic(auto, using(crate::proofs::Forests::list_steps))]
impl Forest {
    /// No node.
    pub fn new(alloc: Global) -> Forest
        ensures { forest_of result ≡ no_nodes }
    {
        Forest {
            items: Vec::new(alloc),
        }
    }

    /// Adds a node at the end.
    pub fn push(&mut self, n: Node) -> Result<(), AllocError>
        ensures ok { OnOk result (forest_of self.new ≡ with_node (forest_of self.old) (node_of n)) }
        ensures err { OnErr result (forest_of self.new ≡ forest_of self.old) }
    {
        if self.items.is_empty() {
            self.items.reserve_exact(1)?;
        }
        self.items.push(n)?;
        Ok(())
    }

    /// The nodes in order.
    pub fn nodes(&self) -> &[Node]
        ensures { forest_from (map node_of result.now) ≡ forest_of self.now }
    {
        self.items.as_slice()
    }
}

/// An element.
pub fn element_node(name: Txt, attrs: Attrs, kids: Forest) -> Node
    ensures { node_of result ≡ element name attrs (forest_of kids) }
{
    Node::Element { name, attrs, kids }
}

/// A text.
pub fn text_node(t: Txt) -> Node
    ensures { node_of result ≡ text t }
{
    Node::Text(t)
}

/// A comment.
pub fn comment_node(t: Txt) -> Node
    ensures { node_of result ≡ comment t }
{
    Node::Comment(t)
}
