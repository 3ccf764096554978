//! What is kept of a node.
ghost use Rattle.std.specs.Prelude.{◌≡◌, ◌++◌, ◌∷◌, [], OnOk, OnErr};

use ng_base::name::NodeId;
use ng_base::path::Key;
use ng_base::txt::Txt;
use std::alloc::{AllocError, Global};
use std::collections::BTreeMap;

/// A part of what a text or an attribute is drawn from: plain words, or a hole with the key of its watcher
/// (guide: Interpolation).
#[derive(Drop)]
pub enum Piece {
    Words(Txt),
    Hole(Key),
}

/// An element is hidden while the value of a watcher is true, or while it is not (API: ngShow, ngHide).
#[derive(Drop)]
pub enum Hiding {
    WhileTrue(Key),
    WhileFalse(Key),
}

/// What a class is drawn from: whether the template has one, what is written there, the watchers whose words it gets, and those that
/// hide the element (API: ngClass).
#[derive(Drop)]
pub struct DrawnClass {
    pub written: bool,
    pub pieces: Vec<Piece>,
    pub words: Vec<Key>,
    pub hidings: Vec<Hiding>,
}

/// What an attribute is drawn from: pieces, whose text always stands; pieces whose text stands where it is not empty; a word, which
/// stands where the value of a watcher is true; or the words of a class.
#[derive(Drop)]
pub enum DrawnValue {
    Always(Vec<Piece>),
    UnlessEmpty(Vec<Piece>),
    Flag(Txt, Key),
    Classes(DrawnClass),
}

/// An attribute and what it is drawn from.
#[derive(Drop)]
pub struct Drawn {
    pub name: Txt,
    pub value: DrawnValue,
}

/// What a node is drawn from, which never changes: nothing, a text's pieces, or what an element's attributes are drawn from, in the
/// order in which they are set.
#[derive(Drop)]
pub enum Home {
    Plain,
    Text(Vec<Piece>),
    Attributes(Vec<Drawn>),
}

/// A node to be made: an element without attributes and children, a text or a comment.
#[derive(Drop)]
pub enum NewNode {
    Element(Txt),
    Text(Txt),
    Comment(Txt),
}

/// A part of a template to be made: a node, or the anchor of a block, without groups.
#[derive(Drop)]
pub enum Part {
    Node(NewNode),
    Anchor,
}

/// What a node shows. Children and groups are given by name.
#[derive(Drop)]
pub enum Content {
    Text(Txt),
    Comment(Txt),
    Element {
        name: Txt,
        attributes: BTreeMap<Txt, Txt>,
        kids: Vec<u64>,
    },
    Anchor(Vec<Vec<u64>>),
}

/// A node.
#[derive(Drop)]
pub struct Record {
    pub parent: Option<u64>,
    pub home: Home,
    pub content: Content,
}

/// The nodes of a group, by name and in order: what a block's body or row brought.
#[derive(Drop)]
pub struct Group {
    pub nodes: Vec<u64>,
}

impl Group {
    /// No node.
    pub fn new(alloc: Global) -> Group
        ensures { result.nodes.items ≡ [] }
    {
        Group {
            nodes: Vec::new(alloc),
        }
    }

    /// Adds a node at the end.
    pub fn push(&mut self, n: NodeId) -> Result<(), AllocError>
        ensures ok { OnOk result (self.new.nodes.items ≡ self.old.nodes.items ++ n.made.0 ∷ []) }
        ensures err { OnErr result (self.new.nodes.items ≡ self.old.nodes.items) }
    {
        self.nodes.push(n.made.0)?;
        Ok(())
    }
}
