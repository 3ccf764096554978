//! The document: the calls that ask it.
ghost use Rattle.std.specs.Prelude.{◌≡◌, ◌<◌, ◌+◌, ◌==◌, ◌&&◌, ◌++◌, encode_utf8_all, length, Option, Some, None, false, is_some, OnOk, IfOk, IfErr, IfSome, option_map};
ghost use Rattle.ng_dom.specs.Removal.{without};
ghost use Rattle.ng_dom.specs.Nodes.{NamedForest, name_of, all_names, plain};
ghost use Rattle.ng_markup.specs.Forest.{print};
ghost use Rattle.ng_html.specs.Seen.{forest_of};
ghost use Rattle.ng_dom.specs.Ancestors.{line as line_of};
ghost use Rattle.ng_dom.specs.Asked.{is_element_room, attribute_in, first_with_id};
ghost use Rattle.ng_dom.specs.Printed.{followed, at_place};
ghost use Rattle.ng_dom.specs.Paths.{path_in};

use crate::ancestors::line_up;
use crate::dom::Dom;
use crate::edits::{attribute, is_element};
use crate::finding::find_all;
use crate::paths::{Way, reversed, way_all};
use crate::printing::add_all;
use crate::record::Home;
use crate::seeking::{found, passed, seek_all, seek_kids};
use ng_base::fault::Memory;
use ng_base::name::{NodeId, Serial};
use ng_base::path::Path;
use ng_base::txt::Txt;
use ng_html::forest::Forest;
use ng_html::writing::write;

impl Dom {
    ghost use Rattle.ng_dom.specs.Document.{rooms, homes, top, next_name, live_count, Shows, Counts, Stands, Holds, child_in};

    /// Whether a node of this name is live.
    pub fn has(&self, n: NodeId) -> bool
        ensures { result ≡ (n.slot == 0 && is_some (rooms self.now n.made.0)) }
    {
        n.slot == 0 && self.nodes.has(n.made.0)
    }

    /// How many nodes are live. Where nothing stands apart, that is how many names the document has.
    pub fn live(&self) -> usize
        ensures value { result ≡ live_count self.now }
        ensures counts { (f : NamedForest) → Holds self.now f → result ≡ length (all_names f) }
    {
        self.nodes.len()
    }

    /// What a node is drawn from, where it is live.
    pub fn home(&self, n: NodeId) -> Option<&Home>
        ensures { option_map (λ h. h.now) result ≡ homes self.now n.made.0 }
    {
        match self.nodes.get(n.made.0) {
            None => None,
            Some(node) => Some(&node.home),
        }
    }

    /// Whether a node is an element.
    pub fn is_element(&self, n: NodeId) -> bool
        ensures { result ≡ is_element_room (rooms self.now n.made.0) }
    {
        match self.nodes.get(n.made.0) {
            None => false,
            Some(node) => is_element(node),
        }
    }

    /// The value of an element's attribute.
    pub fn attr(&self, n: NodeId, name: &Txt) -> Option<&Txt>
        ensures { option_map (λ t. t.now) result ≡ attribute_in name.now (rooms self.now n.made.0) }
    {
        match self.nodes.get(n.made.0) {
            None => None,
            Some(node) => attribute(node, name),
        }
    }

    /// How many nodes are printed at the top, or inside a node: the nodes of an anchor's groups follow it as its siblings.
    pub fn kids(&self, parent: Option<NodeId>) -> u32
        ensures { Counts self.now parent result }
    {
        let deep = self.next;
        match parent {
            None => passed(seek_all(&self.nodes, deep, None, u32::MAX, self.top.as_slice())),
            Some(p) => passed(seek_kids(&self.nodes, deep, None, u32::MAX, p.made.0)),
        }
    }

    /// The node of a number among those that are printed at the top, or inside a node.
    fn child(&self, parent: Option<u64>, i: u32) -> Option<u64>
        ensures { result ≡ child_in self.now parent i }
    {
        match parent {
            None => found(seek_all(&self.nodes, self.next, None, i, self.top.as_slice())),
            Some(n) => found(seek_kids(&self.nodes, self.next, None, i, n)),
        }
    }

    /// Goes down by the numbers of a path.
    fn follow(&self, numbers: &[u32]) -> Option<u64>
        ensures { result ≡ followed (child_in self.now) None numbers.now }
    {
        let mut parent = None;
        for i in numbers {
            match self.child(parent, *i) {
                None => return None,
                Some(n) => parent = Some(n),
            }
        }
        parent
    }

    /// The node at a path of the printed document.
    pub fn at(&self, p: &Path) -> Option<NodeId>
        ensures found { (f : NamedForest) → Shows self.now f → option_map (λ n. n.made.0) result ≡ option_map name_of (at_place p.now f) }
        ensures slot { IfSome result (λ n. n.slot ≡ 0) }
    {
        match self.place_at(p) {
            None => None,
            Some(n) => Some(NodeId {
                slot: 0,
                made: Serial(n),
            }),
        }
    }

    /// The name of the node at a path.
    fn place_at(&self, p: &Path) -> Option<u64>
        ensures { (f : NamedForest) → Shows self.now f → result ≡ option_map name_of (at_place p.now f) }
    {
        self.follow(p.as_slice())
    }

    /// The path of a node that stands in the document, in what is printed. It costs what is printed before the node. A place that
    /// no `u32` counts is answered as want of memory, and `NODE_LIMIT` keeps documents far from it.
    pub fn path(&self, n: NodeId) -> Result<Path, Memory>
        requires stands { Stands self.now n.made.0 }
        ensures path { (f : NamedForest) → Shows self.now f → IfOk result (λ p. path_in n.made.0 f ≡ Some p) }
        ensures stands { IfOk result (λ p. (f : NamedForest) → Shows self.now f → option_map name_of (at_place p f) ≡ Some n.made.0) }
        ensures refused { IfErr result (λ e. e ≡ Memory.Refused) }
    {
        let way = way_all(
            &self.nodes,
            self.alloc,
            self.next,
            n.made.0,
            0,
            self.top.as_slice(),
        )?;
        match way {
            Way::Reached(up) => Ok(reversed(self.alloc, up.as_slice())?),
            Way::Passed(_) => unreachable!(),
        }
    }

    /// A node that stands in the document, and the elements that it stands in, from the inside out.
    pub fn line(&self, n: NodeId) -> Result<Vec<u64>, Memory>
        requires stands { Stands self.now n.made.0 }
        ensures line { (f : NamedForest) → Shows self.now f → IfOk result (λ l. l.items ≡ line_of n.made.0 f) }
        ensures refused { IfErr result (λ e. e ≡ Memory.Refused) }
    {
        Ok(line_up(&self.nodes, self.alloc, self.next, n.made.0)?)
    }

    /// How many nodes are live.
    pub fn count(&self) -> usize
        ensures { result ≡ live_count self.now }
    {
        self.live()
    }

    /// The name that the next node gets.
    pub fn next_name(&self) -> u64
        ensures { result ≡ next_name self.now }
    {
        self.next
    }

    /// The document without names: an anchor is an empty comment, and its groups stand after it.
    pub fn forest(&self) -> Result<Forest, Memory>
        ensures read { (f : NamedForest) → Shows self.now f → IfOk result (λ g. forest_of g ≡ plain f) }
        ensures refused { IfErr result (λ e. e ≡ Memory.Refused) }
    {
        let mut forest = Forest::new(self.alloc);
        add_all(
            &self.nodes,
            self.alloc,
            self.next,
            self.top.as_slice(),
            &mut forest,
        )?;
        Ok(forest)
    }

    /// Adds the document's print at the end.
    pub fn print(&self, into: &mut Vec<u8>) -> Result<(), Memory>
        ensures printed { (f : NamedForest) → Shows self.now f → OnOk result (into.new.items ≡ into.old.items ++ encode_utf8_all (print (plain f))) }
        ensures refused { IfErr result (λ e. e ≡ Memory.Refused) }
    {
        let forest = self.forest()?;
        write(&forest, into)
    }

    /// The first element with an id, in document order.
    pub fn by_id(&self, id: &Txt) -> Option<NodeId>
        ensures found { (f : NamedForest) → Shows self.now f → option_map (λ n. n.made.0) result ≡ first_with_id id.now f }
        ensures slot { IfSome result (λ n. n.slot ≡ 0) }
    {
        match self.find(id) {
            None => None,
            Some(n) => Some(NodeId {
                slot: 0,
                made: Serial(n),
            }),
        }
    }

    /// The name of the first element with an id.
    fn find(&self, id: &Txt) -> Option<u64>
        ensures { (f : NamedForest) → Shows self.now f → result ≡ first_with_id id.now f }
    {
        find_all(&self.nodes, self.next, self.top.as_slice(), id)
    }
}
