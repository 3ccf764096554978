//! The document: the calls that change it.
ghost use Rattle.std.specs.Prelude.{◌≡◌, ◌≤◌, ◌<◌, ◌+◌, ◌==◌, ℕ, Option, Some, None, false, is_some, OnOk, OnErr, IfErr, [], IsOk, option_map};
ghost use Rattle.ng_dom.specs.Records.{node_at};
ghost use Rattle.ng_base.specs.Meets.{Meets};
ghost use Rattle.ng_dom.specs.Lists.{put_at, without_at, list_at, lists_at, filled_with};
ghost use Rattle.ng_dom.specs.Removal.{without, room_without, top_without, groups_in, group_emptied, Takes, Spares, AreGone, IsThere, IsApartFromOthers};
ghost use Rattle.ng_dom.specs.Editing.{changed_in, with_kids, with_text, with_attributes, attribute_set, attribute_dropped, with_groups, group_inserted, group_removed, picked};
ghost use Rattle.ng_dom.specs.Nodes.{NamedNode, NamedForest, nothing_named, named_then, name_of, names_of};
ghost use Rattle.ng_dom.specs.Rooms.{room_changed, room_added, shape_told, shape_with_attributes, shape_with_kids, shape_with_groups, HasRoom, ReadsInside, ReadsIn};
ghost use Rattle.ng_dom.specs.Making.{new_name, new_node, new_part, is_want};
ghost use Rattle.ng_dom.specs.Kept.{shape_kept};

use crate::edits::{content_of, cut_top, move_name, only, put};
use crate::fault::DomFault;
use crate::nodes::{
    add, cut_group, cut_name, drop_attribute, empty_group, fill, move_kid, parent_of, pick_groups,
    put_group, put_kid, replace_attributes, set_attribute, take, tell,
};
use crate::record::{Content, Group, Home, NewNode, Part, Record};
use crate::records::Records;
use crate::removal::take_away;
use ng_base::fault::Memory;
use ng_base::lists::Numbers;
use ng_base::name::{NodeId, Serial};
use ng_base::txt::Txt;
use std::alloc::{AllocError, Global};
use std::collections::BTreeMap;

/// The most nodes that may be live.
pub const NODE_LIMIT: usize = 200_000;

/// A document.
#[derive(Drop)]
pub struct Dom {
    pub(crate) alloc: Global,
    pub(crate) nodes: Records,
    /// The nodes at the top.
    pub(crate) top: Vec<u64>,
    /// The name of the next node.
    pub(crate) next: u64,
    ghost fresh: { (q : ℕ) → next ≤ q → is_some (node_at nodes q) ≡ false },
}

impl Dom {
    ghost use Rattle.ng_dom.specs.Document.{rooms, top, next_name, live_count, IsLive, IsParent, Shows, Becomes, Stays, Unchanged, Gains, IsPlaced, IsApart, IsMoved, IsMovedUnder, Keeps, Undone, Fewer, Leaves};

    /// No node.
    pub fn new(alloc: Global) -> Dom
        ensures rooms { (q : ℕ) → rooms result q ≡ None }
        ensures top { top result ≡ [] }
        ensures next { next_name result ≡ 0 }
        ensures live { live_count result ≡ 0 }
    {
        Dom {
            alloc,
            nodes: Records::new(alloc),
            top: Vec::new(alloc),
            next: 0,
        }
    }

    /// The name of the next node, or why there is none.
    fn new_name(&self) -> Result<NodeId, DomFault>
        ensures { result ≡ new_name (live_count self.now) (next_name self.now) }
    {
        if self.nodes.len() >= NODE_LIMIT {
            return Err(DomFault::NodeLimit);
        }
        if self.next == u64::MAX {
            return Err(DomFault::Memory(Memory::Worn));
        }
        Ok(NodeId {
            slot: 0,
            made: Serial(self.next),
        })
    }

    /// A node of the next name becomes live, which no other node names yet.
    #[tactic(auto, using(crate::proofs::Adding::free_name))]
    fn make(
        &mut self,
        parent: Option<u64>,
        home: Home,
        content: Content,
    ) -> Result<NodeId, DomFault>
        ensures answer { Meets is_want (new_name (live_count self.old) (next_name self.old)) result }
        ensures rooms { OnOk result ((q : ℕ) → rooms self.new q ≡ room_added (next_name self.old) (record { parent = parent; shape = shape_kept content }) (rooms self.old) q) }
        ensures gains { OnOk result (Gains home self.old self.new) }
        ensures top { top self.new ≡ top self.old }
        ensures refused { IfErr result (λ e. is_want e ≡ false → Unchanged self.old self.new) }
        ensures undone { OnErr result (Undone self.old self.new) }
    {
        let id = self.new_name()?;
        let name = self.next;
        let node = Record {
            parent,
            home,
            content,
        };
        self.next = name + 1;
        add(&mut self.nodes, name, node)?;
        Ok(id)
    }

    /// A new node is the i-th at the top.
    #[tactic(auto, using(crate::proofs::Adding::free_name))]
    fn put_top(&mut self, i: usize, home: Home, content: Content) -> Result<NodeId, DomFault>
        ensures answer { Meets is_want (new_name (live_count self.old) (next_name self.old)) result }
        ensures placed { OnOk result (((q : ℕ) → rooms self.new q ≡ room_added (next_name self.old) (record { parent = None; shape = shape_kept content }) (rooms self.old) q) × (top self.new ≡ put_at i (next_name self.old) (top self.old))) }
        ensures gains { OnOk result (Gains home self.old self.new) }
        ensures refused { IfErr result (λ e. is_want e ≡ false → Unchanged self.old self.new) }
        ensures undone { OnErr result (Undone self.old self.new) }
    {
        let id = self.make(None, home, content)?;
        match put(&mut self.top, i, id.made.0) {
            Ok(()) => Ok(id),
            Err(refused) => {
                let _ = take(&mut self.nodes, id.made.0);
                Err(DomFault::from(refused))
            }
        }
    }

    /// A new node is the i-th child of an element.
    fn put_under(
        &mut self,
        parent: u64,
        i: usize,
        home: Home,
        content: Content,
    ) -> Result<NodeId, DomFault>
        ensures answer { Meets is_want (new_name (live_count self.old) (next_name self.old)) result }
        ensures rooms { OnOk result ((q : ℕ) → rooms self.new q ≡ room_changed parent (shape_with_kids (put_at i (next_name self.old))) (room_added (next_name self.old) (record { parent = Some parent; shape = shape_kept content }) (rooms self.old)) q) }
        ensures gains { OnOk result (Gains home self.old self.new) }
        ensures top { top self.new ≡ top self.old }
        ensures refused { IfErr result (λ e. is_want e ≡ false → Unchanged self.old self.new) }
        ensures undone { OnErr result (Undone self.old self.new) }
    {
        let id = self.make(Some(parent), home, content)?;
        match put_kid(&mut self.nodes, parent, i, id.made.0) {
            Ok(()) => Ok(id),
            Err(refused) => {
                let _ = take(&mut self.nodes, id.made.0);
                Err(DomFault::from(refused))
            }
        }
    }

    /// A new part of a template, drawn from its home, is the i-th at the top or of an element.
    pub fn add_part(
        &mut self,
        parent: Option<NodeId>,
        at: u32,
        part: Part,
        home: Home,
    ) -> Result<NodeId, DomFault>
        requires { IsParent self.old parent }
        ensures answer { Meets is_want (new_name (live_count self.old) (next_name self.old)) result }
        ensures placed { OnOk result (IsPlaced parent at (new_part (next_name self.old) part) self.old self.new) }
        ensures gains { OnOk result (Gains home self.old self.new) }
        ensures refused { IfErr result (λ e. is_want e ≡ false → Unchanged self.old self.new) }
        ensures undone { OnErr result (Undone self.old self.new) }
    {
        let content = content_of(self.alloc, part);
        match parent {
            None => self.put_top(at as usize, home, content),
            Some(p) => self.put_under(p.made.0, at as usize, home, content),
        }
    }

    /// A new node is the i-th at the top or of an element.
    pub fn insert(
        &mut self,
        parent: Option<NodeId>,
        at: u32,
        n: NewNode,
    ) -> Result<NodeId, DomFault>
        requires { IsParent self.old parent }
        ensures answer { Meets is_want (new_name (live_count self.old) (next_name self.old)) result }
        ensures placed { OnOk result (IsPlaced parent at (new_node (next_name self.old) n) self.old self.new) }
        ensures gains { OnOk result (Gains Home.Plain self.old self.new) }
        ensures refused { IfErr result (λ e. is_want e ≡ false → Unchanged self.old self.new) }
        ensures undone { OnErr result (Undone self.old self.new) }
    {
        self.add_part(parent, at, Part::Node(n), Home::Plain)
    }

    /// A new part is made for the children of an element or for a group of an anchor. It stands apart until it is given to its
    /// parent by `fill` or `insert_group`.
    #[tactic(auto, using(crate::proofs::Adding::free_name))]
    pub fn make_part(&mut self, parent: NodeId, part: Part, home: Home) -> Result<NodeId, DomFault>
        requires { IsLive self.old parent.made.0 }
        ensures answer { Meets is_want (new_name (live_count self.old) (next_name self.old)) result }
        ensures apart { OnOk result (IsApart (Some parent.made.0) (new_part (next_name self.old) part) self.old self.new) }
        ensures gains { OnOk result (Gains home self.old self.new) }
        ensures refused { IfErr result (λ e. is_want e ≡ false → Unchanged self.old self.new) }
        ensures undone { OnErr result (Undone self.old self.new) }
    {
        let content = content_of(self.alloc, part);
        self.make(Some(parent.made.0), home, content)
    }

    /// A new part is made for the top. It stands apart until it is shown.
    #[tactic(auto, using(crate::proofs::Adding::free_name))]
    pub fn make_top(&mut self, part: Part, home: Home) -> Result<NodeId, DomFault>
        ensures answer { Meets is_want (new_name (live_count self.old) (next_name self.old)) result }
        ensures apart { OnOk result (IsApart None (new_part (next_name self.old) part) self.old self.new) }
        ensures gains { OnOk result (Gains home self.old self.new) }
        ensures refused { IfErr result (λ e. is_want e ≡ false → Unchanged self.old self.new) }
        ensures undone { OnErr result (Undone self.old self.new) }
    {
        let content = content_of(self.alloc, part);
        self.make(None, home, content)
    }

    /// An element has these children, which were made for it and stand apart. It costs one look-up.
    pub fn fill(&mut self, n: NodeId, kids: Group)
        ensures rooms { (q : ℕ) → rooms self.new q ≡ room_changed n.made.0 (shape_with_kids (filled_with kids.nodes.items)) (rooms self.old) q }
        ensures reads { (piece : NamedForest) → names_of piece ≡ kids.nodes.items → ReadsIn (rooms self.old) (Some n.made.0) piece → Becomes self.old self.new (changed_in n.made.0 (with_kids (filled_with piece))) }
        ensures stays { Stays self.old self.new }
    {
        fill(&mut self.nodes, n.made.0, kids.nodes);
    }

    /// What was made for the top and stands apart is the whole document.
    pub fn show(&mut self, group: Group)
        ensures shows { (f : NamedForest) → names_of f ≡ group.nodes.items → ReadsIn (rooms self.old) None f → Shows self.new f }
        ensures rooms { (q : ℕ) → rooms self.new q ≡ rooms self.old q }
        ensures top { top self.new ≡ group.nodes.items }
        ensures keeps { Keeps self.old self.new }
    {
        self.top = group.nodes;
    }

    /// A node is taken away for good, with all that it holds. It costs what its parent holds, and what it takes.
    pub fn remove(&mut self, n: NodeId) -> Result<(), Memory>
        ensures reads { OnOk result (Leaves self.old self.new (without n.made.0)) }
        ensures shows { OnOk result ((f : NamedForest) → Shows self.old f → Shows self.new (without n.made.0 f)) }
        ensures gone { OnOk result ((p : Option ℕ) (x : NamedNode) → name_of x ≡ n.made.0 → HasRoom (rooms self.old) p x → ReadsInside (rooms self.old) x → AreGone (rooms self.new) (named_then x nothing_named)) }
        ensures fewer { Fewer self.old self.new }
        ensures refused { IfErr result (λ e. e ≡ Memory.Refused) }
    {
        match parent_of(&self.nodes, n.made.0) {
            None => Ok(()),
            Some(parent) => {
                self.remove_under(parent, n.made.0)?;
                Ok(())
            }
        }
    }

    fn remove_under(&mut self, parent: Option<u64>, n: u64) -> Result<(), AllocError>
        requires { option_map (λ x. x.parent) (rooms self.old n) ≡ Some parent }
        ensures reads { OnOk result (Leaves self.old self.new (without n)) }
        ensures shows { OnOk result ((f : NamedForest) → Shows self.old f → Shows self.new (without n f)) }
        ensures gone { OnOk result ((p : Option ℕ) (x : NamedNode) → name_of x ≡ n → HasRoom (rooms self.old) p x → ReadsInside (rooms self.old) x → AreGone (rooms self.new) (named_then x nothing_named)) }
        ensures fewer { Fewer self.old self.new }
    {
        let names = only(self.alloc, n)?;
        self.cut_out(parent, n)?;
        self.take_out(names)
    }

    /// A name is taken out of what its parent holds.
    fn cut_out(&mut self, parent: Option<u64>, n: u64) -> Result<(), AllocError>
        ensures cut { OnOk result (((q : ℕ) → rooms self.new q ≡ room_without parent n (rooms self.old) q) × (top self.new ≡ top_without parent n (top self.old))) }
        ensures keeps { Keeps self.old self.new }
    {
        match parent {
            None => {
                cut_top(&mut self.top, n);
                Ok(())
            }
            Some(p) => cut_name(&mut self.nodes, self.alloc, p, n),
        }
    }

    /// Nodes that stand apart are taken away.
    fn take_out(&mut self, names: Vec<u64>) -> Result<(), AllocError>
        ensures takes { OnOk result (Takes names.items (rooms self.old) (rooms self.new)) }
        ensures top { top self.new ≡ top self.old }
        ensures fewer { Fewer self.old self.new }
    {
        take_away(&mut self.nodes, names)
    }

    /// A piece that was built apart is taken away for good. It costs what it takes.
    pub fn discard(&mut self, group: Group) -> Result<(), Memory>
        ensures reads { OnOk result ((p : Option ℕ) (f : NamedForest) → ReadsIn (rooms self.old) p f → IsThere (rooms self.new) p → Spares group.nodes.items f → ReadsIn (rooms self.new) p f) }
        ensures gone { OnOk result ((p : Option ℕ) (piece : NamedForest) → names_of piece ≡ group.nodes.items → ReadsIn (rooms self.old) p piece → AreGone (rooms self.new) piece) }
        ensures top { top self.new ≡ top self.old }
        ensures fewer { Fewer self.old self.new }
        ensures refused { IfErr result (λ e. e ≡ Memory.Refused) }
    {
        self.take_out(group.nodes)?;
        Ok(())
    }

    /// A node is put before the i-th of the other children of its parent, or at the top.
    pub fn move_to(&mut self, n: NodeId, at: u32) -> Result<(), Memory>
        ensures moved { OnOk result (IsMoved (option_map (λ x. x.parent) (rooms self.old n.made.0)) at n.made.0 self.old self.new) }
        ensures keeps { Keeps self.old self.new }
        ensures refused { IfErr result (λ e. e ≡ Memory.Refused) }
    {
        match parent_of(&self.nodes, n.made.0) {
            None => Ok(()),
            Some(parent) => {
                self.move_under(parent, n.made.0, at as usize)?;
                Ok(())
            }
        }
    }

    fn move_under(&mut self, parent: Option<u64>, n: u64, i: usize) -> Result<(), AllocError>
        ensures moved { OnOk result (IsMovedUnder parent i n self.old self.new) }
        ensures keeps { Keeps self.old self.new }
    {
        match parent {
            None => move_name(&mut self.top, n, i),
            Some(p) => move_kid(&mut self.nodes, p, n, i),
        }
    }

    /// A text or comment shows another text.
    pub fn set_text(&mut self, n: NodeId, t: Txt) -> Result<(), Memory>
        ensures rooms { (q : ℕ) → rooms self.new q ≡ room_changed n.made.0 (shape_told t) (rooms self.old) q }
        ensures reads { Becomes self.old self.new (changed_in n.made.0 (with_text t)) }
        ensures stays { Stays self.old self.new }
        ensures ok { IsOk result }
    {
        tell(&mut self.nodes, n.made.0, t);
        Ok(())
    }

    /// An element has an attribute of this value, at its place in the order of the names.
    pub fn set_attr(&mut self, n: NodeId, name: &Txt, v: Txt) -> Result<(), Memory>
        ensures rooms { OnOk result ((q : ℕ) → rooms self.new q ≡ room_changed n.made.0 (shape_with_attributes (attribute_set name.now v)) (rooms self.old) q) }
        ensures reads { OnOk result (Becomes self.old self.new (changed_in n.made.0 (with_attributes (attribute_set name.now v)))) }
        ensures stays { Stays self.old self.new }
        ensures refused { IfErr result (λ e. e ≡ Memory.Refused) }
    {
        set_attribute(&mut self.nodes, n.made.0, name, v)?;
        Ok(())
    }

    /// An element has these attributes in place of its own.
    pub fn set_attrs(&mut self, n: NodeId, ats: BTreeMap<Txt, Txt>)
        ensures rooms { (q : ℕ) → rooms self.new q ≡ room_changed n.made.0 (shape_with_attributes (λ _. ats.entries)) (rooms self.old) q }
        ensures reads { Becomes self.old self.new (changed_in n.made.0 (with_attributes (λ _. ats.entries))) }
        ensures stays { Stays self.old self.new }
    {
        replace_attributes(&mut self.nodes, n.made.0, ats);
    }

    /// An element has no attribute of this name.
    pub fn drop_attr(&mut self, n: NodeId, name: &Txt) -> Result<(), Memory>
        ensures rooms { (q : ℕ) → rooms self.new q ≡ room_changed n.made.0 (shape_with_attributes (attribute_dropped name.now)) (rooms self.old) q }
        ensures reads { Becomes self.old self.new (changed_in n.made.0 (with_attributes (attribute_dropped name.now))) }
        ensures stays { Stays self.old self.new }
        ensures ok { IsOk result }
    {
        drop_attribute(&mut self.nodes, n.made.0, name);
        Ok(())
    }

    /// What was built apart for an anchor becomes its group before the i-th. It costs what the anchor's list of groups does,
    /// however large the document is.
    pub fn insert_group(&mut self, anchor: NodeId, at: u32, group: Group) -> Result<(), Memory>
        ensures rooms { OnOk result ((q : ℕ) → rooms self.new q ≡ room_changed anchor.made.0 (shape_with_groups (put_at at group.nodes.items)) (rooms self.old) q) }
        ensures reads { OnOk result ((piece : NamedForest) → names_of piece ≡ group.nodes.items → ReadsIn (rooms self.old) (Some anchor.made.0) piece → Becomes self.old self.new (changed_in anchor.made.0 (with_groups (group_inserted at piece)))) }
        ensures stays { Stays self.old self.new }
        ensures refused { IfErr result (λ e. e ≡ Memory.Refused) }
    {
        put_group(&mut self.nodes, anchor.made.0, at as usize, group.nodes)?;
        Ok(())
    }

    /// The i-th group of an anchor is taken out, and its nodes stand apart.
    pub fn cut_group(&mut self, anchor: NodeId, at: u32)
        ensures rooms { (q : ℕ) → rooms self.new q ≡ room_changed anchor.made.0 (shape_with_groups (without_at at)) (rooms self.old) q }
        ensures reads { Becomes self.old self.new (changed_in anchor.made.0 (with_groups (group_removed at))) }
        ensures stays { Stays self.old self.new }
    {
        cut_group(&mut self.nodes, anchor.made.0, at as usize);
    }

    /// The nodes of the i-th group of an anchor are taken away for good, and the group stands empty. It costs what it takes: for
    /// rows that go by a plan, each is emptied at its old place, and then the others are picked.
    pub fn empty_group(&mut self, anchor: NodeId, at: u32) -> Result<(), Memory>
        ensures reads { OnOk result ((piece : NamedForest) → names_of piece ≡ list_at at (groups_in (rooms self.old anchor.made.0)) → ReadsIn (rooms self.old) (Some anchor.made.0) piece → IsApartFromOthers at (groups_in (rooms self.old anchor.made.0)) → (p : Option ℕ) (f : NamedForest) → (p ≡ Some anchor.made.0 → ⊥) → ReadsIn (rooms self.old) p f → IsThere (rooms self.new) p → ReadsIn (rooms self.new) p (changed_in anchor.made.0 (with_groups (group_emptied at)) f)) }
        ensures gone { OnOk result ((piece : NamedForest) → names_of piece ≡ list_at at (groups_in (rooms self.old anchor.made.0)) → ReadsIn (rooms self.old) (Some anchor.made.0) piece → AreGone (rooms self.new) piece) }
        ensures top { top self.new ≡ top self.old }
        ensures fewer { Fewer self.old self.new }
        ensures refused { IfErr result (λ e. e ≡ Memory.Refused) }
    {
        let names = empty_group(&mut self.nodes, self.alloc, anchor.made.0, at as usize);
        self.take_out(names)?;
        Ok(())
    }

    /// An anchor has the groups of these places, in this order.
    pub fn pick_groups(&mut self, anchor: NodeId, order: &Numbers) -> Result<(), Memory>
        ensures rooms { OnOk result ((q : ℕ) → rooms self.new q ≡ room_changed anchor.made.0 (shape_with_groups (lists_at order.now)) (rooms self.old) q) }
        ensures reads { OnOk result (Becomes self.old self.new (changed_in anchor.made.0 (with_groups (picked order.now)))) }
        ensures stays { Stays self.old self.new }
        ensures refused { IfErr result (λ e. e ≡ Memory.Refused) }
    {
        pick_groups(&mut self.nodes, self.alloc, anchor.made.0, order.as_slice())?;
        Ok(())
    }
}
