//! Changes of one node.
ghost use Rattle.std.specs.Prelude.{ℕ, map, option_map, ◌≡◌, ◌≤◌, ◌<◌, length, true, false, MatchOption, [], ◌∷◌, OnOk, OnErr, IfOk};
ghost use Rattle.std.specs.List.{remove};
ghost use Rattle.ng_dom.specs.Lists.{put_at, without_at, list_at, lists_at, among, without_first, moved_to, filled_with, emptied_at};
ghost use Rattle.ng_dom.specs.Editing.{attribute_set, attribute_dropped};
ghost use Rattle.ng_dom.specs.Rooms.{reshaped, shape_of, shape_told, shape_with_attributes, shape_with_kids, shape_with_groups};
ghost use Rattle.ng_dom.specs.Asked.{shape_attribute, is_element_shape};
ghost use Rattle.ng_dom.specs.Making.{new_node, new_part};
ghost use Rattle.ng_dom.specs.Removal.{all_but, each_but, shape_without, groups_held};
ghost use Rattle.ng_dom.specs.Kept.{room_kept, shape_kept};

use crate::record::{Content, NewNode, Part, Record};
use ng_base::txt::Txt;
use std::alloc::{AllocError, Global};
use std::collections::BTreeMap;
use std::mem;

/// What a new node shows.
fn node_content(alloc: Global, n: NewNode) -> Content
    ensures { (m : ℕ) → shape_kept result ≡ shape_of (new_node m n) }
{
    match n {
        NewNode::Element(name) => Content::Element {
            name,
            attributes: BTreeMap::new(alloc),
            kids: Vec::new(alloc),
        },
        NewNode::Text(t) => Content::Text(t),
        NewNode::Comment(t) => Content::Comment(t),
    }
}

/// What a new part shows.
pub fn content_of(alloc: Global, part: Part) -> Content
    ensures { (m : ℕ) → shape_kept result ≡ shape_of (new_part m part) }
{
    match part {
        Part::Node(n) => node_content(alloc, n),
        Part::Anchor => Content::Anchor(Vec::new(alloc)),
    }
}

/// A name is put before the i-th of some, or at the end where there are fewer.
#[tactic(auto, using(crate::proofs::Places::puts))]
pub fn put(names: &mut Vec<u64>, i: usize, name: u64) -> Result<(), AllocError>
    ensures ok { OnOk result (names.new.items ≡ put_at i name names.old.items) }
    ensures err { OnErr result (names.new.items ≡ names.old.items) }
{
    if i < names.len() {
        names.insert(i, name)?;
    } else {
        names.push(name)?;
    }
    Ok(())
}

/// A group is put before the i-th of some, or at the end where there are fewer.
#[tactic(auto, using(crate::proofs::Places::puts))]
fn put_list(groups: &mut Vec<Vec<u64>>, i: usize, group: Vec<u64>) -> Result<(), AllocError>
    ensures { OnOk result (map (λ g. g.items) groups.new.items ≡ put_at i group.items (map (λ g. g.items) groups.old.items)) }
{
    if i < groups.len() {
        groups.insert(i, group)?;
    } else {
        groups.push(group)?;
    }
    Ok(())
}

/// The i-th group is taken out.
#[tactic(auto, using(crate::proofs::Places::cuts))]
fn cut_list(groups: &mut Vec<Vec<u64>>, i: usize)
    ensures { map (λ g. g.items) groups.new.items ≡ without_at i (map (λ g. g.items) groups.old.items) }
{
    if i < groups.len() {
        let _ = groups.remove(i);
    }
}

/// An anchor has one group more.
pub fn put_group(node: &mut Record, i: usize, group: Vec<u64>) -> Result<(), AllocError>
    ensures room { OnOk result (room_kept node.new ≡ reshaped (shape_with_groups (put_at i group.items)) (room_kept node.old)) }
    ensures home { node.new.home ≡ node.old.home }
{
    match &mut node.content {
        Content::Anchor(groups) => put_list(groups, i, group),
        Content::Text(_) => Ok(()),
        Content::Comment(_) => Ok(()),
        Content::Element { .. } => Ok(()),
    }
}

/// An anchor has one group less.
pub fn cut_group(node: &mut Record, i: usize)
    ensures room { room_kept node.new ≡ reshaped (shape_with_groups (without_at i)) (room_kept node.old) }
    ensures home { node.new.home ≡ node.old.home }
{
    match &mut node.content {
        Content::Anchor(groups) => cut_list(groups, i),
        Content::Text(_) => {}
        Content::Comment(_) => {}
        Content::Element { .. } => {}
    }
}

fn copied(names: &Vec<u64>) -> Result<Vec<u64>, AllocError>
    ensures { IfOk result (λ copy. copy.items ≡ names.now.items) }
{
    let copy = names.clone()?;
    Ok(copy)
}

/// The i-th of some groups, copied.
fn group_at(alloc: Global, groups: &[Vec<u64>], i: usize) -> Result<Vec<u64>, AllocError>
    ensures { IfOk result (λ g. g.items ≡ list_at i (map (λ g. g.items) groups.now)) }
{
    match groups.get(i) {
        None => Ok(Vec::new(alloc)),
        Some(group) => copied(group),
    }
}

/// The groups of these places, in this order.
fn groups_at(alloc: Global, groups: &[Vec<u64>], order: &[u32]) -> Result<Vec<Vec<u64>>, AllocError>
    ensures { IfOk result (λ l. map (λ g. g.items) l.items ≡ lists_at order.now (map (λ g. g.items) groups.now)) }
{
    let mut picked = Vec::new(alloc);
    for i in order {
        picked.push(group_at(alloc, groups, *i as usize)?)?;
    }
    Ok(picked)
}

/// An anchor has the groups of these places, in this order.
pub fn pick_groups(node: &mut Record, alloc: Global, order: &[u32]) -> Result<(), AllocError>
    ensures room { OnOk result (room_kept node.new ≡ reshaped (shape_with_groups (lists_at order.now)) (room_kept node.old)) }
    ensures home { node.new.home ≡ node.old.home }
{
    match &mut node.content {
        Content::Anchor(groups) => {
            *groups = groups_at(alloc, groups.as_slice(), order)?;
            Ok(())
        }
        Content::Text(_) => Ok(()),
        Content::Comment(_) => Ok(()),
        Content::Element { .. } => Ok(()),
    }
}

/// The value of an element's attribute.
pub fn attribute<'a>(node: &'a Record, name: &Txt) -> Option<&'a Txt>
    ensures { option_map (λ t. t.now) result ≡ shape_attribute name.now (shape_kept node.now.content) }
{
    match &node.content {
        Content::Element { attributes, .. } => attributes.get(name),
        Content::Text(_) => None,
        Content::Comment(_) => None,
        Content::Anchor(_) => None,
    }
}

/// Whether a node is an element.
pub fn is_element(node: &Record) -> bool
    ensures { result ≡ is_element_shape (shape_kept node.now.content) }
{
    match &node.content {
        Content::Element { .. } => true,
        Content::Text(_) => false,
        Content::Comment(_) => false,
        Content::Anchor(_) => false,
    }
}

/// The place of the first of a name.
fn place_of(names: &[u64], n: u64) -> Option<usize>
    ensures { MatchOption result ((among n names.now ≡ false) × (without_first n names.now ≡ names.now)) (λ i. (i < length names.now) × (among n names.now ≡ true) × (remove names.now i ≡ without_first n names.now)) }
{
    for i in 0..names.len() {
        if names[i] == n {
            return Some(i);
        }
    }
    None
}

/// The first of a name is taken out, where there is one.
fn take_name(names: &mut Vec<u64>, n: u64) -> bool
    ensures was { result ≡ among n names.old.items }
    ensures names { names.new.items ≡ without_first n names.old.items }
{
    match place_of(names.as_slice(), n) {
        None => false,
        Some(i) => {
            let _ = names.remove(i);
            true
        }
    }
}

/// The first of a name is put before the i-th of the others.
pub fn move_name(names: &mut Vec<u64>, n: u64, i: usize) -> Result<(), AllocError>
    ensures { OnOk result (names.new.items ≡ moved_to i n names.old.items) }
{
    if take_name(names, n) {
        put(names, i, n)?;
    }
    Ok(())
}

/// A child is put before the i-th of the others.
pub fn move_kid(node: &mut Record, n: u64, i: usize) -> Result<(), AllocError>
    ensures room { OnOk result (room_kept node.new ≡ reshaped (shape_with_kids (moved_to i n)) (room_kept node.old)) }
    ensures home { node.new.home ≡ node.old.home }
{
    match &mut node.content {
        Content::Element { kids, .. } => move_name(kids, n, i),
        Content::Text(_) => Ok(()),
        Content::Comment(_) => Ok(()),
        Content::Anchor(_) => Ok(()),
    }
}

/// An element has one child more.
pub fn put_kid(node: &mut Record, i: usize, name: u64) -> Result<(), AllocError>
    ensures room { OnOk result (room_kept node.new ≡ reshaped (shape_with_kids (put_at i name)) (room_kept node.old)) }
    ensures home { node.new.home ≡ node.old.home }
    ensures err { OnErr result (room_kept node.new ≡ room_kept node.old) }
{
    match &mut node.content {
        Content::Element { kids, .. } => put(kids, i, name),
        Content::Text(_) => Ok(()),
        Content::Comment(_) => Ok(()),
        Content::Anchor(_) => Ok(()),
    }
}

/// A text or comment shows another text.
pub fn tell(node: &mut Record, t: Txt)
    ensures room { room_kept node.new ≡ reshaped (shape_told t) (room_kept node.old) }
    ensures home { node.new.home ≡ node.old.home }
{
    match &mut node.content {
        Content::Text(u) => *u = t,
        Content::Comment(u) => *u = t,
        Content::Element { .. } => {}
        Content::Anchor(_) => {}
    }
}

/// An element has an attribute of this value.
pub fn set_attribute(node: &mut Record, name: &Txt, v: Txt) -> Result<(), AllocError>
    ensures room { OnOk result (room_kept node.new ≡ reshaped (shape_with_attributes (attribute_set name.now v)) (room_kept node.old)) }
    ensures home { node.new.home ≡ node.old.home }
    ensures err { OnErr result (room_kept node.new ≡ room_kept node.old) }
{
    match &mut node.content {
        Content::Element { attributes, .. } => {
            let key = name.copied()?;
            let _ = attributes.insert(key, v)?;
            Ok(())
        }
        Content::Text(_) => Ok(()),
        Content::Comment(_) => Ok(()),
        Content::Anchor(_) => Ok(()),
    }
}

/// An element has these attributes in place of its own.
pub fn replace_attributes(node: &mut Record, ats: BTreeMap<Txt, Txt>)
    ensures room { room_kept node.new ≡ reshaped (shape_with_attributes (λ _. ats.entries)) (room_kept node.old) }
    ensures home { node.new.home ≡ node.old.home }
{
    match &mut node.content {
        Content::Element { attributes, .. } => *attributes = ats,
        Content::Text(_) => {}
        Content::Comment(_) => {}
        Content::Anchor(_) => {}
    }
}

/// An element has no attribute of this name.
pub fn drop_attribute(node: &mut Record, name: &Txt)
    ensures room { room_kept node.new ≡ reshaped (shape_with_attributes (attribute_dropped name.now)) (room_kept node.old) }
    ensures home { node.new.home ≡ node.old.home }
{
    match &mut node.content {
        Content::Element { attributes, .. } => {
            let _ = attributes.remove(name);
        }
        Content::Text(_) => {}
        Content::Comment(_) => {}
        Content::Anchor(_) => {}
    }
}

/// One name.
pub fn only(alloc: Global, n: u64) -> Result<Vec<u64>, AllocError>
    ensures { IfOk result (λ names. names.items ≡ n ∷ []) }
{
    let mut names = Vec::new(alloc);
    names.push(n)?;
    Ok(names)
}

/// All names but one stay.
fn keep_others(names: &mut Vec<u64>, n: u64)
    ensures { names.new.items ≡ all_but n names.old.items }
{
    names.retain(|k| *k != n);
}

/// A group without a name.
fn group_without(group: &Vec<u64>, n: u64) -> Result<Vec<u64>, AllocError>
    ensures { IfOk result (λ g. g.items ≡ all_but n group.now.items) }
{
    let mut kept = copied(group)?;
    keep_others(&mut kept, n);
    Ok(kept)
}

/// The groups without a name.
fn groups_without(alloc: Global, groups: &[Vec<u64>], n: u64) -> Result<Vec<Vec<u64>>, AllocError>
    ensures { IfOk result (λ l. map (λ g. g.items) l.items ≡ each_but n (map (λ g. g.items) groups.now)) }
{
    let mut kept = Vec::new(alloc);
    for group in groups {
        kept.push(group_without(group, n)?)?;
    }
    Ok(kept)
}

/// A name is taken out of what a node holds.
pub fn cut_name(node: &mut Record, alloc: Global, n: u64) -> Result<(), AllocError>
    ensures room { OnOk result (room_kept node.new ≡ reshaped (shape_without n) (room_kept node.old)) }
    ensures home { node.new.home ≡ node.old.home }
{
    match &mut node.content {
        Content::Element { kids, .. } => {
            keep_others(kids, n);
            Ok(())
        }
        Content::Anchor(groups) => {
            *groups = groups_without(alloc, groups.as_slice(), n)?;
            Ok(())
        }
        Content::Text(_) => Ok(()),
        Content::Comment(_) => Ok(()),
    }
}

/// All names but one stay at the top.
pub fn cut_top(names: &mut Vec<u64>, n: u64)
    ensures { names.new.items ≡ all_but n names.old.items }
{
    keep_others(names, n);
}

/// An element has these children.
pub fn fill(node: &mut Record, names: Vec<u64>)
    ensures room { room_kept node.new ≡ reshaped (shape_with_kids (filled_with names.items)) (room_kept node.old) }
    ensures home { node.new.home ≡ node.old.home }
{
    match &mut node.content {
        Content::Element { kids, .. } => *kids = names,
        Content::Text(_) => {}
        Content::Comment(_) => {}
        Content::Anchor(_) => {}
    }
}

/// The i-th of some lists is handed out, and stands empty.
fn empty_list(groups: &mut Vec<Vec<u64>>, alloc: Global, i: usize) -> Vec<u64>
    ensures list { result.items ≡ list_at i (map (λ g. g.items) groups.old.items) }
    ensures lists { map (λ g. g.items) groups.new.items ≡ emptied_at i (map (λ g. g.items) groups.old.items) }
{
    if i < groups.len() {
        mem::replace(&mut groups[i], Vec::new(alloc))
    } else {
        Vec::new(alloc)
    }
}

/// The i-th group of an anchor is handed out, and stands empty.
pub fn empty_group(node: &mut Record, alloc: Global, i: usize) -> Vec<u64>
    ensures room { room_kept node.new ≡ reshaped (shape_with_groups (emptied_at i)) (room_kept node.old) }
    ensures group { result.items ≡ list_at i (groups_held (shape_kept node.old.content)) }
    ensures home { node.new.home ≡ node.old.home }
{
    match &mut node.content {
        Content::Anchor(groups) => empty_list(groups, alloc, i),
        Content::Text(_) => Vec::new(alloc),
        Content::Comment(_) => Vec::new(alloc),
        Content::Element { .. } => Vec::new(alloc),
    }
}
