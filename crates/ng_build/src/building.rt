//! Nodes are built apart, part by part.
ghost use Rattle.std.specs.Prelude.{◌≡◌, ◌+◌, ◌≤◌, ◌<◌, ◌++◌, map, true, Some, IfOk, OnOk, IfErr};
ghost use Rattle.ng_base.specs.Faults.{is_memory};
ghost use Rattle.ng_dom.specs.Document.{next_name, live_count, Gains, IsLive};
ghost use Rattle.ng_dom.specs.Drawing.{stand_then, none_stand, no_bodies, comment_stands, element_stands, block_stands, shows};
ghost use Rattle.ng_dom.specs.Making.{new_part, node_limit as dom_limit};
ghost use Rattle.ng_dom.specs.Nodes.{names_of};
ghost use Rattle.ng_drawing.specs.Nodes.{part_nodes, content_nodes, nodes};
ghost use Rattle.std.specs.List.{flat_map};
ghost use Rattle.ng_drawing.specs.Template.{Binding as BindingOf, parts_from, text_part, bound};
ghost use Rattle.ng_parts.specs.PieceOf.{piece_of as seen_piece};
ghost use Rattle.ng_parts.specs.ActsOf.{acts_of, binding_of, source_of};
ghost use Rattle.ng_drawing.specs.Numbering.{source_numbers, bound_numbers};
ghost use Rattle.ng_parts.specs.Seen.{part_of, contents_of};
ghost use Rattle.ng_build.specs.Building.{unset, parent_name, IsThere, IsMade, Builds};
ghost use Rattle.ng_build.specs.Shape.{keys_by, linked_values, part_shape, content_shape, shape, unfilled, own_node, piece_holes, part_holes, content_holes, holes};
ghost use Rattle.ng_build.specs.Seen.{fault_of, named_as};

use crate::attributes::unset_attributes;
use crate::copying::{copied_attributes, copied_pieces, key_at, unset_text};
use ng_base::fault::Fault;
use ng_base::name::NodeId;
use ng_base::path::Key;
use ng_base::txt::Txt;
use ng_dom::dom::Dom;
use ng_dom::fault::DomFault;
use ng_dom::record::{Group, Home, NewNode, Part as DomPart, Piece as DrawnPiece};
use ng_parts::{Acts, Attributes, Binding, Contents, Part, Piece, Pieces, Source};
use std::alloc::{AllocError, Global};

/// The fault of a page that a document's fault is.
fn fault_of(e: DomFault) -> Fault
    ensures { result ≡ fault_of e }
{
    match e {
        DomFault::NodeLimit => Fault::NodeLimit,
        DomFault::Memory(m) => Fault::Memory(m),
    }
}

/// An answer of the document, as one of the page.
fn named_as(made: Result<NodeId, DomFault>) -> Result<NodeId, Fault>
    ensures { result ≡ named_as made }
{
    match made {
        Ok(n) => Ok(n),
        Err(e) => Err(fault_of(e)),
    }
}

/// A node is made apart, where there is room for one.
fn make(dom: &mut Dom, parent: Option<NodeId>, part: DomPart, home: Home) -> Result<NodeId, Fault>
    requires there { IsThere dom.old parent }
    requires room { live_count dom.old < dom_limit }
    ensures name { IfOk result (λ n. n.made.0 ≡ next_name dom.old) }
    ensures made { OnOk result (IsMade (parent_name parent) (new_part (next_name dom.old) part) dom.old dom.new) }
    ensures gains { OnOk result (Gains home dom.old dom.new) }
    ensures faults { IfErr result (λ e. is_memory e ≡ true) }
{
    match parent {
        None => named_as(dom.make_top(part, home)),
        Some(p) => named_as(dom.make_part(p, part, home)),
    }
}

/// Notes the node of each hole of a text.
fn note_holes(spots: &mut Vec<u64>, n: NodeId, pieces: &[Piece]) -> Result<(), AllocError>
    ensures { OnOk result (spots.new.items ≡ spots.old.items ++ piece_holes n.made.0 (map seen_piece pieces.now)) }
{
    for piece in pieces {
        match piece {
            Piece::Word(_) => {}
            Piece::Hole(_) => spots.push(n.made.0)?,
        }
    }
    Ok(())
}

/// Notes the node of each site of an element.
fn note_own(spots: &mut Vec<u64>, n: NodeId, own: &[u32]) -> Result<(), AllocError>
    ensures { OnOk result (spots.new.items ≡ spots.old.items ++ map (λ _. n.made.0) own.now) }
{
    for _ in own {
        spots.push(n.made.0)?;
    }
    Ok(())
}

/// Notes the node of each site of an element, one of which is drawn in the text that follows it.
fn note_bound(
    spots: &mut Vec<u64>,
    n: NodeId,
    text: NodeId,
    b: u32,
    own: &[u32],
) -> Result<(), AllocError>
    requires { text.made.0 ≡ n.made.0 + 1 }
    ensures { OnOk result (spots.new.items ≡ spots.old.items ++ map (own_node n.made.0 (bound b)) own.now) }
{
    for k in own {
        spots.push(if *k == b { text.made.0 } else { n.made.0 })?;
    }
    Ok(())
}

/// A text's node.
fn build_text(
    alloc: Global,
    dom: &mut Dom,
    keys: &[Key],
    parent: Option<NodeId>,
    pieces: &Pieces,
) -> Result<NodeId, Fault>
    requires there { IsThere dom.old parent }
    requires room { live_count dom.old < dom_limit }
    ensures name { IfOk result (λ n. n.made.0 ≡ next_name dom.old) }
    ensures builds { OnOk result (Builds (parent_name parent) (stand_then (part_shape (keys_by keys.now) (next_name dom.old) unfilled (text_part pieces.now)) none_stand) 1 dom.old dom.new) }
    ensures faults { IfErr result (λ e. is_memory e ≡ true) }
{
    let drawn = copied_pieces(alloc, keys, pieces.as_slice())?;
    let text = unset_text(alloc, drawn.as_slice())?;
    make(
        dom,
        parent,
        DomPart::Node(NewNode::Text(text)),
        Home::Text(drawn),
    )
}

/// A comment's node.
fn build_comment(dom: &mut Dom, parent: Option<NodeId>, text: &Txt) -> Result<NodeId, Fault>
    requires there { IsThere dom.old parent }
    requires room { live_count dom.old < dom_limit }
    ensures name { IfOk result (λ n. n.made.0 ≡ next_name dom.old) }
    ensures builds { OnOk result (Builds (parent_name parent) (stand_then (comment_stands (next_name dom.old) text.now) none_stand) 1 dom.old dom.new) }
    ensures faults { IfErr result (λ e. is_memory e ≡ true) }
{
    let text = text.copied()?;
    make(
        dom,
        parent,
        DomPart::Node(NewNode::Comment(text)),
        Home::Plain,
    )
}

/// The node of a text that one site shows.
fn build_bound(
    alloc: Global,
    dom: &mut Dom,
    keys: &[Key],
    parent: Option<NodeId>,
    b: u32,
) -> Result<NodeId, Fault>
    requires there { IsThere dom.old parent }
    requires room { live_count dom.old < dom_limit }
    ensures name { IfOk result (λ n. n.made.0 ≡ next_name dom.old) }
    ensures builds { OnOk result (Builds (parent_name parent) (content_shape (keys_by keys.now) (next_name dom.old) unfilled (bound b)) 1 dom.old dom.new) }
    ensures faults { IfErr result (λ e. is_memory e ≡ true) }
{
    let mut drawn = Vec::with_capacity(alloc, 1)?;
    drawn.push(DrawnPiece::Hole(key_at(keys, b as u64)?))?;
    make(
        dom,
        parent,
        DomPart::Node(NewNode::Text(Txt::new(alloc))),
        Home::Text(drawn),
    )
}

/// An element's node, with its attributes and without children.
fn build_element(
    alloc: Global,
    dom: &mut Dom,
    keys: &[Key],
    parent: Option<NodeId>,
    name: &Txt,
    attributes: &Attributes,
) -> Result<NodeId, Fault>
    requires there { IsThere dom.old parent }
    requires room { live_count dom.old < dom_limit }
    ensures name { IfOk result (λ n. n.made.0 ≡ next_name dom.old) }
    ensures builds { OnOk result (Builds (parent_name parent) (stand_then (element_stands (next_name dom.old) name.now (linked_values (keys_by keys.now) attributes.now) none_stand) none_stand) 1 dom.old dom.new) }
    ensures faults { IfErr result (λ e. is_memory e ≡ true) }
{
    let drawn = copied_attributes(alloc, keys, attributes.as_slice())?;
    let shown = unset_attributes(alloc, drawn.as_slice())?;
    let name = name.copied()?;
    let n = make(
        dom,
        parent,
        DomPart::Node(NewNode::Element(name)),
        Home::Attributes(drawn),
    )?;
    if !shown.is_empty() {
        dom.set_attrs(n, shown);
    }
    Ok(n)
}

/// An anchor's node, in whose groups nothing stands yet.
fn build_anchor(dom: &mut Dom, parent: Option<NodeId>) -> Result<NodeId, Fault>
    requires there { IsThere dom.old parent }
    requires room { live_count dom.old < dom_limit }
    ensures name { IfOk result (λ n. n.made.0 ≡ next_name dom.old) }
    ensures builds { OnOk result (Builds (parent_name parent) (stand_then (block_stands (next_name dom.old) no_bodies) none_stand) 1 dom.old dom.new) }
    ensures faults { IfErr result (λ e. is_memory e ≡ true) }
{
    make(dom, parent, DomPart::Anchor, Home::Plain)
}

/// Notes the node of each site of a binding.
#[tactic(auto, using(crate::proofs::Shapes::holes_numbered))]
fn note_source(spots: &mut Vec<u64>, n: NodeId, source: &Source) -> Result<(), AllocError>
    ensures { OnOk result (spots.new.items ≡ spots.old.items ++ map (λ _. n.made.0) (source_numbers (source_of source.now))) }
{
    match source {
        Source::Text(pieces) => note_holes(spots, n, pieces.as_slice())?,
        Source::OneWay(_) => spots.push(n.made.0)?,
        Source::TwoWay(_, _) => spots.push(n.made.0)?,
        Source::Nothing => {}
        Source::Call(_) => {}
    }
    Ok(())
}

/// Notes the node of each site of bindings.
fn note_bindings(spots: &mut Vec<u64>, n: NodeId, bindings: &[Binding]) -> Result<(), AllocError>
    ensures { OnOk result (spots.new.items ≡ spots.old.items ++ map (λ _. n.made.0) (flat_map (λ (b : BindingOf). source_numbers b.source) (map binding_of bindings.now))) }
{
    for binding in bindings {
        note_source(spots, n, &binding.source)?;
    }
    Ok(())
}

/// Notes the node of each site of the bindings of an element's directives.
fn note_uses(spots: &mut Vec<u64>, n: NodeId, acts: &Acts) -> Result<(), AllocError>
    ensures { OnOk result (spots.new.items ≡ spots.old.items ++ map (λ _. n.made.0) (bound_numbers (acts_of acts.now))) }
{
    match &acts.uses {
        None => Ok(()),
        Some(uses) => note_bindings(spots, n, uses.bindings.as_slice()),
    }
}

/// The node of a part, with all that it holds.
#[cycle(build)]
fn build_part(
    alloc: Global,
    dom: &mut Dom,
    keys: &[Key],
    spots: &mut Vec<u64>,
    parent: Option<NodeId>,
    part: &Part,
) -> Result<NodeId, Fault>
    requires there { IsThere dom.old parent }
    requires room { live_count dom.old + part_nodes (part_of part.now) ≤ dom_limit }
    ensures name { IfOk result (λ n. n.made.0 ≡ next_name dom.old) }
    ensures builds { OnOk result (Builds (parent_name parent) (stand_then (part_shape (keys_by keys.now) (next_name dom.old) unfilled (part_of part.now)) none_stand) (part_nodes (part_of part.now)) dom.old dom.new) }
    ensures holes { OnOk result (spots.new.items ≡ spots.old.items ++ part_holes (next_name dom.old) (part_of part.now)) }
    ensures faults { IfErr result (λ e. is_memory e ≡ true) }
{
    match part {
        Part::Text(pieces) => {
            let n = build_text(alloc, dom, keys, parent, pieces)?;
            note_holes(spots, n, pieces.as_slice())?;
            Ok(n)
        }
        Part::Comment(text) => build_comment(dom, parent, text),
        Part::Anchor { own, .. } => {
            let n = build_anchor(dom, parent)?;
            note_own(spots, n, own.as_slice())?;
            Ok(n)
        }
        Part::Element {
            name,
            own,
            acts,
            attributes,
            contents,
        } => build_whole(
            alloc,
            dom,
            keys,
            spots,
            parent,
            name,
            acts,
            own.as_slice(),
            attributes,
            contents,
        ),
    }
}

/// The node of an element, with all that it holds.
#[cycle(build)]
fn build_whole(
    alloc: Global,
    dom: &mut Dom,
    keys: &[Key],
    spots: &mut Vec<u64>,
    parent: Option<NodeId>,
    name: &Txt,
    acts: &Acts,
    own: &[u32],
    attributes: &Attributes,
    contents: &Contents,
) -> Result<NodeId, Fault>
    requires there { IsThere dom.old parent }
    requires room { live_count dom.old + (1 + content_nodes (contents_of contents.now)) ≤ dom_limit }
    ensures name { IfOk result (λ n. n.made.0 ≡ next_name dom.old) }
    ensures builds { OnOk result (Builds (parent_name parent) (stand_then (element_stands (next_name dom.old) name.now (linked_values (keys_by keys.now) attributes.now) (content_shape (keys_by keys.now) (next_name dom.old + 1) unfilled (contents_of contents.now))) none_stand) (1 + content_nodes (contents_of contents.now)) dom.old dom.new) }
    ensures holes { OnOk result (spots.new.items ≡ spots.old.items ++ (map (λ _. next_name dom.old) (bound_numbers (acts_of acts.now)) ++ (map (own_node (next_name dom.old) (contents_of contents.now)) own.now ++ content_holes (next_name dom.old + 1) (contents_of contents.now)))) }
    ensures faults { IfErr result (λ e. is_memory e ≡ true) }
{
    let n = build_element(alloc, dom, keys, parent, name, attributes)?;
    note_uses(spots, n, acts)?;
    let kids = build_contents(alloc, dom, keys, spots, n, own, contents)?;
    dom.fill(n, kids);
    Ok(n)
}

/// The nodes that an element contains, which is the last that was made.
#[cycle(build)]
fn build_contents(
    alloc: Global,
    dom: &mut Dom,
    keys: &[Key],
    spots: &mut Vec<u64>,
    n: NodeId,
    own: &[u32],
    contents: &Contents,
) -> Result<Group, Fault>
    requires there { IsLive dom.old n.made.0 }
    requires last { next_name dom.old ≡ n.made.0 + 1 }
    requires room { live_count dom.old + content_nodes (contents_of contents.now) ≤ dom_limit }
    ensures names { IfOk result (λ g. g.nodes.items ≡ names_of (shows unset (content_shape (keys_by keys.now) (next_name dom.old) unfilled (contents_of contents.now)))) }
    ensures builds { OnOk result (Builds (Some n.made.0) (content_shape (keys_by keys.now) (next_name dom.old) unfilled (contents_of contents.now)) (content_nodes (contents_of contents.now)) dom.old dom.new) }
    ensures holes { OnOk result (spots.new.items ≡ spots.old.items ++ (map (own_node n.made.0 (contents_of contents.now)) own.now ++ content_holes (next_name dom.old) (contents_of contents.now))) }
    ensures faults { IfErr result (λ e. is_memory e ≡ true) }
{
    match contents {
        Contents::Children(parts) => {
            note_own(spots, n, own)?;
            build_parts(alloc, dom, keys, spots, Some(n), parts.as_slice())
        }
        Contents::Bound(b) => {
            let text = build_bound(alloc, dom, keys, Some(n), *b)?;
            note_bound(spots, n, text, *b, own)?;
            let mut group = Group::new(alloc);
            group.push(text)?;
            Ok(group)
        }
    }
}

/// The nodes of parts, with all that they hold.
#[cycle(build)]
pub fn build_parts(
    alloc: Global,
    dom: &mut Dom,
    keys: &[Key],
    spots: &mut Vec<u64>,
    parent: Option<NodeId>,
    parts: &[Part],
) -> Result<Group, Fault>
    requires there { IsThere dom.old parent }
    requires room { live_count dom.old + nodes (parts_from (map part_of parts.now)) ≤ dom_limit }
    ensures names { IfOk result (λ g. g.nodes.items ≡ names_of (shows unset (shape (keys_by keys.now) (next_name dom.old) unfilled (parts_from (map part_of parts.now))))) }
    ensures builds { OnOk result (Builds (parent_name parent) (shape (keys_by keys.now) (next_name dom.old) unfilled (parts_from (map part_of parts.now))) (nodes (parts_from (map part_of parts.now))) dom.old dom.new) }
    ensures holes { OnOk result (spots.new.items ≡ spots.old.items ++ holes (next_name dom.old) (parts_from (map part_of parts.now))) }
    ensures faults { IfErr result (λ e. is_memory e ≡ true) }
{
    let mut group = Group::new(alloc);
    for part in parts {
        let n = build_part(alloc, dom, keys, spots, parent, part)?;
        group.push(n)?;
    }
    Ok(group)
}
