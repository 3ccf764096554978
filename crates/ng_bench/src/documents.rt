//! Documents: texts that are written, and groups that are inserted at an anchor.
use ng_base::name::NodeId;
use ng_base::txt::Txt;
use ng_dom::dom::Dom;
use ng_dom::record::{Group, Home, NewNode, Part};
use std::alloc::Global;

fn text(alloc: Global, s: &str) -> Option<Part> {
    let t = Txt::from_str(alloc, s).ok()?;
    Some(Part::Node(NewNode::Text(t)))
}

/// A paragraph for the top, which stands apart, and its text.
fn paragraph(alloc: Global, dom: &mut Dom) -> Option<(NodeId, NodeId)> {
    let name = Txt::from_str(alloc, "p").ok()?;
    let part = Part::Node(NewNode::Element(name));
    let n = dom.make_top(part, Home::Plain).ok()?;
    if !dom.has(n) {
        return None;
    }
    let t = dom
        .make_part(n, text(alloc, "some text")?, Home::Plain)
        .ok()?;
    let mut kids = Group::new(alloc);
    kids.push(t).ok()?;
    dom.fill(n, kids);
    Some((n, t))
}

/// A document of so many paragraphs is built and shown, and the text of each is written.
pub(crate) fn written(alloc: Global, size: u64) -> Option<u64> {
    let mut dom = Dom::new(alloc);
    let mut top = Group::new(alloc);
    let mut texts = Vec::new(alloc);
    for _ in 0..size {
        let (n, t) = paragraph(alloc, &mut dom)?;
        top.push(n).ok()?;
        texts.push(t).ok()?;
    }
    dom.show(top);
    for t in &texts {
        let other = Txt::from_str(alloc, "another text").ok()?;
        dom.set_text(*t, other).ok()?;
    }
    Some(dom.kids(None) as u64)
}

/// A group of one text for an anchor.
fn put_group(alloc: Global, dom: &mut Dom, anchor: NodeId, at: u32) -> Option<()> {
    if !dom.has(anchor) {
        return None;
    }
    let n = dom
        .make_part(anchor, text(alloc, "a row")?, Home::Plain)
        .ok()?;
    let mut group = Group::new(alloc);
    group.push(n).ok()?;
    dom.insert_group(anchor, at, group).ok()
}

/// A thousand groups are inserted in the middle of so many at an anchor.
pub(crate) fn grouped(alloc: Global, size: u64) -> Option<u64> {
    let mut dom = Dom::new(alloc);
    let anchor = dom.add_part(None, 0, Part::Anchor, Home::Plain).ok()?;
    for i in 0..size {
        put_group(alloc, &mut dom, anchor, u32::try_from(i).ok()?)?;
    }
    let middle = u32::try_from(size / 2).ok()?;
    for _ in 0..1_000 {
        put_group(alloc, &mut dom, anchor, middle)?;
    }
    Some(dom.kids(None) as u64)
}
