//! A document's calls, each once, and what is printed after them.
use ng_base::lists::Numbers;
use ng_base::name::NodeId;
use ng_base::txt::Txt;
use ng_dom::dom::Dom;
use ng_dom::record::{Group, Home, NewNode, Part};
use std::alloc::Global;

/// What a step does to the nodes that were made so far, by their places in the order of making.
#[derive(Clone, Copy)]
enum Step {
    Element(Option<usize>, u32, &'static str),
    Text(Option<usize>, u32, &'static str),
    Comment(Option<usize>, u32, &'static str),
    Anchor(Option<usize>, u32),
    /// A group of one text for an anchor.
    Group(usize, u32, &'static str),
    Cut(usize, u32),
    Pick(usize, &'static [u32]),
    Write(usize, &'static str),
    Set(usize, &'static str, &'static str),
    Drop(usize, &'static str),
    Move(usize, u32),
}

/// Steps, and what the document prints after them.
const STEPS: [(&[Step], &str); 9] = [
    (&[], ""),
    (&[Step::Text(None, 0, "a<b")], "a&lt;b"),
    (
        &[
            Step::Element(None, 0, "p"),
            Step::Text(Some(0), 0, "b"),
            Step::Comment(Some(0), 0, "a"),
        ],
        "<p><!--a-->b</p>",
    ),
    (
        &[
            Step::Element(None, 0, "br"),
            Step::Set(0, "id", "x"),
            Step::Set(0, "class", "y"),
            Step::Set(0, "id", "z"),
        ],
        "<br class=\"y\" id=\"z\">",
    ),
    (
        &[
            Step::Element(None, 0, "p"),
            Step::Set(0, "id", "x"),
            Step::Drop(0, "id"),
            Step::Drop(0, "a"),
        ],
        "<p></p>",
    ),
    (
        &[
            Step::Text(None, 0, "a"),
            Step::Text(None, 1, "b"),
            Step::Text(None, 1, "c"),
            Step::Write(1, "d"),
        ],
        "acd",
    ),
    (
        &[
            Step::Text(None, 0, "a"),
            Step::Text(None, 1, "b"),
            Step::Text(None, 2, "c"),
            Step::Move(0, 1),
        ],
        "bac",
    ),
    (
        &[
            Step::Anchor(None, 0),
            Step::Group(0, 0, "a"),
            Step::Group(0, 1, "b"),
            Step::Group(0, 1, "c"),
            Step::Text(None, 1, "d"),
        ],
        "<!---->acbd",
    ),
    (
        &[
            Step::Anchor(None, 0),
            Step::Group(0, 0, "a"),
            Step::Group(0, 1, "b"),
            Step::Group(0, 2, "c"),
            Step::Cut(0, 1),
            Step::Pick(0, &[1, 0]),
        ],
        "<!---->ca",
    ),
];

fn txt(alloc: Global, s: &str) -> Option<Txt> {
    Txt::from_str(alloc, s).ok()
}

/// A node is made where the parent is an element or the top.
fn put(
    dom: &mut Dom,
    made: &[NodeId],
    parent: Option<usize>,
    at: u32,
    part: Part,
) -> Option<NodeId> {
    match parent {
        None => dom.add_part(None, at, part, Home::Plain).ok(),
        Some(p) => {
            let parent = *made.get(p)?;
            if !dom.is_element(parent) {
                return None;
            }
            dom.add_part(Some(parent), at, part, Home::Plain).ok()
        }
    }
}

/// A group of one text.
fn group(alloc: Global, dom: &mut Dom, anchor: NodeId, at: u32, text: &str) -> Option<()> {
    if !dom.has(anchor) {
        return None;
    }
    let text = NewNode::Text(txt(alloc, text)?);
    let n = dom.make_part(anchor, Part::Node(text), Home::Plain).ok()?;
    let mut group = Group::new(alloc);
    group.push(n).ok()?;
    dom.insert_group(anchor, at, group).ok()
}

fn done(alloc: Global, dom: &mut Dom, made: &mut Vec<NodeId>, step: &Step) -> Option<()> {
    match step {
        Step::Element(parent, at, name) => {
            let part = Part::Node(NewNode::Element(txt(alloc, name)?));
            let n = put(dom, made.as_slice(), *parent, *at, part)?;
            made.push(n).ok()
        }
        Step::Text(parent, at, text) => {
            let part = Part::Node(NewNode::Text(txt(alloc, text)?));
            let n = put(dom, made.as_slice(), *parent, *at, part)?;
            made.push(n).ok()
        }
        Step::Comment(parent, at, text) => {
            let part = Part::Node(NewNode::Comment(txt(alloc, text)?));
            let n = put(dom, made.as_slice(), *parent, *at, part)?;
            made.push(n).ok()
        }
        Step::Anchor(parent, at) => {
            let n = put(dom, made.as_slice(), *parent, *at, Part::Anchor)?;
            made.push(n).ok()
        }
        Step::Group(anchor, at, text) => group(alloc, dom, *made.get(*anchor)?, *at, text),
        Step::Cut(anchor, at) => {
            dom.cut_group(*made.get(*anchor)?, *at);
            Some(())
        }
        Step::Pick(anchor, order) => {
            let mut places = Numbers::new(alloc);
            for i in *order {
                places.push(*i).ok()?;
            }
            dom.pick_groups(*made.get(*anchor)?, &places).ok()
        }
        Step::Write(n, text) => dom.set_text(*made.get(*n)?, txt(alloc, text)?).ok(),
        Step::Set(n, name, value) => {
            let name = txt(alloc, name)?;
            dom.set_attr(*made.get(*n)?, &name, txt(alloc, value)?).ok()
        }
        Step::Drop(n, name) => {
            let name = txt(alloc, name)?;
            dom.drop_attr(*made.get(*n)?, &name).ok()
        }
        Step::Move(n, at) => dom.move_to(*made.get(*n)?, *at).ok(),
    }
}

fn printed(alloc: Global, steps: &[Step]) -> Option<Vec<u8>> {
    let mut dom = Dom::new(alloc);
    let mut made = Vec::new(alloc);
    for s in steps {
        done(alloc, &mut dom, &mut made, s)?;
    }
    let mut into = Vec::new(alloc);
    dom.print(&mut into).ok()?;
    Some(into)
}

#[test]
fn each_call_changes_what_is_printed(rt: HostRuntime) {
    for (steps, want) in STEPS {
        match printed(rt.alloc(), steps) {
            Some(print) => assert!(rt; print.as_slice() == want.as_bytes(), "at {want}"),
            None => panic!(rt; "refused at {want}"),
        }
    }
}

#[test]
fn the_first_element_of_an_id_is_found(rt: HostRuntime) {
    let alloc = rt.alloc();
    let mut dom = Dom::new(alloc);
    let mut made = Vec::new(alloc);
    let steps = [
        Step::Element(None, 0, "p"),
        Step::Element(Some(0), 0, "b"),
        Step::Element(None, 1, "i"),
        Step::Set(1, "id", "x"),
        Step::Set(2, "id", "x"),
    ];
    for s in &steps {
        assert!(rt; done(alloc, &mut dom, &mut made, s).is_some());
    }
    match (txt(alloc, "x"), txt(alloc, "y")) {
        (Some(x), Some(y)) => {
            assert!(rt; dom.by_id(&x).is_some());
            assert!(rt; dom.by_id(&x) == made.as_slice().get(1).copied());
            assert!(rt; dom.by_id(&y).is_none());
        }
        _ => panic!(rt; "refused"),
    }
}
