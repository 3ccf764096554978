//! The names of anchors.
ghost use Rattle.std.specs.Prelude.{◌≡◌, ◌+◌, ◌++◌, None, Some, map, IfOk, OnOk};
ghost use Rattle.ng_drawing.specs.Nodes.{part_nodes, content_nodes, nodes};
ghost use Rattle.ng_drawing.specs.Template.{parts_from};
ghost use Rattle.ng_parts.specs.Seen.{part_of, contents_of};
ghost use Rattle.ng_build.specs.Shape.{part_anchors, content_anchors, anchors};

use ng_base::fault::Memory;
use ng_parts::{Contents, Part};

/// The name after one.
fn after(n: u64, count: u64) -> Result<u64, Memory>
    ensures { IfOk result (λ m. m ≡ n + count) }
{
    match n.checked_add(count) {
        None => Err(Memory::Worn),
        Some(m) => Ok(m),
    }
}

/// The names of the anchors of a part are added, given the name of its first node. The answer is the name after its nodes.
#[cycle(anchored)]
fn add_anchor(names: &mut Vec<u64>, n: u64, part: &Part) -> Result<u64, Memory>
    ensures next { IfOk result (λ m. m ≡ n + part_nodes (part_of part.now)) }
    ensures names { OnOk result (names.new.items ≡ names.old.items ++ part_anchors n (part_of part.now)) }
{
    match part {
        Part::Text(_) => after(n, 1),
        Part::Comment(_) => after(n, 1),
        Part::Element { contents, .. } => add_inside(names, after(n, 1)?, contents),
        Part::Anchor { .. } => {
            names.push(n)?;
            after(n, 1)
        }
    }
}

/// The names of the anchors in an element are added.
#[cycle(anchored)]
fn add_inside(names: &mut Vec<u64>, n: u64, contents: &Contents) -> Result<u64, Memory>
    ensures next { IfOk result (λ m. m ≡ n + content_nodes (contents_of contents.now)) }
    ensures names { OnOk result (names.new.items ≡ names.old.items ++ content_anchors n (contents_of contents.now)) }
{
    match contents {
        Contents::Children(parts) => add_anchors(names, n, parts.as_slice()),
        Contents::Bound(_) => after(n, 1),
    }
}

/// The names of the anchors of parts are added, in the order of their outlets.
#[cycle(anchored)]
pub fn add_anchors(names: &mut Vec<u64>, n: u64, parts: &[Part]) -> Result<u64, Memory>
    ensures next { IfOk result (λ m. m ≡ n + nodes (parts_from (map part_of parts.now))) }
    ensures names { OnOk result (names.new.items ≡ names.old.items ++ anchors n (parts_from (map part_of parts.now))) }
{
    let mut next = n;
    for part in parts {
        next = add_anchor(names, next, part)?;
    }
    Ok(next)
}
