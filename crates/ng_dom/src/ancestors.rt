//! A node and the elements that it stands in.
ghost use Rattle.std.specs.Prelude.{◌≡◌, ◌++◌, ◌∷◌, IfOk, OnOk};
ghost use Rattle.ng_dom.specs.Ancestors.{parent_in, if_element, outer_line};
ghost use Rattle.ng_dom.specs.Kept.{rooms_of};

use crate::edits::is_element;
use crate::records::Records;
use std::alloc::{AllocError, Global};

/// The parent of a name that is live.
fn parent_at(nodes: &Records, n: u64) -> Option<u64>
    ensures { result ≡ parent_in (rooms_of nodes.now) n }
{
    match nodes.get(n) {
        None => None,
        Some(node) => node.parent,
    }
}

/// A name comes to a line where it is an element's.
fn add_element(line: &mut Vec<u64>, nodes: &Records, m: u64) -> Result<(), AllocError>
    ensures { OnOk result (line.new.items ≡ line.old.items ++ if_element (rooms_of nodes.now m) m) }
{
    match nodes.get(m) {
        None => Ok(()),
        Some(node) => {
            if is_element(node) {
                line.push(m)?;
            }
            Ok(())
        }
    }
}

/// A name, and then the elements above it, so many steps up at the most.
pub fn line_up(nodes: &Records, alloc: Global, steps: u64, n: u64) -> Result<Vec<u64>, AllocError>
    ensures { IfOk result (λ l. l.items ≡ n ∷ outer_line steps (rooms_of nodes.now) (parent_in (rooms_of nodes.now) n)) }
{
    let mut line = Vec::new(alloc);
    line.push(n)?;
    let mut next = parent_at(nodes, n);
    for _i in 0..steps {
        match next {
            None => return Ok(line),
            Some(m) => {
                add_element(&mut line, nodes, m)?;
                next = parent_at(nodes, m);
            }
        }
    }
    Ok(line)
}
