//! Looks for an element by its id, from the front.
ghost use Rattle.std.specs.Prelude.{◌≡◌, map, if◌then◌else◌, Some};
ghost use Rattle.ng_dom.specs.Asked.{has_id, first_with_id, group_with_id};
ghost use Rattle.ng_dom.specs.Walks.{read, read_all, read_groups, read_shape};
ghost use Rattle.ng_dom.specs.Kept.{rooms_of, shape_kept};

use crate::record::Content;
use crate::records::Records;
use ng_base::txt::Txt;
use std::collections::BTreeMap;

/// Whether an attribute `id` of this value is among them.
fn has_id(attributes: &BTreeMap<Txt, Txt>, id: &Txt) -> bool
    ensures { result ≡ has_id id.now attributes.now.entries }
{
    for (name, value) in attributes {
        if name.is_word("id") && value.same(id) {
            return true;
        }
    }
    false
}

/// The first element with an id below a name, so many levels deep.
#[tactic(auto, using(crate::proofs::WithId::find_steps))]
#[cycle(found)]
fn find_node(nodes: &Records, deep: u64, n: u64, id: &Txt) -> Option<u64>
    ensures { result ≡ first_with_id id.now (read deep (rooms_of nodes.now) n) }
{
    if deep == 0 {
        return None;
    }
    match nodes.get(n) {
        None => None,
        Some(node) => find_content(nodes, deep - 1, n, &node.content, id),
    }
}

#[tactic(auto, using(crate::proofs::WithId::find_steps))]
#[cycle(found)]
fn find_content(nodes: &Records, deep: u64, n: u64, content: &Content, id: &Txt) -> Option<u64>
    ensures { result ≡ first_with_id id.now (read_shape (read deep (rooms_of nodes.now)) n (shape_kept content.now)) }
{
    match content {
        Content::Text(_) => None,
        Content::Comment(_) => None,
        Content::Element {
            attributes,
            kids,
            ..
        } => {
            if has_id(attributes, id) {
                Some(n)
            } else {
                find_all(nodes, deep, kids.as_slice(), id)
            }
        }
        Content::Anchor(groups) => find_groups(nodes, deep, groups.as_slice(), id),
    }
}

/// The first element with an id below some names.
#[tactic(auto, using(crate::proofs::WithId::find_steps))]
#[cycle(found)]
pub fn find_all(nodes: &Records, deep: u64, names: &[u64], id: &Txt) -> Option<u64>
    ensures { result ≡ first_with_id id.now (read_all (read deep (rooms_of nodes.now)) names.now) }
{
    for n in names {
        if let Some(found) = find_node(nodes, deep, *n, id) {
            return Some(found);
        }
    }
    None
}

#[tactic(auto, using(crate::proofs::WithId::find_steps))]
#[cycle(found)]
fn find_groups(nodes: &Records, deep: u64, groups: &[Vec<u64>], id: &Txt) -> Option<u64>
    ensures { result ≡ group_with_id id.now (read_groups (read deep (rooms_of nodes.now)) (map (λ g. g.items) groups.now)) }
{
    for group in groups {
        if let Some(found) = find_all(nodes, deep, group.as_slice(), id) {
            return Some(found);
        }
    }
    None
}
