//! The walk over the parts of a template.
ghost use Rattle.std.specs.Prelude.{List, ◌≡◌, Some, IfOk, option_map};
ghost use Rattle.ng_base.specs.Faults.{is_memory};
ghost use Rattle.ng_base.specs.Meets.{Gives};
ghost use Rattle.ng_drawing.specs.Drawing.{needed, render_part, render_contents, render};
ghost use Rattle.ng_drawing.specs.Template.{text_part, anchor_part, bound};
ghost use Rattle.ng_language.specs.Trees.{Trees};
ghost use Rattle.ng_markup.specs.Forest.{node as one_node, no_nodes};
ghost use Rattle.ng_html.specs.Seen.{node_of, forest_of};
ghost use Rattle.ng_parts.specs.Seen.{part_of, contents_of, parts_of};
ghost use Rattle.ng_render.specs.OverOf.{AreKnown, kept_over, now_over, groups_over, Stands};

use crate::groups::{append, group_in};
use crate::over::{Known, Over};
use crate::sites::shown_now;
use crate::texts::{attributes_text, hole_text, pieces_text};
use ng_base::fault::Fault;
use ng_base::txt::Txt;
use ng_html::forest::{Forest, Node, comment_node, element_node, text_node};
use ng_parts::{Contents, Part, Parts, Pieces};
use std::alloc::{AllocError, Global};

/// What an element's own sites show now, asked in their order.
fn asked(over: &Over<'_>, own: &[u32]) -> Result<Vec<Known>, Fault>
    requires { Stands over.now }
    ensures gives { Gives is_memory (λ _. Some tt) (needed (now_over over.now) own.now) result }
    ensures known { IfOk result (λ known. AreKnown (kept_over over.now) known.items) }
{
    let mut known = Vec::new(over.alloc);
    for n in own {
        let shown = shown_now(over, *n)?;
        known.push(Known { number: *n, shown })?;
    }
    Ok(known)
}

/// One node alone.
fn lone(alloc: Global, node: Node) -> Result<Forest, AllocError>
    ensures { IfOk result (λ f. forest_of f ≡ one_node (node_of node) no_nodes) }
{
    let mut forest = Forest::new(alloc);
    forest.push(node)?;
    Ok(forest)
}

/// The text that a site shows, as the contents of an element.
fn bound_text(over: &Over<'_>, n: u32) -> Result<Option<Forest>, Fault>
    requires { Stands over.now }
    ensures { Gives is_memory (option_map forest_of) (render_contents (now_over over.now) (groups_over over.now) (bound n)) result }
{
    let text = hole_text(over, n)?;
    Ok(Some(lone(over.alloc, text_node(text))?))
}

/// A text.
fn text_now(over: &Over<'_>, pieces: &Pieces) -> Result<Option<Forest>, Fault>
    requires { Stands over.now }
    ensures { Gives is_memory (option_map forest_of) (render_part (now_over over.now) (groups_over over.now) (text_part pieces.now)) result }
{
    let text = pieces_text(over, pieces)?;
    Ok(Some(lone(over.alloc, text_node(text))?))
}

/// An anchor, and what fills its outlet.
fn anchor_now(over: &Over<'_>, outlet: u32, own: &[u32]) -> Result<Option<Forest>, Fault>
    requires { Stands over.now }
    ensures { (starts : List Trees) → Gives is_memory (option_map forest_of) (render_part (now_over over.now) (groups_over over.now) (anchor_part outlet own.now starts)) result }
{
    let _ = asked(over, own)?;
    let Some(group) = group_in(over, outlet)? else {
        return Ok(None);
    };
    let mut forest = lone(over.alloc, comment_node(Txt::new(over.alloc)))?;
    append(&mut forest, group)?;
    Ok(Some(forest))
}

/// The nodes of a part.
#[cycle(rendered)]
fn rendered_part(over: &Over<'_>, part: &Part) -> Result<Option<Forest>, Fault>
    requires { Stands over.now }
    ensures { Gives is_memory (option_map forest_of) (render_part (now_over over.now) (groups_over over.now) (part_of part.now)) result }
{
    match part {
        Part::Text(pieces) => text_now(over, pieces),
        Part::Comment(text) => Ok(Some(lone(over.alloc, comment_node(text.copied()?))?)),
        Part::Element {
            name,
            own,
            attributes: values,
            contents,
            ..
        } => {
            let known = asked(over, own.as_slice())?;
            let over = Over {
                known: known.as_slice(),
                ..*over
            };
            let attrs = attributes_text(&over, values)?;
            let Some(kids) = rendered_contents(&over, contents)? else {
                return Ok(None);
            };
            Ok(Some(lone(over.alloc, element_node(name.copied()?, attrs, kids))?))
        }
        Part::Anchor { outlet, own, .. } => anchor_now(over, *outlet, own.as_slice()),
    }
}

/// The contents of an element.
#[cycle(rendered)]
fn rendered_contents(over: &Over<'_>, contents: &Contents) -> Result<Option<Forest>, Fault>
    requires { Stands over.now }
    ensures { Gives is_memory (option_map forest_of) (render_contents (now_over over.now) (groups_over over.now) (contents_of contents.now)) result }
{
    match contents {
        Contents::Children(parts) => rendered(over, parts),
        Contents::Bound(n) => bound_text(over, *n),
    }
}

/// The document of parts.
#[cycle(rendered)]
pub(crate) fn rendered(over: &Over<'_>, parts: &Parts) -> Result<Option<Forest>, Fault>
    requires { Stands over.now }
    ensures { Gives is_memory (option_map forest_of) (render (now_over over.now) (groups_over over.now) (parts_of parts.now)) result }
{
    let mut forest = Forest::new(over.alloc);
    for part in parts.as_slice() {
        let Some(more) = rendered_part(over, part)? else {
            return Ok(None);
        };
        append(&mut forest, more)?;
    }
    Ok(Some(forest))
}
