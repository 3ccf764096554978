//! The directives of an element (guide: HTML Compiler, "How directives are compiled").
ghost use Rattle.std.specs.Prelude.{None};
ghost use Rattle.ng_base.specs.Meets.{Meets};
ghost use Rattle.ng_html.specs.Seen.{node_of};
ghost use Rattle.ng_collect.specs.Collected.{picked as picked_of, picked_for, collected};
ghost use Rattle.ng_collect.specs.Free.{is_free};

use crate::definition::DirectiveDef;
use crate::fault::CollectFault;
use crate::pick::{Pick, Picked};
use crate::picking::all_picks;
use crate::refusing::{clash, crowd_blocks, is_left_out};
use crate::registry::Registry;
use crate::sorting::{down_to_terminal, sort};
use crate::spots::spots;
use ng_base::txt::Txt;
use ng_html::attrs::Attrs;
use ng_html::forest::Node;
use std::alloc::Global;

/// What is picked of all that fit.
#[tactic(auto, unfolding(crate::specs::Collected::picked))]
fn picked(defs: &[DirectiveDef], mut picks: Vec<Pick>) -> Result<Picked, CollectFault>
    ensures { Meets is_free (picked_of defs.now picks.items) result }
{
    if crowd_blocks(picks.as_slice()) {
        return Err(CollectFault::MultiDir);
    }
    sort(&mut picks)?;
    let items = down_to_terminal(defs, picks);
    if clash(defs, items.as_slice()) {
        return Err(CollectFault::MultiDir);
    }
    Ok(Picked { items })
}

/// What is picked for an element.
#[tactic(auto, unfolding(crate::specs::Collected::picked_for))]
fn picked_for(
    alloc: Global,
    defs: &[DirectiveDef],
    limit: Option<i64>,
    name: &Txt,
    attrs: &Attrs,
) -> Result<Picked, CollectFault>
    ensures { Meets is_free (picked_for defs.now limit name.now attrs.now) result }
{
    let spots = spots(alloc, name, attrs)?;
    if is_left_out(alloc, name, attrs, spots.as_slice())? {
        return Err(CollectFault::LeftOut);
    }
    let picks = all_picks(alloc, defs, limit, spots.as_slice())?;
    picked(defs, picks)
}

/// What is picked for a node.
fn picked_at(
    alloc: Global,
    e: &Node,
    defs: &[DirectiveDef],
    limit: Option<i64>,
) -> Result<Picked, CollectFault>
    ensures { Meets is_free (collected defs.now limit (node_of e.now)) result }
{
    match e {
        Node::Element {
            name,
            attrs,
            kids: _,
        } => picked_for(alloc, defs, limit, name, attrs),
        Node::Text(_) => Ok(Picked {
            items: Vec::new(alloc),
        }),
        Node::Comment(_) => Ok(Picked {
            items: Vec::new(alloc),
        }),
    }
}

/// The directives of an element, sorted by priority, name and registration, down to the priority of the first terminal one.
/// An element with a name of the core that is left out is LeftOut; one whose directives cannot stand together is MultiDir.
pub fn collect(alloc: Global, e: &Node, r: &Registry) -> Result<Picked, CollectFault>
    ensures { Meets is_free (collected r.now None (node_of e.now)) result }
{
    picked_at(alloc, e, r.definitions(), None)
}

/// The same of the directives whose priority is below a limit: those that a block of that priority leaves to its body.
pub fn collect_below(
    alloc: Global,
    e: &Node,
    r: &Registry,
    limit: Option<i64>,
) -> Result<Picked, CollectFault>
    ensures { Meets is_free (collected r.now limit (node_of e.now)) result }
{
    picked_at(alloc, e, r.definitions(), limit)
}
