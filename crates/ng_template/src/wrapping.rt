//! An element in its blocks: bodies are fragments, and anchors stand in place of blocks (guide: HTML Compiler; API: ngIf, ngSwitch, ngInclude).
ghost use Rattle.std.specs.Prelude.{List, ◌≡◌, ◌+◌, ◌≤◌, [], true, length, IfOk, OnOk};
ghost use Rattle.ng_base.specs.Meets.{Gives};
ghost use Rattle.ng_drawing.specs.Template.{Fragment as TemplateFragment, no_parts, part_then, anchor_part};
ghost use Rattle.ng_template.specs.AroundOf.{block_of, blocks_of, programs_of, case_of, outermost_of, numbers_of};
ghost use Rattle.ng_template.specs.Compiles.{site_in, filling_in, starts_in, block_alone as block_alone_of, nested, has_room as has_room_for, bodies_with, with_block as with_block_of, with_case as with_case_of, wrapped};
ghost use Rattle.ng_directives.specs.Free.{is_tpl_want};
ghost use Rattle.ng_directives.specs.Limits.{site_limit};
ghost use Rattle.ng_parts.specs.Seen.{part_of, parts_of};
ghost use Rattle.ng_parts.specs.SiteOf.{site_of};
ghost use Rattle.ng_parts.specs.FragmentOf.{sites_of, filling_of, outlets_of, fragment_of, fragments_of};
ghost use Rattle.ng_elements.specs.HeadOf.{made_of};

use crate::around::{Block, Case};
use ng_directives::fault::TplFault;
use ng_directives::texts::worn;
use ng_parse::Program;
use ng_parts::fragment::Fragment;
use ng_parts::outlets::{Filling, Outlet};
use ng_parts::parts::{Part, Parts, anchor};
use ng_parts::site::{SITE_LIMIT, Site};
use ng_parts::tpl::Making;
use std::alloc::{AllocError, Global};

/// One part alone.
fn lone(alloc: Global, part: Part) -> Result<Parts, AllocError>
    ensures { IfOk result (λ ps. parts_of ps ≡ part_then (part_of part) no_parts) }
{
    let mut parts = Parts::new(alloc);
    parts.push(part)?;
    Ok(parts)
}

/// An anchor with its outlet, the number of its site, if it has one, and the programs that run there.
fn anchor_with(
    alloc: Global,
    outlet: u32,
    site: Option<u32>,
    starts: Vec<Program>,
) -> Result<Part, AllocError>
    ensures { IfOk result (λ p. part_of p ≡ anchor_part outlet (numbers_of site) (programs_of starts.items)) }
{
    let mut own = Vec::new(alloc);
    if let Some(site) = site {
        own.push(site)?;
    }
    Ok(anchor(outlet, own, starts))
}

/// The site of a block, how the body of a number fills its outlet, and the programs that run at its anchor.
fn split_block(alloc: Global, block: Block, body: u32) -> (Site, Filling, Vec<Program>)
    ensures site { site_of result.0 ≡ site_in (block_of block) }
    ensures filling { filling_of result.1 ≡ filling_in (block_of block) body }
    ensures starts { programs_of result.2.items ≡ starts_in (block_of block) }
{
    match block {
        Block::If(site) => (site, Filling::BodyIf(body), Vec::new(alloc)),
        Block::For(site, repeated) => (site, Filling::ForEach(repeated, body), Vec::new(alloc)),
        Block::Named(site, starts) => (site, Filling::ByName(body), starts),
    }
}

/// A block alone, whose body is the one of this number.
fn block_alone(alloc: Global, block: Block, body: u32) -> Result<Fragment, AllocError>
    ensures { IfOk result (λ f. (bodies : List TemplateFragment) → body ≡ length bodies → fragment_of f ≡ block_alone_of (block_of block) bodies) }
{
    let (head, filling, starts) = split_block(alloc, block, body);
    let parts = lone(alloc, anchor_with(alloc, 0, Some(0), starts)?)?;
    let mut sites = Vec::new(alloc);
    sites.push(head)?;
    let mut outlets = Vec::new(alloc);
    outlets.push(Outlet { site: 0, filling })?;
    Ok(Fragment::alone(alloc, parts, sites, outlets))
}

/// The bodies of blocks that stand in one another are added, the innermost first.
fn nest(alloc: Global, heads: Vec<Block>, bodies: &mut Vec<Fragment>) -> Result<(), AllocError>
    requires { length bodies.old.items + length heads.items ≤ site_limit }
    ensures { OnOk result (fragments_of bodies.new.items ≡ nested (blocks_of heads.items) (fragments_of bodies.old.items)) }
{
    let mut left = heads;
    while let Some(head) = left.pop() {
        let body = block_alone(alloc, head, bodies.len() as u32)?;
        bodies.push(body)?;
    }
    Ok(())
}

/// Whether there are numbers left for a site, an outlet and the body that is made last.
fn has_room(sites: &[Site], outlets: &[Outlet], bodies: usize) -> bool
    ensures { (all : List TemplateFragment) → length all ≡ bodies → result ≡ has_room_for (sites_of sites.now) (outlets_of outlets.now) all }
{
    sites.len() < SITE_LIMIT && outlets.len() <= SITE_LIMIT && bodies <= SITE_LIMIT
}

/// The bodies where an element came to a part by itself, with those of the blocks round it but for the outermost.
fn with_bodies<'a>(
    alloc: Global,
    heads: Vec<Block>,
    part: Part,
    made: Making<'a>,
) -> Result<(&'a [u64], Vec<Fragment>), AllocError>
    requires { length made.bodies.items + 1 + length heads.items ≤ site_limit }
    ensures { IfOk result (λ r. (r.0.now ≡ (made_of made.entry).places) × (fragments_of r.1.items ≡ bodies_with (blocks_of heads.items) (part_of part, made_of made.entry))) }
{
    let Making {
        places,
        sites,
        outlets,
        mut bodies,
    } = made;
    let parts = lone(alloc, part)?;
    bodies.push(Fragment::alone(alloc, parts, sites, outlets))?;
    nest(alloc, heads, &mut bodies)?;
    Ok((places, bodies))
}

/// The outermost block in place of its element, after these sites and outlets.
fn with_block<'a>(
    alloc: Global,
    block: Block,
    sites: Vec<Site>,
    outlets: Vec<Outlet>,
    places: &'a [u64],
    bodies: Vec<Fragment>,
) -> Result<(Part, Making<'a>), AllocError>
    requires { has_room_for (sites_of sites.items) (outlets_of outlets.items) (fragments_of bodies.items) ≡ true }
    ensures { IfOk result (λ q. (part_of q.0, made_of q.1) ≡ with_block_of (block_of block) (sites_of sites.items) (outlets_of outlets.items) places.now (fragments_of bodies.items)) }
{
    let mut sites = sites;
    let mut outlets = outlets;
    let site = sites.len() as u32;
    let (head, filling, starts) = split_block(alloc, block, bodies.len() as u32);
    let place = anchor_with(alloc, outlets.len() as u32, Some(site), starts)?;
    outlets.push(Outlet { site, filling })?;
    sites.push(head)?;
    Ok((
        place,
        Making {
            places,
            sites,
            outlets,
            bodies,
        },
    ))
}

/// A case in place of its element, after these sites and outlets.
fn with_case<'a>(
    alloc: Global,
    switch: u32,
    case: Case,
    sites: Vec<Site>,
    outlets: Vec<Outlet>,
    places: &'a [u64],
    bodies: Vec<Fragment>,
) -> Result<(Part, Making<'a>), AllocError>
    requires { has_room_for (sites_of sites.items) (outlets_of outlets.items) (fragments_of bodies.items) ≡ true }
    ensures { IfOk result (λ q. (part_of q.0, made_of q.1) ≡ with_case_of switch (case_of case) (sites_of sites.items) (outlets_of outlets.items) places.now (fragments_of bodies.items)) }
{
    let mut outlets = outlets;
    let place = anchor_with(alloc, outlets.len() as u32, None, Vec::new(alloc))?;
    outlets.push(Outlet {
        site: switch,
        filling: Filling::OnCase(case.text, bodies.len() as u32),
    })?;
    Ok((
        place,
        Making {
            places,
            sites,
            outlets,
            bodies,
        },
    ))
}

/// What is outermost round an element: a case of the switch of this site, or a block.
#[derive(Drop)]
pub(crate) enum Outermost {
    Case(u32, Case),
    Block(Block),
}

/// An element in what is outermost round it and in its blocks, of which the first is the next, after the sites and outlets that stand
/// before it.
pub(crate) fn wrap<'a>(
    alloc: Global,
    outermost: Outermost,
    heads: Vec<Block>,
    sites: Vec<Site>,
    outlets: Vec<Outlet>,
    part: Part,
    made: Making<'a>,
) -> Result<(Part, Making<'a>), TplFault>
    ensures { Gives is_tpl_want (λ q. (part_of q.0, made_of q.1)) (wrapped (outermost_of outermost) (blocks_of heads.items) (sites_of sites.items) (outlets_of outlets.items) (part_of part, made_of made.entry)) result }
{
    if !has_room(
        sites.as_slice(),
        outlets.as_slice(),
        made.bodies.len() + 1 + heads.len(),
    ) {
        return Err(worn());
    }
    let (places, bodies) = with_bodies(alloc, heads, part, made)?;
    match outermost {
        Outermost::Block(block) => Ok(with_block(alloc, block, sites, outlets, places, bodies)?),
        Outermost::Case(switch, case) => Ok(with_case(
            alloc, switch, case, sites, outlets, places, bodies,
        )?),
    }
}
