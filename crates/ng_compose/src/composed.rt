//! What composing has come to: sites and outlets under new numbers, each with its scopes, and how many nodes may still be written.
ghost use Rattle.std.specs.Prelude.{◌≡◌, ◌==◌, ◌++◌, ◌∷◌, ◌||◌, [], true, is_some, length, map, option_map, slice_get, IfOk, OnOk};
ghost use Rattle.std.specs.List.{flat_map, list_any};
ghost use Rattle.ng_drawing.specs.Template.{Binding as TemplateBinding};
ghost use Rattle.ng_parts.specs.ActsOf.{source_of, binding_of};
ghost use Rattle.ng_compose.specs.ComposedOf.{region_of, composed_of};
ghost use Rattle.ng_drawing.specs.Moved.{found_in};
ghost use Rattle.ng_drawing.specs.Composing.{padded, written, with_site, site_on, sites_on, on, with_outlet, outlet_in, has_site, scope_if, nothing_composed, fragment_by};
ghost use Rattle.ng_parts.specs.FragmentOf.{mark_of, outlet_of, fragment_of};
ghost use Rattle.ng_drawing.specs.Numbering.{hole_numbers, source_numbers};
ghost use Rattle.ng_parts.specs.PieceOf.{piece_of};
ghost use Rattle.ng_parts.specs.Seen.{parts_of};
ghost use Rattle.ng_parts.specs.SiteOf.{site_of};

use crate::regions::{Region, copied_outsides};
use ng_base::fault::Memory;
use ng_copies::moving::{found, number};
use ng_parts::acts::{Binding, Source};
use ng_parts::fragment::{Fragment, OutletScope, SiteScopes};
use ng_parts::outlets::Outlet;
use ng_parts::parts::Parts;
use ng_parts::pieces::{Piece, Pieces};
use ng_parts::site::{SITE_LIMIT, Site};
use std::alloc::{AllocError, Global};
use std::mem::swap;

/// One node more than a page may have: a fragment with so many finds no room.
const NODE_LIMIT: u32 = 200_001;

/// What is composed so far: sites with their scopes, outlets with theirs, how many scopes there are, how many nodes may still be written, and whether
/// that has ended; and the numbers that the sites of the region got, by their numbers there. Those in what was passed over got none.
#[derive(Drop)]
pub(crate) struct Composed {
    pub(crate) sites: Vec<Site>,
    pub(crate) marks: Vec<SiteScopes>,
    pub(crate) outlets: Vec<Outlet>,
    pub(crate) spots: Vec<OutletScope>,
    pub(crate) scopes: u32,
    pub(crate) nodes: u32,
    pub(crate) ended: bool,
    pub(crate) moved: Vec<Option<u32>>,
}

/// The sites up to one, of which those that were passed over got no number.
fn pad(moved: &mut Vec<Option<u32>>, n: usize) -> Result<(), AllocError>
    ensures { OnOk result (moved.new.items ≡ padded n moved.old.items) }
{
    let mut done = moved.len();
    while done < n {
        moved.push(None)?;
        done += 1;
    }
    Ok(())
}

/// The number of a hole, after others.
fn add_hole(numbers: &mut Vec<u32>, piece: &Piece) -> Result<(), AllocError>
    ensures { OnOk result (numbers.new.items ≡ numbers.old.items ++ hole_numbers (piece_of piece.now ∷ [])) }
{
    match piece {
        Piece::Word(_) => Ok(()),
        Piece::Hole(n) => {
            numbers.push(*n)?;
            Ok(())
        }
    }
}

/// The numbers of the holes of a text, after others.
pub(crate) fn add_holes(numbers: &mut Vec<u32>, pieces: &Pieces) -> Result<(), AllocError>
    ensures { OnOk result (numbers.new.items ≡ numbers.old.items ++ hole_numbers pieces.now) }
{
    for piece in pieces.as_slice() {
        add_hole(numbers, piece)?;
    }
    Ok(())
}

/// The numbers of a binding's sites, after others.
fn add_source(numbers: &mut Vec<u32>, source: &Source) -> Result<(), AllocError>
    ensures { OnOk result (numbers.new.items ≡ numbers.old.items ++ source_numbers (source_of source.now)) }
{
    match source {
        Source::Text(pieces) => add_holes(numbers, pieces),
        Source::Nothing => Ok(()),
        Source::OneWay(n) => {
            numbers.push(*n)?;
            Ok(())
        }
        Source::TwoWay(n, _) => {
            numbers.push(*n)?;
            Ok(())
        }
        Source::Call(_) => Ok(()),
    }
}

/// The numbers of the sites of bindings.
pub(crate) fn bound_numbers(alloc: Global, bindings: &[Binding]) -> Result<Vec<u32>, AllocError>
    ensures { IfOk result (λ v. v.items ≡ flat_map (λ (b : TemplateBinding). source_numbers b.source) (map binding_of bindings.now)) }
{
    let mut numbers = Vec::new(alloc);
    for binding in bindings {
        add_source(&mut numbers, &binding.source)?;
    }
    Ok(numbers)
}

/// Both scopes of a site are this.
pub(crate) fn on(scope: u32) -> SiteScopes
    ensures { mark_of result ≡ on scope }
{
    SiteScopes {
        under: scope,
        over: scope,
    }
}

/// Whether a number is among these.
fn is_among(numbers: &[u32], n: u32) -> bool
    ensures { result ≡ list_any (λ k. k == n) numbers.now }
{
    for k in numbers {
        if *k == n {
            return true;
        }
    }
    false
}

/// The site of a number.
fn site_at(source: &Fragment, n: u32) -> Option<&Site>
    ensures { option_map (λ s. site_of s.now) result ≡ slice_get (fragment_of source.now).sites n }
{
    source.sites.get(n as usize)
}

/// The outlet of a number.
fn outlet_at(source: &Fragment, n: u32) -> Option<&Outlet>
    ensures { option_map (λ o. outlet_of o.now) result ≡ slice_get (fragment_of source.now).outlets n }
{
    source.outlets.get(n as usize)
}

/// Whether a site is one of these, or got a number before.
fn is_there(own: &[u32], moved: &[Option<u32>], n: u32) -> bool
    ensures { result ≡ list_any (λ k. k == n) own.now || is_some (found_in moved.now n) }
{
    is_among(own, n) || found(moved, n).is_some()
}

/// Whether the site of an outlet is the anchor's own, or got a number before.
pub(crate) fn has_site(source: &Fragment, moved: &[Option<u32>], outlet: u32, own: &[u32]) -> bool
    ensures { result ≡ has_site own.now moved.now (slice_get (fragment_of source.now).outlets outlet) }
{
    match outlet_at(source, outlet) {
        None => false,
        Some(outlet) => is_there(own, moved, outlet.site),
    }
}

impl Composed {
    /// Nothing yet, with so many nodes that may be written.
    pub(crate) fn new(alloc: Global) -> Composed
        ensures { composed_of result ≡ nothing_composed }
    {
        Composed {
            sites: Vec::new(alloc),
            marks: Vec::new(alloc),
            outlets: Vec::new(alloc),
            spots: Vec::new(alloc),
            scopes: 1,
            nodes: NODE_LIMIT,
            ended: false,
            moved: Vec::new(alloc),
        }
    }

    /// The numbers that the sites of the region got. Another region begins without any.
    pub(crate) fn take_moved(&mut self, alloc: Global) -> Vec<Option<u32>>
        ensures moved { result.items ≡ (composed_of self.old).moved }
        ensures rest { composed_of self.new ≡ record (composed_of self.old) { moved = [] } }
    {
        let mut moved = Vec::new(alloc);
        swap(&mut self.moved, &mut moved);
        moved
    }

    /// The numbers of a region again.
    pub(crate) fn put_moved(&mut self, moved: Vec<Option<u32>>)
        ensures { composed_of self.new ≡ record (composed_of self.old) { moved = moved.items } }
    {
        self.moved = moved;
    }

    /// The fragment of these parts.
    pub(crate) fn fragment(self, parts: Parts) -> Fragment
        ensures { fragment_of result ≡ fragment_by (parts_of parts, composed_of self) }
    {
        let Composed {
            sites,
            marks,
            outlets,
            spots,
            ..
        } = self;
        Fragment {
            parts,
            sites,
            outlets,
            marks,
            spots,
        }
    }

    /// A site under the next number, on these scopes.
    fn push_site(
        &mut self,
        alloc: Global,
        mark: SiteScopes,
        n: u32,
        site: &Site,
    ) -> Result<(), Memory>
        ensures { OnOk result (composed_of self.new ≡ with_site (mark_of mark) n (site_of site.now) (composed_of self.old)) }
    {
        let count = self.sites.len();
        if count >= SITE_LIMIT {
            return Err(Memory::Worn);
        }
        let copy = site.copied(alloc)?;
        self.sites.push(copy)?;
        self.marks.push(mark)?;
        pad(&mut self.moved, n as usize)?;
        self.moved.push(Some(count as u32))?;
        Ok(())
    }

    /// A site of a region under the next number, on these scopes.
    fn add_site(
        &mut self,
        alloc: Global,
        region: &Region<'_>,
        mark: SiteScopes,
        n: u32,
    ) -> Result<(), Memory>
        ensures { OnOk result (composed_of self.new ≡ (site_on (mark_of mark) n (slice_get (region_of region.now).source.sites n) (composed_of self.old)).1) }
    {
        match site_at(region.source, n) {
            None => {
                self.ended = true;
                Ok(())
            }
            Some(site) => self.push_site(alloc, mark, n, site),
        }
    }

    /// Sites of a region.
    pub(crate) fn add_sites(
        &mut self,
        alloc: Global,
        region: &Region<'_>,
        mark: SiteScopes,
        numbers: &[u32],
    ) -> Result<(), Memory>
        ensures { OnOk result (composed_of self.new ≡ (sites_on (region_of region.now) (mark_of mark) numbers.now (composed_of self.old)).1) }
    {
        for n in numbers {
            self.add_site(alloc, region, mark, *n)?;
        }
        Ok(())
    }

    /// An outlet under the next number, which is the answer.
    fn push_outlet(
        &mut self,
        alloc: Global,
        region: &Region<'_>,
        outlet: &Outlet,
    ) -> Result<u32, Memory>
        ensures number { IfOk result (λ n. n ≡ length (composed_of self.old).outlets) }
        ensures outlet { OnOk result (composed_of self.new ≡ with_outlet (region_of region.now) (outlet_of outlet.now) (composed_of self.old)) }
    {
        let count = self.outlets.len();
        if count >= SITE_LIMIT {
            return Err(Memory::Worn);
        }
        let site = number(self.moved.as_slice(), outlet.site);
        let filling = outlet.filling.copied(alloc)?;
        let home = region.home.copied(alloc)?;
        let outsides = copied_outsides(alloc, region.outsides.as_slice())?;
        self.outlets.push(Outlet { site, filling })?;
        self.spots.push(OutletScope {
            home,
            scope: region.scope,
            outsides,
        })?;
        Ok(count as u32)
    }

    /// An outlet of a region under the next number, which is the answer.
    pub(crate) fn add_outlet(
        &mut self,
        alloc: Global,
        region: &Region<'_>,
        o: u32,
    ) -> Result<u32, Memory>
        ensures { IfOk result (λ n. (n, composed_of self.new) ≡ outlet_in (region_of region.now) (slice_get (region_of region.now).source.outlets o) (composed_of self.old)) }
    {
        match outlet_at(region.source, o) {
            None => {
                self.ended = true;
                Ok(0)
            }
            Some(outlet) => self.push_outlet(alloc, region, outlet),
        }
    }

    /// Whether one node more may be written; else all ends.
    pub(crate) fn write_node(&mut self) -> bool
        ensures { (result, composed_of self.new) ≡ written (composed_of self.old) }
    {
        if self.nodes == 0 {
            self.ended = true;
            false
        } else {
            self.nodes -= 1;
            true
        }
    }

    /// A scope more, by its number.
    pub(crate) fn add_scope(&mut self) -> Result<u32, Memory>
        ensures { IfOk result (λ n. (n, composed_of self.new) ≡ scope_if true 0 (composed_of self.old)) }
    {
        let n = self.scopes;
        match n.checked_add(1) {
            None => Err(Memory::Worn),
            Some(next) => {
                self.scopes = next;
                Ok(n)
            }
        }
    }

    /// A scope more, where it is asked for, by its number; or else another.
    pub(crate) fn scope_if(&mut self, asked: bool, other: u32) -> Result<u32, Memory>
        ensures { IfOk result (λ n. (n, composed_of self.new) ≡ scope_if asked other (composed_of self.old)) }
    {
        if asked { self.add_scope() } else { Ok(other) }
    }
}
