//! The fragments of a template.
ghost use Rattle.std.specs.Prelude.{◌≡◌, ◌==◌, not, [], length, map, option_map, slice_get, slice_index_or};
ghost use Rattle.ng_parts.specs.FragmentOf.{outlet_of, mark_of, own_mark, spot_of, fragment_of};
ghost use Rattle.ng_parts.specs.Seen.{parts_of};
ghost use Rattle.ng_parts.specs.SiteOf.{site_of};

use crate::acts::Outside;
use crate::outlets::Outlet;
use crate::parts::Parts;
use crate::site::Site;
use ng_drawing::origin::Home;
use std::alloc::Global;

/// The scopes of a site by their numbers in its instance: the one that its key stands on, and the one that its expression is evaluated on.
#[derive(Clone, Copy, Debug, PartialEq, Eq, Drop)]
pub struct SiteScopes {
    pub under: u32,
    pub over: u32,
}

/// Of an outlet: where its bodies come from, the scope round them, and the scopes outside the directives whose children may be in them.
#[derive(Drop)]
pub struct OutletScope {
    pub home: Home,
    pub scope: u32,
    pub outsides: Vec<Outside>,
}

/// A part of a template that is linked as a whole: its parts, its sites and its outlets, which have their numbers in document order. Where
/// directives of the application have scopes of their own in it, it is said for each site and each outlet which.
#[derive(Drop)]
pub struct Fragment {
    pub parts: Parts,
    pub sites: Vec<Site>,
    pub outlets: Vec<Outlet>,
    pub marks: Vec<SiteScopes>,
    pub spots: Vec<OutletScope>,
}

impl Fragment {
    /// A fragment on one scope alone.
    pub fn alone(alloc: Global, parts: Parts, sites: Vec<Site>, outlets: Vec<Outlet>) -> Fragment
        ensures { fragment_of result ≡ record { parts = parts_of parts; sites = map site_of sites.items; outlets = map outlet_of outlets.items; marks = []; spots = [] } }
    {
        Fragment {
            parts,
            sites,
            outlets,
            marks: Vec::new(alloc),
            spots: Vec::new(alloc),
        }
    }

    /// The parts.
    pub fn parts(&self) -> &Parts
        ensures { parts_of result.now ≡ (fragment_of self.now).parts }
    {
        &self.parts
    }

    /// The sites in document order.
    pub fn sites(&self) -> &[Site]
        ensures { map site_of result.now ≡ (fragment_of self.now).sites }
    {
        self.sites.as_slice()
    }

    /// The outlets in document order.
    pub fn outlets(&self) -> &[Outlet]
        ensures { map outlet_of result.now ≡ (fragment_of self.now).outlets }
    {
        self.outlets.as_slice()
    }

    /// Whether it is said of each site on which scopes it stands.
    pub fn is_composed(&self) -> bool
        ensures { result ≡ not (length (fragment_of self.now).marks == 0) }
    {
        !self.marks.is_empty()
    }

    /// The scopes of a site: all on the instance's own scope, where nothing else is said.
    pub fn mark(&self, site: usize) -> SiteScopes
        ensures { mark_of result ≡ slice_index_or (fragment_of self.now).marks site own_mark }
    {
        match self.marks.get(site) {
            Some(mark) => *mark,
            None => SiteScopes { under: 0, over: 0 },
        }
    }

    /// Where the bodies of outlets come from, and the scopes round them, where it is said.
    pub fn spots(&self) -> &[OutletScope]
        ensures { map spot_of result.now ≡ (fragment_of self.now).spots }
    {
        self.spots.as_slice()
    }

    /// Where the bodies of an outlet come from, and the scopes round them, where it is said.
    pub fn spot(&self, outlet: usize) -> Option<&OutletScope>
        ensures { option_map (λ s. spot_of s.now) result ≡ slice_get (fragment_of self.now).spots outlet }
    {
        self.spots.get(outlet)
    }
}
