//! What a rendering is computed over.
ghost use Rattle.std.specs.Prelude.{◌≡◌, option_map};
ghost use Rattle.std.specs.Option.{IfSome};
ghost use Rattle.ng_drawing.specs.Drawing.{shown_as};
ghost use Rattle.ng_drawing.specs.Instance.{KeptNow};
ghost use Rattle.ng_render.specs.OverOf.{AreKnown};
ghost use Rattle.ng_value.specs.Snaps.{snap_of};

use ng_base::fault::Fault;
use ng_drawing::instance::SiteState;
use ng_html::forest::Forest;
use ng_parts::Site;
use ng_scopes::scopes::Scopes;
use ng_store::store::Store;
use ng_value::snapshot::Snap;
use std::alloc::Global;

/// What the site of a number has now, once it was asked.
#[derive(Drop)]
pub(crate) struct Known {
    pub(crate) number: u32,
    pub(crate) shown: Option<Snap>,
}

/// What fills an outlet: the nodes of its bodies; nothing, where these are not what its site calls for; or the first fault of them.
#[derive(Drop)]
pub(crate) enum Group {
    Shown(Forest),
    Unfit,
    Faulted(Fault),
}

/// The sites of a fragment with what an instance adds to them, the data and scopes, what is known of an element's own sites, and what
/// fills each outlet.
#[derive(Clone, Copy)]
pub(crate) struct Over<'a> {
    pub(crate) alloc: Global,
    pub(crate) sites: &'a [Site],
    pub(crate) states: &'a [SiteState],
    pub(crate) store: &'a Store,
    pub(crate) scopes: &'a Scopes,
    pub(crate) known: &'a [Known],
    pub(crate) groups: &'a [Group],
}

/// What is known of the site of a number. An element's own sites have consecutive numbers, so it is looked for at one place.
pub(crate) fn known_at<'a>(known: &'a [Known], n: u32) -> Option<&'a Known>
    ensures { (now : KeptNow) → AreKnown now known.now → IfSome result (λ one. now n ≡ shown_as (option_map snap_of one.now.shown)) }
{
    let first = known.first()?;
    if n < first.number {
        return None;
    }
    let one = known.get((n - first.number) as usize)?;
    if one.number != n {
        return None;
    }
    Some(one)
}
