//! What a site has now, and which control's model it is.
ghost use Rattle.std.specs.Prelude.{◌≡◌, ◌<◌, ◌||◌, [], length, map, option_map, option_copied, slice_get, Some, IfOk};
ghost use Rattle.ng_base.specs.Faults.{is_memory};
ghost use Rattle.ng_base.specs.Meets.{Gives};
ghost use Rattle.ng_base.specs.ViewOf.{view_of};
ghost use Rattle.ng_drawing.specs.Instance.{is_two_way as is_two_way_of, snapshot_now as snapshot_now_of, site_now as site_now_of, state_control};
ghost use Rattle.ng_drawing.specs.InstanceOf.{state_of};
ghost use Rattle.ng_language.specs.Views.{ViewStands};
ghost use Rattle.ng_parts.specs.SiteOf.{site_of};
ghost use Rattle.ng_value.specs.Snaps.{snap_of};
ghost use Rattle.ng_evaluation.specs.Evaluation.{evaluated_program};
ghost use Rattle.ng_render.specs.OverOf.{kept_over, StateStands, Stands};

use crate::over::{Over, known_at};
use crate::snapshots::snapshot;
use ng_base::fault::{Fault, Memory};
use ng_base::locals::Locals;
use ng_base::name::Oid;
use ng_base::view::View;
use ng_control::Control;
use ng_drawing::instance::SiteState;
use ng_drawing::kind::SiteKind;
use ng_parts::Site;
use ng_store::store::Store;
use ng_value::copies::copied;
use ng_value::snapshot::Snap;
use ng_view::view;
use std::alloc::Global;

/// The control whose model the site of a number is.
pub(crate) fn control_at<'a>(over: &Over<'a>, n: u32) -> Option<&'a Control>
    ensures { option_copied result ≡ state_control (slice_get (map state_of over.now.states.now) n) }
{
    match over.states.get(n as usize) {
        None => None,
        Some(state) => state.control.as_ref(),
    }
}

/// The value of a site's program over a scope's object.
#[tactic(auto, using(ng_purity::proofs::Pure::pure_are, ng_purity::proofs::Pure::known_are))]
fn value_now(alloc: Global, store: &Store, object: Oid, site: &Site) -> Result<View, Fault>
    requires { object.0 < length store.now }
    ensures exact { Gives is_memory view_of (evaluated_program store.now object.0 [] (site_of site.now).program) result }
    ensures stands { IfOk result (λ v. ViewStands (length store.now) (view_of v)) }
{
    let locals = Locals::new(alloc);
    view(alloc, store, object, &locals, site.program())
}

/// What a site would keep now over a scope's object.
#[tactic(auto, unfolding(ng_drawing::specs::Instance::snapshot_now))]
fn snapshot_now(alloc: Global, store: &Store, object: Oid, site: &Site) -> Result<Snap, Fault>
    requires { object.0 < length store.now }
    ensures { Gives is_memory snap_of (snapshot_now_of store.now object.0 (site_of site.now)) result }
{
    let value = value_now(alloc, store, object, site)?;
    snapshot(alloc, site.kind(), store, &value)
}

/// What was kept, copied.
fn kept_copy(alloc: Global, kept: &Option<Snap>) -> Result<Option<Snap>, Memory>
    ensures { IfOk result (λ s. option_map snap_of s ≡ option_map snap_of kept.now) }
{
    match kept {
        None => Ok(None),
        Some(kept) => Ok(Some(Snap::of_view(copied(alloc, kept.view())?))),
    }
}

/// Whether a site is that of a two-way binding, from which nothing is drawn.
fn is_two_way(kind: SiteKind) -> bool
    ensures { result ≡ is_two_way_of kind }
{
    match kind {
        SiteKind::Text => false,
        SiteKind::Words => false,
        SiteKind::Reference => false,
        SiteKind::Collection => false,
        SiteKind::Deep => false,
        SiteKind::TwoWay => true,
    }
}

/// Whether a site shows what it has kept: one that rests, or that of a two-way binding.
fn shows_kept(site: &Site, state: &SiteState) -> bool
    ensures { result ≡ ((state_of state.now).rests || is_two_way_of (site_of site.now).kind) }
{
    state.rests || is_two_way(site.kind())
}

/// What a site shows: its value now, or where it rests, or is that of a two-way binding, what it has kept.
fn site_now(over: &Over<'_>, site: &Site, state: &SiteState) -> Result<Option<Snap>, Fault>
    requires { StateStands over.now.store.now over.now.scopes.now (state_of state.now) }
    ensures { Gives is_memory (λ s. Some (option_map snap_of s)) (site_now_of over.now.store.now over.now.scopes.now (Some (site_of site.now)) (Some (state_of state.now))) result }
{
    if shows_kept(site, state) {
        return Ok(kept_copy(over.alloc, &state.kept)?);
    }
    let object = over.scopes.object(state.scope);
    let now = snapshot_now(over.alloc, over.store, object, site)?;
    Ok(Some(now))
}

/// What the site of a number shows, computed.
fn computed(over: &Over<'_>, n: u32) -> Result<Option<Snap>, Fault>
    requires { Stands over.now }
    ensures { Gives is_memory (λ s. Some (option_map snap_of s)) (kept_over over.now n) result }
{
    let Some(site) = over.sites.get(n as usize) else {
        return Ok(None);
    };
    let Some(state) = over.states.get(n as usize) else {
        return Ok(None);
    };
    site_now(over, site, state)
}

/// What the site of a number shows. What is known isn't computed again.
pub(crate) fn shown_now(over: &Over<'_>, n: u32) -> Result<Option<Snap>, Fault>
    requires { Stands over.now }
    ensures { Gives is_memory (λ s. Some (option_map snap_of s)) (kept_over over.now n) result }
{
    match known_at(over.known, n) {
        None => computed(over, n),
        Some(known) => Ok(kept_copy(over.alloc, &known.shown)?),
    }
}
