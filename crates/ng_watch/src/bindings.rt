//! The verdict of a two-way binding (guide: Directives, "Isolating the Scope of a Directive").
ghost use Rattle.std.specs.Prelude.{◌≡◌, ◌<◌, length, option_map, IfOk};
ghost use Rattle.ng_base.specs.Faults.{is_memory};
ghost use Rattle.ng_base.specs.Meets.{Gives};
ghost use Rattle.ng_base.specs.ViewOf.{view_of};
ghost use Rattle.ng_language.specs.Views.{ViewStands};
ghost use Rattle.ng_value.specs.Snaps.{snap_of};
ghost use Rattle.ng_watch.specs.Now.{two_way_kind};
ghost use Rattle.ng_watch.specs.Verdicts.{judged_of, own_value, bound, verdict_of, synced};
ghost use Rattle.ng_watch.specs.declared.watch.WatchKind.TheVariants.{TwoWay};
ghost use Rattle.ng_value.specs.Taken.{taken};

use crate::watch::Verdict;
use ng_base::fault::Fault;
use ng_base::heap::Heap;
use ng_base::name::Oid;
use ng_base::txt::Txt;
use ng_base::value::Value;
use ng_base::view::View;
use ng_bind::flow::{Flow, sync};
use ng_language::snapshots::SnapKind;
use ng_store::store::Store;
use ng_value::snapping::snap;
use ng_value::snapshot::Snap;
use std::alloc::{AllocError, Global};

/// How the two sides are compared: by identity, but fresh lists and records by what they hold.
fn two_way_kind(value: &View) -> SnapKind
    ensures { result ≡ two_way_kind (view_of value.now) }
{
    match value {
        View::Prim(_) => SnapKind::Reference,
        View::List(_) => SnapKind::Deep,
        View::Rec(_) => SnapKind::Deep,
    }
}

/// What an isolate scope itself has under a name.
fn own_value(store: &Store, dest: Oid, name: &Txt) -> Result<View, AllocError>
    requires { dest.0 < length store.now }
    ensures own { IfOk result (λ v. view_of v ≡ own_value store.now dest.0 name.now) }
    ensures stands { IfOk result (λ v. ViewStands (length store.now) (view_of v)) }
{
    match store.own(dest, name) {
        Some(value) => Ok(View::of_value(value.copied()?)),
        None => Ok(View::of_value(Value::Undefined)),
    }
}

/// The side that wins is kept.
fn synced(last: &Snap, parent: Snap, own: Snap) -> Verdict
    ensures { judged_of result ≡ synced (snap_of last.now) (snap_of parent) (snap_of own) }
{
    match sync(&parent, &own, last) {
        Flow::Still => Verdict::Clean,
        Flow::ToDest => Verdict::Dirty(parent),
        Flow::ToParent => Verdict::Dirty(own),
    }
}

/// The verdict of a binding, by the parent's value.
pub(crate) fn two_way_verdict(
    alloc: Global,
    store: &Store,
    dest: Oid,
    name: &Txt,
    kept: &Option<Snap>,
    value: &View,
) -> Result<Verdict, Fault>
    requires dest { dest.0 < length store.now }
    requires value { ViewStands (length store.now) (view_of value.now) }
    ensures { Gives is_memory judged_of (verdict_of (TwoWay dest name.now) (option_map snap_of kept.now) store.now (view_of value.now)) result }
{
    let kind = two_way_kind(value);
    let parent = snap(alloc, kind, store, value)?;
    match kept {
        None => Ok(Verdict::Dirty(parent)),
        Some(last) => {
            let own = own_value(store, dest, name)?;
            let own = snap(alloc, kind, store, &own)?;
            Ok(synced(last, parent, own))
        }
    }
}
