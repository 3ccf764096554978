//! The verdict of one watcher.
ghost use Rattle.std.specs.Prelude.{◌≡◌, ◌<◌, ◌++◌, [], Ok, Some, List, IsTrue, length, map, option_map, IfOk, OnOk};
ghost use Rattle.ng_base.specs.Faults.{is_memory};
ghost use Rattle.ng_base.specs.Meets.{Gives};
ghost use Rattle.ng_base.specs.Objects.{Object};
ghost use Rattle.ng_base.specs.Views.{prim, views_list};
ghost use Rattle.ng_base.specs.ViewOf.{view_of, views_of};
ghost use Rattle.ng_language.specs.Texts.{show_text};
ghost use Rattle.ng_language.specs.Views.{ViewStands};
ghost use Rattle.ng_value.specs.Snaps.{snap_of};
ghost use Rattle.ng_value.specs.Taken.{taken};
ghost use Rattle.ng_watch.specs.Now.{value_now, snapshot_of, text_view, word_list};
ghost use Rattle.ng_watch.specs.Seen.{watching_of, watcher_of, DestStands, WatchStands};
ghost use Rattle.ng_watch.specs.Verdicts.{judged_of, against, clean, verdict_of, verdict};
ghost use Rattle.ng_watch.specs.declared.watch.WatchKind.TheVariants as kinds;

use crate::bindings::two_way_verdict;
use crate::watch::{Verdict, Watch, WatchKind};
use crate::watched::Watched;
use ng_base::fault::Fault;
use ng_base::lists::Words;
use ng_base::locals::Locals;
use ng_base::txt::Txt;
use ng_base::value::Value;
use ng_base::view::{View, Views};
use ng_language::snapshots::SnapKind;
use ng_store::store::Store;
use ng_value::classes::class_words;
use ng_value::operators::same;
use ng_value::snapping::snap;
use ng_value::snapshot::{Snap, differs};
use ng_value::texts::show_text;
use ng_view::{seen_value, view};
use std::alloc::{AllocError, Global};

/// The value of a watch's program over its scope.
#[tactic(auto, using(ng_purity::proofs::Pure::pure_are, ng_purity::proofs::Pure::known_are), unfolding(crate::specs::Now::value_now))]
pub(crate) fn value_now(alloc: Global, store: &Store, watch: &Watch) -> Result<View, Fault>
    requires { watch.now.scope.0 < length store.now }
    ensures exact { Gives is_memory view_of (value_now store.now (watching_of watch.now)) result }
    ensures stands { IfOk result (λ v. ViewStands (length store.now) (view_of v)) }
{
    let locals = Locals::new(alloc);
    view(alloc, store, watch.scope, &locals, &watch.program)
}

/// A snapshot against what was kept.
fn against(kept: &Option<Snap>, now: Snap) -> Verdict
    ensures { judged_of result ≡ against (option_map snap_of kept.now) (snap_of now) }
{
    match kept {
        None => Verdict::Dirty(now),
        Some(kept) => {
            if differs(&now, kept) {
                Verdict::Dirty(now)
            } else {
                Verdict::Clean
            }
        }
    }
}

/// Whether a value shows as this text, told without spelling it. It is not told of an object.
#[tactic(auto, unfolding(ng_language::specs::Unfolding::level_limit, ng_language::specs::Unfolding::node_limit))]
fn shows(value: &Value, text: &Txt) -> bool
    ensures { IsTrue result → (objects : List Object) → show_text objects (prim value.now) ≡ Ok text.now }
{
    match value {
        Value::Undefined => text.is_word(""),
        Value::Null => text.is_word(""),
        Value::Bool(true) => text.is_word("true"),
        Value::Bool(false) => text.is_word("false"),
        Value::Int(n) => text.is_number(*n),
        Value::Nan => text.is_word("NaN"),
        Value::Text(shown) => text.same(shown),
        Value::Fun(_) => text.is_word(""),
        Value::Obj(_) => false,
    }
}

/// Whether a value shows as the text that was kept, told without spelling it.
fn shows_kept(value: &Value, kept: &Snap) -> bool
    ensures { IsTrue result → (objects : List Object) → verdict_of kinds.Text (Some (snap_of kept.now)) objects (prim value.now) ≡ Ok clean }
{
    match kept.view() {
        View::Prim(Value::Text(text)) => shows(value, text),
        _ => false,
    }
}

/// Whether a value is the one that was kept by reference.
fn is_kept(value: &Value, kept: &Snap) -> bool
    ensures { IsTrue result → (objects : List Object) → verdict_of kinds.Reference (Some (snap_of kept.now)) objects (prim value.now) ≡ Ok clean }
{
    match kept.view() {
        View::Prim(last) => same(value, last),
        _ => false,
    }
}

/// Whether a watch is told to be clean by what was kept without a snapshot of the value: a hole that still shows its text, a value by reference.
fn stays(watched: &Watched, value: &Value) -> bool
    ensures { IsTrue result → (objects : List Object) → verdict_of watched.now.watch.kind (option_map snap_of watched.now.kept) objects (prim value.now) ≡ Ok clean }
{
    match (&watched.watch.kind, &watched.kept) {
        (WatchKind::Text, Some(kept)) => shows_kept(value, kept),
        (WatchKind::Reference, Some(kept)) => is_kept(value, kept),
        _ => false,
    }
}

/// The text that a value shows, as a snapshot.
fn text_snap(alloc: Global, store: &Store, value: &View) -> Result<Snap, Fault>
    requires { ViewStands (length store.now) (view_of value.now) }
    ensures { Gives is_memory snap_of (snapshot_of kinds.Text store.now (view_of value.now)) result }
{
    let text = show_text(alloc, store, value)?;
    Ok(Snap::of_view(View::of_value(Value::Text(text))))
}

/// Words as a list of texts.
fn word_list(alloc: Global, words: &Words) -> Result<Views, AllocError>
    ensures { IfOk result (λ v. views_list (views_of v) ≡ map text_view words.now) }
{
    let mut views = Views::new(alloc);
    for word in words.as_slice() {
        views.push(View::of_value(Value::Text(word.copied()?)))?;
    }
    Ok(views)
}

/// The class words of a value, as a snapshot.
fn word_snap(alloc: Global, store: &Store, value: &View) -> Result<Snap, Fault>
    requires { ViewStands (length store.now) (view_of value.now) }
    ensures { Gives is_memory snap_of (snapshot_of kinds.Words store.now (view_of value.now)) result }
{
    let words = class_words(alloc, store, value)?;
    let views = word_list(alloc, &words)?;
    Ok(Snap::of_view(View::of_list(views)))
}

/// The verdict of a watch of a kind, by what was kept, of a value. It stands apart so that the test of a hole that is
/// clean needs little room.
#[inline(never)]
fn verdict_of(
    alloc: Global,
    store: &Store,
    watched: &Watched,
    value: &View,
) -> Result<Verdict, Fault>
    requires dest { DestStands (length store.now) watched.now.watch.kind }
    requires value { ViewStands (length store.now) (view_of value.now) }
    ensures { Gives is_memory judged_of (verdict_of watched.now.watch.kind (option_map snap_of watched.now.kept) store.now (view_of value.now)) result }
{
    let kept = &watched.kept;
    let now = match &watched.watch.kind {
        WatchKind::Reference => snap(alloc, SnapKind::Reference, store, value)?,
        WatchKind::Collection => snap(alloc, SnapKind::Collection, store, value)?,
        WatchKind::Deep => snap(alloc, SnapKind::Deep, store, value)?,
        WatchKind::Text => text_snap(alloc, store, value)?,
        WatchKind::Words => word_snap(alloc, store, value)?,
        WatchKind::TwoWay { dest, name } => {
            return two_way_verdict(alloc, store, *dest, name, kept, value);
        }
    };
    Ok(against(kept, now))
}

/// Whether a watch is told to be clean without a snapshot of a value.
fn is_shown(watched: &Watched, value: &View) -> bool
    ensures { IsTrue result → (objects : List Object) → verdict_of watched.now.watch.kind (option_map snap_of watched.now.kept) objects (view_of value.now) ≡ Ok clean }
{
    match value {
        View::Prim(value) => stays(watched, value),
        _ => false,
    }
}

/// The verdict of a watcher of a value that stands in the store: it is copied only where it isn't the one that was kept.
fn seen_verdict(
    alloc: Global,
    store: &Store,
    watched: &Watched,
    value: &Value,
) -> Result<Verdict, Fault>
    requires dest { DestStands (length store.now) watched.now.watch.kind }
    requires value { ViewStands (length store.now) (prim value.now) }
    ensures { Gives is_memory judged_of (verdict_of watched.now.watch.kind (option_map snap_of watched.now.kept) store.now (prim value.now)) result }
{
    if stays(watched, value) {
        return Ok(Verdict::Clean);
    }
    verdict_of(alloc, store, watched, &View::of_value(value.copied()?))
}

/// The verdict of a watcher of a value that was evaluated.
fn evaluated_verdict(
    alloc: Global,
    store: &Store,
    watched: &Watched,
    value: &View,
) -> Result<Verdict, Fault>
    requires dest { DestStands (length store.now) watched.now.watch.kind }
    requires value { ViewStands (length store.now) (view_of value.now) }
    ensures { Gives is_memory judged_of (verdict_of watched.now.watch.kind (option_map snap_of watched.now.kept) store.now (view_of value.now)) result }
{
    if is_shown(watched, value) {
        return Ok(Verdict::Clean);
    }
    verdict_of(alloc, store, watched, value)
}

/// The verdict of a watcher: a value that is no object is spelled only where the kept text is another, and the value of a dotted path is read
/// where it stands.
#[tactic(auto, unfolding(crate::specs::Now::value_now))]
pub(crate) fn verdict(alloc: Global, store: &Store, watched: &Watched) -> Result<Verdict, Fault>
    requires { WatchStands (length store.now) (watching_of watched.now.watch) }
    ensures { Gives is_memory judged_of (verdict store.now (watcher_of watched.now)) result }
{
    let locals = Locals::new(alloc);
    match seen_value(store, watched.watch.scope, &locals, &watched.watch.program) {
        Some(value) => seen_verdict(alloc, store, watched, value),
        None => {
            let value = value_now(alloc, store, &watched.watch)?;
            evaluated_verdict(alloc, store, watched, &value)
        }
    }
}
