//! What a site of a kind keeps of a value (guide: Scopes, "Scope `$watch` Depths").
ghost use Rattle.std.specs.Prelude.{◌≡◌, length, map, IfOk};
ghost use Rattle.ng_base.specs.Faults.{is_memory};
ghost use Rattle.ng_base.specs.Meets.{Gives};
ghost use Rattle.ng_base.specs.Views.{views_list};
ghost use Rattle.ng_base.specs.ViewOf.{view_of, views_of};
ghost use Rattle.ng_drawing.specs.Instance.{text_view, snapshot_as};
ghost use Rattle.ng_drawing.specs.declared.kind.SiteKind.TheVariants as kinds;
ghost use Rattle.ng_language.specs.Views.{ViewStands};
ghost use Rattle.ng_value.specs.Snaps.{snap_of};

use ng_base::fault::Fault;
use ng_base::lists::Words;
use ng_base::value::Value;
use ng_base::view::{View, Views};
use ng_drawing::kind::SiteKind;
use ng_language::snapshots::SnapKind;
use ng_store::store::Store;
use ng_value::classes::class_words;
use ng_value::snapping::snap;
use ng_value::snapshot::Snap;
use ng_value::texts::show_text;
use std::alloc::{AllocError, Global};

/// The text that a value shows, as a snapshot.
fn text_snap(alloc: Global, store: &Store, value: &View) -> Result<Snap, Fault>
    requires { ViewStands (length store.now) (view_of value.now) }
    ensures { Gives is_memory snap_of (snapshot_as kinds.Text store.now (view_of value.now)) result }
{
    let text = show_text(alloc, store, value)?;
    Ok(Snap::of_view(View::of_value(Value::Text(text))))
}

/// Words as a list of texts.
fn word_list(alloc: Global, words: &Words) -> Result<Views, AllocError>
    ensures { IfOk result (λ v. views_list (views_of v) ≡ map text_view words.now) }
{
    let mut views = Views::new(alloc);
    for word in words.as_slice() {
        views.push(View::of_value(Value::Text(word.copied()?)))?;
    }
    Ok(views)
}

/// The class words of a value, as a snapshot.
fn word_snap(alloc: Global, store: &Store, value: &View) -> Result<Snap, Fault>
    requires { ViewStands (length store.now) (view_of value.now) }
    ensures { Gives is_memory snap_of (snapshot_as kinds.Words store.now (view_of value.now)) result }
{
    let words = class_words(alloc, store, value)?;
    let views = word_list(alloc, &words)?;
    Ok(Snap::of_view(View::of_list(views)))
}

/// What a site of a kind keeps of a value.
pub(crate) fn snapshot(
    alloc: Global,
    kind: SiteKind,
    store: &Store,
    value: &View,
) -> Result<Snap, Fault>
    requires { ViewStands (length store.now) (view_of value.now) }
    ensures { Gives is_memory snap_of (snapshot_as kind store.now (view_of value.now)) result }
{
    match kind {
        SiteKind::Text => text_snap(alloc, store, value),
        SiteKind::Words => word_snap(alloc, store, value),
        SiteKind::Reference => snap(alloc, SnapKind::Reference, store, value),
        SiteKind::Collection => snap(alloc, SnapKind::Collection, store, value),
        SiteKind::Deep => snap(alloc, SnapKind::Deep, store, value),
        SiteKind::TwoWay => snap(alloc, SnapKind::Reference, store, value),
    }
}
