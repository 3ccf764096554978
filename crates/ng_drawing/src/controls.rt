//! What is seen of a site: the snapshot that it has kept, or what the control shows whose model it is (API: ngModel).
ghost use Rattle.std.specs.Prelude.{◌≡◌, ◌++◌, Some, option_map, option_copied, IfOk, OnOk};
ghost use Rattle.ng_base.specs.ViewOf.{view_of};
ghost use Rattle.ng_control.specs.Kept.{model_kept as model_kept_of};
ghost use Rattle.ng_drawing.specs.Looks.{control_seen, seen_by, is_seen_true as is_seen_true_of, is_seen_false as is_seen_false_of, kept_text};
ghost use Rattle.ng_value.specs.Snaps.{snap_of};

use crate::cases::kept_as_text;
use crate::classes::push_kept_words;
use ng_base::lists::Words;
use ng_base::txt::Txt;
use ng_base::value::Value;
use ng_base::view::View;
use ng_control::{Control, is_checked};
use ng_value::operators::truthy;
use ng_value::snapshot::Snap;
use std::alloc::{AllocError, Global};

/// The text of a model that was kept: none for undefined, null and NaN.
fn model_kept(alloc: Global, view: &View) -> Result<Txt, AllocError>
    ensures { IfOk result (λ t. t ≡ model_kept_of (view_of view.now)) }
{
    match view {
        View::Prim(Value::Undefined) => Ok(Txt::new(alloc)),
        View::Prim(Value::Null) => Ok(Txt::new(alloc)),
        View::Prim(Value::Nan) => Ok(Txt::new(alloc)),
        _ => kept_as_text(alloc, view),
    }
}

/// The text that a control shows.
fn control_text(alloc: Global, control: &Control, kept: &Snap) -> Result<Txt, AllocError>
    ensures { IfOk result (λ t. t ≡ (control_seen control.now (Some (snap_of kept.now))).text) }
{
    let model = model_kept(alloc, kept.view())?;
    control.shown_with(kept.view(), model)
}

/// The state classes of a control.
fn control_words(alloc: Global, control: &Control, kept: &Snap) -> Result<Words, AllocError>
    ensures { IfOk result (λ ws. ws ≡ (control_seen control.now (Some (snap_of kept.now))).words) }
{
    let model = model_kept(alloc, kept.view())?;
    control.classes_with(kept.view(), &model)
}

/// The text that a snapshot holds.
fn text_in(alloc: Global, kept: &Snap) -> Result<Txt, AllocError>
    ensures { IfOk result (λ t. t ≡ kept_text (Some (snap_of kept.now))) }
{
    match kept.view() {
        View::Prim(Value::Text(text)) => text.copied(),
        _ => Ok(Txt::new(alloc)),
    }
}

/// The text of a site that has kept a snapshot.
fn kept_seen_text(alloc: Global, control: Option<&Control>, kept: &Snap) -> Result<Txt, AllocError>
    ensures { IfOk result (λ t. t ≡ (seen_by (option_copied control.entry) (Some (snap_of kept.now))).text) }
{
    match control {
        None => text_in(alloc, kept),
        Some(control) => control_text(alloc, control, kept),
    }
}

/// The text that is seen of a site.
pub fn seen_text(
    alloc: Global,
    control: Option<&Control>,
    kept: Option<&Snap>,
) -> Result<Txt, AllocError>
    ensures { IfOk result (λ t. t ≡ (seen_by (option_copied control.entry) (option_map (λ s. snap_of s.now) kept.entry)).text) }
{
    match kept {
        None => Ok(Txt::new(alloc)),
        Some(kept) => kept_seen_text(alloc, control, kept),
    }
}

/// Adds the state classes of a control.
fn push_control_words(
    alloc: Global,
    words: &mut Words,
    control: &Control,
    kept: &Snap,
) -> Result<(), AllocError>
    ensures { OnOk result (words.new ≡ words.old ++ (control_seen control.now (Some (snap_of kept.now))).words) }
{
    let classes = control_words(alloc, control, kept)?;
    let list = classes.as_slice();
    for word in list {
        words.push(word.copied()?)?;
    }
    Ok(())
}

/// Adds the words of a site that has kept a snapshot.
fn push_kept_seen(
    alloc: Global,
    words: &mut Words,
    control: Option<&Control>,
    kept: &Snap,
) -> Result<(), AllocError>
    ensures { OnOk result (words.new ≡ words.old ++ (seen_by (option_copied control.entry) (Some (snap_of kept.now))).words) }
{
    match control {
        None => push_kept_words(words, kept),
        Some(control) => push_control_words(alloc, words, control, kept),
    }
}

/// Adds the words that are seen of a site.
pub fn push_seen_words(
    alloc: Global,
    words: &mut Words,
    control: Option<&Control>,
    kept: Option<&Snap>,
) -> Result<(), AllocError>
    ensures { OnOk result (words.new ≡ words.old ++ (seen_by (option_copied control.entry) (option_map (λ s. snap_of s.now) kept.entry)).words) }
{
    match kept {
        None => Ok(()),
        Some(kept) => push_kept_seen(alloc, words, control, kept),
    }
}

/// Whether a kept snapshot counts as true, or as that of a control that is checked.
fn is_true(control: Option<&Control>, kept: &Snap) -> bool
    ensures { result ≡ is_seen_true_of (seen_by (option_copied control.entry) (Some (snap_of kept.now))) }
{
    match control {
        None => truthy(kept.view()),
        Some(_) => is_checked(kept.view()),
    }
}

/// Whether a site is seen as true.
pub fn is_seen_true(control: Option<&Control>, kept: Option<&Snap>) -> bool
    ensures { result ≡ is_seen_true_of (seen_by (option_copied control.entry) (option_map (λ s. snap_of s.now) kept.entry)) }
{
    match kept {
        None => false,
        Some(kept) => is_true(control, kept),
    }
}

/// Whether a snapshot that was kept doesn't count as true, nor as that of a control that is checked.
fn is_false(control: Option<&Control>, kept: &Snap) -> bool
    ensures { result ≡ is_seen_false_of (seen_by (option_copied control.entry) (Some (snap_of kept.now))) }
{
    match control {
        None => !truthy(kept.view()),
        Some(_) => !is_checked(kept.view()),
    }
}

/// Whether a site is seen as a value that doesn't count as true.
pub fn is_seen_false(control: Option<&Control>, kept: Option<&Snap>) -> bool
    ensures { result ≡ is_seen_false_of (seen_by (option_copied control.entry) (option_map (λ s. snap_of s.now) kept.entry)) }
{
    match kept {
        None => false,
        Some(kept) => is_false(control, kept),
    }
}
