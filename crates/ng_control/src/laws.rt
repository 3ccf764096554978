//! What a control shows, over a typed text and over a change of its model.
ghost use Rattle.std.specs.Prelude.{◌≡◌, Ok};
ghost use Rattle.ng_control.specs.Laws.{Seen, model_of};
ghost use Rattle.ng_control.specs.Shown.{shown, classes};
ghost use Rattle.ng_control.specs.State.{typed_in, with_model};

use ng_base::txt::Txt;

/// What was typed is shown as it was typed, while the model is what it was read as.
pub fn typed_text_is_shown(text: &Txt)
    ghost seen: { Seen }
    ensures { shown seen.objects (typed_in seen.control text.now) (model_of seen.control text.now) ≡ Ok text.now }
{}

/// A control that drops what its model does not bear out shows what it showed, and has the classes that it had.
pub fn dropping_changes_nothing_shown()
    ghost seen: { Seen }
    ensures shown { shown seen.objects (with_model seen.control seen.model) seen.model ≡ shown seen.objects seen.control seen.model }
    ensures classes { classes seen.objects (with_model seen.control seen.model) seen.model ≡ classes seen.objects seen.control seen.model }
{}
