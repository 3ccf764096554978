//! What is seen of a site that has this now (API: ngModel).
ghost use Rattle.std.specs.Prelude.{◌≡◌, ◌++◌, map, option_map, IfOk, OnOk};
ghost use Rattle.ng_drawing.specs.Instance.{seen_at};
ghost use Rattle.ng_drawing.specs.InstanceOf.{state_of};
ghost use Rattle.ng_drawing.specs.Looks.{is_seen_true as is_seen_true_of, is_seen_false as is_seen_false_of};
ghost use Rattle.ng_value.specs.Snaps.{snap_of};

use crate::over::Over;
use crate::sites::control_at;
use ng_base::lists::Words;
use ng_base::txt::Txt;
use ng_drawing::controls::{is_seen_false, is_seen_true, push_seen_words, seen_text};
use ng_value::snapshot::Snap;
use std::alloc::AllocError;

/// The text.
pub(crate) fn text_at(over: &Over<'_>, n: u32, shown: &Option<Snap>) -> Result<Txt, AllocError>
    ensures { IfOk result (λ t. t ≡ (seen_at (map state_of over.now.states.now) n (option_map snap_of shown.now)).text) }
{
    seen_text(over.alloc, control_at(over, n), shown.as_ref())
}

/// Adds the words.
pub(crate) fn push_words_at(
    over: &Over<'_>,
    words: &mut Words,
    n: u32,
    shown: &Option<Snap>,
) -> Result<(), AllocError>
    ensures { OnOk result (words.new ≡ words.old ++ (seen_at (map state_of over.now.states.now) n (option_map snap_of shown.now)).words) }
{
    push_seen_words(over.alloc, words, control_at(over, n), shown.as_ref())
}

/// Whether it is seen as true.
pub(crate) fn is_true_at(over: &Over<'_>, n: u32, shown: &Option<Snap>) -> bool
    ensures { result ≡ is_seen_true_of (seen_at (map state_of over.now.states.now) n (option_map snap_of shown.now)) }
{
    is_seen_true(control_at(over, n), shown.as_ref())
}

/// Whether it is seen as a value that doesn't count as true.
pub(crate) fn is_false_at(over: &Over<'_>, n: u32, shown: &Option<Snap>) -> bool
    ensures { result ≡ is_seen_false_of (seen_at (map state_of over.now.states.now) n (option_map snap_of shown.now)) }
{
    is_seen_false(control_at(over, n), shown.as_ref())
}
