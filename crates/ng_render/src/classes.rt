//! What a class shows (API: ngClass, ngShow, ngHide).
ghost use Rattle.std.specs.Prelude.{Some, map};
ghost use Rattle.ng_base.specs.Faults.{is_memory};
ghost use Rattle.ng_base.specs.Meets.{Gives};
ghost use Rattle.ng_drawing.specs.Drawing.{render_words, render_hiding, render_hidings, render_class};
ghost use Rattle.ng_parts.specs.AttributeOf.{hiding_of, class_of};
ghost use Rattle.ng_render.specs.OverOf.{now_over, Stands};

use crate::over::Over;
use crate::seen::{is_false_at, is_true_at, push_words_at};
use crate::sites::shown_now;
use crate::texts::pieces_text;
use ng_base::fault::Fault;
use ng_base::lists::Words;
use ng_base::txt::Txt;
use ng_drawing::classes::class_text;
use ng_parts::{ClassValue, Hiding};

/// The words that sites show.
fn site_words(over: &Over<'_>, numbers: &[u32]) -> Result<Words, Fault>
    requires { Stands over.now }
    ensures { Gives is_memory Some (render_words (now_over over.now) numbers.now) result }
{
    let mut words = Words::new(over.alloc);
    for n in numbers {
        let shown = shown_now(over, *n)?;
        push_words_at(over, &mut words, *n, &shown)?;
    }
    Ok(words)
}

/// Whether a site hides the element.
fn is_hiding(over: &Over<'_>, hiding: &Hiding) -> Result<bool, Fault>
    requires { Stands over.now }
    ensures { Gives is_memory Some (render_hiding (now_over over.now) (hiding_of hiding.now)) result }
{
    match hiding {
        Hiding::WhileTrue(n) => {
            let shown = shown_now(over, *n)?;
            Ok(is_true_at(over, *n, &shown))
        }
        Hiding::WhileFalse(n) => {
            let shown = shown_now(over, *n)?;
            Ok(is_false_at(over, *n, &shown))
        }
    }
}

/// Whether one of these sites hides the element.
fn is_hidden(over: &Over<'_>, hidings: &[Hiding]) -> Result<bool, Fault>
    requires { Stands over.now }
    ensures { Gives is_memory Some (render_hidings (now_over over.now) (map hiding_of hidings.now)) result }
{
    let mut hidden = false;
    for hiding in hidings {
        let hides = is_hiding(over, hiding)?;
        hidden = hidden || hides;
    }
    Ok(hidden)
}

/// The value of a class.
pub(crate) fn class_now(over: &Over<'_>, class: &ClassValue) -> Result<Option<Txt>, Fault>
    requires { Stands over.now }
    ensures { Gives is_memory Some (render_class (now_over over.now) (class_of class.now)) result }
{
    let text = pieces_text(over, &class.pieces)?;
    let words = site_words(over, class.words.as_slice())?;
    let hidden = is_hidden(over, class.hidings.as_slice())?;
    Ok(class_text(over.alloc, class.written, &text, &words, hidden)?)
}
