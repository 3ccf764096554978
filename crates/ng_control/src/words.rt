//! The state classes.
ghost use Rattle.std.specs.Prelude.{◌≡◌, ◌++◌, ◌∷◌, [], IfOk, OnOk, if◌then◌else◌};
ghost use Rattle.ng_base.specs.Word.{IsWord};
ghost use Rattle.ng_control.specs.Shown.{state_classes as state_classes_of};

use ng_base::lists::Words;
use ng_base::txt::Txt;
use std::alloc::{AllocError, Global};

fn word(alloc: Global, w: &str) -> Result<Txt, AllocError>
    requires { IsWord w.now }
    ensures { IfOk result (λ t. t ≡ w.now) }
{
    let mut text = Txt::new(alloc);
    text.push_word(w)?;
    Ok(text)
}

/// Adds one word of a pair.
fn push_one(
    alloc: Global,
    words: &mut Words,
    is_first: bool,
    first: &str,
    second: &str,
) -> Result<(), AllocError>
    requires first { IsWord first.now }
    requires second { IsWord second.now }
    ensures { OnOk result (words.new ≡ words.old ++ (if is_first then first.now else second.now) ∷ []) }
{
    let w = if is_first {
        word(alloc, first)?
    } else {
        word(alloc, second)?
    };
    words.push(w)
}

/// One word of each pair.
pub(crate) fn state_classes(
    alloc: Global,
    dirty: bool,
    touched: bool,
    invalid: bool,
    empty: bool,
) -> Result<Words, AllocError>
    ensures { IfOk result (λ w. w ≡ state_classes_of dirty touched invalid empty) }
{
    let mut words = Words::new(alloc);
    push_one(alloc, &mut words, dirty, "ng-dirty", "ng-pristine")?;
    push_one(alloc, &mut words, touched, "ng-touched", "ng-untouched")?;
    push_one(alloc, &mut words, invalid, "ng-invalid", "ng-valid")?;
    push_one(alloc, &mut words, empty, "ng-empty", "ng-not-empty")?;
    Ok(words)
}
