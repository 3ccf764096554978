//! What a digest knows of the watchers that it has passed, so that none is tested again where nothing has changed since (guide: Scopes, "Scope Life
//! Cycle"). Those that were passed after the last program ran stay clean: where that was a fire's, the next round tests the watchers up to its key,
//! and of those above it the first alone.
ghost use Rattle.std.specs.Prelude.{◌≡◌, IfOk, IfSome, IsNone, OnOk, true, option_copied};
ghost use Rattle.ng_base.specs.declared.path.Key.{Key as Name};
ghost use Rattle.ng_digest.specs.Machine.{above};
ghost use Rattle.ng_page.specs.KnownClean.{nothing_known, none_above, known_begun, known_ended, passed_here, known_come, known_tested, known_fired};
ghost use Rattle.ng_page.specs.PageMachine.{page_machine};
ghost use Rattle.ng_watch.specs.Walks.{reached_of};

use crate::testing::copied_if_any;
use ng_base::path::Key;
use ng_digest::world::Tested;
use ng_watch::walking::Reached;
use std::alloc::AllocError;

/// Which watchers this round is known to have passed.
#[derive(Clone, Copy, Debug, PartialEq, Eq)]
pub enum Passed {
    /// None.
    Nothing,
    /// Those below the cursor.
    Below,
    /// Those up to the cursor.
    UpTo,
}

/// Which watchers are known to be clean, but for those whose test's fault was told in the digest. With `to_end` they are all above the key `from`
/// and those that this round has passed, else those above it that this round has passed. Without a key there is no such bound.
#[derive(Drop)]
pub struct Known {
    pub(crate) from: Option<Key>,
    pub(crate) to_end: bool,
    pub(crate) passed: Passed,
}

/// Nothing is known of any watcher.
pub(crate) fn nothing() -> Known
    ensures { result ≡ nothing_known }
{
    Known {
        from: None,
        to_end: false,
        passed: Passed::Nothing,
    }
}

/// What is known after a program: nothing, but those above the cursor may be once they are passed.
pub(crate) fn on_program(cursor: Option<&Key>) -> Result<Known, AllocError>
    ensures { IfOk result (λ k. k ≡ none_above (option_copied cursor.entry)) }
{
    Ok(Known {
        from: copied_if_any(cursor)?,
        to_end: false,
        passed: Passed::UpTo,
    })
}

/// What is known as a round begins, before the least key.
pub(crate) fn on_round(known: &mut Known)
    ensures { known.new ≡ known_begun known.old }
{
    if !known.to_end {
        known.from = None;
    }
    known.passed = Passed::UpTo;
}

/// A round has passed all. Where those above the bound were known before it, those up to the bound are now too.
fn on_end(known: &mut Known)
    ensures { known.new ≡ known_ended known.old }
{
    if known.to_end {
        known.from = None;
    }
    known.to_end = true;
    known.passed = Passed::Nothing;
}

/// What is known where a walk over clean watchers has come.
pub(crate) fn on_walk(known: &mut Known, reached: &Reached)
    ensures { known.new ≡ known_come (reached_of reached.now) known.old }
{
    match known.passed {
        Passed::UpTo => match reached {
            Reached::End(_) => on_end(known),
            Reached::Watcher(_, _) | Reached::Faulted(_, _) => {
                known.passed = Passed::Below;
            }
        },
        Passed::Nothing | Passed::Below => {
            known.passed = Passed::Nothing;
        }
    }
}

/// The watcher at the cursor is clean, or was told.
fn on_clean(passed: Passed) -> Passed
    ensures { result ≡ passed_here passed }
{
    match passed {
        Passed::Below => Passed::UpTo,
        Passed::Nothing | Passed::UpTo => passed,
    }
}

/// What is known after the test of the watcher at the cursor. One that faulted is told.
pub(crate) fn on_test(known: &mut Known, tested: Tested)
    ensures { known.new ≡ known_tested tested known.old }
{
    match tested {
        Tested::Clean | Tested::Faulted => {
            known.passed = on_clean(known.passed);
        }
        Tested::Dirty | Tested::Memory(_) => {}
    }
}

/// What is known after the fire of the watcher at the cursor: one that was quiet changes what no other watcher reads.
pub(crate) fn on_fire(
    known: &mut Known,
    quiet: bool,
    cursor: Option<&Key>,
) -> Result<(), AllocError>
    ensures { OnOk result (known.new ≡ known_fired quiet (option_copied cursor.entry) known.old) }
{
    if quiet {
        known.passed = on_clean(known.passed);
    } else {
        *known = on_program(cursor)?;
    }
    Ok(())
}

/// Whether a key is above the cursor.
pub(crate) fn is_ahead(cursor: Option<&Key>, key: &Key) -> bool
    ensures { result ≡ above page_machine (option_copied cursor.entry) key.now }
{
    match cursor {
        None => true,
        Some(cursor) => cursor.cmp(key).is_lt(),
    }
}

/// The bound, where the cursor is below it. Else all above the cursor are above the bound too.
pub(crate) fn bound_ahead<'a>(known: &'a Known, cursor: Option<&Key>) -> Option<&'a Key>
    ensures ahead { IfSome result (λ k. above page_machine (option_copied cursor.entry) k.now ≡ true) }
    ensures behind { IsNone result → (k : Name) → above page_machine (option_copied cursor.entry) k ≡ true → above page_machine known.now.from k ≡ true }
{
    match &known.from {
        None => None,
        Some(from) => {
            if is_ahead(cursor, from) {
                Some(from)
            } else {
                None
            }
        }
    }
}
