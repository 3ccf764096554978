//! What is seen of a site: the snapshot that it has kept, as a text, as words and as a truth, or the control whose model it is.
ghost use Rattle.std.specs.Prelude.{◌≡◌, ◌++◌, None, IfOk, OnOk, map, option_map};
ghost use Rattle.std.specs.List.{flat_map, list_any};
ghost use Rattle.ng_drawing.specs.Looks.{kept_text};
ghost use Rattle.ng_dom.specs.Drawing.{joined, is_shown_true, is_shown_false, is_hiding as is_hiding_of};
ghost use Rattle.ng_value.specs.Snaps.{snap_of};
ghost use Rattle.ng_watch.specs.Table.{kept_at};
ghost use Rattle.ng_build.specs.Seen.{hiding_of};
ghost use Rattle.ng_build.specs.Shape.{key_on as key_of_number};
ghost use Rattle.ng_link.specs.State.{kept_in, looks_in, state_of};

use crate::works::Works;
use ng_base::fault::Memory;
use ng_base::lists::Words;
use ng_base::path::{Key, Path};
use ng_base::txt::Txt;
use ng_build::copying::{add_words, key_on};
use ng_dom::record::{Hiding, Piece};
use ng_drawing::controls::{is_seen_false, is_seen_true, push_seen_words, seen_text};
use ng_value::snapshot::Snap;
use std::alloc::{AllocError, Global};

/// What a site has kept at rest, where it rests.
fn kept_at_rest<'a>(works: &'a Works, key: &Key) -> Option<&'a Snap>
    requires { kept_at key.now (state_of works.now).watchers ≡ None }
    ensures { option_map (λ s. snap_of s.now) result ≡ kept_in (state_of works.now).watchers (state_of works.now).resting key.now }
{
    if works.watchers.has(key) {
        return None;
    }
    match works.resting.get(key) {
        None => None,
        Some(kept) => kept.as_ref(),
    }
}

/// What the site of a key shows.
pub(crate) fn kept_in<'a>(works: &'a Works, key: &Key) -> Option<&'a Snap>
    ensures { option_map (λ s. snap_of s.now) result ≡ kept_in (state_of works.now).watchers (state_of works.now).resting key.now }
{
    match works.watchers.kept_at(key) {
        Some(s) => Some(s),
        None => kept_at_rest(works, key),
    }
}

/// Adds the text that the site of a key shows.
fn add_kept(works: &Works, text: &mut Txt, key: &Key) -> Result<(), AllocError>
    ensures { IfOk result (λ _. text.new ≡ text.old ++ (looks_in (state_of works.now) key.now).text) }
{
    let seen = seen_text(works.alloc, works.controls.get(key), kept_in(works, key))?;
    add_words(text, &seen)
}

/// Adds the text that was kept, whether a control shows it or not.
fn add_kept_text(alloc: Global, text: &mut Txt, kept: Option<&Snap>) -> Result<(), AllocError>
    ensures { OnOk result (text.new ≡ text.old ++ kept_text (option_map (λ s. snap_of s.now) kept.entry)) }
{
    let words = seen_text(alloc, None, kept)?;
    add_words(text, &words)
}

/// The text of pieces.
pub(crate) fn joined_text(works: &Works, pieces: &[Piece]) -> Result<Txt, AllocError>
    ensures { IfOk result (λ t. t ≡ joined (looks_in (state_of works.now)) pieces.now) }
{
    let mut text = Txt::new(works.alloc);
    for piece in pieces {
        match piece {
            Piece::Words(words) => add_words(&mut text, words)?,
            Piece::Hole(key) => add_kept(works, &mut text, key)?,
        }
    }
    Ok(text)
}

/// Adds the words that the site of a key shows.
fn push_shown_words(works: &Works, words: &mut Words, key: &Key) -> Result<(), AllocError>
    ensures { OnOk result (words.new ≡ words.old ++ (looks_in (state_of works.now) key.now).words) }
{
    push_seen_words(
        works.alloc,
        words,
        works.controls.get(key),
        kept_in(works, key),
    )
}

/// The words that the sites of these keys show.
pub(crate) fn shown_words(works: &Works, keys: &[Key]) -> Result<Words, AllocError>
    ensures { IfOk result (λ ws. ws ≡ flat_map (λ k. (looks_in (state_of works.now) k).words) keys.now) }
{
    let mut words = Words::new(works.alloc);
    for key in keys {
        push_shown_words(works, &mut words, key)?;
    }
    Ok(words)
}

/// Whether the site of a key is seen as true.
pub(crate) fn is_kept_true(works: &Works, key: &Key) -> bool
    ensures { result ≡ is_shown_true (looks_in (state_of works.now) key.now) }
{
    is_seen_true(works.controls.get(key), kept_in(works, key))
}

/// Whether the site of a key is seen as a value that doesn't count as true.
fn is_kept_false(works: &Works, key: &Key) -> bool
    ensures { result ≡ is_shown_false (looks_in (state_of works.now) key.now) }
{
    is_seen_false(works.controls.get(key), kept_in(works, key))
}

/// Whether a site hides its element.
fn is_hiding(works: &Works, hiding: &Hiding) -> bool
    ensures { result ≡ is_hiding_of (looks_in (state_of works.now)) (hiding_of hiding.now) }
{
    match hiding {
        Hiding::WhileTrue(key) => is_kept_true(works, key),
        Hiding::WhileFalse(key) => is_kept_false(works, key),
    }
}

/// Whether one of these sites hides its element.
pub(crate) fn is_hidden(works: &Works, hidings: &[Hiding]) -> bool
    ensures { result ≡ list_any (is_hiding_of (looks_in (state_of works.now))) (map hiding_of hidings.now) }
{
    for hiding in hidings {
        if is_hiding(works, hiding) {
            return true;
        }
    }
    false
}

impl Works {
    /// The text that the site of a number has kept is added, if it has kept one.
    pub fn push_kept(&self, path: &Path, serial: u64, text: &mut Txt) -> Result<(), Memory>
        ensures { OnOk result (text.new ≡ text.old ++ kept_text (kept_in (state_of self.now).watchers (state_of self.now).resting (key_of_number path.now serial))) }
    {
        let key = key_on(path, serial)?;
        add_kept_text(self.alloc, text, kept_in(self, &key))?;
        Ok(())
    }
}
