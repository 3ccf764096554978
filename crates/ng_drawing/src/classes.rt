//! The words of a class, and its value (API: ngClass, ngShow, ngHide).
ghost use Rattle.std.specs.Prelude.{◌≡◌, ◌++◌, ◌∷◌, [], Some, MatchOption, IfOk, OnOk, map};
ghost use Rattle.ng_base.specs.Views.{views_from};
ghost use Rattle.ng_base.specs.ViewOf.{view_of, views_of};
ghost use Rattle.ng_drawing.specs.Drawing.{class_words};
ghost use Rattle.ng_drawing.specs.Looks.{word_of, words_of, kept_words};
ghost use Rattle.ng_markup.specs.Attributes.{with_once, once_after, spaced, class_value};
ghost use Rattle.ng_value.specs.Snaps.{snap_of};

use indexmap::IndexSet;
use ng_base::lists::Words;
use ng_base::txt::Txt;
use ng_base::value::Value;
use ng_base::view::{View, Views};
use ng_value::classes::push_words;
use ng_value::snapshot::Snap;
use std::alloc::{AllocError, Global};

/// Adds the word that a part of a list of words is.
fn push_word(words: &mut Words, part: &View) -> Result<(), AllocError>
    ensures { OnOk result (words.new ≡ words.old ++ word_of (view_of part.now)) }
{
    match part {
        View::Prim(Value::Text(word)) => words.push(word.copied()?),
        _ => Ok(()),
    }
}

/// The parts of a list.
#[tactic(auto, using(ng_value::proofs::ViewParts::view_parts))]
pub(crate) fn parts_in(list: &Views) -> &[View]
    ensures { views_from (map view_of result.now) ≡ views_of list.now }
{
    list.as_slice()
}

/// Adds the words of a list.
fn push_listed(words: &mut Words, parts: &[View]) -> Result<(), AllocError>
    ensures { OnOk result (words.new ≡ words.old ++ words_of (views_from (map view_of parts.now))) }
{
    for part in parts {
        push_word(words, part)?;
    }
    Ok(())
}

/// Adds the words that a kept snapshot holds.
pub fn push_kept_words(words: &mut Words, kept: &Snap) -> Result<(), AllocError>
    ensures { OnOk result (words.new ≡ words.old ++ kept_words (Some (snap_of kept.now))) }
{
    match kept.view() {
        View::List(list) => push_listed(words, parts_in(list)),
        _ => Ok(()),
    }
}

/// Adds a word, unless it is there.
fn push_once(once: &mut IndexSet<Txt>, word: Txt) -> Result<(), AllocError>
    ensures { OnOk result (once.new.keys ≡ with_once once.old.keys word) }
{
    match once.insert(word) {
        Ok(_) => Ok(()),
        Err(_) => Err(AllocError),
    }
}

/// Each word once, at its first place.
fn each_once(alloc: Global, words: &[Txt]) -> Result<IndexSet<Txt>, AllocError>
    ensures { IfOk result (λ once. once.keys ≡ once_after [] words.now) }
{
    let mut once = IndexSet::new(alloc);
    for word in words {
        push_once(&mut once, word.copied()?)?;
    }
    Ok(once)
}

/// The first word and the others.
fn first_word(words: &[Txt]) -> Option<(&Txt, &[Txt])>
    ensures { MatchOption result (words.now ≡ []) (λ r. words.now ≡ r.0.now ∷ r.1.now) }
{
    words.split_first()
}

/// Words joined by a space.
fn joined_words(alloc: Global, words: &[Txt]) -> Result<Txt, AllocError>
    ensures { IfOk result (λ t. t ≡ spaced words.now) }
{
    let Some((first, others)) = first_word(words) else {
        return Ok(Txt::new(alloc));
    };
    let mut text = first.copied()?;
    for word in others {
        text.push(' ')?;
        text.push_txt(word)?;
    }
    Ok(text)
}

/// The value of a class with these words, each once: it is there if it isn't empty, or if the template has one.
pub fn class_value(alloc: Global, written: bool, words: &Words) -> Result<Option<Txt>, AllocError>
    ensures { IfOk result (λ value. value ≡ class_value written words.now) }
{
    let words = words.as_slice();
    if words.is_empty() {
        return Ok(if written { Some(Txt::new(alloc)) } else { None });
    }
    let once = each_once(alloc, words)?;
    Ok(Some(joined_words(alloc, once.as_slice())?))
}

/// The words of a class: those of the written text, those of its sites, and `ng-hide` where the element is hidden.
fn all_words(alloc: Global, text: &Txt, words: &Words, hidden: bool) -> Result<Words, AllocError>
    ensures { IfOk result (λ all. all ≡ class_words text.now words.now hidden) }
{
    let mut all = Words::new(alloc);
    if push_words(alloc, &mut all, text).is_err() {
        return Err(AllocError);
    }
    for word in words.as_slice() {
        all.push(word.copied()?)?;
    }
    if hidden {
        let mut word = Txt::new(alloc);
        word.push_word("ng-hide")?;
        all.push(word)?;
    }
    Ok(all)
}

/// The value of a class: of the written text, of the words of its sites, and of `ng-hide` where the element is hidden.
pub fn class_text(
    alloc: Global,
    written: bool,
    text: &Txt,
    words: &Words,
    hidden: bool,
) -> Result<Option<Txt>, AllocError>
    ensures { IfOk result (λ value. value ≡ class_value written (class_words text.now words.now hidden)) }
{
    let all = all_words(alloc, text, words, hidden)?;
    class_value(alloc, written, &all)
}
