//! Class words.
ghost use Rattle.std.specs.Prelude.{◌≡◌, ◌++◌, [], map, length, OnOk, IfErr};
ghost use Rattle.ng_base.specs.Faults.{is_memory};
ghost use Rattle.ng_base.specs.Meets.{Meets};
ghost use Rattle.ng_base.specs.Views.{views_from, fields_from};
ghost use Rattle.ng_base.specs.ViewOf.{view_of, field_of};
ghost use Rattle.ng_base.specs.declared.fault.Memory.TheVariants.{Refused};
ghost use Rattle.ng_language.specs.Texts.{with_word, words_in, words_of_value, words_of, words_of_all, words_of_names, class_words};
ghost use Rattle.ng_language.specs.Views.{ViewStands};

use crate::operators::truthy;
use crate::parts::{fields_in, first_field, first_view, views_in};
use crate::unfolding::unfolded;
use ng_base::fault::{Fault, Memory};
use ng_base::heap::Heap;
use ng_base::lists::Words;
use ng_base::reader::Plain;
use ng_base::txt::Txt;
use ng_base::value::Value;
use ng_base::view::View;
use ng_language::unfolding::Mode;
use std::alloc::Global;

/// Adds a word that has characters.
fn push_word(words: &mut Words, word: Txt) -> Result<(), Memory>
    ensures words { OnOk result (words.new ≡ words.old ++ with_word word []) }
    ensures refused { IfErr result (λ e. e ≡ Refused) }
{
    if Plain::new(word.as_str()).first().is_none() {
        return Ok(());
    }
    words.push(word)?;
    Ok(())
}

/// Adds the words of a text.
pub fn push_words(alloc: Global, words: &mut Words, t: &Txt) -> Result<(), Memory>
    ensures words { OnOk result (words.new ≡ words.old ++ words_in [] t.now) }
    ensures refused { IfErr result (λ e. e ≡ Refused) }
{
    let mut word = Txt::new(alloc);
    let mut reader = Plain::new(t.as_str());
    while let Some(c) = reader.next() {
        if c.is_ascii_whitespace() {
            push_word(words, word)?;
            word = Txt::new(alloc);
        } else {
            word.push(c)?;
        }
    }
    push_word(words, word)
}

fn push_words_of_value(alloc: Global, words: &mut Words, v: &Value) -> Result<(), Memory>
    ensures words { OnOk result (words.new ≡ words.old ++ words_of_value v.now) }
    ensures refused { IfErr result (λ e. e ≡ Refused) }
{
    match v {
        Value::Text(t) => push_words(alloc, words, t),
        _ => Ok(()),
    }
}

/// Adds the words of a view: of a record its names with true values.
#[cycle(words)]
fn push_words_of(alloc: Global, words: &mut Words, v: &View) -> Result<(), Memory>
    ensures words { OnOk result (words.new ≡ words.old ++ words_of (view_of v.now)) }
    ensures refused { IfErr result (λ e. e ≡ Refused) }
{
    match v {
        View::Prim(v) => push_words_of_value(alloc, words, v),
        View::List(views) => push_words_of_all(alloc, words, views_in(views)),
        View::Rec(fields) => push_names(alloc, words, fields_in(fields)),
    }
}

#[cycle(words)]
fn push_words_of_all(alloc: Global, words: &mut Words, views: &[View]) -> Result<(), Memory>
    ensures words { OnOk result (words.new ≡ words.old ++ words_of_all (views_from (map view_of views.now))) }
    ensures refused { IfErr result (λ e. e ≡ Refused) }
{
    let mut left = views;
    while let Some((v, rest)) = first_view(left) {
        push_words_of(alloc, words, v)?;
        left = rest;
    }
    Ok(())
}

/// Adds the words of names with true values.
fn push_names(alloc: Global, words: &mut Words, fields: &[(Txt, View)]) -> Result<(), Memory>
    ensures words { OnOk result (words.new ≡ words.old ++ words_of_names (fields_from (map field_of fields.now))) }
    ensures refused { IfErr result (λ e. e ≡ Refused) }
{
    let mut left = fields;
    while let Some((f, rest)) = first_field(left) {
        if truthy(&f.1) {
            push_words(alloc, words, &f.0)?;
        }
        left = rest;
    }
    Ok(())
}

/// The class words of a value: a text's words, an object's names with true values, an array's parts.
pub fn class_words<H: Heap>(alloc: Global, h: &H, v: &View) -> Result<Words, Fault>
    requires { ViewStands (length (H.objects h.now)) (view_of v.now) }
    ensures { Meets is_memory (class_words (H.objects h.now) (view_of v.now)) result }
{
    let view = unfolded(alloc, h, Mode::Words, v)?;
    let mut words = Words::new(alloc);
    push_words_of(alloc, &mut words, &view)?;
    Ok(words)
}
