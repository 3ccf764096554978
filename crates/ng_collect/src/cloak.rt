//! The attributes of an element that stay: `ng-cloak` goes (API: ngCloak).
ghost use Rattle.std.specs.Prelude.{◌≡◌, ◌++◌, ◌∷◌, [], IfOk, IfErr, OnOk};
ghost use Rattle.ng_base.specs.declared.fault.Memory.TheVariants.{Refused};
ghost use Rattle.ng_html.specs.Attrs.{attr_of};
ghost use Rattle.ng_collect.specs.Cloak.{kept_word, is_nil, uncloaked_from, uncloaked as uncloaked_of, kept_value as kept_value_of, kept_attribute, kept_attributes};

use crate::names::directive_name;
use crate::table::cloak;
use ng_base::fault::Memory;
use ng_base::reader::Plain;
use ng_base::txt::Txt;
use ng_html::attrs::{Attr, Attrs};
use std::alloc::{AllocError, Global};

/// Whether no character stands in it.
fn nil(word: &Txt) -> bool
    ensures { result ≡ is_nil word.now }
{
    Plain::new(word.as_str()).first().is_none()
}

/// Adds a word of a class after its white space, unless it is `ng-cloak`.
fn push_word(into: &mut Txt, space: &Txt, word: &Txt) -> Result<(), AllocError>
    ensures { OnOk result (into.new ≡ into.old ++ kept_word space.now word.now) }
{
    if word.is_word("ng-cloak") {
        return Ok(());
    }
    into.push_txt(space)?;
    into.push_txt(word)
}

/// A text of one character.
fn one(alloc: Global, c: char) -> Result<Txt, AllocError>
    ensures { IfOk result (λ t. t ≡ c ∷ []) }
{
    let mut text = Txt::new(alloc);
    text.push(c)?;
    Ok(text)
}

/// A class without the word `ng-cloak`.
fn uncloaked(alloc: Global, class: &Txt) -> Result<Txt, AllocError>
    ensures { IfOk result (λ t. t ≡ uncloaked_of class.now) }
{
    let mut kept = Txt::new(alloc);
    let mut space = Txt::new(alloc);
    let mut word = Txt::new(alloc);
    let mut reader = Plain::new(class.as_str());
    while let Some((c, rest)) = reader.first() {
        if !c.is_ascii_whitespace() {
            word.push(c)?;
        } else if nil(&word) {
            space.push(c)?;
        } else {
            push_word(&mut kept, &space, &word)?;
            space = one(alloc, c)?;
            word = Txt::new(alloc);
        }
        reader = rest;
    }
    push_word(&mut kept, &space, &word)?;
    Ok(kept)
}

/// The value that an attribute keeps.
pub fn kept_value(alloc: Global, attr: &Attr) -> Result<Txt, AllocError>
    ensures { IfOk result (λ t. t ≡ kept_value_of (attr_of attr.now)) }
{
    if attr.name.is_word("class") {
        return uncloaked(alloc, &attr.value);
    }
    attr.value.copied()
}

/// Adds an attribute, unless it is `ng-cloak`.
fn push_kept(alloc: Global, into: &mut Attrs, attr: &Attr) -> Result<(), AllocError>
    ensures { OnOk result (into.new ≡ into.old ++ kept_attribute (attr_of attr.now)) }
{
    if cloak(&directive_name(alloc, &attr.name)?) {
        return Ok(());
    }
    let value = kept_value(alloc, attr)?;
    into.push(attr.name.copied()?, value)
}

/// The attributes that stay: without `ng-cloak`, and without that word in a class.
pub fn kept_attrs(alloc: Global, attrs: &Attrs) -> Result<Attrs, Memory>
    ensures kept { IfOk result (λ kept. kept ≡ kept_attributes attrs.now) }
    ensures refused { IfErr result (λ e. e ≡ Refused) }
{
    let mut kept = Attrs::new(alloc);
    for attr in attrs.as_slice() {
        push_kept(alloc, &mut kept, attr)?;
    }
    Ok(kept)
}
