//! What nodes are drawn from: the pieces of a template with the keys of an instance.
ghost use Rattle.std.specs.Prelude.{◌≡◌, ◌++◌, map, true, IfOk, IfErr};
ghost use Rattle.ng_base.specs.Faults.{is_memory};
ghost use Rattle.ng_dom.specs.Drawing.{joined};
ghost use Rattle.ng_parts.specs.PieceOf.{piece_of as seen_piece};
ghost use Rattle.ng_parts.specs.AttributeOf.{hiding_of as seen_hiding, class_of as seen_class, value_of, attribute_of};
ghost use Rattle.ng_build.specs.Seen.{hiding_of, class_of, drawn_value_of, drawn_of};
ghost use Rattle.ng_build.specs.Building.{unset};
ghost use Rattle.ng_build.specs.Shape.{key_on, keys_by, linked_piece, linked_pieces, linked_hiding, linked_class, linked_value, linked_values};

use ng_base::fault::{Fault, Memory};
use ng_base::name::Serial;
use ng_base::path::{Key, Path};
use ng_base::txt::Txt;
use ng_dom::record::{Drawn, DrawnClass, DrawnValue, Hiding, Piece};
use ng_parts::{
    Attribute, AttributeValue, ClassValue, Hiding as TemplateHiding, Piece as TemplatePiece,
};
use std::alloc::{AllocError, Global};

/// The key of a number on a scope's path.
pub fn key_on(path: &Path, serial: u64) -> Result<Key, AllocError>
    ensures { IfOk result (λ k. k ≡ key_on path.now serial) }
{
    Ok(Key {
        path: path.copied()?,
        serial: Serial(serial),
    })
}

/// The same key again.
pub fn copied_key(key: &Key) -> Result<Key, AllocError>
    ensures { IfOk result (λ k. k ≡ key.now) }
{
    key_on(&key.path, key.serial.0)
}

/// The key of a site by its number.
pub(crate) fn key_at(keys: &[Key], n: u64) -> Result<Key, Memory>
    ensures { IfOk result (λ k. k ≡ keys_by keys.now n) }
{
    match keys.get(n as usize) {
        None => Err(Memory::Worn),
        Some(key) => Ok(copied_key(key)?),
    }
}

/// A piece with the key of its hole.
fn copied_piece(keys: &[Key], piece: &TemplatePiece) -> Result<Piece, Fault>
    ensures piece { IfOk result (λ p. p ≡ linked_piece (keys_by keys.now) (seen_piece piece.now)) }
    ensures faults { IfErr result (λ e. is_memory e ≡ true) }
{
    match piece {
        TemplatePiece::Word(word) => Ok(Piece::Words(word.copied()?)),
        TemplatePiece::Hole(n) => Ok(Piece::Hole(key_at(keys, *n as u64)?)),
    }
}

/// Pieces with the keys of their holes.
pub(crate) fn copied_pieces(
    alloc: Global,
    keys: &[Key],
    pieces: &[TemplatePiece],
) -> Result<Vec<Piece>, Fault>
    ensures pieces { IfOk result (λ v. v.items ≡ linked_pieces (keys_by keys.now) (map seen_piece pieces.now)) }
    ensures faults { IfErr result (λ e. is_memory e ≡ true) }
{
    let mut copy = Vec::with_capacity(alloc, pieces.len())?;
    for piece in pieces {
        copy.push(copied_piece(keys, piece)?)?;
    }
    Ok(copy)
}

/// The keys of sites.
fn copied_keys(alloc: Global, keys: &[Key], numbers: &[u32]) -> Result<Vec<Key>, Memory>
    ensures { IfOk result (λ v. v.items ≡ map (keys_by keys.now) numbers.now) }
{
    let mut all = Vec::with_capacity(alloc, numbers.len())?;
    for n in numbers {
        all.push(key_at(keys, *n as u64)?)?;
    }
    Ok(all)
}

/// What hides an element, with the key of its site.
fn copied_hiding(keys: &[Key], hiding: &TemplateHiding) -> Result<Hiding, Memory>
    ensures { IfOk result (λ h. hiding_of h ≡ linked_hiding (keys_by keys.now) (seen_hiding hiding.now)) }
{
    match hiding {
        TemplateHiding::WhileTrue(n) => Ok(Hiding::WhileTrue(key_at(keys, *n as u64)?)),
        TemplateHiding::WhileFalse(n) => Ok(Hiding::WhileFalse(key_at(keys, *n as u64)?)),
    }
}

/// All that hides an element, with the keys of its sites.
fn copied_hidings(
    alloc: Global,
    keys: &[Key],
    hidings: &[TemplateHiding],
) -> Result<Vec<Hiding>, Memory>
    ensures { IfOk result (λ v. map hiding_of v.items ≡ map (linked_hiding (keys_by keys.now)) (map seen_hiding hidings.now)) }
{
    let mut copy = Vec::with_capacity(alloc, hidings.len())?;
    for hiding in hidings {
        copy.push(copied_hiding(keys, hiding)?)?;
    }
    Ok(copy)
}

/// What a class is drawn from, with the keys of its sites.
fn copied_class(alloc: Global, keys: &[Key], class: &ClassValue) -> Result<DrawnClass, Fault>
    ensures class { IfOk result (λ c. class_of c ≡ linked_class (keys_by keys.now) (seen_class class.now)) }
    ensures faults { IfErr result (λ e. is_memory e ≡ true) }
{
    let pieces = copied_pieces(alloc, keys, class.pieces.as_slice())?;
    let words = copied_keys(alloc, keys, class.words.as_slice())?;
    let hidings = copied_hidings(alloc, keys, class.hidings.as_slice())?;
    Ok(DrawnClass {
        written: class.written,
        pieces,
        words,
        hidings,
    })
}

/// What an attribute is drawn from, with the keys of its holes.
fn copied_value(alloc: Global, keys: &[Key], value: &AttributeValue) -> Result<DrawnValue, Fault>
    ensures value { IfOk result (λ v. drawn_value_of v ≡ linked_value (keys_by keys.now) (value_of value.now)) }
    ensures faults { IfErr result (λ e. is_memory e ≡ true) }
{
    match value {
        AttributeValue::Always(pieces) => {
            let copy = copied_pieces(alloc, keys, pieces.as_slice())?;
            Ok(DrawnValue::Always(copy))
        }
        AttributeValue::UnlessEmpty(pieces) => {
            let copy = copied_pieces(alloc, keys, pieces.as_slice())?;
            Ok(DrawnValue::UnlessEmpty(copy))
        }
        AttributeValue::Flag(word, n) => {
            let key = key_at(keys, *n as u64)?;
            Ok(DrawnValue::Flag(word.copied()?, key))
        }
        AttributeValue::Classes(class) => {
            Ok(DrawnValue::Classes(copied_class(alloc, keys, class)?))
        }
    }
}

/// An attribute with the keys of its holes.
fn copied_attribute(alloc: Global, keys: &[Key], attribute: &Attribute) -> Result<Drawn, Fault>
    ensures attribute { IfOk result (λ a. drawn_of a ≡ ((attribute_of attribute.now).0, linked_value (keys_by keys.now) (attribute_of attribute.now).1)) }
    ensures faults { IfErr result (λ e. is_memory e ≡ true) }
{
    let value = copied_value(alloc, keys, &attribute.value)?;
    let name = attribute.name.copied()?;
    Ok(Drawn { name, value })
}

/// Attributes with the keys of their holes.
pub(crate) fn copied_attributes(
    alloc: Global,
    keys: &[Key],
    attributes: &[Attribute],
) -> Result<Vec<Drawn>, Fault>
    ensures attributes { IfOk result (λ v. map drawn_of v.items ≡ linked_values (keys_by keys.now) (map attribute_of attributes.now)) }
    ensures faults { IfErr result (λ e. is_memory e ≡ true) }
{
    let mut copy = Vec::with_capacity(alloc, attributes.len())?;
    for attribute in attributes {
        copy.push(copied_attribute(alloc, keys, attribute)?)?;
    }
    Ok(copy)
}

/// Adds words at the end. The first are shared, for as long as nothing is added to them.
pub fn add_words(text: &mut Txt, words: &Txt) -> Result<(), AllocError>
    ensures { IfOk result (λ _. text.new ≡ text.old ++ words.now) }
{
    if words.is_empty() {
        Ok(())
    } else if text.is_empty() {
        *text = words.copied()?;
        Ok(())
    } else {
        text.push_txt(words)
    }
}

/// The text of pieces where nothing is kept yet.
pub(crate) fn unset_text(alloc: Global, pieces: &[Piece]) -> Result<Txt, AllocError>
    ensures { IfOk result (λ t. t ≡ joined unset pieces.now) }
{
    let mut text = Txt::new(alloc);
    for piece in pieces {
        match piece {
            Piece::Words(words) => add_words(&mut text, words)?,
            Piece::Hole(_) => {}
        }
    }
    Ok(text)
}
