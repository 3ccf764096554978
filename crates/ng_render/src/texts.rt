//! Texts and attributes, joined from their pieces.
ghost use Rattle.std.specs.Prelude.{◌≡◌, [], Some, IfOk, OnOk};
ghost use Rattle.ng_base.specs.Faults.{is_memory};
ghost use Rattle.ng_base.specs.Meets.{Gives};
ghost use Rattle.ng_drawing.specs.Drawing.{render_piece, render_pieces, render_value, render_attributes};
ghost use Rattle.ng_drawing.specs.Template.{hole, flag};
ghost use Rattle.ng_markup.specs.Attributes.{if_any as if_any_of, with_value};
ghost use Rattle.ng_parts.specs.AttributeOf.{value_of};
ghost use Rattle.ng_parts.specs.PieceOf.{piece_of};
ghost use Rattle.ng_render.specs.OverOf.{now_over, Stands};

use crate::classes::class_now;
use crate::over::Over;
use crate::seen::{is_true_at, text_at};
use crate::sites::shown_now;
use ng_base::fault::Fault;
use ng_base::txt::Txt;
use ng_html::attrs::Attrs;
use ng_parts::{AttributeValue, Attributes, Piece, Pieces};
use std::alloc::{AllocError, Global};
use std::collections::BTreeMap;

/// What the hole of a site shows.
pub(crate) fn hole_text(over: &Over<'_>, n: u32) -> Result<Txt, Fault>
    requires { Stands over.now }
    ensures { Gives is_memory Some (render_piece (now_over over.now) (hole n)) result }
{
    let shown = shown_now(over, n)?;
    Ok(text_at(over, n, &shown)?)
}

/// What a piece shows.
fn piece_text(over: &Over<'_>, piece: &Piece) -> Result<Txt, Fault>
    requires { Stands over.now }
    ensures { Gives is_memory Some (render_piece (now_over over.now) (piece_of piece.now)) result }
{
    match piece {
        Piece::Word(word) => Ok(word.copied()?),
        Piece::Hole(number) => hole_text(over, *number),
    }
}

/// What pieces show, one after the other.
fn joined_text(over: &Over<'_>, pieces: &Pieces) -> Result<Txt, Fault>
    requires { Stands over.now }
    ensures { Gives is_memory Some (render_pieces (now_over over.now) pieces.now) result }
{
    let mut text = Txt::new(over.alloc);
    for piece in pieces.as_slice() {
        let shown = piece_text(over, piece)?;
        text.push_txt(&shown)?;
    }
    Ok(text)
}

/// What pieces show. A single piece shares its text.
pub(crate) fn pieces_text(over: &Over<'_>, pieces: &Pieces) -> Result<Txt, Fault>
    requires { Stands over.now }
    ensures { Gives is_memory Some (render_pieces (now_over over.now) pieces.now) result }
{
    let all = pieces.as_slice();
    if all.len() == 1 {
        return piece_text(over, &all[0]);
    }
    joined_text(over, pieces)
}

/// A text, unless it is empty.
fn if_any(text: Txt) -> Option<Txt>
    ensures { result ≡ if_any_of text }
{
    if text.is_empty() { None } else { Some(text) }
}

/// A word, where a site is seen as true.
fn flag_text(over: &Over<'_>, word: &Txt, n: u32) -> Result<Option<Txt>, Fault>
    requires { Stands over.now }
    ensures { Gives is_memory Some (render_value (now_over over.now) (flag word.now n)) result }
{
    let shown = shown_now(over, n)?;
    if is_true_at(over, n, &shown) {
        Ok(Some(word.copied()?))
    } else {
        Ok(None)
    }
}

/// What an attribute is.
fn value_text(over: &Over<'_>, value: &AttributeValue) -> Result<Option<Txt>, Fault>
    requires { Stands over.now }
    ensures { Gives is_memory Some (render_value (now_over over.now) (value_of value.now)) result }
{
    match value {
        AttributeValue::Always(pieces) => Ok(Some(pieces_text(over, pieces)?)),
        AttributeValue::UnlessEmpty(pieces) => Ok(if_any(pieces_text(over, pieces)?)),
        AttributeValue::Flag(word, n) => flag_text(over, word, *n),
        AttributeValue::Classes(class) => class_now(over, class),
    }
}

/// An attribute has this value, or is not there.
fn set(
    attributes: &mut BTreeMap<Txt, Txt>,
    name: &Txt,
    value: Option<Txt>,
) -> Result<(), AllocError>
    ensures { OnOk result (attributes.new.entries ≡ with_value name.now value attributes.old.entries) }
{
    match value {
        None => {
            let _ = attributes.remove(name);
        }
        Some(text) => {
            let key = name.copied()?;
            let _ = attributes.insert(key, text)?;
        }
    }
    Ok(())
}

/// The attributes of an element by name, set one after another.
fn set_all(over: &Over<'_>, attributes: &Attributes) -> Result<BTreeMap<Txt, Txt>, Fault>
    requires { Stands over.now }
    ensures { Gives is_memory (λ ats. Some ats.entries) (render_attributes (now_over over.now) attributes.now []) result }
{
    let mut made = BTreeMap::new(over.alloc);
    for attribute in attributes.as_slice() {
        let value = value_text(over, &attribute.value)?;
        set(&mut made, &attribute.name, value)?;
    }
    Ok(made)
}

/// Attributes in order of their names.
fn listed(alloc: Global, made: BTreeMap<Txt, Txt>) -> Result<Attrs, AllocError>
    ensures { IfOk result (λ ats. ats ≡ made.entries) }
{
    let mut attrs = Attrs::new(alloc);
    for (name, value) in made {
        attrs.push(name, value)?;
    }
    Ok(attrs)
}

/// The attributes of an element.
pub(crate) fn attributes_text(over: &Over<'_>, values: &Attributes) -> Result<Attrs, Fault>
    requires { Stands over.now }
    ensures { Gives is_memory Some (render_attributes (now_over over.now) values.now []) result }
{
    let made = set_all(over, values)?;
    Ok(listed(over.alloc, made)?)
}
