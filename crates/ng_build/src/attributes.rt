//! The attributes of an element, set one after another (API: `$compile`, Attributes).
ghost use Rattle.std.specs.Prelude.{◌≡◌, map, IfOk, OnOk};
ghost use Rattle.ng_dom.specs.Drawing.{classes, drawn_value, drawn_attributes};
ghost use Rattle.ng_build.specs.Building.{unset};
ghost use Rattle.ng_build.specs.Seen.{class_of, drawn_value_of, drawn_of};
ghost use Rattle.ng_markup.specs.Attributes.{if_any as if_any_of, with_value};

use crate::copying::unset_text;
use ng_base::lists::Words;
use ng_base::txt::Txt;
use ng_dom::record::{Drawn, DrawnClass, DrawnValue};
use ng_drawing::classes::class_text;
use std::alloc::{AllocError, Global};
use std::collections::BTreeMap;

/// A text, unless it is empty.
pub fn if_any(text: Txt) -> Option<Txt>
    ensures { result ≡ if_any_of text }
{
    if text.is_empty() { None } else { Some(text) }
}

/// An attribute has this value, or is not there.
pub fn set(
    attributes: &mut BTreeMap<Txt, Txt>,
    name: &Txt,
    value: Option<Txt>,
) -> Result<(), AllocError>
    ensures { OnOk result (attributes.new.entries ≡ with_value name.now value attributes.old.entries) }
{
    match value {
        None => {
            let _ = attributes.remove(name);
        }
        Some(text) => {
            let key = name.copied()?;
            let _ = attributes.insert(key, text)?;
        }
    }
    Ok(())
}

/// What a class is while nothing is kept yet: the words that are written.
fn unset_class(alloc: Global, class: &DrawnClass) -> Result<Option<Txt>, AllocError>
    ensures { IfOk result (λ t. t ≡ drawn_value unset (classes (class_of class.now))) }
{
    let text = unset_text(alloc, class.pieces.as_slice())?;
    let words = Words::new(alloc);
    class_text(alloc, class.written, &text, &words, false)
}

/// What an attribute is while nothing is kept yet.
fn unset_value(alloc: Global, value: &DrawnValue) -> Result<Option<Txt>, AllocError>
    ensures { IfOk result (λ t. t ≡ drawn_value unset (drawn_value_of value.now)) }
{
    match value {
        DrawnValue::Always(pieces) => Ok(Some(unset_text(alloc, pieces.as_slice())?)),
        DrawnValue::UnlessEmpty(pieces) => Ok(if_any(unset_text(alloc, pieces.as_slice())?)),
        DrawnValue::Flag(_, _) => Ok(None),
        DrawnValue::Classes(class) => unset_class(alloc, class),
    }
}

/// The attributes of an element while nothing is kept yet.
pub(crate) fn unset_attributes(
    alloc: Global,
    drawn: &[Drawn],
) -> Result<BTreeMap<Txt, Txt>, AllocError>
    ensures { IfOk result (λ ats. ats.entries ≡ drawn_attributes unset (map drawn_of drawn.now)) }
{
    let mut attributes = BTreeMap::new(alloc);
    for one in drawn {
        let value = unset_value(alloc, &one.value)?;
        set(&mut attributes, &one.name, value)?;
    }
    Ok(attributes)
}
