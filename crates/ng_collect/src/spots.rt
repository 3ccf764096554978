//! Where directives may stand: on the element itself, and on each of its attributes.
ghost use Rattle.std.specs.Prelude.{◌≡◌, ◌++◌, ◌∷◌, [], map, IfOk, OnOk};
ghost use Rattle.ng_html.specs.Attrs.{attr_of};
ghost use Rattle.ng_collect.specs.Spots.{attribute_spot, spots as spots_of, stands_at as stands_at_spot, has_core_directive as has_core_directive_at, is_foreign as is_foreign_at, value_has_hole as value_has_hole_of, is_interpolated as is_interpolated_at, is_left_out_at as is_left_out_spot};

use crate::holes::has_hole;
use crate::names::{begins_on, directive_name, is_core};
use crate::table::{CoreDirective, cloak, named, plain_name, stands_on_elements};
use ng_base::txt::Txt;
use ng_html::attrs::{Attr, Attrs};
use std::alloc::{AllocError, Global};

/// An element, or one of its attributes, with the name of the directive that it picks.
#[derive(Drop)]
pub struct Spot {
    pub name: Txt,
    pub attribute: Option<Attr>,
}

fn attribute_spot(alloc: Global, attr: &Attr) -> Result<Spot, AllocError>
    ensures { IfOk result (λ s. s ≡ attribute_spot (attr_of attr.now)) }
{
    let name = directive_name(alloc, &attr.name)?;
    Ok(Spot {
        name,
        attribute: Some(copied_attr(attr)?),
    })
}

/// A copy of an attribute.
pub(crate) fn copied_attr(attr: &Attr) -> Result<Attr, AllocError>
    ensures { IfOk result (λ a. a ≡ attr.now) }
{
    Ok(Attr {
        name: attr.name.copied()?,
        value: attr.value.copied()?,
    })
}

/// Where directives of an element may stand.
pub(crate) fn spots(alloc: Global, name: &Txt, attrs: &Attrs) -> Result<Vec<Spot>, AllocError>
    ensures { IfOk result (λ v. v.items ≡ spots_of name.now attrs.now) }
{
    let mut spots = Vec::new(alloc);
    spots.push(Spot {
        name: directive_name(alloc, name)?,
        attribute: None,
    })?;
    for attr in attrs.as_slice() {
        spots.push(attribute_spot(alloc, attr)?)?;
    }
    Ok(spots)
}

/// Whether a directive of the core stands here.
pub(crate) fn stands_at(spot: &Spot, directive: CoreDirective) -> bool
    ensures { result ≡ stands_at_spot spot.now directive }
{
    spot.attribute.is_some() || stands_on_elements(directive)
}

fn has_core_directive(spot: &Spot) -> bool
    ensures { result ≡ has_core_directive_at spot.now }
{
    match named(&spot.name) {
        None => false,
        Some(directive) => stands_at(spot, directive),
    }
}

/// Whether it has a name of the core that this profile does not have here.
fn is_foreign(spot: &Spot) -> bool
    ensures { result ≡ is_foreign_at spot.now }
{
    is_core(&spot.name)
        && !cloak(&spot.name)
        && !plain_name(&spot.name)
        && !has_core_directive(spot)
}

fn value_has_hole(alloc: Global, attribute: &Option<Attr>) -> Result<bool, AllocError>
    ensures { IfOk result (λ b. b ≡ value_has_hole_of attribute.now) }
{
    match attribute {
        None => Ok(false),
        Some(attr) => has_hole(alloc, &attr.value),
    }
}

/// Whether it is an attribute whose value is interpolated.
pub(crate) fn is_interpolated(alloc: Global, spot: &Spot) -> Result<bool, AllocError>
    ensures { IfOk result (λ b. b ≡ is_interpolated_at spot.now) }
{
    if is_core(&spot.name) && !plain_name(&spot.name) {
        return Ok(false);
    }
    value_has_hole(alloc, &spot.attribute)
}

/// Whether it is left out of this profile.
pub(crate) fn is_left_out_at(alloc: Global, spot: &Spot) -> Result<bool, AllocError>
    ensures { IfOk result (λ b. b ≡ is_left_out_spot spot.now) }
{
    if is_foreign(spot) {
        return Ok(true);
    }
    if begins_on(&spot.name) {
        return is_interpolated(alloc, spot);
    }
    Ok(false)
}
