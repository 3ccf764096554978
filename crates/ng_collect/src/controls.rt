//! The elements on which `ng-model` stands (API: input; API: textarea).
ghost use Rattle.std.specs.Prelude.{◌≡◌, option_copied, IfOk};
ghost use Rattle.ng_collect.specs.Controls.{type_of as type_in, is_input_type as is_listed, is_typed as is_typed_of, is_control as is_control_of};

use ng_base::casing::lower;
use ng_base::txt::Txt;
use ng_html::attrs::Attrs;
use std::alloc::{AllocError, Global};

/// The value of the attribute `type`.
pub fn type_of(attrs: &Attrs) -> Option<&Txt>
    ensures { option_copied result ≡ type_in attrs.now }
{
    for attr in attrs.as_slice() {
        if attr.name.is_word("type") {
            return Some(&attr.value);
        }
    }
    None
}

#[tactic(auto, unfolding(crate::specs::Controls::is_input_type))]
fn is_input_type(name: &Txt) -> bool
    ensures { result ≡ is_listed name.now }
{
    name.is_word("text")
        || name.is_word("search")
        || name.is_word("tel")
        || name.is_word("password")
        || name.is_word("number")
        || name.is_word("checkbox")
}

/// Whether an input of this type is a control.
fn is_typed(alloc: Global, name: Option<&Txt>) -> Result<bool, AllocError>
    ensures { IfOk result (λ b. b ≡ is_typed_of (option_copied name.entry)) }
{
    match name {
        None => Ok(true),
        Some(name) => Ok(is_input_type(&lower(alloc, name)?)),
    }
}

/// Whether an element is a control.
pub(crate) fn is_control(alloc: Global, name: &Txt, attrs: &Attrs) -> Result<bool, AllocError>
    ensures { IfOk result (λ b. b ≡ is_control_of name.now attrs.now) }
{
    if name.is_word("textarea") {
        return Ok(true);
    }
    if !name.is_word("input") {
        return Ok(false);
    }
    is_typed(alloc, type_of(attrs))
}
