//! What kind of control an element is (API: input; API: textarea).
ghost use Rattle.std.specs.Prelude.{◌≡◌, option_copied, IfOk};
ghost use Rattle.ng_collect.specs.Sorted.{of_core};
ghost use Rattle.ng_directives.specs.Kinds.{is_trim as is_trim_of, is_trim_off as is_trim_off_of, trims as trims_of, kind_named as kind_named_of, input_kind as input_kind_of, control_kind as control_kind_of};

use crate::directives::text_of;
use ng_base::casing::lower;
use ng_base::txt::Txt;
use ng_collect::{CoreDirective, Directive, Pick, type_of};
use ng_control::ControlKind;
use ng_html::attrs::Attrs;
use std::alloc::{AllocError, Global};

fn is_trim(d: CoreDirective) -> bool
    ensures { result ≡ is_trim_of d }
{
    match d {
        CoreDirective::Trim => true,
        _ => false,
    }
}

/// Whether a directive is `ng-trim`.
fn trims_by(d: Directive) -> bool
    ensures { result ≡ of_core is_trim_of d }
{
    match d {
        Directive::Core(core) => is_trim(core),
        Directive::Interpolated => false,
        Directive::User(_) => false,
    }
}

/// Whether a directive is `ng-trim="false"`.
fn is_trim_off(alloc: Global, pick: &Pick) -> Result<bool, AllocError>
    ensures { IfOk result (λ b. b ≡ is_trim_off_of pick.now) }
{
    if !trims_by(pick.directive) {
        return Ok(false);
    }
    let text = text_of(alloc, &pick.attribute)?;
    Ok(text.is_word("false"))
}

/// Whether a control with these directives trims.
fn trims(alloc: Global, picks: &[Pick]) -> Result<bool, AllocError>
    ensures { IfOk result (λ b. b ≡ trims_of picks.now) }
{
    for pick in picks {
        if is_trim_off(alloc, pick)? {
            return Ok(false);
        }
    }
    Ok(true)
}

/// The kind of an input of this type.
fn kind_named(trim: bool, name: &Txt) -> ControlKind
    ensures { result ≡ kind_named_of trim name.now }
{
    if name.is_word("number") {
        ControlKind::Number
    } else if name.is_word("checkbox") {
        ControlKind::Checkbox
    } else if name.is_word("password") {
        ControlKind::Text { trim: false }
    } else {
        ControlKind::Text { trim }
    }
}

/// The kind of an input, by its attribute `type`.
fn input_kind(alloc: Global, trim: bool, name: Option<&Txt>) -> Result<ControlKind, AllocError>
    ensures { IfOk result (λ k. k ≡ input_kind_of trim (option_copied name.entry)) }
{
    match name {
        None => Ok(ControlKind::Text { trim }),
        Some(name) => Ok(kind_named(trim, &lower(alloc, name)?)),
    }
}

/// The kind of a control with these attributes and directives.
pub fn control_kind(
    alloc: Global,
    name: &Txt,
    attrs: &Attrs,
    picks: &[Pick],
) -> Result<ControlKind, AllocError>
    ensures { IfOk result (λ k. k ≡ control_kind_of name.now attrs.now picks.now) }
{
    let trim = trims(alloc, picks)?;
    if name.is_word("textarea") {
        return Ok(ControlKind::Text { trim });
    }
    input_kind(alloc, trim, type_of(attrs))
}
