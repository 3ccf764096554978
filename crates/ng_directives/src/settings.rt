//! What the values of a directive set: attributes, what the class is made of, and the contents (API: ngHref, ngClass, ngShow, ngBind, ngSwitch).
ghost use Rattle.std.specs.Prelude.{◌≡◌, ◌++◌, option_map, IfOk, OnOk};
ghost use Rattle.ng_parts.specs.AttributeOf.{class_of};
ghost use Rattle.ng_directives.specs.Manners.{target_of};
ghost use Rattle.ng_control.specs.declared.kind.ControlKind.TheVariants.{Number, Checkbox};
ghost use Rattle.ng_directives.specs.declared.manners.Setting.TheVariants.{Interpolates};
ghost use Rattle.ng_directives.specs.Directives.{name_on, set_by, class_by, bound_by, switch_by, control_attribute, control_setting, with_states as with_states_of, class_setting, is_classed as is_classed_by};
ghost use Rattle.ng_parts.specs.Seen.{control_of};

use crate::directives::name_of;
use crate::manners::{Setting, target};
use ng_base::txt::Txt;
use ng_collect::Pick;
use ng_control::ControlKind;
use ng_parts::acts::Modelled;
use ng_parts::classes::{ClassValue, Hiding};
use ng_parts::pieces::{AttributeValue, Attributes, Piece, Pieces};
use std::alloc::{AllocError, Global};

/// Sets the attributes of a directive, where its first hole has the number n.
pub fn set(
    alloc: Global,
    attributes: &mut Attributes,
    setting: Setting,
    pick: &Pick,
    n: u32,
    pieces: &Pieces,
) -> Result<(), AllocError>
    ensures { OnOk result (attributes.new ≡ attributes.old ++ set_by setting (name_on pick.now.attribute) (target_of pick.now.directive) n pieces.now) }
{
    let own = name_of(alloc, &pick.attribute)?;
    let target = target(alloc, pick.directive)?;
    match setting {
        Setting::Interpolates => {
            attributes.push(own, AttributeValue::Always(pieces.copied(alloc)?))
        }
        Setting::Links => {
            attributes.push(own, AttributeValue::Always(pieces.copied(alloc)?))?;
            attributes.push(target, AttributeValue::UnlessEmpty(pieces.copied(alloc)?))
        }
        Setting::Switches => {
            let word = target.copied()?;
            attributes.push(target, AttributeValue::Flag(word, n))
        }
        Setting::Binds => Ok(()),
        Setting::Classes => Ok(()),
        Setting::Shows => Ok(()),
        Setting::Hides => Ok(()),
        Setting::Chooses => Ok(()),
        Setting::Names => Ok(()),
    }
}

/// The pieces of an interpolated class stand in place of the text that was written.
fn write_class(
    alloc: Global,
    class: &mut ClassValue,
    pick: &Pick,
    n: u32,
    pieces: &Pieces,
) -> Result<(), AllocError>
    ensures { OnOk result (class_of class.new ≡ class_by Interpolates (name_on pick.now.attribute) n pieces.now (class_of class.old)) }
{
    let own = name_of(alloc, &pick.attribute)?;
    if own.is_word("class") {
        class.pieces = pieces.copied(alloc)?;
    }
    Ok(())
}

/// Adds what a directive gives to the class.
pub fn add_to_class(
    alloc: Global,
    class: &mut ClassValue,
    setting: Setting,
    pick: &Pick,
    n: u32,
    pieces: &Pieces,
) -> Result<(), AllocError>
    ensures { OnOk result (class_of class.new ≡ class_by setting (name_on pick.now.attribute) n pieces.now (class_of class.old)) }
{
    match setting {
        Setting::Interpolates => write_class(alloc, class, pick, n, pieces),
        Setting::Links => Ok(()),
        Setting::Switches => Ok(()),
        Setting::Binds => Ok(()),
        Setting::Classes => Ok(class.words.push(n)?),
        Setting::Shows => Ok(class.hidings.push(Hiding::WhileFalse(n))?),
        Setting::Hides => Ok(class.hidings.push(Hiding::WhileTrue(n))?),
        Setting::Chooses => Ok(()),
        Setting::Names => Ok(()),
    }
}

/// The site whose text stands in place of the children, after one directive more.
pub fn bound_after(setting: Setting, n: u32, bound: Option<u32>) -> Option<u32>
    ensures { result ≡ bound_by setting n bound }
{
    match setting {
        Setting::Interpolates => bound,
        Setting::Links => bound,
        Setting::Switches => bound,
        Setting::Binds => Some(n),
        Setting::Classes => bound,
        Setting::Shows => bound,
        Setting::Hides => bound,
        Setting::Chooses => bound,
        Setting::Names => bound,
    }
}

/// The site that chooses among the cases in the element, after one directive more.
pub fn switch_after(setting: Setting, n: u32, switch: Option<u32>) -> Option<u32>
    ensures { result ≡ switch_by setting n switch }
{
    match setting {
        Setting::Interpolates => switch,
        Setting::Links => switch,
        Setting::Switches => switch,
        Setting::Binds => switch,
        Setting::Classes => switch,
        Setting::Shows => switch,
        Setting::Hides => switch,
        Setting::Chooses => Some(n),
        Setting::Names => switch,
    }
}

/// Whether a directive gives the element's class words, or hides the element.
fn is_classed(class: &ClassValue) -> bool
    ensures { result ≡ is_classed_by (class_of class.now) }
{
    !(class.words.is_empty() && class.hidings.is_empty())
}

/// The attribute `value`, which is what the site of a number shows.
fn push_value(alloc: Global, attributes: &mut Attributes, n: u32) -> Result<(), AllocError>
    ensures { OnOk result (attributes.new ≡ attributes.old ++ control_attribute Number n) }
{
    let mut name = Txt::new(alloc);
    name.push_word("value")?;
    let mut pieces = Pieces::new(alloc);
    pieces.push(Piece::Hole(n))?;
    attributes.push(name, AttributeValue::Always(pieces))
}

/// The attribute `checked`, while the site of a number is seen as true.
fn push_checked(alloc: Global, attributes: &mut Attributes, n: u32) -> Result<(), AllocError>
    ensures { OnOk result (attributes.new ≡ attributes.old ++ control_attribute Checkbox n) }
{
    let mut name = Txt::new(alloc);
    name.push_word("checked")?;
    let word = name.copied()?;
    attributes.push(name, AttributeValue::Flag(word, n))
}

/// Sets what a control shows, or whether it is checked.
fn push_control(
    alloc: Global,
    attributes: &mut Attributes,
    control: &Modelled,
) -> Result<(), AllocError>
    ensures { OnOk result (attributes.new ≡ attributes.old ++ control_attribute control.now.kind control.now.site) }
{
    match control.kind {
        ControlKind::Text { .. } => push_value(alloc, attributes, control.site),
        ControlKind::Number => push_value(alloc, attributes, control.site),
        ControlKind::Checkbox => push_checked(alloc, attributes, control.site),
    }
}

/// Sets what a control sets, where the element is one.
fn with_control(
    alloc: Global,
    attributes: Attributes,
    control: &Option<Modelled>,
) -> Result<Attributes, AllocError>
    ensures { IfOk result (λ a. a ≡ attributes ++ control_setting (option_map control_of control.now)) }
{
    let mut attributes = attributes;
    if let Some(control) = control {
        push_control(alloc, &mut attributes, control)?;
    }
    Ok(attributes)
}

/// The state classes of a control come behind the words of a class.
fn with_states(class: ClassValue, control: &Option<Modelled>) -> Result<ClassValue, AllocError>
    ensures { IfOk result (λ c. class_of c ≡ with_states_of (option_map control_of control.now) (class_of class)) }
{
    let mut class = class;
    if let Some(control) = control {
        class.words.push(control.site)?;
    }
    Ok(class)
}

/// Sets what a control sets, and the class that directives and the control make, after all other attributes.
pub fn with_last(
    alloc: Global,
    attributes: Attributes,
    class: ClassValue,
    control: &Option<Modelled>,
) -> Result<Attributes, AllocError>
    ensures { IfOk result (λ a. a ≡ attributes ++ (control_setting (option_map control_of control.now) ++ class_setting (with_states_of (option_map control_of control.now) (class_of class)))) }
{
    let attributes = with_control(alloc, attributes, control)?;
    let class = with_states(class, control)?;
    with_class(alloc, attributes, class)
}

/// Sets the class that directives make.
fn with_class(
    alloc: Global,
    attributes: Attributes,
    class: ClassValue,
) -> Result<Attributes, AllocError>
    ensures { IfOk result (λ a. a ≡ attributes ++ class_setting (class_of class)) }
{
    let mut attributes = attributes;
    if is_classed(&class) {
        let mut name = Txt::new(alloc);
        name.push_word("class")?;
        attributes.push(name, AttributeValue::Classes(class))?;
    }
    Ok(attributes)
}
