//! The core's directives: their names, their priorities, and which of them are blocks.
ghost use Rattle.std.specs.Prelude.{◌≡◌, option_map};
ghost use Rattle.ng_collect.specs.declared.table.CoreDirective.TheVariants.{Event};
ghost use Rattle.ng_collect.specs.Table.{event_named as event_of, named as directive_of, priority as priority_of, is_block as is_block_of, ends_list as ends_list_of, stands_on_elements as stands_on_elements_of, gives_contents as gives_contents_of, is_plain_name, is_cloak};

use ng_base::txt::Txt;

/// An event that a directive of the core handles.
#[derive(Clone, Copy, Debug, PartialEq, Eq)]
pub enum DomEvent {
    Click,
    Dblclick,
    Mousedown,
    Mouseup,
    Mouseover,
    Mouseout,
    Mousemove,
    Mouseenter,
    Mouseleave,
    Keydown,
    Keyup,
    Keypress,
    Submit,
    Focus,
    Blur,
    Copy,
    Cut,
    Paste,
}

/// A directive of the core.
#[derive(Clone, Copy, Debug, PartialEq, Eq)]
pub enum CoreDirective {
    SwitchWhen,
    SwitchDefault,
    Repeat,
    NonBindable,
    If,
    Init,
    Include,
    Checked,
    Disabled,
    Open,
    Readonly,
    Selected,
    Href,
    Src,
    Model,
    Bind,
    Show,
    Hide,
    Class,
    Switch,
    Transclude,
    Change,
    Trim,
    Event(DomEvent),
}

/// The event that a directive of this name handles.
#[tactic(auto, unfolding(crate::specs::Table::event_named))]
fn event_named(name: &Txt) -> Option<DomEvent>
    ensures { result ≡ event_of name.now }
{
    if name.is_word("ngClick") {
        Some(DomEvent::Click)
    } else if name.is_word("ngDblclick") {
        Some(DomEvent::Dblclick)
    } else if name.is_word("ngMousedown") {
        Some(DomEvent::Mousedown)
    } else if name.is_word("ngMouseup") {
        Some(DomEvent::Mouseup)
    } else if name.is_word("ngMouseover") {
        Some(DomEvent::Mouseover)
    } else if name.is_word("ngMouseout") {
        Some(DomEvent::Mouseout)
    } else if name.is_word("ngMousemove") {
        Some(DomEvent::Mousemove)
    } else if name.is_word("ngMouseenter") {
        Some(DomEvent::Mouseenter)
    } else if name.is_word("ngMouseleave") {
        Some(DomEvent::Mouseleave)
    } else if name.is_word("ngKeydown") {
        Some(DomEvent::Keydown)
    } else if name.is_word("ngKeyup") {
        Some(DomEvent::Keyup)
    } else if name.is_word("ngKeypress") {
        Some(DomEvent::Keypress)
    } else if name.is_word("ngSubmit") {
        Some(DomEvent::Submit)
    } else if name.is_word("ngFocus") {
        Some(DomEvent::Focus)
    } else if name.is_word("ngBlur") {
        Some(DomEvent::Blur)
    } else if name.is_word("ngCopy") {
        Some(DomEvent::Copy)
    } else if name.is_word("ngCut") {
        Some(DomEvent::Cut)
    } else if name.is_word("ngPaste") {
        Some(DomEvent::Paste)
    } else {
        None
    }
}

/// The directive of the core that has this name.
#[tactic(auto, unfolding(crate::specs::Table::named))]
pub fn named(name: &Txt) -> Option<CoreDirective>
    ensures { result ≡ directive_of name.now }
{
    if name.is_word("ngSwitchWhen") {
        Some(CoreDirective::SwitchWhen)
    } else if name.is_word("ngSwitchDefault") {
        Some(CoreDirective::SwitchDefault)
    } else if name.is_word("ngRepeat") {
        Some(CoreDirective::Repeat)
    } else if name.is_word("ngNonBindable") {
        Some(CoreDirective::NonBindable)
    } else if name.is_word("ngIf") {
        Some(CoreDirective::If)
    } else if name.is_word("ngInit") {
        Some(CoreDirective::Init)
    } else if name.is_word("ngInclude") {
        Some(CoreDirective::Include)
    } else if name.is_word("ngChecked") {
        Some(CoreDirective::Checked)
    } else if name.is_word("ngDisabled") {
        Some(CoreDirective::Disabled)
    } else if name.is_word("ngOpen") {
        Some(CoreDirective::Open)
    } else if name.is_word("ngReadonly") {
        Some(CoreDirective::Readonly)
    } else if name.is_word("ngSelected") {
        Some(CoreDirective::Selected)
    } else if name.is_word("ngHref") {
        Some(CoreDirective::Href)
    } else if name.is_word("ngSrc") {
        Some(CoreDirective::Src)
    } else if name.is_word("ngModel") {
        Some(CoreDirective::Model)
    } else if name.is_word("ngBind") {
        Some(CoreDirective::Bind)
    } else if name.is_word("ngShow") {
        Some(CoreDirective::Show)
    } else if name.is_word("ngHide") {
        Some(CoreDirective::Hide)
    } else if name.is_word("ngClass") {
        Some(CoreDirective::Class)
    } else if name.is_word("ngSwitch") {
        Some(CoreDirective::Switch)
    } else if name.is_word("ngTransclude") {
        Some(CoreDirective::Transclude)
    } else if name.is_word("ngChange") {
        Some(CoreDirective::Change)
    } else if name.is_word("ngTrim") {
        Some(CoreDirective::Trim)
    } else {
        event_directive(name)
    }
}

fn event_directive(name: &Txt) -> Option<CoreDirective>
    ensures { result ≡ option_map Event (event_of name.now) }
{
    let event = event_named(name)?;
    Some(CoreDirective::Event(event))
}

/// What stands first where an element has several.
pub fn priority(directive: CoreDirective) -> i64
    ensures { result ≡ priority_of directive }
{
    match directive {
        CoreDirective::SwitchWhen => 1200,
        CoreDirective::SwitchDefault => 1200,
        CoreDirective::Repeat => 1000,
        CoreDirective::NonBindable => 1000,
        CoreDirective::If => 600,
        CoreDirective::Init => 450,
        CoreDirective::Include => 400,
        CoreDirective::Checked => 100,
        CoreDirective::Disabled => 100,
        CoreDirective::Open => 100,
        CoreDirective::Readonly => 100,
        CoreDirective::Selected => 100,
        CoreDirective::Href => 99,
        CoreDirective::Src => 99,
        CoreDirective::Model => 1,
        CoreDirective::Bind => 0,
        CoreDirective::Show => 0,
        CoreDirective::Hide => 0,
        CoreDirective::Class => 0,
        CoreDirective::Switch => 0,
        CoreDirective::Transclude => 0,
        CoreDirective::Change => 0,
        CoreDirective::Trim => 0,
        CoreDirective::Event(_) => 0,
    }
}

/// Whether it stands in place of its element, which is its body.
pub fn is_block(directive: CoreDirective) -> bool
    ensures { result ≡ is_block_of directive }
{
    match directive {
        CoreDirective::SwitchWhen => true,
        CoreDirective::SwitchDefault => true,
        CoreDirective::Repeat => true,
        CoreDirective::If => true,
        CoreDirective::Include => true,
        _ => false,
    }
}

/// Whether it leaves out the directives of lower priority.
pub fn ends_list(directive: CoreDirective) -> bool
    ensures { result ≡ ends_list_of directive }
{
    match directive {
        CoreDirective::NonBindable => true,
        _ => is_block(directive),
    }
}

/// Whether it may be an element of its own.
pub fn stands_on_elements(directive: CoreDirective) -> bool
    ensures { result ≡ stands_on_elements_of directive }
{
    match directive {
        CoreDirective::Include => true,
        CoreDirective::Switch => true,
        CoreDirective::Transclude => true,
        _ => false,
    }
}

/// Whether it gives the element its contents, as a template does.
pub fn gives_contents(directive: CoreDirective) -> bool
    ensures { result ≡ gives_contents_of directive }
{
    match directive {
        CoreDirective::Include => true,
        CoreDirective::Bind => true,
        CoreDirective::Transclude => true,
        _ => false,
    }
}

/// Whether a name of the core is plain: `ng-app` and `ng-strict-di`.
pub(crate) fn plain_name(name: &Txt) -> bool
    ensures { result ≡ is_plain_name name.now }
{
    name.is_word("ngApp") || name.is_word("ngStrictDi")
}

/// Whether it is `ng-cloak`.
pub(crate) fn cloak(name: &Txt) -> bool
    ensures { result ≡ is_cloak name.now }
{
    name.is_word("ngCloak")
}
