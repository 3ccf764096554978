//! What each directive does with its text, and which attribute it sets beside its own (API: ngHref, ngSrc, ngChecked, ngDisabled,
//! ngOpen, ngReadonly, ngSelected, ngModel, ngChange, ngBind, ngClass, ngShow, ngHide, ngInit, ngClick, ngNonBindable, ngIf, ngSwitch, ngRepeat; guide: Interpolation, "How text and attribute
//! bindings work").
ghost use Rattle.std.specs.Prelude.{◌≡◌, IfOk};
ghost use Rattle.ng_collect.specs.Sorted.{of_core};
ghost use Rattle.ng_collect.specs.Table.{gives_contents as gives_contents_of};
ghost use Rattle.ng_directives.specs.Manners.{core_manner as core_manner_of, manner_of, core_makes_plain as core_makes_plain_of, makes_plain as makes_plain_of, any_makes_plain as any_makes_plain_of, makes_slot as makes_slot_of, any_makes_slot as any_makes_slot_of, is_model as is_model_of, is_unread as is_unread_of, is_read as is_read_of, any_models as any_models_of, any_gives_contents as any_gives_contents_of, core_target as core_target_of, target_of, event_name as event_name_of};

use ng_base::txt::Txt;
use ng_collect::table::gives_contents;
use ng_collect::{CoreDirective, Directive, DomEvent, Pick};
use std::alloc::{AllocError, Global};

/// What the values of a directive's text set. It interpolates them into its own attribute; or it links another attribute to it, too,
/// which is not there while the text is empty; or it switches another attribute on while its value is true; or it binds the contents of
/// the element to it; or it gives the element classes; or it shows the element, or hides it, while its value is true; or it chooses among the
/// cases in the element; or it names what a control puts in and shows.
#[derive(Clone, Copy, Debug, PartialEq, Eq, Drop)]
pub enum Setting {
    Interpolates,
    Links,
    Switches,
    Binds,
    Classes,
    Shows,
    Hides,
    Chooses,
    Names,
}

/// What a directive does with its text. It watches it and sets something; or it makes the element a control, whose model it watches and writes
/// to, or runs it as a program after that; or it is a block, whose body stands by its value; or it runs it as a program when the element is
/// linked, or when an event is handled; or it does nothing with it.
#[derive(Clone, Copy, Debug, PartialEq, Eq, Drop)]
pub enum Manner {
    Sets(Setting),
    Models,
    Changes,
    Fills,
    Passes,
    Starts,
    Handles(DomEvent),
    Slots,
    Asks(usize),
}

/// What one of the core's directives does with its text.
fn core_manner(d: CoreDirective) -> Manner
    ensures { result ≡ core_manner_of d }
{
    match d {
        CoreDirective::SwitchWhen => Manner::Fills,
        CoreDirective::SwitchDefault => Manner::Fills,
        CoreDirective::Repeat => Manner::Fills,
        CoreDirective::If => Manner::Fills,
        CoreDirective::Include => Manner::Fills,
        CoreDirective::Init => Manner::Starts,
        CoreDirective::Checked => Manner::Sets(Setting::Switches),
        CoreDirective::Disabled => Manner::Sets(Setting::Switches),
        CoreDirective::Open => Manner::Sets(Setting::Switches),
        CoreDirective::Readonly => Manner::Sets(Setting::Switches),
        CoreDirective::Selected => Manner::Sets(Setting::Switches),
        CoreDirective::Href => Manner::Sets(Setting::Links),
        CoreDirective::Src => Manner::Sets(Setting::Links),
        CoreDirective::Model => Manner::Models,
        CoreDirective::Bind => Manner::Sets(Setting::Binds),
        CoreDirective::Show => Manner::Sets(Setting::Shows),
        CoreDirective::Hide => Manner::Sets(Setting::Hides),
        CoreDirective::Class => Manner::Sets(Setting::Classes),
        CoreDirective::Switch => Manner::Sets(Setting::Chooses),
        CoreDirective::Change => Manner::Changes,
        CoreDirective::Trim => Manner::Passes,
        CoreDirective::Event(event) => Manner::Handles(event),
        CoreDirective::Transclude => Manner::Slots,
        CoreDirective::NonBindable => Manner::Passes,
    }
}

/// What a directive does with its text.
pub fn manner_for(d: Directive) -> Manner
    ensures { result ≡ manner_of d }
{
    match d {
        Directive::Core(core) => core_manner(core),
        Directive::Interpolated => Manner::Sets(Setting::Interpolates),
        Directive::User(n) => Manner::Asks(n),
    }
}

/// Whether a directive makes its element a slot.
fn makes_slot(pick: &Pick) -> bool
    ensures { result ≡ makes_slot_of pick.now }
{
    match manner_for(pick.directive) {
        Manner::Slots => true,
        _ => false,
    }
}

/// Whether one of these directives makes its element a slot (API: ngTransclude).
pub fn any_makes_slot(picks: &[Pick]) -> bool
    ensures { result ≡ any_makes_slot_of picks.now }
{
    for pick in picks {
        if makes_slot(pick) {
            return true;
        }
    }
    false
}

/// Whether one of the core's directives is `ng-model`.
fn is_model(d: CoreDirective) -> bool
    ensures { result ≡ is_model_of d }
{
    match d {
        CoreDirective::Model => true,
        _ => false,
    }
}

/// Whether a directive is `ng-model`.
fn models(d: Directive) -> bool
    ensures { result ≡ of_core is_model_of d }
{
    match d {
        Directive::Core(core) => is_model(core),
        Directive::Interpolated => false,
        Directive::User(_) => false,
    }
}

/// Whether one of these directives is `ng-model`.
pub fn any_models(picks: &[Pick]) -> bool
    ensures { result ≡ any_models_of picks.now }
{
    for pick in picks {
        if models(pick.directive) {
            return true;
        }
    }
    false
}

/// Whether one of the core's directives is not read: `ng-checked` beside an `ng-model`, and `ng-change` without one.
fn is_unread(modelled: bool, d: CoreDirective) -> bool
    ensures { result ≡ is_unread_of modelled d }
{
    match d {
        CoreDirective::Checked => modelled,
        CoreDirective::Change => !modelled,
        _ => false,
    }
}

/// Whether a directive is read.
pub fn is_read(modelled: bool, pick: &Pick) -> bool
    ensures { result ≡ is_read_of modelled pick.now }
{
    match pick.directive {
        Directive::Core(core) => !is_unread(modelled, core),
        Directive::Interpolated => true,
        Directive::User(_) => true,
    }
}

/// Whether one of the core's directives makes its element plain.
fn core_makes_plain(d: CoreDirective) -> bool
    ensures { result ≡ core_makes_plain_of d }
{
    match d {
        CoreDirective::NonBindable => true,
        _ => false,
    }
}

/// Whether a directive makes its element plain.
fn makes_plain(d: Directive) -> bool
    ensures { result ≡ makes_plain_of d }
{
    match d {
        Directive::Core(core) => core_makes_plain(core),
        Directive::Interpolated => false,
        Directive::User(_) => false,
    }
}

/// Whether one of these directives makes its element plain.
pub fn any_makes_plain(picks: &[Pick]) -> bool
    ensures { result ≡ any_makes_plain_of picks.now }
{
    for pick in picks {
        if makes_plain(pick.directive) {
            return true;
        }
    }
    false
}

/// Whether a directive gives its element contents.
fn gives(d: Directive) -> bool
    ensures { result ≡ of_core gives_contents_of d }
{
    match d {
        Directive::Core(core) => gives_contents(core),
        Directive::Interpolated => false,
        Directive::User(_) => false,
    }
}

/// Whether one of these directives gives its element contents, as a template does.
pub fn any_gives_contents(picks: &[Pick]) -> bool
    ensures { result ≡ any_gives_contents_of picks.now }
{
    for pick in picks {
        if gives(pick.directive) {
            return true;
        }
    }
    false
}

/// The attribute that one of the core's directives sets beside its own.
fn core_target(alloc: Global, d: CoreDirective) -> Result<Txt, AllocError>
    ensures { IfOk result (λ t. t ≡ core_target_of d) }
{
    let mut name = Txt::new(alloc);
    match d {
        CoreDirective::Checked => name.push_word("checked")?,
        CoreDirective::Disabled => name.push_word("disabled")?,
        CoreDirective::Open => name.push_word("open")?,
        CoreDirective::Readonly => name.push_word("readonly")?,
        CoreDirective::Selected => name.push_word("selected")?,
        CoreDirective::Href => name.push_word("href")?,
        CoreDirective::Src => name.push_word("src")?,
        _ => {}
    }
    Ok(name)
}

/// The attribute that a directive sets beside its own.
pub(crate) fn target(alloc: Global, d: Directive) -> Result<Txt, AllocError>
    ensures { IfOk result (λ t. t ≡ target_of d) }
{
    match d {
        Directive::Core(core) => core_target(alloc, core),
        Directive::Interpolated => Ok(Txt::new(alloc)),
        Directive::User(_) => Ok(Txt::new(alloc)),
    }
}

/// The name of an event.
pub fn event_name(alloc: Global, event: DomEvent) -> Result<Txt, AllocError>
    ensures { IfOk result (λ t. t ≡ event_name_of event) }
{
    let mut name = Txt::new(alloc);
    match event {
        DomEvent::Click => name.push_word("click")?,
        DomEvent::Dblclick => name.push_word("dblclick")?,
        DomEvent::Mousedown => name.push_word("mousedown")?,
        DomEvent::Mouseup => name.push_word("mouseup")?,
        DomEvent::Mouseover => name.push_word("mouseover")?,
        DomEvent::Mouseout => name.push_word("mouseout")?,
        DomEvent::Mousemove => name.push_word("mousemove")?,
        DomEvent::Mouseenter => name.push_word("mouseenter")?,
        DomEvent::Mouseleave => name.push_word("mouseleave")?,
        DomEvent::Keydown => name.push_word("keydown")?,
        DomEvent::Keyup => name.push_word("keyup")?,
        DomEvent::Keypress => name.push_word("keypress")?,
        DomEvent::Submit => name.push_word("submit")?,
        DomEvent::Focus => name.push_word("focus")?,
        DomEvent::Blur => name.push_word("blur")?,
        DomEvent::Copy => name.push_word("copy")?,
        DomEvent::Cut => name.push_word("cut")?,
        DomEvent::Paste => name.push_word("paste")?,
    }
    Ok(name)
}
