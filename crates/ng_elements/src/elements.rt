//! Elements: their directives, and what these set (guide: HTML Compiler, "How directives are compiled").
ghost use Rattle.std.specs.Prelude.{[], ◌≡◌, map, option_map, true, Some, IfOk};
ghost use Rattle.std.specs.List.{list_all};
ghost use Rattle.ng_base.specs.Meets.{Gives};
ghost use Rattle.ng_interp.specs.Parts.{piece_of};
ghost use Rattle.ng_parse.specs.ProgramOf.{program as trees};
ghost use Rattle.ng_parts.specs.ActsOf.{uses_of};
ghost use Rattle.ng_parts.specs.AttributeOf.{class_of};
ghost use Rattle.ng_elements.specs.Elements.{class_in as class_in_of, bare as bare_of, head_with, asks_scope as asks_scope_of, makes_scope as makes_scope_of, has_template_of, is_apart as is_apart_of};
ghost use Rattle.ng_directives.specs.Directives.{if_it_fits, with_start as with_start_of, with_handler as with_handler_of, acts_with, with_written, changed_more, with_change as with_change_of, with_slot as with_slot_of, is_bound_by as is_bound_by_of, with_asked as with_asked_of, with_manner, with_picks};
ghost use Rattle.ng_directives.specs.Free.{is_tpl_want};
ghost use Rattle.ng_directives.specs.Manners.{manner_of, event_name as event_name_of};
ghost use Rattle.ng_parts.specs.FragmentOf.{sites_of};
ghost use Rattle.ng_elements.specs.HeadOf.{head_of};
ghost use Rattle.ng_parts.specs.Seen.{acts_of, control_of};
ghost use Rattle.ng_directives.specs.Texts.{is_known, is_pure};
ghost use Rattle.ng_directives.specs.declared.manners.Manner.TheVariants.{Models};

use crate::plain::plain_values;
use crate::using::{Asked, transcludes, uses_in};
use ng_base::txt::Txt;
use ng_collect::{DomEvent, Pick, Registry, kept_attrs};
use ng_control::ControlKind;
use ng_directives::directives::{directive_parts, directive_program, kind_for};
use ng_directives::fault::TplFault;
use ng_directives::kinds::control_kind;
use ng_directives::known::Known;
use ng_directives::manners::{Manner, Setting, event_name, manner_for};
use ng_directives::settings::{add_to_class, bound_after, set, switch_after};
use ng_directives::texts::{add_numbers, count_holes, first_of, place_parts, want, worn};
use ng_directives::writing::directive_writing;
use ng_html::attrs::Attrs;
use ng_interp::Part;
use ng_parse::Program;
use ng_parts::acts::{Acts, Handler, Modelled, Uses};
use ng_parts::classes::ClassValue;
use ng_parts::pieces::{Attributes, Pieces};
use ng_parts::site::{SITE_LIMIT, Site};
use std::alloc::{AllocError, Global};

/// An element that is being made: what kind of control it is, where it is one; its attributes in the order in which they are set, what its class is made of, the site whose text
/// stands in place of its children, the site that chooses among the cases in it, the numbers of its own sites, what it does, and all sites so
/// far.
#[derive(Drop)]
pub struct Element {
    pub kind: ControlKind,
    pub(crate) attributes: Attributes,
    pub(crate) class: ClassValue,
    pub bound: Option<u32>,
    pub switch: Option<u32>,
    pub own: Vec<u32>,
    pub acts: Acts,
    pub(crate) wrong: Option<TplFault>,
    pub sites: Vec<Site>,
}

/// What a class is made of where this text is written.
fn class_from(alloc: Global, written: bool, pieces: Pieces) -> ClassValue
    ensures { class_of result ≡ record { written = written; pieces = pieces; words = []; hidings = [] } }
{
    ClassValue {
        written,
        pieces,
        words: Vec::new(alloc),
        hidings: Vec::new(alloc),
    }
}

/// What the class of an element with these attributes is made of before its directives.
fn class_in(alloc: Global, attrs: &Attrs) -> Result<ClassValue, AllocError>
    ensures { IfOk result (λ c. class_of c ≡ class_in_of attrs.now) }
{
    for attr in attrs.as_slice() {
        if attr.name.is_word("class") {
            let pieces = Pieces::word(alloc, attr.value.copied()?)?;
            return Ok(class_from(alloc, true, pieces));
        }
    }
    Ok(class_from(alloc, false, Pieces::new(alloc)))
}

/// What an element does, which is a control where a program is given that writes its model. This is watched by the site of a number.
fn with_model(
    alloc: Global,
    kind: ControlKind,
    acts: Acts,
    n: u32,
    program: Option<Program>,
) -> Acts
    ensures { acts_of result ≡ acts_with kind n (option_map trees program) (acts_of acts) }
{
    match program {
        None => acts,
        Some(writes) => {
            let mut made = acts;
            made.control = Some(Modelled {
                kind,
                site: n,
                writes,
                changes: Vec::new(alloc),
            });
            made
        }
    }
}

/// An element after one directive more, which has these parts, and is its model where a program is given that writes to it.
fn with_parts(
    alloc: Global,
    setting: Setting,
    pick: &Pick,
    parts: Vec<Part>,
    program: Option<Program>,
    element: Element,
) -> Result<Element, TplFault>
    requires known { list_all is_known (map piece_of parts.items) ≡ true }
    requires pure { list_all is_pure (map piece_of parts.items) ≡ true }
    ensures { Gives is_tpl_want head_of (if_it_fits pick.now setting (map piece_of parts.items) (with_written (option_map trees program) (head_of element))) result }
{
    let Element {
        kind,
        mut attributes,
        mut class,
        bound,
        switch,
        mut own,
        acts,
        wrong,
        sites,
    } = element;
    let count = count_holes(parts.as_slice());
    if sites.len() + count > SITE_LIMIT {
        return Err(worn());
    }
    let first = sites.len() as u32;
    let (pieces, sites) = place_parts(alloc, kind_for(setting), sites, parts)?;
    add_numbers(&mut own, first, count)?;
    set(alloc, &mut attributes, setting, pick, first, &pieces)?;
    add_to_class(alloc, &mut class, setting, pick, first, &pieces)?;
    Ok(Element {
        kind,
        attributes,
        class,
        bound: bound_after(setting, first, bound),
        switch: switch_after(setting, first, switch),
        own,
        acts: with_model(alloc, kind, acts, first, program),
        wrong,
        sites,
    })
}

/// An element after a program more that runs when it is linked.
fn with_start(element: Element, program: Program) -> Result<Element, AllocError>
    ensures { IfOk result (λ e. head_of e ≡ with_start_of (trees program) (head_of element)) }
{
    let mut made = element;
    made.acts.starts.push(program)?;
    Ok(made)
}

/// An element after a program more that handles an event.
fn with_handler(
    alloc: Global,
    element: Element,
    event: DomEvent,
    program: Program,
) -> Result<Element, AllocError>
    ensures { IfOk result (λ e. head_of e ≡ with_handler_of (event_name_of event) (trees program) (head_of element)) }
{
    let mut made = element;
    let event = event_name(alloc, event)?;
    made.acts.handlers.push(Handler { event, program })?;
    Ok(made)
}

/// A control after a program more that runs once its model is written, where there is one.
fn changed(control: Option<Modelled>, program: Program) -> Result<Option<Modelled>, AllocError>
    ensures { IfOk result (λ c. option_map control_of c ≡ option_map (changed_more (trees program)) (option_map control_of control)) }
{
    match control {
        None => Ok(None),
        Some(control) => {
            let mut made = control;
            made.changes.push(program)?;
            Ok(Some(made))
        }
    }
}

/// What an element does, after a program more that runs once its model is written.
fn acts_after(acts: Acts, program: Program) -> Result<Acts, AllocError>
    ensures { IfOk result (λ a. acts_of a ≡ record (acts_of acts) { control = option_map (changed_more (trees program)) (acts_of acts).control }) }
{
    let Acts {
        starts,
        handlers,
        control,
        uses,
        slot,
        scopes,
    } = acts;
    Ok(Acts {
        starts,
        handlers,
        control: changed(control, program)?,
        uses,
        slot,
        scopes,
    })
}

/// An element after a program more that runs once its model is written.
fn with_change(element: Element, program: Program) -> Result<Element, AllocError>
    ensures { IfOk result (λ e. head_of e ≡ with_change_of (trees program) (head_of element)) }
{
    let Element {
        kind,
        attributes,
        class,
        bound,
        switch,
        own,
        acts,
        wrong,
        sites,
    } = element;
    Ok(Element {
        kind,
        attributes,
        class,
        bound,
        switch,
        own,
        acts: acts_after(acts, program)?,
        wrong,
        sites,
    })
}

/// An element after its `ng-model`.
fn with_named(
    alloc: Global,
    known: &mut Known,
    place: u64,
    pick: &Pick,
    element: Element,
) -> Result<Element, TplFault>
    ensures { Gives is_tpl_want head_of (with_manner place pick.now Models (head_of element)) result }
{
    let program = directive_writing(alloc, place, pick)?;
    let parts = directive_parts(alloc, known, place, Setting::Names, pick)?;
    with_parts(alloc, Setting::Names, pick, parts, Some(program), element)
}

/// An element that is a slot.
fn with_slot(element: Element) -> Element
    ensures { head_of result ≡ with_slot_of (head_of element) }
{
    let mut made = element;
    made.acts.slot = true;
    made
}

/// Whether it is the directive of an isolate scope whose bindings were read.
fn is_bound_by(n: usize, uses: &Option<Uses>) -> bool
    ensures { result ≡ is_bound_by_of n (option_map uses_of uses.now) }
{
    match uses {
        None => false,
        Some(uses) => match uses.isolate {
            None => false,
            Some(isolate) => isolate as usize == n,
        },
    }
}

/// An element at the turn of one of the application's directives, where it is told what is wrong with its bindings.
fn with_asked(n: usize, element: Element) -> Result<Element, TplFault>
    ensures { Gives is_tpl_want head_of (with_asked_of n (head_of element)) result }
{
    if !is_bound_by(n, &element.acts.uses) {
        return Ok(element);
    }
    match element.wrong {
        Some(fault) => Err(fault),
        None => Ok(element),
    }
}

/// An element after one directive more.
fn with_pick(
    alloc: Global,
    known: &mut Known,
    place: u64,
    pick: &Pick,
    element: Element,
) -> Result<Element, TplFault>
    ensures { Gives is_tpl_want head_of (with_manner place pick.now (manner_of pick.now.directive) (head_of element)) result }
{
    match manner_for(pick.directive) {
        Manner::Sets(setting) => {
            let parts = directive_parts(alloc, known, place, setting, pick)?;
            with_parts(alloc, setting, pick, parts, None, element)
        }
        Manner::Fills => Ok(element),
        Manner::Passes => Ok(element),
        Manner::Models => with_named(alloc, known, place, pick, element),
        Manner::Changes => {
            let program = directive_program(alloc, place, pick)?;
            Ok(with_change(element, program)?)
        }
        Manner::Slots => Ok(with_slot(element)),
        Manner::Asks(n) => with_asked(n, element),
        Manner::Starts => {
            let program = directive_program(alloc, place, pick)?;
            Ok(with_start(element, program)?)
        }
        Manner::Handles(event) => {
            let program = directive_program(alloc, place, pick)?;
            Ok(with_handler(alloc, element, event, program)?)
        }
    }
}

/// An element after its directives, in their order.
fn with_all(
    alloc: Global,
    known: &mut Known,
    place: u64,
    picks: &[Pick],
    element: Element,
) -> Result<Element, TplFault>
    ensures { Gives is_tpl_want head_of (with_picks place picks.now (head_of element)) result }
{
    let mut made = element;
    for pick in picks {
        made = with_pick(alloc, known, place, pick, made)?;
    }
    Ok(made)
}

/// An element that has these attributes and the sites of its directives' bindings, before its directives, or want of memory.
fn bare(
    alloc: Global,
    known: &mut Known,
    place: u64,
    r: &Registry,
    kind: ControlKind,
    picks: &[Pick],
    attrs: &Attrs,
    sites: Vec<Site>,
) -> Result<Element, TplFault>
    ensures { Gives is_tpl_want head_of (bare_of place r.now kind picks.now attrs.now (sites_of sites.items)) result }
{
    let Ok(kept) = kept_attrs(alloc, attrs) else {
        return Err(want());
    };
    let Asked { uses, sites, wrong } = uses_in(alloc, known, place, r, picks, &kept, sites)?;
    Ok(Element {
        kind,
        attributes: plain_values(alloc, &kept)?,
        class: class_in(alloc, &kept)?,
        bound: None,
        switch: None,
        own: Vec::new(alloc),
        acts: Acts::used(alloc, uses),
        wrong,
        sites,
    })
}

/// An element with these directives, all but its contents, or its refusal.
pub(crate) fn element_of(
    alloc: Global,
    known: &mut Known,
    r: &Registry,
    name: &Txt,
    picks: &[Pick],
    attrs: &Attrs,
    places: &[u64],
    sites: Vec<Site>,
) -> Result<Element, TplFault>
    ensures { Gives is_tpl_want head_of (head_with r.now name.now picks.now attrs.now (record { places = places.now; sites = sites_of sites.items; outlets = []; bodies = [] })) result }
{
    let (place, _) = first_of(places);
    let kind = control_kind(alloc, name, attrs, picks)?;
    let element = bare(alloc, known, place, r, kind, picks, attrs, sites)?;
    with_all(alloc, known, place, picks, element)
}

/// Whether directives ask for a scope.
fn asks_scope(uses: &Option<Uses>) -> bool
    ensures { result ≡ asks_scope_of (option_map uses_of uses.now) }
{
    match uses {
        None => false,
        Some(uses) => uses.child || uses.isolate.is_some(),
    }
}

/// Whether a directive makes a scope between a switch round the element and a case in it.
pub(crate) fn makes_scope(r: &Registry, acts: &Acts) -> bool
    ensures { result ≡ makes_scope_of r.now (acts_of acts.now) }
{
    acts.slot || (asks_scope(&acts.uses) || transcludes(r, &acts.uses))
}

/// Whether a template of a directive stands in place of the children.
pub fn has_template(e: &Element) -> bool
    ensures { result ≡ has_template_of (head_of e.now).acts.uses }
{
    match &e.acts.uses {
        None => false,
        Some(uses) => uses.template.is_some(),
    }
}

/// Whether the children are a body of their own.
pub fn is_apart(r: &Registry, e: &Element) -> bool
    ensures { result ≡ is_apart_of r.now (head_of e.now) }
{
    transcludes(r, &e.acts.uses) && (has_template(e) || e.bound.is_some())
}
