//! What an element does (API: ngInit, ngClick, ngModel, ngChange, ngTransclude; guide: Directives).
ghost use Rattle.std.specs.Prelude.{◌≡◌, [], map, option_map, IfOk};
ghost use Rattle.ng_drawing.specs.Template.{no_acts, one_scope};
ghost use Rattle.ng_parse.specs.ProgramOf.{program as trees};
ghost use Rattle.ng_parts.specs.ActsOf.{handler_of, control_of, binding_of, uses_of, acts_of};

use crate::pieces::Pieces;
use ng_base::fault::Memory;
use ng_base::name::TplId;
use ng_base::txt::Txt;
use ng_control::ControlKind;
use ng_parse::Program;
use std::alloc::{AllocError, Global};

/// A program that handles an event of the document, by the name of the event.
#[derive(Drop)]
pub struct Handler {
    pub event: Txt,
    pub program: Program,
}

/// A control: its kind, the number of the site that watches its model, the program that writes what was put in to the model, and those
/// that run after that.
#[derive(Drop)]
pub struct Modelled {
    pub kind: ControlKind,
    pub site: u32,
    pub writes: Program,
    pub changes: Vec<Program>,
}

/// Where a property of an isolate scope comes from (API: `$compile`, `scope`): the text of an attribute, or nothing where that is missing; the
/// value of a site; the value of a site, and back to it by a program, where it can be written to; or a function that runs a program.
#[derive(Drop)]
pub enum Source {
    Text(Pieces),
    Nothing,
    OneWay(u32),
    TwoWay(u32, Option<Program>),
    Call(Program),
}

/// A property of an isolate scope by its name.
#[derive(Drop)]
pub struct Binding {
    pub name: Txt,
    pub source: Source,
}

/// The directives of the application that an element has, by their numbers, in order (guide: Directives, "Creating Directives"): whether one asks
/// for a child scope; the one that has an isolate scope, with the bindings of that; the template that stands in place of the children, whether it
/// stands on the isolate scope, and whether it may have the children in it; and the body that these are then.
#[derive(Drop)]
pub struct Uses {
    pub directives: Vec<u32>,
    pub child: bool,
    pub isolate: Option<u32>,
    pub bindings: Vec<Binding>,
    pub template: Option<TplId>,
    pub apart: bool,
    pub passes: bool,
    pub content: Option<u32>,
}

/// The scope outside a directive's element: one of the instance's, by its number, or one that the instance was given.
#[derive(Clone, Copy, Debug, PartialEq, Eq, Drop)]
pub enum Outside {
    Inside(u32),
    Handed(u32),
}

/// The scopes of an element by their numbers in its instance: the one round it, its own, and the isolate one of its directive. An element that is
/// a slot has children on a scope of their own, which inherits from the one outside; and where a directive is inside too many others nothing is made.
#[derive(Clone, Copy, Debug, PartialEq, Eq, Drop)]
pub struct Scopes {
    pub outer: u32,
    pub own: u32,
    pub isolate: u32,
    pub slot: Option<Outside>,
    pub deep: bool,
}

/// What an element does: programs that run when it is linked, programs that handle events, and the control that it is; the directives of the
/// application that it has, if it has some; whether it is a slot for the children that a directive transcludes; and its scopes.
#[derive(Drop)]
pub struct Acts {
    pub starts: Vec<Program>,
    pub handlers: Vec<Handler>,
    pub control: Option<Modelled>,
    pub uses: Option<Uses>,
    pub slot: bool,
    pub scopes: Scopes,
}

impl Scopes {
    ghost use Rattle.ng_parts.specs.ActsOf.{scopes_of};

    /// All on the instance's own scope.
    pub fn one() -> Scopes
        ensures { scopes_of result ≡ one_scope }
    {
        Scopes {
            outer: 0,
            own: 0,
            isolate: 0,
            slot: None,
            deep: false,
        }
    }
}

impl Acts {
    /// Nothing, but for what these directives of the application ask.
    pub fn used(alloc: Global, uses: Option<Uses>) -> Acts
        ensures { acts_of result ≡ record no_acts { uses = option_map uses_of uses } }
    {
        Acts {
            starts: Vec::new(alloc),
            handlers: Vec::new(alloc),
            control: None,
            uses,
            slot: false,
            scopes: Scopes::one(),
        }
    }

    /// Nothing.
    pub fn new(alloc: Global) -> Acts
        ensures { acts_of result ≡ no_acts }
    {
        Acts::used(alloc, None)
    }
}

impl Source {
    ghost use Rattle.ng_parts.specs.ActsOf.{source_of};

    /// The same again. Its texts and its program are shared.
    fn copied(&self, alloc: Global) -> Result<Source, Memory>
        ensures { IfOk result (λ s. source_of s ≡ source_of self.now) }
    {
        match self {
            Source::Text(pieces) => Ok(Source::Text(pieces.copied(alloc)?)),
            Source::Nothing => Ok(Source::Nothing),
            Source::OneWay(n) => Ok(Source::OneWay(*n)),
            Source::TwoWay(n, program) => Ok(Source::TwoWay(*n, copied_program(alloc, program)?)),
            Source::Call(program) => Ok(Source::Call(program.copied(alloc)?)),
        }
    }
}

impl Binding {
    ghost use Rattle.ng_parts.specs.ActsOf.{binding_of};

    /// The same again. Its texts and its program are shared.
    pub fn copied(&self, alloc: Global) -> Result<Binding, Memory>
        ensures { IfOk result (λ b. binding_of b ≡ binding_of self.now) }
    {
        Ok(Binding {
            name: self.name.copied()?,
            source: self.source.copied(alloc)?,
        })
    }
}

/// Numbers again.
pub fn copied_numbers(alloc: Global, numbers: &[u32]) -> Result<Vec<u32>, AllocError>
    ensures { IfOk result (λ v. v.items ≡ numbers.now) }
{
    let mut copies = Vec::new(alloc);
    for n in numbers {
        copies.push(*n)?;
    }
    Ok(copies)
}

/// A program again, if there is one. It has one owner more.
pub fn copied_program(alloc: Global, program: &Option<Program>) -> Result<Option<Program>, Memory>
    ensures { IfOk result (λ p. option_map trees p ≡ option_map trees program.now) }
{
    match program {
        None => Ok(None),
        Some(program) => Ok(Some(program.copied(alloc)?)),
    }
}

/// Programs again. Each has one owner more.
pub fn copied_programs(alloc: Global, programs: &[Program]) -> Result<Vec<Program>, Memory>
    ensures { IfOk result (λ v. map trees v.items ≡ map trees programs.now) }
{
    let mut copies = Vec::new(alloc);
    for program in programs {
        copies.push(program.copied(alloc)?)?;
    }
    Ok(copies)
}

/// Programs that handle events, again.
pub fn copied_handlers(alloc: Global, handlers: &[Handler]) -> Result<Vec<Handler>, Memory>
    ensures { IfOk result (λ v. map handler_of v.items ≡ map handler_of handlers.now) }
{
    let mut copies = Vec::new(alloc);
    for handler in handlers {
        copies.push(Handler {
            event: handler.event.copied()?,
            program: handler.program.copied(alloc)?,
        })?;
    }
    Ok(copies)
}

/// A control, whose site has a number.
pub fn control_at(alloc: Global, site: u32, control: &Modelled) -> Result<Modelled, Memory>
    ensures { IfOk result (λ c. control_of c ≡ record (control_of control.now) { site = site }) }
{
    Ok(Modelled {
        kind: control.kind,
        site,
        writes: control.writes.copied(alloc)?,
        changes: copied_programs(alloc, control.changes.as_slice())?,
    })
}

/// The control that an element is, again.
fn copied_control(alloc: Global, control: &Option<Modelled>) -> Result<Option<Modelled>, Memory>
    ensures { IfOk result (λ c. option_map control_of c ≡ option_map control_of control.now) }
{
    match control {
        None => Ok(None),
        Some(control) => Ok(Some(control_at(alloc, control.site, control)?)),
    }
}

/// The bindings of an isolate scope, again.
fn copied_bindings(alloc: Global, bindings: &[Binding]) -> Result<Vec<Binding>, Memory>
    ensures { IfOk result (λ v. map binding_of v.items ≡ map binding_of bindings.now) }
{
    let mut copies = Vec::new(alloc);
    for binding in bindings {
        copies.push(binding.copied(alloc)?)?;
    }
    Ok(copies)
}

/// The directives of an element, again.
fn copied_uses(alloc: Global, uses: &Uses) -> Result<Uses, Memory>
    ensures { IfOk result (λ u. uses_of u ≡ uses_of uses.now) }
{
    Ok(Uses {
        directives: copied_numbers(alloc, uses.directives.as_slice())?,
        child: uses.child,
        isolate: uses.isolate,
        bindings: copied_bindings(alloc, uses.bindings.as_slice())?,
        template: uses.template,
        apart: uses.apart,
        passes: uses.passes,
        content: uses.content,
    })
}

/// The directives of an element, if it has some, again.
fn copied_some(alloc: Global, uses: &Option<Uses>) -> Result<Option<Uses>, Memory>
    ensures { IfOk result (λ u. option_map uses_of u ≡ option_map uses_of uses.now) }
{
    match uses {
        None => Ok(None),
        Some(uses) => Ok(Some(copied_uses(alloc, uses)?)),
    }
}

/// What an element does, again.
pub fn copied_acts(alloc: Global, acts: &Acts) -> Result<Acts, Memory>
    ensures { IfOk result (λ a. acts_of a ≡ acts_of acts.now) }
{
    Ok(Acts {
        starts: copied_programs(alloc, acts.starts.as_slice())?,
        handlers: copied_handlers(alloc, acts.handlers.as_slice())?,
        control: copied_control(alloc, &acts.control)?,
        uses: copied_some(alloc, &acts.uses)?,
        slot: acts.slot,
        scopes: acts.scopes,
    })
}
