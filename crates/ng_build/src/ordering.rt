//! The order of linking.
ghost use Rattle.std.specs.Prelude.{◌≡◌, ◌++◌, ◌∷◌, map, is_some, OnOk};
ghost use Rattle.ng_drawing.specs.Template.{parts_from};
ghost use Rattle.ng_parse.specs.ProgramOf.{program};
ghost use Rattle.ng_parts.specs.ActsOf.{binding_of, uses_of, scopes_of, acts_of};
ghost use Rattle.ng_parts.specs.PieceOf.{piece_of as seen_piece};
ghost use Rattle.ng_parts.specs.Seen.{part_of, contents_of};
ghost use Rattle.ng_build.specs.Linking.{makes, a_child, an_isolate, if_asked, scope_of, uses_entered, entering_steps, leaving_steps, slot_steps, element_steps, binds, installs, starts, starts_at, registers, leaves, piece_steps, part_steps, content_steps, steps};
ghost use Rattle.ng_build.specs.StepOf.{step_of};

use ng_base::fault::Memory;
use ng_parse::Program;
use ng_parts::{Acts, Binding, Contents, Outside, Part, Piece, Scopes, Uses};
use std::alloc::{AllocError, Global};

/// A scope that is made, beside those of the instance that are there (guide: Directives; Scopes, "Scope Hierarchies"): a child of one of these, an
/// isolate child, or one whose parent is one of these and which inherits from the scope outside a directive's element.
#[derive(Clone, Copy, Debug, PartialEq, Eq, Drop)]
pub enum Opening {
    Child(u32),
    Isolate(u32),
    Slot(u32, Outside),
}

/// What is done when a template is linked: a node is made; a directive is inside too many others, so that nothing more is done; a scope is made; a
/// property of an isolate scope is bound to a scope; a directive's functions are installed on a scope; a program runs on a scope, or on that of an
/// outlet; a site gets the next number of registration; or a directive's watches, listeners and program come on a scope.
#[derive(Drop)]
pub enum LinkStep {
    Makes,
    Stops,
    Opens(Opening),
    Binds(Binding, u32, u32),
    Installs(u32, u32),
    Starts(u32, Program),
    StartsAt(u32, Program),
    Registers,
    Leaves(u32, u32),
}

/// The sites of a text.
fn add_pieces(order: &mut Vec<LinkStep>, pieces: &[Piece]) -> Result<(), AllocError>
    ensures { OnOk result (map step_of order.new.items ≡ map step_of order.old.items ++ piece_steps (map seen_piece pieces.now)) }
{
    for piece in pieces {
        match piece {
            Piece::Word(_) => {}
            Piece::Hole(_) => order.push(LinkStep::Registers)?,
        }
    }
    Ok(())
}

/// The programs that run when an element is linked.
fn add_starts(
    order: &mut Vec<LinkStep>,
    alloc: Global,
    scope: u32,
    programs: &[Program],
) -> Result<(), Memory>
    ensures { OnOk result (map step_of order.new.items ≡ map step_of order.old.items ++ map (starts scope) (map program programs.now)) }
{
    for p in programs {
        order.push(LinkStep::Starts(scope, p.copied(alloc)?))?;
    }
    Ok(())
}

/// The programs that run where an anchor is linked.
fn add_starts_at(
    order: &mut Vec<LinkStep>,
    alloc: Global,
    outlet: u32,
    programs: &[Program],
) -> Result<(), Memory>
    ensures { OnOk result (map step_of order.new.items ≡ map step_of order.old.items ++ map (starts_at outlet) (map program programs.now)) }
{
    for p in programs {
        order.push(LinkStep::StartsAt(outlet, p.copied(alloc)?))?;
    }
    Ok(())
}

/// The own sites of an element.
fn add_own(order: &mut Vec<LinkStep>, own: &[u32]) -> Result<(), AllocError>
    ensures { OnOk result (map step_of order.new.items ≡ map step_of order.old.items ++ map (λ n. registers) own.now) }
{
    for _ in own {
        order.push(LinkStep::Registers)?;
    }
    Ok(())
}

/// The scopes of an element.
fn add_openings(order: &mut Vec<LinkStep>, uses: &Uses, scopes: &Scopes) -> Result<(), AllocError>
    ensures { OnOk result (map step_of order.new.items ≡ map step_of order.old.items ++ (if_asked uses.now.child (a_child scopes.now.outer) ++ if_asked (is_some uses.now.isolate) (an_isolate scopes.now.own))) }
{
    if uses.child {
        order.push(LinkStep::Opens(Opening::Child(scopes.outer)))?;
    }
    if uses.isolate.is_some() {
        order.push(LinkStep::Opens(Opening::Isolate(scopes.own)))?;
    }
    Ok(())
}

/// The scope of a directive: its isolate one, or that of the element.
fn scope_of(uses: &Uses, scopes: &Scopes, directive: u32) -> u32
    ensures { result ≡ scope_of (uses_of uses.now) (scopes_of scopes.now) directive }
{
    match uses.isolate {
        None => scopes.own,
        Some(n) => {
            if n == directive {
                scopes.isolate
            } else {
                scopes.own
            }
        }
    }
}

/// Properties of an isolate scope are bound to a scope.
fn add_bindings(
    order: &mut Vec<LinkStep>,
    alloc: Global,
    isolate: u32,
    over: u32,
    bindings: &[Binding],
) -> Result<(), Memory>
    ensures { OnOk result (map step_of order.new.items ≡ map step_of order.old.items ++ map (λ b. binds b isolate over) (map binding_of bindings.now)) }
{
    for binding in bindings {
        order.push(LinkStep::Binds(binding.copied(alloc)?, isolate, over))?;
    }
    Ok(())
}

/// The functions of directives are installed.
fn add_installs(
    order: &mut Vec<LinkStep>,
    uses: &Uses,
    scopes: &Scopes,
    directives: &[u32],
) -> Result<(), AllocError>
    ensures { OnOk result (map step_of order.new.items ≡ map step_of order.old.items ++ map (λ d. installs d (scope_of (uses_of uses.now) (scopes_of scopes.now) d)) directives.now) }
{
    for directive in directives {
        let scope = scope_of(uses, scopes, *directive);
        order.push(LinkStep::Installs(*directive, scope))?;
    }
    Ok(())
}

/// Their watches, listeners and programs come.
fn add_leaves(
    order: &mut Vec<LinkStep>,
    uses: &Uses,
    scopes: &Scopes,
    directives: &[u32],
) -> Result<(), AllocError>
    ensures { OnOk result (map step_of order.new.items ≡ map step_of order.old.items ++ map (λ d. leaves d (scope_of (uses_of uses.now) (scopes_of scopes.now) d)) directives.now) }
{
    for directive in directives {
        let scope = scope_of(uses, scopes, *directive);
        order.push(LinkStep::Leaves(*directive, scope))?;
    }
    Ok(())
}

/// What directives do before the programs of their element.
fn add_uses(
    order: &mut Vec<LinkStep>,
    alloc: Global,
    uses: &Uses,
    scopes: &Scopes,
) -> Result<(), Memory>
    ensures { OnOk result (map step_of order.new.items ≡ map step_of order.old.items ++ uses_entered (scopes_of scopes.now) (uses_of uses.now)) }
{
    add_openings(order, uses, scopes)?;
    add_bindings(
        order,
        alloc,
        scopes.isolate,
        scopes.own,
        uses.bindings.as_slice(),
    )?;
    add_installs(order, uses, scopes, uses.directives.as_slice())?;
    Ok(())
}

/// What an element's directives do before its programs: their scopes are made, properties are bound, and functions are installed.
fn add_entering(order: &mut Vec<LinkStep>, alloc: Global, acts: &Acts) -> Result<(), Memory>
    ensures { OnOk result (map step_of order.new.items ≡ map step_of order.old.items ++ entering_steps (acts_of acts.now)) }
{
    match &acts.uses {
        None => Ok(()),
        Some(uses) => add_uses(order, alloc, uses, &acts.scopes),
    }
}

/// What they do behind its contents.
fn add_leaving(order: &mut Vec<LinkStep>, acts: &Acts) -> Result<(), AllocError>
    ensures { OnOk result (map step_of order.new.items ≡ map step_of order.old.items ++ leaving_steps (acts_of acts.now)) }
{
    match &acts.uses {
        None => Ok(()),
        Some(uses) => add_leaves(order, uses, &acts.scopes, uses.directives.as_slice()),
    }
}

/// The scope of what a slot is given.
fn add_slot(order: &mut Vec<LinkStep>, acts: &Acts) -> Result<(), AllocError>
    ensures { OnOk result (map step_of order.new.items ≡ map step_of order.old.items ++ slot_steps (scopes_of acts.now.scopes)) }
{
    match acts.scopes.slot {
        None => Ok(()),
        Some(outside) => {
            order.push(LinkStep::Opens(Opening::Slot(acts.scopes.own, outside)))?;
            Ok(())
        }
    }
}

/// What comes before the contents of an element: its node, its directives' scopes, its programs and its own sites.
fn add_before(
    order: &mut Vec<LinkStep>,
    alloc: Global,
    own: &[u32],
    acts: &Acts,
) -> Result<(), Memory>
    ensures { OnOk result (map step_of order.new.items ≡ map step_of order.old.items ++ makes ∷ (entering_steps (acts_of acts.now) ++ (map (starts acts.now.scopes.own) (acts_of acts.now).starts ++ (map (λ n. registers) own.now ++ slot_steps (scopes_of acts.now.scopes))))) }
{
    order.push(LinkStep::Makes)?;
    add_entering(order, alloc, acts)?;
    add_starts(order, alloc, acts.scopes.own, acts.starts.as_slice())?;
    add_own(order, own)?;
    add_slot(order, acts)?;
    Ok(())
}

/// An element.
#[cycle(ordering)]
fn add_element(
    order: &mut Vec<LinkStep>,
    alloc: Global,
    own: &[u32],
    acts: &Acts,
    contents: &Contents,
) -> Result<(), Memory>
    ensures { OnOk result (map step_of order.new.items ≡ map step_of order.old.items ++ element_steps (acts_of acts.now) own.now (content_steps (contents_of contents.now))) }
{
    if acts.scopes.deep {
        order.push(LinkStep::Stops)?;
        return Ok(());
    }
    add_before(order, alloc, own, acts)?;
    add_contents(order, alloc, contents)?;
    add_leaving(order, acts)?;
    Ok(())
}

/// A part.
#[cycle(ordering)]
fn add_part(order: &mut Vec<LinkStep>, alloc: Global, part: &Part) -> Result<(), Memory>
    ensures { OnOk result (map step_of order.new.items ≡ map step_of order.old.items ++ part_steps (part_of part.now)) }
{
    match part {
        Part::Text(pieces) => {
            order.push(LinkStep::Makes)?;
            Ok(add_pieces(order, pieces.as_slice())?)
        }
        Part::Comment(_) => {
            order.push(LinkStep::Makes)?;
            Ok(())
        }
        Part::Anchor {
            outlet,
            own,
            starts,
        } => {
            order.push(LinkStep::Makes)?;
            add_starts_at(order, alloc, *outlet, starts.as_slice())?;
            add_own(order, own.as_slice())?;
            Ok(())
        }
        Part::Element {
            own,
            acts,
            contents,
            ..
        } => add_element(order, alloc, own.as_slice(), acts, contents),
    }
}

/// What an element contains.
#[cycle(ordering)]
fn add_contents(order: &mut Vec<LinkStep>, alloc: Global, contents: &Contents) -> Result<(), Memory>
    ensures { OnOk result (map step_of order.new.items ≡ map step_of order.old.items ++ content_steps (contents_of contents.now)) }
{
    match contents {
        Contents::Children(parts) => add_parts(order, alloc, parts.as_slice()),
        Contents::Bound(_) => {
            order.push(LinkStep::Makes)?;
            Ok(())
        }
    }
}

/// Parts.
#[cycle(ordering)]
pub fn add_parts(order: &mut Vec<LinkStep>, alloc: Global, parts: &[Part]) -> Result<(), Memory>
    ensures { OnOk result (map step_of order.new.items ≡ map step_of order.old.items ++ steps (parts_from (map part_of parts.now))) }
{
    for part in parts {
        add_part(order, alloc, part)?;
    }
    Ok(())
}
