//! What an element does, where its sites come after so many others (API: ngInclude).
ghost use Rattle.std.specs.Prelude.{◌≡◌, map, option_map, IfOk};
ghost use Rattle.ng_drawing.specs.Included.{later, later_piece, later_source, later_binding, later_uses, later_control, later_acts};
ghost use Rattle.ng_parts.specs.ActsOf.{control_of, source_of, binding_of, uses_of, acts_of};
ghost use Rattle.ng_parts.specs.PieceOf.{piece_of};

use ng_base::fault::Memory;
use ng_parts::acts::{
    Acts, Binding, Modelled, Source, Uses, control_at, copied_handlers, copied_numbers,
    copied_program, copied_programs,
};
use ng_parts::pieces::{Piece, Pieces};
use ng_parts::site::after;
use std::alloc::Global;

/// The numbers of sites.
pub(crate) fn later_numbers(alloc: Global, by: u32, numbers: &[u32]) -> Result<Vec<u32>, Memory>
    ensures { IfOk result (λ v. v.items ≡ later by numbers.now) }
{
    let mut moved = Vec::new(alloc);
    for n in numbers {
        moved.push(after(by, *n)?)?;
    }
    Ok(moved)
}

/// A piece of a text.
fn later_piece(by: u32, piece: &Piece) -> Result<Piece, Memory>
    ensures { IfOk result (λ p. piece_of p ≡ later_piece by (piece_of piece.now)) }
{
    match piece {
        Piece::Word(word) => Ok(Piece::Word(word.copied()?)),
        Piece::Hole(n) => Ok(Piece::Hole(after(by, *n)?)),
    }
}

/// The pieces of a text.
pub(crate) fn later_pieces(alloc: Global, by: u32, pieces: &Pieces) -> Result<Pieces, Memory>
    ensures { IfOk result (λ p. p ≡ map (later_piece by) pieces.now) }
{
    let mut moved = Pieces::new(alloc);
    for piece in pieces.as_slice() {
        moved.push(later_piece(by, piece)?)?;
    }
    Ok(moved)
}

/// The control that an element is.
fn later_control(
    alloc: Global,
    by: u32,
    control: &Option<Modelled>,
) -> Result<Option<Modelled>, Memory>
    ensures { IfOk result (λ c. option_map control_of c ≡ option_map (later_control by) (option_map control_of control.now)) }
{
    match control {
        None => Ok(None),
        Some(control) => {
            let site = after(by, control.site)?;
            Ok(Some(control_at(alloc, site, control)?))
        }
    }
}

/// Where a property comes from.
fn later_source(alloc: Global, by: u32, source: &Source) -> Result<Source, Memory>
    ensures { IfOk result (λ s. source_of s ≡ later_source by (source_of source.now)) }
{
    match source {
        Source::Text(pieces) => Ok(Source::Text(later_pieces(alloc, by, pieces)?)),
        Source::Nothing => Ok(Source::Nothing),
        Source::OneWay(n) => Ok(Source::OneWay(after(by, *n)?)),
        Source::TwoWay(n, program) => {
            let site = after(by, *n)?;
            Ok(Source::TwoWay(site, copied_program(alloc, program)?))
        }
        Source::Call(program) => Ok(Source::Call(program.copied(alloc)?)),
    }
}

/// A property of an isolate scope.
fn later_binding(alloc: Global, by: u32, binding: &Binding) -> Result<Binding, Memory>
    ensures { IfOk result (λ b. binding_of b ≡ later_binding by (binding_of binding.now)) }
{
    Ok(Binding {
        name: binding.name.copied()?,
        source: later_source(alloc, by, &binding.source)?,
    })
}

/// The bindings of an isolate scope.
fn later_bindings(alloc: Global, by: u32, bindings: &[Binding]) -> Result<Vec<Binding>, Memory>
    ensures { IfOk result (λ v. map binding_of v.items ≡ map (later_binding by) (map binding_of bindings.now)) }
{
    let mut moved = Vec::new(alloc);
    for binding in bindings {
        moved.push(later_binding(alloc, by, binding)?)?;
    }
    Ok(moved)
}

/// The directives of an element.
fn later_uses(alloc: Global, by: u32, uses: &Uses) -> Result<Uses, Memory>
    ensures { IfOk result (λ u. uses_of u ≡ later_uses by (uses_of uses.now)) }
{
    Ok(Uses {
        directives: copied_numbers(alloc, uses.directives.as_slice())?,
        child: uses.child,
        isolate: uses.isolate,
        bindings: later_bindings(alloc, by, uses.bindings.as_slice())?,
        template: uses.template,
        apart: uses.apart,
        passes: uses.passes,
        content: uses.content,
    })
}

/// The directives of an element, if it has some.
fn later_some(alloc: Global, by: u32, uses: &Option<Uses>) -> Result<Option<Uses>, Memory>
    ensures { IfOk result (λ u. option_map uses_of u ≡ option_map (later_uses by) (option_map uses_of uses.now)) }
{
    match uses {
        None => Ok(None),
        Some(uses) => Ok(Some(later_uses(alloc, by, uses)?)),
    }
}

/// What an element does.
pub(crate) fn later_acts(alloc: Global, by: u32, acts: &Acts) -> Result<Acts, Memory>
    ensures { IfOk result (λ a. acts_of a ≡ later_acts by (acts_of acts.now)) }
{
    Ok(Acts {
        starts: copied_programs(alloc, acts.starts.as_slice())?,
        handlers: copied_handlers(alloc, acts.handlers.as_slice())?,
        control: later_control(alloc, by, &acts.control)?,
        uses: later_some(alloc, by, &acts.uses)?,
        slot: acts.slot,
        scopes: acts.scopes,
    })
}
