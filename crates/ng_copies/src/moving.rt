//! What the parts of a fragment have the numbers of sites in, with the numbers that these get where they are composed (guide: Directives).
ghost use Rattle.std.specs.Prelude.{◌≡◌, map, option_map, IfOk};
ghost use Rattle.ng_parts.specs.ActsOf.{control_of, source_of, binding_of, uses_of, scopes_of, acts_of};
ghost use Rattle.ng_parts.specs.AttributeOf.{hiding_of, class_of, value_of};
ghost use Rattle.ng_drawing.specs.Moved.{found_in, moved_by, moved_piece, moved_hiding, moved_class, moved_value, moved_attributes, moved_control, moved_source, moved_binding, moved_uses, composed_acts};
ghost use Rattle.ng_parts.specs.PieceOf.{piece_of};

use ng_base::fault::Memory;
use ng_parts::acts::{
    Acts, Binding, Modelled, Scopes, Source, Uses, control_at, copied_handlers, copied_numbers,
    copied_program, copied_programs,
};
use ng_parts::classes::{ClassValue, Hiding};
use ng_parts::pieces::{AttributeValue, Attributes, Piece, Pieces};
use std::alloc::{AllocError, Global};

/// The number that a site got, if it got one.
pub fn found(moved: &[Option<u32>], n: u32) -> Option<u32>
    ensures { result ≡ found_in moved.now n }
{
    match moved.get(n as usize) {
        None => None,
        Some(m) => *m,
    }
}

/// The number that a site got.
pub fn number(moved: &[Option<u32>], n: u32) -> u32
    ensures { result ≡ moved_by moved.now n }
{
    match found(moved, n) {
        None => 0,
        Some(m) => m,
    }
}

/// The numbers that sites got.
pub fn moved_numbers(
    alloc: Global,
    moved: &[Option<u32>],
    numbers: &[u32],
) -> Result<Vec<u32>, AllocError>
    ensures { IfOk result (λ v. v.items ≡ map (moved_by moved.now) numbers.now) }
{
    let mut all = Vec::new(alloc);
    for n in numbers {
        all.push(number(moved, *n))?;
    }
    Ok(all)
}

/// A piece of a text.
fn moved_piece(moved: &[Option<u32>], piece: &Piece) -> Result<Piece, AllocError>
    ensures { IfOk result (λ p. piece_of p ≡ moved_piece (moved_by moved.now) (piece_of piece.now)) }
{
    match piece {
        Piece::Word(word) => Ok(Piece::Word(word.copied()?)),
        Piece::Hole(n) => Ok(Piece::Hole(number(moved, *n))),
    }
}

/// The pieces of a text.
pub fn moved_pieces(
    alloc: Global,
    moved: &[Option<u32>],
    pieces: &Pieces,
) -> Result<Pieces, AllocError>
    ensures { IfOk result (λ ps. ps ≡ map (moved_piece (moved_by moved.now)) pieces.now) }
{
    let mut all = Pieces::new(alloc);
    for piece in pieces.as_slice() {
        all.push(moved_piece(moved, piece)?)?;
    }
    Ok(all)
}

/// What hides an element.
fn moved_hiding(moved: &[Option<u32>], hiding: &Hiding) -> Hiding
    ensures { hiding_of result ≡ moved_hiding (moved_by moved.now) (hiding_of hiding.now) }
{
    match hiding {
        Hiding::WhileTrue(n) => Hiding::WhileTrue(number(moved, *n)),
        Hiding::WhileFalse(n) => Hiding::WhileFalse(number(moved, *n)),
    }
}

/// All that hides an element.
fn moved_hidings(
    alloc: Global,
    moved: &[Option<u32>],
    hidings: &[Hiding],
) -> Result<Vec<Hiding>, AllocError>
    ensures { IfOk result (λ v. map hiding_of v.items ≡ map (moved_hiding (moved_by moved.now)) (map hiding_of hidings.now)) }
{
    let mut all = Vec::new(alloc);
    for hiding in hidings {
        all.push(moved_hiding(moved, hiding))?;
    }
    Ok(all)
}

/// What a class is made of.
fn moved_class(
    alloc: Global,
    moved: &[Option<u32>],
    class: &ClassValue,
) -> Result<ClassValue, AllocError>
    ensures { IfOk result (λ c. class_of c ≡ moved_class (moved_by moved.now) (class_of class.now)) }
{
    Ok(ClassValue {
        written: class.written,
        pieces: moved_pieces(alloc, moved, &class.pieces)?,
        words: moved_numbers(alloc, moved, class.words.as_slice())?,
        hidings: moved_hidings(alloc, moved, class.hidings.as_slice())?,
    })
}

/// What an attribute gets.
fn moved_value(
    alloc: Global,
    moved: &[Option<u32>],
    value: &AttributeValue,
) -> Result<AttributeValue, AllocError>
    ensures { IfOk result (λ v. value_of v ≡ moved_value (moved_by moved.now) (value_of value.now)) }
{
    match value {
        AttributeValue::Always(pieces) => {
            Ok(AttributeValue::Always(moved_pieces(alloc, moved, pieces)?))
        }
        AttributeValue::UnlessEmpty(pieces) => {
            Ok(AttributeValue::UnlessEmpty(moved_pieces(alloc, moved, pieces)?))
        }
        AttributeValue::Flag(word, n) => {
            Ok(AttributeValue::Flag(word.copied()?, number(moved, *n)))
        }
        AttributeValue::Classes(class) => {
            Ok(AttributeValue::Classes(moved_class(alloc, moved, class)?))
        }
    }
}

/// The attributes of an element.
pub fn moved_attributes(
    alloc: Global,
    moved: &[Option<u32>],
    attributes: &Attributes,
) -> Result<Attributes, AllocError>
    ensures { IfOk result (λ a. a ≡ moved_attributes (moved_by moved.now) attributes.now) }
{
    let mut all = Attributes::new(alloc);
    for one in attributes.as_slice() {
        all.push(one.name.copied()?, moved_value(alloc, moved, &one.value)?)?;
    }
    Ok(all)
}

/// The control that an element is.
fn moved_control(
    alloc: Global,
    moved: &[Option<u32>],
    control: &Option<Modelled>,
) -> Result<Option<Modelled>, Memory>
    ensures { IfOk result (λ c. option_map control_of c ≡ option_map (moved_control (moved_by moved.now)) (option_map control_of control.now)) }
{
    match control {
        None => Ok(None),
        Some(control) => {
            let site = number(moved, control.site);
            Ok(Some(control_at(alloc, site, control)?))
        }
    }
}

/// Where a property comes from.
fn moved_source(alloc: Global, moved: &[Option<u32>], source: &Source) -> Result<Source, Memory>
    ensures { IfOk result (λ s. source_of s ≡ moved_source (moved_by moved.now) (source_of source.now)) }
{
    match source {
        Source::Text(pieces) => Ok(Source::Text(moved_pieces(alloc, moved, pieces)?)),
        Source::Nothing => Ok(Source::Nothing),
        Source::OneWay(n) => Ok(Source::OneWay(number(moved, *n))),
        Source::TwoWay(n, program) => {
            let site = number(moved, *n);
            Ok(Source::TwoWay(site, copied_program(alloc, program)?))
        }
        Source::Call(program) => Ok(Source::Call(program.copied(alloc)?)),
    }
}

/// A property of an isolate scope.
fn moved_binding(alloc: Global, moved: &[Option<u32>], binding: &Binding) -> Result<Binding, Memory>
    ensures { IfOk result (λ b. binding_of b ≡ moved_binding (moved_by moved.now) (binding_of binding.now)) }
{
    Ok(Binding {
        name: binding.name.copied()?,
        source: moved_source(alloc, moved, &binding.source)?,
    })
}

/// The bindings of an isolate scope.
fn moved_bindings(
    alloc: Global,
    moved: &[Option<u32>],
    bindings: &[Binding],
) -> Result<Vec<Binding>, Memory>
    ensures { IfOk result (λ v. map binding_of v.items ≡ map (moved_binding (moved_by moved.now)) (map binding_of bindings.now)) }
{
    let mut all = Vec::new(alloc);
    for binding in bindings {
        all.push(moved_binding(alloc, moved, binding)?)?;
    }
    Ok(all)
}

/// The directives of an element.
fn moved_uses(alloc: Global, moved: &[Option<u32>], uses: &Uses) -> Result<Uses, Memory>
    ensures { IfOk result (λ u. uses_of u ≡ moved_uses (moved_by moved.now) (uses_of uses.now)) }
{
    Ok(Uses {
        directives: copied_numbers(alloc, uses.directives.as_slice())?,
        child: uses.child,
        isolate: uses.isolate,
        bindings: moved_bindings(alloc, moved, uses.bindings.as_slice())?,
        template: uses.template,
        apart: uses.apart,
        passes: uses.passes,
        content: uses.content,
    })
}

/// The directives of an element, if it has some.
fn moved_some(
    alloc: Global,
    moved: &[Option<u32>],
    uses: &Option<Uses>,
) -> Result<Option<Uses>, Memory>
    ensures { IfOk result (λ u. option_map uses_of u ≡ option_map (moved_uses (moved_by moved.now)) (option_map uses_of uses.now)) }
{
    match uses {
        None => Ok(None),
        Some(uses) => Ok(Some(moved_uses(alloc, moved, uses)?)),
    }
}

/// What an element does, on these scopes.
pub fn moved_acts(
    alloc: Global,
    moved: &[Option<u32>],
    acts: &Acts,
    scopes: Scopes,
) -> Result<Acts, Memory>
    ensures { IfOk result (λ a. acts_of a ≡ composed_acts (moved_by moved.now) (acts_of acts.now) (scopes_of scopes)) }
{
    Ok(Acts {
        starts: copied_programs(alloc, acts.starts.as_slice())?,
        handlers: copied_handlers(alloc, acts.handlers.as_slice())?,
        control: moved_control(alloc, moved, &acts.control)?,
        uses: moved_some(alloc, moved, &acts.uses)?,
        slot: acts.slot,
        scopes,
    })
}
