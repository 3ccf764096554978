//! The bindings of an isolate scope whose source is a text with holes (guide: Directives, "Isolating the Scope of a Directive"; API: `$compile`,
//! `scope`, `@`).
ghost use Rattle.std.specs.Prelude.{ℕ, ◌≡◌, ◌<◌, ◌≤◌, ◌++◌, ◌∷◌, [], List, Option, Result, Some, length, map, option_map, drop, slice_get, IfSome, IfOk, OnOk};
ghost use Rattle.std.specs.List.{AllByRecursion};
ghost use Rattle.ng_base.specs.Faults.{is_memory};
ghost use Rattle.ng_base.specs.Meets.{Gives};
ghost use Rattle.ng_base.specs.declared.fault.Fault.{Fault as FaultOf};
ghost use Rattle.ng_behaviour.specs.Scopes.{object_at};
ghost use Rattle.ng_core.specs.Frames as cores;
ghost use Rattle.ng_core.specs.Frames.{Acts};
ghost use Rattle.ng_drawing.specs.Instance.{text_now, text_view};
ghost use Rattle.ng_drawing.specs.Template.{Piece as PieceOf, hole, Site};
ghost use Rattle.ng_steps.specs.LinkBindings.{hole_shown, piece_shown, and_shown, shown_over, joined_with, set_to_text, bound_pieces, numbers_of};
ghost use Rattle.ng_steps.specs.Links.{registered_many, keep_last, texts_kept, bounds_noted, text_bound};
ghost use Rattle.ng_steps.specs.LinkingOf.{linking, texts_of};
ghost use Rattle.ng_changes.specs.Whole.{IsWhole, NoWant, Unless};
ghost use Rattle.ng_instances.specs.BoundOf.{piece_of, bound_of as bound_seen, bounds_of, registered_of};
ghost use Rattle.ng_link.specs.Calls.{with_core};
ghost use Rattle.ng_build.specs.Linking.{piece_steps};
ghost use Rattle.ng_link.specs.State.{state_of, templates_of};
ghost use Rattle.ng_build.specs.StepOf.{IsWatchable};
ghost use Rattle.ng_parse.specs.ProgramOf.{program as trees_of};
ghost use Rattle.ng_parts.specs.PieceOf.{piece_of as seen_piece};
ghost use Rattle.ng_value.specs.Snaps.{snap_of};

use crate::binding::{note_in, program_at, set_name, value_over};
use crate::progress::{Progress, register_site};
use ng_base::fault::{Fault, Memory};
use ng_base::name::ScopeId;
use ng_base::txt::Txt;
use ng_base::value::Value;
use ng_base::view::View;
use ng_changes::following::hand_over;
use ng_instances::instances::{Bound, BoundPiece};
use ng_instances::linking::Registered;
use ng_instances::sites::copied_bound;
use ng_link::works::Works;
use ng_parse::Program;
use ng_parts::{Piece, Pieces};
use ng_value::snapshot::Snap;
use ng_value::texts::show_text;
use std::alloc::{AllocError, Global};
use std::collections::BTreeMap;

/// A piece of a text's binding. A hole is a site that gets the next number of registration.
fn register_piece(
    works: &mut Works,
    piece: &Piece,
    done: &mut Progress,
) -> Result<BoundPiece, Memory>
    requires whole { IsWhole works.old }
    ensures registered { OnOk result (linking works.new done.new ≡ registered_many (piece_steps (seen_piece piece.now ∷ [])) (linking works.old done.old)) }
    ensures piece { IfOk result (λ b. (ps : List PieceOf) (ns : List ℕ) → bound_pieces (seen_piece piece.now ∷ ps) (numbers_of (piece_of b) ++ ns) ≡ piece_of b ∷ bound_pieces ps ns) }
    ensures serials { IfOk result (λ b. done.new.made.serials.items ≡ done.old.made.serials.items ++ numbers_of (piece_of b)) }
    ensures at_hand { (registered_of done.new.made).at_hand ≡ (registered_of done.old.made).at_hand }
    ensures scopes { works.new.core.scopes ≡ works.old.core.scopes }
    ensures grown { OnOk result (length works.old.core.store ≤ length works.new.core.store) }
    ensures whole { OnOk result (IsWhole works.new) }
    ensures templates { templates_of works.new ≡ templates_of works.old }
{
    match piece {
        Piece::Word(word) => Ok(BoundPiece::Word(word.copied()?)),
        Piece::Hole(_) => Ok(BoundPiece::Hole(register_site(works, done)?)),
    }
}

/// The pieces of a text's binding, whose holes are sites that get the next numbers of registration.
fn register_pieces(
    works: &mut Works,
    alloc: Global,
    pieces: &Pieces,
    done: &mut Progress,
) -> Result<Vec<BoundPiece>, Memory>
    requires whole { IsWhole works.old }
    ensures registered { OnOk result (linking works.new done.new ≡ registered_many (piece_steps pieces.now) (linking works.old done.old)) }
    ensures pieces { IfOk result (λ v. map piece_of v.items ≡ bound_pieces pieces.now (drop (length done.old.made.serials.items) done.new.made.serials.items)) }
    ensures at_hand { (registered_of done.new.made).at_hand ≡ (registered_of done.old.made).at_hand }
    ensures scopes { works.new.core.scopes ≡ works.old.core.scopes }
    ensures grown { OnOk result (length works.old.core.store ≤ length works.new.core.store) }
    ensures whole { OnOk result (IsWhole works.new) }
    ensures templates { templates_of works.new ≡ templates_of works.old }
{
    let mut all = Vec::new(alloc);
    for piece in pieces.as_slice() {
        all.push(register_piece(works, piece, done)?)?;
    }
    Ok(all)
}

/// What the hole of a text shows over a scope.
#[tactic(auto, unfolding(ng_drawing::specs::Instance::text_now))]
fn shown_over(alloc: Global, works: &Works, over: ScopeId, program: &Program) -> Result<Txt, Fault>
    requires whole { IsWhole works.now }
    requires scope { over.0 < length works.now.core.scopes }
    requires watchable { IsWatchable (trees_of program.now) }
    ensures { Gives is_memory (λ (t : List ℕ). t) (text_now works.now.core.store (object_at works.now.core.scopes over.0) (trees_of program.now)) result }
{
    let value = value_over(alloc, works, over, program)?;
    Ok(show_text(alloc, &works.core.store, &value)?)
}

/// What a hole shows over a scope comes behind what is shown.
fn show_hole(
    alloc: Global,
    works: &Works,
    over: ScopeId,
    program: Option<&Program>,
    shown: &mut Vec<Txt>,
) -> Result<(), Fault>
    requires whole { IsWhole works.now }
    requires scope { over.0 < length works.now.core.scopes }
    requires watchable { IfSome program (λ p. IsWatchable (trees_of p.now)) }
    ensures { (x : Option Site) → option_map (λ p. trees_of p.now) program.entry ≡ option_map (λ (y : Site). y.program) x → Gives is_memory (λ u. shown.new.items) (and_shown shown.old.items (hole_shown over.0 (cores.state_of works.now.core) x)) result }
{
    match program {
        None => Ok(()),
        Some(program) => {
            shown.push(shown_over(alloc, works, over, program)?)?;
            Ok(())
        }
    }
}

/// What a piece shows over a scope, if it is a hole, comes behind what is shown.
fn show_piece(
    alloc: Global,
    works: &Works,
    over: ScopeId,
    programs: &[Program],
    piece: &Piece,
    shown: &mut Vec<Txt>,
) -> Result<(), Fault>
    requires whole { IsWhole works.now }
    requires scope { over.0 < length works.now.core.scopes }
    requires watchable { AllByRecursion IsWatchable (map trees_of programs.now) }
    ensures { (xs : List Site) → map trees_of programs.now ≡ map (λ (x : Site). x.program) xs → Gives is_memory (λ u. shown.new.items) (and_shown shown.old.items (piece_shown over.0 (slice_get xs) (seen_piece piece.now) (cores.state_of works.now.core))) result }
{
    match piece {
        Piece::Word(_) => Ok(()),
        Piece::Hole(n) => show_hole(alloc, works, over, program_at(programs, *n), shown),
    }
}

/// What the holes of a text show over a scope, up to the first that faults.
fn shown_all(
    alloc: Global,
    works: &Works,
    over: ScopeId,
    programs: &[Program],
    pieces: &Pieces,
) -> Result<Vec<Txt>, Fault>
    requires whole { IsWhole works.now }
    requires scope { over.0 < length works.now.core.scopes }
    requires watchable { AllByRecursion IsWatchable (map trees_of programs.now) }
    ensures { (xs : List Site) → map trees_of programs.now ≡ map (λ (x : Site). x.program) xs → Gives is_memory (λ v. v.items) (shown_over over.0 (slice_get xs) pieces.now (cores.state_of works.now.core)) result }
{
    let mut shown = Vec::new(alloc);
    for piece in pieces.as_slice() {
        show_piece(alloc, works, over, programs, piece, &mut shown)?;
    }
    Ok(shown)
}

/// The first of what is shown comes behind a text. The answer is what is left of it.
fn push_first<'a>(text: &mut Txt, shown: &'a [Txt]) -> Result<&'a [Txt], AllocError>
    ensures { IfOk result (λ left. (n : ℕ) (ps : List PieceOf) → text.new ++ joined_with ps left.now ≡ text.old ++ joined_with (hole n ∷ ps) shown.now) }
{
    match shown.split_first() {
        None => Ok(shown),
        Some((first, left)) => {
            text.push_txt(first)?;
            Ok(left)
        }
    }
}

/// The words of a piece come behind a text; those of a hole are the first of what is shown. The answer is what is left of it.
fn push_piece<'a>(text: &mut Txt, piece: &Piece, shown: &'a [Txt]) -> Result<&'a [Txt], AllocError>
    ensures { IfOk result (λ left. (ps : List PieceOf) → text.new ++ joined_with ps left.now ≡ text.old ++ joined_with (seen_piece piece.now ∷ ps) shown.now) }
{
    match piece {
        Piece::Word(word) => {
            text.push_txt(word)?;
            Ok(shown)
        }
        Piece::Hole(_) => push_first(text, shown),
    }
}

/// The text of pieces whose holes show these.
fn joined(alloc: Global, pieces: &Pieces, shown: &[Txt]) -> Result<Txt, AllocError>
    ensures { IfOk result (λ t. t ≡ joined_with pieces.now shown.now) }
{
    let mut text = Txt::new(alloc);
    let mut left = shown;
    for piece in pieces.as_slice() {
        left = push_piece(&mut text, piece, left)?;
    }
    Ok(text)
}

/// Texts come behind what sites keep.
fn keep_texts(kept: &mut Vec<Option<Snap>>, texts: Vec<Txt>) -> Result<(), AllocError>
    ensures { OnOk result (map (option_map snap_of) kept.new.items ≡ map (option_map snap_of) kept.old.items ++ map (λ t. Some (text_view t)) texts.items) }
{
    for text in texts {
        kept.push(Some(Snap::of_view(View::of_value(Value::Text(text)))))?;
    }
    Ok(())
}

/// The sites that were registered last keep texts.
fn keep_shown(shown: Vec<Txt>, made: &mut Registered) -> Result<(), AllocError>
    ensures kept { OnOk result (registered_of made.new ≡ record (registered_of made.old) { kept = keep_last (registered_of made.old).kept (map (λ t. Some (text_view t)) shown.items) }) }
    ensures at_hand { (registered_of made.new).at_hand ≡ (registered_of made.old).at_hand }
{
    let others = made.kept.len().saturating_sub(shown.len());
    made.kept.truncate(others);
    keep_texts(&mut made.kept, shown)
}

/// A name of a scope is set to a text with holes.
fn set_to_text(
    works: &mut Works,
    alloc: Global,
    scope: ScopeId,
    name: &Txt,
    over: ScopeId,
    programs: &[Program],
    pieces: &Pieces,
) -> Result<Vec<Txt>, Fault>
    requires whole { IsWhole works.old }
    requires scope { scope.0 < length works.old.core.scopes }
    requires over { over.0 < length works.old.core.scopes }
    requires watchable { AllByRecursion IsWatchable (map trees_of programs.now) }
    ensures run { (xs : List Site) → map trees_of programs.now ≡ map (λ (x : Site). x.program) xs → Acts (λ v. v.items) result (cores.state_of works.new.core) (set_to_text scope.0 name.now over.0 (slice_get xs) pieces.now (cores.state_of works.old.core)) }
    ensures rest { state_of works.new ≡ with_core (state_of works.new).core (state_of works.old) }
    ensures grown { length works.old.core.store ≤ length works.new.core.store }
    ensures count { length works.new.core.scopes ≡ length works.old.core.scopes }
    ensures whole { Unless result (IsWhole works.new) }
    ensures templates { templates_of works.new ≡ templates_of works.old }
{
    let shown = shown_all(alloc, works, over, programs, pieces)?;
    let text = joined(alloc, pieces, shown.as_slice())?;
    set_name(works, scope, name, Value::Text(text))?;
    Ok(shown)
}

/// The sites that were registered last keep the texts that a binding was set to, unless that met a fault, which is handed over.
fn keep_text(
    works: &mut Works,
    made: Result<Vec<Txt>, Fault>,
    done: &mut Progress,
) -> Result<(), Memory>
    requires whole { Unless made (IsWhole works.old) }
    ensures kept { (r : Result (List (List ℕ)) FaultOf) → Gives is_memory texts_of r made → OnOk result (linking works.new done.new ≡ texts_kept r (linking works.old done.old)) }
    ensures free { OnOk result (NoWant made) }
    ensures at_hand { (registered_of done.new.made).at_hand ≡ (registered_of done.old.made).at_hand }
    ensures scopes { works.new.core.scopes ≡ works.old.core.scopes }
    ensures grown { length works.old.core.store ≤ length works.new.core.store }
    ensures whole { OnOk result (IsWhole works.new) }
    ensures templates { templates_of works.new ≡ templates_of works.old }
{
    match made {
        Ok(shown) => {
            keep_shown(shown, &mut done.made)?;
            Ok(())
        }
        Err(Fault::Memory(memory)) => Err(memory),
        Err(f) => {
            hand_over(works, f);
            Ok(())
        }
    }
}

/// What the sites from one on write is noted, by their numbers of registration.
fn note_all(
    bounds: &mut BTreeMap<u64, Bound>,
    alloc: Global,
    serials: &[u64],
    first: usize,
    bound: &Bound,
) -> Result<(), Memory>
    ensures { OnOk result (bounds_of bounds.new.entries ≡ bounds_noted (drop first serials.now) (bound_seen bound.now) (bounds_of bounds.old.entries)) }
{
    for i in first..serials.len() {
        note_in(bounds, serials[i], copied_bound(alloc, bound)?)?;
    }
    Ok(())
}

/// What the sites from one on write is noted.
fn note_bound(
    made: &mut Registered,
    alloc: Global,
    first: usize,
    bound: &Bound,
) -> Result<(), Memory>
    ensures noted { OnOk result (registered_of made.new ≡ record (registered_of made.old) { bounds = bounds_noted (drop first made.old.serials.items) (bound_seen bound.now) (registered_of made.old).bounds }) }
    ensures at_hand { (registered_of made.new).at_hand ≡ (registered_of made.old).at_hand }
{
    note_all(
        &mut made.bounds,
        alloc,
        made.serials.as_slice(),
        first,
        bound,
    )
}

/// A property is bound to a text: each hole is a site. Where one faults, the first such fault is handed over, and nothing is set and kept.
pub(crate) fn bind_text(
    works: &mut Works,
    alloc: Global,
    name: &Txt,
    pieces: &Pieces,
    programs: &[Program],
    scope: ScopeId,
    over: ScopeId,
    done: &mut Progress,
) -> Result<(), Memory>
    requires whole { IsWhole works.old }
    requires scope { scope.0 < length works.old.core.scopes }
    requires over { over.0 < length works.old.core.scopes }
    requires watchable { AllByRecursion IsWatchable (map trees_of programs.now) }
    ensures bound { OnOk result ((xs : List Site) → map trees_of programs.now ≡ map (λ (x : Site). x.program) xs → linking works.new done.new ≡ text_bound scope.0 name.now over.0 (slice_get xs) pieces.now (linking works.old done.old)) }
    ensures at_hand { (registered_of done.new.made).at_hand ≡ (registered_of done.old.made).at_hand }
    ensures count { OnOk result (length works.new.core.scopes ≡ length works.old.core.scopes) }
    ensures grown { OnOk result (length works.old.core.store ≤ length works.new.core.store) }
    ensures whole { OnOk result (IsWhole works.new) }
    ensures templates { templates_of works.new ≡ templates_of works.old }
{
    let first = done.made.serials.len();
    let bound = Bound::Text {
        scope,
        name: name.copied()?,
        pieces: register_pieces(works, alloc, pieces, done)?,
    };
    note_bound(&mut done.made, alloc, first, &bound)?;
    let made = set_to_text(works, alloc, scope, name, over, programs, pieces);
    keep_text(works, made, done)
}
