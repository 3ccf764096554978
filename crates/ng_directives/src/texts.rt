//! Texts: their parts and what is wrong with them (guide: Interpolation).
ghost use Rattle.std.specs.Prelude.{List, Result, ◌≡◌, ◌++◌, ◌∷◌, ◌+◌, ◌≤◌, [], map, length, true, false, None, IfOk, OnOk};
ghost use Rattle.std.specs.List.{list_all};
ghost use Rattle.ng_base.specs.Meets.{Gives};
ghost use Rattle.ng_drawing.specs.Template.{Site as TemplateSite};
ghost use Rattle.ng_drawing.specs.declared.kind.SiteKind.{SiteKind};
ghost use Rattle.ng_interp.specs.declared.pieces.InterpFault.{InterpFault};
ghost use Rattle.ng_interp.specs.Parts.{Piece as InterpPiece, is_free, piece_of, pieces_on, pieces_in};
ghost use Rattle.ng_directives.specs.Limits.{site_limit, worn as worn_of};
ghost use Rattle.ng_directives.specs.Places.{first_place, other_places};
ghost use Rattle.ng_directives.specs.Free.{is_tpl_want};
ghost use Rattle.ng_parts.specs.FragmentOf.{sites_of};
ghost use Rattle.ng_directives.specs.Texts.{refused, is_known, is_pure as is_pure_piece, wrong as wrong_with, judged, numbered, sites_in, counted};

use crate::fault::{TplFault, TplKind};
use crate::known::Known;
use ng_base::fault::Memory;
use ng_base::txt::Txt;
use ng_drawing::kind::SiteKind;
use ng_interp::{Cut, InterpFault, InterpKind, Part, any_hole, cut_text};
use ng_parts::pieces::{Piece, Pieces};
use ng_parts::site::Site;
use ng_purity::{filters_known, is_pure};
use std::alloc::{AllocError, Global};

/// The first place, and those after it.
pub fn first_of(places: &[u64]) -> (u64, &[u64])
    ensures first { result.0 ≡ first_place places.now }
    ensures others { result.1.now ≡ other_places places.now }
{
    match places.split_first() {
        None => (0, places),
        Some((first, others)) => (*first, others),
    }
}

/// The refusal of what stands at a place.
pub fn refusal(kind: TplKind, place: u64) -> TplFault
    ensures { result ≡ refused kind place }
{
    TplFault { place, kind }
}

/// Memory was refused.
pub fn want() -> TplFault
    ensures { is_tpl_want result ≡ true }
{
    refusal(TplKind::Memory(Memory::Refused), 0)
}

/// Whether memory was refused.
pub fn is_want(fault: TplFault) -> bool
    ensures { result ≡ is_tpl_want fault }
{
    match fault.kind {
        TplKind::Memory(Memory::Refused) => fault.place == 0,
        _ => false,
    }
}

/// There is no number left for a site.
pub fn worn() -> TplFault
    ensures { result ≡ worn_of }
{
    refusal(TplKind::Memory(Memory::Worn), 0)
}

/// Why what could not be read is refused: Expression at its place, unless memory was refused.
pub fn unread(place: u64, fault: InterpFault) -> TplFault
    ensures fault { is_free fault ≡ false → result ≡ refused TplKind.Expression place }
    ensures want { is_free fault ≡ true → is_tpl_want result ≡ true }
{
    match fault.kind {
        InterpKind::Memory(_) => want(),
        _ => refusal(TplKind::Expression, place),
    }
}

/// Adds a part at the end.
pub(crate) fn push(parts: &mut Vec<Part>, part: Part) -> Result<(), AllocError>
    ensures { OnOk result (parts.new.items ≡ parts.old.items ++ part ∷ []) }
{
    parts.push(part)?;
    Ok(())
}

/// The parts of cuts.
fn read_cuts(
    alloc: Global,
    known: &mut Known,
    escapes: bool,
    cuts: &[Cut],
) -> Result<Vec<Part>, InterpFault>
    ensures { Gives is_free (λ v. map piece_of v.items) (pieces_on escapes [] cuts.now) result }
{
    let mut parts = Vec::new(alloc);
    for cut in cuts {
        let part = known.part(escapes, cut)?;
        push(&mut parts, part)?;
    }
    Ok(parts)
}

/// The parts of a text.
pub fn read_pieces(alloc: Global, known: &mut Known, text: &Txt) -> Result<Vec<Part>, InterpFault>
    ensures { Gives is_free (λ v. map piece_of v.items) (pieces_in text.now) result }
{
    let cuts = cut_text(alloc, text)?;
    read_cuts(alloc, known, any_hole(cuts.as_slice()), cuts.as_slice())
}

/// Whether the filters of all holes are there.
pub fn are_known(parts: &[Part]) -> bool
    ensures { result ≡ list_all is_known (map piece_of parts.now) }
{
    for part in parts {
        if let Part::Hole { program, .. } = part {
            if !filters_known(program) {
                return false;
            }
        }
    }
    true
}

/// Whether all holes are pure.
pub fn are_pure(parts: &[Part]) -> bool
    ensures { result ≡ list_all is_pure_piece (map piece_of parts.now) }
{
    for part in parts {
        if let Part::Hole { program, .. } = part {
            if !is_pure(program) {
                return false;
            }
        }
    }
    true
}

/// What is wrong with the holes of a text.
fn wrong(parts: &[Part]) -> Option<TplKind>
    ensures wrong { result ≡ wrong_with (map piece_of parts.now) }
    ensures known { result ≡ None → list_all is_known (map piece_of parts.now) ≡ true }
    ensures pure { result ≡ None → list_all is_pure_piece (map piece_of parts.now) ≡ true }
{
    if !are_known(parts) {
        return Some(TplKind::UnknownFilter);
    }
    if !are_pure(parts) {
        return Some(TplKind::Impure);
    }
    None
}

/// Parts that were read of what stands at a place, unless something is wrong with its holes.
pub(crate) fn judged_parts(
    place: u64,
    read: Result<Vec<Part>, InterpFault>,
) -> Result<Vec<Part>, TplFault>
    ensures parts { (asked : Result (List InterpPiece) InterpFault) → Gives is_free (λ v. map piece_of v.items) asked read → Gives is_tpl_want (λ v. map piece_of v.items) (judged place asked) result }
    ensures known { IfOk result (λ v. list_all is_known (map piece_of v.items) ≡ true) }
    ensures pure { IfOk result (λ v. list_all is_pure_piece (map piece_of v.items) ≡ true) }
    ensures same { IfOk result (λ v. read ≡ Ok v) }
{
    match read {
        Err(fault) => match fault.kind {
            InterpKind::Memory(_) => Err(want()),
            _ => Err(refusal(TplKind::Expression, place)),
        },
        Ok(parts) => match wrong(parts.as_slice()) {
            Some(kind) => Err(refusal(kind, place)),
            None => Ok(parts),
        },
    }
}

/// The parts of a text that begins at a place, unless something is wrong with its holes.
pub fn read_text(
    alloc: Global,
    known: &mut Known,
    place: u64,
    text: &Txt,
) -> Result<Vec<Part>, TplFault>
    ensures parts { Gives is_tpl_want (λ v. map piece_of v.items) (judged place (pieces_in text.now)) result }
    ensures known { IfOk result (λ v. list_all is_known (map piece_of v.items) ≡ true) }
    ensures pure { IfOk result (λ v. list_all is_pure_piece (map piece_of v.items) ≡ true) }
{
    judged_parts(place, read_pieces(alloc, known, text))
}

/// How many holes there are.
pub fn count_holes(parts: &[Part]) -> usize
    ensures count { (kind : SiteKind) → result ≡ length (sites_in kind (map piece_of parts.now)) }
    ensures few { result ≤ length parts.now }
{
    let mut count = 0;
    for part in parts {
        if let Part::Hole { .. } = part {
            count += 1;
        }
    }
    count
}

/// The pieces of parts, whose sites, of this kind, come after those before.
pub fn place_parts(
    alloc: Global,
    kind: SiteKind,
    before: Vec<Site>,
    parts: Vec<Part>,
) -> Result<(Pieces, Vec<Site>), AllocError>
    requires known { list_all is_known (map piece_of parts.items) ≡ true }
    requires pure { list_all is_pure_piece (map piece_of parts.items) ≡ true }
    requires fits { length before.items + length (sites_in kind (map piece_of parts.items)) ≤ site_limit }
    ensures pieces { IfOk result (λ r. r.0 ≡ numbered (length before.items) (map piece_of parts.items)) }
    ensures sites { IfOk result (λ r. sites_of r.1.items ≡ sites_of before.items ++ sites_in kind (map piece_of parts.items)) }
{
    let mut pieces = Pieces::new(alloc);
    let mut sites = before;
    for part in parts {
        match part {
            Part::Words(text) => pieces.push(Piece::Word(text))?,
            Part::Hole { one_time, program } => {
                pieces.push(Piece::Hole(sites.len() as u32))?;
                sites.push(Site::new(kind, one_time, program))?;
            }
        }
    }
    Ok((pieces, sites))
}

/// The numbers from one on up to another are added.
#[tactic(auto, using(crate::proofs::Numbers::number_steps))]
pub fn add_numbers(own: &mut Vec<u32>, first: u32, count: usize) -> Result<(), AllocError>
    requires { first + count ≤ 4294967295 }
    ensures { OnOk result ((xs : List TemplateSite) → length xs ≡ count → own.new.items ≡ own.old.items ++ counted first xs) }
{
    for i in 0..count {
        own.push(first + i as u32)?;
    }
    Ok(())
}
