//! Holes that were read before, by their text.
ghost use Rattle.std.specs.Prelude.{◌≡◌, true, Ok, IfErr, IfSome, MatchResult};
ghost use Rattle.ng_base.specs.Meets.{Gives};
ghost use Rattle.ng_interp.specs.Parts.{is_free, piece_of, hole_at, piece_at};
ghost use Rattle.ng_parse.specs.ProgramOf.{program as trees};
ghost use Rattle.ng_directives.specs.Shared.{ReadsAs};

use indexmap::IndexMap;
use ng_base::fault::Memory;
use ng_base::txt::Txt;
use ng_interp::{Cut, InterpFault, InterpKind, Part, read_hole, read_part};
use ng_lex::Tokens;
use ng_parse::Program;
use std::alloc::Global;
use std::marker::Model;

/// A hole that was read, seen as its text.
#[derive(Drop)]
pub struct Hole {
    text: Txt,
    one_time: bool,
    program: Program,
}

impl Model for Hole {
    ghost use Rattle.std.specs.Prelude.{ℕ, List};
    ghost use Rattle.ng_parse.specs.ProgramOf.{program as trees};
    ghost use Rattle.ng_directives.specs.Shared.{ReadsAs};

    ghost Value = { List ℕ };

    ghost view = { λ h. h.text };

    ghost invariant = { λ h. ReadsAs h.text h.one_time (trees h.program) };
}

/// Holes that were read, so that one with the same text shares the program.
#[derive(Drop)]
pub struct Known {
    alloc: Global,
    holes: IndexMap<Txt, Hole>,
    /// The list of tokens that all holes are read through.
    tokens: Tokens,
}

/// Memory was refused.
fn want() -> InterpFault
    ensures { is_free result ≡ true }
{
    InterpFault {
        place: 0,
        kind: InterpKind::Memory(Memory::Refused),
    }
}

/// One more owner of a program.
fn shared(alloc: Global, p: &Program) -> Result<Program, InterpFault>
    ensures { MatchResult result (λ q. trees q ≡ trees p.now) (λ e. is_free e ≡ true) }
{
    match p.copied(alloc) {
        Ok(copy) => Ok(copy),
        Err(_) => Err(want()),
    }
}

impl Hole {
    /// The hole, whose program has one owner more.
    fn part(&self, alloc: Global) -> Result<Part, InterpFault>
        ensures { MatchResult result (λ p. hole_at 0 self.now ≡ Ok (piece_of p)) (λ e. is_free e ≡ true) }
    {
        let program = shared(alloc, &self.program)?;
        Ok(Part::Hole {
            one_time: self.one_time,
            program,
        })
    }
}

/// A hole that was read.
fn read_before(text: Txt, once: bool, p: Program) -> Hole
    requires { ReadsAs text once (trees p) }
    ensures { result ≡ text }
{
    Hole {
        text,
        one_time: once,
        program: p,
    }
}

impl Known {
    /// No hole.
    pub fn new(alloc: Global) -> Known {
        Known {
            alloc,
            holes: IndexMap::new(alloc),
            tokens: Tokens::new(alloc),
        }
    }

    /// The hole with this text, if it was read.
    fn find(&self, text: &Txt) -> Option<&Hole>
        ensures { IfSome result (λ h. h.now ≡ text.now) }
    {
        let hole = self.holes.get(text)?;
        if hole.text.same(text) {
            Some(hole)
        } else {
            None
        }
    }

    /// Adds a hole.
    fn add(&mut self, text: &Txt, once: bool, p: Program) -> Result<(), Memory>
        requires { ReadsAs text.now once (trees p) }
    {
        let name = text.copied()?;
        let hole = read_before(text.copied()?, once, p);
        self.holes.insert(name, hole)?;
        Ok(())
    }

    /// Keeps a hole that was read.
    fn keep(&mut self, text: &Txt, part: &Part) -> Result<(), InterpFault>
        requires { hole_at 0 text.now ≡ Ok (piece_of part.now) }
        ensures { IfErr result (λ e. is_free e ≡ true) }
    {
        match part {
            Part::Words(_) => Ok(()),
            Part::Hole { one_time, program } => {
                let program = shared(self.alloc, program)?;
                match self.add(text, *one_time, program) {
                    Ok(()) => Ok(()),
                    Err(_) => Err(want()),
                }
            }
        }
    }

    /// The hole with this text, which begins at a place.
    pub fn hole(&mut self, place: usize, text: &Txt) -> Result<Part, InterpFault>
        ensures { Gives is_free piece_of (hole_at place text.now) result }
    {
        if let Some(hole) = self.find(text) {
            return hole.part(self.alloc);
        }
        let part = read_hole(self.alloc, &mut self.tokens, place, text)?;
        self.keep(text, &part)?;
        Ok(part)
    }

    /// The part of a cut.
    pub fn part(&mut self, escapes: bool, cut: &Cut) -> Result<Part, InterpFault>
        ensures { Gives is_free piece_of (piece_at escapes cut.now) result }
    {
        match cut {
            Cut::Words(_) => read_part(self.alloc, &mut self.tokens, escapes, cut),
            Cut::Hole(place, text) => self.hole(*place, text),
        }
    }
}
