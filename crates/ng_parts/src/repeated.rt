//! What a repeat says beside its collection (API: ngRepeat, "Arguments").
ghost use Rattle.std.specs.Prelude.{◌≡◌, true, option_map, IfOk};
ghost use Rattle.ng_parse.specs.ProgramOf.{program as trees};
ghost use Rattle.ng_parts.specs.RepeatedOf.{track_of, repeated_of};
ghost use Rattle.ng_evaluation.specs.Purity.{are_pure, all_filters_known};

use crate::track::Track;
use ng_base::txt::Txt;
use ng_parse::Program;
use std::alloc::{AllocError, Global};

/// What a repeat says beside its collection: the name of an item, that of its key, where it has one, and what its rows are tracked by.
#[derive(Drop)]
pub struct Repeated {
    pub key: Option<Txt>,
    pub name: Txt,
    pub track: Option<Track>,
}

/// A text again, where there is one.
fn copied_name(name: &Option<Txt>) -> Result<Option<Txt>, AllocError>
    ensures { IfOk result (λ n. n ≡ name.now) }
{
    match name {
        None => Ok(None),
        Some(name) => Ok(Some(name.copied()?)),
    }
}

/// A track expression again, where there is one.
fn copied_track(alloc: Global, track: &Option<Track>) -> Result<Option<Track>, AllocError>
    ensures { IfOk result (λ t. option_map track_of t ≡ option_map track_of track.now) }
{
    match track {
        None => Ok(None),
        Some(track) => Ok(Some(track.copied(alloc)?)),
    }
}

impl Track {
    /// Rows are tracked by a program.
    pub fn new(program: Program) -> Track
        requires known { all_filters_known (trees program) ≡ true }
        requires pure { are_pure (trees program) ≡ true }
        ensures { track_of result ≡ trees program }
    {
        Track { program }
    }

    /// The program.
    pub fn program(&self) -> &Program
        ensures program { trees result.now ≡ track_of self.now }
        ensures known { all_filters_known (trees result.now) ≡ true }
        ensures pure { are_pure (trees result.now) ≡ true }
    {
        &self.program
    }

    /// One more owner of the program.
    pub fn copied(&self, alloc: Global) -> Result<Track, AllocError>
        ensures { IfOk result (λ t. track_of t ≡ track_of self.now) }
    {
        match self.program.copied(alloc) {
            Ok(program) => Ok(Track { program }),
            Err(_) => Err(AllocError),
        }
    }
}

impl Repeated {
    /// The same again. Its texts and its program are shared.
    pub fn copied(&self, alloc: Global) -> Result<Repeated, AllocError>
        ensures { IfOk result (λ r. repeated_of r ≡ repeated_of self.now) }
    {
        Ok(Repeated {
            key: copied_name(&self.key)?,
            name: self.name.copied()?,
            track: copied_track(alloc, &self.track)?,
        })
    }
}
