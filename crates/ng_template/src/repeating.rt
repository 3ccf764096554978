//! The text of a repeat: its collection, its names, and what its rows are tracked by (API: ngRepeat, "Arguments").
ghost use Rattle.std.specs.Prelude.{◌≡◌, true, option_map};
ghost use Rattle.ng_base.specs.Meets.{Gives};
ghost use Rattle.ng_blocks.specs.Repeats.{repeat_of};
ghost use Rattle.ng_parse.specs.ProgramOf.{program as trees};
ghost use Rattle.ng_template.specs.Around.{at_place};
ghost use Rattle.ng_directives.specs.Free.{is_tpl_want};
ghost use Rattle.ng_parts.specs.RepeatedOf.{track_of, repeated_of};
ghost use Rattle.ng_template.specs.Repeating.{if_tracked, wrong_repeat, said_as, parted, repeat_in};
ghost use Rattle.ng_parts.specs.SiteOf.{site_of};
ghost use Rattle.ng_evaluation.specs.Purity.{are_pure, all_filters_known};

use ng_base::txt::Txt;
use ng_blocks::{Repeat, RepeatFault, parse_repeat};
use ng_directives::fault::{TplFault, TplKind};
use ng_directives::texts::{refusal, want};
use ng_drawing::kind::SiteKind;
use ng_parse::Program;
use ng_parts::repeated::Repeated;
use ng_parts::site::Site;
use ng_parts::track::Track;
use ng_purity::{filters_known, is_pure};
use std::alloc::Global;

/// The site of a repeat's collection, and what the repeat says beside that.
#[derive(Drop)]
pub(crate) struct Repeating {
    pub(crate) site: Site,
    pub(crate) repeated: Repeated,
}

/// Whether the filters of a track expression are there.
fn is_track_known(track: &Option<Program>) -> bool
    ensures { result ≡ if_tracked all_filters_known (option_map trees track.now) }
{
    match track {
        None => true,
        Some(program) => filters_known(program),
    }
}

/// Whether a track expression is pure.
fn is_track_pure(track: &Option<Program>) -> bool
    ensures { result ≡ if_tracked are_pure (option_map trees track.now) }
{
    match track {
        None => true,
        Some(program) => is_pure(program),
    }
}

/// Rows are tracked by a program, where there is one.
fn track_by(program: Option<Program>) -> Option<Track>
    requires known { if_tracked all_filters_known (option_map trees program) ≡ true }
    requires pure { if_tracked are_pure (option_map trees program) ≡ true }
    ensures { option_map track_of result ≡ option_map trees program }
{
    match program {
        None => None,
        Some(program) => Some(Track::new(program)),
    }
}

/// What a repeat says, unless something is wrong with its expressions.
fn judged(place: u64, repeat: Repeat) -> Result<Repeating, TplFault>
    ensures { Gives is_tpl_want (λ r. (site_of r.site, repeated_of r.repeated)) (at_place place (parted (said_as (wrong_repeat (repeat_of repeat)) (repeat_of repeat)))) result }
{
    if !(filters_known(&repeat.source) && is_track_known(&repeat.track)) {
        return Err(refusal(TplKind::UnknownFilter, place));
    }
    if !(is_pure(&repeat.source) && is_track_pure(&repeat.track)) {
        return Err(refusal(TplKind::Impure, place));
    }
    let Repeat {
        key,
        name,
        one_time,
        source,
        track,
    } = repeat;
    Ok(Repeating {
        site: Site::new(SiteKind::Collection, one_time, source),
        repeated: Repeated {
            key,
            name,
            track: track_by(track),
        },
    })
}

/// What the text of a repeat says, unless something is wrong with it.
pub(crate) fn read_repeat(alloc: Global, place: u64, text: &Txt) -> Result<Repeating, TplFault>
    ensures { Gives is_tpl_want (λ r. (site_of r.site, repeated_of r.repeated)) (at_place place (repeat_in text.now)) result }
{
    match parse_repeat(alloc, text.as_str()) {
        Err(RepeatFault::BadRepeat) => Err(refusal(TplKind::BadRepeat, place)),
        Err(RepeatFault::Expression) => Err(refusal(TplKind::Expression, place)),
        Err(RepeatFault::Memory(_)) => Err(want()),
        Ok(repeat) => judged(place, repeat),
    }
}
