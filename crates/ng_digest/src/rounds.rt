//! Rounds, up to one that isn't dirty.
ghost use Rattle.std.specs.Prelude.{◌≡◌, ◌<◌, ◌≤◌, ◌↔◌, ℕ, true, false, Some, None, Result, Err, IfOk, OnOk, IsOk};
ghost use Rattle.ng_digest.specs.Log.{zero_log};
ghost use Rattle.ng_digest.specs.Place.{MayAdvance, OnWorn};
ghost use Rattle.ng_digest.specs.declared.world.Stage.TheVariants.{Between, Draining, Calm};
ghost use Rattle.ng_digest.specs.Short.{Drains, Skips, Walks, Round, Rounds, Digests};
ghost use Rattle.ng_base.specs.declared.fault.Fault.{Fault};
ghost use Rattle.ng_digest.specs.declared.rounds.DigestFault.{DigestFault};
ghost use Rattle.ng_digest.specs.declared.rounds.DigestFault.TheVariants.{Infdig, FireLimit, AsyncLimit, Faulted};
ghost use Rattle.ng_digest.specs.Causes.{Unless, WhereWorn, IsOverFires, IsOverTasks, HasSettled, IsReport};
ghost use Rattle.ng_digest.specs.Plain.{Plain, PlainDigests};
ghost use Rattle.ng_digest.specs.Early.{plain_of, plain_answer, IsFresh, OnSettled};
ghost use Rattle.ng_digest.specs.Ends.{StageFound, StageWalked, StageRound, StageEnd, CountsRound, Finishes};

use crate::log::Report;
use crate::world::{Tested, World};
use ng_base::fault::{Fault, Memory};
use thiserror::Error;

/// The dirty rounds of a digest that are one too many.
const MANY_ROUNDS: u32 = 11;

/// The tasks of a digest.
const MANY_TASKS: u32 = 10_000;

/// The fires of a digest.
const MANY_FIRES: u32 = 1_000_000;

/// Where a search for a dirty key ended.
#[derive(Clone, Copy, Debug, PartialEq, Eq)]
pub enum Found {
    Nothing,
    Stopped,
    Fireable,
}

/// How a walk over the keys ended.
#[derive(Clone, Copy, Debug, PartialEq, Eq)]
pub enum Walked {
    ToEnd,
    Stopped,
    Limit,
}

/// How a round ended; a quiet one by a stop or at its end.
#[derive(Clone, Copy, Debug, PartialEq, Eq)]
pub enum RoundEnd {
    Quiet(bool),
    Busy,
    FireLimit,
    AsyncLimit,
}

/// How the rounds ended.
#[derive(Clone, Copy, Debug, PartialEq, Eq)]
pub enum End {
    Settled(bool),
    Infdig,
    FireLimit,
    AsyncLimit,
}

/// Why a digest did not succeed.
#[derive(Clone, Copy, Debug, PartialEq, Eq, Error)]
pub enum DigestFault {
    #[error("the eleventh round was dirty")]
    Infdig,
    #[error("one more watcher is dirty after 1,000,000 fires")]
    FireLimit,
    #[error("one more task waits after 10,000 tasks")]
    AsyncLimit,
    #[error("{count} faults, the first: {first}")]
    Faulted { first: Fault, count: u32 },
    #[error("{0}")]
    Memory(Memory),
}

/// Runs tasks while one waits. Answers whether ten thousand have run and another waits.
fn drain<W: World>(w: &mut W) -> Result<bool, Memory>
    requires stage { (W.moves.at w.old).stage ≡ Draining }
    requires holds { W.moves.Holds w.old }
    ensures run { IfOk result (λ over. Drains W.moves.machine (W.moves.at w.old) over (W.moves.at w.new)) }
    ensures stage { OnOk result ((W.moves.at w.new).stage ≡ Draining) }
    ensures calm { IfOk result (λ over. over ≡ false → W.moves.machine.waits (W.moves.at w.new).state ≡ false) }
    ensures holds { OnOk result (W.moves.Holds w.new) }
    ensures rounds { OnOk result ((W.moves.at w.new).log.dirty_rounds ≡ (W.moves.at w.old).log.dirty_rounds) }
    ensures worn { OnWorn result (W.moves.IsWorn w.new) }
{
    while w.waits() {
        if w.log().tasks >= MANY_TASKS {
            return Ok(true);
        }
        let _ran = w.task()?;
    }
    Ok(false)
}

/// Goes on to the next dirty key.
fn next_dirty<W: World>(w: &mut W) -> Result<Found, Memory>
    requires stage { MayAdvance (W.moves.at w.old).stage (W.moves.machine.waits (W.moves.at w.old).state) }
    requires holds { W.moves.Holds w.old }
    ensures run { IfOk result (λ found. Skips W.moves.machine (W.moves.at w.old) found (W.moves.at w.new)) }
    ensures stage { IfOk result (λ found. (W.moves.at w.new).stage ≡ StageFound found) }
    ensures holds { OnOk result (W.moves.Holds w.new) }
    ensures fires { OnOk result ((W.moves.at w.new).log.fires ≡ (W.moves.at w.old).log.fires) }
    ensures rounds { OnOk result ((W.moves.at w.new).log.dirty_rounds ≡ (W.moves.at w.old).log.dirty_rounds) }
    ensures worn { OnWorn result (W.moves.IsWorn w.new) }
{
    while w.advance()? {
        let remembered = w.last_dirty();
        let tested = w.test();
        match tested {
            Tested::Dirty => return Ok(Found::Fireable),
            Tested::Memory(e) => return Err(e),
            Tested::Clean | Tested::Faulted => {}
        }
        if remembered {
            return Ok(Found::Stopped);
        }
    }
    Ok(Found::Nothing)
}

/// Fires each dirty key, from the cursor upwards.
fn walk<W: World>(w: &mut W) -> Result<Walked, Memory>
    requires stage { MayAdvance (W.moves.at w.old).stage (W.moves.machine.waits (W.moves.at w.old).state) }
    requires holds { W.moves.Holds w.old }
    ensures run { IfOk result (λ end. Walks W.moves.machine (W.moves.at w.old) end (W.moves.at w.new)) }
    ensures stage { IfOk result (λ end. (W.moves.at w.new).stage ≡ StageWalked end) }
    ensures holds { OnOk result (W.moves.Holds w.new) }
    ensures rounds { OnOk result ((W.moves.at w.new).log.dirty_rounds ≡ (W.moves.at w.old).log.dirty_rounds) }
    ensures worn { OnWorn result (W.moves.IsWorn w.new) }
{
    loop {
        match next_dirty(w)? {
            Found::Nothing => return Ok(Walked::ToEnd),
            Found::Stopped => return Ok(Walked::Stopped),
            Found::Fireable => {}
        }
        if w.log().fires >= MANY_FIRES {
            return Ok(Walked::Limit);
        }
        w.fire()?;
    }
}

/// One round, up to its close.
fn round<W: World>(w: &mut W) -> Result<RoundEnd, Memory>
    requires stage { (W.moves.at w.old).stage ≡ Between }
    requires holds { W.moves.Holds w.old }
    ensures run { IfOk result (λ end. Round W.moves.machine (W.moves.at w.old) end (W.moves.at w.new)) }
    ensures stage { IfOk result (λ end. StageRound end (W.moves.at w.new).stage) }
    ensures holds { OnOk result (W.moves.Holds w.new) }
    ensures count { IfOk result (λ end. CountsRound end (W.moves.at w.old).log.dirty_rounds (W.moves.at w.new).log.dirty_rounds) }
    ensures worn { OnWorn result (W.moves.IsWorn w.new) }
{
    w.start_round();
    if drain(w)? {
        return Ok(RoundEnd::AsyncLimit);
    }
    let cut = match walk(w)? {
        Walked::Limit => return Ok(RoundEnd::FireLimit),
        Walked::ToEnd => false,
        Walked::Stopped => true,
    };
    let dirty = w.close_round();
    if dirty {
        Ok(RoundEnd::Busy)
    } else {
        Ok(RoundEnd::Quiet(cut))
    }
}

/// Rounds, up to one that isn't dirty.
fn settle<W: World>(w: &mut W) -> Result<End, Memory>
    requires stage { (W.moves.at w.old).stage ≡ Between }
    requires holds { W.moves.Holds w.old }
    requires few { (W.moves.at w.old).log.dirty_rounds ≤ 10 }
    ensures run { IfOk result (λ end. Rounds W.moves.machine (W.moves.at w.old) end (W.moves.at w.new)) }
    ensures stage { IfOk result (λ end. StageEnd end (W.moves.at w.new).stage) }
    ensures holds { OnOk result (W.moves.Holds w.new) }
    ensures worn { OnWorn result (W.moves.IsWorn w.new) }
{
    'rounds: loop {
        match round(w)? {
            RoundEnd::Quiet(cut) => return Ok(End::Settled(cut)),
            RoundEnd::FireLimit => return Ok(End::FireLimit),
            RoundEnd::AsyncLimit => return Ok(End::AsyncLimit),
            RoundEnd::Busy => {}
        }
        if w.log().dirty_rounds >= MANY_ROUNDS {
            return Ok(End::Infdig);
        }
    }
}

/// What comes once the rounds have settled.
fn finish<W: World>(w: &mut W, report: Report) -> Result<Report, DigestFault>
    requires stage { (W.moves.at w.old).stage ≡ Calm }
    requires holds { W.moves.Holds w.old }
    ensures end { Finishes W.moves.machine (W.moves.at w.old) report result (W.moves.at w.new) }
    ensures rests { Unless result (W.moves.Rests w.new) }
    ensures worn { WhereWorn result (W.moves.IsWorn w.new) }
{
    match w.post() {
        Ok(()) => {}
        Err(e) => return Err(DigestFault::Memory(e)),
    }
    match w.handed() {
        None => Ok(report),
        Some((first, count)) => Err(DigestFault::Faulted { first, count }),
    }
}

/// The rounds, and what comes after them.
fn run<W: World>(w: &mut W) -> Result<Report, DigestFault>
    requires stage { (W.moves.at w.old).stage ≡ Between }
    requires log { (W.moves.at w.old).log ≡ zero_log }
    requires holds { W.moves.Holds w.old }
    ensures run { Digests W.moves.machine (W.moves.at w.old) result (W.moves.at w.new) }
    ensures rests { Unless result (W.moves.Rests w.new) }
    ensures worn { WhereWorn result (W.moves.IsWorn w.new) }
{
    let end = match settle(w) {
        Ok(end) => end,
        Err(e) => return Err(DigestFault::Memory(e)),
    };
    match end {
        End::Settled(stopped) => {
            let report = w.log().report(stopped);
            finish(w, report)
        }
        End::Infdig => {
            w.fail();
            Err(DigestFault::Infdig)
        }
        End::FireLimit => {
            w.fail();
            Err(DigestFault::FireLimit)
        }
        End::AsyncLimit => {
            w.fail();
            Err(DigestFault::AsyncLimit)
        }
    }
}

/// A whole digest.
pub fn digest<W: World>(w: &mut W) -> Result<Report, DigestFault>
    requires stage { (W.moves.at w.old).stage ≡ Between }
    requires log { (W.moves.at w.old).log ≡ zero_log }
    requires forgotten { (W.moves.at w.old).remembered ≡ None }
    requires holds { W.moves.Holds w.old }
    ensures short { Digests W.moves.machine (W.moves.at w.old) result (W.moves.at w.new) }
    ensures plain { Unless result (PlainDigests W.moves.machine (W.moves.at w.old).state (plain_answer result) (plain_of (W.moves.at w.new))) }
    ensures fresh { OnSettled result (λ tests. IsFresh W.moves.machine tests (W.moves.at w.new).state) }
    ensures infdig { Unless result (result ≡ Err Infdig ↔ (W.moves.at w.new).log.dirty_rounds ≡ 11) }
    ensures fire_limit { Unless result (result ≡ Err FireLimit ↔ IsOverFires (W.moves.at w.new)) }
    ensures async_limit { Unless result (result ≡ Err AsyncLimit ↔ IsOverTasks W.moves.machine (W.moves.at w.new)) }
    ensures faulted { Unless result ((first : Fault) (count : ℕ) → result ≡ Err (Faulted first count) ↔ HasSettled W.moves.machine (Some (first, count)) (W.moves.at w.new)) }
    ensures settled { Unless result (IsOk result ↔ HasSettled W.moves.machine None (W.moves.at w.new)) }
    ensures report { IfOk result (λ report. IsReport report (W.moves.at w.new).log) }
    ensures rests { Unless result (W.moves.Rests w.new) }
    ensures worn { WhereWorn result (W.moves.IsWorn w.new) }
{
    run(w)
}

/// The plain digest has one answer, and ends in one state with one set of counts.
pub fn plain_digest_is_one<W: World>()
    ensures { (s : W.moves.State) (r u : Result (ℕ × ℕ) DigestFault) (p q : Plain W.moves.State) → PlainDigests W.moves.machine s r p → PlainDigests W.moves.machine s u q → (r ≡ u) × (p ≡ q) }
{}
