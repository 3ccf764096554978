//! A world in memory: a board, and where a digest over it stands.
ghost use Rattle.std.specs.Prelude.{◌≡◌, IfOk, Option};
ghost use Rattle.std.specs.Ordering.{nat_cmp};
ghost use Rattle.std.specs.List.Sorted.{IsStrictlySortedBy};
ghost use Rattle.ng_digest.specs.Causes.{Unless, WhereWorn, IsReport};
ghost use Rattle.ng_digest.specs.Early.{plain_of, plain_answer, IsFresh, OnSettled};
ghost use Rattle.ng_digest.specs.Machine.{verdict_at, next_key};
ghost use Rattle.ng_digest.specs.Place.{Answers, OnTested, OnWornTest, state_tested};
ghost use Rattle.ng_digest.specs.Plain.{PlainDigests};
ghost use Rattle.ng_digest.specs.Short.{Digests};
ghost use Rattle.ng_sheets.specs.Board.{view, live_from};
ghost use Rattle.ng_sheets.specs.BoardLaws.{board_laws};
ghost use Rattle.ng_sheets.specs.Sheet.{sheet_moves, place_of, board_machine, readied, ready_place, starting};

use crate::board::Board;
use crate::watches;
use ng_base::fault::{Fault, Memory};
use ng_digest::log::{Log, Report};
use ng_digest::progress::Progress;
use ng_digest::rounds::{DigestFault, digest};
use ng_digest::world::{Tested, World};

/// A board, and where a digest over it stands.
#[derive(Debug, Drop)]
pub struct Sheet {
    pub board: Board,
    pub progress: Progress<usize>,
}

/// The key at the cursor.
fn cursor_of(progress: &Progress<usize>) -> Option<usize>
    ensures { result ≡ progress.now.cursor }
{
    progress.cursor().copied()
}

/// The least live key above the cursor.
fn next_of(board: &Board, cursor: Option<usize>) -> Option<usize>
    ensures next { result ≡ next_key board_machine (view board.now) cursor }
    ensures sorted { IsStrictlySortedBy nat_cmp (live_from 0 board.now.watches.items) }
{
    match cursor {
        None => watches::next_live(board, 0),
        Some(key) => watches::next_above(board, key),
    }
}

/// Tests the watcher at the cursor.
fn test_at(board: &mut Board, cursor: Option<usize>) -> Tested
    ensures answer { Answers (verdict_at board_machine (view board.old) cursor) result }
    ensures state { OnTested result (view board.new ≡ state_tested board_machine (view board.old) cursor (verdict_at board_machine (view board.old) cursor)) }
    ensures refused { OnWornTest result ⊥ }
{
    match cursor {
        None => Tested::Clean,
        Some(key) => watches::test(board, key),
    }
}

impl Sheet {
    /// A sheet over a board, ready for a digest.
    pub fn new(board: Board) -> Sheet
        ensures { place_of result ≡ starting (view board) }
    {
        Sheet {
            board,
            progress: Progress::new(),
        }
    }

    /// Makes it ready for a digest, in which nothing was counted, remembered or handed over yet.
    pub fn ready(&mut self)
        ensures { place_of self.new ≡ ready_place (view self.old.board) }
    {
        self.board.told.clear();
        self.board.failed.clear();
        self.board.handed = None;
        self.progress = Progress::new();
    }

    /// A digest over it.
    pub fn run(&mut self) -> Result<Report, DigestFault>
        ensures short { Digests board_machine (ready_place (view self.old.board)) result (place_of self.new) }
        ensures plain { Unless result (PlainDigests board_machine (readied (view self.old.board)) (plain_answer result) (plain_of (place_of self.new))) }
        ensures fresh { OnSettled result (λ tests. IsFresh board_machine tests (view self.new.board)) }
        ensures report { IfOk result (λ report. IsReport report (place_of self.new).log) }
        ensures refused { WhereWorn result ⊥ }
    {
        self.ready();
        digest(self)
    }
}

impl World for Sheet {
    ghost moves = { sheet_moves };

    ghost laws = { board_laws };

    fn start_round(&mut self) {
        self.progress.begin_round();
    }

    fn waits(&self) -> bool {
        !self.board.tasks.is_empty()
    }

    fn task(&mut self) -> Result<bool, Memory> {
        let ran = watches::run_task(&mut self.board)?;
        self.progress.after_task(ran);
        Ok(ran)
    }

    fn next_after(&mut self) -> Result<bool, Memory> {
        let next = next_of(&self.board, cursor_of(&self.progress));
        Ok(self.progress.come_to(next))
    }

    fn last_dirty(&self) -> bool {
        self.progress.at_remembered()
    }

    fn test(&mut self) -> Tested {
        let same = self.last_dirty();
        let tested = test_at(&mut self.board, cursor_of(&self.progress));
        self.progress.after_test(tested, same);
        tested
    }

    fn fire(&mut self) -> Result<(), Memory> {
        if let Some(key) = cursor_of(&self.progress) {
            watches::fire(&mut self.board, key)?;
        }
        self.progress.after_fire(self.board.added);
        Ok(())
    }

    fn close_round(&mut self) -> bool {
        let waits = self.waits();
        self.progress.close(waits)
    }

    fn post(&mut self) -> Result<(), Memory> {
        watches::unset_failed(&mut self.board);
        self.progress.post();
        Ok(())
    }

    fn fail(&mut self) {
        watches::unset_failed(&mut self.board);
    }

    fn log(&self) -> &Log {
        self.progress.log()
    }

    fn handed(&self) -> Option<(Fault, u32)> {
        self.board.handed
    }
}
