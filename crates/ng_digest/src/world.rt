//! What a digest runs over.
ghost use Rattle.std.specs.Prelude.{◌≡◌, ◌≢◌, ◌<◌, ◌+◌, ◌↔◌, Option, Some, None, IfOk, OnOk, is_some};
ghost use Rattle.ng_digest.specs.Laws.{HasLaws, InOrder};
ghost use Rattle.ng_digest.specs.Machine.{next_key, ahead, found_dirty};
ghost use Rattle.ng_digest.specs.Passing.{Passes};
ghost use Rattle.ng_digest.specs.Place.{Moves, MayAdvance, begun, after_task, advanced, found, after_test, after_fire, is_remembered, is_dirty, closed, posted, given_up, Answers, OnTested, OnWorn, OnWornTest};

use crate::log::Log;
use ng_base::fault::{Fault, Memory};

/// What a test of a watcher found.
#[derive(Clone, Copy, Debug, PartialEq, Eq)]
pub enum Tested {
    Clean,
    Dirty,
    Faulted,
    Memory(Memory),
}

/// Which of a world's calls may come next.
#[derive(Clone, Copy, Debug, PartialEq, Eq)]
pub enum Stage {
    /// A round may begin.
    Between,
    /// Tasks may run.
    Draining,
    /// The cursor came to a key, which is to be tested.
    AtKey,
    /// The key was tested and found dirty, and is to be fired.
    Pending,
    /// The cursor may go on.
    Passed,
    /// The round may be closed.
    Through,
    /// The rounds have settled.
    Calm,
    /// What comes after the rounds was done.
    Over,
}

/// Watchers under keys, a cursor that goes up over the live keys, and tasks.
pub trait World {
    /// Its states and keys, what its calls do to a state, where it stands, what else holds of it between its calls, and what
    /// holds once its rounds are over. After a call that wanted memory nothing else is said of it than, where a counter stands at
    /// its last value, which one.
    ghost moves: { Moves Self };

    /// Begins a round, and puts the cursor before the least key.
    fn start_round(&mut self)
        requires stage { (moves.at self.old).stage ≡ Stage.Between }
        requires holds { moves.Holds self.old }
        ensures step { moves.at self.new ≡ begun (moves.at self.old) }
        ensures holds { moves.Holds self.new };

    /// Whether a task waits.
    fn waits(&self) -> bool
        ensures { result ≡ moves.machine.waits (moves.at self.now).state };

    /// Runs the first task that waits, which clears what is remembered. False where none waits.
    fn task(&mut self) -> Result<bool, Memory>
        requires stage { (moves.at self.old).stage ≡ Stage.Draining }
        requires few { (moves.at self.old).log.tasks < 10000 }
        requires holds { moves.Holds self.old }
        ensures answer { IfOk result (λ ran. ran ≡ moves.machine.waits (moves.at self.old).state) }
        ensures step { IfOk result (λ ran. moves.at self.new ≡ after_task ran moves.machine (moves.at self.old)) }
        ensures holds { OnOk result (moves.Holds self.new) }
        ensures worn { OnWorn result (moves.IsWorn self.new) };

    /// Moves the cursor to the least live key above it. False where there is none.
    fn next_after(&mut self) -> Result<bool, Memory>
        requires stage { MayAdvance (moves.at self.old).stage (moves.machine.waits (moves.at self.old).state) }
        requires holds { moves.Holds self.old }
        ensures answer { IfOk result (λ more. more ≡ is_some (next_key moves.machine (moves.at self.old).state (moves.at self.old).cursor)) }
        ensures step { OnOk result (moves.at self.new ≡ advanced moves.machine (moves.at self.old)) }
        ensures sorted { OnOk result (InOrder moves.machine (moves.at self.old).state) }
        ensures holds { OnOk result (moves.Holds self.new) }
        ensures worn { OnWorn result (moves.IsWorn self.new) };

    /// Moves the cursor up to a live key, by which a digest goes. Keys on the way are tested and passed, none of which is dirty,
    /// or is the remembered one. False where no key is left. A world for which that saves nothing passes none.
    fn advance(&mut self) -> Result<bool, Memory>
        requires stage { MayAdvance (moves.at self.old).stage (moves.machine.waits (moves.at self.old).state) }
        requires holds { moves.Holds self.old }
        ensures way { IfOk result (λ more. Passes moves.machine (moves.at self.old) more (moves.at self.new)) }
        ensures holds { OnOk result (moves.Holds self.new) }
        ensures worn { OnWorn result (moves.IsWorn self.new) }
    {
        self.next_after()
    }

    /// Whether the cursor stands at the remembered key.
    fn last_dirty(&self) -> bool
        ensures { result ≡ is_remembered moves.machine (moves.at self.now) };

    /// Tests the watcher at the cursor.
    fn test(&mut self) -> Tested
        requires stage { (moves.at self.old).stage ≡ Stage.AtKey }
        requires holds { moves.Holds self.old }
        ensures answer { Answers (found moves.machine (moves.at self.old)) result }
        ensures step { OnTested result (moves.at self.new ≡ after_test moves.machine (moves.at self.old)) }
        ensures holds { OnTested result (moves.Holds self.new) }
        ensures worn { OnWornTest result (moves.IsWorn self.new) };

    /// Fires the watcher at the cursor, which was dirty.
    fn fire(&mut self) -> Result<(), Memory>
        requires stage { (moves.at self.old).stage ≡ Stage.Pending }
        requires few { (moves.at self.old).log.fires < 1000000 }
        requires holds { moves.Holds self.old }
        ensures step { OnOk result (moves.at self.new ≡ after_fire moves.machine (moves.at self.old)) }
        ensures holds { OnOk result (moves.Holds self.new) }
        ensures worn { OnWorn result (moves.IsWorn self.new) };

    /// Ends the round, and tells whether it was dirty.
    fn close_round(&mut self) -> bool
        requires stage { (moves.at self.old).stage ≡ Stage.Through }
        requires holds { moves.Holds self.old }
        ensures answer { result ≡ is_dirty moves.machine (moves.at self.old) }
        ensures step { moves.at self.new ≡ closed moves.machine (moves.at self.old) }
        ensures holds { moves.Holds self.new };

    /// Does what comes once the rounds have settled.
    fn post(&mut self) -> Result<(), Memory>
        requires stage { (moves.at self.old).stage ≡ Stage.Calm }
        requires holds { moves.Holds self.old }
        ensures step { OnOk result (moves.at self.new ≡ posted moves.machine (moves.at self.old)) }
        ensures rests { OnOk result (moves.Rests self.new) }
        ensures worn { OnWorn result (moves.IsWorn self.new) };

    /// Does what comes once the rounds were given up.
    fn fail(&mut self)
        requires { moves.Holds self.old }
        ensures step { moves.at self.new ≡ given_up moves.machine (moves.at self.old) }
        ensures rests { moves.Rests self.new };

    /// What was counted in this digest.
    fn log(&self) -> &Log
        ensures { result.now ≡ (moves.at self.now).log };

    /// The first fault that was handed over in this digest, and their count.
    fn handed(&self) -> Option<(Fault, u32)>
        ensures { result ≡ moves.machine.handed (moves.at self.now).state };

    /// What the early stop rests on.
    ghost laws: { HasLaws moves.machine };
}

/// An advance of the cursor leaves one live key less ahead, and none is ahead exactly where it cannot advance.
pub fn ahead_falls<W: World>()
    ensures lowers { (s : W.moves.State) (c : Option W.moves.Key) (k : W.moves.Key) → InOrder W.moves.machine s → next_key W.moves.machine s c ≡ Some k → ahead W.moves.machine s c ≡ ahead W.moves.machine s (Some k) + 1 }
    ensures none { (s : W.moves.State) (c : Option W.moves.Key) → next_key W.moves.machine s c ≡ None ↔ ahead W.moves.machine s c ≡ 0 }
    ensures stays { (s : W.moves.State) (c : Option W.moves.Key) (k : W.moves.Key) → W.moves.machine.verdict s k ≢ found_dirty → ahead W.moves.machine (W.moves.machine.tested s k) c ≡ ahead W.moves.machine s c }
{}
