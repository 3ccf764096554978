//! Numbers, watchers over them, and the acts that watchers and tasks do to both.
ghost use Rattle.std.specs.Prelude.{◌≡◌, IfOk, IfErr};
ghost use Rattle.ng_base.specs.declared.fault.Memory.TheVariants.{Refused};
ghost use Rattle.ng_sheets.specs.Board.{view, act, set_up};

use ng_base::fault::{Fault, Memory};
use std::alloc::Global;

/// What a body does, one thing at a time.
#[derive(Clone, Copy, Debug, PartialEq, Eq)]
pub enum Act {
    /// Nothing.
    Rest,
    /// Writes a number.
    Set { place: usize, number: u64 },
    /// Adds one to a number that is below a limit.
    Step { place: usize, limit: u64 },
    /// Writes one number over another.
    Copy { from: usize, to: usize },
    /// Puts a watcher in, unset.
    Add { key: usize },
    /// Takes a watcher out.
    Remove { key: usize },
    /// Queues a body as a task.
    Queue { body: usize },
    /// Fails.
    Fail { fault: Fault },
}

/// Three acts, of which the first that fails ends the body.
#[derive(Clone, Copy, Debug, PartialEq, Eq)]
pub struct Body {
    pub first: Act,
    pub second: Act,
    pub third: Act,
}

/// A watcher of the number at a place, with the body that it runs where that has changed.
#[derive(Clone, Copy, Debug, PartialEq, Eq)]
pub struct Watch {
    pub live: bool,
    pub place: usize,
    pub body: usize,
    pub kept: Option<u64>,
}

/// Numbers, watchers under their places as keys, bodies, and waiting tasks.
#[derive(Debug, Drop)]
pub struct Board {
    pub numbers: Vec<u64>,
    pub watches: Vec<Watch>,
    pub bodies: Vec<Body>,
    pub tasks: Vec<usize>,
    /// The watchers whose test faulted in this digest, and those whose fire did.
    pub told: Vec<usize>,
    pub failed: Vec<usize>,
    /// The first fault handed over in this digest, and the count.
    pub handed: Option<(Fault, u32)>,
    /// Whether the last fire added a watcher.
    pub added: bool,
}

impl Board {
    /// A board with these numbers, watchers and bodies, at which no task waits.
    pub fn of(
        alloc: Global,
        numbers: &[u64],
        watches: &[Watch],
        bodies: &[Body],
    ) -> Result<Board, Memory>
        ensures done { IfOk result (λ board. view board ≡ set_up numbers.now watches.now bodies.now) }
        ensures refused { IfErr result (λ e. e ≡ Refused) }
    {
        Ok(Board {
            numbers: numbers.to_vec(alloc)?,
            watches: watches.to_vec(alloc)?,
            bodies: bodies.to_vec(alloc)?,
            tasks: Vec::new(alloc),
            told: Vec::new(alloc),
            failed: Vec::new(alloc),
            handed: None,
            added: false,
        })
    }
}

/// Adds one to a number that is below a limit.
fn step(board: &mut Board, place: usize, limit: u64) -> Option<Fault>
    ensures { act (Act.Step place limit) (view board.old) ≡ record { state = view board.new; fault = result } }
{
    if place >= board.numbers.len() {
        return Some(Fault::Range);
    }
    let number = board.numbers[place];
    if number < limit {
        board.numbers[place] = number + 1;
    }
    None
}

/// Writes a number.
fn set(board: &mut Board, place: usize, number: u64) -> Option<Fault>
    ensures { act (Act.Set place number) (view board.old) ≡ record { state = view board.new; fault = result } }
{
    if place >= board.numbers.len() {
        return Some(Fault::Range);
    }
    board.numbers[place] = number;
    None
}

/// Writes one number over another.
fn copy(board: &mut Board, from: usize, to: usize) -> Option<Fault>
    ensures { act (Act.Copy from to) (view board.old) ≡ record { state = view board.new; fault = result } }
{
    if from >= board.numbers.len() {
        return Some(Fault::Range);
    }
    let number = board.numbers[from];
    set(board, to, number)
}

/// Puts a watcher in.
fn add(board: &mut Board, key: usize) -> Option<Fault>
    ensures { act (Act.Add key) (view board.old) ≡ record { state = view board.new; fault = result } }
{
    match board.watches.get(key) {
        None => Some(Fault::Range),
        Some(watch) => {
            let watch = *watch;
            if !watch.live {
                board.watches[key] = Watch {
                    live: true,
                    kept: None,
                    ..watch
                };
                board.added = true;
            }
            None
        }
    }
}

/// Takes a watcher out.
fn remove(board: &mut Board, key: usize) -> Option<Fault>
    ensures { act (Act.Remove key) (view board.old) ≡ record { state = view board.new; fault = result } }
{
    match board.watches.get(key) {
        None => Some(Fault::Range),
        Some(watch) => {
            let watch = *watch;
            board.watches[key] = Watch {
                live: false,
                ..watch
            };
            None
        }
    }
}

/// Does an act, and tells the fault that it met.
pub fn do_act(board: &mut Board, done: Act) -> Result<Option<Fault>, Memory>
    ensures done { IfOk result (λ fault. act done (view board.old) ≡ record { state = view board.new; fault = fault }) }
    ensures refused { IfErr result (λ e. e ≡ Refused) }
{
    match done {
        Act::Rest => Ok(None),
        Act::Set { place, number } => Ok(set(board, place, number)),
        Act::Step { place, limit } => Ok(step(board, place, limit)),
        Act::Copy { from, to } => Ok(copy(board, from, to)),
        Act::Add { key } => Ok(add(board, key)),
        Act::Remove { key } => Ok(remove(board, key)),
        Act::Queue { body } => {
            board.tasks.push(body)?;
            Ok(None)
        }
        Act::Fail { fault } => Ok(Some(fault)),
    }
}
