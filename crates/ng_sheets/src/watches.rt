//! What a test, a fire and a task do to a board.
ghost use Rattle.std.specs.Prelude.{◌≡◌, ◌<◌, ◌+◌, IfOk, IfErr, OnOk, length, drop, slice_get};
ghost use Rattle.ng_base.specs.declared.fault.Memory.TheVariants.{Refused};
ghost use Rattle.ng_sheets.specs.Board.{view, run_body, run_at, verdict, tell, tested, hand_over, mark, marked, keep, fired, ran, waits, unset, unset_found, first_live};
ghost use Rattle.ng_digest.specs.Machine.{found_faulted};
ghost use Rattle.ng_digest.specs.Place.{Answers, OnTested, OnWornTest};

use crate::board::{Board, Body, Watch, do_act};
use ng_base::fault::{Fault, Memory};
use ng_digest::world::Tested;

/// Does a body's acts in order, up to one that faults.
fn run_body(board: &mut Board, body: Body) -> Result<Option<Fault>, Memory>
    ensures done { IfOk result (λ fault. run_body body (view board.old) ≡ record { state = view board.new; fault = fault }) }
    ensures refused { IfErr result (λ e. e ≡ Refused) }
{
    if let Some(fault) = do_act(board, body.first)? {
        return Ok(Some(fault));
    }
    if let Some(fault) = do_act(board, body.second)? {
        return Ok(Some(fault));
    }
    do_act(board, body.third)
}

/// Does the body of a place.
fn run_at(board: &mut Board, place: usize) -> Result<Option<Fault>, Memory>
    ensures done { IfOk result (λ fault. run_at place (view board.old) ≡ record { state = view board.new; fault = fault }) }
    ensures refused { IfErr result (λ e. e ≡ Refused) }
{
    match board.bodies.get(place) {
        None => Ok(Some(Fault::Range)),
        Some(body) => {
            let body = *body;
            run_body(board, body)
        }
    }
}

/// Hands a fault over.
fn hand_over(board: &mut Board, fault: Fault)
    ensures { view board.new ≡ hand_over fault (view board.old) }
{
    board.handed = match board.handed {
        None => Some((fault, 1)),
        Some((first, count)) => Some((first, count.saturating_add(1))),
    };
}

/// Hands the fault of a test over, once in a digest.
fn tell(board: &mut Board, key: usize) -> Tested
    ensures answer { Answers found_faulted result }
    ensures state { OnTested result (view board.new ≡ tell key found_faulted (view board.old)) }
    ensures refused { OnWornTest result ⊥ }
{
    if board.told.contains(&key) {
        return Tested::Faulted;
    }
    match board.told.push(key) {
        Ok(()) => {}
        Err(_) => return Tested::Memory(Memory::Refused),
    }
    hand_over(board, Fault::Range);
    Tested::Faulted
}

/// Tests the watcher of a key: the number now against the one that was kept.
pub fn test(board: &mut Board, key: usize) -> Tested
    ensures answer { Answers (verdict (view board.old) key) result }
    ensures state { OnTested result (view board.new ≡ tested (view board.old) key) }
    ensures refused { OnWornTest result ⊥ }
{
    let watch = match board.watches.get(key) {
        None => return Tested::Clean,
        Some(watch) => *watch,
    };
    let number = match board.numbers.get(watch.place) {
        None => return tell(board, key),
        Some(number) => *number,
    };
    match watch.kept {
        None => Tested::Dirty,
        Some(old) => {
            if old == number {
                Tested::Clean
            } else {
                Tested::Dirty
            }
        }
    }
}

/// Marks a watcher whose fire faulted, and hands the fault over.
fn mark(board: &mut Board, key: usize, fault: Option<Fault>) -> Result<(), Memory>
    ensures done { OnOk result (view board.new ≡ mark key fault (view board.old)) }
    ensures refused { IfErr result (λ e. e ≡ Refused) }
{
    match fault {
        None => Ok(()),
        Some(fault) => {
            board.failed.push(key)?;
            hand_over(board, fault);
            Ok(())
        }
    }
}

/// Keeps the number now, and runs the body.
fn keep_and_run(board: &mut Board, key: usize, watch: Watch, number: u64) -> Result<(), Memory>
    requires { key < length board.old.watches.items }
    ensures done { OnOk result (view board.new ≡ marked key (run_at watch.body (keep key watch number (view board.old)))) }
    ensures refused { IfErr result (λ e. e ≡ Refused) }
{
    board.watches[key] = Watch {
        kept: Some(number),
        ..watch
    };
    board.added = false;
    let fault = run_at(board, watch.body)?;
    mark(board, key, fault)
}

/// Fires the watcher of a key.
pub fn fire(board: &mut Board, key: usize) -> Result<(), Memory>
    ensures done { OnOk result (view board.new ≡ fired (view board.old) key) }
    ensures refused { IfErr result (λ e. e ≡ Refused) }
{
    let watch = match board.watches.get(key) {
        None => return Ok(()),
        Some(watch) => *watch,
    };
    match board.numbers.get(watch.place) {
        None => Ok(()),
        Some(number) => {
            let number = *number;
            keep_and_run(board, key, watch, number)
        }
    }
}

/// Runs the first task that waits. False where none waits.
pub fn run_task(board: &mut Board) -> Result<bool, Memory>
    ensures answer { IfOk result (λ some. some ≡ waits (view board.old)) }
    ensures state { OnOk result (view board.new ≡ ran (view board.old)) }
    ensures refused { IfErr result (λ e. e ≡ Refused) }
{
    if board.tasks.is_empty() {
        return Ok(false);
    }
    let body = board.tasks.remove(0);
    if let Some(fault) = run_at(board, body)? {
        hand_over(board, fault);
    }
    Ok(true)
}

/// Sets a watcher to unset.
fn unset_at(board: &mut Board, key: usize)
    ensures { view board.new ≡ record (view board.old) { watches = unset_found key (slice_get board.old.watches.items key) board.old.watches.items } }
{
    match board.watches.get(key) {
        None => {}
        Some(watch) => {
            let watch = *watch;
            board.watches[key] = Watch {
                kept: None,
                ..watch
            };
        }
    }
}

/// Sets each watcher whose fire faulted to unset.
pub fn unset_failed(board: &mut Board)
    ensures { view board.new ≡ unset (view board.old) }
{
    for i in 0..board.failed.len() {
        let key = board.failed[i];
        unset_at(board, key);
    }
}

/// The first live watcher from a key on.
pub fn next_live(board: &Board, from: usize) -> Option<usize>
    ensures { result ≡ first_live from (drop from board.now.watches.items) }
{
    for key in from..board.watches.len() {
        if board.watches[key].live {
            return Some(key);
        }
    }
    None
}

/// The first live watcher above a key.
pub fn next_above(board: &Board, key: usize) -> Option<usize>
    ensures { result ≡ first_live (key + 1) (drop (key + 1) board.now.watches.items) }
{
    if key < board.watches.len() {
        next_live(board, key + 1)
    } else {
        None
    }
}
