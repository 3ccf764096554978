//! Where a digest stands, but for its world's state. Each world holds one, and each of its calls is a step of it.
ghost use Rattle.std.specs.Prelude.{◌≡◌, Option, Some, None, is_some, option_copied, ◌||◌, nat_lt};
ghost use Rattle.ng_digest.specs.Machine.{Verdict, same_key};
ghost use Rattle.ng_digest.specs.Place.{Answers, OnTested, stage_tested};
ghost use Rattle.ng_digest.specs.Progress.{last_key, at_start, round_begun, task_done, came_to, passed, test_done, fire_done, round_closed, rounds_over};

use crate::log::Log;
use crate::world::{Stage, Tested};
use std::cmp::Ordering;
use std::marker::Model;

/// The key that was last dirty, which is not copied while the cursor stands there.
#[derive(Debug, Drop)]
enum Last<K> {
    Nothing,
    AtCursor,
    Key(K),
}

/// The key at the cursor, the key that was last dirty, which call may come, and what was counted.
#[derive(Debug, Drop)]
pub struct Progress<K> {
    cursor: Option<K>,
    last: Last<K>,
    stage: Stage,
    log: Log,
}

impl<K> Model for Progress<K> {
    ghost use Rattle.ng_digest.specs.Progress.{Standing, last_key};

    ghost Value = { Standing K };

    ghost view = { λ p. record { cursor = p.cursor; remembered = last_key p.last p.cursor; log = p.log; stage = p.stage } };
}

/// The cursor's key is taken to be remembered by itself. It stands apart, so that a test needs no room for it.
#[inline(never)]
fn kept<K: Drop>(cursor: &mut Option<K>) -> Last<K>
    ensures { (c : Option K) → last_key result c ≡ cursor.old }
{
    match cursor.take() {
        None => Last::Nothing,
        Some(key) => Last::Key(key),
    }
}

/// What is remembered stays so where the cursor goes from its key. No key is moved where another one is remembered, or none.
fn leave<K: Drop>(last: &mut Last<K>, cursor: &mut Option<K>)
    ensures { (c : Option K) → last_key last.new c ≡ last_key last.old cursor.old }
{
    match last {
        Last::Nothing | Last::Key(_) => {}
        Last::AtCursor => {
            *last = kept(cursor);
        }
    }
}

/// Which call may come after a test.
fn stage_after(same: bool, tested: Tested) -> Stage
    ensures { (v : Verdict) → Answers v tested → OnTested tested (result ≡ stage_tested same v) }
{
    match tested {
        Tested::Dirty => Stage::Pending,
        Tested::Clean | Tested::Faulted => { if same { Stage::Through } else { Stage::Passed } }
        Tested::Memory(_) => Stage::Passed,
    }
}

impl<K> Progress<K> {
    /// Before a digest.
    pub fn new() -> Progress<K>
        ensures { result ≡ at_start }
    {
        Progress {
            cursor: None,
            last: Last::Nothing,
            stage: Stage::Between,
            log: Log::new(),
        }
    }

    /// The key at the cursor; none before the least key.
    pub fn cursor(&self) -> Option<&K>
        ensures { option_copied result ≡ self.now.cursor }
    {
        self.cursor.as_ref()
    }

    /// What was counted.
    pub fn log(&self) -> &Log
        ensures { result.now ≡ self.now.log }
    {
        &self.log
    }

    /// The key that was last dirty.
    pub fn remembered(&self) -> Option<&K>
        ensures { option_copied result ≡ self.now.remembered }
    {
        match &self.last {
            Last::Nothing => None,
            Last::AtCursor => self.cursor.as_ref(),
            Last::Key(key) => Some(key),
        }
    }

    /// A watcher was tested; `same` tells whether the cursor stood at the remembered key.
    pub fn after_test(&mut self, tested: Tested, same: bool)
        ensures { (v : Verdict) → Answers v tested → OnTested tested (self.new ≡ test_done same v self.old) }
    {
        self.log.count_test();
        self.stage = stage_after(same, tested);
    }

    /// The round ends, where a task waits or none does. Answers whether it was dirty.
    pub fn close(&mut self, waits: bool) -> bool
        ensures answer { result ≡ (nat_lt 0 self.old.log.round_fires || waits) }
        ensures step { self.new ≡ round_closed result self.old }
    {
        let dirty = self.log.round_fires > 0 || waits;
        self.stage = if dirty { Stage::Between } else { Stage::Calm };
        self.log.count_close(dirty);
        dirty
    }

    /// What comes once the rounds have settled was done.
    pub fn post(&mut self)
        ensures { self.new ≡ rounds_over self.old }
    {
        self.stage = Stage::Over;
    }
}

impl<K: Drop> Progress<K> {
    /// A round begins, with the cursor before the least key.
    pub fn begin_round(&mut self)
        ensures { self.new ≡ round_begun self.old }
    {
        leave(&mut self.last, &mut self.cursor);
        self.cursor = None;
        self.stage = Stage::Draining;
        self.log.count_round();
    }

    /// A task ran, which clears what is remembered; or none waited.
    pub fn after_task(&mut self, ran: bool)
        ensures { self.new ≡ task_done ran self.old }
    {
        if ran {
            self.last = Last::Nothing;
            self.log.count_task();
        }
    }

    /// The cursor came to a key, or found none above it.
    pub fn come_to(&mut self, next: Option<K>) -> bool
        ensures answer { result ≡ is_some next }
        ensures step { self.new ≡ came_to next self.old }
    {
        match next {
            None => {
                self.stage = Stage::Through;
                false
            }
            Some(key) => {
                leave(&mut self.last, &mut self.cursor);
                self.cursor = Some(key);
                self.stage = Stage::AtKey;
                true
            }
        }
    }

    /// Keys were tested and passed, so many, and none of them was dirty; the last is the cursor's.
    pub fn pass(&mut self, tests: u64, last: Option<K>)
        ensures { self.new ≡ passed tests last self.old }
    {
        leave(&mut self.last, &mut self.cursor);
        self.cursor = last;
        self.log.count_tests(tests);
    }

    /// The watcher at the cursor fired, and its key is remembered unless that added a watcher.
    pub fn after_fire(&mut self, adds: bool)
        ensures { self.new ≡ fire_done adds self.old }
    {
        self.last = if adds { Last::Nothing } else { Last::AtCursor };
        self.stage = Stage::Passed;
        self.log.count_fire();
    }
}

impl<K: Ord> Progress<K> {
    /// Whether the cursor stands at the remembered key.
    pub fn at_remembered(&self) -> bool
        ensures { result ≡ same_key K.cmp self.now.cursor self.now.remembered }
    {
        match (self.cursor(), self.remembered()) {
            (Some(key), Some(last)) => key.cmp(last) == Ordering::Equal,
            _ => false,
        }
    }
}
