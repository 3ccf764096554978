//! The engine as the world of a digest.
ghost use Rattle.std.specs.Prelude.{◌≡◌, OnOk, IfOk, Some, true, option_copied, option_map};
ghost use Rattle.ng_digest.specs.Laws.{InOrder};
ghost use Rattle.ng_digest.specs.Machine.{verdict_at, fired_at, adds_at};
ghost use Rattle.ng_digest.specs.Place.{Answers, OnTested, state_tested};
ghost use Rattle.ng_link.specs.State as link;
ghost use Rattle.ng_value.specs.Snaps.{snap_of};
ghost use Rattle.ng_watch.specs.Walks.{Walks, next_of, reached_of};
ghost use Rattle.ng_commands.specs.BetweenSteps.{WorksAre};
ghost use Rattle.ng_page.specs.PlaceOf.{engine_moves, state_of, IsAtWatcher, judged_at, seen_found, handed_on_from, OnDirty};
ghost use Rattle.ng_page.specs.KnownClean.{AreClean, known_here};
ghost use Rattle.ng_page.specs.PageLaws.{page_laws};
ghost use Rattle.ng_page.specs.PageMachine.{page_machine};

use crate::engine::Engine;
use crate::known::{bound_ahead, on_fire, on_program, on_round, on_test, on_walk};
use crate::passing::{first_end, key_from, pass_over, walk_tested};
use crate::testing::{self, Ended};
use ng_base::fault::{Fault, Memory};
use ng_base::path::Key;
use ng_digest::log::Log;
use ng_digest::world::{Tested, World};
use ng_settling::settling::{give_up, settle};
use ng_settling::tasks::run_task;
use ng_value::snapshot::Snap;
use ng_watch::walking::Walk;
use ng_watch::watch::Verdict;
use std::mem::replace;

/// A walk over clean watchers from the cursor upwards, at most up to a key. Where all above the cursor are known to be clean only those that
/// were told are tested, and where all above another key are, those up to it.
fn walk_to<'a>(engine: &'a Engine, last: Option<&'a Key>) -> Result<Walk, Memory>
    requires works { WorksAre engine.now.works }
    requires known { AreClean engine.now.known engine.now.progress.cursor engine.now.told.keys (link.state_of engine.now.works).core.objects (link.state_of engine.now.works).watchers }
    ensures way { IfOk result (λ w. Walks (link.state_of engine.now.works).core.objects (link.state_of engine.now.works).watchers (option_copied last.entry) engine.now.progress.cursor w.passed (reached_of w.reached)) }
    ensures sorted { InOrder page_machine (state_of engine.now) }
{
    let cursor = engine.progress.cursor();
    if !engine.known.to_end {
        return walk_tested(engine, cursor, last);
    }
    match bound_ahead(&engine.known, cursor) {
        None => pass_over(engine, last),
        Some(bound) => walk_tested(engine, cursor, first_end(engine, bound, last)),
    }
}

/// A walk over clean watchers from the cursor upwards, at most up to the remembered key.
fn walk_on(engine: &Engine) -> Result<Walk, Memory>
    requires works { WorksAre engine.now.works }
    requires known { AreClean engine.now.known engine.now.progress.cursor engine.now.told.keys (link.state_of engine.now.works).core.objects (link.state_of engine.now.works).watchers }
    ensures way { IfOk result (λ w. Walks (link.state_of engine.now.works).core.objects (link.state_of engine.now.works).watchers engine.now.progress.remembered engine.now.progress.cursor w.passed (reached_of w.reached)) }
    ensures sorted { InOrder page_machine (state_of engine.now) }
{
    walk_to(engine, engine.progress.remembered())
}

/// A walk to the next watcher above the cursor, if there is one.
fn step_on(engine: &Engine) -> Result<Walk, Memory>
    requires works { WorksAre engine.now.works }
    requires known { AreClean engine.now.known engine.now.progress.cursor engine.now.told.keys (link.state_of engine.now.works).core.objects (link.state_of engine.now.works).watchers }
    ensures way { IfOk result (λ w. Walks (link.state_of engine.now.works).core.objects (link.state_of engine.now.works).watchers (next_of engine.now.progress.cursor (link.state_of engine.now.works).watchers) engine.now.progress.cursor w.passed (reached_of w.reached)) }
    ensures sorted { InOrder page_machine (state_of engine.now) }
{
    let next = key_from(engine.works.watchers(), engine.progress.cursor());
    walk_to(engine, next)
}

/// Hands on what the test of the watcher at the cursor found.
fn test_at(engine: &mut Engine, found: Result<Verdict, Fault>) -> Tested
    requires works { WorksAre engine.old.works }
    requires there { IsAtWatcher engine.old.progress.cursor (link.state_of engine.old.works).watchers }
    requires judged { judged_at (state_of engine.old) engine.old.progress.cursor ≡ Some (seen_found found) }
    ensures answer { Answers (verdict_at page_machine (state_of engine.old) engine.old.progress.cursor) result }
    ensures state { OnTested result (state_of engine.new ≡ state_tested page_machine (state_of engine.old) engine.old.progress.cursor (verdict_at page_machine (state_of engine.old) engine.old.progress.cursor)) }
    ensures known { engine.new.known ≡ engine.old.known }
    ensures progress { engine.new.progress ≡ engine.old.progress }
    ensures handed_on { OnDirty result (option_map snap_of engine.new.pending ≡ handed_on_from (state_of engine.old) engine.old.progress.cursor) }
    ensures works { OnTested result (WorksAre engine.new.works) }
{
    match engine.progress.cursor() {
        None => Tested::Clean,
        Some(key) => testing::hand_on(
            &mut engine.works,
            &mut engine.told,
            &mut engine.pending,
            key,
            found,
        ),
    }
}

/// Fires the watcher at the cursor with the snapshot that its test handed on.
fn fire_at(engine: &mut Engine, pending: Option<Snap>) -> Result<Ended, Memory>
    requires works { WorksAre engine.old.works }
    requires there { IsAtWatcher engine.old.progress.cursor (link.state_of engine.old.works).watchers }
    requires pending { option_map snap_of pending ≡ handed_on_from (state_of engine.old) engine.old.progress.cursor }
    ensures state { OnOk result (state_of engine.new ≡ fired_at page_machine (state_of engine.old) engine.old.progress.cursor) }
    ensures added { IfOk result (λ e. e.added ≡ adds_at page_machine (state_of engine.old) engine.old.progress.cursor) }
    ensures quiet { IfOk result (λ e. e.quiet ≡ true → AreClean engine.old.known engine.old.progress.cursor engine.old.told.keys (link.state_of engine.old.works).core.objects (link.state_of engine.old.works).watchers → AreClean (known_here engine.old.known) engine.old.progress.cursor engine.new.told.keys (link.state_of engine.new.works).core.objects (link.state_of engine.new.works).watchers) }
    ensures known { engine.new.known ≡ engine.old.known }
    ensures progress { engine.new.progress ≡ engine.old.progress }
    ensures works { OnOk result (WorksAre engine.new.works) }
{
    match engine.progress.cursor() {
        None => Ok(testing::nothing()),
        Some(key) => match pending {
            None => Ok(testing::nothing()),
            Some(snapshot) => testing::fire(
                engine.alloc,
                &mut engine.works,
                &mut engine.faulted,
                key,
                snapshot,
            ),
        },
    }
}

#[tactic(auto, using(crate::proofs::Ahead::nothing_worn))]
impl World for Engine {
    ghost moves = { engine_moves };

    ghost laws = { page_laws };

    fn start_round(&mut self) {
        self.progress.begin_round();
        on_round(&mut self.known);
    }

    fn waits(&self) -> bool {
        !self.works.core.tasks.is_empty()
    }

    fn task(&mut self) -> Result<bool, Memory> {
        let ran = run_task(&mut self.works, self.alloc)?;
        self.known = on_program(self.progress.cursor())?;
        self.progress.after_task(ran);
        Ok(ran)
    }

    fn next_after(&mut self) -> Result<bool, Memory> {
        let walk = step_on(self)?;
        on_walk(&mut self.known, &walk.reached);
        Ok(testing::arrive(&mut self.progress, &mut self.ahead, walk))
    }

    fn advance(&mut self) -> Result<bool, Memory> {
        let walk = walk_on(self)?;
        on_walk(&mut self.known, &walk.reached);
        Ok(testing::arrive(&mut self.progress, &mut self.ahead, walk))
    }

    fn last_dirty(&self) -> bool {
        self.progress.at_remembered()
    }

    fn test(&mut self) -> Tested {
        let same = self.last_dirty();
        let found = replace(&mut self.ahead, Ok(Verdict::Clean));
        let tested = test_at(self, found);
        on_test(&mut self.known, tested);
        self.progress.after_test(tested, same);
        tested
    }

    fn fire(&mut self) -> Result<(), Memory> {
        let pending = self.pending.take();
        let fired = fire_at(self, pending)?;
        on_fire(&mut self.known, fired.quiet, self.progress.cursor())?;
        self.progress.after_fire(fired.added);
        Ok(())
    }

    fn close_round(&mut self) -> bool {
        let waits = self.waits();
        self.progress.close(waits)
    }

    fn post(&mut self) -> Result<(), Memory> {
        self.probed = settle(&mut self.works, self.alloc, &self.faulted)?;
        self.progress.post();
        Ok(())
    }

    fn fail(&mut self) {
        give_up(&mut self.works, &self.faulted);
    }

    fn log(&self) -> &Log {
        self.progress.log()
    }

    fn handed(&self) -> Option<(Fault, u32)> {
        let handed = self.works.core.handed;
        match handed.first {
            None => None,
            Some(first) => Some((first, handed.count)),
        }
    }
}
