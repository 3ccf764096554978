//! The log of a digest: counters, each of which stays at its type's last value once it is there.
ghost use Rattle.std.specs.Prelude.{◌≡◌};
ghost use Rattle.ng_digest.specs.Log.{zero_log, with_round, with_test, with_tests, many64, with_fire, with_task, with_close, report_of};

/// What was counted in a digest so far.
#[derive(Clone, Copy, Debug, PartialEq, Eq)]
pub struct Log {
    pub rounds: u32,
    pub dirty_rounds: u32,
    pub fires: u32,
    pub round_fires: u32,
    pub tasks: u32,
    pub tests: u64,
    pub tests_since_fire: u64,
    pub round_tests: u64,
}

/// What a settled digest reports.
#[derive(Clone, Copy, Debug, PartialEq, Eq)]
pub struct Report {
    pub rounds: u32,
    pub fires: u32,
    pub tests: u64,
    pub tests_after_last_fire: u64,
}

/// A count and so many more.
fn with_more(count: u64, more: u64) -> u64
    ensures { result ≡ many64 more count }
{
    count.saturating_add(more)
}

impl Log {
    /// Nothing was counted yet.
    pub fn new() -> Log
        ensures { result ≡ zero_log }
    {
        Log {
            rounds: 0,
            dirty_rounds: 0,
            fires: 0,
            round_fires: 0,
            tasks: 0,
            tests: 0,
            tests_since_fire: 0,
            round_tests: 0,
        }
    }

    /// A round begins.
    pub fn count_round(&mut self)
        ensures { self.new ≡ with_round self.old }
    {
        self.rounds = self.rounds.saturating_add(1);
        self.round_fires = 0;
        self.round_tests = 0;
    }

    /// A watcher was tested.
    pub fn count_test(&mut self)
        ensures { self.new ≡ with_test self.old }
    {
        self.tests = self.tests.saturating_add(1);
        self.tests_since_fire = self.tests_since_fire.saturating_add(1);
        self.round_tests = self.round_tests.saturating_add(1);
    }

    /// So many watchers were tested.
    pub fn count_tests(&mut self, tests: u64)
        ensures { self.new ≡ with_tests tests self.old }
    {
        self.tests = with_more(self.tests, tests);
        self.tests_since_fire = with_more(self.tests_since_fire, tests);
        self.round_tests = with_more(self.round_tests, tests);
    }

    /// A watcher fired.
    pub fn count_fire(&mut self)
        ensures { self.new ≡ with_fire self.old }
    {
        self.fires = self.fires.saturating_add(1);
        self.round_fires = self.round_fires.saturating_add(1);
        self.tests_since_fire = 0;
    }

    /// A task ran.
    pub fn count_task(&mut self)
        ensures { self.new ≡ with_task self.old }
    {
        self.tasks = self.tasks.saturating_add(1);
    }

    /// A round ended.
    pub fn count_close(&mut self, dirty: bool)
        ensures { self.new ≡ with_close dirty self.old }
    {
        if dirty {
            self.dirty_rounds = self.dirty_rounds.saturating_add(1);
        }
    }

    /// What is reported once the rounds have settled, the last of them by a stop or at its end.
    pub fn report(&self, stopped: bool) -> Report
        ensures { result ≡ report_of self.now stopped }
    {
        Report {
            rounds: self.rounds,
            fires: self.fires,
            tests: self.tests,
            tests_after_last_fire: if stopped {
                self.tests_since_fire
            } else {
                self.round_tests
            },
        }
    }
}
