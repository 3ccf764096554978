//! Rounds, fires and tests of a digest over a sheet of numbers, and each of its limits and faults.
use ng_base::fault::Fault;
use ng_digest::rounds::DigestFault;
use ng_sheets::board::{Act, Board, Body, Watch};
use ng_sheets::sheet::Sheet;
use std::test::Fail;

const QUIET: Body = Body {
    first: Act::Rest,
    second: Act::Rest,
    third: Act::Rest,
};

fn doing(act: Act) -> Body {
    Body {
        first: act,
        second: Act::Rest,
        third: Act::Rest,
    }
}

fn watch(place: usize, body: usize) -> Watch {
    Watch {
        live: true,
        place,
        body,
        kept: None,
    }
}

#[test]
fn rounds_fires_and_tests_are_those_of_the_rows(rt: HostRuntime) -> Result<(), Fail> {
    let up_to_nine = doing(Act::Step { place: 0, limit: 9 });
    let queues = doing(Act::Queue { body: 2 });
    let twice = doing(Act::Step {
        place: 1,
        limit: 99,
    });
    let adds = doing(Act::Add { key: 1 });
    let sleeping = Watch {
        live: false,
        ..watch(0, 1)
    };
    let rows = [
        // ten dirty rounds, and the eleventh stops after its first test
        (
            [watch(0, 0), watch(0, 1)],
            [up_to_nine, QUIET, QUIET],
            (11, 19, 21, 2),
        ),
        // a task clears what is remembered: the second round goes on behind the first watcher
        (
            [watch(0, 0), watch(1, 1)],
            [queues, QUIET, twice],
            (3, 3, 6, 2),
        ),
        // nothing but the first values
        (
            [watch(0, 1), watch(1, 1)],
            [QUIET, QUIET, QUIET],
            (2, 2, 4, 2),
        ),
        // an added watcher clears it too: the second round goes to its end
        ([watch(0, 0), sleeping], [adds, QUIET, QUIET], (2, 2, 4, 2)),
    ];
    for (watches, bodies, told) in rows {
        let board = Board::of(rt.alloc(), &[0, 1], &watches, &bodies)?;
        let mut sheet = Sheet::new(board);
        let report = sheet.run()?;
        assert_eq!(rt;
            (
                report.rounds,
                report.fires,
                report.tests,
                report.tests_after_last_fire
            ),
            told
        );
    }
    Ok(())
}

#[test]
fn each_limit_and_each_fault_is_told(rt: HostRuntime) -> Result<(), Fail> {
    let up_to_ten = doing(Act::Step {
        place: 0,
        limit: 10,
    });
    let again = doing(Act::Queue { body: 1 });
    let fails = doing(Act::Fail {
        fault: Fault::Dupes,
    });
    let range = Fault::Range;
    let dupes = Fault::Dupes;
    let rows = [
        ([watch(0, 0), watch(0, 2)], DigestFault::Infdig),
        ([watch(0, 1), watch(0, 2)], DigestFault::AsyncLimit),
        // a test's fault is counted once
        (
            [watch(9, 2), watch(0, 2)],
            DigestFault::Faulted {
                first: range,
                count: 1,
            },
        ),
        (
            [watch(0, 3), watch(9, 2)],
            DigestFault::Faulted {
                first: dupes,
                count: 2,
            },
        ),
    ];
    for (watches, told) in rows {
        let board = Board::of(
            rt.alloc(),
            &[0, 1],
            &watches,
            &[up_to_ten, again, QUIET, fails],
        )?;
        let mut sheet = Sheet::new(board);
        assert_eq!(rt; sheet.run(), Err(told));
    }
    Ok(())
}

#[test]
fn fires_end_at_a_million(rt: HostRuntime) -> Result<(), Fail> {
    let mut board = Board::of(
        rt.alloc(),
        &[0],
        &[],
        &[doing(Act::Step {
            place: 0,
            limit: u64::MAX,
        })],
    )?;
    for _ in 0..100_000 {
        board.watches.push(watch(0, 0))?;
    }
    let mut sheet = Sheet::new(board);
    assert_eq!(rt; sheet.run(), Err(DigestFault::FireLimit));
    assert_eq!(rt;
        (
            sheet.progress.log().rounds,
            sheet.progress.log().fires,
            sheet.progress.log().tests
        ),
        (11, 1_000_000, 1_000_001)
    );
    Ok(())
}
