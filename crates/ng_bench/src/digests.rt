//! A clean digest behind one in which each watcher fired.
use ng_sheets::board::{Act, Board, Body, Watch};
use ng_sheets::sheet::Sheet;
use std::alloc::Global;

/// A body that does nothing.
const QUIET: Body = Body {
    first: Act::Rest,
    second: Act::Rest,
    third: Act::Rest,
};

/// How many tests the clean digest made.
pub(crate) fn tested(alloc: Global, size: u64) -> Option<u64> {
    let numbers = [0];
    let mut board = Board::of(alloc, &numbers, &[], &[QUIET]).ok()?;
    for _ in 0..size {
        let watch = Watch {
            live: true,
            place: 0,
            body: 0,
            kept: None,
        };
        board.watches.push(watch).ok()?;
    }
    let mut sheet = Sheet::new(board);
    let _ = sheet.run().ok()?;
    let report = sheet.run().ok()?;
    Some(report.tests)
}
