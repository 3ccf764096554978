//! What the definitions of a watcher come to.
ghost use Rattle.ng_watch.specs.Laws.{CleanHasKept, FaultsAreOfNow, KeptIsClean};

/// A watcher that is no two-way binding is clean exactly where the snapshot of now is the one that it kept, meets a
/// fault exactly where there is no snapshot of now, and is clean once it has kept what a test handed on.
pub fn watcher_keeps_what_it_has()
    ensures clean { CleanHasKept }
    ensures faults { FaultsAreOfNow }
    ensures kept { KeptIsClean }
{}
