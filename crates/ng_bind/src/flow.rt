//! Which way a two-way binding goes.
ghost use Rattle.std.specs.Prelude.{◌≡◌};
ghost use Rattle.ng_bind.specs.Flows.{flow_of};
ghost use Rattle.ng_language.specs.Snapshots.{differs};
ghost use Rattle.ng_value.specs.Snaps.{snap_of};

use ng_value::snapshot::{Snap, differs};

/// Where a value goes: nowhere, to the isolate scope, or to the parent.
#[derive(Clone, Copy, Debug, PartialEq, Eq)]
pub enum Flow {
    Still,
    ToDest,
    ToParent,
}

/// Which of two sides is to be written, by the value that they last had in common. The parent wins.
pub fn sync(parent: &Snap, dest: &Snap, last: &Snap) -> Flow
    ensures { result ≡ flow_of (differs (snap_of parent.now) (snap_of last.now)) (differs (snap_of dest.now) (snap_of last.now)) }
{
    match (differs(parent, last), differs(dest, last)) {
        (true, _) => Flow::ToDest,
        (false, true) => Flow::ToParent,
        (false, false) => Flow::Still,
    }
}
