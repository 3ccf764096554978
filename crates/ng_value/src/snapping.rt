//! Taking a snapshot of a value.
ghost use Rattle.std.specs.Prelude.{◌≡◌, length};
ghost use Rattle.ng_base.specs.Faults.{is_memory};
ghost use Rattle.ng_base.specs.Meets.{Gives};
ghost use Rattle.ng_base.specs.ViewOf.{view_of};
ghost use Rattle.ng_language.specs.Snapshots.{mode_of};
ghost use Rattle.ng_language.specs.Views.{ViewStands};
ghost use Rattle.ng_value.specs.Snaps.{snap_of};
ghost use Rattle.ng_value.specs.Taken.{taken};

use crate::collecting::collected;
use crate::snapshot::Snap;
use crate::unfolding::unfolded;
use ng_base::fault::Fault;
use ng_base::heap::Heap;
use ng_base::view::View;
use ng_language::snapshots::SnapKind;
use ng_language::unfolding::Mode;
use std::alloc::Global;

fn mode_of(kind: SnapKind) -> Mode
    ensures { result ≡ mode_of kind }
{
    match kind {
        SnapKind::Reference => Mode::Reference,
        SnapKind::Collection => Mode::Collection,
        SnapKind::Deep => Mode::Deep,
    }
}

/// The snapshot of a value, or TooBig. What a collection takes of a stored object is not counted.
pub fn snap<H: Heap>(alloc: Global, kind: SnapKind, h: &H, v: &View) -> Result<Snap, Fault>
    requires { ViewStands (length (H.objects h.now)) (view_of v.now) }
    ensures exact { Gives is_memory snap_of (taken kind (H.objects h.now) (view_of v.now)) result }
{
    match (kind, v) {
        (SnapKind::Collection, View::Prim(v)) => Ok(Snap::of_view(collected(alloc, h, v)?)),
        _ => Ok(Snap::of_view(unfolded(alloc, h, mode_of(kind), v)?)),
    }
}
