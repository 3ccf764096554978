//! A watch with what it has kept.
ghost use Rattle.std.specs.Prelude.{◌≡◌, None};

use crate::watch::Watch;
use ng_value::snapshot::Snap;

/// A watch with what it has kept.
#[derive(Drop)]
pub struct Watched {
    pub watch: Watch,
    pub kept: Option<Snap>,
}

/// Nothing is kept any more.
pub fn forget(kept: &mut Option<Snap>)
    ensures { kept.new ≡ None }
{
    *kept = None;
}
