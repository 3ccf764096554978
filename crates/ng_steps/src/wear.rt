//! Whether a counter of a page stands at its last value.
ghost use Rattle.std.specs.Prelude.{◌≡◌};
ghost use Rattle.ng_link.specs.State.{state_of};
ghost use Rattle.ng_steps.specs.Worn.{is_worn};

use ng_act::wear;
use ng_link::works::Works;

/// Whether no further function or node has a name, or no further registration a number.
pub fn is_worn(works: &Works) -> bool
    ensures { result ≡ is_worn (state_of works.now) }
{
    wear::is_worn(&works.core) || works.dom().next_name() == u64::MAX
}
