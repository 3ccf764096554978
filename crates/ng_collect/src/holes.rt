//! Values of attributes that have a hole (guide: Interpolation).
ghost use Rattle.std.specs.Prelude.{◌≡◌, IfOk};
ghost use Rattle.ng_collect.specs.Holes.{is_hole, has_hole as has_hole_in};

use ng_base::txt::Txt;
use ng_interp::cutting::{Cut, cut_text};
use std::alloc::{AllocError, Global};

fn hole(cut: &Cut) -> bool
    ensures { result ≡ is_hole cut.now }
{
    match cut {
        Cut::Words(_) => false,
        Cut::Hole(_, _) => true,
    }
}

/// Whether a text has a hole.
pub(crate) fn has_hole(alloc: Global, text: &Txt) -> Result<bool, AllocError>
    ensures { IfOk result (λ b. b ≡ has_hole_in text.now) }
{
    let cuts = cut_text(alloc, text)?;
    Ok(cuts.as_slice().iter().any(hole))
}
