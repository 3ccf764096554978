//! What a deep snapshot keeps of a value.
ghost use Rattle.std.specs.Prelude.{◌≡◌, Ok};
ghost use Rattle.ng_base.specs.ViewOf.{view_of};
ghost use Rattle.ng_value.specs.Taken.{taken};
ghost use Rattle.ng_language.specs.Texts.{to_text};
ghost use Rattle.ng_language.specs.declared.snapshots.SnapKind.TheVariants.{Deep};

use ng_base::heap::Heap;
use ng_base::view::View;

/// Two values whose deep snapshots are equal have the same text, also where they stand in two heaps.
pub fn same_deep_same_text<H: Heap>(one: &H, a: &View, other: &H, b: &View, kept: &View)
    requires first { taken Deep (H.objects one.now) (view_of a.now) ≡ Ok (view_of kept.now) }
    requires second { taken Deep (H.objects other.now) (view_of b.now) ≡ Ok (view_of kept.now) }
    ensures { to_text (H.objects one.now) (view_of a.now) ≡ to_text (H.objects other.now) (view_of b.now) }
{}
