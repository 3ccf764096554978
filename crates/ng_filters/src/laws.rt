//! What filters promise, in words of lists.
ghost use Rattle.std.specs.Prelude.{◌≡◌, ◌++◌, List, map, filter, false, Ok, IsPermutation, IsSorted};
ghost use Rattle.std.specs.Cmp.{IsTotalOrder};
ghost use Rattle.std.specs.List.Sorted.{IsStable};
ghost use Rattle.ng_base.specs.Views.{ViewTree, views_list};
ghost use Rattle.ng_base.specs.ViewOf.{view_of, views_of};
ghost use Rattle.ng_language.specs.Unfolding.{is_nothing};
ghost use Rattle.ng_filters.specs.declared.predicates.Predicate.{Predicate};
ghost use Rattle.ng_filters.specs.declared.view_ref.Shape.TheVariants.{Items};
ghost use Rattle.ng_filters.specs.Parts.{shape_of, items};
ghost use Rattle.ng_filters.specs.Limits.{part};
ghost use Rattle.ng_filters.specs.Matching.{filtered};
ghost use Rattle.ng_filters.specs.Ordering.{by_predicates, is_before, in_order};
ghost use Rattle.ng_filters.specs.Laws.{stays};

use ng_base::view::{View, Views};
use ng_store::Store;

/// The comparison of `orderBy` is total: of any two items one is before the other, or they tie, and this goes on through
/// a third.
pub fn comparison_is_total(store: &Store, reversed: bool)
    ghost predicates: { List Predicate }
    ensures { IsTotalOrder (by_predicates store.now reversed predicates) }
{}

/// `orderBy` gives the items in another order, in which none is before an earlier one; those that tie keep their places.
pub fn order_is_stable(store: &Store, input: &View, reversed: bool)
    ghost predicates: { List Predicate }
    ensures permutation { IsPermutation (items store.now (view_of input.now)) (in_order (is_before store.now reversed predicates) (items store.now (view_of input.now))) }
    ensures sorted { IsSorted (by_predicates store.now reversed predicates) (in_order (is_before store.now reversed predicates) (items store.now (view_of input.now))) }
    ensures stable { IsStable (by_predicates store.now reversed predicates) (items store.now (view_of input.now)) (in_order (is_before store.now reversed predicates) (items store.now (view_of input.now))) }
{}

/// Only one order of the items is sorted and stable.
pub fn order_is_the_only_one(store: &Store, input: &View, reversed: bool, other: &Views)
    ghost predicates: { List Predicate }
    requires sorted { IsSorted (by_predicates store.now reversed predicates) (views_list (views_of other.now)) }
    requires stable { IsStable (by_predicates store.now reversed predicates) (items store.now (view_of input.now)) (views_list (views_of other.now)) }
    ensures { views_list (views_of other.now) ≡ in_order (is_before store.now reversed predicates) (items store.now (view_of input.now)) }
{}

/// `filter` keeps the items that match, in their order, and no others.
pub fn filter_keeps_what_matches(store: &Store, input: &View, pattern: &View, kept: &View)
    requires array { shape_of store.now (view_of input.now) ≡ Items }
    requires pattern { is_nothing (view_of pattern.now) ≡ false }
    requires filtered { filtered store.now (view_of input.now) (view_of pattern.now) ≡ Ok (view_of kept.now) }
    ensures { items store.now (view_of kept.now) ≡ filter (stays store.now (view_of pattern.now)) (items store.now (view_of input.now)) }
{}

/// `limitTo` gives entries that stand side by side in its input.
pub fn limit_is_a_part(entries: &[View], limit: i64, begin: &View)
    ensures { (before : List ViewTree) × (behind : List ViewTree) × (before ++ (part limit (view_of begin.now) (map view_of entries.now) ++ behind) ≡ map view_of entries.now) }
{}
