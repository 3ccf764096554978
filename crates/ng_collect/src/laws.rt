//! What is picked, in words of lists.
ghost use Rattle.std.specs.Prelude.{◌≡◌, List, IsPermutation, IsSorted};
ghost use Rattle.std.specs.List.Sorted.{IsStable};
ghost use Rattle.ng_collect.specs.declared.definition.DirectiveDef.{DirectiveDef};
ghost use Rattle.ng_collect.specs.declared.pick.Pick.{Pick};
ghost use Rattle.ng_collect.specs.Laws.{sorted, not_left_out};
ghost use Rattle.ng_collect.specs.Sorted.{pick_cmp, down_to_terminal};

/// Directives that fit stand by priority, the highest first, then by name, then by registration. None is lost and none added, and
/// those that tie keep the order of their attributes.
pub fn directives_are_sorted()
    ghost picks: { List Pick }
    ensures permutation { IsPermutation picks (sorted picks) }
    ensures sorted { IsSorted pick_cmp (sorted picks) }
    ensures stable { IsStable pick_cmp picks (sorted picks) }
{}

/// What a terminal directive leaves out is exactly what has a lower priority than it, so nothing of its own priority.
pub fn terminal_leaves_out_lower_priorities()
    ghost picks: { List DirectiveDef × List Pick }
    ensures { down_to_terminal picks.0 (sorted picks.1) ≡ not_left_out picks.0 picks.1 }
{}
