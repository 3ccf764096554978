//! What is proved of the definitions alone. Each law is a function with an empty body, so that the gate proves it.
ghost use Rattle.ng_behaviour.specs.Scopes.{NextScopeLaw, GrownTreeLaw};

/// The next scope is the least of those ahead.
pub fn next_scope_is_the_least_ahead()
    ensures { NextScopeLaw }
{}

/// A tree that grows by a scope, or in which scopes die, is a tree.
pub fn trees_stay_trees()
    ensures { GrownTreeLaw }
{}
