//! What a reader may take from the definitions of actions.
ghost use Rattle.ng_act_laws.specs.Laws.{EventLaw, GoneLaw, NameLaw, DestroyLaw, PlainLaw, WholeLaw, SilentLaw, WatchLaw};

/// Where an event reaches a scope, each listener that stands there has one turn, in order: it runs if it still stands and
/// its scope is live. Nobody else has one, whatever the listeners do (guide: Scopes, "Scope Events Propagation").
pub fn each_listener_has_one_turn()
    ensures { EventLaw }
{}

/// A listener that is gone never comes back to its place, whatever runs.
pub fn gone_listeners_stay_gone()
    ensures { GoneLaw }
{}

/// A bare name is written on the locals or on the current scope's own object, and on no other object.
pub fn bare_names_are_written_here()
    ensures { NameLaw }
{}

/// Once a live scope is destroyed, neither it nor any scope below it lives.
pub fn destroyed_scopes_are_dead()
    ensures { DestroyLaw }
{}

/// Whatever runs, the scopes stay a tree, and a scope that isn't live has no listeners.
pub fn dead_scopes_have_no_listeners()
    ensures { WholeLaw }
{}

/// Once a live scope is destroyed, no listener stands at it nor at any scope below it.
pub fn destroyed_scopes_are_silent()
    ensures { SilentLaw }
{}

/// Once a live scope is destroyed, the declared watches of it and of all below it are to leave.
pub fn watches_leave_with_their_scope()
    ensures { WatchLaw }
{}

/// A program of names, constants, members and operators alone gives what its evaluation gives, and changes nothing.
pub fn plain_programs_change_nothing()
    ensures { PlainLaw }
{}
