//! The laws of what stands. Each function's contract is the law.
ghost use Rattle.ng_link.specs.Laws.{BodiesChanged, PageDisplaysInstance, PageHasItsNames, ShapeDrawsParts, StandingWithCore, WatchersAreFound};

/// What stands of parts is drawn as the parts are, whatever their sites show.
pub fn shape_draws_parts()
    ensures { ShapeDrawsParts }
{}

/// The bodies of an outlet change, and with them what stands at its anchor: one law for each kind of block.
pub fn bodies_changed()
    ensures { BodiesChanged }
{}

/// A page that stands displays the drawing of its instance and of the bodies in it, with what they have kept, and nothing where none is linked.
pub fn page_displays_instance()
    ensures { PageDisplaysInstance }
{}

/// The document of a page that stands has the names that its instances say.
pub fn page_has_its_names()
    ensures { PageHasItsNames }
{}

/// What stands asks of the core only that no number of registration is given anew, and that no object is lost.
pub fn standing_with_core()
    ensures { StandingWithCore }
{}

/// The objects that a watcher names are there, under whatever key it is found.
pub fn watchers_are_found()
    ensures { WatchersAreFound }
{}
