//! Laws of pages. Each function's contract is the law.
ghost use Rattle.ng_page.specs.Laws.{SettledPageShowsItsRendering, SettledBindingsAgree, NoStepChangesATemplate, LinkedSitesGetNewNumbers, DeclaredWatchGetsTheNextNumber, NoProgramLowersTheNextNumber, NoStepLowersTheNextNumber};

/// After a digest that answered Ok the document is the rendering.
pub fn settled_page_shows_its_rendering()
    ensures { SettledPageShowsItsRendering }
{}

/// After a digest that answered Ok both sides of each two-way binding agree.
pub fn settled_bindings_agree()
    ensures { SettledBindingsAgree }
{}

/// A page's templates are those that it was opened with, whatever is done on it.
pub fn no_step_changes_a_template()
    ensures { NoStepChangesATemplate }
{}

/// The number of registration in a watcher's key is a new one where the key is given, to a site that is linked or to a watch that is
/// declared; and nothing lowers the next one.
pub fn keys_of_watchers_are_never_given_twice()
    ensures linked { LinkedSitesGetNewNumbers }
    ensures declared { DeclaredWatchGetsTheNextNumber }
    ensures programs { NoProgramLowersTheNextNumber }
    ensures steps { NoStepLowersTheNextNumber }
{}
