//! Laws of templates. Each function's contract is the law.
ghost use Rattle.ng_template.specs.Laws.{SitesFollowTheDocument, CompilesWhatIsNotRefused, FirstRefusalStands};

/// Sites belong to the holes in document order.
pub fn sites_follow_the_document()
    ensures { SitesFollowTheDocument }
{}

/// What compiles has no node that is refused.
pub fn compiles_what_is_not_refused()
    ensures { CompilesWhatIsNotRefused }
{}

/// The refusal is the first in document order.
pub fn first_refusal_stands()
    ensures { FirstRefusalStands }
{}
