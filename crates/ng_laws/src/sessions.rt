//! Sessions and their digests: contracts without bodies.
ghost use Rattle.ng_laws.specs.Sessions.{DigestEnds, SessionIsThere, CrowdedPageIsEmpty};

/// The files of a run have a session, whatever their bytes are, since a digest over the watchers of a page comes to an end.
pub fn files_have_a_session()
    ensures ends { DigestEnds }
    ensures there { SessionIsThere }
{}

/// A page that would have more than 200,000 nodes is empty, and the status of the run is 1.
pub fn crowded_page_is_empty()
    ensures { CrowdedPageIsEmpty }
{}
