//! Laws of sessions. Each function's contract is the law.
ghost use Rattle.ng_run.specs.Laws.{SessionIsOne};

/// The files of a run have at most one session, with the trace and without: what a run over them writes is determined.
pub fn session_is_one()
    ensures { SessionIsOne }
{}
