//! What a reader may take from the definitions of actions and of evaluation together: a contract without a body.
ghost use Rattle.ng_pure.specs.Pure.{PureLaw};

/// Running a pure program is evaluating it: it gives a value that shows the one of evaluation, or the same fault, and makes
/// objects for what is fresh, after the others, which stay as they were.
pub fn running_a_pure_program_is_evaluating_it()
    ensures { PureLaw }
{}
