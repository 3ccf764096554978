//! The law, a contract without a body.
ghost use Rattle.ng_refusals.specs.Refusals.{UnexpectedIsUnfit, NotAssignableIsUnfit, EndedIsBegun};

/// A refusal stands at the first token that fits nothing, or at the end of a text that only begins a program.
pub fn refusal_stands_at_the_first_unfit_token()
    // What stands before the token begins a program, and with it nothing does.
    ensures unexpected { UnexpectedIsUnfit }

    // The same, and the token is a `=`.
    ensures not_assignable { NotAssignableIsUnfit }

    // The whole text begins a program and is none, and the place is its end.
    ensures ended { EndedIsBegun }
{}
