//! Laws of the lexer, each a contract without a body.
ghost use Rattle.ng_tags.specs.Laws.{LeavesLess, ReadIsSpelled, SpelledIsRead, RefusedForAReason, FaultHasAReason, ReasonIsAFault, DoctypeIsPassed};

/// An event leaves less of the document than there was.
pub fn leaves_less()
    ensures { LeavesLess }
{}

/// What is read as an event without a fault is spelled so.
pub fn read_is_spelled()
    ensures { ReadIsSpelled }
{}

/// What spells an event is read as it.
pub fn spelled_is_read()
    ensures { SpelledIsRead }
{}

/// What is refused is refused for a reason at its place, and what has such a reason is refused so.
pub fn refused_for_a_reason()
    ensures { RefusedForAReason }
{}

/// The first fault of a start tag has a reason at its place.
pub fn fault_has_a_reason()
    ensures { FaultHasAReason }
{}

/// A start tag that has a reason to be faulty is read with that fault.
pub fn reason_is_a_fault()
    ensures { ReasonIsAFault }
{}

/// A doctype that stands first is passed by, or refused where it has no end; without one nothing is passed by.
pub fn doctype_is_passed()
    ensures { DoctypeIsPassed }
{}
