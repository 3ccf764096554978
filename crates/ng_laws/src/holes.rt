//! Where the holes of a text stand (guide: Interpolation): a contract without a body.
ghost use Rattle.ng_laws.specs.Turns.{TurnsAreCut, EachTextHasTurns};

/// Each text is words and holes in turn, and is cut into them: words up to the first `{{`, a hole up to the first `}}`.
pub fn turns_are_cut()
    ensures cut { TurnsAreCut }
    ensures each { EachTextHasTurns }
{}
