//! What rows are tracked by (API: ngRepeat, "Tracking and Duplicates").
ghost use Rattle.std.specs.Prelude.{◌≡◌, true};
ghost use Rattle.ng_parse.specs.ProgramOf.{program as trees};
ghost use Rattle.ng_evaluation.specs.Purity.{are_pure, all_filters_known};

use ng_parse::Program;

/// What rows are tracked by. The program is pure and names known filters alone.
#[derive(Drop)]
pub struct Track {
    pub program: Program,
    ghost known: { all_filters_known (trees program) ≡ true },
    ghost pure: { are_pure (trees program) ≡ true },
}
