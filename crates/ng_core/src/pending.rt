//! What programs leave for the digest to do.
ghost use Rattle.std.specs.Prelude.{◌≡◌, true};
ghost use Rattle.ng_parse.specs.ProgramOf.{program as trees_of};
ghost use Rattle.ng_evaluation.specs.Purity.{are_pure, all_filters_known};

use ng_base::name::{ScopeId, Serial};
use ng_language::snapshots::SnapKind;
use ng_parse::Program;

/// A program that waits for the digest, and the scope that it runs on (API: `$rootScope.Scope`, `$evalAsync`).
#[derive(Drop)]
pub struct Task {
    pub scope: ScopeId,
    pub program: Program,
}

/// A watch that a program declared (API: `$rootScope.Scope`, `$watch`): where, under which number, what is compared, the
/// program that is watched, and the one that runs where it differs.
#[derive(Drop)]
pub struct DeclaredWatch {
    pub scope: ScopeId,
    pub serial: Serial,
    pub kind: SnapKind,
    pub program: Program,
    pub listener: Program,
    ghost pure: { are_pure (trees_of program) ≡ true },
    ghost known: { all_filters_known (trees_of program) ≡ true },
}

/// What the watchers are to become, in order: one more, the one of a scope and a number less, or those of a scope and of
/// all below it less.
#[derive(Drop)]
pub enum WatchChange {
    Add(DeclaredWatch),
    Remove(ScopeId, Serial),
    Leave(ScopeId),
}
