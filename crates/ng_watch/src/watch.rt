//! A watch, and what it has kept.
ghost use Rattle.std.specs.Prelude.{◌≡◌, true};
ghost use Rattle.ng_parse.specs.ProgramOf.{program as trees_of};
ghost use Rattle.ng_evaluation.specs.Purity.{are_pure, all_filters_known};

use ng_base::name::Oid;
use ng_base::txt::Txt;
use ng_parse::programs::Program;
use ng_value::snapshot::Snap;

/// What a watcher keeps of its program's value: the value, its items or named values, all of it, the text that it
/// shows, its class words; or, of a two-way binding with a property of an isolate scope, the side that changed.
#[derive(Drop)]
pub enum WatchKind {
    Reference,
    Collection,
    Deep,
    Text,
    Words,
    TwoWay { dest: Oid, name: Txt },
}

/// What is watched: a program that changes nothing and names known filters alone, over a scope.
#[derive(Drop)]
pub struct Watch {
    pub kind: WatchKind,
    pub program: Program,
    pub one_time: bool,
    pub scope: Oid,
    ghost pure: { are_pure (trees_of program) ≡ true },
    ghost known: { all_filters_known (trees_of program) ≡ true },
}

/// Clean, or dirty with the snapshot that is to be kept.
#[derive(Drop)]
pub enum Verdict {
    Clean,
    Dirty(Snap),
}
