//! The value of a program.
ghost use Rattle.std.specs.Prelude.{◌≡◌, ◌<◌, length, map, IfOk, IfSome, Ok};
ghost use Rattle.ng_base.specs.Faults.{is_memory};
ghost use Rattle.ng_base.specs.Meets.{Gives};
ghost use Rattle.ng_base.specs.ViewOf.{view_of};
ghost use Rattle.ng_base.specs.Views.{prim};
ghost use Rattle.ng_language.specs.Trees.{trees_from};
ghost use Rattle.ng_language.specs.Views.{ViewStands};
ghost use Rattle.ng_parse.specs.ProgramOf.{program};
ghost use Rattle.ng_parse.specs.TreeOf.{tree};
ghost use Rattle.ng_evaluation.specs.Purity.{ArePure, FiltersKnown};
ghost use Rattle.ng_evaluation.specs.Evaluation.{evaluated_program};
ghost use Rattle.ng_members.specs.Leaves.{LocalsStand};

use crate::evaluation::evaluated;
use crate::paths::seen;
use ng_base::fault::Fault;
use ng_base::locals::Locals;
use ng_base::name::Oid;
use ng_base::value::Value;
use ng_base::view::View;
use ng_members::members::undefined;
use ng_parse::{Expr, Program};
use ng_store::Store;
use std::alloc::Global;

/// The value of the last statement, or undefined.
fn statements_value(
    alloc: Global,
    store: &Store,
    scope: Oid,
    locals: &Locals,
    statements: &[Expr],
) -> Result<View, Fault>
    requires scope { scope.0 < length store.now }
    requires locals { LocalsStand (length store.now) locals.now }
    requires known { FiltersKnown (trees_from (map tree statements.now)) }
    ensures exact { Gives is_memory view_of (evaluated_program store.now scope.0 locals.now (trees_from (map tree statements.now))) result }
    ensures stands { IfOk result (λ v. ViewStands (length store.now) (view_of v)) }
{
    if let [statement] = statements {
        return evaluated(alloc, store, scope, locals, statement);
    }
    let mut value = undefined();
    for statement in statements {
        value = evaluated(alloc, store, scope, locals, statement)?;
    }
    Ok(value)
}

/// The value of a program over a scope, with locals before the scope's names. Nothing is changed and no object made.
pub fn view(
    alloc: Global,
    store: &Store,
    scope: Oid,
    locals: &Locals,
    p: &Program,
) -> Result<View, Fault>
    requires scope { scope.0 < length store.now }
    requires locals { LocalsStand (length store.now) locals.now }
    requires pure { ArePure (program p.now) }
    requires known { FiltersKnown (program p.now) }
    ensures exact { Gives is_memory view_of (evaluated_program store.now scope.0 locals.now (program p.now)) result }
    ensures stands { IfOk result (λ v. ViewStands (length store.now) (view_of v)) }
{
    statements_value(alloc, store, scope, locals, p.statements())
}

/// The value of a program that is one dotted path of names, each of which stands for something: where it stands, so that it is not copied.
pub fn seen_value<'a>(
    store: &'a Store,
    scope: Oid,
    locals: &'a Locals,
    p: &Program,
) -> Option<&'a Value>
    requires scope { scope.0 < length store.now }
    requires locals { LocalsStand (length store.now) locals.now }
    ensures value { IfSome result (λ v. evaluated_program store.now scope.0 locals.now (program p.now) ≡ Ok (prim v.now)) }
    ensures stands { IfSome result (λ v. ViewStands (length store.now) (prim v.now)) }
{
    match p.statements() {
        [statement] => seen(store, scope, locals, statement),
        _ => None,
    }
}
