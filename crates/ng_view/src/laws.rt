//! What a reader may take from the definition of values.
ghost use Rattle.std.specs.Prelude.{◌≡◌, ◌<◌, ◌⊎◌, length, map, true, Some, None, Ok, Err};
ghost use Rattle.std.specs.Map.{lookup};
ghost use Rattle.std.specs.Str.{bytes_eq};
ghost use Rattle.ng_base.specs.Views.{prim};
ghost use Rattle.ng_base.specs.declared.value.Value.TheVariants.{Undefined, Null};
ghost use Rattle.ng_base.specs.declared.fault.Fault.TheVariants.{NotAFunction, ImpureCall, Syntax};
ghost use Rattle.ng_language.specs.Objects.{look};
ghost use Rattle.ng_language.specs.Trees.{a_name, member_of, call_of, no_trees, trees_from};
ghost use Rattle.ng_parse.specs.ProgramOf.{program};
ghost use Rattle.ng_parse.specs.TreeOf.{tree};
ghost use Rattle.ng_view.specs.Calls.{calls_nothing, filters_nothing};
ghost use Rattle.ng_members.specs.Members.{or_undefined};
ghost use Rattle.ng_evaluation.specs.Evaluation.{evaluated, evaluated_program};

use ng_base::locals::Locals;
use ng_base::name::Oid;
use ng_base::txt::Txt;
use ng_base::value::Value;
use ng_parse::{Expr, Program};
use ng_store::Store;

/// A local hides what the scope has under its name.
#[tactic(auto, unfolding(ng_members::specs::Leaves::named))]
pub fn local_first(store: &Store, scope: Oid, locals: &Locals, name: &Txt, v: &Value)
    requires { lookup (bytes_eq name.now) locals.now ≡ Some v.now }
    ensures { evaluated store.now scope.0 locals.now (a_name name.now) ≡ Ok (prim v.now) }
{}

/// A name that is no local is looked up from the scope through its prototypes.
#[tactic(auto, unfolding(ng_members::specs::Leaves::named))]
pub fn scope_next(store: &Store, scope: Oid, locals: &Locals, name: &Txt)
    requires { lookup (bytes_eq name.now) locals.now ≡ None }
    ensures { evaluated store.now scope.0 locals.now (a_name name.now) ≡ Ok (or_undefined (look store.now scope.0 name.now)) }
{}

/// A call on null or undefined gives undefined, and its arguments do not count.
#[tactic(auto, unfolding(ng_members::specs::Callees::callee, ng_members::specs::Members::member))]
pub fn nothing_called(
    store: &Store,
    scope: Oid,
    locals: &Locals,
    e: &Expr,
    name: &Txt,
    args: &[Expr],
)
    requires { (evaluated store.now scope.0 locals.now (tree e.now) ≡ Ok (prim Undefined)) ⊎ (evaluated store.now scope.0 locals.now (tree e.now) ≡ Ok (prim Null)) }
    ensures { evaluated store.now scope.0 locals.now (call_of (member_of (tree e.now) name.now) (trees_from (map tree args.now))) ≡ Ok (prim Undefined) }
{}

/// The empty program is undefined.
pub fn empty_program(store: &Store, scope: Oid, locals: &Locals)
    ensures { evaluated_program store.now scope.0 locals.now no_trees ≡ Ok (prim Undefined) }
{}

/// A program without a call and without an assignment meets no fault of calls.
pub fn faults_of_calls(store: &Store, scope: Oid, locals: &Locals, p: &Program)
    requires { calls_nothing (program p.now) ≡ true }
    ensures function { ¬ (evaluated_program store.now scope.0 locals.now (program p.now) ≡ Err NotAFunction) }
    ensures impure { ¬ (evaluated_program store.now scope.0 locals.now (program p.now) ≡ Err ImpureCall) }
{}

/// A program without a filter never answers Syntax, which is the fault of a predicate of `orderBy` that is no path.
pub fn faults_of_filters(store: &Store, scope: Oid, locals: &Locals, p: &Program)
    requires { filters_nothing (program p.now) ≡ true }
    ensures { ¬ (evaluated_program store.now scope.0 locals.now (program p.now) ≡ Err Syntax) }
{}
