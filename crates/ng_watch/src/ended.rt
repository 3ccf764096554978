//! Whether a one-time binding has ended (guide: Expressions, "One-Time Binding").
ghost use Rattle.std.specs.Prelude.{◌≡◌, length, map, not, IfOk};
ghost use Rattle.std.specs.List.{list_all};
ghost use Rattle.ng_base.specs.ViewOf.{view_of};
ghost use Rattle.ng_language.specs.Sums.{is_undefined as counts_undefined};
ghost use Rattle.ng_parse.specs.ProgramOf.{program as trees_of};
ghost use Rattle.ng_parse.specs.TreeOf.{tree};
ghost use Rattle.ng_watch.specs.Ended.{is_literal_tree, is_literal, parts_of, is_defined, is_over};
ghost use Rattle.ng_watch.specs.Seen.{watching_of, watcher_of, WatchStands};

use crate::testing::value_now;
use crate::watched::Watched;
use ng_base::fault::{Fault, Memory};
use ng_base::txt::Txt;
use ng_base::value::Value;
use ng_base::view::View;
use ng_parse::programs::Program;
use ng_parse::tree::Expr;
use ng_store::store::Store;
use std::alloc::Global;

fn is_undefined(value: &View) -> bool
    ensures { result ≡ counts_undefined (view_of value.now) }
{
    matches!(value, View::Prim(Value::Undefined))
}

fn is_literal_tree(statement: &Expr) -> bool
    ensures { result ≡ is_literal_tree (tree statement.now) }
{
    matches!(statement, Expr::List(_) | Expr::Record(_))
}

/// Whether a program is one array or object literal, and nothing else.
#[tactic(auto, using(crate::proofs::Literals::sole))]
fn is_literal(program: &Program) -> bool
    ensures { result ≡ is_literal (trees_of program.now) }
{
    match program.statements().split_first() {
        None => false,
        Some((statement, others)) => others.is_empty() && is_literal_tree(statement),
    }
}

fn views_defined(views: &[View]) -> bool
    ensures { result ≡ list_all (λ part. not (counts_undefined (view_of part))) views.now }
{
    views.iter().all(|part| !is_undefined(part))
}

fn fields_defined(fields: &[(Txt, View)]) -> bool
    ensures { result ≡ list_all (λ field. not (counts_undefined (view_of field.1))) fields.now }
{
    fields.iter().all(|field| !is_undefined(&field.1))
}

/// Whether no part of a fresh list or record is undefined.
fn parts_defined(value: &View) -> bool
    ensures { result ≡ list_all (λ part. not (counts_undefined part)) (parts_of (view_of value.now)) }
{
    match value {
        View::Prim(_) => true,
        View::List(views) => views_defined(views.as_slice()),
        View::Rec(fields) => fields_defined(fields.as_slice()),
    }
}

/// Whether a value counts as defined.
fn is_defined(program: &Program, value: &View) -> bool
    ensures { result ≡ is_defined (trees_of program.now) (view_of value.now) }
{
    if is_literal(program) {
        parts_defined(value)
    } else {
        !is_undefined(value)
    }
}

/// Whether a watcher is a one-time binding that has ended.
pub(crate) fn is_over(alloc: Global, store: &Store, watched: &Watched) -> Result<bool, Memory>
    requires { WatchStands (length store.now) (watching_of watched.now.watch) }
    ensures { IfOk result (λ ended. ended ≡ is_over store.now (watcher_of watched.now)) }
{
    if !watched.watch.one_time {
        return Ok(false);
    }
    match value_now(alloc, store, &watched.watch) {
        Ok(value) => Ok(is_defined(&watched.watch.program, &value)),
        Err(Fault::Memory(m)) => Err(m),
        Err(_) => Ok(false),
    }
}
