//! A filter of the table, applied.
ghost use Rattle.std.specs.Prelude.{◌≡◌, ◌<◌, ◌∷◌, [], length, map, IsTrue, IfOk};
ghost use Rattle.ng_base.specs.Faults.{is_memory};
ghost use Rattle.ng_base.specs.Meets.{Gives};
ghost use Rattle.ng_base.specs.Views.{ViewTree, ViewTrees, view_then, no_views, views_list, views_from};
ghost use Rattle.ng_base.specs.ViewOf.{view_of, views_of};
ghost use Rattle.ng_language.specs.Views.{ViewStands, ViewsStand};
ghost use Rattle.ng_filters.specs.Known.{known};
ghost use Rattle.ng_filters.specs.Parts.{undefined};
ghost use Rattle.ng_filters.specs.Applied.{applied, applied_by, first_of, second_of};

use crate::casing::{lowercase, uppercase};
use crate::limits::limited;
use crate::matching::filtered;
use crate::numbers::{json, number};
use crate::ordering::ordered;
use crate::table::{Filter, named};
use ng_base::fault::Fault;
use ng_base::txt::Txt;
use ng_base::value::Value;
use ng_base::view::{View, Views};
use ng_store::Store;
use ng_value::copies::copied;
use std::alloc::Global;

/// The first of some arguments; one that is missing is undefined.
fn first_of<'a>(args: &'a [View], missing: &'a View) -> &'a View
    requires { view_of missing.now ≡ undefined }
    ensures { view_of result.now ≡ first_of (views_from (map view_of args.now)) }
{
    match args.split_first() {
        None => missing,
        Some((v, _)) => v,
    }
}

/// The second of some arguments.
fn second_of<'a>(args: &'a [View], missing: &'a View) -> &'a View
    requires { view_of missing.now ≡ undefined }
    ensures { view_of result.now ≡ second_of (views_from (map view_of args.now)) }
{
    match args.split_first() {
        None => missing,
        Some((_, rest)) => first_of(rest, missing),
    }
}

/// The arguments as a slice.
#[tactic(auto, using(crate::proofs::ViewParts::view_parts))]
fn arguments(args: &Views) -> &[View]
    ensures { views_from (map view_of result.now) ≡ views_of args.now }
{
    args.as_slice()
}

/// What a filter makes of an input with its first two arguments.
fn applied_by(
    alloc: Global,
    filter: Filter,
    store: &Store,
    input: &View,
    first: &View,
    second: &View,
) -> Result<View, Fault>
    requires input { ViewStands (length store.now) (view_of input.now) }
    requires argument { ViewStands (length store.now) (view_of first.now) }
    ensures { (args : ViewTrees) → first_of args ≡ view_of first.now → second_of args ≡ view_of second.now → Gives is_memory view_of (applied_by filter store.now (view_of input.now) args) result }
{
    match filter {
        Filter::Uppercase => Ok(uppercase(alloc, input)?),
        Filter::Lowercase => Ok(lowercase(alloc, input)?),
        Filter::Number => Ok(number(alloc, input, first)?),
        Filter::Json => json(alloc, store, input, first),
        Filter::LimitTo => Ok(limited(alloc, store, input, first, second)?),
        Filter::Matching => filtered(alloc, store, input, first),
        Filter::OrderBy => ordered(alloc, store, input, first, second),
    }
}

/// What the filter of a name makes of an input; where there is none, the input itself.
fn applied(
    alloc: Global,
    name: &Txt,
    store: &Store,
    input: &View,
    args: &Views,
) -> Result<View, Fault>
    requires input { ViewStands (length store.now) (view_of input.now) }
    requires args { ViewsStand (length store.now) (views_of args.now) }
    ensures { Gives is_memory view_of (applied store.now name.now (view_of input.now) (views_of args.now)) result }
{
    let missing = View::of_value(Value::Undefined);
    let given = arguments(args);
    let first = first_of(given, &missing);
    let second = second_of(given, &missing);
    match named(name) {
        None => Ok(copied(alloc, input)?),
        Some(filter) => applied_by(alloc, filter, store, input, first, second),
    }
}

/// What a filter makes of an input with its arguments.
pub fn apply(
    alloc: Global,
    name: &Txt,
    store: &Store,
    input: &View,
    args: &Views,
) -> Result<View, Fault>
    requires known { IsTrue (known name.now (length (views_list (views_of args.now)))) }
    requires input { ViewStands (length store.now) (view_of input.now) }
    requires args { ViewsStand (length store.now) (views_of args.now) }
    ensures applied { Gives is_memory view_of (applied store.now name.now (view_of input.now) (views_of args.now)) result }
    ensures stands { IfOk result (λ v. ViewStands (length store.now) (view_of v)) }
{
    store.sound();
    let view = applied(alloc, name, store, input, args)?;
    Ok(view)
}
