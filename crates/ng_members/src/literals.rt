//! The values of names, numbers and words.
ghost use Rattle.std.specs.Prelude.{◌≡◌, ◌<◌, ℕ, pos, List, length, IfOk, option_copied, Ok};
ghost use Rattle.ng_base.specs.declared.value.Value.TheVariants.{Text};
ghost use Rattle.std.specs.Map.{lookup};
ghost use Rattle.std.specs.Str.{bytes_eq};
ghost use Rattle.ng_base.specs.Faults.{is_memory};
ghost use Rattle.ng_base.specs.Meets.{Gives};
ghost use Rattle.ng_base.specs.Views.{prim};
ghost use Rattle.ng_base.specs.ViewOf.{view_of};
ghost use Rattle.ng_language.specs.Operators.{in_range};
ghost use Rattle.ng_language.specs.Sums.{as_view};
ghost use Rattle.ng_language.specs.Views.{ViewStands};
ghost use Rattle.ng_members.specs.Leaves.{named, constant_value, label_name, LocalsStand, or_from};

use crate::members::undefined;
use ng_base::fault::{Fault, Memory};
use ng_base::locals::Locals;
use ng_base::name::Oid;
use ng_base::txt::Txt;
use ng_base::value::Value;
use ng_base::view::View;
use ng_language::syntax::{Constant, Label};
use ng_store::Store;
use std::alloc::Global;

/// The largest number of the language.
const LARGEST: u64 = 9_007_199_254_740_991;

/// A number as it is written.
pub fn number(n: u64) -> Result<View, Fault>
    ensures { Gives is_memory view_of (as_view (in_range (pos n))) result }
{
    if n <= LARGEST {
        Ok(View::of_value(Value::Int(n as i64)))
    } else {
        Err(Fault::Range)
    }
}

/// A word that always means the same.
pub fn constant(c: Constant) -> View
    ensures { view_of result ≡ prim (constant_value c) }
{
    View::of_value(match c {
        Constant::True => Value::Bool(true),
        Constant::False => Value::Bool(false),
        Constant::Null => Value::Null,
        Constant::Undefined => Value::Undefined,
    })
}

/// The written name of a pair.
pub fn label_name(alloc: Global, label: &Label) -> Result<Txt, Memory>
    ensures { IfOk result (λ t. t ≡ label_name label.now) }
{
    match label {
        Label::Name(n) => Ok(n.copied()?),
        Label::Text(t) => Ok(t.copied()?),
        Label::Number(n) => {
            let mut name = Txt::new(alloc);
            name.push_number(*n)?;
            Ok(name)
        }
    }
}

/// The local of a name.
pub fn local<'a>(locals: &'a Locals, name: &Txt) -> Option<&'a Value>
    ensures { option_copied result ≡ lookup (bytes_eq name.now) locals.now }
{
    for local in locals.as_slice() {
        if name.same(&local.0) {
            return Some(&local.1);
        }
    }
    None
}

/// A bare name: a local, else what the scope or its prototypes have.
#[tactic(auto, unfolding(crate::specs::Leaves::named))]
pub fn named(store: &Store, scope: Oid, locals: &Locals, name: &Txt) -> Result<View, Memory>
    requires scope { scope.0 < length store.now }
    requires locals { LocalsStand (length store.now) locals.now }
    ensures value { IfOk result (λ v. view_of v ≡ named store.now scope.0 locals.now name.now) }
    ensures stands { IfOk result (λ v. ViewStands (length store.now) (view_of v)) }
{
    if let Some(v) = local(locals, name) {
        return Ok(View::of_value(v.copied()?));
    }
    match store.look(scope, name) {
        Some(v) => Ok(View::of_value(v.copied()?)),
        None => Ok(undefined()),
    }
}

/// A bare name, as evaluation wants it.
#[inline(never)]
pub fn bare_name(store: &Store, scope: Oid, locals: &Locals, name: &Txt) -> Result<View, Fault>
    requires scope { scope.0 < length store.now }
    requires locals { LocalsStand (length store.now) locals.now }
    ensures value { Gives is_memory view_of (Ok (named store.now scope.0 locals.now name.now)) result }
    ensures stands { IfOk result (λ v. ViewStands (length store.now) (view_of v)) }
{
    Ok(named(store, scope, locals, name)?)
}

/// A text as it is written.
#[inline(never)]
pub fn text(t: &Txt) -> Result<View, Fault>
    ensures { Gives is_memory view_of (Ok (prim (Text t.now))) result }
{
    Ok(View::of_value(Value::Text(t.copied()?)))
}
