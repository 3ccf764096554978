//! The value of a dotted path of names, which is read where it stands, so that no value on its way is copied.
ghost use Rattle.std.specs.Prelude.{◌≡◌, ◌<◌, length, option_copied, IfSome, Ok};
ghost use Rattle.ng_base.specs.Views.{prim};
ghost use Rattle.ng_language.specs.Views.{ViewStands};
ghost use Rattle.ng_parse.specs.TreeOf.{tree};
ghost use Rattle.ng_members.specs.Leaves.{named, LocalsStand};
ghost use Rattle.ng_members.specs.Members.{member};
ghost use Rattle.ng_evaluation.specs.Evaluation.{evaluated};
ghost use Rattle.ng_view.specs.Paths.{stored_name, stored_member, stored_path};

use ng_base::heap::Heap;
use ng_base::locals::Locals;
use ng_base::name::Oid;
use ng_base::txt::Txt;
use ng_base::value::Value;
use ng_members::literals::local;
use ng_members::members::is_array;
use ng_parse::Expr;
use ng_store::Store;

/// What a bare name stands for, where it stands for something.
#[tactic(auto, unfolding(ng_members::specs::Leaves::named))]
fn named_seen<'a>(store: &'a Store, scope: Oid, locals: &'a Locals, name: &Txt) -> Option<&'a Value>
    requires scope { scope.0 < length store.now }
    requires locals { LocalsStand (length store.now) locals.now }
    ensures value { IfSome result (λ v. named store.now scope.0 locals.now name.now ≡ prim v.now) }
    ensures stands { IfSome result (λ v. ViewStands (length store.now) (prim v.now)) }
    ensures there { option_copied result ≡ stored_name store.now scope.0 locals.now name.now }
{
    if let Some(v) = local(locals, name) {
        return Some(v);
    }
    store.look(scope, name)
}

/// What an object that is no array, or its prototypes, have under a name.
#[tactic(auto, unfolding(ng_members::specs::Members::member))]
fn member_seen<'a>(store: &'a Store, v: &Value, name: &Txt) -> Option<&'a Value>
    requires { ViewStands (length store.now) (prim v.now) }
    ensures value { IfSome result (λ w. member store.now (prim v.now) name.now ≡ prim w.now) }
    ensures stands { IfSome result (λ w. ViewStands (length store.now) (prim w.now)) }
    ensures there { option_copied result ≡ stored_member store.now v.now name.now }
{
    match v {
        Value::Obj(o) => {
            if is_array(store.kind(*o)) {
                return None;
            }
            store.look(*o, name)
        }
        _ => None,
    }
}

/// The value of a path, where each name on it stands for something.
pub(crate) fn seen<'a>(
    store: &'a Store,
    scope: Oid,
    locals: &'a Locals,
    e: &Expr,
) -> Option<&'a Value>
    requires scope { scope.0 < length store.now }
    requires locals { LocalsStand (length store.now) locals.now }
    ensures value { IfSome result (λ v. evaluated store.now scope.0 locals.now (tree e.now) ≡ Ok (prim v.now)) }
    ensures stands { IfSome result (λ v. ViewStands (length store.now) (prim v.now)) }
    ensures there { option_copied result ≡ stored_path store.now scope.0 locals.now (tree e.now) }
{
    match e {
        Expr::Name(n) => named_seen(store, scope, locals, n),
        Expr::Member(t, n) => {
            let v = seen(store, scope, locals, t)?;
            member_seen(store, v, n)
        }
        _ => None,
    }
}
