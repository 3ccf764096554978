//! What a call calls.
ghost use Rattle.std.specs.Prelude.{◌≡◌, length, IfOk};
ghost use Rattle.std.specs.List.{AllByRecursion};
ghost use Rattle.ng_base.specs.Faults.{is_memory};
ghost use Rattle.ng_base.specs.Meets.{Gives};
ghost use Rattle.ng_base.specs.declared.value.Value.TheVariants.{Text};
ghost use Rattle.ng_base.specs.Views.{prim, views_list};
ghost use Rattle.ng_base.specs.ViewOf.{view_of, views_of};
ghost use Rattle.ng_language.specs.Views.{ViewStands};
ghost use Rattle.ng_members.specs.Methods.{method_value};
ghost use Rattle.ng_members.specs.Callees.{method_of, member_callee, callee, is_nothing, called_on};

use crate::items::is_list;
use crate::lists::{argument, concat, join, list_view, place_of, place_or_none, slice};
use crate::members::{member, undefined};
use crate::methods::{Method, list_method, text_method};
use crate::texts::{find, text_in, trim};
use ng_base::casing::{lower, upper};
use ng_base::fault::{Fault, Memory};
use ng_base::txt::Txt;
use ng_base::value::Value;
use ng_base::view::{View, Views};
use ng_store::Store;
use ng_value::texts::to_text;
use std::alloc::Global;

/// What stands under the name that is called.
#[derive(Clone, Copy, Debug, PartialEq, Eq)]
pub enum Callee {
    Method(Method),
    Nothing,
    Function,
    Other,
}

/// The method of a value that has one of the name.
fn method_of(store: &Store, v: &View, name: &Txt) -> Option<Method>
    requires { ViewStands (length store.now) (view_of v.now) }
    ensures { result ≡ method_of store.now (view_of v.now) name.now }
{
    match v {
        View::Prim(Value::Text(_)) => text_method(name),
        _ => {
            if is_list(store, v) {
                list_method(name)
            } else {
                None
            }
        }
    }
}

/// What a member is to a call.
fn member_callee(v: &View) -> Callee
    ensures { result ≡ member_callee (view_of v.now) }
{
    match v {
        View::Prim(Value::Undefined) => Callee::Nothing,
        View::Prim(Value::Null) => Callee::Nothing,
        View::Prim(Value::Fun(_)) => Callee::Function,
        _ => Callee::Other,
    }
}

/// What a name calls on a value: a method comes before a member of the same name.
#[tactic(auto, unfolding(crate::specs::Callees::callee))]
pub fn find_callee(alloc: Global, store: &Store, v: &View, name: &Txt) -> Result<Callee, Memory>
    requires { ViewStands (length store.now) (view_of v.now) }
    ensures { IfOk result (λ c. c ≡ callee store.now (view_of v.now) name.now) }
{
    match method_of(store, v, name) {
        Some(method) => Ok(Callee::Method(method)),
        None => Ok(member_callee(&member(alloc, store, v, name)?)),
    }
}

/// What a method gives.
#[tactic(auto, unfolding(crate::specs::Methods::method_value))]
pub fn method_value(
    alloc: Global,
    store: &Store,
    method: Method,
    v: &View,
    args: &Views,
) -> Result<View, Fault>
    requires value { ViewStands (length store.now) (view_of v.now) }
    requires args { AllByRecursion (ViewStands (length store.now)) (views_list (views_of args.now)) }
    ensures exact { Gives is_memory view_of (method_value store.now method (view_of v.now) (views_list (views_of args.now))) result }
    ensures stands { IfOk result (λ w. ViewStands (length store.now) (view_of w)) }
{
    let empty = Txt::new(alloc);
    let missing = undefined();
    let first = argument(args, 0, &missing);
    match method {
        Method::IndexOf => Ok(place_or_none(place_of(store, v, first))?),
        Method::Slice => Ok(list_view(slice(alloc, store, v, args)?)),
        Method::Concat => Ok(list_view(concat(alloc, store, v, args)?)),
        Method::Join => Ok(text_view(join(alloc, store, v, first)?)),
        Method::Find => {
            let wanted = to_text(alloc, store, first)?;
            Ok(place_or_none(find(text_in(v, &empty), &wanted)?)?)
        }
        Method::Trim => Ok(text_view(trim(alloc, text_in(v, &empty))?)),
        Method::Upper => Ok(text_view(upper(alloc, text_in(v, &empty))?)),
        Method::Lower => Ok(text_view(lower(alloc, text_in(v, &empty))?)),
    }
}

/// Whether nothing is called.
pub fn is_nothing(callee: Callee) -> bool
    ensures { result ≡ is_nothing callee }
{
    match callee {
        Callee::Nothing => true,
        Callee::Method(_) => false,
        Callee::Function => false,
        Callee::Other => false,
    }
}

/// The value of a call whose arguments were evaluated.
#[tactic(auto, unfolding(crate::specs::Callees::called_on))]
pub fn called_on(
    alloc: Global,
    store: &Store,
    callee: Callee,
    v: &View,
    args: &Views,
) -> Result<View, Fault>
    requires value { ViewStands (length store.now) (view_of v.now) }
    requires args { AllByRecursion (ViewStands (length store.now)) (views_list (views_of args.now)) }
    ensures exact { Gives is_memory view_of (called_on store.now callee (view_of v.now) (views_list (views_of args.now))) result }
    ensures stands { IfOk result (λ w. ViewStands (length store.now) (view_of w)) }
{
    match callee {
        Callee::Method(method) => method_value(alloc, store, method, v, args),
        Callee::Nothing => Ok(undefined()),
        Callee::Function => Err(Fault::ImpureCall),
        Callee::Other => Err(Fault::NotAFunction),
    }
}

fn text_view(text: Txt) -> View
    ensures { view_of result ≡ prim (Text text) }
{
    View::of_value(Value::Text(text))
}
