//! What a call calls.
ghost use Rattle.std.specs.Prelude.{◌≡◌, ◌<◌, length, IfOk, option_map};
ghost use Rattle.ng_base.specs.ViewOf.{view_of};
ghost use Rattle.ng_language.specs.Views.{ViewStands};
ghost use Rattle.ng_members.specs.Callees.{method_of};
ghost use Rattle.ng_core.specs.Calling.{is_left_out, scope_method, scope_called, kind_called, value_called, plainly_called, object_called, called_on, is_nothing, outlives};

use ng_base::fault::Memory;
use ng_base::heap::{Heap, ObjKind};
use ng_base::name::{FunId, Oid, ScopeId};
use ng_base::txt::Txt;
use ng_base::value::Value;
use ng_base::view::View;
use ng_members::items::is_list;
use ng_members::members::member;
use ng_members::methods::{Method, list_method, text_method};
use ng_scopes::scopes::Scopes;
use ng_store::Store;
use ng_write::changing::{Change, change_named};
use ng_write::events::{EventCall, event_call_named};
use std::alloc::Global;

/// A method of scopes. `LeftOut` are those that no expression may call.
#[derive(Clone, Copy, Debug, PartialEq, Eq)]
pub enum ScopeMethod {
    On,
    Emit,
    Broadcast,
    Destroy,
    Eval,
    Apply,
    Digest,
    Watch,
    WatchCollection,
    EvalAsync,
    LeftOut,
}

/// What is called.
#[derive(Clone, Copy, Debug, PartialEq, Eq)]
pub enum Called {
    Nothing,
    Function(FunId),
    Pure(Method),
    OfArray(Oid, Change),
    OfEvent(Oid, EventCall),
    OfScope(ScopeId, ScopeMethod),
    Other,
}

/// A method that expressions may not call.
fn is_left_out(name: &Txt) -> bool
    ensures { result ≡ is_left_out name.now }
{
    name.is_word("$new")
        || name.is_word("$watchGroup")
        || name.is_word("$applyAsync")
        || name.is_word("$$postDigest")
}

/// The method of scopes of a name.
pub fn scope_method(name: &Txt) -> Option<ScopeMethod>
    ensures { result ≡ scope_method name.now }
{
    if name.is_word("$on") {
        Some(ScopeMethod::On)
    } else if name.is_word("$emit") {
        Some(ScopeMethod::Emit)
    } else if name.is_word("$broadcast") {
        Some(ScopeMethod::Broadcast)
    } else if name.is_word("$destroy") {
        Some(ScopeMethod::Destroy)
    } else if name.is_word("$eval") {
        Some(ScopeMethod::Eval)
    } else if name.is_word("$apply") {
        Some(ScopeMethod::Apply)
    } else if name.is_word("$digest") {
        Some(ScopeMethod::Digest)
    } else if name.is_word("$watch") {
        Some(ScopeMethod::Watch)
    } else if name.is_word("$watchCollection") {
        Some(ScopeMethod::WatchCollection)
    } else if name.is_word("$evalAsync") {
        Some(ScopeMethod::EvalAsync)
    } else if is_left_out(name) {
        Some(ScopeMethod::LeftOut)
    } else {
        None
    }
}

/// A value to a call.
pub fn value_called(v: &View) -> Called
    ensures { result ≡ value_called (view_of v.now) }
{
    match v {
        View::Prim(Value::Undefined) => Called::Nothing,
        View::Prim(Value::Null) => Called::Nothing,
        View::Prim(Value::Fun(f)) => Called::Function(*f),
        _ => Called::Other,
    }
}

/// A method of a scope, or else what is called otherwise.
fn scope_called(s: Option<ScopeId>, name: &Txt, otherwise: Called) -> Called
    ensures { result ≡ scope_called (option_map (λ s. s.0) s) name.now otherwise }
{
    match s {
        None => otherwise,
        Some(s) => match scope_method(name) {
            Some(m) => Called::OfScope(s, m),
            None => otherwise,
        },
    }
}

/// A method of an event object or one that changes an array, or else what is called otherwise.
fn kind_called(kind: ObjKind, o: Oid, name: &Txt, otherwise: Called) -> Called
    ensures { result ≡ kind_called kind o.0 name.now otherwise }
{
    match kind {
        ObjKind::Event => match event_call_named(name) {
            Some(m) => Called::OfEvent(o, m),
            None => otherwise,
        },
        ObjKind::Array => match change_named(name) {
            Some(m) => Called::OfArray(o, m),
            None => otherwise,
        },
        ObjKind::Plain => otherwise,
        ObjKind::Scope => otherwise,
    }
}

/// The pure method of a value that has one of the name.
fn method_of(store: &Store, v: &View, name: &Txt) -> Option<Method>
    requires { ViewStands (length store.now) (view_of v.now) }
    ensures { result ≡ method_of store.now (view_of v.now) name.now }
{
    match v {
        View::Prim(Value::Text(_)) => text_method(name),
        _ => {
            if is_list(store, v) {
                list_method(name)
            } else {
                None
            }
        }
    }
}

/// A pure method, or what stands under the name.
fn plainly_called(alloc: Global, store: &Store, v: &View, name: &Txt) -> Result<Called, Memory>
    requires { ViewStands (length store.now) (view_of v.now) }
    ensures { IfOk result (λ c. c ≡ plainly_called store.now (view_of v.now) name.now) }
{
    match method_of(store, v, name) {
        Some(method) => Ok(Called::Pure(method)),
        None => Ok(value_called(&member(alloc, store, v, name)?)),
    }
}

/// What a name calls on a value.
#[tactic(auto, unfolding(crate::specs::Calling::called_on))]
pub fn called_on(
    alloc: Global,
    store: &Store,
    scopes: &Scopes,
    v: &View,
    name: &Txt,
) -> Result<Called, Memory>
    requires { ViewStands (length store.now) (view_of v.now) }
    ensures { IfOk result (λ c. c ≡ called_on store.now scopes.now (view_of v.now) name.now) }
{
    let plain = plainly_called(alloc, store, v, name)?;
    match v {
        View::Prim(Value::Obj(o)) => {
            let of_kind = kind_called(store.kind(*o), *o, name, plain);
            Ok(scope_called(scopes.of_object(*o), name, of_kind))
        }
        _ => Ok(plain),
    }
}

/// Whether nothing is called.
pub fn is_nothing(called: Called) -> bool
    ensures { result ≡ is_nothing called }
{
    match called {
        Called::Nothing => true,
        Called::Function(_) => false,
        Called::Pure(_) => false,
        Called::OfArray(_, _) => false,
        Called::OfEvent(_, _) => false,
        Called::OfScope(_, _) => false,
        Called::Other => false,
    }
}

/// Whether a dead scope has a method still.
pub fn outlives(method: ScopeMethod) -> bool
    ensures { result ≡ outlives method }
{
    match method {
        ScopeMethod::Eval => true,
        ScopeMethod::LeftOut => true,
        ScopeMethod::On => false,
        ScopeMethod::Emit => false,
        ScopeMethod::Broadcast => false,
        ScopeMethod::Destroy => false,
        ScopeMethod::Apply => false,
        ScopeMethod::Digest => false,
        ScopeMethod::Watch => false,
        ScopeMethod::WatchCollection => false,
        ScopeMethod::EvalAsync => false,
    }
}
