//! Names as locals have them, which no hole has, and as a scope's prototype has them.
ghost use Rattle.std.specs.Prelude.{◌<◌, length, IfOk};
ghost use Rattle.ng_base.specs.ViewOf.{view_of};
ghost use Rattle.ng_language.specs.Views.{ViewStands};
ghost use Rattle.ng_members.specs.Leaves.{LocalsStand};

use crate::rows::column;
use crate::values::{Of, put};
use ng_base::heap::ObjKind;
use ng_base::locals::Locals;
use ng_base::name::Oid;
use ng_base::txt::Txt;
use ng_base::value::Value;
use ng_base::view::View;
use ng_lex::lex;
use ng_parse::parse;
use ng_purity::{filters_known, is_pure};
use ng_store::store::Store;
use ng_value::texts::json_text;
use ng_view::view;
use std::alloc::{AllocError, Global};

/// A store with a scope, which has a `w` of its own, over a prototype with `n`, `u`, `w` and `z`.
fn made(alloc: Global) -> Option<Store> {
    let mut store = Store::new(alloc);
    let _ = store.make(ObjKind::Plain, None).ok()?;
    if store.count() == 0 {
        return None;
    }
    let _ = store.make(ObjKind::Scope, Some(Oid(0))).ok()?;
    let all = put(alloc, &mut store, 0, "n", Of::Int(7))
        && put(alloc, &mut store, 0, "u", Of::Int(3))
        && put(alloc, &mut store, 0, "w", Of::Text("lent"))
        && put(alloc, &mut store, 0, "z", Of::Int(0))
        && put(alloc, &mut store, 1, "w", Of::Text("own"));
    if all { Some(store) } else { None }
}

/// Locals that hide names of the scope.
fn hiding(alloc: Global, store: &Store) -> Result<Locals, AllocError>
    ensures { IfOk result (λ l. LocalsStand (length store.now) l) }
{
    let mut locals = Locals::new(alloc);
    locals.push(Txt::from_str(alloc, "l")?, Value::Bool(true))?;
    locals.push(Txt::from_str(alloc, "u")?, Value::Undefined)?;
    locals.push(Txt::from_str(alloc, "z")?, Value::Int(1))?;
    Ok(locals)
}

/// A value as JSON, or what JSON has no word for.
fn told(alloc: Global, store: &Store, v: &View) -> Option<Txt>
    requires { ViewStands (length store.now) (view_of v.now) }
{
    match v {
        View::Prim(Value::Undefined) => Txt::from_str(alloc, "undefined").ok(),
        _ => json_text(alloc, store, v, 0).ok(),
    }
}

/// What a program gives over the scope.
fn shown(alloc: Global, store: &Store, locals: &Locals, text: &str) -> Option<Txt>
    requires { LocalsStand (length store.now) locals.now }
{
    let tokens = lex(alloc, text).ok()?;
    let program = parse(alloc, &tokens).ok()?;
    if store.count() < 2 || !is_pure(&program) || !filters_known(&program) {
        return None;
    }
    let value = view(alloc, store, Oid(1), locals, &program).ok()?;
    told(alloc, store, &value)
}

const NAMES: &str = r#"l→true
z→1
u→undefined
w→"own"
this.w→"own"
this.l→undefined
this.u→3
this.z→0
[z, this.z]→[1,0]
{n, z}→{"n":7,"z":1}
[this]→["$SCOPE"]"#;

#[test]
fn locals_come_before_the_names_of_a_scope(rt: HostRuntime) {
    let alloc = rt.alloc();
    let Some(store) = made(alloc) else {
        panic!(rt; "no store");
    };
    let Ok(locals) = hiding(alloc, &store) else {
        panic!(rt; "no locals");
    };
    for row in NAMES.split('\n') {
        let (text, want) = column(row);
        let Some(got) = shown(alloc, &store, &locals, text) else {
            panic!(rt; "no value of {text}");
        };
        assert_eq!(rt; got.as_str(), want, "at {text}");
    }
}
