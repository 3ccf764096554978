//! Expressions, evaluated over the data of a scope.
ghost use Rattle.std.specs.Prelude.{◌<◌, length};

use ng_base::locals::Locals;
use ng_base::name::Oid;
use ng_base::value::Value;
use ng_lex::lex;
use ng_parse::parse;
use ng_purity::{filters_known, is_pure};
use ng_store::store::Store;
use ng_view::view;
use serde_json::Value as Json;
use std::alloc::Global;

/// Data for an expression with members, sums and a choice.
const DATA: &str =
    "{\"a\":{\"b\":{\"c\":5}},\"d\":3,\"e\":{\"f\":\"more\"},\"g\":{\"k\":\"less\"},\"h\":\"k\"}";

/// How often the program has a value over the object, of so many times.
fn evaluated(alloc: Global, store: &Store, scope: Oid, text: &str, times: u64) -> Option<u64>
    requires { scope.0 < length store.now }
{
    let tokens = lex(alloc, text).ok()?;
    let program = parse(alloc, &tokens).ok()?;
    if !is_pure(&program) || !filters_known(&program) {
        return None;
    }
    let locals = Locals::new(alloc);
    let mut count: u64 = 0;
    for _ in 0..times {
        if view(alloc, store, scope, &locals, &program).is_ok() {
            count = count.saturating_add(1);
        }
    }
    Some(count)
}

/// Evaluates a program over data, so many times.
fn over(alloc: Global, data: &str, text: &str, times: u64) -> Option<u64> {
    let mut store = Store::new(alloc);
    let json = Json::from_str(alloc, data).ok()?;
    match store.of_json(&json).ok()? {
        Value::Obj(scope) => evaluated(alloc, &store, scope, text, times),
        _ => None,
    }
}

/// Evaluates an expression with members, sums and a choice, so many times.
pub(crate) fn chosen(alloc: Global, size: u64) -> Option<u64> {
    over(alloc, DATA, "a.b.c + d * 2 > 10 ? e.f : g[h]", size)
}

/// A list of so many objects with numbers in no order, as JSON.
fn objects(alloc: Global, size: u64) -> Option<String> {
    let mut text = String::new(alloc);
    text.push_str("{\"xs\":[{\"n\":0}").ok()?;
    let mut number: u64 = 1;
    for _ in 1..size {
        number = number.wrapping_mul(16_807) % 2_147_483_647;
        text.push_str(",{\"n\":").ok()?;
        text.push_str(number.to_string(alloc).ok()?.as_str()).ok()?;
        text.push_str("}").ok()?;
    }
    text.push_str("]}").ok()?;
    Some(text)
}

/// Sorts so many objects by a number, and takes the first ten, a hundred times.
pub(crate) fn sorted(alloc: Global, size: u64) -> Option<u64> {
    let data = objects(alloc, size)?;
    over(alloc, data.as_str(), "xs | orderBy:'n' | limitTo:10", 100)
}
