//! Watchers that are clean, tested one after another.
ghost use Rattle.std.specs.Prelude.{◌≡◌, IsSome, IfSome};
ghost use Rattle.ng_watch.specs.Table.{found, watchers_of};

use ng_base::name::{Oid, Serial};
use ng_base::path::{Key, Path};
use ng_base::value::Value;
use ng_lex::lex;
use ng_parse::parse;
use ng_purity::{filters_known, is_pure};
use ng_store::store::Store;
use ng_watch::watch::{Verdict, Watch, WatchKind};
use ng_watch::watchers::Watchers;
use serde_json::Value as Json;
use std::alloc::Global;

/// Data with numbers, texts and a truth value.
const DATA: &str = "{\"n\":7,\"t\":\"some text\",\"b\":true,\"o\":{\"n\":-12,\"t\":\"more text\"}}";

const PROGRAMS: [&str; 5] = ["n", "t", "b", "o.n", "o.t"];

/// A text watch of a program over a scope.
fn watch(alloc: Global, text: &str, scope: Oid) -> Option<Watch> {
    let tokens = lex(alloc, text).ok()?;
    let program = parse(alloc, &tokens).ok()?;
    if !is_pure(&program) || !filters_known(&program) {
        return None;
    }
    Some(Watch {
        kind: WatchKind::Text,
        program,
        one_time: false,
        scope,
    })
}

fn key(alloc: Global, serial: u64) -> Key {
    Key {
        path: Path::new(alloc),
        serial: Serial(serial),
    }
}

/// So many text watches over a scope.
fn watched(alloc: Global, scope: Oid, size: u64) -> Option<Watchers> {
    let mut watchers = Watchers::new(alloc);
    for serial in 0..size {
        let text = PROGRAMS[(serial % 5) as usize];
        let watch = watch(alloc, text, scope)?;
        watchers.add(key(alloc, serial), watch).ok()?;
    }
    Some(watchers)
}

fn copied(key: &Key) -> Option<Key>
    ensures { IfSome result (λ k. k ≡ key.now) }
{
    let path = key.path.copied().ok()?;
    Some(Key {
        path,
        serial: key.serial,
    })
}

/// The verdict of a text watch, where its scope stands.
#[tactic(auto, using(crate::proofs::Watches::watch_stands))]
fn verdict(alloc: Global, store: &Store, watchers: &Watchers, key: &Key) -> Option<Verdict>
    requires { IsSome (found key.now (watchers_of watchers.now)) }
{
    let watch = watchers.watch(key);
    if watch.scope.0 as usize >= store.count() {
        return None;
    }
    match watch.kind {
        WatchKind::Text => watchers.test(alloc, store, key).ok(),
        _ => None,
    }
}

/// Keeps what the tests of so many watchers hand on; how many were dirty. The walk is that of a digest.
fn settled(alloc: Global, store: &Store, watchers: &mut Watchers, size: u64) -> Option<u64> {
    let mut at = copied(watchers.first()?)?;
    let mut count: u64 = 0;
    for _ in 0..size {
        if let Verdict::Dirty(snap) = verdict(alloc, store, watchers, &at)? {
            let _former = watchers.keep(&at, snap);
            count = count.saturating_add(1);
        }
        let Some(next) = watchers.next_after(&at) else {
            return Some(count);
        };
        at = copied(next)?;
    }
    Some(count)
}

/// How many of so many watchers are clean, one after another. The walk is that of a digest.
fn clean(alloc: Global, store: &Store, watchers: &mut Watchers, size: u64) -> Option<u64> {
    let mut at = copied(watchers.first()?)?;
    let mut count: u64 = 0;
    for _ in 0..size {
        if let Verdict::Clean = verdict(alloc, store, watchers, &at)? {
            count = count.saturating_add(1);
        }
        let Some(next) = watchers.next_after(&at) else {
            return Some(count);
        };
        at = copied(next)?;
    }
    Some(count)
}

/// Tests so many watchers that are clean, after a round in which each kept its text.
pub(crate) fn tested(alloc: Global, size: u64) -> Option<u64> {
    let mut store = Store::new(alloc);
    let json = Json::from_str(alloc, DATA).ok()?;
    let Value::Obj(scope) = store.of_json(&json).ok()? else {
        return None;
    };
    let mut watchers = watched(alloc, scope, size)?;
    let _dirty = settled(alloc, &store, &mut watchers, size)?;
    clean(alloc, &store, &mut watchers, size)
}
