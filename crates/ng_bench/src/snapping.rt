//! Snapshots and their comparison.
ghost use Rattle.std.specs.Prelude.{length};
ghost use Rattle.ng_base.specs.ViewOf.{view_of};
ghost use Rattle.ng_language.specs.Views.{ViewStands};

use ng_base::view::View;
use ng_language::snapshots::SnapKind;
use ng_store::store::Store;
use ng_value::snapping::snap;
use ng_value::snapshot::{Snap, differs};
use serde_json::Value as Json;
use std::alloc::Global;

/// An array of so many numbers, as JSON.
fn numbers(alloc: Global, size: u64) -> Option<Json> {
    let mut text = String::new(alloc);
    text.push_str("[1").ok()?;
    for _ in 1..size {
        text.push_str(",1").ok()?;
    }
    text.push_str("]").ok()?;
    Json::from_str(alloc, text.as_str()).ok()
}

/// Records in records, 90 levels of them, as JSON.
fn levels(alloc: Global) -> Option<Json> {
    let mut text = String::new(alloc);
    for _ in 0..90 {
        text.push_str("{\"a\":").ok()?;
    }
    text.push_str("1").ok()?;
    for _ in 0..90 {
        text.push_str("}").ok()?;
    }
    Json::from_str(alloc, text.as_str()).ok()
}

/// How often a value does not differ from its snapshot, of so many times.
fn unchanged(alloc: Global, store: &Store, v: &View, kept: &Snap, times: u64) -> Option<u64>
    requires { ViewStands (length store.now) (view_of v.now) }
{
    let mut count: u64 = 0;
    for _ in 0..times {
        let now = snap(alloc, SnapKind::Deep, store, v).ok()?;
        if !differs(kept, &now) {
            count = count.saturating_add(1);
        }
    }
    Some(count)
}

/// A snapshot of JSON, kept, and so many comparisons with the value as it stands.
fn compared(alloc: Global, json: &Json, times: u64) -> Option<u64> {
    let mut store = Store::new(alloc);
    let value = store.of_json(json).ok()?;
    let view = View::of_value(value);
    let kept = snap(alloc, SnapKind::Deep, &store, &view).ok()?;
    unchanged(alloc, &store, &view, &kept, times)
}

/// Compares an array of so many numbers with its snapshot, a hundred times.
pub(crate) fn wide(alloc: Global, size: u64) -> Option<u64> {
    compared(alloc, &numbers(alloc, size)?, 100)
}

/// Compares a record 90 levels deep with its snapshot, so many times.
pub(crate) fn deep(alloc: Global, size: u64) -> Option<u64> {
    compared(alloc, &levels(alloc)?, size)
}
