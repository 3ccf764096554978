//! The filter `limitTo`.
ghost use Rattle.std.specs.Prelude.{◌≡◌, ◌<◌, ◌≤◌, ◌-◌, length, min, take, drop, IfOk, IfErr};
ghost use Rattle.ng_base.specs.Views.{prim, views_list};
ghost use Rattle.ng_base.specs.declared.value.Value.TheVariants.{Text as TextOf};
ghost use Rattle.ng_base.specs.ViewOf.{view_of, views_of};
ghost use Rattle.ng_base.specs.declared.fault.Memory.TheVariants.{Refused};
ghost use Rattle.ng_language.specs.Views.{ViewStands};
ghost use Rattle.ng_filters.specs.Parts.{items};
ghost use Rattle.ng_filters.specs.Limits.{whole, begin_at, window, part, part_of_primitive, limited};
ghost use Rattle.ng_filters.specs.Seen.{seen};

use crate::parts::{copied_item, count};
use crate::view_ref::{Shape, ViewRef, of_view, shape_of};
use ng_base::fault::Memory;
use ng_base::reader::Plain;
use ng_base::trimming::{AsciiSpace, only};
use ng_base::txt::Txt;
use ng_base::value::Value;
use ng_base::view::{View, Views};
use ng_store::Store;
use ng_value::copies::copied;
use ng_value::numbers::view_num;
use std::alloc::Global;

/// A limit or a begin as a whole number.
fn whole(v: &View) -> Option<i64>
    ensures { result ≡ whole (view_of v.now) }
{
    match v {
        View::Prim(Value::Int(n)) => Some(*n),
        View::Prim(Value::Text(t)) => {
            if only::<AsciiSpace>(Plain::new(t.as_str())) {
                None
            } else {
                view_num(v)
            }
        }
        _ => None,
    }
}

/// Where the entries begin.
fn begin_at(begin: Option<i64>, count: usize) -> u64
    ensures { result ≡ begin_at begin count }
{
    match begin {
        None => 0,
        Some(b) => {
            if b < 0 {
                (count as u64).saturating_sub(b.unsigned_abs())
            } else {
                b as u64
            }
        }
    }
}

/// The first place and the end of what stays, within the entries.
fn window(limit: i64, begin: u64, count: usize) -> (usize, usize)
    ensures first { result.0 ≡ min (window limit begin count).0 count }
    ensures end { result.1 ≡ min (window limit begin count).1 count }
{
    let total = count as u64;
    let size = limit.unsigned_abs();
    let (first, end) = if limit >= 0 {
        (begin, begin.saturating_add(size))
    } else if begin == 0 {
        (total.saturating_sub(size), total)
    } else {
        (begin.saturating_sub(size), begin)
    };
    (first.min(total) as usize, end.min(total) as usize)
}

/// The place of the first entry that stays, and the end of those.
fn places(limit: i64, begin: &View, count: usize) -> (usize, usize)
    ensures first { result.0 ≡ min (window limit (begin_at (whole (view_of begin.now)) count) count).0 count }
    ensures end { result.1 ≡ min (window limit (begin_at (whole (view_of begin.now)) count) count).1 count }
{
    window(limit, begin_at(whole(begin), count), count)
}

/// A text without its first characters.
fn past(mut reader: Plain<'_>, count: usize) -> Plain<'_>
    ensures { result ≡ drop count reader.entry }
{
    let mut left = count;
    while left > 0 {
        let Some((_, rest)) = reader.first() else {
            return reader;
        };
        reader = rest;
        left -= 1;
    }
    reader
}

/// The first characters of a text.
fn front(alloc: Global, mut reader: Plain<'_>, count: usize) -> Result<Txt, Memory>
    ensures text { IfOk result (λ t. t ≡ take count reader.entry) }
    ensures refused { IfErr result (λ e. e ≡ Refused) }
{
    let mut out = Txt::new(alloc);
    let mut left = count;
    while left > 0 {
        let Some((c, rest)) = reader.first() else {
            return Ok(out);
        };
        out.push(c)?;
        reader = rest;
        left -= 1;
    }
    Ok(out)
}

/// A part of a text.
fn part_of_text(alloc: Global, limit: i64, begin: &View, t: &Txt) -> Result<View, Memory>
    ensures view { IfOk result (λ w. view_of w ≡ prim (TextOf (part limit (view_of begin.now) t.now))) }
    ensures refused { IfErr result (λ e. e ≡ Refused) }
{
    let (first, end) = places(limit, begin, t.len());
    let out = front(
        alloc,
        past(Plain::new(t.as_str()), first),
        end.saturating_sub(first),
    )?;
    Ok(View::of_value(Value::Text(out)))
}

/// Copies of the items between two places.
fn items_between(
    alloc: Global,
    store: &Store,
    v: ViewRef<'_>,
    first: usize,
    end: usize,
) -> Result<Views, Memory>
    requires stands { ViewStands (length store.now) (seen v) }
    requires within { end ≤ length (items store.now (seen v)) }
    ensures items { IfOk result (λ views. views_list (views_of views) ≡ take (end - first) (drop first (items store.now (seen v.entry)))) }
    ensures refused { IfErr result (λ e. e ≡ Refused) }
{
    let mut done = Views::new(alloc);
    for i in first..end {
        let item = copied_item(alloc, store, v, i)?;
        done.push(item)?;
    }
    Ok(done)
}

/// A part of an array.
fn part_of_items(
    alloc: Global,
    store: &Store,
    limit: i64,
    begin: &View,
    v: ViewRef<'_>,
) -> Result<Views, Memory>
    requires { ViewStands (length store.now) (seen v) }
    ensures items { IfOk result (λ views. views_list (views_of views) ≡ part limit (view_of begin.now) (items store.now (seen v.entry))) }
    ensures refused { IfErr result (λ e. e ≡ Refused) }
{
    let (first, end) = places(limit, begin, count(store, v));
    items_between(alloc, store, v, first, end)
}

/// A part of a text, or of a number as a text, and all else itself.
fn part_of_primitive(alloc: Global, limit: i64, begin: &View, v: &View) -> Result<View, Memory>
    ensures view { IfOk result (λ w. view_of w ≡ part_of_primitive limit (view_of begin.now) (view_of v.now)) }
    ensures refused { IfErr result (λ e. e ≡ Refused) }
{
    match v {
        View::Prim(Value::Text(t)) => part_of_text(alloc, limit, begin, t),
        View::Prim(Value::Int(n)) => {
            let mut t = Txt::new(alloc);
            t.push_signed(*n)?;
            part_of_text(alloc, limit, begin, &t)
        }
        View::Prim(Value::Nan) => {
            let mut t = Txt::new(alloc);
            t.push_word("NaN")?;
            part_of_text(alloc, limit, begin, &t)
        }
        _ => copied(alloc, v),
    }
}

/// A part of an array, a text or a number.
#[tactic(auto, using(crate::proofs::ViewParts::view_parts))]
pub(crate) fn limited(
    alloc: Global,
    store: &Store,
    v: &View,
    limit: &View,
    begin: &View,
) -> Result<View, Memory>
    requires { ViewStands (length store.now) (view_of v.now) }
    ensures view { IfOk result (λ w. view_of w ≡ limited store.now (view_of v.now) (view_of limit.now) (view_of begin.now)) }
    ensures refused { IfErr result (λ e. e ≡ Refused) }
{
    let Some(n) = whole(limit) else {
        return copied(alloc, v);
    };
    match shape_of(store, of_view(v)) {
        Shape::Items => Ok(View::of_list(part_of_items(alloc, store, n, begin, of_view(v))?)),
        _ => part_of_primitive(alloc, n, begin, v),
    }
}
