//! The filter `filter`: which items match a pattern.
ghost use Rattle.std.specs.Prelude.{◌≡◌, Bool, ◌<◌, ◌∷◌, [], true, false, length, map, codes, IfOk, IfErr};
ghost use Rattle.std.specs.List.{AllByRecursion};
ghost use Rattle.ng_base.specs.Faults.{is_memory};
ghost use Rattle.ng_base.specs.Meets.{Meets, Gives};
ghost use Rattle.ng_base.specs.Views.{views_list};
ghost use Rattle.ng_base.specs.ViewOf.{view_of, views_of};
ghost use Rattle.ng_base.specs.declared.fault.Memory.TheVariants.{Refused};
ghost use Rattle.ng_language.specs.Unfolding.{Field, Spent, is_dollar, is_nothing};
ghost use Rattle.ng_language.specs.Views.{ViewStands};
ghost use Rattle.ng_filters.specs.Parts.{shape_of, items, properties};
ghost use Rattle.ng_filters.specs.Matching.{some_item, some_property, held, held_matches, every_property, is_object, any_matches, named_matches, object_matches, opposite, shape_matches, negated, match_within, level_limit, match_limit, is_primitive, pattern_for, item_matches, matching_from, matching, filtered};
ghost use Rattle.ng_filters.specs.Seen.{seen, field_seen, views_seen};

use crate::parts::{copied_item, count, item, member, property};
use crate::primitives::alone_matches;
use crate::properties::{Property, properties};
use crate::view_ref::{Shape, ViewRef, of_view, shape_of};
use ng_base::fault::{Fault, Memory};
use ng_base::reader::Plain;
use ng_base::txt::Txt;
use ng_base::view::{View, Views};
use ng_store::Store;
use ng_value::copies::copied;
use std::alloc::Global;

/// The rest of a pattern that begins with `!`.
fn negated(alloc: Global, p: ViewRef<'_>) -> Result<Option<Txt>, Memory>
    ensures rest { IfOk result (λ rest. rest ≡ negated (seen p.entry)) }
    ensures refused { IfErr result (λ e. e ≡ Refused) }
{
    let ViewRef::Text(t) = p else {
        return Ok(None);
    };
    let reader = Plain::new(t.as_str());
    match reader.first() {
        None => Ok(None),
        Some((c, rest)) => {
            if c == '!' {
                Ok(Some(Txt::from_str(alloc, rest.rest())?))
            } else {
                Ok(None)
            }
        }
    }
}

fn is_dollar(name: &Txt) -> bool
    ensures { result ≡ is_dollar name.now }
{
    match Plain::new(name.as_str()).first() {
        None => false,
        Some((c, _)) => c == '$',
    }
}

fn is_nothing(v: ViewRef<'_>) -> bool
    ensures { result ≡ is_nothing (seen v.entry) }
{
    match v {
        ViewRef::Undefined => true,
        ViewRef::Fun(_) => true,
        _ => false,
    }
}

fn is_object(shape: Shape) -> bool
    ensures { result ≡ is_object shape }
{
    match shape {
        Shape::Items => true,
        Shape::Names => true,
        Shape::Function => false,
        Shape::Primitive => false,
    }
}

fn is_primitive(shape: Shape) -> bool
    ensures { result ≡ is_primitive shape }
{
    match shape {
        Shape::Items => false,
        Shape::Names => false,
        Shape::Function => false,
        Shape::Primitive => true,
    }
}

/// What of a value is held against a property of a pattern: for `$` the value itself.
fn held<'a>(store: &'a Store, v: ViewRef<'a>, name: &Txt) -> ViewRef<'a>
    requires { ViewStands (length store.now) (seen v) }
    ensures held { seen result ≡ held store.now (seen v.entry) name.now }
    ensures stands { ViewStands (length store.now) (seen result) }
{
    if name.is_word("$") {
        v
    } else {
        member(store, v, name)
    }
}

/// The opposite of an answer.
fn opposite(answer: Result<(bool, u32), Fault>) -> Result<(bool, u32), Fault>
    ensures { (asked : Spent Bool) → Meets is_memory asked answer → Meets is_memory (opposite asked) result }
{
    match answer {
        Ok((found, left)) => Ok((!found, left)),
        Err(fault) => Err(fault),
    }
}

/// Whether a value matches a pattern.
#[cycle(matching)]
fn matches<'a>(
    alloc: Global,
    store: &'a Store,
    levels: u32,
    v: ViewRef<'a>,
    p: ViewRef<'a>,
    any: bool,
    left: u32,
) -> Result<(bool, u32), Fault>
    requires value { ViewStands (length store.now) (seen v) }
    requires pattern { ViewStands (length store.now) (seen p) }
    ensures { Meets is_memory (match_within levels store.now (seen v.entry) (seen p.entry) any left) result }
{
    if levels == 0 || left == 0 {
        return Err(Fault::TooBig);
    }
    match negated(alloc, p)? {
        Some(rest) => {
            let rest = ViewRef::Text(&rest);
            opposite(matches(alloc, store, levels - 1, v, rest, any, left - 1))
        }
        None => shape_matches(alloc, store, levels - 1, v, p, any, left - 1),
    }
}

/// Whether a value matches by its shape.
#[cycle(matching)]
fn shape_matches<'a>(
    alloc: Global,
    store: &'a Store,
    levels: u32,
    v: ViewRef<'a>,
    p: ViewRef<'a>,
    any: bool,
    left: u32,
) -> Result<(bool, u32), Fault>
    requires value { ViewStands (length store.now) (seen v) }
    requires pattern { ViewStands (length store.now) (seen p) }
    ensures { Meets is_memory (shape_matches (shape_of store.now (seen v.entry)) store.now (match_within levels store.now) (seen v.entry) (seen p.entry) any left) result }
{
    match shape_of(store, v) {
        Shape::Items => some_item(alloc, store, levels, v, p, any, left),
        Shape::Names => object_matches(alloc, store, levels, v, p, any, left),
        Shape::Function => Ok((false, left)),
        Shape::Primitive => Ok((alone_matches(alloc, v, p)?, left)),
    }
}

/// Whether some item of an array matches.
#[cycle(matching)]
fn some_item<'a>(
    alloc: Global,
    store: &'a Store,
    levels: u32,
    v: ViewRef<'a>,
    p: ViewRef<'a>,
    any: bool,
    left: u32,
) -> Result<(bool, u32), Fault>
    requires value { ViewStands (length store.now) (seen v) }
    requires pattern { ViewStands (length store.now) (seen p) }
    ensures { Meets is_memory (some_item (λ t. match_within levels store.now t (seen p.entry) any) (items store.now (seen v.entry)) left) result }
{
    let mut left = left;
    for i in 0..count(store, v) {
        let (found, rest) = matches(alloc, store, levels, item(store, v, i), p, any, left)?;
        if found {
            return Ok((true, rest));
        }
        left = rest;
    }
    Ok((false, left))
}

/// Whether an object matches.
#[cycle(matching)]
fn object_matches<'a>(
    alloc: Global,
    store: &'a Store,
    levels: u32,
    v: ViewRef<'a>,
    p: ViewRef<'a>,
    any: bool,
    left: u32,
) -> Result<(bool, u32), Fault>
    requires value { ViewStands (length store.now) (seen v) }
    requires pattern { ViewStands (length store.now) (seen p) }
    ensures { Meets is_memory (object_matches store.now (match_within levels store.now) (seen v.entry) (seen p.entry) any left) result }
{
    if any {
        any_matches(alloc, store, levels, v, p, left)
    } else {
        named_matches(alloc, store, levels, v, p, left)
    }
}

/// Whether some property of an object matches, or else the object itself.
#[cycle(matching)]
fn any_matches<'a>(
    alloc: Global,
    store: &'a Store,
    levels: u32,
    v: ViewRef<'a>,
    p: ViewRef<'a>,
    left: u32,
) -> Result<(bool, u32), Fault>
    requires value { ViewStands (length store.now) (seen v) }
    requires pattern { ViewStands (length store.now) (seen p) }
    ensures { Meets is_memory (any_matches store.now (match_within levels store.now) (seen v.entry) (seen p.entry) left) result }
{
    let (found, left) = some_own(alloc, store, levels, v, p, left)?;
    if found {
        return Ok((true, left));
    }
    matches(alloc, store, levels, v, p, false, left)
}

/// Whether an object matches property by property.
#[cycle(matching)]
fn named_matches<'a>(
    alloc: Global,
    store: &'a Store,
    levels: u32,
    v: ViewRef<'a>,
    p: ViewRef<'a>,
    left: u32,
) -> Result<(bool, u32), Fault>
    requires value { ViewStands (length store.now) (seen v) }
    requires pattern { ViewStands (length store.now) (seen p) }
    ensures { Meets is_memory (named_matches store.now (match_within levels store.now) (seen v.entry) (seen p.entry) left) result }
{
    if !is_object(shape_of(store, p)) {
        return Ok((false, left));
    }
    let wanted = properties(alloc, store, p)?;
    every_property(alloc, store, levels, v, wanted.as_slice(), left)
}

/// Whether some own property of an object matches.
#[cycle(matching)]
fn some_own<'a>(
    alloc: Global,
    store: &'a Store,
    levels: u32,
    v: ViewRef<'a>,
    p: ViewRef<'a>,
    left: u32,
) -> Result<(bool, u32), Fault>
    requires value { ViewStands (length store.now) (seen v) }
    requires pattern { ViewStands (length store.now) (seen p) }
    ensures { Meets is_memory (some_property (λ t. match_within levels store.now t (seen p.entry) true) (properties store.now (seen v.entry)) left) result }
{
    let own = properties(alloc, store, v)?;
    some_property(alloc, store, levels, own.as_slice(), p, left)
}

/// Whether some property matches whose name does not begin with `$`.
#[cycle(matching)]
fn some_property<'a>(
    alloc: Global,
    store: &'a Store,
    levels: u32,
    own: &[Property<'a>],
    p: ViewRef<'a>,
    left: u32,
) -> Result<(bool, u32), Fault>
    requires value { AllByRecursion (λ (f : Field). ViewStands (length store.now) f.1) (map field_seen own.now) }
    requires pattern { ViewStands (length store.now) (seen p) }
    ensures { Meets is_memory (some_property (λ t. match_within levels store.now t (seen p.entry) true) (map field_seen own.now) left) result }
{
    let mut left = left;
    for f in own {
        if !is_dollar(&f.name) {
            let (found, rest) = matches(alloc, store, levels, f.value, p, true, left)?;
            if found {
                return Ok((true, rest));
            }
            left = rest;
        }
    }
    Ok((false, left))
}

/// Whether what is held against a property of a pattern matches: undefined and functions are met by all, `$` by some
/// property.
#[cycle(matching)]
fn held_matches<'a>(
    alloc: Global,
    store: &'a Store,
    levels: u32,
    any: bool,
    v: ViewRef<'a>,
    p: ViewRef<'a>,
    left: u32,
) -> Result<(bool, u32), Fault>
    requires value { ViewStands (length store.now) (seen v) }
    requires pattern { ViewStands (length store.now) (seen p) }
    ensures { Meets is_memory (held_matches store.now (match_within levels store.now) any (seen v.entry) (seen p.entry) left) result }
{
    if is_nothing(p) {
        return Ok((true, left));
    }
    if any {
        return some_own(alloc, store, levels, v, p, left);
    }
    matches(alloc, store, levels, v, p, false, left)
}

/// Whether every property of a pattern matches.
#[cycle(matching)]
fn every_property<'a>(
    alloc: Global,
    store: &'a Store,
    levels: u32,
    v: ViewRef<'a>,
    wanted: &[Property<'a>],
    left: u32,
) -> Result<(bool, u32), Fault>
    requires value { ViewStands (length store.now) (seen v) }
    requires pattern { AllByRecursion (λ (f : Field). ViewStands (length store.now) f.1) (map field_seen wanted.now) }
    ensures { Meets is_memory (every_property store.now (match_within levels store.now) (seen v.entry) (map field_seen wanted.now) left) result }
{
    let mut left = left;
    for f in wanted {
        let any = f.name.is_word("$");
        let u = held(store, v, &f.name);
        let (found, rest) = held_matches(alloc, store, levels, any, u, f.value, left)?;
        if !found {
            return Ok((false, rest));
        }
        left = rest;
    }
    Ok((true, left))
}

/// The levels that a match goes down, the item's own counted.
fn levels() -> u32
    ensures { result ≡ level_limit }
{
    101
}

/// The matches that are asked for an item, its own counted.
fn match_limit() -> u32
    ensures { result ≡ match_limit }
{
    100_000
}

fn dollar(alloc: Global) -> Result<Txt, Memory>
    ensures name { IfOk result (λ t. t ≡ codes "$") }
    ensures refused { IfErr result (λ e. e ≡ Refused) }
{
    let mut name = Txt::new(alloc);
    name.push_word("$")?;
    Ok(name)
}

/// What an item is held against: a primitive against the property `$` of a pattern that has one.
fn pattern_for<'a>(store: &'a Store, dollar: &Txt, p: ViewRef<'a>, v: ViewRef<'_>) -> ViewRef<'a>
    requires dollar { dollar.now ≡ codes "$" }
    requires pattern { ViewStands (length store.now) (seen p) }
    requires value { ViewStands (length store.now) (seen v) }
    ensures pattern { seen result ≡ pattern_for store.now (seen p.entry) (seen v.entry) }
    ensures stands { ViewStands (length store.now) (seen result) }
{
    if is_primitive(shape_of(store, v)) {
        if let Some(q) = property(store, p, dollar) {
            return q;
        }
    }
    p
}

/// Whether an item stays.
fn item_matches(
    alloc: Global,
    store: &Store,
    dollar: &Txt,
    p: ViewRef<'_>,
    v: ViewRef<'_>,
) -> Result<bool, Fault>
    requires dollar { dollar.now ≡ codes "$" }
    requires pattern { ViewStands (length store.now) (seen p) }
    requires value { ViewStands (length store.now) (seen v) }
    ensures { Meets is_memory (item_matches store.now (seen p.entry) (seen v.entry)) result }
{
    let pattern = pattern_for(store, dollar, p, v);
    let any = is_primitive(shape_of(store, p));
    let (found, _) = matches(alloc, store, levels(), v, pattern, any, match_limit())?;
    Ok(found)
}

/// The items that match a pattern.
fn matching_items(
    alloc: Global,
    store: &Store,
    p: ViewRef<'_>,
    v: ViewRef<'_>,
) -> Result<Views, Fault>
    requires pattern { ViewStands (length store.now) (seen p) }
    requires value { ViewStands (length store.now) (seen v) }
    ensures { Gives is_memory views_seen (matching_from store.now (seen p.entry) [] (items store.now (seen v.entry))) result }
{
    let dollar = dollar(alloc)?;
    let mut done = Views::new(alloc);
    for i in 0..count(store, v) {
        if item_matches(alloc, store, &dollar, p, item(store, v, i))? {
            done.push(copied_item(alloc, store, v, i)?)?;
        }
    }
    Ok(done)
}

/// All items.
fn all_items(alloc: Global, store: &Store, v: ViewRef<'_>) -> Result<Views, Memory>
    requires { ViewStands (length store.now) (seen v) }
    ensures items { IfOk result (λ views. views_list (views_of views) ≡ items store.now (seen v.entry)) }
    ensures refused { IfErr result (λ e. e ≡ Refused) }
{
    let mut done = Views::new(alloc);
    for i in 0..count(store, v) {
        done.push(copied_item(alloc, store, v, i)?)?;
    }
    Ok(done)
}

/// The items that stay: all of them where the pattern is undefined or a function.
fn matching(alloc: Global, store: &Store, p: ViewRef<'_>, v: ViewRef<'_>) -> Result<Views, Fault>
    requires pattern { ViewStands (length store.now) (seen p) }
    requires value { ViewStands (length store.now) (seen v) }
    ensures { Gives is_memory views_seen (matching store.now (seen p.entry) (items store.now (seen v.entry))) result }
{
    if is_nothing(p) {
        return Ok(all_items(alloc, store, v)?);
    }
    matching_items(alloc, store, p, v)
}

/// Of an array the items that match; other input itself.
#[tactic(auto, using(crate::proofs::ViewParts::view_parts))]
pub(crate) fn filtered(alloc: Global, store: &Store, v: &View, p: &View) -> Result<View, Fault>
    requires value { ViewStands (length store.now) (view_of v.now) }
    requires pattern { ViewStands (length store.now) (view_of p.now) }
    ensures { Gives is_memory view_of (filtered store.now (view_of v.now) (view_of p.now)) result }
{
    match shape_of(store, of_view(v)) {
        Shape::Items => Ok(View::of_list(matching(alloc, store, of_view(p), of_view(v))?)),
        _ => Ok(copied(alloc, v)?),
    }
}
