//! The predicates of `orderBy`: a sign, and a dotted path of names.
ghost use Rattle.std.specs.Prelude.{◌≡◌, ◌<◌, [], length, IfOk, IfErr, false};
ghost use Rattle.std.specs.List.{list_all};
ghost use Rattle.ng_base.specs.Faults.{is_memory};
ghost use Rattle.ng_base.specs.Meets.{Meets, Gives};
ghost use Rattle.ng_base.specs.ViewOf.{view_of};
ghost use Rattle.ng_base.specs.declared.fault.Memory.TheVariants.{Refused};
ghost use Rattle.ng_language.specs.Letters.{begins_name, is_in_name};
ghost use Rattle.ng_language.specs.Views.{ViewStands};
ghost use Rattle.ng_filters.specs.Parts.{items};
ghost use Rattle.ng_filters.specs.Ordering.{is_name, parts_in, path_in, with_path, predicate_in, predicate_of, only_predicate, predicates_from, predicates};
ghost use Rattle.ng_filters.specs.Seen.{seen, all_predicates};

use crate::parts::{count, item};
use crate::view_ref::{Shape, ViewRef, shape_of};
use ng_base::fault::{Fault, Memory};
use ng_base::lists::Names;
use ng_base::reader::Plain;
use ng_base::txt::Txt;
use ng_store::Store;
use std::alloc::Global;
use std::mem;

/// A path of names, and whether it is for falling order.
#[derive(Drop)]
pub(crate) struct Predicate {
    pub(crate) falling: bool,
    pub(crate) path: Names,
}

/// A letter, `_` or `$`.
fn begins_name(c: char) -> bool
    ensures { result ≡ begins_name c }
{
    ('a' <= c && c <= 'z') || ('A' <= c && c <= 'Z') || c == '_' || c == '$'
}

fn is_in_name(c: char) -> bool
    ensures { result ≡ is_in_name c }
{
    begins_name(c) || ('0' <= c && c <= '9')
}

fn all_in_name(mut reader: Plain<'_>) -> bool
    ensures { result ≡ list_all is_in_name reader.entry }
{
    while let Some(c) = reader.next() {
        if !is_in_name(c) {
            return false;
        }
    }
    true
}

fn is_name(part: &Txt) -> bool
    ensures { result ≡ is_name part.now }
{
    match Plain::new(part.as_str()).first() {
        None => false,
        Some((c, rest)) => begins_name(c) && all_in_name(rest),
    }
}

fn all_names(parts: &Names) -> bool
    ensures { result ≡ list_all is_name parts.now }
{
    for part in parts.as_slice() {
        if !is_name(part) {
            return false;
        }
    }
    true
}

/// The parts of a path between its points.
fn parts_in(alloc: Global, mut reader: Plain<'_>) -> Result<Names, Memory>
    ensures parts { IfOk result (λ parts. parts ≡ parts_in [] reader.entry) }
    ensures refused { IfErr result (λ e. e ≡ Refused) }
{
    let mut done = Names::new(alloc);
    let mut part = Txt::new(alloc);
    while let Some(c) = reader.next() {
        if c == '.' {
            done.push(mem::replace(&mut part, Txt::new(alloc)))?;
        } else {
            part.push(c)?;
        }
    }
    done.push(part)?;
    Ok(done)
}

/// Names between points, or nothing at all.
fn path_in(alloc: Global, reader: Plain<'_>) -> Result<Names, Fault>
    ensures { Meets is_memory (path_in reader.entry) result }
{
    match reader.first() {
        None => Ok(Names::new(alloc)),
        Some(_) => {
            let parts = parts_in(alloc, reader)?;
            if all_names(&parts) {
                Ok(parts)
            } else {
                Err(Fault::Syntax)
            }
        }
    }
}

fn with_path(alloc: Global, falling: bool, reader: Plain<'_>) -> Result<Predicate, Fault>
    ensures { Meets is_memory (with_path falling reader.entry) result }
{
    let path = path_in(alloc, reader)?;
    Ok(Predicate { falling, path })
}

/// A sign and a path.
fn predicate_in(alloc: Global, t: &Txt) -> Result<Predicate, Fault>
    ensures { Meets is_memory (predicate_in t.now) result }
{
    let reader = Plain::new(t.as_str());
    match reader.first() {
        None => with_path(alloc, false, reader),
        Some((c, rest)) => {
            if c == '+' {
                with_path(alloc, false, rest)
            } else if c == '-' {
                with_path(alloc, true, rest)
            } else {
                with_path(alloc, false, reader)
            }
        }
    }
}

/// What is no text stands for the item itself.
fn predicate_of(alloc: Global, v: ViewRef<'_>) -> Result<Predicate, Fault>
    ensures { Meets is_memory (predicate_of (seen v.entry)) result }
{
    match v {
        ViewRef::Text(t) => predicate_in(alloc, t),
        _ => Ok(Predicate {
            falling: false,
            path: Names::new(alloc),
        }),
    }
}

fn only_predicate(alloc: Global, v: ViewRef<'_>) -> Result<Vec<Predicate>, Fault>
    ensures { Gives is_memory all_predicates (only_predicate (seen v.entry)) result }
{
    let mut done = Vec::new(alloc);
    done.push(predicate_of(alloc, v)?)?;
    Ok(done)
}

/// The predicates of an array.
fn listed(alloc: Global, store: &Store, v: ViewRef<'_>) -> Result<Vec<Predicate>, Fault>
    requires { ViewStands (length store.now) (seen v) }
    ensures { Gives is_memory all_predicates (predicates_from [] (items store.now (seen v.entry))) result }
{
    let mut done = Vec::new(alloc);
    for i in 0..count(store, v) {
        done.push(predicate_of(alloc, item(store, v, i))?)?;
    }
    Ok(done)
}

/// One predicate, or those of an array; an empty array is one for the item itself.
pub(crate) fn predicates(
    alloc: Global,
    store: &Store,
    v: ViewRef<'_>,
) -> Result<Vec<Predicate>, Fault>
    requires { ViewStands (length store.now) (seen v) }
    ensures { Gives is_memory all_predicates (predicates store.now (seen v.entry)) result }
{
    match shape_of(store, v) {
        Shape::Items => {
            if count(store, v) == 0 {
                only_predicate(alloc, v)
            } else {
                listed(alloc, store, v)
            }
        }
        _ => only_predicate(alloc, v),
    }
}
