//! Scopes as rows, in order of making.
ghost use Rattle.std.specs.Prelude.{◌≡◌, ◌<◌, ◌≤◌, ◌^◌, ◌++◌, ◌∷◌, [], ℕ, true, OnOk, OnErr, IfErr, IfOk, MatchOption, length, slice_get, vec_len};
ghost use Rattle.std.specs.BTreeMap.{get, btree_map_len};
ghost use Rattle.ng_base.specs.Order.{path_cmp};
ghost use Rattle.ng_behaviour.specs.Scopes.{at, begins, change_at, adopting, child_path, child_of, with_child, children_at, path_at, object_at, of_object, without_scope, live_scope, live_at, dead, IsLed, IsScopeTree};
ghost use Rattle.ng_scopes.specs.Index.{IsFirst, NoneFrom};
ghost use Rattle.ng_scopes.specs.Rows.{tree_of, scope_of, losing, IsIndex, Rises};

use crate::index::{delist, enlist, first_from};
use ng_base::path::Path;
use std::alloc::{AllocError, Global};
use std::collections::BTreeMap;
use std::ops::Bound;

/// A scope.
#[derive(Drop)]
pub struct Row {
    pub path: Path,
    pub parent: Option<u32>,
    pub object: u32,
    pub live: bool,
    pub children: Vec<u32>,
}

/// A scope's child by its number.
#[tactic(auto, using(crate::proofs::TreeOf::reads))]
fn child(rows: &[Row], s: u32, number: u32) -> Option<u32>
    ensures { result ≡ slice_get (children_at (tree_of rows.now) s) number }
{
    match rows.get(s as usize) {
        None => None,
        Some(row) => row.children.as_slice().get(number as usize).copied(),
    }
}

/// The scope of a path.
pub fn at_in(rows: &[Row], p: &[u32]) -> Option<u32>
    ensures { result ≡ at (tree_of rows.now) p.now }
{
    let mut scope = 0;
    for number in p {
        match child(rows, scope, *number) {
            None => return None,
            Some(c) => scope = c,
        }
    }
    Some(scope)
}

/// The scope of an object: objects rise with their scopes.
#[tactic(auto, using(crate::proofs::TreeOf::reads))]
pub fn of_object_in(rows: &[Row], object: u32) -> Option<u32>
    requires rises { Rises (tree_of rows.now) }
    requires few { length rows.now < 2 ^ 32 }
    ensures { result ≡ of_object (tree_of rows.now) object }
{
    let mut low = 0;
    let mut high = rows.len();
    while low < high {
        let middle = low + (high - low) / 2;
        let row = &rows[middle];
        if row.object == object {
            return Some(middle as u32);
        }
        if row.object < object {
            low = middle + 1;
        } else {
            high = middle;
        }
    }
    None
}

/// The path of a container's next child.
#[tactic(auto, using(crate::proofs::TreeOf::reads))]
pub fn next_path(rows: &[Row], c: usize) -> Result<Path, AllocError>
    requires within { c < length rows.now }
    requires few { length (children_at (tree_of rows.now) c) < 2 ^ 32 }
    ensures { IfOk result (λ p. p ≡ child_path (tree_of rows.now) c) }
{
    let row = &rows[c];
    let mut path = row.path.copied()?;
    path.push(row.children.len() as u32)?;
    Ok(path)
}

#[tactic(auto, using(crate::proofs::TreeOf::writes))]
fn push_child(rows: &mut Vec<Row>, c: usize, child: u32) -> Result<(), AllocError>
    requires { c < vec_len rows.old }
    ensures ok { OnOk result (tree_of rows.new.items ≡ change_at (tree_of rows.old.items) c (adopting child)) }
    ensures err { OnErr result (tree_of rows.new.items ≡ tree_of rows.old.items) }
    ensures len { vec_len rows.new ≡ vec_len rows.old }
{
    let row = &mut rows[c];
    row.children.push(child)?;
    Ok(())
}

#[tactic(auto, using(crate::proofs::TreeOf::writes))]
fn pop_child(rows: &mut Vec<Row>, c: usize)
    requires { c < vec_len rows.old }
    ensures { tree_of rows.new.items ≡ change_at (tree_of rows.old.items) c losing }
{
    let row = &mut rows[c];
    let _ = row.children.pop();
}

/// Adds a scope under a container, or hands it back and changes nothing.
#[tactic(auto, using(crate::proofs::TreeOf::writes))]
pub fn adopt(rows: &mut Vec<Row>, c: usize, row: Row) -> Result<(), Row>
    requires within { c < vec_len rows.old }
    requires few { vec_len rows.old < 2 ^ 32 }
    ensures ok { OnOk result (tree_of rows.new.items ≡ change_at (tree_of rows.old.items) c (adopting (vec_len rows.old)) ++ scope_of row ∷ []) }
    ensures err { IfErr result (λ r. (r ≡ row) × (tree_of rows.new.items ≡ tree_of rows.old.items)) }
{
    let child = rows.len() as u32;
    if push_child(rows, c, child).is_err() {
        return Err(row);
    }
    match rows.push(row) {
        Ok(()) => Ok(()),
        Err(failed) => {
            pop_child(rows, c);
            Err(failed.value)
        }
    }
}

/// A live scope dies, and its path leaves the index.
#[tactic(auto, using(crate::proofs::TreeOf::writes))]
fn kill(rows: &mut Vec<Row>, index: &mut BTreeMap<Path, u32>, s: usize)
    requires within { s < vec_len rows.old }
    requires led { IsLed (tree_of rows.old.items) }
    requires index { IsIndex index.old (tree_of rows.old.items) }
    requires live { live_at (tree_of rows.old.items) s ≡ true }
    ensures tree { tree_of rows.new.items ≡ change_at (tree_of rows.old.items) s dead }
    ensures index { IsIndex index.new (tree_of rows.new.items) }
    ensures len { vec_len rows.new ≡ vec_len rows.old }
    ensures fewer { btree_map_len index.new < btree_map_len index.old }
{
    let row = &mut rows[s];
    let _ = index.remove(&row.path);
    row.live = false;
}

/// A scope and all below it die: one after another, in the order of their paths.
#[tactic(auto, using(crate::proofs::TreeOf::reads))]
pub fn bury(rows: &mut Vec<Row>, index: &mut BTreeMap<Path, u32>, s: usize)
    requires within { s < vec_len rows.old }
    requires tree { IsScopeTree (tree_of rows.old.items) }
    requires index { IsIndex index.old (tree_of rows.old.items) }
    ensures tree { tree_of rows.new.items ≡ without_scope (tree_of rows.old.items) s }
    ensures index { IsIndex index.new (tree_of rows.new.items) }
{
    while let Some(id) = first_live(index, rows.as_slice(), s) {
        kill(rows, index, id as usize);
    }
}

/// The first live scope that is a scope or below it.
#[tactic(auto, using(crate::proofs::TreeOf::reads))]
fn first_live(index: &BTreeMap<Path, u32>, rows: &[Row], s: usize) -> Option<u32>
    requires { s < length rows.now }
    ensures { MatchOption result (NoneFrom (get path_cmp index.now) (Bound.Included (path_at (tree_of rows.now) s)) (path_at (tree_of rows.now) s)) (IsFirst (get path_cmp index.now) (Bound.Included (path_at (tree_of rows.now) s)) (path_at (tree_of rows.now) s)) }
{
    let row = &rows[s];
    first_from(index, &row.path, &row.path)
}

/// Adds a live or dead scope under a container, as the container is, and its path to the index.
#[tactic(auto, using(crate::proofs::TreeOf::reads))]
pub fn add(
    rows: &mut Vec<Row>,
    index: &mut BTreeMap<Path, u32>,
    alloc: Global,
    c: usize,
    object: u32,
) -> Result<(), AllocError>
    requires within { c < vec_len rows.old }
    requires few { vec_len rows.old < 2 ^ 32 }
    requires children { length (children_at (tree_of rows.old.items) c) < 2 ^ 32 }
    requires tree { IsScopeTree (tree_of rows.old.items) }
    requires index { IsIndex index.old (tree_of rows.old.items) }
    ensures ok { OnOk result (tree_of rows.new.items ≡ with_child (tree_of rows.old.items) c object) }
    ensures err { OnErr result (tree_of rows.new.items ≡ tree_of rows.old.items) }
    ensures index { IsIndex index.new (tree_of rows.new.items) }
{
    let row = new_row(rows.as_slice(), alloc, c, object)?;
    enlist(index, &row.path, rows.len() as u32, row.live)?;
    match adopt(rows, c, row) {
        Ok(()) => Ok(()),
        Err(row) => {
            delist(index, &row.path);
            Err(AllocError)
        }
    }
}

/// The next scope under a container.
#[tactic(auto, using(crate::proofs::TreeOf::reads))]
fn new_row(rows: &[Row], alloc: Global, c: usize, object: u32) -> Result<Row, AllocError>
    requires within { c < length rows.now }
    requires few { length rows.now < 2 ^ 32 }
    requires children { length (children_at (tree_of rows.now) c) < 2 ^ 32 }
    ensures { IfOk result (λ r. scope_of r ≡ child_of (tree_of rows.now) c object) }
{
    let path = next_path(rows, c)?;
    let container = &rows[c];
    Ok(Row {
        path,
        parent: Some(c as u32),
        object,
        live: container.live,
        children: Vec::new(alloc),
    })
}

/// The number of a scope's children.
#[tactic(auto, using(crate::proofs::TreeOf::reads))]
pub fn children_in(rows: &[Row], c: usize) -> usize
    requires { c < length rows.now }
    ensures { result ≡ length (children_at (tree_of rows.now) c) }
{
    let container = &rows[c];
    container.children.len()
}
