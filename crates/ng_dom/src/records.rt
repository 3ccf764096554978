//! The nodes by name. Names rise and are never given twice, so neighbours stand together in runs, and a node is mostly where its
//! name says.
ghost use Rattle.std.specs.Prelude.{◌≡◌, ◌≤◌, ◌<◌, ◌+◌, ◌++◌, ◌==◌, ◌/◌, ℕ, [], ◌∷◌, Some, None, is_some, length, IsSome, IsNone, IfSome, OnOk, OnErr, IfOk, option_copied, option_map, slice_get, if◌then◌else◌};
ghost use Rattle.std.specs.List.{remove};
ghost use Rattle.std.specs.Option.{option_copied_mut};
ghost use Rattle.std.specs.Borrow.{sem};
ghost use Rattle.ng_dom.specs.Records.{Rises, AreRuns, IsKept, name_in, row_at, row_gone, row_pushed, under, node_at, live_in};

use crate::record::Record;
use std::alloc::{AllocError, Global};
use std::marker::Model;

/// How many names a run is for.
const RUN: u64 = 64;

/// The live nodes of neighbouring names, in order of their names: all whose name has one quotient by `RUN`.
#[derive(Drop)]
pub struct Run {
    number: u64,
    rows: Vec<(u64, Record)>,
}

impl Model for Run {
    ghost use Rattle.std.specs.Prelude.{ℕ, List};
    ghost use Rattle.std.specs.Coded.{codes};
    ghost use Rattle.ng_dom.specs.contracts.record.Record as record_contracts;
    ghost use Rattle.ng_dom.specs.declared.record.Record.{Record as Node};

    ghost Value = { ℕ × List (ℕ × Node) };

    ghost coded = { Prim.hlevel (codes, record_contracts.the_row.coded) };

    ghost view = { λ r. (r.number, r.rows.items) };
}

/// The live nodes by name, in runs that are not empty.
#[derive(Drop)]
pub struct Records {
    alloc: Global,
    runs: Vec<Run>,
    live: usize,
}

impl Model for Records {
    ghost use Rattle.std.specs.Prelude.{ℕ, List};
    ghost use Rattle.std.specs.Coded.{codes};
    ghost use Rattle.ng_dom.specs.contracts.record.Record as record_contracts;
    ghost use Rattle.ng_dom.specs.declared.record.Record.{Record as Node};
    ghost use Rattle.ng_dom.specs.Records.{IsKept};

    ghost Value = { List (ℕ × List (ℕ × Node)) };

    ghost coded = { Prim.hlevel (codes, record_contracts.the_row.coded) };

    ghost view = { λ t. t.runs.items };

    ghost invariant = { λ t. IsKept t.live t.runs.items };
}

/// A run, and a row of it.
#[derive(Clone, Copy)]
struct Place {
    run: usize,
    row: usize,
}

impl Run {
    ghost use Rattle.ng_dom.specs.Lending.{LendsRow};

    /// A run of one name.
    fn of_one(alloc: Global, number: u64, n: u64, node: Record) -> Result<Run, AllocError>
        ensures { IfOk result (λ r. r ≡ (number, (n, node) ∷ [])) }
    {
        let mut rows = Vec::with_capacity(alloc, RUN as usize)?;
        rows.push_reserved((n, node));
        Ok(Run { number, rows })
    }

    /// The quotient of its names.
    #[inline(always)]
    fn number(&self) -> u64
        ensures { result ≡ self.now.0 }
    {
        self.number
    }

    /// Its rows.
    #[inline(always)]
    fn rows(&self) -> &[(u64, Record)]
        ensures { result.now ≡ self.now.1 }
    {
        self.rows.as_slice()
    }

    /// A node is put after the others.
    #[inline(always)]
    fn push(&mut self, n: u64, node: Record) -> Result<(), AllocError>
        ensures ok { OnOk result (self.new ≡ (self.old.0, self.old.1 ++ (n, node) ∷ [])) }
        ensures err { OnErr result (self.new ≡ self.old) }
    {
        self.rows.push((n, node))?;
        Ok(())
    }

    /// A node is taken out. Where three quarters of the room are free then, half of it is given back.
    fn remove(&mut self, row: usize) -> Record
        requires { row < length self.old.1 }
        ensures node { option_map (λ e. e.1) (slice_get self.old.1 row) ≡ Some result }
        ensures left { self.new ≡ (self.old.0, remove self.old.1 row) }
    {
        let (_, node) = self.rows.remove(row);
        let half = self.rows.capacity() / 2;
        if self.rows.len() <= half / 2 {
            self.rows.shrink_to(half);
        }
        node
    }

    /// The node of a row, to be changed.
    #[inline(always)]
    fn node_mut(&mut self, row: usize) -> &mut Record
        requires { row < length self.old.1 }
        ensures* writes_back { sem 𝓛 (LendsRow self.entry row result) }
        ensures value { option_map (λ e. e.1) (slice_get self.old.1 row) ≡ Some result.now }
    {
        &mut self.rows[row].1
    }
}

/// Where a name stands if nothing was taken out, of so many rows or runs.
#[inline(always)]
fn guess(n: u64, len: usize) -> usize {
    let last = len.saturating_sub(1);
    if n < last as u64 { n as usize } else { last }
}

/// The run of a number.
#[inline(always)]
fn run_of(runs: &[Run], number: u64) -> Option<usize>
    requires { Rises runs.now }
    ensures there { IfSome result (λ i. name_in (slice_get runs.now i) ≡ Some number) }
    ensures none { IsNone result → under number runs.now ≡ None }
{
    let at = guess(number, runs.len());
    match runs.get(at) {
        Some(run) if run.number() == number => Some(at),
        _ => search_runs(runs, number),
    }
}

/// The run of a number, by a search.
#[inline(never)]
fn search_runs(runs: &[Run], number: u64) -> Option<usize>
    requires { Rises runs.now }
    ensures there { IfSome result (λ i. name_in (slice_get runs.now i) ≡ Some number) }
    ensures none { IsNone result → under number runs.now ≡ None }
{
    let at = runs.partition_point(|run| run.number() < number);
    match runs.get(at) {
        Some(run) if run.number() == number => Some(at),
        _ => None,
    }
}

/// The row of a name.
#[inline(always)]
fn row_of(rows: &[(u64, Record)], n: u64) -> Option<usize>
    requires { Rises rows.now }
    ensures there { IfSome result (λ i. name_in (slice_get rows.now i) ≡ Some n) }
    ensures none { IsNone result → under n rows.now ≡ None }
{
    let at = guess(n % RUN, rows.len());
    match rows.get(at) {
        Some(row) if row.0 == n => Some(at),
        _ => search_rows(rows, n),
    }
}

/// The row of a name, by a search.
#[inline(never)]
fn search_rows(rows: &[(u64, Record)], n: u64) -> Option<usize>
    requires { Rises rows.now }
    ensures there { IfSome result (λ i. name_in (slice_get rows.now i) ≡ Some n) }
    ensures none { IsNone result → under n rows.now ≡ None }
{
    let at = rows.partition_point(|row| row.0 < n);
    match rows.get(at) {
        Some(row) if row.0 == n => Some(at),
        _ => None,
    }
}

/// Where the node of a name stands.
#[inline]
fn find(runs: &[Run], n: u64) -> Option<Place>
    requires rises { Rises runs.now }
    requires runs { AreRuns runs.now }
    ensures there { IfSome result (λ p. name_in (row_at runs.now p.run p.row) ≡ Some n) }
    ensures none { IsNone result → node_at runs.now n ≡ None }
{
    let run = run_of(runs, n / RUN)?;
    let row = row_of(runs[run].rows(), n)?;
    Some(Place { run, row })
}

/// The node of a place.
#[inline(always)]
fn node_of(runs: &[Run], at: Place) -> &Record
    requires { IsSome (row_at runs.now at.run at.row) }
    ensures { option_map (λ e. e.1) (row_at runs.now at.run at.row) ≡ Some result.now }
{
    &runs[at.run].rows()[at.row].1
}

/// A node is put after all others.
#[inline(always)]
fn put_last(runs: &mut Vec<Run>, alloc: Global, n: u64, node: Record) -> Result<(), AllocError>
    ensures ok { OnOk result (runs.new.items ≡ row_pushed n node runs.old.items) }
    ensures err { OnErr result (runs.new.items ≡ runs.old.items) }
{
    let len = runs.len();
    if len > 0 && runs[len - 1].number() == n / RUN {
        return runs[len - 1].push(n, node);
    }
    let run = Run::of_one(alloc, n / RUN, n, node)?;
    runs.push(run)?;
    Ok(())
}

/// The node of a place is taken out, and its run with it where that has no other.
fn take_row(runs: &mut Vec<Run>, at: Place) -> Record
    requires { IsSome (row_at runs.old.items at.run at.row) }
    ensures node { option_map (λ e. e.1) (row_at runs.old.items at.run at.row) ≡ Some result }
    ensures left { runs.new.items ≡ row_gone runs.old.items at.run at.row }
{
    let node = runs[at.run].remove(at.row);
    if runs[at.run].rows().is_empty() {
        let _ = runs.remove(at.run);
    }
    node
}

impl Records {
    ghost use Rattle.ng_dom.specs.Lending.{LendsAt, LendsNode};

    /// No node.
    pub fn new(alloc: Global) -> Records
        ensures { result ≡ [] }
    {
        Records {
            alloc,
            runs: Vec::new(alloc),
            live: 0,
        }
    }

    /// How many nodes there are.
    pub fn len(&self) -> usize
        ensures value { result ≡ live_in self.now }
        ensures kept { IsKept result self.now }
    {
        self.live
    }

    /// The node of a name.
    pub fn get(&self, n: u64) -> Option<&Record>
        ensures { option_copied result ≡ node_at self.now n }
    {
        match find(&self.runs, n) {
            None => None,
            Some(at) => Some(node_of(&self.runs, at)),
        }
    }

    /// Whether a name has a node.
    pub fn has(&self, n: u64) -> bool
        ensures { result ≡ is_some (node_at self.now n) }
    {
        self.get(n).is_some()
    }

    /// The node of a place, to be changed.
    #[inline(always)]
    fn node_mut(&mut self, at: Place) -> &mut Record
        requires { IsSome (row_at self.old at.run at.row) }
        ensures* writes_back { sem 𝓛 (LendsAt self.entry at.run at.row result) }
        ensures value { option_map (λ e. e.1) (row_at self.old at.run at.row) ≡ Some result.now }
    {
        self.runs[at.run].node_mut(at.row)
    }

    /// The node of a name, to be changed.
    pub fn get_mut(&mut self, n: u64) -> Option<&mut Record>
        ensures* writes_back { sem 𝓛 (LendsNode self.entry n result) }
        ensures value { option_copied_mut result ≡ node_at self.old n }
    {
        match find(&self.runs, n) {
            None => None,
            Some(at) => Some(self.node_mut(at)),
        }
    }

    /// A node is put under a name above all others.
    pub fn push(&mut self, n: u64, node: Record) -> Result<(), AllocError>
        requires { (q : ℕ) → n ≤ q → node_at self.old q ≡ None }
        ensures node { OnOk result ((q : ℕ) → node_at self.new q ≡ (if q == n then Some node else node_at self.old q)) }
        ensures live { OnOk result (live_in self.new ≡ live_in self.old + 1) }
        ensures err { OnErr result (self.new ≡ self.old) }
    {
        if self.live == usize::MAX {
            return Err(AllocError);
        }
        put_last(&mut self.runs, self.alloc, n, node)?;
        self.live += 1;
        Ok(())
    }

    /// The node of a name is taken out.
    pub fn remove(&mut self, n: u64) -> Option<Record>
        ensures value { result ≡ node_at self.old n }
        ensures others { (q : ℕ) → node_at self.new q ≡ (if q == n then None else node_at self.old q) }
        ensures live { live_in self.new + (if is_some result then 1 else 0) ≡ live_in self.old }
    {
        match find(&self.runs, n) {
            None => None,
            Some(at) => {
                self.live -= 1;
                Some(take_row(&mut self.runs, at))
            }
        }
    }
}
