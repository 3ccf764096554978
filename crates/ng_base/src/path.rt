//! Paths of scopes and nodes, and the keys of watchers.
ghost use Rattle.std.specs.Prelude.{◌≡◌, ◌++◌, ◌∷◌, [], IfOk, OnOk, OnErr};
ghost use Rattle.ng_base.specs.Order.{path_cmp};

use crate::name::Serial;
use crate::txt::Txt;
use smallvec::SmallVec;
use std::alloc::{AllocError, Global};
use std::cmp::Ordering;
use std::marker::Model;

/// The numbers of the children on the way down from the top, which has the empty path. Paths are ordered by
/// their numbers, a prefix first. A short one stands in the value itself, so that keys are copied and compared without the heap.
#[derive(Drop)]
pub struct Path {
    numbers: SmallVec<u32, 4>,
}

impl Model for Path {
    ghost use Rattle.std.specs.Prelude.{ℕ, List};

    ghost Value = { List ℕ };

    ghost view = { λ p. p.numbers.items };
}

/// The order of two lists of numbers. Most differ in their first or second number.
#[inline]
#[tactic(auto, using(crate::proofs::Orderings::at_same, crate::proofs::Orderings::at_unequal, crate::proofs::Orderings::at_end))]
fn order_of(numbers: &[u32], others: &[u32]) -> Ordering
    ensures { result ≡ path_cmp numbers.now others.now }
{
    let both = numbers.len().min(others.len());
    for i in 0..both {
        if numbers[i] != others[i] {
            return numbers[i].cmp(&others[i]);
        }
    }
    numbers.len().cmp(&others.len())
}

impl Path {
    /// The path of the top.
    pub fn new(alloc: Global) -> Path
        ensures { result ≡ [] }
    {
        Path {
            numbers: SmallVec::new(alloc),
        }
    }

    /// Goes down to a child.
    pub fn push(&mut self, number: u32) -> Result<(), AllocError>
        ensures ok { OnOk result (self.new ≡ self.old ++ number ∷ []) }
        ensures err { OnErr result (self.new ≡ self.old) }
    {
        self.numbers.push(number)?;
        Ok(())
    }

    /// Its numbers, in order.
    pub fn as_slice(&self) -> &[u32]
        ensures { result.now ≡ self.now }
    {
        self.numbers.as_slice()
    }

    /// A copy.
    pub fn copied(&self) -> Result<Path, AllocError>
        ensures { IfOk result (λ p. p ≡ self.now) }
    {
        let numbers = SmallVec::from_slice(*self.numbers.allocator(), self.as_slice())?;
        Ok(Path { numbers })
    }
}

impl PartialEq for Path {
    ghost use Rattle.std.proofs.Common.{rules};
    ghost use Rattle.std.specs.Cmp.Rules.{comparing};
    ghost use Rattle.std.specs.Cmp.Lexicographic.{pointwise};
    ghost use Rattle.std.specs.Prelude.{◌==◌};

    ghost eq = { pointwise ◌==◌ };

    ghost laws = { Prim.search (comparing, rules) };

    fn eq(&self, other: &Path) -> bool {
        self.as_slice() == other.as_slice()
    }
}

impl Eq for Path {
    ghost use Rattle.std.proofs.Common.{rules};
    ghost use Rattle.std.specs.Cmp.Rules.{comparing};

    ghost laws = { Prim.search (comparing, rules) };
}

impl PartialOrd for Path {
    ghost use Rattle.std.specs.Cmp.{partial_order_from_agreeing_total};
    ghost use Rattle.std.specs.Ordering.{as_partial_cmp};
    ghost use Rattle.std.specs.Prelude.{refl};
    ghost use Rattle.ng_base.specs.Order.{path_cmp, path_cmp_total, path_cmp-eq};

    ghost partial_cmp = { as_partial_cmp path_cmp };

    ghost laws = { partial_order_from_agreeing_total path_cmp path_cmp_total (λ x y. refl) path_cmp-eq };

    fn partial_cmp(&self, other: &Path) -> Option<Ordering> {
        Some(self.cmp(other))
    }
}

impl Ord for Path {
    ghost use Rattle.std.proofs.Common.{rules};
    ghost use Rattle.std.specs.Cmp.Rules.{comparing};
    ghost use Rattle.ng_base.specs.Order.{path_cmp, path_cmp_total, path_cmp-eq};

    ghost cmp = { path_cmp };

    ghost total = { path_cmp_total };

    ghost matches_partial_cmp = { Prim.search (comparing, rules) };

    ghost matches_eq = { path_cmp-eq };

    fn cmp(&self, other: &Path) -> Ordering {
        order_of(self.numbers.as_slice(), other.numbers.as_slice())
    }
}

/// A watcher's key: its scope's path and its number of registration. Keys are ordered by path, then by number,
/// so that scopes are walked parents first (guide: Scopes, "Scope `$watch` Depths").
#[derive(PartialEq, Eq, PartialOrd, Ord, Drop)]
pub struct Key {
    pub path: Path,
    pub serial: Serial,
}

/// What a command is aimed at: an element by its `id`, or a node by its path.
#[derive(Drop)]
pub enum Target {
    Id(Txt),
    Path(Path),
}
