//! A chain: entries under rising serials, and the walks that are open on them.
ghost use Rattle.std.specs.Prelude.{◌≡◌, ◌+◌, ◌<◌, ◌++◌, ◌↔◌, [], ◌∷◌, Some, None, IsSome, length, MatchOption, MatchResult, option_and_then, option_copied, replicate};
ghost use Rattle.ng_chain.specs.Slots.{standing};
ghost use Rattle.ng_chain.specs.WalkLaw.{WalkLaw};
ghost use Rattle.ng_chain.specs.Walked.{found, value_of, serial_of, walk_at, with_walk, with_entries, without, Steps, open_walks, IsRising};

pub use super::slots::Slot;
use super::slots::{
    close_holes, free_place, hollow, is_idle, next_in, take_from, value_at, value_in,
};
use ng_base::fault::Memory;
use ng_base::name::Serial;
use std::alloc::Global;
use std::marker::Model;

/// The name of an entry, which is given once.
#[derive(Clone, Copy, Debug, PartialEq, Eq)]
pub struct Token {
    pub serial: Serial,
    pub slot: u64,
}

/// Where a walk stands, and the last serial that it comes to.
#[derive(Clone, Copy, Debug, PartialEq, Eq)]
pub struct Span {
    pub place: u64,
    pub end: u64,
}

/// An open walk, which is to be closed.
#[derive(Debug)]
pub struct Walk {
    pub slot: usize,
    ghost within: { slot < 64 },
}

/// A list that may change while it is walked.
#[derive(Drop)]
pub struct Chain<T> {
    slots: Vec<Slot<T>>,
    /// The last serial given.
    last: u64,
    /// How many entries were taken out since holes were closed last.
    holes: usize,
    walks: [Option<Span>; 64],
    /// For each open walk the first slot above its place.
    nexts: [usize; 64],
}

impl<T> Model for Chain<T> {
    ghost use Rattle.ng_chain.specs.Walked.{Walked, walked_code};
    ghost use Rattle.ng_chain.specs.Slots.{standing, serials, IsSound};

    ghost Value = { Walked T };

    ghost coded = { walked_code T.code };

    ghost view = { λ c. record { entries = standing c.slots.items; last = c.last; walks = c.walks } };

    ghost invariant = { λ c. IsSound (serials c.slots.items) c.last c.walks c.nexts };
}

impl<T> Chain<T> {
    pub fn new(alloc: Global) -> Chain<T>
        ensures { result ≡ record { entries = []; last = 0; walks = replicate 64 None } }
    {
        Chain {
            slots: Vec::new(alloc),
            last: 0,
            holes: 0,
            walks: [None; 64],
            nexts: [0; 64],
        }
    }

    /// Adds at the end, under the next serial. The error hands the value back.
    pub fn push(&mut self, v: T) -> Result<Token, (T, Memory)>
        ensures push { MatchResult result (λ t. (serial_of t ≡ self.old.last + 1) × (self.new ≡ record { entries = self.old.entries ++ (t, v) ∷ []; last = self.old.last + 1; walks = self.old.walks })) (λ e. (e.0 ≡ v) × (self.new ≡ self.old)) }
        ensures worn { (result ≡ Err (v, Memory.Worn)) ↔ (self.old.last ≡ u64.MAX) }
    {
        if self.last == u64::MAX {
            return Err((v, Memory::Worn));
        }
        let serial = self.last + 1;
        let value = Some(v);
        match self.slots.push(Slot { serial, value }) {
            Ok(()) => {
                self.last = serial;
                Ok(Token {
                    serial: Serial(serial),
                    slot: 0,
                })
            }
            Err(failed) => match failed.value.value {
                Some(v) => Err((v, Memory::Refused)),
                None => unreachable!(),
            },
        }
    }

    /// What holds of the entries of every chain: their serials rise, up to the last one given.
    #[tactic(auto, using(crate::proofs::Places::rises))]
    pub fn sound(&self)
        ensures { IsRising 0 self.now.last self.now.entries }
    {
        let _ = &self.slots;
    }

    /// The value of an entry.
    pub fn get(&self, t: &Token) -> &T
        requires stands { IsSome (value_of self.now.entries t.now) }
        ensures { value_of self.now.entries t.now ≡ Some result.now }
    {
        value_in(self.slots.as_slice(), t)
    }

    /// Its slots, from the first on: the entries that stand, and holes.
    pub fn slots(&self) -> &[Slot<T>]
        ensures { standing result.now ≡ self.now.entries }
    {
        self.slots.as_slice()
    }

    /// Begins a walk over the entries that stand now.
    pub fn walk(&mut self) -> Option<Walk>
        ensures rising { IsRising 0 self.old.last self.old.entries }
        ensures walk { MatchOption result ((open_walks self.old.walks ≡ 64) × (self.new ≡ self.old)) (λ w. (walk_at self.old.walks w.slot ≡ None) × (w.slot < length self.old.walks) × (self.new ≡ with_walk self.old w.slot (Some (record { place = 0; end = self.old.last })))) }
    {
        let slot = free_place(&self.walks)?;
        self.walks[slot] = Some(Span {
            place: 0,
            end: self.last,
        });
        self.nexts[slot] = 0;
        Some(Walk { slot })
    }

    /// Goes to the next entry that stands and was there when the walk began.
    pub fn step(&mut self, w: &mut Walk) -> Option<Serial>
        requires open { IsSome (walk_at self.old.walks w.old.slot) }
        ensures step { Steps self.old.entries (walk_at self.old.walks w.old.slot) result (walk_at self.new.walks w.old.slot) }
        ensures chain { self.new ≡ with_walk self.old w.old.slot (walk_at self.new.walks w.old.slot) }
        ensures walk { w.new ≡ w.old }
    {
        let span = match self.walks[w.slot] {
            None => unreachable!(),
            Some(span) => span,
        };
        let at = next_in(self.slots.as_slice(), self.nexts[w.slot], span)?;
        let place = self.slots[at].serial;
        let end = span.end;
        self.walks[w.slot] = Some(Span { place, end });
        self.nexts[w.slot] = at + 1;
        Some(Serial(place))
    }

    /// The entry under a walk.
    pub fn value(&self, w: &Walk) -> Option<&T>
        requires open { IsSome (walk_at self.now.walks w.now.slot) }
        ensures { option_copied result ≡ option_and_then (λ s. found self.now.entries s.place) (walk_at self.now.walks w.now.slot) }
    {
        let span = match self.walks[w.slot] {
            None => unreachable!(),
            Some(span) => span,
        };
        value_at(self.slots.as_slice(), span.place, self.nexts[w.slot])
    }

    /// How many walks are open.
    pub fn walks(&self) -> u32
        ensures { result ≡ open_walks self.now.walks }
    {
        self.walks.iter().filter(|w| w.is_some()).count() as u32
    }
}

impl<T: Drop> Chain<T> {
    /// Takes an entry out. Each walk keeps its place, and goes on behind it.
    pub fn remove(&mut self, t: Token) -> T
        requires stands { IsSome (value_of self.old.entries t) }
        ensures value { value_of self.old.entries t ≡ Some result }
        ensures chain { self.new ≡ with_entries self.old (without (serial_of t) self.old.entries) }
    {
        let value = take_from(&mut self.slots, t);
        self.holes = self.holes.saturating_add(1);
        self.close_holes();
        value
    }

    /// Takes every entry out; the open walks stay.
    pub fn clear(&mut self)
        ensures { self.new ≡ with_entries self.old [] }
    {
        hollow(&mut self.slots);
        self.holes = self.slots.len();
        self.close_holes();
    }

    /// Ends a walk.
    pub fn close(&mut self, w: Walk)
        requires open { IsSome (walk_at self.old.walks w.slot) }
        ensures { self.new ≡ with_walk self.old w.slot None }
    {
        let Walk { slot } = w;
        self.walks[slot] = None;
        self.close_holes();
    }

    /// Closes the holes where they are most of the slots, but under no open walk.
    fn close_holes(&mut self)
        ensures { self.new ≡ self.old }
    {
        if self.holes > self.slots.len() / 2 && is_idle(&self.walks) {
            close_holes(&mut self.slots);
            self.holes = 0;
        }
    }
}

/// What a walk meets, whatever changes the list between its steps.
pub fn walks_meet_what_stands<T>(_chain: &Chain<T>)
    ensures { WalkLaw T }
{}
