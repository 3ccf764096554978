//! The locals of a program: names that stand before the scope's.
ghost use Rattle.std.specs.Prelude.{◌≡◌, ◌<◌, ◌++◌, ◌∷◌, [], length, slice_set, slice_index_or, OnOk, OnErr};
ghost use Rattle.ng_base.specs.declared.value.Value.TheVariants.{Undefined};

use crate::txt::Txt;
use crate::value::Value;
use std::alloc::{AllocError, Global};
use std::marker::Model;

/// Names and their values, in order (guide: Expressions, "`$event`").
#[derive(Drop)]
pub struct Locals {
    items: Vec<(Txt, Value)>,
}

impl Model for Locals {
    ghost use Rattle.std.specs.Prelude.{ℕ, List};
    ghost use Rattle.ng_base.specs.declared.value.Value.{Value as Item};

    ghost Value = { List (List ℕ × Item) };

    ghost view = { λ l. l.items.items };
}

impl Locals {
    /// No local.
    pub fn new(alloc: Global) -> Locals
        ensures { result ≡ [] }
    {
        Locals {
            items: Vec::new(alloc),
        }
    }

    /// Adds a name with its value at the end.
    pub fn push(&mut self, name: Txt, value: Value) -> Result<(), AllocError>
        ensures ok { OnOk result (self.new ≡ self.old ++ (name, value) ∷ []) }
        ensures err { OnErr result (self.new ≡ self.old) }
    {
        self.items.push((name, value))?;
        Ok(())
    }

    /// Gives the local at a place another value.
    pub fn put(&mut self, place: usize, value: Value)
        requires { place < length self.old }
        ensures { self.new ≡ slice_set self.old place ((slice_index_or self.old place ([], Undefined)).0, value) }
    {
        self.items[place].1 = value;
    }

    /// All of them, in order.
    pub fn as_slice(&self) -> &[(Txt, Value)]
        ensures { result.now ≡ self.now }
    {
        self.items.as_slice()
    }
}
