//! The cases of a switch.
ghost use Rattle.std.specs.Prelude.{◌≡◌, ◌++◌, ◌∷◌, [], OnOk, OnErr};

use ng_base::txt::Txt;
use std::alloc::{AllocError, Global};
use std::marker::Model;

/// The cases of a switch in document order: the text of each, or nothing for a default.
#[derive(Drop)]
pub struct Cases {
    items: Vec<Option<Txt>>,
}

impl Model for Cases {
    ghost use Rattle.std.specs.Prelude.{ℕ, List, Option};

    ghost Value = { List (Option (List ℕ)) };

    ghost view = { λ c. c.items.items };
}

impl Cases {
    /// No case.
    pub fn new(alloc: Global) -> Cases
        ensures { result ≡ [] }
    {
        Cases {
            items: Vec::new(alloc),
        }
    }

    /// Adds a case at the end.
    pub fn push(&mut self, case: Option<Txt>) -> Result<(), AllocError>
        ensures ok { OnOk result (self.new ≡ self.old ++ case ∷ []) }
        ensures err { OnErr result (self.new ≡ self.old) }
    {
        self.items.push(case)?;
        Ok(())
    }

    /// All of them, in order.
    pub fn as_slice(&self) -> &[Option<Txt>]
        ensures { result.now ≡ self.now }
    {
        self.items.as_slice()
    }
}
