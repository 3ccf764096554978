//! Attributes of an element.
ghost use Rattle.std.specs.Prelude.{◌≡◌, ◌++◌, ◌∷◌, [], map, OnOk, OnErr, length};
ghost use Rattle.ng_tags.specs.Attrs.{attr_of};

use ng_base::txt::Txt;
use std::alloc::{AllocError, Global};
use std::marker::Model;

/// An attribute.
#[derive(Drop)]
pub struct Attr {
    pub name: Txt,
    pub value: Txt,
}

/// Attributes in order of their names.
#[derive(Drop)]
pub struct Attrs {
    items: Vec<Attr>,
}

impl Model for Attrs {
    ghost use Rattle.std.specs.Prelude.{ℕ, List, map};
    ghost use Rattle.ng_tags.specs.Attrs.{attr_of};

    ghost Value = { List (List ℕ × List ℕ) };

    ghost view = { λ a. map attr_of a.items.items };
}

impl Attrs {
    /// No attribute.
    pub fn new(alloc: Global) -> Attrs
        ensures { result ≡ [] }
    {
        Attrs {
            items: Vec::new(alloc),
        }
    }

    /// Adds an attribute at the end.
    pub fn push(&mut self, name: Txt, value: Txt) -> Result<(), AllocError>
        ensures ok { OnOk result (self.new ≡ self.old ++ (name, value) ∷ []) }
        ensures err { OnErr result (self.new ≡ self.old) }
    {
        self.items.push(Attr { name, value })?;
        Ok(())
    }

    /// The attributes in order.
    pub fn as_slice(&self) -> &[Attr]
        ensures { map attr_of result.now ≡ self.now }
    {
        self.items.as_slice()
    }
}
