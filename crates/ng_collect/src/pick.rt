//! What is picked for an element.
ghost use Rattle.std.specs.Prelude.{◌≡◌};

use crate::table::CoreDirective;
use ng_base::txt::Txt;
use ng_html::attrs::Attr;
use std::marker::Model;

/// A directive: one of the core's, an attribute whose value is interpolated, or one of the application's, by its place in the
/// order of registration.
#[derive(Clone, Copy, Debug, PartialEq, Eq)]
pub enum Directive {
    Core(CoreDirective),
    Interpolated,
    User(usize),
}

/// A directive of an element: the name that picked it, its priority, and the attribute that it stands on, where that is none
/// for the element itself.
#[derive(Drop)]
pub struct Pick {
    pub directive: Directive,
    pub name: Txt,
    pub priority: i64,
    pub attribute: Option<Attr>,
}

/// The directives of an element, in order.
#[derive(Drop)]
pub struct Picked {
    pub(crate) items: Vec<Pick>,
}

impl Model for Picked {
    ghost use Rattle.std.specs.Prelude.{List};
    ghost use Rattle.ng_collect.specs.declared.pick.Pick.{Pick};

    ghost Value = { List Pick };

    ghost view = { λ p. p.items.items };
}

impl Picked {
    /// The picked directives in order.
    pub fn as_slice(&self) -> &[Pick]
        ensures { result.now ≡ self.now }
    {
        self.items.as_slice()
    }
}
