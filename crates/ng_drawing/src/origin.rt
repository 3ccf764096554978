//! Which fragment an instance is one of, and where the bodies in it come from.
ghost use Rattle.std.specs.Prelude.{◌≡◌, ◌++◌, ◌∷◌, [], drop, slice_get, IfOk, OnOk, OnErr};
ghost use Rattle.ng_drawing.specs.Origins.{plain_origin, inner_home, first_home, is_too_deep};

use ng_base::name::TplId;
use std::alloc::{AllocError, Global};
use std::marker::Model;

/// How many templates may be included in one another, or be those of directives in one another (API: ngInclude).
const INCLUSION_LIMIT: u32 = 64;

/// A body among those of a template: the children of an element that a directive transcludes (API: ngTransclude).
#[derive(Clone, Copy, Debug, PartialEq, Eq)]
pub struct Content {
    pub template: TplId,
    pub body: u32,
}

/// What the slots in a template are given: the children of its directive's element, if there are any; then what the slots in these are given,
/// and so on. Contracts see a list.
#[derive(Drop)]
pub struct Given {
    items: Vec<Option<Content>>,
}

impl Model for Given {
    ghost use Rattle.std.specs.Prelude.{List, Option};
    ghost use Rattle.ng_drawing.specs.declared.origin.Content.{Content};

    ghost Value = { List (Option Content) };

    ghost view = { λ g. g.items.items };
}

impl Given {
    /// No slot is given anything.
    pub fn new(alloc: Global) -> Given
        ensures { result ≡ [] }
    {
        Given {
            items: Vec::new(alloc),
        }
    }

    /// What comes after those that are there.
    pub fn push(&mut self, content: Option<Content>) -> Result<(), AllocError>
        ensures ok { OnOk result (self.new ≡ self.old ++ content ∷ []) }
        ensures err { OnErr result (self.new ≡ self.old) }
    {
        self.items.push(content)?;
        Ok(())
    }

    /// In order.
    pub fn as_slice(&self) -> &[Option<Content>]
        ensures { result.now ≡ self.now }
    {
        self.items.as_slice()
    }

    /// The same again.
    pub fn copied(&self, alloc: Global) -> Result<Given, AllocError>
        ensures { IfOk result (λ g. g ≡ self.now) }
    {
        let mut copy = Given::new(alloc);
        for content in self.items.as_slice() {
            copy.push(*content)?;
        }
        Ok(copy)
    }
}

/// A template whose fragments are linked, how many templates may still be inside one another there, and what the slots in it are given.
#[derive(Drop)]
pub struct Home {
    pub template: TplId,
    pub room: u32,
    pub given: Given,
}

/// The fragment that an instance is one of, by its number in its template, and the template that is included in it, if one is.
#[derive(Drop)]
pub struct Origin {
    pub home: Home,
    pub fragment: u32,
    pub included: Option<TplId>,
}

impl Home {
    /// That of a page's own template.
    pub fn first(alloc: Global, template: TplId) -> Home
        ensures { result ≡ first_home template }
    {
        Home {
            template,
            room: INCLUSION_LIMIT,
            given: Given::new(alloc),
        }
    }

    /// The same again.
    pub fn copied(&self, alloc: Global) -> Result<Home, AllocError>
        ensures { IfOk result (λ h. h ≡ self.now) }
    {
        Ok(Home {
            template: self.template,
            room: self.room,
            given: self.given.copied(alloc)?,
        })
    }
}

impl Origin {
    /// A fragment in which no template is included.
    pub fn plain(home: Home, fragment: u32) -> Origin
        ensures { result ≡ plain_origin home fragment }
    {
        Origin {
            home,
            fragment,
            included: None,
        }
    }

    /// The same again.
    pub fn copied(&self, alloc: Global) -> Result<Origin, AllocError>
        ensures { IfOk result (λ o. o ≡ self.now) }
    {
        Ok(Origin {
            home: self.home.copied(alloc)?,
            fragment: self.fragment,
            included: self.included,
        })
    }

    /// Where the bodies of its outlets come from. A template that is included has them.
    pub fn inner(&self, alloc: Global) -> Result<Home, AllocError>
        ensures { IfOk result (λ h. h ≡ inner_home self.now) }
    {
        match self.included {
            None => self.home.copied(alloc),
            Some(template) => Ok(Home {
                template,
                room: self.home.room.saturating_sub(1),
                given: Given::new(alloc),
            }),
        }
    }

    /// Whether a template is included where no more may be.
    pub fn is_too_deep(&self) -> bool
        ensures { result ≡ is_too_deep self.now }
    {
        self.included.is_some() && self.home.room == 0
    }
}
