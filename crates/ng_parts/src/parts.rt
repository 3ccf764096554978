//! The parts of a template. `specs/Seen.antt` says which parts of the definitions they stand for.
ghost use Rattle.std.specs.Prelude.{◌≡◌, [], map, OnOk, OnErr};
ghost use Rattle.ng_drawing.specs.Template.{text_part, comment_part, element_part, anchor_part, children as children_with, bound as bound_to, no_parts, with_part, parts_from};
ghost use Rattle.ng_parse.specs.ProgramOf.{program};
ghost use Rattle.ng_parts.specs.Seen.{acts_of, part_of, contents_of, parts_of};

use crate::acts::Acts;
use crate::pieces::{Attributes, Pieces};
use ng_base::txt::Txt;
use ng_parse::Program;
use std::alloc::{AllocError, Global};

/// A part of a template: a text, a comment or an element, with the numbers of its own sites in the order of its directives, and what
/// it does; or the anchor of a block, with the number of its outlet, the numbers of its own sites, and programs that run when it is
/// linked.
#[cycle(part)]
#[derive(Drop)]
pub enum Part {
    Text(Pieces),
    Comment(Txt),
    Element {
        name: Txt,
        own: Vec<u32>,
        acts: Acts,
        attributes: Attributes,
        contents: Contents,
    },
    Anchor {
        outlet: u32,
        own: Vec<u32>,
        starts: Vec<Program>,
    },
}

/// What an element contains: its children, or the text that one of its sites shows (API: ngBind).
#[cycle(part)]
#[derive(Drop)]
pub enum Contents {
    Children(Parts),
    Bound(u32),
}

/// The parts of a template or of an element, in order.
#[cycle(part)]
#[derive(Drop)]
pub struct Parts {
    items: Vec<Part>,
}

#[tactic(auto, using(crate::proofs::PartLists::part_steps))]
impl Parts {
    /// No part.
    pub fn new(alloc: Global) -> Parts
        ensures { parts_of result ≡ no_parts }
    {
        Parts {
            items: Vec::new(alloc),
        }
    }

    /// Adds a part at the end.
    pub fn push(&mut self, part: Part) -> Result<(), AllocError>
        ensures ok { OnOk result (parts_of self.new ≡ with_part (parts_of self.old) (part_of part)) }
        ensures err { OnErr result (parts_of self.new ≡ parts_of self.old) }
    {
        if self.items.is_empty() {
            self.items.reserve_exact(1)?;
        }
        self.items.push(part)?;
        Ok(())
    }

    /// The parts in order.
    pub fn as_slice(&self) -> &[Part]
        ensures { parts_from (map part_of result.now) ≡ parts_of self.now }
    {
        self.items.as_slice()
    }
}

/// A text.
pub fn text(pieces: Pieces) -> Part
    ensures { part_of result ≡ text_part pieces }
{
    Part::Text(pieces)
}

/// A comment.
pub fn comment(text: Txt) -> Part
    ensures { part_of result ≡ comment_part text }
{
    Part::Comment(text)
}

/// An element.
pub fn element(
    name: Txt,
    own: Vec<u32>,
    acts: Acts,
    attributes: Attributes,
    contents: Contents,
) -> Part
    ensures { part_of result ≡ element_part name own.items (acts_of acts) attributes (contents_of contents) }
{
    Part::Element {
        name,
        own,
        acts,
        attributes,
        contents,
    }
}

/// An anchor that runs no program.
pub fn anchor(outlet: u32, own: Vec<u32>, starts: Vec<Program>) -> Part
    ensures { part_of result ≡ anchor_part outlet own.items (map program starts.items) }
{
    Part::Anchor {
        outlet,
        own,
        starts,
    }
}

/// Children.
pub fn children(parts: Parts) -> Contents
    ensures { contents_of result ≡ children_with (parts_of parts) }
{
    Contents::Children(parts)
}

/// The text that a site shows.
pub fn bound(n: u32) -> Contents
    ensures { contents_of result ≡ bound_to n }
{
    Contents::Bound(n)
}
