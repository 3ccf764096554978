//! Texts and values of attributes, cut at their holes (guide: Interpolation).
ghost use Rattle.std.specs.Prelude.{◌≡◌, ◌++◌, ◌∷◌, [], map, OnOk, OnErr, IfOk};
ghost use Rattle.ng_drawing.specs.Template.{word};
ghost use Rattle.ng_parts.specs.PieceOf.{piece_of};
ghost use Rattle.ng_parts.specs.AttributeOf.{value_of, attribute_of};

use crate::classes::ClassValue;
use ng_base::txt::Txt;
use std::alloc::{AllocError, Global};
use std::marker::Model;

/// Plain words, or the hole of a site by its number.
#[derive(Drop)]
pub enum Piece {
    Word(Txt),
    Hole(u32),
}

impl Piece {
    /// The same piece again. Its words are shared.
    fn copied(&self) -> Result<Piece, AllocError>
        ensures { IfOk result (λ p. piece_of p ≡ piece_of self.now) }
    {
        match self {
            Piece::Word(word) => Ok(Piece::Word(word.copied()?)),
            Piece::Hole(n) => Ok(Piece::Hole(*n)),
        }
    }
}

/// The pieces of a text, in order.
#[derive(Drop)]
pub struct Pieces {
    items: Vec<Piece>,
}

impl Model for Pieces {
    ghost use Rattle.std.specs.Prelude.{List, map};
    ghost use Rattle.ng_drawing.specs.Template.{Piece};
    ghost use Rattle.ng_parts.specs.PieceOf.{piece_of};

    ghost Value = { List Piece };

    ghost view = { λ p. map piece_of p.items.items };
}

impl Pieces {
    /// No piece.
    pub fn new(alloc: Global) -> Pieces
        ensures { result ≡ [] }
    {
        Pieces {
            items: Vec::new(alloc),
        }
    }

    /// Plain words alone.
    pub fn word(alloc: Global, text: Txt) -> Result<Pieces, AllocError>
        ensures { IfOk result (λ p. p ≡ word text ∷ []) }
    {
        let mut pieces = Pieces::new(alloc);
        pieces.push(Piece::Word(text))?;
        Ok(pieces)
    }

    /// The same pieces again. Their words are shared.
    pub fn copied(&self, alloc: Global) -> Result<Pieces, AllocError>
        ensures { IfOk result (λ p. p ≡ self.now) }
    {
        let mut pieces = Pieces::new(alloc);
        for piece in self.items.as_slice() {
            pieces.push(piece.copied()?)?;
        }
        Ok(pieces)
    }

    /// Adds a piece at the end.
    pub fn push(&mut self, piece: Piece) -> Result<(), AllocError>
        ensures ok { OnOk result (self.new ≡ self.old ++ piece_of piece ∷ []) }
        ensures err { OnErr result (self.new ≡ self.old) }
    {
        self.items.push(piece)?;
        Ok(())
    }

    /// The pieces in order.
    pub fn as_slice(&self) -> &[Piece]
        ensures { map piece_of result.now ≡ self.now }
    {
        self.items.as_slice()
    }
}

/// What an attribute gets: the text of pieces; that text, where it is not empty; a word, where the value of a site is true; or the
/// words of a class.
#[derive(Drop)]
pub enum AttributeValue {
    Always(Pieces),
    UnlessEmpty(Pieces),
    Flag(Txt, u32),
    Classes(ClassValue),
}

/// The name of an attribute, with what it gets.
#[derive(Drop)]
pub struct Attribute {
    pub name: Txt,
    pub value: AttributeValue,
}

/// The attributes of an element, in the order in which they are set. Of two of one name the later one stands.
#[derive(Drop)]
pub struct Attributes {
    items: Vec<Attribute>,
}

impl Model for Attributes {
    ghost use Rattle.std.specs.Prelude.{map};
    ghost use Rattle.ng_drawing.specs.Template.{PartAttributes};
    ghost use Rattle.ng_parts.specs.AttributeOf.{attribute_of};

    ghost Value = { PartAttributes };

    ghost view = { λ a. map attribute_of a.items.items };
}

impl Attributes {
    /// No attribute.
    pub fn new(alloc: Global) -> Attributes
        ensures { result ≡ [] }
    {
        Attributes {
            items: Vec::new(alloc),
        }
    }

    /// Adds an attribute at the end.
    pub fn push(&mut self, name: Txt, value: AttributeValue) -> Result<(), AllocError>
        ensures ok { OnOk result (self.new ≡ self.old ++ (name, value_of value) ∷ []) }
        ensures err { OnErr result (self.new ≡ self.old) }
    {
        self.items.push(Attribute { name, value })?;
        Ok(())
    }

    /// The attributes in order.
    pub fn as_slice(&self) -> &[Attribute]
        ensures { map attribute_of result.now ≡ self.now }
    {
        self.items.as_slice()
    }
}
