//! What a class is made of (API: ngClass, ngShow, ngHide).
use crate::pieces::Pieces;

/// An element is hidden while the value of a site is true, or while it is not.
#[derive(Drop)]
pub enum Hiding {
    WhileTrue(u32),
    WhileFalse(u32),
}

/// What a class is made of: whether the template has one, what is written there, the sites whose words it gets, and those that hide
/// the element.
#[derive(Drop)]
pub struct ClassValue {
    pub written: bool,
    pub pieces: Pieces,
    pub words: Vec<u32>,
    pub hidings: Vec<Hiding>,
}
