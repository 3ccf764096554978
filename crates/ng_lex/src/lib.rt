//! The lexer of the expression language: a text is a row of tokens with their places, or it has one refusal.
//!
//! `lex` reads a text from the left, the longest sign first, and stops at the first refusal: a character that begins
//! no token, a text without its end, an escape that is no character, a number that is too large, or a fraction. Each
//! refusal has its place in bytes.
//!
//! The contract that the parser and everything above it use says three things. What is read is spelled so, by the
//! relation `Written` between characters, tokens and places; what is spelled so is read; and which refusal it is, by
//! the reading definition `lexed`. Want of memory alone is free.
//!
//! A token list is what the guide's page "Expressions" of AngularJS calls the input of the parser; what is left out
//! against JavaScript (regular expressions, comments, fractions) is left out here too or refused.
//!
//! `letters` has the classes of characters. This crate builds no trees, knows no names and gives words such as
//! `true` no meaning: that is the parser's.
#![tactic(auto)]

pub mod letters;
pub mod lexing;
mod number;
mod sign;
mod text;

pub use lexing::{Tokens, lex, lex_into};
pub use ng_language::syntax::{LexFault, LexKind, Sign, Token};
