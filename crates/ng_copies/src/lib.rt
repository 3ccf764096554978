//! Parts copied under other numbers.
//!
//! `later` and `including` make, of an element that includes a template, the fragment with the template's parts in it: they are the
//! element's children, their sites come after the element's, and the outlets are theirs (ng_drawing, `specs/Included.antt`). `moving`
//! copies what has numbers of sites in it with the numbers that these get where parts are composed (`specs/Moved.antt` there):
//! ng_compose gives them.
//!
//! Each function of the code has its definition as its contract, and a fragment that is made so is numbered in document order
//! as those were that it is made of (`proofs/Inclusion.antt`).
//!
//! In reading order: `later`, `including`, `moving`.
#![tactic(auto)]

pub mod including;
pub mod later;
pub mod moving;

pub use including::Whole;
