//! Texts with holes `{{ }}`.
//!
//! `split` gives the parts of a text: plain words and holes in turn, each hole with its program and whether it is
//! one-time (guide: Interpolation, Expressions "One-time binding"; API: `$interpolate`). A hole begins at `{{` and goes up to the next `}}`; a `{{` without a
//! later `}}` is plain. In the plain words of a text that has a hole, `\{\{` and `\}\}` read as two braces; a text
//! without a hole stays as it is written. Where a hole has no program, the refusal has its place in the text. `join`
//! puts a text together from the parts and one shown text for each hole.
//!
//! The contract that the crates above use: what `split` reads is spelled so, by the relation `AreParts`, and which
//! refusal it is and where, by the reading definition `pieces_in`. Want of memory alone is free.
//!
//! In reading order: `cutting` cuts a text at its holes, `escapes` reads backslashes, `pieces` has the types of the parts,
//! `splitting` the two calls. `cut_text` gives the cuts alone, and the law `laws::cuts_spell_text` says that they spell
//! the text. `read_part` and `read_hole` read one cut, for a reader that has read some of the holes before.
//!
//! No program is evaluated here, and no filter is looked up.
#![tactic(auto)]

pub mod cutting;
pub mod escapes;
pub mod laws;
pub mod pieces;
pub mod splitting;

pub use cutting::{Cut, Cuts, cut_text};
pub use pieces::{InterpFault, InterpKind, Part, Parts};
pub use splitting::{any_hole, join, read_hole, read_part, split};
