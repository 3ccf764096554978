//! A law of the parser: where it refuses a row of tokens, it does so at the first token that fits nothing.
//!
//! `parse` of `ng_parse` says which refusal it gives and where, by the definition `parsed`. That definition reads from
//! the left, so its places are what a reader does, not what the language is. The law here says the same place in the
//! words of the grammar alone. A row of tokens begins a program where some tokens behind it make it one. An unexpected
//! token, and a `=` behind what can't be assigned, is the first token that fits nothing: what stands before it begins a
//! program, and with it no row does, whatever follows. A text that ended too early begins a program and is none, and
//! the place is its end.
//!
//! The limits on tokens, brackets and height are no part of this: they have a refusal of their own, and the grammar
//! knows none of them.
//!
//! The proof has two halves. `proofs/Local`, `Readers` and `Programs` show that no reader looks at a token behind the
//! one that it refuses, and `Steady` that more room changes no answer once it is enough: so where a token is refused it
//! is refused whatever stands behind it. `Completable`, `Completed`, `Joints`, `Heads` and `Begun` give for each
//! production what completes it: a `0` where an operand is wanted, a bracket, a colon and a `0`, a name. `Refused` puts
//! both together.
//!
//! There is no code here, and nothing is built from this crate.
#![tactic(auto)]

pub mod laws;
