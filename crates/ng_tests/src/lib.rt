//! The few tests that only public calls can show: real files, the places of a document's nodes and of tokens, why and where a
//! text is no program, digests over sheets of numbers, and walks over chains, listeners and scopes that change on the way. Tables
//! of cases for the calls of single crates stand in ng_tables.
//!
//! What a run of the program shows is a row of data in `rows/`, which is run without a proof. The expected values were written by
//! hand, from the rules of AngularJS and JavaScript where docs/DIFFERENCES.md doesn't say otherwise.
//!
//! No crate stands on this one.
#![tactic(auto)]

#[cfg(test)]
mod chains;
#[cfg(test)]
mod digests;
#[cfg(test)]
mod documents;
#[cfg(test)]
mod listeners;
#[cfg(test)]
mod outside;
#[cfg(test)]
mod refused;
#[cfg(test)]
mod rows;
#[cfg(test)]
mod scopes;
#[cfg(test)]
mod tokens;
