//! Tables of cases for the public calls of single crates, of what no run of the program shows: locals and numbers; the bindings,
//! directives and controls of an element; places in a text; the plans of a repeat; commands of scripts, and the nodes of a document.
//!
//! The expected values were written by hand, from AngularJS's guide and API reference and from the rules of JavaScript, where
//! docs/DIFFERENCES.md doesn't say otherwise. What a run of the program shows is a row of data in `rows/`, which is run without
//! a proof.
//!
//! No crate stands on this one.
#![tactic(auto)]

#[cfg(test)]
mod bindings;
#[cfg(test)]
mod collecting;
#[cfg(test)]
mod controls;
#[cfg(test)]
mod locals;
#[cfg(test)]
mod nodes;
#[cfg(test)]
mod numbers;
#[cfg(test)]
mod parts;
#[cfg(test)]
mod plans;
#[cfg(test)]
mod rows;
#[cfg(test)]
mod scripts;
#[cfg(test)]
mod values;
