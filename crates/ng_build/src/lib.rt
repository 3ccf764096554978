//! What is made of a fragment's parts alone, before anything of it stands (guide: HTML Compiler, "How directives are compiled").
//!
//! A fragment's nodes are made apart: each with what it is drawn from, by the keys of its sites, all of them unset. The order of
//! linking is read off the parts: programs, scopes, bindings and sites, each a step (`specs/Linking.antt`). So are the tables
//! that an instance has by the names of its nodes: which handlers a node has, which control it is, on which scope it stands, and at
//! which node an anchor is. `specs/Shape.antt` says what stands of a fragment that is built.
//!
//! Each function of the code has its definition as its contract.
//!
//! In reading order: `copying` copies pieces with the keys of their holes, `attributes` sets those of an element, `building` makes nodes;
//! `ordering` has the order of linking; `handling`, `controlled` and `controls`, `anchors` have the tables by nodes; `forgetting` takes
//! keys out of tables.
//!
//! It knows no instance and no watcher: ng_instances has them.
#![tactic(auto)]

pub mod anchors;
pub mod attributes;
pub mod building;
pub mod controlled;
pub mod controls;
pub mod copying;
pub mod forgetting;
pub mod handling;
pub mod ordering;
