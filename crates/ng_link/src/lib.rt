//! Linking: a template becomes part of a page (guide: HTML Compiler, "How directives are compiled").
//!
//! [`works::Works`] holds what a page works with: the core, the templates, the document, the watchers, what sites kept that rest, the
//! states of controls, the listeners of declared watches, and the instances that stand. These are known by the paths of their scopes: the
//! page's at the top, and each body of a block in an outlet of another, at whose anchor its nodes stand. Contracts see a state, by the
//! definition in `specs/State.antt`, and each call is one change of it, in `specs/Calls.antt`. Nodes stand by name and watchers by key,
//! an instance knows the node of each of its sites, and a fire is one look-up and one edit of one node.
//!
//! - `link_order` tells in which order a fragment's nodes are made, its programs run and its sites get their numbers of registration,
//!   which is read off for whether its nodes find room. ng_steps does the steps.
//! - `place` puts a fragment's sites among the watchers, all of them unset, under the numbers that they got, makes its nodes and notes
//!   its instance. Nodes are made apart, with what each is drawn from, and are shown by one call at the end: at the top, or after the
//!   bodies of an outlet.
//! - `site_here` tells what stands under a key: a site's node, and what its fire writes or the outlets that it fills, with the bodies that stand
//!   there. ng_rows says which of them are to stand.
//! - `unlink` takes a body out of its outlet, with those in it: their nodes, their instances, and what their sites had kept at rest.
//! - `keep` has the watcher of a key keep a snapshot, a control drops what was typed where that is not its model any more, and the node
//!   that the key's site is drawn in, which is handed in, is drawn anew: a text joined from what all its holes show, or the attributes of an element. `unset`
//!   has it forget what it kept.
//! - `handlers` gives the programs that handle an event of the document at a node. They stand in a table by the names of nodes, one for
//!   each instance; the names of an instance's nodes follow one another, so that the instance of a node is the last that doesn't begin
//!   after it.
//! - `control_at` gives the control that a node is; `take_text`, `take_check` and `touch` change its state, which stands under the key of the
//!   site that watches its model, and its node is drawn anew.
//! - `declare` and `undeclare` are for the watches that programs declare, which are drawn nowhere.
//! - A site rests where its scope has died (`leave`) or its one-time binding has ended (`end_over`): it has no watcher any more,
//!   and goes on showing what it had kept.
//! - `instance` reads the page's instance off the tables, with the bodies in it.
//!
//! What stands of instances, their nodes and keys without any value, exists in the definitions alone. `Standing` of `specs/Standing.antt`
//! is the relation between works and what stands: the document shows it with what its sites have kept and has no other node, it is known
//! what each node is drawn from and in which node each site is, and each instance but the page's is a body that another holds. Each call
//! says that what stood stands. `ng_build/specs/Linking.antt` has the order of linking, `ng_build/specs/Shape.antt` what stands of a
//! fragment, `ng_instances/specs/Instances.antt` what stands of several, `ng_instances/specs/Rows.antt` the watchers of sites, and
//! [`laws`] what it comes to: the document of a page that stands is the drawing of its instance with what that has kept.
//!
//! In reading order: `works`; `handling`, `controls`, `filling` and `declaring` are calls on what stands, `linking` places a fragment;
//! `unlinking` takes a body out, `arranging` puts bodies in their order; `looks` says what is seen of a site, `firing` draws a node anew,
//! `resting`; `instance`; `laws`. What is made of parts alone is ng_build's, and what an instance is ng_instances'.
//!
//! Not here: when a watcher fires, what its snapshot is, and what programs do.
#![tactic(auto)]

pub mod arranging;
pub mod controls;
mod declaring;
pub mod filling;
mod firing;
mod handling;
pub mod instance;
pub mod laws;
pub mod linking;
mod looks;
mod resting;
pub mod unlinking;
pub mod works;
