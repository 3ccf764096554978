//! What stands of a fragment that is linked, and the tables of that (guide: HTML Compiler; Scopes, "Scope Hierarchies").
//!
//! An instance is known by the path of its scope. It keeps under the number of each site the node that it is drawn in, its handlers,
//! controls and bindings, its inner scopes, and its outlets with the bodies that stand there (`specs/Instances.antt`). A path finds its
//! instance, and a key the node and the scope of its site. The steps of a linking come to what is registered (`specs/Registering.antt`),
//! and of that an instance is laid out: keys, marks, rows of watchers.
//!
//! Each function of the code has its definition as its contract.
//!
//! In reading order: `instances` has the types; `placing` the places and watchers of sites, `outlets` the outlets of an instance, `filling`
//! says which of them a site fills, `sites` what stands under a key, `handled` what handles an event; `declaring` tells whether a key is drawn;
//! `registering` is what linking has registered, and `linking` lays an instance out.
//!
//! The works that hold all this, with the document and the watchers, are ng_link's.
#![tactic(auto)]

pub mod declaring;
pub mod filling;
pub mod handled;
pub mod instances;
pub mod linking;
pub mod outlets;
pub mod placing;
pub mod registering;
pub mod sites;
