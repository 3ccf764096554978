//! What a template is (guide: HTML Compiler): parts, sites and outlets.
//!
//! A fragment is a tree of parts whose texts and attributes are cut at their holes, its sites, the watched expressions by number in
//! document order, those of an element in the order of its directives and before its children's, and its outlets, the places that
//! bodies fill. A template has its own fragment, and those of its blocks' bodies. `specs/Seen.antt`, `FragmentOf.antt` and
//! `TemplateOf.antt` say which templates of ng_drawing's definitions they stand for; `Numbering.antt` there says what it is for the
//! parts of a fragment to have the numbers of its sites and outlets in document order, and for an element to be drawn from its own
//! sites alone. That holds of each template: it stands in `Tpl` itself.
//!
//! In reading order: `pieces` and `classes` are texts and attributes cut at their holes, `acts` is what an element does, `parts` the tree;
//! `site` is what is watched, `track` and `repeated` what a repeat says, `outlets` what fills an anchor; `fragment` and `tpl` put these
//! together. `programs` has the programs of a directive of the application: functions, watches and listeners.
//!
//! Nothing is read here, and nothing is compiled: ng_template makes templates of documents, and ng_compose keeps them and composes
//! what is linked.
#![tactic(auto)]

pub mod acts;
pub mod classes;
pub mod fragment;
pub mod outlets;
pub mod parts;
pub mod pieces;
pub mod programs;
pub mod repeated;
pub mod site;
pub mod tpl;
pub mod track;

pub use acts::{Acts, Binding, Handler, Modelled, Outside, Scopes, Source, Uses};
pub use classes::{ClassValue, Hiding};
pub use fragment::{Fragment, OutletScope, SiteScopes};
pub use outlets::{Filling, Outlet};
pub use parts::{Contents, Part, Parts};
pub use pieces::{Attribute, AttributeValue, Attributes, Piece, Pieces};
pub use repeated::Repeated;
pub use site::Site;
pub use tpl::Tpl;
pub use track::Track;
