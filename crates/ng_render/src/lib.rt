//! The rendering of an instance: the document that a template shows over the data as it stands (guide: Templates).
//!
//! `render` computes it afresh, in document order: plain words as they stand, and for each site what its expression shows now
//! over its scope, those of an element in the order of its directives and before its children; a site that rests, and that of a
//! two-way binding, shows what it has kept. No watcher and no node is asked, so a page whose watchers are all clean is checked by
//! it. The contract is `rendering` of `ng_drawing`: the document, or the fault that stands first.
//!
//! There is no document where a block has not the bodies that its expression calls for now; in a settled page each has.
//!
//! In reading order: `over` is what is asked, `snapshots` and `sites` what a site has now, `seen` what is seen of it, `texts`
//! joins pieces and sets attributes, `classes` has what a class shows, `groups` what fills an outlet, `parts` walks a fragment,
//! and `rendering` goes through the bodies of an instance and has the call. Nothing here changes data.
#![tactic(auto)]

mod classes;
mod groups;
mod over;
mod parts;
pub mod rendering;
mod seen;
mod sites;
mod snapshots;
mod texts;

pub use rendering::render;
