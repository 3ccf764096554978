//! Lists that change while they are walked.
//!
//! A listener may take itself out, or add another, while the listeners of its event are run. AngularJS keeps an array
//! with `null` in the place of a removed listener, and closes the gaps while it walks (Developer Guide, "Scopes",
//! "Scope Events Propagation"). A [`chain::Chain`] is that list with a contract: each entry has a serial that is never
//! given again, and each open walk has a place and an end, both of them serials.
//!
//! What the crates above use:
//!
//! - a walk goes to the least serial that stands above its place and not above its end, so an entry that was removed is
//!   not met, the one behind it is, and one that was added is not met in this walk;
//! - `push` adds above all serials ever given, `remove` takes one entry out and leaves each walk its place, and nothing
//!   else is changed by either; up to 64 walks are open at once, of one list, in any order;
//! - no call but `push` asks for memory;
//! - [`chain::walks_meet_what_stands`]: whatever is done between its steps, a walk meets exactly those of the entries that
//!   stood at its beginning which still stand at their turn, once and in order.
//!
//! Inside is a vector in rising serials. A removed entry leaves a hole, and holes are closed together, when they are most
//! of the vector and no walk is open.
//!
//! Not here: who listens to what (`ng_events`), and what a listener does (`ng_act`).
#![tactic(auto)]

pub mod chain;
mod slots;
