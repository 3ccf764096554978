//! What a program's actions write in a store (guide: Expressions; API: `$rootScope.Scope`).
//!
//! An action assigns to names, members and items, makes what is missing along the left of an assignment, calls the
//! methods of arrays that change them, and turns fresh lists and records into objects where they arise. Each of these is
//! one call here, over values that are there already: in which order a program asks for them is `ng_act`'s.
//!
//! The crate above uses that each call leaves and answers what its definition says, want of memory apart: `Writes asked
//! store.new result`, where the definition gives the list of objects after the call and the value or the fault. A fault
//! leaves the objects as they were, but for those that the definition made before it.
//!
//! `storing` is `stored`, the value of a view; `assigning` are the assignments, `making` what is made along the
//! left of them; `changing` are the methods of arrays; `events` are those of event objects; `facts` reads the members of an
//! application's data as names of the root scope's own object; `laws` says what a reader may take from the definitions: a
//! bare name changes the locals or the scope's own object and no other, an assignment changes one object and is read back
//! there, what stood before `stored` is as it was, and what it made reads as the view.
//!
//! It is not for the tree of scopes, whose objects it sees as objects of a kind, nor for what runs programs.
#![tactic(auto)]

pub mod assigning;
pub mod changing;
pub mod events;
pub mod facts;
pub mod laws;
pub mod making;
mod parts;
pub mod storing;
