//! Laws above the definitions of a run and a page, in the words of their subjects.
//!
//! - `sessions`: the files of a run have a session. `run` of `ng_run` says that what a run writes is the session of its files, a
//!   relation over the plain digest, and `session_is_one` of that crate that there is at most one. The law here says that there
//!   is one: whatever the bytes of the files are, the session refuses one of them, or the page opens, and each plain digest, where
//!   one is due, comes to an end. `proofs/Ends` shows that of any world whose keys stand in order whatever is done to it: a test
//!   leaves the live keys, so that each step of a walk has one key less ahead; fires and tasks are limited, and the eleventh
//!   dirty round is the last. `proofs/Ordered` shows of a page that its keys stand in order.
//! - `cloak`: `ng-cloak` leaves no trace in a class. Each class is words, each after its white space, and what stays is
//!   the same without the words `ng-cloak`; so a class without that word stays as it is.
//! - `holes`: each text is words and holes in turn, and is cut into them. Words go up to the first `{{`, a hole up to the
//!   first `}}` after it, and at the end stand words in which there is no `{{`, or no `}}` after the first one.
//! - `names`: which directive a name picks. One `x` or `data` with its joiner goes, then the joiners at the front; each
//!   word after the first begins with a capital, and of joiners at the end the last one stays. A name of joiners alone
//!   picks none.
//! - `rows`: a repeat keeps its rows. Whatever a fire of it makes, ends and faults with, a row whose track key is called for stays
//!   linked as it is, with its scope, its nodes and the bodies in it.
//! - `bindings`: once no watcher of a page is dirty both sides of a two-way binding are the same value; and what a directive transcludes reads the
//!   names of the scope outside, and none of the isolate scope.
//!
//! There is no code here, and nothing is built from this crate.
#![tactic(auto)]

pub mod bindings;
pub mod cloak;
pub mod holes;
pub mod names;
pub mod rows;
pub mod sessions;
