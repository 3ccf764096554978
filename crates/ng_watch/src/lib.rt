//! The watchers of a page (guide: Scopes, "Scope `$watch` Depths"; API: `$watch`, `$watchCollection`).
//!
//! A watcher is a program over a scope, with what it last kept of the program's value. In a digest each is tested: it
//! is dirty where it has kept nothing yet, or where what it would keep now differs from what it kept. What it keeps
//! goes by its kind: the value itself, a collection's items, the whole of a value, the text that a hole shows, class
//! words, or the side of a two-way binding that was changed.
//!
//! [`watchers::Watchers`] is seen by contracts as a list of keys and watchers in key order: by the path of the scope,
//! parents first, and then by number of registration. The digest finds its way by `walk`, which needs no watcher at the
//! key where it stands, so that watchers may come and go between its walks.
//!
//! What the crate above uses:
//!
//! - `walk` goes over clean watchers by reference, and comes to the first that isn't clean, with what its test found;
//! - `test` is the verdict of one watcher by the definition in specs/Verdicts.antt, and changes nothing. Where text,
//!   number, truth value or nothing is compared with its like, no text is copied and nothing is allocated. A verdict
//!   of dirty hands on the snapshot that it was found by, so that no program is evaluated twice;
//! - `keep` writes that snapshot, and hands the former one back; `unset` forgets it;
//! - each other call is the one change of the list that its name says.
//!
//! In reading order: `watch` has the types, `watchers` the list, `testing` and `bindings` the verdict, and `laws` what a
//! reader may take from the definitions. Below `watchers`: `table` keeps its rows, in chunks of neighbours (`chunk`), in
//! which `places` finds a key, `walking` goes from row to row and `edits` changes one.
//!
//! Not here: what a listener does (`ng_link`), the rounds of a digest (`ng_digest`), and which watcher a page needs.
#![tactic(auto)]

mod bindings;
mod chunk;
mod edits;
mod ended;
pub mod laws;
mod paths;
mod places;
mod table;
mod testing;
pub mod walking;
pub mod watch;
pub mod watched;
pub mod watchers;
