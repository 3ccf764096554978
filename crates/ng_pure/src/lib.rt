//! A law above evaluation and actions: running a pure program is evaluating it.
//!
//! A hole and a watch evaluate a program (`ng_view`), a click or a listener runs one (`ng_act`). Evaluation gives views: a fresh list
//! or record is a value in itself, and no object is made. A run makes an object for each of them where it arises, so `[a].slice(0)`
//! makes two. The law says that for pure programs this is all the difference. A run gives a value that shows the view of
//! evaluation: the same value where nothing fresh is in it, else an array or a plain object that was made on the way, with items
//! and named values that show those of the view. Or it gives the same fault. The objects that stood stay as they were, those that
//! were made stand after them, and scopes, listeners, locals and all that waits for the digest are untouched. A run alone may
//! find no room for an object, where a million stand.
//!
//! In two cases run and evaluation differ, and the law leaves them out. A method's name that stands for a function, as `a.slice()`
//! on an object with a function under `slice`, is ImpureCall to evaluation, and the run calls the function. And in a pattern of the
//! filter `filter` each item of a list is asked for under its place, however long the list, while the places of an array are indices,
//! of which there are 4,294,967,295: so a list in a pattern is to have fewer than 4,294,967,296 items. No store has an array of more,
//! and a program is out of memory before it makes one, but the definitions of evaluation and of a run know no such bound.
//!
//! `specs/Showing.antt` says when a value shows a view, `specs/Pure.antt` has the law, `specs/Patterns.antt` the bound on patterns.
//! The proof goes by operation: `proofs/Texts`, `Members`, `Operators`, `Methods`, `Filters`, `Orders`, `Matching` and `Json` show that
//! each asks no more of a value than of the view that it shows. Equality could ask more (`proofs/Equal`), but a fresh list equals
//! nothing, and an object that was made equals no value that was there before it. `KeyOrder` and `ListOrder` show that an object
//! that was made has its values in the order of keys of the record or the list. JSON unfolds a record in its own order and an object
//! in that of keys, and `Costs` shows that both spend as much. `Storing` makes the objects, `Running` puts steps in a row, and
//! `Trees` goes over programs.
//!
//! There is no code here, and nothing is built from this crate.
#![tactic(auto)]

pub mod laws;
