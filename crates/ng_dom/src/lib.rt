//! The document of a page, as nodes by name.
//!
//! A compiled template is linked to a document that lives on: a watch that fires changes one text of it or the attributes of one
//! element, a block brings and takes nodes (guide: HTML Compiler, "How directives are compiled"). [`dom::Dom`] keeps the nodes in
//! one table by name ([`records::Records`]), and a name is never given twice. A text or comment has its text, an element its attributes in order of their
//! names and its children by name, and an anchor, which stands for a block, the groups of nodes that the block brought, one for
//! each body or row. With each node stands what it is drawn from: plain words, and for what is watched the key of its watcher.
//!
//! What the crates above use:
//!
//! - `Nodes` says what a document is: a forest whose nodes have names. `Rooms` says when the map has such a forest: a relation of
//!   local look-ups, which holds of the document (`Shows`) and of each piece that is built apart. A map has one forest at most
//!   under given names.
//! - Each call that changes something says what becomes of every forest that was there: `changed_in n g`, the forest with the node
//!   n changed by g wherever it stands. `set_text`, `set_attrs`, `set_attr` and `drop_attr` look one node up; `insert_group`,
//!   `cut_group` and `pick_groups` change the list of one anchor. None of them depends on the size of the document.
//! - A piece is built apart: `make_top` or `make_part` makes a node for a parent that does not hold it yet, `fill` gives an element
//!   its children at once, and `show` makes the piece the whole document, `insert_group` a group of an anchor, by one edit. Until
//!   then the document is read as before; the nodes of the piece are live, though. Each call costs a look-up.
//! - `remove`, `empty_group` and `discard` take nodes away for good, with all that they hold: their names are live no more, and
//!   whatever else was read is read afterwards. They cost what they take, and what the parent holds.
//! - `insert` and the other calls that make a node answer `NodeLimit` exactly where 200,000 nodes are live. After want of memory no
//!   node is live that was not before.
//! - `kids`, `at`, `path`, `forest`, `print` and `by_id` go by the document as it is printed: an anchor is an empty comment, and the
//!   nodes of its groups follow it as its siblings. `insert`, `add_part` and `move_to` count the children that a parent holds: an
//!   anchor with all its groups is one of them.
//! - `path` asks for a node that stands in the document, as one that `at` or `by_id` answers does ([`laws::places_stand`],
//!   [`laws::found_stand`]): then it wants for nothing but memory.
//! - `live` counts the live nodes at the cost of a look-up. `Holds` says that nothing stands apart: each live node is one of the
//!   document's, under a name of its own. Then the count is that of the printed document ([`laws::names_are_counted`]), and it stays
//!   so as groups come and go ([`laws::nothing_stands_apart`]).
//! - `line` is the way of an event that bubbles: a node and the elements that it stands in, from the inside out. It costs as many
//!   look-ups.
//! - `forest`, `print`, `by_id` and `path` walk the document from the top. No walk goes deeper than names were given, as a child has a
//!   later name than its parent.
//!
//! `Drawing` says what is drawn for what stands of a template, given what each key shows, and [`laws`] what carries linking and
//! firing: to write the text of a node, or the attributes of an element, is to draw all with what its key shows now, and to change
//! an anchor's groups is to change the bodies of its block. `Printed` says which node is at a path; the node without its name is
//! the one that the plain forest has there.
//!
//! Not here: what is registered for a node, which values its holes have, and when a block fires.
#![tactic(auto)]

pub mod ancestors;
pub mod asking;
pub mod dom;
pub mod edits;
pub mod fault;
pub mod finding;
pub mod laws;
pub mod nodes;
pub mod paths;
pub mod printing;
pub mod record;
pub mod records;
pub mod removal;
pub mod seeking;
