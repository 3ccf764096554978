//! What is read: a forest and its places.

use crate::forest::Forest;
use ng_base::lists::Places;

/// A forest, and the place of each node in the order of the document.
#[derive(Drop)]
pub struct Source {
    pub forest: Forest,
    pub places: Places,
}
