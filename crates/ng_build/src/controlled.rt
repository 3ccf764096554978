//! A control at a node.

use ng_base::path::Key;
use ng_control::ControlKind;
use ng_parse::Program;

/// A control at a node: the key of the site that watches its model, its kind, the program that writes what was put in to the model, and
/// those that run after that.
#[derive(Drop)]
pub struct ControlHere {
    pub key: Key,
    pub kind: ControlKind,
    pub writes: Program,
    pub changes: Vec<Program>,
}
