//! The kinds of snapshots.

/// What a watcher keeps of a value (guide: Scopes, "Scope `$watch` Depths").
#[derive(Clone, Copy, Debug, PartialEq, Eq)]
pub enum SnapKind {
    Reference,
    Collection,
    Deep,
}
