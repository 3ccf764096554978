//! What a snapshot or a text unfolds of a value.

/// What is asked of a value: a snapshot of a kind, or what a text shows.
#[derive(Clone, Copy, Debug, PartialEq, Eq)]
pub enum Mode {
    /// A reference snapshot: fresh lists and records alone are unfolded.
    Reference,
    /// A collection snapshot: the items or names one level down.
    Collection,
    /// A deep snapshot: all but scopes.
    Deep,
    /// A text: the items of arrays.
    Text,
    /// A JSON text: all but scopes.
    Json,
    /// Class words: the parts of arrays, and the names of objects with their values.
    Words,
    /// A value that is only true or false.
    Flat,
}

/// What stands one level below a value.
#[derive(Clone, Copy, Debug, PartialEq, Eq)]
pub enum Below {
    Nothing,
    Items,
    Names,
}
