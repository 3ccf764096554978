//! Where a text with references ends.

use ng_base::txt::Txt;

/// What ends a text, before it.
#[derive(Drop)]
pub enum Until {
    /// The next tag, end tag or comment.
    Tag,
    /// The next `"`.
    Double,
    /// The next `'`.
    Single,
    /// The next character that stands in no value without quotes.
    Space,
    /// The next end tag of this name.
    EndTag(Txt),
}
