//! What a document is made of, from the left: tags, texts and comments.

use crate::attrs::Attrs;
use crate::fault::HtmlFault;
use ng_base::txt::Txt;

/// A start tag as far as it was read. What is wrong inside of it stands in `fault`, and then no more is said of it.
#[derive(Drop)]
pub struct Tag {
    pub name: Txt,
    pub attrs: Attrs,
    pub place: u64,
    /// Whether it ends in `/>`.
    pub closed: bool,
    pub fault: Option<HtmlFault>,
}

/// A piece of a document, and the place where it begins.
#[derive(Drop)]
pub enum Event {
    Start(Tag),
    /// An element of text alone, with its whole content, up to and with its end tag. Its tag has no fault.
    Raw {
        tag: Tag,
        text: Txt,
        text_place: u64,
    },
    End {
        name: Txt,
        place: u64,
    },
    Text {
        text: Txt,
        place: u64,
    },
    Comment {
        text: Txt,
        place: u64,
    },
}
