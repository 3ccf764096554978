//! Attributes of an element.

pub use ng_tags::attrs::{Attr, Attrs};
