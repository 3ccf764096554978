//! Why a document is not read, and where.

pub use ng_tags::fault::{HtmlFault, HtmlKind};
