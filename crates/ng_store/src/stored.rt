//! One object as it is stored.
use crate::properties::Properties;
use ng_base::heap::ObjKind;
use ng_base::name::Oid;
use ng_base::value::Value;

/// An object: an array has items, and every other object has properties.
#[derive(Drop)]
pub(crate) struct Stored {
    pub(crate) kind: ObjKind,
    pub(crate) proto: Option<Oid>,
    pub(crate) items: Vec<Value>,
    pub(crate) properties: Properties,
}
