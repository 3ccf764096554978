//! The store as a list of objects that is read.
ghost use Rattle.ng_base.specs.Objects.{Object};

use crate::store::Store;
use ng_base::fault::Memory;
use ng_base::heap::{Heap, ObjKind};
use ng_base::lists::Names;
use ng_base::name::Oid;
use ng_base::txt::Txt;
use ng_base::value::Value;
use std::alloc::Global;

impl Heap for Store {
    ghost objects = { λ s. s };

    fn kind(&self, o: Oid) -> ObjKind {
        self.kind_of(o)
    }

    fn len(&self, o: Oid) -> u32 {
        self.length(o)
    }

    fn item(&self, o: Oid, i: u32) -> &Value {
        self.item_at(o, i)
    }

    fn names(&self, alloc: Global, o: Oid) -> Result<Names, Memory> {
        self.names_in(alloc, o)
    }

    fn own(&self, o: Oid, name: &Txt) -> Option<&Value> {
        self.own_value(o, name)
    }
}
