//! Room for the values of scopes.
ghost use Rattle.std.specs.Prelude.{◌≡◌, [], IfOk};

use ng_base::value::Value;
use std::alloc::{AllocError, Global};

/// A scope has room for so many properties from the start: the three that each scope has, and those of a row of ng-repeat.
const SCOPE_ROOM: usize = 10;

/// So many scopes get their room at once. Then the values of rows stand side by side, in the order in which a digest reads them.
const ROOMS: usize = 32;

/// Room for the values of scopes that are yet to be made.
#[derive(Drop)]
pub(crate) struct Rooms {
    rooms: Vec<Vec<Value>>,
}

impl Rooms {
    /// No room yet.
    pub(crate) fn new(alloc: Global) -> Rooms {
        Rooms {
            rooms: Vec::new(alloc),
        }
    }

    /// Room for some scopes.
    fn fill(&mut self, alloc: Global) -> Result<(), AllocError> {
        for _ in 0..ROOMS {
            let room = Vec::with_capacity(alloc, SCOPE_ROOM)?;
            self.rooms.push(room)?;
        }
        Ok(())
    }

    /// Room for the values of one scope.
    pub(crate) fn take(&mut self, alloc: Global) -> Result<Vec<Value>, AllocError>
        ensures { IfOk result (λ values. values.items ≡ []) }
    {
        if self.rooms.is_empty() {
            self.fill(alloc)?;
        }
        if let Some(room) = self.rooms.pop() {
            if room.is_empty() {
                return Ok(room);
            }
        }
        Vec::with_capacity(alloc, SCOPE_ROOM)
    }
}
