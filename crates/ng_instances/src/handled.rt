//! What handles an event at a node of an instance.
ghost use Rattle.std.specs.Prelude.{◌≡◌, map, unwrap_or, IfOk};
ghost use Rattle.std.specs.BTreeMap.{is_at};
ghost use Rattle.std.specs.Map.{lookup};
ghost use Rattle.std.specs.Ordering.{nat_cmp};
ghost use Rattle.ng_parse.specs.ProgramOf.{program};
ghost use Rattle.ng_build.specs.Handlers.{for_event, programs_at, is_entered};
ghost use Rattle.ng_build.specs.HandledOf.{handled_of};

use crate::instances::Linked;
use ng_base::fault::Memory;
use ng_base::txt::Txt;
use ng_build::handling::for_event;
use ng_parse::Program;
use std::alloc::Global;

impl Linked {
    /// The programs that handle an event at a node, in order.
    pub fn handlers(&self, alloc: Global, n: u64, event: &Txt) -> Result<Vec<Program>, Memory>
        ensures { IfOk result (λ ps. map program ps.items ≡ programs_at n event.now (handled_of self.now.handlers.entries)) }
    {
        match self.handlers.get(&n) {
            None => Ok(Vec::new(alloc)),
            Some(handlers) => for_event(alloc, handlers.as_slice(), event),
        }
    }

    /// The number of the scope of an element, by its node.
    pub fn element_at(&self, n: u64) -> u32
        ensures { result ≡ unwrap_or (lookup (is_at (nat_cmp n)) self.now.elements.entries) 0 }
    {
        match self.elements.get(&n) {
            None => 0,
            Some(scope) => *scope,
        }
    }

    /// Whether a node that has a handler stands here.
    pub fn handles(&self, n: u64) -> bool
        ensures { result ≡ is_entered n (handled_of self.now.handlers.entries) }
    {
        self.handlers.contains_key(&n)
    }
}
