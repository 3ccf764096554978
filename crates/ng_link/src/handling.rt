//! What handles an event of the document at a node (API: ngClick).
ghost use Rattle.std.specs.Prelude.{◌≡◌, map, option_and_then, option_copied, IfOk};
ghost use Rattle.std.specs.Map.{lookup};
ghost use Rattle.ng_parse.specs.ProgramOf.{program};
ghost use Rattle.ng_link.specs.Events.{handlers_at, is_handling, scope_of};
ghost use Rattle.ng_instances.specs.Instances.{is_path, owner_of};
ghost use Rattle.ng_link.specs.State.{state_of};

use crate::works::Works;
use ng_base::fault::Memory;
use ng_base::name::ScopeId;
use ng_base::txt::Txt;
use ng_instances::instances::Linked;
use ng_parse::Program;

impl Works {
    /// The instance to which a node belongs: the last that doesn't begin after it.
    pub(crate) fn instance_of_node(&self, n: u64) -> Option<&Linked>
        ensures { option_copied result ≡ option_and_then (λ p. lookup (is_path p) self.now.instances.entries) (owner_of n self.now.owners.entries) }
    {
        match self.owners.range(..=n).next_back() {
            None => None,
            Some((_, path)) => self.instances.get(path),
        }
    }

    /// The programs that handle an event at a node, in the order of its directives. There is none where no such node stands.
    pub fn handlers(&self, n: u64, event: &Txt) -> Result<Vec<Program>, Memory>
        ensures { IfOk result (λ ps. map program ps.items ≡ handlers_at (state_of self.now) n event.now) }
    {
        match self.instance_of_node(n) {
            None => Ok(Vec::new(self.alloc)),
            Some(one) => one.handlers(self.alloc, n, event),
        }
    }

    /// The scope of a node: that of the instance to which it belongs, or the inner one of its element.
    pub fn scope_of(&self, n: u64) -> ScopeId
        ensures { result.0 ≡ scope_of (state_of self.now) n }
    {
        match self.instance_of_node(n) {
            None => ScopeId(0),
            Some(one) => one.scope_at(one.element_at(n)),
        }
    }

    /// Whether a node that has a handler stands.
    pub fn handles(&self, n: u64) -> bool
        ensures { result ≡ is_handling (state_of self.now) n }
    {
        match self.instance_of_node(n) {
            None => false,
            Some(one) => one.handles(n),
        }
    }
}
