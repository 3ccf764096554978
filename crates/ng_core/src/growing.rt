//! The scopes that a page adds to a core.
ghost use Rattle.std.specs.Prelude.{◌≡◌, ◌<◌, Some, None, length, IfOk, OnOk, OnErr};
ghost use Rattle.ng_base.specs.Meets.{Meets};
ghost use Rattle.ng_store.specs.Answers.{is_want};
ghost use Rattle.ng_behaviour.specs.Scopes.{with_child, object_at};
ghost use Rattle.ng_behaviour.specs.ScopeObjects.{with_scope_object};
ghost use Rattle.ng_scopes.specs.Answers.{next_scope_name};
ghost use Rattle.ng_core.specs.Frames.{state_of, held, IsSound};
ghost use Rattle.ng_core.specs.State.{with_objects, with_scopes};

use crate::core_state::Core;
use ng_base::name::ScopeId;
use ng_store::StoreFault;

impl Core {
    /// A child of a scope: its object inherits from the parent's (guide: Scopes, "Scope Hierarchies").
    pub fn new_child(&mut self, parent: ScopeId) -> Result<ScopeId, StoreFault>
        requires sound { IsSound self.old }
        requires parent { parent.0 < length self.old.scopes }
        ensures answer { Meets is_want (next_scope_name self.old.scopes parent.0 self.old.store) result }
        ensures scopes { OnOk result (self.new.scopes ≡ with_child self.old.scopes parent.0 (length self.old.store)) }
        ensures store { OnOk result (self.new.store ≡ with_scope_object self.old.store self.old.scopes (Some (object_at self.old.scopes parent.0)) parent.0) }
        ensures sound { OnOk result (IsSound self.new) }
        ensures kept { OnErr result (self.new.scopes ≡ self.old.scopes) }
        ensures others { state_of self.new ≡ with_scopes self.new.scopes (with_objects self.new.store (state_of self.old)) }
        ensures held { held self.new ≡ held self.old }
        ensures depth { self.new.depth ≡ self.old.depth }
    {
        self.scopes.new_child(&mut self.store, parent)
    }

    /// A child of a scope whose object inherits from none (guide: Directives, "Isolating the Scope of a Directive").
    pub fn new_isolate(&mut self, parent: ScopeId) -> Result<ScopeId, StoreFault>
        requires sound { IsSound self.old }
        requires parent { parent.0 < length self.old.scopes }
        ensures answer { Meets is_want (next_scope_name self.old.scopes parent.0 self.old.store) result }
        ensures scopes { OnOk result (self.new.scopes ≡ with_child self.old.scopes parent.0 (length self.old.store)) }
        ensures store { OnOk result (self.new.store ≡ with_scope_object self.old.store self.old.scopes None parent.0) }
        ensures sound { OnOk result (IsSound self.new) }
        ensures kept { OnErr result (self.new.scopes ≡ self.old.scopes) }
        ensures others { state_of self.new ≡ with_scopes self.new.scopes (with_objects self.new.store (state_of self.old)) }
        ensures held { held self.new ≡ held self.old }
        ensures depth { self.new.depth ≡ self.old.depth }
    {
        self.scopes.new_isolate(&mut self.store, parent)
    }

    /// A child of the containing scope whose object inherits from the outer scope's
    /// (guide: Directives, "Creating a Directive that Wraps Other Elements").
    pub fn new_transcluded(
        &mut self,
        outer: ScopeId,
        containing: ScopeId,
    ) -> Result<ScopeId, StoreFault>
        requires sound { IsSound self.old }
        requires outer { outer.0 < length self.old.scopes }
        requires containing { containing.0 < length self.old.scopes }
        ensures answer { Meets is_want (next_scope_name self.old.scopes containing.0 self.old.store) result }
        ensures scopes { OnOk result (self.new.scopes ≡ with_child self.old.scopes containing.0 (length self.old.store)) }
        ensures store { OnOk result (self.new.store ≡ with_scope_object self.old.store self.old.scopes (Some (object_at self.old.scopes outer.0)) containing.0) }
        ensures sound { OnOk result (IsSound self.new) }
        ensures kept { OnErr result (self.new.scopes ≡ self.old.scopes) }
        ensures others { state_of self.new ≡ with_scopes self.new.scopes (with_objects self.new.store (state_of self.old)) }
        ensures held { held self.new ≡ held self.old }
        ensures depth { self.new.depth ≡ self.old.depth }
    {
        self.scopes
            .new_transcluded(&mut self.store, outer, containing)
    }
}
