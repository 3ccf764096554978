//! The scopes that linkings and fires make (guide: Scopes, "Scope Hierarchies"; Directives).
ghost use Rattle.std.specs.Prelude.{◌≡◌, ◌<◌, ◌≤◌, length, None, Some, IfSome, IfOk, OnOk};
ghost use Rattle.ng_behaviour.specs.Scopes.{object_at, path_at};
ghost use Rattle.ng_changes.specs.ChildRun.{child_run};
ghost use Rattle.ng_changes.specs.FiringOf.{child_made};
ghost use Rattle.ng_changes.specs.ScopeRuns.{scope_run};
ghost use Rattle.ng_changes.specs.Whole.{IsWhole};
ghost use Rattle.ng_link.specs.Calls.{with_core};
ghost use Rattle.ng_instances.specs.Instances.{instance_path};
ghost use Rattle.ng_link.specs.FreePlace.{IsNewBelow};
ghost use Rattle.ng_link.specs.State.{state_of, templates_of};

use ng_base::fault::Memory;
use ng_base::name::ScopeId;
use ng_link::works::Works;
use ng_store::store::StoreFault;

/// A child of a scope, unless the store is full (guide: Scopes, "Scope Hierarchies"). Its path is new below that of the instance that has the scope.
pub fn make_child(works: &mut Works, scope: ScopeId) -> Result<Option<ScopeId>, Memory>
    requires whole { IsWhole works.old }
    requires scope { scope.0 < length works.old.core.scopes }
    ensures run { IfOk result (λ c. child_run scope.0 (state_of works.old).core ≡ child_made c (state_of works.new).core) }
    ensures state { state_of works.new ≡ with_core (state_of works.new).core (state_of works.old) }
    ensures within { IfOk result (λ c. IfSome c (λ s. s.0 < length works.new.core.scopes)) }
    ensures free { IfOk result (λ c. IfSome c (λ s. IsNewBelow (instance_path (state_of works.old).inner (path_at works.old.core.scopes scope.0)) (path_at works.new.core.scopes s.0) (state_of works.new))) }
    ensures count { OnOk result (length works.old.core.scopes ≤ length works.new.core.scopes) }
    ensures grown { OnOk result (length works.old.core.store ≤ length works.new.core.store) }
    ensures whole { OnOk result (IsWhole works.new) }
    ensures templates { templates_of works.new ≡ templates_of works.old }
{
    works.core.scopes.sound();
    let made = works.core.scopes.new_child(&mut works.core.store, scope);
    match made {
        Ok(child) => Ok(Some(child)),
        Err(StoreFault::Memory(memory)) => Err(memory),
        Err(StoreFault::Full) => Ok(None),
    }
}

/// A child of a scope whose object inherits from none, unless the store is full (guide: Directives, "Isolating the Scope of a Directive").
pub fn make_isolate(works: &mut Works, scope: ScopeId) -> Result<Option<ScopeId>, Memory>
    requires whole { IsWhole works.old }
    requires scope { scope.0 < length works.old.core.scopes }
    ensures run { IfOk result (λ c. scope_run scope.0 None (state_of works.old).core ≡ child_made c (state_of works.new).core) }
    ensures state { state_of works.new ≡ with_core (state_of works.new).core (state_of works.old) }
    ensures within { IfOk result (λ c. IfSome c (λ s. s.0 < length works.new.core.scopes)) }
    ensures count { OnOk result (length works.old.core.scopes ≤ length works.new.core.scopes) }
    ensures grown { OnOk result (length works.old.core.store ≤ length works.new.core.store) }
    ensures whole { OnOk result (IsWhole works.new) }
    ensures templates { templates_of works.new ≡ templates_of works.old }
{
    let made = works.core.scopes.new_isolate(&mut works.core.store, scope);
    match made {
        Ok(child) => Ok(Some(child)),
        Err(StoreFault::Memory(memory)) => Err(memory),
        Err(StoreFault::Full) => Ok(None),
    }
}

/// A child of a scope whose object inherits from that of the scope outside, unless the store is full (guide: Directives, "Creating a Directive that
/// Wraps Other Elements").
pub fn make_slot(
    works: &mut Works,
    outer: ScopeId,
    scope: ScopeId,
) -> Result<Option<ScopeId>, Memory>
    requires whole { IsWhole works.old }
    requires outer { outer.0 < length works.old.core.scopes }
    requires scope { scope.0 < length works.old.core.scopes }
    ensures run { IfOk result (λ c. scope_run scope.0 (Some (object_at works.old.core.scopes outer.0)) (state_of works.old).core ≡ child_made c (state_of works.new).core) }
    ensures state { state_of works.new ≡ with_core (state_of works.new).core (state_of works.old) }
    ensures within { IfOk result (λ c. IfSome c (λ s. s.0 < length works.new.core.scopes)) }
    ensures count { OnOk result (length works.old.core.scopes ≤ length works.new.core.scopes) }
    ensures grown { OnOk result (length works.old.core.store ≤ length works.new.core.store) }
    ensures whole { OnOk result (IsWhole works.new) }
    ensures templates { templates_of works.new ≡ templates_of works.old }
{
    let made = works
        .core
        .scopes
        .new_transcluded(&mut works.core.store, outer, scope);
    match made {
        Ok(child) => Ok(Some(child)),
        Err(StoreFault::Memory(memory)) => Err(memory),
        Err(StoreFault::Full) => Ok(None),
    }
}
