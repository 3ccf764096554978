//! What programs have left for the watchers to become is done.
ghost use Rattle.std.specs.Prelude.{◌≡◌, ◌<◌, ◌≤◌, length, map, IfOk, OnOk};
ghost use Rattle.std.specs.List.{AllByRecursion};
ghost use Rattle.ng_core.specs.Frames.{change_of, declared_of, ChangeStands};
ghost use Rattle.ng_behaviour.specs.Scopes.{path_at};
ghost use Rattle.ng_changes.specs.Changes.{kind_of, applied, applied_all, changed, without_changes, has_additions};
ghost use Rattle.ng_changes.specs.Whole.{IsWhole};
ghost use Rattle.ng_core.specs.State.{adds};
ghost use Rattle.ng_build.specs.Shape.{key_on};
ghost use Rattle.ng_link.specs.State.{state_of, templates_of};

use ng_base::fault::Memory;
use ng_base::name::{ScopeId, Serial};
use ng_base::path::Key;
use ng_core::core_state::Core;
use ng_core::pending::{DeclaredWatch, WatchChange};
use ng_instances::instances::Listener;
use ng_language::snapshots::SnapKind;
use ng_link::works::Works;
use ng_watch::watch::{Watch, WatchKind};
use std::alloc::Global;
use std::mem::replace;

/// What a declared watch keeps of its value.
fn kind_of(kind: SnapKind) -> WatchKind
    ensures { result ≡ kind_of kind }
{
    match kind {
        SnapKind::Reference => WatchKind::Reference,
        SnapKind::Collection => WatchKind::Collection,
        SnapKind::Deep => WatchKind::Deep,
    }
}

/// The key of a number on a scope.
fn key_in(core: &Core, scope: ScopeId, serial: Serial) -> Result<Key, Memory>
    requires { scope.0 < length core.now.scopes }
    ensures { IfOk result (λ k. k ≡ key_on (path_at core.now.scopes scope.0) serial.0) }
{
    let path = core.scopes.path(scope).copied()?;
    Ok(Key { path, serial })
}

/// A declared watch more.
fn add(works: &mut Works, w: DeclaredWatch) -> Result<(), Memory>
    requires whole { IsWhole works.old }
    requires scope { w.scope.0 < length works.old.core.scopes }
    ensures state { OnOk result (state_of works.new ≡ applied (adds (declared_of w)) (state_of works.old)) }
    ensures whole { OnOk result (IsWhole works.new) }
    ensures core { works.new.core ≡ works.old.core }
    ensures templates { templates_of works.new ≡ templates_of works.old }
{
    let key = key_in(&works.core, w.scope, w.serial)?;
    let watch = Watch {
        kind: kind_of(w.kind),
        program: w.program,
        one_time: false,
        scope: works.core.scopes.object(w.scope),
    };
    let listener = Listener {
        scope: w.scope,
        program: w.listener,
    };
    works.declare(key, watch, listener)
}

/// One of the changes is done.
fn apply_change(works: &mut Works, change: WatchChange) -> Result<(), Memory>
    requires whole { IsWhole works.old }
    requires scope { ChangeStands (length works.old.core.scopes) (change_of change) }
    ensures state { OnOk result (state_of works.new ≡ applied (change_of change) (state_of works.old)) }
    ensures whole { OnOk result (IsWhole works.new) }
    ensures core { works.new.core ≡ works.old.core }
    ensures templates { templates_of works.new ≡ templates_of works.old }
{
    match change {
        WatchChange::Add(w) => add(works, w),
        WatchChange::Remove(scope, serial) => {
            let key = key_in(&works.core, scope, serial)?;
            works.undeclare(&key);
            Ok(())
        }
        WatchChange::Leave(scope) => {
            let path = works.core.scopes.path(scope).copied()?;
            works.leave(&path)
        }
    }
}

/// Whether a watcher more is among changes.
fn has_additions(changes: &[WatchChange]) -> bool
    ensures { result ≡ has_additions (map change_of changes.now) }
{
    for change in changes {
        if let WatchChange::Add(_) = change {
            return true;
        }
    }
    false
}

/// Takes the changes that wait.
fn take_changes(works: &mut Works, alloc: Global) -> Vec<WatchChange>
    requires { IsWhole works.old }
    ensures taken { map change_of result.items ≡ (state_of works.old).core.changes }
    ensures stand { AllByRecursion (ChangeStands (length works.new.core.scopes)) (map change_of result.items) }
    ensures state { state_of works.new ≡ without_changes (state_of works.old) }
    ensures grown { length works.old.core.store ≤ length works.new.core.store }
    ensures whole { IsWhole works.new }
    ensures scopes { works.new.core.scopes ≡ works.old.core.scopes }
    ensures templates { templates_of works.new ≡ templates_of works.old }
{
    replace(&mut works.core.changes, Vec::new(alloc))
}

/// Changes are done, in order.
fn apply_all(works: &mut Works, changes: Vec<WatchChange>) -> Result<(), Memory>
    requires whole { IsWhole works.old }
    requires stand { AllByRecursion (ChangeStands (length works.old.core.scopes)) (map change_of changes.items) }
    ensures state { OnOk result (state_of works.new ≡ applied_all (map change_of changes.items) (state_of works.old)) }
    ensures whole { OnOk result (IsWhole works.new) }
    ensures core { OnOk result (works.new.core ≡ works.old.core) }
    ensures linked { OnOk result ((state_of works.new).instances ≡ (state_of works.old).instances) }
    ensures templates { templates_of works.new ≡ templates_of works.old }
{
    for change in changes {
        apply_change(works, change)?;
    }
    Ok(())
}

/// What waits for the watchers is done, in order. The answer is whether a watcher more was among it.
pub fn apply_changes(works: &mut Works, alloc: Global) -> Result<bool, Memory>
    requires { IsWhole works.old }
    ensures state { OnOk result (state_of works.new ≡ changed (state_of works.old)) }
    ensures added { IfOk result (λ added. added ≡ has_additions (state_of works.old).core.changes) }
    ensures grown { OnOk result (length works.old.core.store ≤ length works.new.core.store) }
    ensures whole { OnOk result (IsWhole works.new) }
    ensures scopes { OnOk result (works.new.core.scopes ≡ works.old.core.scopes) }
    ensures linked { OnOk result ((state_of works.new).instances ≡ (state_of works.old).instances) }
    ensures templates { templates_of works.new ≡ templates_of works.old }
{
    let changes = take_changes(works, alloc);
    let added = has_additions(changes.as_slice());
    apply_all(works, changes)?;
    Ok(added)
}
