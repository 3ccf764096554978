//! What the death of a scope takes with it, and the scopes round one.
ghost use Rattle.std.specs.Prelude.{◌≡◌, ◌<◌, ◌≤◌, length, option_map, IfSome, OnOk};
ghost use Rattle.ng_core.specs.Burying.{hushes, hushed, deadened, buried, many};
ghost use Rattle.ng_core.specs.Frames.{state_of, held, IsSound};
ghost use Rattle.ng_core.specs.State.{with_change, leaves};
ghost use Rattle.ng_behaviour.specs.Scopes.{next_scope, parent_at, path_at};

use crate::core_state::Core;
use crate::pending::WatchChange;
use ng_base::fault::Memory;
use ng_base::name::ScopeId;

/// The scope whose child it is.
pub fn parent_of(core: &Core, scope: ScopeId) -> Option<ScopeId>
    requires sound { IsSound core.now }
    requires scope { scope.0 < length core.now.scopes }
    ensures parent { option_map (λ s. s.0) result ≡ parent_at core.now.scopes scope.0 }
    ensures within { IfSome result (λ s. s.0 < length core.now.scopes) }
{
    core.scopes.parent(scope)
}

/// The live scope of the least path after one's that is a scope or below it.
pub fn next_below(core: &Core, last: ScopeId, top: ScopeId) -> Option<ScopeId>
    requires last { last.0 < length core.now.scopes }
    requires top { top.0 < length core.now.scopes }
    ensures next { option_map (λ s. s.0) result ≡ next_scope core.now.scopes (path_at core.now.scopes last.0) (path_at core.now.scopes top.0) }
    ensures within { IfSome result (λ s. s.0 < length core.now.scopes) }
{
    core.scopes
        .next_after(core.scopes.path(last), core.scopes.path(top))
}

/// The listeners of a scope are taken out.
fn hush_one(core: &mut Core, scope: ScopeId)
    requires sound { IsSound core.old }
    ensures run { state_of core.new ≡ hushed scope.0 (state_of core.old) }
    ensures sound { IsSound core.new }
    ensures held { held core.new ≡ held core.old }
    ensures depth { core.new.depth ≡ core.old.depth }
    ensures scopes { core.new.scopes ≡ core.old.scopes }
    ensures store { core.new.store ≡ core.old.store }
{
    core.listeners.drop_scope(scope);
}

/// The listeners of a scope and of the live ones below it are taken out.
fn hush(core: &mut Core, top: ScopeId)
    requires sound { IsSound core.old }
    requires scope { top.0 < length core.old.scopes }
    ensures run { state_of core.new ≡ hushes (many (state_of core.old)) top.0 top.0 (hushed top.0 (state_of core.old)) }
    ensures sound { IsSound core.new }
    ensures held { held core.new ≡ held core.old }
    ensures depth { core.new.depth ≡ core.old.depth }
    ensures scopes { core.new.scopes ≡ core.old.scopes }
    ensures store { core.new.store ≡ core.old.store }
{
    hush_one(core, top);
    let mut last = top;
    for _i in 0..core.store.count() {
        match next_below(core, last, top) {
            None => return,
            Some(scope) => {
                hush_one(core, scope);
                last = scope;
            }
        }
    }
}

/// A scope and all below it are not live.
#[tactic(auto, using(crate::proofs::DeadScopes::died))]
fn deaden(core: &mut Core, scope: ScopeId)
    requires sound { IsSound core.old }
    requires scope { scope.0 < length core.old.scopes }
    ensures run { state_of core.new ≡ deadened scope.0 (state_of core.old) }
    ensures sound { IsSound core.new }
    ensures held { held core.new ≡ held core.old }
    ensures depth { core.new.depth ≡ core.old.depth }
    ensures count { length core.new.scopes ≡ length core.old.scopes }
    ensures grown { length core.old.store ≤ length core.new.store }
{
    core.scopes.mark_dead(scope);
}

/// A scope and all below it die, with their listeners and their declared watches.
pub fn bury(core: &mut Core, scope: ScopeId) -> Result<(), Memory>
    requires sound { IsSound core.old }
    requires scope { scope.0 < length core.old.scopes }
    ensures run { OnOk result (state_of core.new ≡ buried scope.0 (state_of core.old)) }
    ensures sound { IsSound core.new }
    ensures held { held core.new ≡ held core.old }
    ensures depth { core.new.depth ≡ core.old.depth }
    ensures count { length core.new.scopes ≡ length core.old.scopes }
    ensures grown { length core.old.store ≤ length core.new.store }
{
    core.changes.push(WatchChange::Leave(scope))?;
    hush(core, scope);
    deaden(core, scope);
    Ok(())
}
