//! Events with many listeners, calls of a function, and scopes that are destroyed.
ghost use Rattle.std.specs.Prelude.{◌≡◌, ◌<◌, length, IfSome};
ghost use Rattle.ng_core.specs.Frames.{IsSound};

use ng_act::running::{act, broadcast, destroy, emit};
use ng_app::App;
use ng_base::lists::Values;
use ng_base::locals::Locals;
use ng_base::name::ScopeId;
use ng_base::txt::Txt;
use ng_compose::Templates;
use ng_core::burying::next_below;
use ng_core::core_state::Core;
use ng_core::scope_calls::listen;
use ng_lex::lex;
use ng_parse::{Program, parse};
use std::alloc::Global;

/// An application with a function.
const APPLICATION: &[u8] = b"{\"functions\":{\"f\":{\"params\":[\"x\"],\"do\":\"x + 1\"}}}";

/// How many scopes hear a broadcast, and how many stand one below another.
const WIDE: u32 = 1_000;

const HIGH: u32 = 60;

/// A core with the root scope alone.
fn begun(alloc: Global) -> Option<Core>
    ensures sound { IfSome result IsSound }
    ensures root { IfSome result (λ core. 0 < length core.scopes) }
{
    let app = App::read(alloc, APPLICATION).ok()?;
    let mut templates = Templates::new(alloc);
    match app.begin(&mut templates) {
        Ok((core, _)) => Some(core),
        Err(_) => None,
    }
}

fn program(alloc: Global, text: &str) -> Option<Program> {
    let tokens = lex(alloc, text).ok()?;
    parse(alloc, &tokens).ok()
}

/// A child more of a scope.
fn child(core: &mut Core, parent: ScopeId) -> Option<ScopeId>
    requires sound { IsSound core.old }
    requires parent { parent.0 < length core.old.scopes }
    ensures sound { IfSome result (λ s. IsSound core.new) }
    ensures scopes { IfSome result (λ s. s.0 < length core.new.scopes) }
{
    match core.new_child(parent) {
        Ok(scope) => Some(scope),
        Err(_) => None,
    }
}

/// A child more of a scope, with listeners.
fn add(core: &mut Core, alloc: Global, parent: ScopeId, name: &Txt, count: u32) -> Option<ScopeId>
    requires sound { IsSound core.old }
    requires parent { parent.0 < length core.old.scopes }
    ensures sound { IfSome result (λ s. IsSound core.new) }
    ensures scopes { IfSome result (λ s. s.0 < length core.new.scopes) }
    ensures root { IfSome result (λ s. 0 < length core.new.scopes) }
{
    let scope = child(core, parent)?;
    let body = program(alloc, "0")?;
    hear(core, alloc, scope, name, &body, count)?;
    Some(scope)
}

/// Registers so many listeners on a scope.
fn hear(
    core: &mut Core,
    alloc: Global,
    scope: ScopeId,
    name: &Txt,
    body: &Program,
    count: u32,
) -> Option<()>
    requires sound { IsSound core.old }
    ensures sound { IsSound core.new }
    ensures count { length core.new.scopes ≡ length core.old.scopes }
{
    for _ in 0..count {
        let body = body.copied(alloc).ok()?;
        listen(core, scope, name, body).ok()?;
    }
    Some(())
}

/// The bodies that one broadcast enters, to so many listeners on a thousand scopes.
pub(crate) fn heard(alloc: Global, size: u64) -> Option<u64> {
    let size = u32::try_from(size).ok()?;
    let mut core = begun(alloc)?;
    let name = Txt::from_str(alloc, "ping").ok()?;
    for _ in 0..WIDE {
        add(&mut core, alloc, ScopeId(0), &name, size / WIDE)?;
    }
    broadcast(&mut core, alloc, ScopeId(0), &name, &Values::new(alloc)).ok()?;
    Some(u64::from(core.bodies))
}

/// So many emits from the lowest of sixty scopes, of which each has a listener of another event and the first one of this.
pub(crate) fn risen(alloc: Global, size: u64) -> Option<u64> {
    let mut core = begun(alloc)?;
    let name = Txt::from_str(alloc, "ping").ok()?;
    let other = Txt::from_str(alloc, "pong").ok()?;
    let mut lowest = add(&mut core, alloc, ScopeId(0), &name, 1)?;
    for _ in 1..HIGH {
        lowest = add(&mut core, alloc, lowest, &other, 1)?;
    }
    for _ in 0..size {
        emit(&mut core, alloc, lowest, &name, &Values::new(alloc)).ok()?;
    }
    Some(u64::from(core.bodies))
}

/// So many calls of a function.
pub(crate) fn called(alloc: Global, size: u64) -> Option<u64> {
    let mut core = begun(alloc)?;
    let p = program(alloc, "f(2)")?;
    for _ in 0..size {
        act(&mut core, alloc, ScopeId(0), &mut Locals::new(alloc), &p).ok()?;
    }
    Some(u64::from(core.bodies))
}

/// How many scopes are destroyed, of so many at most: each time the first one below the root.
fn destroyed(core: &mut Core, alloc: Global, size: u32) -> Option<u64>
    requires sound { IsSound core.old }
    requires root { 0 < length core.old.scopes }
{
    let mut count: u64 = 0;
    for _ in 0..size {
        match next_below(core, ScopeId(0), ScopeId(0)) {
            None => return Some(count),
            Some(scope) => {
                destroy(core, alloc, scope).ok()?;
                count = count.saturating_add(1);
            }
        }
    }
    Some(count)
}

/// Makes so many scopes with a listener each, and destroys them one after another.
pub(crate) fn buried(alloc: Global, size: u64) -> Option<u64> {
    let size = u32::try_from(size).ok()?;
    let mut core = begun(alloc)?;
    let name = Txt::from_str(alloc, "ping").ok()?;
    for _ in 0..size {
        add(&mut core, alloc, ScopeId(0), &name, 1)?;
    }
    destroyed(&mut core, alloc, size)
}
