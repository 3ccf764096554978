//! Listeners that are walked, and then taken out one after another while the walk is open.
ghost use Rattle.ng_events.specs.Apart.{StayOpen};
ghost use Rattle.ng_events.specs.Stands.{IsOpen};

use ng_base::name::{FunId, ScopeId};
use ng_base::txt::Txt;
use ng_events::listeners::{EventWalk, Listeners};
use ng_lex::lex;
use ng_parse::{Program, parse};
use std::alloc::Global;

/// Where the next listener is taken out.
#[derive(Clone, Copy)]
pub(crate) enum Side {
    Front,
    Back,
    Middle,
}

/// The listener that goes as the `i`th of so many.
fn going(side: Side, i: u32, size: u32) -> u32 {
    match side {
        Side::Front => i,
        Side::Back => size.wrapping_sub(1).wrapping_sub(i),
        Side::Middle => {
            let middle = size / 2;
            if i % 2 == 0 {
                middle.wrapping_add(i / 2)
            } else {
                middle.wrapping_sub(i / 2).wrapping_sub(1)
            }
        }
    }
}

fn nothing(alloc: Global) -> Option<Program> {
    let tokens = lex(alloc, "").ok()?;
    parse(alloc, &tokens).ok()
}

fn register(
    alloc: Global,
    listeners: &mut Listeners,
    scope: u32,
    name: &Txt,
    body: &Program,
    id: u32,
) -> Option<()> {
    if listeners.body(FunId(id)).is_some() {
        return None;
    }
    let body = body.copied(alloc).ok()?;
    listeners.on(ScopeId(scope), name, body, FunId(id)).ok()
}

/// How many a walk meets, of so many at most.
fn met(listeners: &mut Listeners, w: &mut EventWalk, size: u32) -> u64
    requires { IsOpen listeners.old w.old }
    ensures open { IsOpen listeners.new w.new }
{
    let mut count: u64 = 0;
    for _ in 0..size {
        if listeners.next(w).is_some() {
            count = count.saturating_add(1);
        }
    }
    count
}

/// Whether a listener was taken out.
fn take(listeners: &mut Listeners, id: u32) -> bool
    ensures { StayOpen listeners.old listeners.new }
{
    listeners.off(FunId(id))
}

/// How many were taken out.
fn taken(listeners: &mut Listeners, side: Side, size: u32) -> u64
    ensures { StayOpen listeners.old listeners.new }
{
    let mut count: u64 = 0;
    for i in 0..size {
        if take(listeners, going(side, i, size)) {
            count = count.saturating_add(1);
        }
    }
    count
}

/// How many of so many listeners were met, where as many were taken out after that.
pub(crate) fn walked(alloc: Global, side: Side, size: u64) -> Option<u64> {
    let size = u32::try_from(size).ok()?;
    let mut listeners = Listeners::new(alloc);
    let name = Txt::from_str(alloc, "ping").ok()?;
    let body = nothing(alloc)?;
    for id in 0..size {
        register(alloc, &mut listeners, 0, &name, &body, id)?;
    }
    let mut walk = listeners.begin(ScopeId(0), &name)?;
    let count = met(&mut listeners, &mut walk, size);
    let out = taken(&mut listeners, side, size);
    listeners.end(walk);
    if count == out { Some(count) } else { None }
}

/// Drops so many scopes, one after another, of which each tenth has a listener.
pub(crate) fn dropped(alloc: Global, size: u64) -> Option<u64> {
    let size = u32::try_from(size).ok()?;
    let mut listeners = Listeners::new(alloc);
    let name = Txt::from_str(alloc, "ping").ok()?;
    let body = nothing(alloc)?;
    for scope in 0..size {
        if scope % 10 == 0 {
            register(alloc, &mut listeners, scope, &name, &body, scope)?;
        }
    }
    for scope in 0..size {
        listeners.drop_scope(ScopeId(scope));
    }
    Some(u64::from(size))
}
