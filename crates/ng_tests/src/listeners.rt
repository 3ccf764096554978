//! Listeners of one scope and name under walks, as a table of what is done and what it answers.
ghost use Rattle.std.specs.Prelude.{◌≡◌, IfSome};
ghost use Rattle.ng_events.specs.Apart.{AreApart, StayOpen};
ghost use Rattle.ng_events.specs.Stands.{IsOpen};

use ng_base::name::{FunId, ScopeId};
use ng_base::txt::Txt;
use ng_chain::chain::Walk;
use ng_events::listeners::{EventWalk, Listeners};
use ng_lex::lex;
use ng_parse::{Program, parse};
use std::alloc::Global;

const SCOPE: ScopeId = ScopeId(3);

/// What a row does: it registers a function, takes one out, takes those of a scope out, or goes on with a walk.
#[derive(Clone, Copy, Debug)]
enum Does {
    On(u32),
    Off(u32),
    Quiet(u32),
    Next(u8),
}

/// A program of no statements, if memory is at hand.
fn nothing(alloc: Global) -> Option<Program> {
    let tokens = lex(alloc, "").ok()?;
    parse(alloc, &tokens).ok()
}

/// Its number, where the function was registered.
fn on(alloc: Global, listeners: &mut Listeners, name: &Txt, id: u32) -> u32
    ensures { StayOpen listeners.old listeners.new }
{
    if listeners.body(FunId(id)).is_some() {
        return 0;
    }
    match nothing(alloc) {
        None => 0,
        Some(body) => match listeners.on(SCOPE, name, body, FunId(id)) {
            Ok(()) => id,
            Err(_) => 0,
        },
    }
}

/// Its number, where the function stood.
fn off(listeners: &mut Listeners, id: u32) -> u32
    ensures { StayOpen listeners.old listeners.new }
{
    if listeners.off(FunId(id)) { id } else { 0 }
}

fn quiet(listeners: &mut Listeners, scope: u32) -> u32
    ensures { StayOpen listeners.old listeners.new }
{
    listeners.drop_scope(ScopeId(scope));
    0
}

/// The number of the next function.
fn next(listeners: &mut Listeners, w: &mut EventWalk) -> u32
    requires { IsOpen listeners.old w.old }
    ensures open { StayOpen listeners.old listeners.new }
    ensures walk { w.new ≡ w.old }
{
    match listeners.next(w) {
        Some(id) => id.0,
        None => 0,
    }
}

/// A walk over a list.
fn begin(listeners: &mut Listeners, name: &Txt) -> Option<EventWalk>
    ensures open { IfSome result (IsOpen listeners.new) }
    ensures others { IfSome result (λ w. (v : EventWalk) → IsOpen listeners.old v → IsOpen listeners.new v × AreApart v w) }
{
    match listeners.begin(SCOPE, name) {
        None => None,
        Some(EventWalk::Bare) => {
            listeners.end(EventWalk::Bare);
            None
        }
        Some(EventWalk::On(list, walk)) => Some(EventWalk::On(list, walk)),
    }
}

/// Ends a walk.
fn end(listeners: &mut Listeners, w: EventWalk)
    requires { IsOpen listeners.old w }
    ensures { (v : EventWalk) → IsOpen listeners.old v → AreApart v w → IsOpen listeners.new v }
{
    listeners.end(w);
}

fn answer(
    alloc: Global,
    listeners: &mut Listeners,
    name: &Txt,
    a: &mut EventWalk,
    b: &mut EventWalk,
    c: &mut EventWalk,
    does: Does,
) -> u32
    requires a { IsOpen listeners.old a.old }
    requires b { IsOpen listeners.old b.old }
    requires c { IsOpen listeners.old c.old }
    ensures open { StayOpen listeners.old listeners.new }
    ensures a { a.new ≡ a.old }
    ensures b { b.new ≡ b.old }
    ensures c { c.new ≡ c.old }
{
    match does {
        Does::On(id) => on(alloc, listeners, name, id),
        Does::Off(id) => off(listeners, id),
        Does::Quiet(scope) => quiet(listeners, scope),
        Does::Next(0) => next(listeners, a),
        Does::Next(1) => next(listeners, b),
        Does::Next(_) => next(listeners, c),
    }
}

/// Five functions, 11 to 15, and three walks over them.
const ROWS: [(Does, u32); 26] = [
    // One that takes itself out while it runs.
    (Does::Next(0), 11),
    (Does::Off(11), 11),
    (Does::Off(11), 0),
    // The first is gone before a walk began to move.
    (Does::Next(1), 12),
    (Does::Next(0), 12),
    // The one behind a walk, and those before it.
    (Does::Off(13), 13),
    (Does::Next(0), 14),
    (Does::Off(14), 14),
    (Does::Next(1), 15),
    // One that is added at a walk's end is not met.
    (Does::On(16), 16),
    (Does::Next(1), 0),
    (Does::Next(1), 0),
    // Another scope's are none of these.
    (Does::Quiet(2), 0),
    // The neighbour in front, and the last.
    (Does::Off(12), 12),
    (Does::Next(2), 15),
    (Does::Off(15), 15),
    (Does::Next(0), 0),
    (Does::Next(2), 0),
    // A stranger, and a name that is registered again.
    (Does::Off(99), 0),
    (Does::On(11), 11),
    (Does::On(11), 0),
    (Does::Next(0), 0),
    // All of the scope.
    (Does::Quiet(3), 0),
    (Does::Off(16), 0),
    (Does::Next(2), 0),
    (Does::On(17), 17),
];

#[test]
fn walks_meet_who_stands_at_its_turn(rt: HostRuntime) {
    let alloc = rt.alloc();
    let mut listeners = Listeners::new(alloc);
    let Ok(name) = Txt::from_str(alloc, "ping") else {
        panic!(rt; "no name");
    };
    for id in [11, 12, 13, 14, 15] {
        assert_eq!(rt; on(alloc, &mut listeners, &name, id), id);
    }
    let Some(mut a) = begin(&mut listeners, &name) else {
        panic!(rt; "no walk");
    };
    let Some(mut b) = begin(&mut listeners, &name) else {
        panic!(rt; "no second walk");
    };
    let Some(mut c) = begin(&mut listeners, &name) else {
        panic!(rt; "no third walk");
    };
    for (does, want) in ROWS {
        let got = answer(alloc, &mut listeners, &name, &mut a, &mut b, &mut c, does);
        assert_eq!(rt; got, want, "at {does:?}");
    }
    end(&mut listeners, b);
    end(&mut listeners, a);
    end(&mut listeners, c);
    assert_eq!(rt; off(&mut listeners, 17), 17);
}

#[test]
fn there_is_no_sixty_fifth_walk(rt: HostRuntime) {
    let alloc = rt.alloc();
    let mut listeners = Listeners::new(alloc);
    let Ok(name) = Txt::from_str(alloc, "ping") else {
        panic!(rt; "no name");
    };
    assert_eq!(rt; on(alloc, &mut listeners, &name, 11), 11);
    for scope in 0..64 {
        let walk = listeners.begin(ScopeId(scope), &name);
        assert!(rt; walk.is_some(), "at {scope}");
        leave(walk);
    }
    let walk = listeners.begin(SCOPE, &name);
    assert!(rt; walk.is_none());
    leave(walk);
}

/// Leaves a walk open.
fn leave(walk: Option<EventWalk>) {
    match walk {
        None => {}
        Some(EventWalk::Bare) => {}
        Some(EventWalk::On(_, walk)) => {
            let Walk { slot: _ } = walk;
        }
    }
}
