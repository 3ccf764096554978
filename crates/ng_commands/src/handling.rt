//! What a handler of an event does to the works of a page, up to its digest.
ghost use Rattle.std.specs.Prelude.{◌≡◌, ◌<◌, ◌≤◌, ◌∷◌, [], length, option_map, true, IfOk, OnOk, Option, Some, None, codes};
ghost use Rattle.ng_core.specs.Events.{object_value};
ghost use Rattle.ng_core.specs.Frames as cores;
ghost use Rattle.ng_core.specs.Frames.{IsSound, Acts};
ghost use Rattle.ng_act.specs.Running.{same};
ghost use Rattle.ng_behaviour.specs.Scopes.{live_at};
ghost use Rattle.ng_dom.specs.Paths.{StandsIn};
ghost use Rattle.ng_changes.specs.Whole.{Unless};
ghost use Rattle.ng_link.specs.Events.{named, scope_of};
ghost use Rattle.ng_build.specs.HandledOf.{control_of};
ghost use Rattle.ng_link.specs.State.{state_of};
ghost use Rattle.ng_parse.specs.ProgramOf.{program};
ghost use Rattle.ng_commands.specs.Handling.{Happening, bubbles, way, is_refused, has_turn, ready, event_of, event_after, handler_run, handling_run, rested, handled, event_then, has_touch, touch_run, touched, touched_then};
ghost use Rattle.ng_commands.specs.HandlingOf.{number, event_seen, after_seen, going, happening_seen, MadeBelow};
ghost use Rattle.ng_commands.specs.BetweenSteps.{PageIs};

use crate::event_object::make_event;
use crate::running::begin;
use ng_act::running::act;
use ng_base::fault::{Fault, Memory};
use ng_base::locals::Locals;
use ng_base::name::{NodeId, Oid, ScopeId};
use ng_base::path::Path;
use ng_base::txt::Txt;
use ng_base::value::Value;
use ng_build::controlled::ControlHere;
use ng_changes::following::follow;
use ng_core::core_state::Core;
use ng_link::works::Works;
use ng_parse::Program;
use serde_json::Value as Json;
use std::alloc::Global;

/// `$event` of a dispatch: not made yet, not made though the command has begun, made, or refused.
#[derive(Clone, Copy, Debug, PartialEq, Eq)]
pub enum Event {
    Unmade,
    Awaited,
    Made(Oid),
    Refused,
}

/// An event: its type, and the names that `$event` has beside that.
#[derive(Clone, Copy)]
pub struct Happening<'a> {
    pub name: &'a Txt,
    pub extra: &'a Json,
}

/// Whether events of a type bubble.
pub fn bubbles(name: &Txt) -> bool
    ensures { result ≡ bubbles name.now }
{
    !(name.is_word("mouseenter")
        || name.is_word("mouseleave")
        || name.is_word("focus")
        || name.is_word("blur"))
}

/// A node alone.
fn alone(alloc: Global, n: NodeId) -> Result<Vec<u64>, Memory>
    ensures { IfOk result (λ l. l.items ≡ n.made.0 ∷ []) }
{
    let mut way = Vec::new(alloc);
    way.push(n.made.0)?;
    Ok(way)
}

/// The way of an event: a node that stands, and where it bubbles the elements round it.
pub fn way(works: &Works, alloc: Global, n: NodeId, name: &Txt) -> Result<Vec<u64>, Memory>
    requires page { PageIs works.now }
    requires stands { StandsIn n.made.0 (named (state_of works.now)) }
    ensures { IfOk result (λ l. l.items ≡ way name.now n.made.0 (state_of works.now)) }
{
    if bubbles(name) {
        works.dom().line(n)
    } else {
        alone(alloc, n)
    }
}

/// Whether `$event` could not be made.
fn is_refused(event: Event) -> bool
    ensures { result ≡ is_refused (event_seen event) }
{
    match event {
        Event::Unmade => false,
        Event::Awaited => false,
        Event::Made(_) => false,
        Event::Refused => true,
    }
}

/// Whether the scope of a node lives.
fn scope_lives(works: &Works, n: u64) -> bool
    requires { PageIs works.now }
    ensures { result ≡ live_at (state_of works.now).core.scopes (scope_of (state_of works.now) n) }
{
    works.core.scopes.is_live(works.scope_of(n))
}

/// Whether a handler of a node has its turn.
pub fn has_turn(works: &Works, event: Event, n: u64) -> bool
    requires { PageIs works.now }
    ensures { result ≡ has_turn n (going works.now event) }
{
    !is_refused(event) && works.handles(n) && scope_lives(works, n)
}

/// The first handler begins the command, and each begins without a fault.
fn ready(works: &mut Works, event: Event)
    ensures state { state_of works.new ≡ ready (event_seen event) (state_of works.old) }
    ensures page { PageIs works.old → PageIs works.new }
{
    match event {
        Event::Unmade => begin(works),
        Event::Awaited => works.forget_faults(),
        Event::Made(_) => works.forget_faults(),
        Event::Refused => {}
    }
}

/// `$event`, as it stands or as it is made.
fn event_of(
    core: &mut Core,
    alloc: Global,
    happening: Happening<'_>,
    event: Event,
) -> Result<Oid, Fault>
    requires sound { IsSound core.old }
    requires below { MadeBelow (length core.old.store) event }
    ensures run { Acts number result (cores.state_of core.new) (event_of (happening_seen happening.entry) (event_seen event) (cores.state_of core.old)) }
    ensures below { IfOk result (λ o. o.0 < length core.new.store) }
    ensures sound { IsSound core.new }
    ensures depth { core.new.depth ≡ core.old.depth }
    ensures scopes { core.new.scopes ≡ core.old.scopes }
    ensures grown { length core.old.store ≤ length core.new.store }
{
    match event {
        Event::Made(o) => Ok(o),
        Event::Unmade => make_event(core, alloc, happening.name, happening.extra),
        Event::Awaited => make_event(core, alloc, happening.name, happening.extra),
        Event::Refused => make_event(core, alloc, happening.name, happening.extra),
    }
}

/// What `$event` is after that.
fn event_after(made: &Result<Oid, Fault>) -> Event
    ensures { event_seen result ≡ after_seen made.now }
{
    match made {
        Ok(o) => Event::Made(*o),
        Err(_) => Event::Refused,
    }
}

/// The local `$event`.
fn event_locals(alloc: Global, o: Oid) -> Result<Locals, Memory>
    ensures { IfOk result (λ ls. ls ≡ (codes "$event", object_value o.0) ∷ []) }
{
    let mut name = Txt::new(alloc);
    name.push_word("$event")?;
    let mut locals = Locals::new(alloc);
    locals.push(name, Value::Obj(o))?;
    Ok(locals)
}

/// A program runs on a scope with the local `$event`.
fn run_handler(
    core: &mut Core,
    alloc: Global,
    scope: ScopeId,
    o: Oid,
    p: &Program,
) -> Result<Value, Fault>
    requires sound { IsSound core.old }
    requires idle { core.old.depth ≡ 0 }
    requires scope { scope.0 < length core.old.scopes }
    requires event { o.0 < length core.old.store }
    ensures run { Acts same result (cores.state_of core.new) (handler_run scope.0 o.0 (program p.now) (cores.state_of core.old)) }
    ensures sound { IsSound core.new }
    ensures idle { core.new.depth ≡ 0 }
    ensures count { length core.new.scopes ≡ length core.old.scopes }
    ensures grown { length core.old.store ≤ length core.new.store }
{
    let mut locals = event_locals(alloc, o)?;
    act(core, alloc, scope, &mut locals, p)
}

/// A handler's program runs, where `$event` is there or can be made.
fn handling(
    core: &mut Core,
    alloc: Global,
    happening: Happening<'_>,
    event: &mut Event,
    scope: ScopeId,
    p: &Program,
) -> Result<Value, Fault>
    requires sound { IsSound core.old }
    requires idle { core.old.depth ≡ 0 }
    requires scope { scope.0 < length core.old.scopes }
    requires below { MadeBelow (length core.old.store) event.old }
    ensures run { Acts same result (cores.state_of core.new) (handling_run (happening_seen happening.entry) (event_seen event.old) scope.0 (program p.now) (cores.state_of core.old)) }
    ensures event { Unless result (event_seen event.new ≡ event_after (event_of (happening_seen happening.entry) (event_seen event.old) (cores.state_of core.old)).1) }
    ensures below { MadeBelow (length core.new.store) event.new }
    ensures sound { IsSound core.new }
    ensures idle { core.new.depth ≡ 0 }
    ensures count { length core.new.scopes ≡ length core.old.scopes }
    ensures grown { length core.old.store ≤ length core.new.store }
{
    let made = event_of(core, alloc, happening, *event);
    *event = event_after(&made);
    run_handler(core, alloc, scope, made?, p)
}

/// On a root that has died nothing is watched any more.
fn rest_where_dead(works: &mut Works, alloc: Global) -> Result<(), Memory>
    requires { PageIs works.old }
    ensures state { OnOk result (state_of works.new ≡ rested (state_of works.old)) }
    ensures page { OnOk result (PageIs works.new) }
{
    if works.core.scopes.is_live(ScopeId(0)) {
        return Ok(());
    }
    let top = Path::new(alloc);
    works.leave(&top)
}

/// A handler runs, and what comes after it is done, up to its digest.
pub fn run_turn(
    works: &mut Works,
    alloc: Global,
    happening: Happening<'_>,
    event: &mut Event,
    n: u64,
    p: &Program,
) -> Result<(), Memory>
    requires page { PageIs works.old }
    requires below { MadeBelow (length works.old.core.store) event.old }
    ensures state { OnOk result (state_of works.new ≡ handled (happening_seen happening.entry) n (program p.now) (going works.old event.old)) }
    ensures event { OnOk result (event_seen event.new ≡ event_then (happening_seen happening.entry) (going works.old event.old)) }
    ensures page { OnOk result (PageIs works.new) }
    ensures below { OnOk result (MadeBelow (length works.new.core.store) event.new) }
{
    ready(works, *event);
    let scope = works.scope_of(n);
    let end = handling(&mut works.core, alloc, happening, event, scope, p);
    follow(works, alloc, end)?;
    rest_where_dead(works, alloc)
}

/// Whether the control that a node is loses the focus.
pub fn has_touch(works: &Works, happening: Happening<'_>, event: Event, n: u64) -> bool
    requires { PageIs works.now }
    ensures { result ≡ has_touch (happening_seen happening.entry) n (going works.now event) }
{
    happening.name.is_word("blur")
        && !is_refused(event)
        && works.is_control(n)
        && scope_lives(works, n)
}

/// What `$event` is after a control has lost the focus.
pub fn touched_then(event: Event) -> Event
    ensures { event_seen result ≡ touched_then (event_seen event) }
{
    match event {
        Event::Unmade => Event::Awaited,
        Event::Awaited => Event::Awaited,
        Event::Made(o) => Event::Made(o),
        Event::Refused => Event::Refused,
    }
}

/// A control loses the focus, where there is one.
fn touch_one(works: &mut Works, control: &Option<ControlHere>) -> Result<(), Memory>
    requires { PageIs works.old }
    ensures state { OnOk result (state_of works.new ≡ touch_run (option_map control_of control.now) (state_of works.old)) }
    ensures page { OnOk result (PageIs works.new) }
{
    match control {
        None => Ok(()),
        Some(control) => works.touch(&control.key),
    }
}

/// The control that a node is loses the focus, up to its digest.
pub fn run_touch(works: &mut Works, alloc: Global, event: Event, n: u64) -> Result<(), Memory>
    requires { PageIs works.old }
    ensures state { OnOk result (state_of works.new ≡ touched n (going works.old event)) }
    ensures page { OnOk result (PageIs works.new) }
{
    let control = works.control_at(n)?;
    ready(works, event);
    touch_one(works, &control)?;
    rest_where_dead(works, alloc)
}
