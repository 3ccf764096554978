//! Events of the document: their handlers run, one after another, each in an `$apply` of its own.
ghost use Rattle.std.specs.Prelude.{◌≡◌, [], length, map, IfOk, OnOk};
ghost use Rattle.serde_json.specs.View.{view};
ghost use Rattle.ng_dom.specs.Paths.{StandsIn};
ghost use Rattle.ng_link.specs.Events.{named};
ghost use Rattle.ng_link.specs.State.{state_of};
ghost use Rattle.ng_parse.specs.ProgramOf.{program};
ghost use Rattle.ng_page.specs.Answered.{WhenOk};
ghost use Rattle.ng_commands.specs.Handling.{Happening, bubbles, way, has_turn, handled, has_touch, touched_then};
ghost use Rattle.ng_page.specs.Dispatch.{TakesTurn, MayTakeTurn, Handles, Touches, MayTouch, HandlesAt, is_stopped, Bubbles, Dispatches, last_digest};
ghost use Rattle.ng_page.specs.Dispatched.{told_of, told_all, UnlessFailed};
ghost use Rattle.ng_commands.specs.HandlingOf.{going, happening_seen, MadeBelow};
ghost use Rattle.ng_page.specs.EventSeen.{Goes, IsStill, LastSettled};
ghost use Rattle.ng_commands.specs.BetweenSteps.{PageIs};
ghost use Rattle.ng_commands.specs.Settled.{IsSettled};

use crate::digesting::conclude;
use crate::engine::Engine;
use crate::outcome::{Outcome, Outcomes};
use ng_base::fault::Memory;
use ng_base::name::NodeId;
use ng_base::txt::Txt;
use ng_commands::event_object::is_cancelled;
use ng_commands::handling::{
    Event, Happening, bubbles, has_touch, has_turn, run_touch, run_turn, touched_then, way,
};
use ng_parse::Program;
use serde_json::Value as Json;

/// How far a dispatch has come: its `$event`, and what each handler that ran has done.
#[derive(Drop)]
struct Dispatch {
    event: Event,
    outcomes: Outcomes,
}

/// A handler has its turn: an `$apply` of its own.
fn turn(
    engine: &mut Engine,
    happening: Happening<'_>,
    event: &mut Event,
    n: u64,
    p: &Program,
) -> Result<Outcome, Memory>
    requires page { PageIs engine.old.works }
    requires below { MadeBelow (length engine.old.works.core.store) event.old }
    ensures turn { IfOk result (λ o. TakesTurn (happening_seen happening.entry) n (program p.now) (going engine.old.works event.old) (told_of o) (going engine.new.works event.new)) }
    ensures settled { IfOk result (λ o. UnlessFailed o.digest (IsSettled (state_of engine.new.works))) }
    ensures page { OnOk result (PageIs engine.new.works) }
    ensures below { OnOk result (MadeBelow (length engine.new.works.core.store) event.new) }
{
    run_turn(&mut engine.works, engine.alloc, happening, event, n, p)?;
    conclude(engine)
}

/// A handler has its turn where its node stands, its scope lives, and `$event` could be made.
fn may_turn(
    engine: &mut Engine,
    happening: Happening<'_>,
    dispatch: &mut Dispatch,
    n: u64,
    p: &Program,
) -> Result<(), Memory>
    requires page { PageIs engine.old.works }
    requires below { MadeBelow (length engine.old.works.core.store) dispatch.old.event }
    requires settled { LastSettled dispatch.old.outcomes (state_of engine.old.works) }
    ensures turn { OnOk result (Goes (λ os h. MayTakeTurn (has_turn n (going engine.old.works dispatch.old.event)) (happening_seen happening.entry) n (program p.now) (going engine.old.works dispatch.old.event) os h) dispatch.old dispatch.new engine.new.works) }
    ensures still { OnOk result (IsStill dispatch.old dispatch.new engine.old engine.new) }
    ensures settled { OnOk result (LastSettled dispatch.new.outcomes (state_of engine.new.works)) }
    ensures page { OnOk result (PageIs engine.new.works) }
    ensures below { OnOk result (MadeBelow (length engine.new.works.core.store) dispatch.new.event) }
{
    if !has_turn(&engine.works, dispatch.event, n) {
        return Ok(());
    }
    let outcome = turn(engine, happening, &mut dispatch.event, n, p)?;
    dispatch.outcomes.push(outcome)?;
    Ok(())
}

/// A control loses the focus: an `$apply` of its own.
fn touch(engine: &mut Engine, event: &mut Event, n: u64) -> Result<Outcome, Memory>
    requires page { PageIs engine.old.works }
    requires below { MadeBelow (length engine.old.works.core.store) event.old }
    ensures turn { IfOk result (λ o. Touches n (going engine.old.works event.old) (told_of o) (going engine.new.works event.new)) }
    ensures settled { IfOk result (λ o. UnlessFailed o.digest (IsSettled (state_of engine.new.works))) }
    ensures page { OnOk result (PageIs engine.new.works) }
    ensures below { OnOk result (MadeBelow (length engine.new.works.core.store) event.new) }
{
    run_touch(&mut engine.works, engine.alloc, *event, n)?;
    *event = touched_then(*event);
    conclude(engine)
}

/// The control that a node is loses the focus at a `blur`, where its node stands and its scope lives.
fn may_touch(
    engine: &mut Engine,
    happening: Happening<'_>,
    dispatch: &mut Dispatch,
    n: u64,
) -> Result<(), Memory>
    requires page { PageIs engine.old.works }
    requires below { MadeBelow (length engine.old.works.core.store) dispatch.old.event }
    requires settled { LastSettled dispatch.old.outcomes (state_of engine.old.works) }
    ensures turn { OnOk result (Goes (λ os h. MayTouch (has_touch (happening_seen happening.entry) n (going engine.old.works dispatch.old.event)) n (going engine.old.works dispatch.old.event) os h) dispatch.old dispatch.new engine.new.works) }
    ensures still { OnOk result (IsStill dispatch.old dispatch.new engine.old engine.new) }
    ensures settled { OnOk result (LastSettled dispatch.new.outcomes (state_of engine.new.works)) }
    ensures page { OnOk result (PageIs engine.new.works) }
    ensures below { OnOk result (MadeBelow (length engine.new.works.core.store) dispatch.new.event) }
{
    if !has_touch(&engine.works, happening, dispatch.event, n) {
        return Ok(());
    }
    let outcome = touch(engine, &mut dispatch.event, n)?;
    dispatch.outcomes.push(outcome)?;
    Ok(())
}

/// Handlers of a node, in order.
fn handle_all(
    engine: &mut Engine,
    happening: Happening<'_>,
    dispatch: &mut Dispatch,
    n: u64,
    list: &[Program],
) -> Result<(), Memory>
    requires page { PageIs engine.old.works }
    requires below { MadeBelow (length engine.old.works.core.store) dispatch.old.event }
    requires settled { LastSettled dispatch.old.outcomes (state_of engine.old.works) }
    ensures handled { OnOk result (Goes (λ os h. Handles (happening_seen happening.entry) n (map program list.now) (going engine.old.works dispatch.old.event) os h) dispatch.old dispatch.new engine.new.works) }
    ensures still { OnOk result (IsStill dispatch.old dispatch.new engine.old engine.new) }
    ensures settled { OnOk result (LastSettled dispatch.new.outcomes (state_of engine.new.works)) }
    ensures page { OnOk result (PageIs engine.new.works) }
    ensures below { OnOk result (MadeBelow (length engine.new.works.core.store) dispatch.new.event) }
{
    for p in list {
        may_turn(engine, happening, dispatch, n, p)?;
    }
    Ok(())
}

/// What an event does at a node: a control's turn, and then those of the handlers.
fn handle(
    engine: &mut Engine,
    happening: Happening<'_>,
    dispatch: &mut Dispatch,
    n: u64,
) -> Result<(), Memory>
    requires page { PageIs engine.old.works }
    requires below { MadeBelow (length engine.old.works.core.store) dispatch.old.event }
    requires settled { LastSettled dispatch.old.outcomes (state_of engine.old.works) }
    ensures handled { OnOk result (Goes (λ os h. HandlesAt (happening_seen happening.entry) n (going engine.old.works dispatch.old.event) os h) dispatch.old dispatch.new engine.new.works) }
    ensures still { OnOk result (IsStill dispatch.old dispatch.new engine.old engine.new) }
    ensures settled { OnOk result (LastSettled dispatch.new.outcomes (state_of engine.new.works)) }
    ensures page { OnOk result (PageIs engine.new.works) }
    ensures below { OnOk result (MadeBelow (length engine.new.works.core.store) dispatch.new.event) }
{
    let programs = engine.works.handlers(n, happening.name)?;
    may_touch(engine, happening, dispatch, n)?;
    handle_all(engine, happening, dispatch, n, programs.as_slice())
}

/// Whether bubbling has been stopped.
fn is_stopped(engine: &Engine, event: Event) -> Result<bool, Memory>
    requires { MadeBelow (length engine.now.works.core.store) event }
    ensures { IfOk result (λ b. b ≡ is_stopped (going engine.now.works event)) }
{
    match event {
        Event::Unmade => Ok(false),
        Event::Awaited => Ok(false),
        Event::Made(o) => is_cancelled(&engine.works.core.store, engine.alloc, o),
        Event::Refused => Ok(false),
    }
}

/// From node to node, until bubbling is stopped.
fn bubble(engine: &mut Engine, happening: Happening<'_>, way: &[u64]) -> Result<Outcomes, Memory>
    requires page { PageIs engine.old.works }
    ensures bubbles { IfOk result (λ os. (event : Event) × Bubbles (happening_seen happening.entry) way.now (going engine.old.works Event.Unmade) (told_all os) (going engine.new.works event)) }
    ensures still { IfOk result (λ os. os ≡ [] → engine.new ≡ engine.old) }
    ensures settled { IfOk result (λ os. LastSettled os (state_of engine.new.works)) }
    ensures page { OnOk result (PageIs engine.new.works) }
{
    let mut dispatch = Dispatch {
        event: Event::Unmade,
        outcomes: Outcomes::new(engine.alloc),
    };
    for n in way {
        if is_stopped(engine, dispatch.event)? {
            return Ok(dispatch.outcomes);
        }
        handle(engine, happening, &mut dispatch, *n)?;
    }
    Ok(dispatch.outcomes)
}

/// An event is dispatched at a node that stands. The answer is what each handler that ran has done.
pub(crate) fn dispatch_at(
    engine: &mut Engine,
    n: NodeId,
    name: &Txt,
    extra: &Json,
) -> Result<Outcomes, Memory>
    requires page { PageIs engine.old.works }
    requires stands { StandsIn n.made.0 (named (state_of engine.old.works)) }
    ensures step { IfOk result (λ os. Dispatches (record { type = name.now; extra = view extra.now }) n.made.0 (state_of engine.old.works) (told_all os) (state_of engine.new.works)) }
    ensures still { IfOk result (λ os. os ≡ [] → engine.new ≡ engine.old) }
    ensures settled { IfOk result (λ os. WhenOk (last_digest (told_all os)) (IsSettled (state_of engine.new.works))) }
    ensures page { OnOk result (PageIs engine.new.works) }
{
    let way = way(&engine.works, engine.alloc, n, name)?;
    bubble(engine, Happening { name, extra }, way.as_slice())
}
