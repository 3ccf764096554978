//! The objects of events.
ghost use Rattle.std.specs.Prelude.{not, eqb, ◌≡◌, ◌<◌, ◌≤◌, ◌+◌, length, IfOk, IfErr, OnOk, true};
ghost use Rattle.ng_base.specs.Faults.{is_memory};
ghost use Rattle.ng_base.specs.Objects.{StandsAmong};
ghost use Rattle.ng_base.specs.ViewOf.{view_of, views_of};
ghost use Rattle.ng_behaviour.specs.Scopes.{object_at};
ghost use Rattle.ng_language.specs.Objects.{set_name};
ghost use Rattle.std.specs.List.{AllByRecursion};
ghost use Rattle.ng_base.specs.Views.{views_list};
ghost use Rattle.ng_language.specs.Views.{ViewStands};
ghost use Rattle.ng_core.specs.Events.{with_event, announced, shows_current, event_locals, ended, finished};
ghost use Rattle.ng_core.specs.EventOf.{event_of};
ghost use Rattle.ng_core.specs.Frames.{state_of, held, IsSound, Acts};
ghost use Rattle.ng_core.specs.State.{is_stopped, with_objects, with_stopped, without_stop};

use crate::binding::value_copied;
use crate::core_state::Core;
use crate::event_names::EventNames;
use crate::keeping::keep;
use ng_base::fault::{Fault, Memory};
use ng_base::heap::ObjKind;
use ng_base::locals::Locals;
use ng_base::name::{Oid, ScopeId};
use ng_base::txt::Txt;
use ng_base::value::Value;
use ng_base::view::{View, Views};
use ng_members::lists::list_view;
use ng_store::{Store, StoreFault};
use std::alloc::Global;

/// As many objects stand at most.
const OBJECT_LIMIT: usize = 1_000_000;

/// An event: its object, the list of its arguments, and its name.
#[derive(Drop)]
pub struct Event {
    pub object: Oid,
    pub args: View,
    pub name: Txt,
}

/// Gives an object a name.
#[tactic(auto, using(ng_scopes::proofs::Lengths::kept))]
fn give(store: &mut Store, object: Oid, name: &Txt, value: Value) -> Result<(), Memory>
    requires object { object.0 < length store.old }
    requires value { StandsAmong (length store.old) value }
    ensures ok { OnOk result (store.new ≡ set_name store.old object.0 name.now value) }
    ensures len { length store.new ≡ length store.old }
{
    store.set(object, name, value)
}

/// The event's own object.
#[tactic(auto, using(ng_scopes::proofs::Lengths::kept))]
fn event_object(
    store: &mut Store,
    names: &EventNames,
    target: Oid,
    name: &Txt,
) -> Result<Oid, Fault>
    requires target { target.0 < length store.old }
    requires room { length store.old + 1 < 1000000 }
    ensures made { OnOk result (store.new ≡ with_event store.old target.0 name.now) }
    ensures object { IfOk result (λ o. o.0 ≡ length store.old) }
    ensures longer { OnOk result (length store.new ≡ length store.old + 1) }
    ensures grown { length store.old ≤ length store.new }
    ensures want { IfErr result (λ e. is_memory e ≡ true) }
{
    let event = match store.make(ObjKind::Event, None) {
        Ok(event) => event,
        Err(StoreFault::Full) => return Err(Fault::Memory(Memory::Worn)),
        Err(StoreFault::Memory(memory)) => return Err(Fault::Memory(memory)),
    };
    give(store, event, names.name(), Value::Text(name.copied()?))?;
    give(store, event, names.target_scope(), Value::Obj(target))?;
    give(store, event, names.current_scope(), Value::Null)?;
    give(store, event, names.default_prevented(), Value::Bool(false))?;
    Ok(event)
}

/// The scope that an event has reached, or none.
#[tactic(auto, using(crate::proofs::SoundCores::grown))]
pub fn show_current(core: &mut Core, e: &Event, current: Value) -> Result<(), Memory>
    requires sound { IsSound core.old }
    requires object { e.now.object.0 < length core.old.store }
    requires current { StandsAmong (length core.old.store) current }
    ensures run { OnOk result (state_of core.new ≡ shows_current (event_of e.now) current (state_of core.old)) }
    ensures sound { IsSound core.new }
    ensures held { held core.new ≡ held core.old }
    ensures depth { core.new.depth ≡ core.old.depth }
    ensures count { length core.new.scopes ≡ length core.old.scopes }
    ensures grown { length core.old.store ≤ length core.new.store }
{
    give(
        &mut core.store,
        e.object,
        core.event_names.current_scope(),
        current,
    )
}

/// The locals of a listener.
pub fn locals_of(alloc: Global, e: &Event) -> Result<Locals, Memory>
    ensures locals { IfOk result (λ ls. ls ≡ event_locals (event_of e.now)) }
{
    let mut event = Txt::new(alloc);
    event.push_word("event")?;
    let mut args = Txt::new(alloc);
    args.push_word("args")?;
    let mut locals = Locals::new(alloc);
    locals.push(event, Value::Obj(e.object))?;
    locals.push(args, value_copied(&e.args)?)?;
    Ok(locals)
}

/// Whether `stopPropagation` of an event was called.
pub fn is_stopped(core: &Core, e: &Event) -> bool
    ensures { result ≡ is_stopped core.now.stopped.items e.now.object.0 }
{
    core.stopped.iter().any(|stopped| e.object.0 == *stopped)
}

/// The event's own object, in the core.
#[tactic(auto, using(crate::proofs::SoundCores::grown))]
fn add_event(core: &mut Core, scope: ScopeId, name: &Txt) -> Result<Oid, Fault>
    requires sound { IsSound core.old }
    requires scope { scope.0 < length core.old.scopes }
    requires room { length core.old.store + 1 < 1000000 }
    ensures run { OnOk result (state_of core.new ≡ with_objects (with_event core.old.store (object_at core.old.scopes scope.0) name.now) (state_of core.old)) }
    ensures want { IfErr result (λ e. is_memory e ≡ true) }
    ensures object { IfOk result (λ o. o.0 ≡ length core.old.store) }
    ensures below { IfOk result (λ o. o.0 < length core.new.store) }
    ensures sound { IsSound core.new }
    ensures held { held core.new ≡ held core.old }
    ensures depth { core.new.depth ≡ core.old.depth }
    ensures count { length core.new.scopes ≡ length core.old.scopes }
    ensures grown { length core.old.store ≤ length core.new.store }
{
    let target = core.scopes.object(scope);
    event_object(&mut core.store, &core.event_names, target, name)
}

/// The objects of an event, if both have room.
#[tactic(auto, using(crate::proofs::Announced::kept))]
pub fn announce(
    core: &mut Core,
    alloc: Global,
    scope: ScopeId,
    name: &Txt,
    args: Views,
) -> Result<Event, Fault>
    requires sound { IsSound core.old }
    requires scope { scope.0 < length core.old.scopes }
    requires args { AllByRecursion (ViewStands (length core.old.store)) (views_list (views_of args)) }
    ensures run { Acts event_of result (state_of core.new) (announced scope.0 name.now (views_list (views_of args)) (state_of core.old)) }
    ensures sound { IsSound core.new }
    ensures held { held core.new ≡ held core.old }
    ensures depth { core.new.depth ≡ core.old.depth }
    ensures count { length core.new.scopes ≡ length core.old.scopes }
    ensures grown { length core.old.store ≤ length core.new.store }
    ensures object { IfOk result (λ e. e.object.0 < length core.new.store) }
    ensures args { IfOk result (λ e. ViewStands (length core.new.store) (view_of e.args)) }
{
    if core.store.count() >= OBJECT_LIMIT - 1 {
        return Err(Fault::StoreFull);
    }
    let object = add_event(core, scope, name)?;
    let list = list_view(args);
    let args = keep(core, alloc, &list)?;
    let name = name.copied()?;
    Ok(Event { object, args, name })
}

/// Whether an event is another one.
fn is_another(object: u32, stopped: u32) -> bool
    ensures { result ≡ not (eqb object stopped) }
{
    object != stopped
}

/// That `stopPropagation` was called is forgotten.
#[tactic(auto, using(crate::proofs::SoundCores::grown))]
fn forget_stop(core: &mut Core, object: u32)
    requires sound { IsSound core.old }
    ensures run { state_of core.new ≡ with_stopped (without_stop object core.old.stopped.items) (state_of core.old) }
    ensures sound { IsSound core.new }
    ensures held { held core.new ≡ held core.old }
    ensures depth { core.new.depth ≡ core.old.depth }
    ensures count { length core.new.scopes ≡ length core.old.scopes }
    ensures store { core.new.store ≡ core.old.store }
{
    core.stopped.retain(|stopped| is_another(object, *stopped));
}

/// An event is over: no scope is current.
#[tactic(auto, using(crate::proofs::SoundCores::grown))]
fn end_event(core: &mut Core, e: &Event) -> Result<(), Memory>
    requires sound { IsSound core.old }
    requires object { e.now.object.0 < length core.old.store }
    ensures run { OnOk result (state_of core.new ≡ ended (event_of e.now) (state_of core.old)) }
    ensures sound { IsSound core.new }
    ensures held { held core.new ≡ held core.old }
    ensures depth { core.new.depth ≡ core.old.depth }
    ensures count { length core.new.scopes ≡ length core.old.scopes }
    ensures grown { length core.old.store ≤ length core.new.store }
{
    show_current(core, e, Value::Null)?;
    forget_stop(core, e.object.0);
    Ok(())
}

/// An event is over, and its object is the value.
pub fn finish(core: &mut Core, e: &Event) -> Result<View, Fault>
    requires sound { IsSound core.old }
    requires object { e.now.object.0 < length core.old.store }
    ensures run { Acts view_of result (state_of core.new) (finished (event_of e.now) (state_of core.old)) }
    ensures sound { IsSound core.new }
    ensures held { held core.new ≡ held core.old }
    ensures depth { core.new.depth ≡ core.old.depth }
    ensures count { length core.new.scopes ≡ length core.old.scopes }
    ensures grown { length core.old.store ≤ length core.new.store }
    ensures stands { IfOk result (λ w. ViewStands (length core.new.store) (view_of w)) }
{
    end_event(core, e)?;
    Ok(View::of_value(Value::Obj(e.object)))
}
