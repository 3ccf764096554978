//! `$event`, the object of a dispatch (API: ngClick; guide: Expressions, "$event").
ghost use Rattle.std.specs.Prelude.{◌≡◌, ◌<◌, ◌≤◌, length, IfOk, OnOk};
ghost use Rattle.serde_json.specs.Data.{member, no_members};
ghost use Rattle.serde_json.specs.View.{view, members_view};
ghost use Rattle.ng_core.specs.Frames as cores;
ghost use Rattle.ng_core.specs.Frames.{IsSound, Acts};
ghost use Rattle.ng_core.specs.Beginning.{members_in};
ghost use Rattle.ng_base.specs.Views.{prim};
ghost use Rattle.ng_language.specs.Operators.{truthy};
ghost use Rattle.ng_commands.specs.EventObject.{extra_set, typed_event, event_objects, event_refusal, event_run, is_set, is_cancelled};
ghost use Rattle.ng_commands.specs.HandlingOf.{number};

use crate::counting::{count, is_whole};
use ng_base::fault::{Fault, Memory};
use ng_base::heap::ObjKind;
use ng_base::name::Oid;
use ng_base::txt::Txt;
use ng_base::value::Value;
use ng_base::view::View;
use ng_core::core_state::Core;
use ng_store::json::JsonFault;
use ng_store::store::{Store, StoreFault};
use ng_value::operators::truthy;
use serde_json::{Map, Value as Json};
use std::alloc::Global;

/// As many objects stand at most.
const OBJECT_LIMIT: u64 = 1_000_000;

/// Why the objects of an event can't be made.
fn event_refusal(store: &Store, extra: &Json) -> Option<Fault>
    ensures { result ≡ event_refusal store.now (view extra.now) }
{
    if !is_whole(extra) {
        return Some(Fault::Range);
    }
    if (store.count() as u64).saturating_add(u64::from(count(extra))) > OBJECT_LIMIT {
        return Some(Fault::StoreFull);
    }
    None
}

/// An event object more, of a type.
#[tactic(auto, using(ng_write::proofs::More::as_many, ng_write::proofs::More::more_by_some))]
fn typed_event(store: &mut Store, alloc: Global, name: &Txt) -> Result<Oid, Memory>
    ensures made { OnOk result (store.new ≡ typed_event store.old name.now) }
    ensures object { IfOk result (λ o. o.0 ≡ length store.old) }
    ensures below { IfOk result (λ o. o.0 < length store.new) }
    ensures grown { length store.old ≤ length store.new }
{
    let event = match store.make(ObjKind::Event, None) {
        Ok(event) => event,
        Err(StoreFault::Full) => return Err(Memory::Worn),
        Err(StoreFault::Memory(memory)) => return Err(memory),
    };
    let kind = name.copied()?;
    let mut word = Txt::new(alloc);
    word.push_word("type")?;
    store.set(event, &word, Value::Text(kind))?;
    Ok(event)
}

/// A name of JSON is set on an object that stands.
#[tactic(auto, using(ng_write::proofs::More::as_many, ng_write::proofs::More::more_by_some))]
fn set_member(store: &mut Store, alloc: Global, o: Oid, name: &str, v: &Json) -> Result<(), Memory>
    requires { o.0 < length store.old }
    ensures set { OnOk result (store.new ≡ extra_set store.old o.0 (member name.now (view v.now) no_members)) }
    ensures grown { length store.old ≤ length store.new }
{
    let name = Txt::from_str(alloc, name)?;
    let value = match store.of_json(v) {
        Ok(value) => value,
        Err(JsonFault::Memory(memory)) => return Err(memory),
        Err(_) => return Err(Memory::Worn),
    };
    store.set(o, &name, value)
}

/// The names of JSON are set on an object that stands, one after another.
fn set_members(
    store: &mut Store,
    alloc: Global,
    o: Oid,
    extra: &Map<String, Json>,
) -> Result<(), Memory>
    requires { o.0 < length store.old }
    ensures set { OnOk result (store.new ≡ extra_set store.old o.0 (members_view extra.now.entries)) }
    ensures grown { length store.old ≤ length store.new }
{
    for (name, v) in extra {
        set_member(store, alloc, o, name.as_str(), v)?;
    }
    Ok(())
}

/// The names of a JSON object are set on an object that stands.
fn set_extra(store: &mut Store, alloc: Global, o: Oid, extra: &Json) -> Result<(), Memory>
    requires { o.0 < length store.old }
    ensures set { OnOk result (store.new ≡ extra_set store.old o.0 (members_in (view extra.now))) }
    ensures grown { length store.old ≤ length store.new }
{
    match extra {
        Json::Object(members) => set_members(store, alloc, o, members),
        _ => Ok(()),
    }
}

/// The objects of an event.
fn event_objects(store: &mut Store, alloc: Global, name: &Txt, extra: &Json) -> Result<Oid, Memory>
    ensures made { OnOk result (store.new ≡ event_objects store.old name.now (view extra.now)) }
    ensures object { IfOk result (λ o. o.0 ≡ length store.old) }
    ensures below { IfOk result (λ o. o.0 < length store.new) }
    ensures grown { length store.old ≤ length store.new }
{
    let event = typed_event(store, alloc, name)?;
    set_extra(store, alloc, event, extra)?;
    Ok(event)
}

/// `$event` is made, or it is told why it can't be. Nothing is made then.
pub(crate) fn make_event(
    core: &mut Core,
    alloc: Global,
    name: &Txt,
    extra: &Json,
) -> Result<Oid, Fault>
    requires sound { IsSound core.old }
    ensures run { Acts number result (cores.state_of core.new) (event_run name.now (view extra.now) (cores.state_of core.old)) }
    ensures below { IfOk result (λ o. o.0 < length core.new.store) }
    ensures sound { IsSound core.new }
    ensures depth { core.new.depth ≡ core.old.depth }
    ensures scopes { core.new.scopes ≡ core.old.scopes }
    ensures grown { length core.old.store ≤ length core.new.store }
{
    if let Some(fault) = event_refusal(&core.store, extra) {
        return Err(fault);
    }
    Ok(event_objects(&mut core.store, alloc, name, extra)?)
}

/// Whether a value counts as true.
fn counts(v: &Value) -> Result<bool, Memory>
    ensures { IfOk result (λ b. b ≡ truthy (prim v.now)) }
{
    Ok(truthy(&View::of_value(v.copied()?)))
}

/// Whether a name of an object counts as true.
fn is_set(store: &Store, o: Oid, name: &Txt) -> Result<bool, Memory>
    requires { o.0 < length store.now }
    ensures { IfOk result (λ b. b ≡ is_set store.now o.0 name.now) }
{
    match store.look(o, name) {
        None => Ok(false),
        Some(v) => counts(v),
    }
}

/// Whether `cancelBubble` of an event counts as true.
pub fn is_cancelled(store: &Store, alloc: Global, o: Oid) -> Result<bool, Memory>
    requires { o.0 < length store.now }
    ensures { IfOk result (λ b. b ≡ is_cancelled store.now o.0) }
{
    let mut name = Txt::new(alloc);
    name.push_word("cancelBubble")?;
    is_set(store, o, &name)
}
