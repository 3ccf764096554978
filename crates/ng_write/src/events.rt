//! What the methods of an event object write.
ghost use Rattle.std.specs.Prelude.{◌≡◌, ◌<◌, length, OnOk, OnErr};
ghost use Rattle.ng_base.specs.Objects.{StandsAmong};
ghost use Rattle.ng_base.specs.Word.{IsWord};
ghost use Rattle.ng_language.specs.Objects.{set_name};
ghost use Rattle.ng_write.specs.Events.{event_call_named, set_by, event_called};

use ng_base::fault::Memory;
use ng_base::name::Oid;
use ng_base::txt::Txt;
use ng_base::value::Value;
use ng_store::Store;
use std::alloc::Global;

/// A method of an event object.
#[derive(Clone, Copy, Debug, PartialEq, Eq)]
pub enum EventCall {
    StopPropagation,
    PreventDefault,
}

/// The method of an event object of a name.
pub fn event_call_named(name: &Txt) -> Option<EventCall>
    ensures { result ≡ event_call_named name.now }
{
    if name.is_word("stopPropagation") {
        Some(EventCall::StopPropagation)
    } else if name.is_word("preventDefault") {
        Some(EventCall::PreventDefault)
    } else {
        None
    }
}

/// Sets a name that is given as a word.
#[tactic(auto, using(crate::proofs::More::as_many))]
fn set_word(
    alloc: Global,
    store: &mut Store,
    o: Oid,
    word: &str,
    value: Value,
) -> Result<(), Memory>
    requires word { IsWord word.now }
    requires object { o.0 < length store.old }
    requires value { StandsAmong (length store.old) value }
    ensures set { OnOk result (store.new ≡ set_name store.old o.0 word.now value) }
    ensures unchanged { OnErr result (store.new ≡ store.old) }
    ensures len { length store.new ≡ length store.old }
{
    let mut name = Txt::new(alloc);
    name.push_word(word)?;
    store.set(o, &name, value)
}

/// Sets the property of a method of an event object.
pub fn call_event(alloc: Global, store: &mut Store, o: Oid, call: EventCall) -> Result<(), Memory>
    requires { o.0 < length store.old }
    ensures called { OnOk result (store.new ≡ event_called store.old o.0 call) }
    ensures unchanged { OnErr result (store.new ≡ store.old) }
    ensures len { length store.new ≡ length store.old }
{
    match call {
        EventCall::StopPropagation => {
            set_word(alloc, store, o, "cancelBubble", Value::Bool(true))
        }
        EventCall::PreventDefault => {
            set_word(alloc, store, o, "defaultPrevented", Value::Bool(true))
        }
    }
}
