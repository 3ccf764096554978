//! The core that a page begins with, and what may be read of a core.
ghost use Rattle.std.specs.Prelude.{◌≡◌, ◌<◌, ◌≤◌, ◌∷◌, [], length, IfOk, IfErr, None};
ghost use Rattle.serde_json.specs.View.{view};
ghost use Rattle.ng_base.specs.declared.heap.ObjKind.TheVariants.{Scope as a_scope};
ghost use Rattle.ng_language.specs.Objects.{new_object};
ghost use Rattle.ng_write.specs.Facts.{Reads, facts_entered};
ghost use Rattle.ng_core.specs.Beginning.{members_in, first_objects, first_state, BeginsWith};
ghost use Rattle.ng_core.specs.Frames.{state_of, held, IsSound};
ghost use Rattle.ng_core.specs.State.{with_fault};
ghost use Rattle.ng_behaviour.specs.Scopes.{root_of};

use crate::core_state::{Core, Handed, noted};
use crate::event_names::EventNames;
use ng_base::fault::{Fault, Memory};
use ng_base::heap::ObjKind;
use ng_base::locals::Locals;
use ng_base::name::{Oid, ScopeId, Serial};
use ng_events::listeners::Listeners;
use ng_scopes::scopes::Scopes;
use ng_store::{JsonFault, Store};
use ng_write::facts::enter_facts;
use serde_json::Value as Json;
use std::alloc::Global;
use std::collections::VecDeque;

/// The object of the root scope, in a store of its own.
fn root_store(alloc: Global) -> Result<Store, Memory>
    ensures made { IfOk result (λ store. store ≡ new_object a_scope None ∷ []) }
    ensures refused { IfErr result (λ e. e ≡ Memory.Refused) }
{
    let mut store = Store::new(alloc);
    match store.make(ObjKind::Scope, None) {
        Ok(_) => Ok(store),
        Err(_) => Err(Memory::Refused),
    }
}

/// The core over the objects that a page begins with.
#[tactic(auto, using(crate::proofs::FirstCore::first))]
fn core_over(alloc: Global, store: Store, scopes: Scopes, event_names: EventNames) -> Core
    requires store { 0 < length store }
    requires scopes { scopes ≡ root_of 0 }
    ensures state { state_of result ≡ first_state store }
    ensures sound { IsSound result }
    ensures depth { result.depth ≡ 0 }
{
    Core {
        store,
        scopes,
        listeners: Listeners::new(alloc),
        funs: Vec::new(alloc),
        locals: Locals::new(alloc),
        stopped: Vec::new(alloc),
        tasks: VecDeque::new(alloc),
        probes: Vec::new(alloc),
        changes: Vec::new(alloc),
        serial: Serial(0),
        bodies: 0,
        depth: 0,
        handed: Handed {
            count: 0,
            first: None,
        },
        event_names,
    }
}

/// The members of the data become names of the root scope's object.
fn enter(alloc: Global, store: &mut Store, facts: Json) -> Result<(), JsonFault>
    requires { 0 < length store.old }
    ensures entered { Reads (facts_entered store.old 0 (members_in (view facts))) store.new result }
    ensures grown { length store.old ≤ length store.new }
{
    match facts {
        Json::Object(members) => enter_facts(alloc, store, Oid(0), members),
        _ => Ok(()),
    }
}

impl Core {
    /// The core of a page that begins with data, a JSON object: it is the root scope's own object (guide: Scopes, "Scope
    /// Hierarchies"), which keeps its `$id`, `$parent` and `$root`. The data is taken, and dropped as it is read.
    #[tactic(auto, using(crate::proofs::FirstCore::first))]
    pub fn of_facts(alloc: Global, facts: Json) -> Result<Core, JsonFault>
        ensures data { BeginsWith (λ core. core.store) (first_objects (view facts)) result }
        ensures state { IfOk result (λ core. state_of core ≡ first_state core.store) }
        ensures sound { IfOk result IsSound }
        ensures depth { IfOk result (λ core. core.depth ≡ 0) }
    {
        let mut store = root_store(alloc)?;
        let scopes = Scopes::new(alloc, Oid(0))?;
        scopes.name_root(&mut store)?;
        enter(alloc, &mut store, facts)?;
        let event_names = EventNames::new(alloc)?;
        Ok(core_over(alloc, store, scopes, event_names))
    }

    /// The same core, of data that is kept: of a copy of it.
    pub fn new(alloc: Global, facts: &Json) -> Result<Core, JsonFault>
        ensures data { BeginsWith (λ core. core.store) (first_objects (view facts.now)) result }
        ensures state { IfOk result (λ core. state_of core ≡ first_state core.store) }
        ensures sound { IfOk result IsSound }
        ensures depth { IfOk result (λ core. core.depth ≡ 0) }
    {
        Core::of_facts(alloc, facts.clone()?)
    }

    /// The objects.
    pub fn store(&self) -> &Store
        ensures { result.now ≡ (state_of self.now).objects }
    {
        &self.store
    }

    /// The scopes.
    pub fn scopes(&self) -> &Scopes
        ensures { result.now ≡ (state_of self.now).scopes }
    {
        &self.scopes
    }

    /// The root scope.
    pub fn root() -> ScopeId
        ensures { result.0 ≡ 0 }
    {
        ScopeId(0)
    }

    /// A fault is handed over.
    #[tactic(auto, using(crate::proofs::SoundCores::grown))]
    pub fn hand_over(&mut self, f: Fault)
        ensures run { state_of self.new ≡ with_fault f (state_of self.old) }
        ensures sound { IsSound self.old → IsSound self.new }
        ensures held { held self.new ≡ held self.old }
        ensures depth { self.new.depth ≡ self.old.depth }
        ensures scopes { self.new.scopes ≡ self.old.scopes }
        ensures store { self.new.store ≡ self.old.store }
    {
        self.handed = noted(self.handed, f);
    }
}
