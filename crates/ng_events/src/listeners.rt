//! The listeners of all scopes.
ghost use Rattle.std.specs.Prelude.{◌≡◌, ◌+◌, ◌<◌, ◌↔◌, [], Some, None, IsTrue, IsSome, is_some, length, option_map, IsNone, IfNone, IfSome, OnOk, OnErr, ℕ, List};
ghost use Rattle.ng_behaviour.specs.Listeners.{with_listener, without_listener, without_listeners_of, called, last_of};
ghost use Rattle.ng_events.specs.Stands.{lists_of, walks_at, open_of, IsOpen, Begins, Goes, Ends, listening};
ghost use Rattle.ng_parse.specs.ProgramOf.{program};

use crate::names::place_in;
pub use crate::stands::EventWalk;
use crate::stands::{Home, Listener, Stand, close_in, hear_in, walk_in};
use crate::table::{add_listener, drop_listener, find_listener, list_of, quiet_scope};
use ng_base::fault::Memory;
use ng_base::name::{FunId, ScopeId};
use ng_base::txt::Txt;
use ng_parse::Program;
use std::alloc::Global;
use std::collections::BTreeMap;
use std::marker::Model;

/// Who listens to what.
#[derive(Drop)]
pub struct Listeners {
    alloc: Global,
    stands: Vec<Stand>,
    /// Where the list of a scope and a name stands.
    names: BTreeMap<u32, BTreeMap<Txt, usize>>,
    /// Where a listener stands.
    homes: BTreeMap<u32, Home>,
    /// How many walks are open, and how many of them over no list.
    walks: u32,
    bare: u32,
}

impl Model for Listeners {
    ghost use Rattle.ng_events.specs.Stands.{Table};
    ghost use Rattle.ng_events.specs.Sound.{IsSound};
    ghost use Rattle.ng_events.specs.contracts.stands.Stand as stand;
    ghost use Rattle.std.specs.Coded.{codes};

    ghost Value = { Table };

    ghost coded = { Prim.hlevel (codes, stand.the_row.coded) };

    ghost view = { λ l. record { stands = l.stands.items; bare = l.bare } };

    ghost invariant = { λ l. IsSound l.stands.items l.names l.homes l.walks l.bare };
}

impl Listeners {
    /// Nobody listens.
    pub fn new(alloc: Global) -> Listeners
        ensures { result ≡ record { stands = []; bare = 0 } }
    {
        Listeners {
            alloc,
            stands: Vec::new(alloc),
            names: BTreeMap::new(alloc),
            homes: BTreeMap::new(alloc),
            walks: 0,
            bare: 0,
        }
    }

    /// Registers a listener under a name that is new, at the end of its list.
    pub fn on(&mut self, scope: ScopeId, name: &Txt, body: Program, id: FunId) -> Result<(), Memory>
        requires { called (lists_of self.old) id.0 ≡ None }
        ensures ok { OnOk result (lists_of self.new ≡ with_listener (lists_of self.old) scope.0 name.now (record { id = id.0; body = program body })) }
        ensures walks { walks_at self.new ≡ walks_at self.old }
        ensures bare { self.new.bare ≡ self.old.bare }
        ensures open { open_of self.new ≡ open_of self.old }
        ensures worn { (result ≡ Err Memory.Worn) ↔ (last_of (lists_of self.old) scope.0 name.now ≡ u64.MAX) }
        ensures stays { OnErr result ((s : ℕ) (n : List ℕ) → listening (lists_of self.new) s n ≡ listening (lists_of self.old) s n) }
    {
        let listener = Listener { id, body };
        let list = list_of(&mut self.stands, &mut self.names, self.alloc, scope.0, name)?;
        add_listener(&mut self.stands, &mut self.homes, list, listener)
    }

    /// Takes a listener out; whether it stood.
    pub fn off(&mut self, id: FunId) -> bool
        ensures stood { result ≡ is_some (called (lists_of self.old) id.0) }
        ensures lists { lists_of self.new ≡ without_listener (lists_of self.old) id.0 }
        ensures walks { walks_at self.new ≡ walks_at self.old }
        ensures bare { self.new.bare ≡ self.old.bare }
        ensures open { open_of self.new ≡ open_of self.old }
    {
        drop_listener(&mut self.stands, &mut self.homes, id.0)
    }

    /// The program of a listener, where it stands.
    pub fn body(&self, id: FunId) -> Option<&Program>
        ensures { option_map (λ p. program p.now) result ≡ option_map (λ l. l.body) (called (lists_of self.now) id.0) }
    {
        match find_listener(self.stands.as_slice(), &self.homes, id.0) {
            None => None,
            Some(listener) => Some(&listener.body),
        }
    }

    /// Begins a walk over the listeners that stand at a scope for a name (guide: Scopes, "Scope Events Propagation").
    pub fn begin(&mut self, scope: ScopeId, name: &Txt) -> Option<EventWalk>
        ensures full { IsNone result ↔ (open_of self.old ≡ 64) }
        ensures unchanged { IfNone result (self.new ≡ self.old) }
        ensures lists { lists_of self.new ≡ lists_of self.old }
        ensures walk { IfSome result (λ w. Begins self.old scope.0 name.now w self.new) }
        ensures open { IfSome result (λ _. open_of self.new ≡ open_of self.old + 1) }
        ensures is_open { IfSome result (IsOpen self.new) }
    {
        if self.walks >= 64 {
            return None;
        }
        self.walks += 1;
        match place_in(&self.names, scope.0, name) {
            None => {
                self.bare += 1;
                Some(EventWalk::Bare)
            }
            Some(list) => match walk_in(&mut self.stands, list) {
                None => unreachable!(),
                Some(walk) => Some(EventWalk::On(list, walk)),
            },
        }
    }

    /// The next of the listeners that stood when the walk began and still stand.
    pub fn next(&mut self, w: &mut EventWalk) -> Option<FunId>
        requires open { IsOpen self.old w.old }
        ensures lists { lists_of self.new ≡ lists_of self.old }
        ensures goes { Goes self.old w.old result self.new }
        ensures bare { self.new.bare ≡ self.old.bare }
        ensures open { open_of self.new ≡ open_of self.old }
        ensures still { IsOpen self.new w.new }
        ensures walk { w.new ≡ w.old }
    {
        match w {
            EventWalk::Bare => None,
            EventWalk::On(list, walk) => hear_in(&mut self.stands, *list, walk),
        }
    }

    /// Ends a walk.
    pub fn end(&mut self, w: EventWalk)
        requires open { IsOpen self.old w }
        ensures lists { lists_of self.new ≡ lists_of self.old }
        ensures ends { Ends self.old w self.new }
        ensures open { open_of self.new + 1 ≡ open_of self.old }
    {
        self.walks -= 1;
        match w {
            EventWalk::Bare => self.bare -= 1,
            EventWalk::On(list, walk) => close_in(&mut self.stands, list, walk),
        }
    }

    /// Takes the listeners of a scope out.
    pub fn drop_scope(&mut self, s: ScopeId)
        ensures lists { lists_of self.new ≡ without_listeners_of (lists_of self.old) s.0 }
        ensures walks { walks_at self.new ≡ walks_at self.old }
        ensures bare { self.new.bare ≡ self.old.bare }
        ensures open { open_of self.new ≡ open_of self.old }
    {
        quiet_scope(&mut self.stands, &mut self.homes, &self.names, s.0);
    }
}
