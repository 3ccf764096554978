//! The tree of scopes.
ghost use Rattle.std.specs.Prelude.{◌≡◌, ◌+◌, ◌<◌, ◌≤◌, ◌++◌, ◌∷◌, [], Some, None, false, length, option_map, MatchOption, IfSome, IsOk, IfOk, IfErr, OnOk, OnErr};
ghost use Rattle.ng_base.specs.Meets.{Meets};
ghost use Rattle.ng_store.specs.Answers.{is_want};
ghost use Rattle.ng_behaviour.specs.Scopes.{root_of, with_child, without_scope, path_at, parent_at, object_at, live_at, at, of_object, next_scope, IsNextScope, NoneAhead, IsScopeTree, child_of};
ghost use Rattle.ng_behaviour.specs.ScopeObjects.{with_scope_object, named, AreAmong};
ghost use Rattle.ng_scopes.specs.Answers.{next_scope_name, next_number};
ghost use Rattle.ng_scopes.specs.Others.{LeavesOthers};
ghost use Rattle.ng_scopes.specs.Rows.{tree_of};

use crate::index::first_ahead;
use crate::objects::{OwnNames, make_object, name_scope};
use crate::rows::{Row, add, at_in, bury, children_in, of_object_in};
use ng_base::fault::Memory;
use ng_base::name::{Oid, ScopeId};
use ng_base::path::Path;
use ng_base::value::Value;
use ng_store::store::{Store, StoreFault};
use std::alloc::{AllocError, Global};
use std::collections::BTreeMap;
use std::marker::Model;

/// The scopes of a page, in order of making. Contracts see a list of scopes; the root is the first.
#[derive(Drop)]
pub struct Scopes {
    alloc: Global,
    names: OwnNames,
    rows: Vec<Row>,
    /// The live scopes by path.
    index: BTreeMap<Path, u32>,
}

impl Model for Scopes {
    ghost use Rattle.std.specs.Prelude.{List};
    ghost use Rattle.ng_behaviour.specs.Scopes.{Scope};

    ghost Value = { List Scope };

    ghost use Rattle.ng_scopes.specs.Rows.{tree_of, IsSound};

    ghost view = { λ s. tree_of s.rows.items };

    ghost invariant = { λ s. IsSound (tree_of s.rows.items) s.index };
}

impl Scopes {
    /// The root alone, over its object.
    pub fn new(alloc: Global, root: Oid) -> Result<Scopes, Memory>
        ensures root { IfOk result (λ scopes. scopes ≡ root_of root.0) }
        ensures refused { IfErr result (λ e. e ≡ Memory.Refused) }
    {
        let mut index = BTreeMap::new(alloc);
        let mut rows = Vec::new(alloc);
        index.insert(Path::new(alloc), 0)?;
        rows.push(Row {
            path: Path::new(alloc),
            parent: None,
            object: root.0,
            live: true,
            children: Vec::new(alloc),
        })?;
        let names = OwnNames::new(alloc)?;
        Ok(Scopes {
            alloc,
            names,
            rows,
            index,
        })
    }

    /// A child of a scope: its object inherits from the parent's (guide: Scopes, "Scope Hierarchies").
    pub fn new_child(&mut self, store: &mut Store, parent: ScopeId) -> Result<ScopeId, StoreFault>
        requires parent { parent.0 < length self.old }
        requires objects { AreAmong (length store.old) self.old }
        ensures answer { Meets is_want (next_scope_name self.old parent.0 store.old) result }
        ensures tree { OnOk result (self.new ≡ with_child self.old parent.0 (length store.old)) }
        ensures store { OnOk result (store.new ≡ with_scope_object store.old self.old (Some (object_at self.old parent.0)) parent.0) }
        ensures objects { AreAmong (length store.new) self.new }
        ensures kept { OnErr result (self.new ≡ self.old) }
        ensures unchanged { IfErr result (λ e. is_want e ≡ false → store.new ≡ store.old) }
    {
        let proto = self.object(parent);
        self.make_scope(store, Some(proto), parent)
    }

    /// A child of a scope whose object inherits from none (guide: Directives, "Isolating the Scope of a Directive").
    pub fn new_isolate(&mut self, store: &mut Store, parent: ScopeId) -> Result<ScopeId, StoreFault>
        requires parent { parent.0 < length self.old }
        requires objects { AreAmong (length store.old) self.old }
        ensures answer { Meets is_want (next_scope_name self.old parent.0 store.old) result }
        ensures tree { OnOk result (self.new ≡ with_child self.old parent.0 (length store.old)) }
        ensures store { OnOk result (store.new ≡ with_scope_object store.old self.old None parent.0) }
        ensures objects { AreAmong (length store.new) self.new }
        ensures kept { OnErr result (self.new ≡ self.old) }
        ensures unchanged { IfErr result (λ e. is_want e ≡ false → store.new ≡ store.old) }
    {
        self.make_scope(store, None, parent)
    }

    /// A child of the containing scope whose object inherits from the outer scope's
    /// (guide: Directives, "Creating a Directive that Wraps Other Elements").
    pub fn new_transcluded(
        &mut self,
        store: &mut Store,
        outer: ScopeId,
        containing: ScopeId,
    ) -> Result<ScopeId, StoreFault>
        requires outer { outer.0 < length self.old }
        requires containing { containing.0 < length self.old }
        requires objects { AreAmong (length store.old) self.old }
        ensures answer { Meets is_want (next_scope_name self.old containing.0 store.old) result }
        ensures tree { OnOk result (self.new ≡ with_child self.old containing.0 (length store.old)) }
        ensures store { OnOk result (store.new ≡ with_scope_object store.old self.old (Some (object_at self.old outer.0)) containing.0) }
        ensures objects { AreAmong (length store.new) self.new }
        ensures kept { OnErr result (self.new ≡ self.old) }
        ensures unchanged { IfErr result (λ e. is_want e ≡ false → store.new ≡ store.old) }
    {
        let proto = self.object(outer);
        self.make_scope(store, Some(proto), containing)
    }

    /// A scope under a container, whose object inherits from `proto`.
    #[tactic(auto, using(crate::proofs::Sound::grown))]
    fn make_scope(
        &mut self,
        store: &mut Store,
        proto: Option<Oid>,
        container: ScopeId,
    ) -> Result<ScopeId, StoreFault>
        requires proto { IfSome proto (λ p. p.0 < length store.old) }
        requires container { container.0 < length self.old }
        requires objects { AreAmong (length store.old) self.old }
        ensures answer { Meets is_want (next_scope_name self.old container.0 store.old) result }
        ensures tree { OnOk result (self.new ≡ with_child self.old container.0 (length store.old)) }
        ensures store { OnOk result (store.new ≡ with_scope_object store.old self.old (option_map (λ p. p.0) proto) container.0) }
        ensures objects { AreAmong (length store.new) self.new }
        ensures kept { OnErr result (self.new ≡ self.old) }
        ensures unchanged { IfErr result (λ e. is_want e ≡ false → store.new ≡ store.old) }
    {
        let id = match self.next_id(container) {
            Ok(id) => id,
            Err(m) => return Err(StoreFault::Memory(m)),
        };
        let parent = self.object(container);
        let root = self.object(ScopeId(0));
        let object = make_object(store, &self.names, proto, id + 1, parent, root)?;
        self.add(container, object)?;
        Ok(ScopeId(id))
    }

    /// The number of the next scope, unless a counter stands at its last value.
    #[tactic(auto, using(crate::proofs::TreeOf::reads))]
    fn next_id(&self, container: ScopeId) -> Result<u32, Memory>
        requires { container.0 < length self.now }
        ensures { result ≡ next_number self.now container.0 }
    {
        let count = self.rows.len();
        let children = children_in(self.rows.as_slice(), container.0 as usize);
        if count >= u32::MAX as usize || children >= u32::MAX as usize {
            return Err(Memory::Worn);
        }
        Ok(count as u32)
    }

    /// Adds a scope over an object that was made just now.
    fn add(&mut self, container: ScopeId, object: Oid) -> Result<(), AllocError>
        requires container { container.0 < length self.old }
        requires number { IsOk (next_number self.old container.0) }
        requires object { AreAmong object.0 self.old }
        ensures ok { OnOk result (self.new ≡ with_child self.old container.0 object.0) }
        ensures err { OnErr result (self.new ≡ self.old) }
    {
        add(
            &mut self.rows,
            &mut self.index,
            self.alloc,
            container.0 as usize,
            object.0,
        )
    }

    /// Gives the root's object the names of a scope: its number is 1, its parent null.
    #[tactic(auto, using(crate::proofs::Sound::grown))]
    pub fn name_root(&self, store: &mut Store) -> Result<(), Memory>
        requires { AreAmong (length store.old) self.now }
        ensures ok { OnOk result (store.new ≡ named store.old (object_at self.now 0) 1 Value.Null (object_at self.now 0)) }
        ensures others { LeavesOthers store.old (object_at self.now 0) store.new }
        ensures len { length store.new ≡ length store.old }
        ensures refused { IfErr result (λ e. e ≡ Memory.Refused) }
    {
        let names = &self.names;
        let root = self.object(ScopeId(0));
        name_scope(store, names, root, 1, Value::Null, root)
    }

    /// What holds of every tree of scopes: paths lead to their scopes, and no scope is live below one that is not.
    pub fn sound(&self)
        ensures { IsScopeTree self.now }
    {
        let _ = &self.rows;
    }

    /// Whether a scope is live.
    #[tactic(auto, using(crate::proofs::TreeOf::reads))]
    pub fn is_live(&self, s: ScopeId) -> bool
        requires { s.0 < length self.now }
        ensures { result ≡ live_at self.now s.0 }
    {
        let row = &self.rows[s.0 as usize];
        row.live
    }

    /// The scope whose child it is.
    #[tactic(auto, using(crate::proofs::TreeOf::reads))]
    pub fn parent(&self, s: ScopeId) -> Option<ScopeId>
        requires { s.0 < length self.now }
        ensures { option_map (λ p. p.0) result ≡ parent_at self.now s.0 }
    {
        let row = &self.rows[s.0 as usize];
        match row.parent {
            None => None,
            Some(p) => Some(ScopeId(p)),
        }
    }

    /// The object of a scope.
    #[tactic(auto, using(crate::proofs::TreeOf::reads))]
    pub fn object(&self, s: ScopeId) -> Oid
        requires { s.0 < length self.now }
        ensures { result.0 ≡ object_at self.now s.0 }
    {
        let row = &self.rows[s.0 as usize];
        Oid(row.object)
    }

    /// The path of a scope.
    #[tactic(auto, using(crate::proofs::TreeOf::reads))]
    pub fn path(&self, s: ScopeId) -> &Path
        requires { s.0 < length self.now }
        ensures { result.now ≡ path_at self.now s.0 }
    {
        let row = &self.rows[s.0 as usize];
        &row.path
    }

    /// The scope of an object.
    pub fn of_object(&self, o: Oid) -> Option<ScopeId>
        ensures { option_map (λ s. s.0) result ≡ of_object self.now o.0 }
    {
        let s = of_object_in(self.rows.as_slice(), o.0)?;
        Some(ScopeId(s))
    }

    /// The scope of a path, live or not.
    pub fn at(&self, p: &Path) -> Option<ScopeId>
        ensures { option_map (λ s. s.0) result ≡ at self.now p.now }
    {
        let s = at_in(self.rows.as_slice(), p.as_slice())?;
        Some(ScopeId(s))
    }

    /// The scope and all scopes below it are not live.
    pub fn mark_dead(&mut self, s: ScopeId)
        requires { s.0 < length self.old }
        ensures { self.new ≡ without_scope self.old s.0 }
    {
        bury(&mut self.rows, &mut self.index, s.0 as usize);
    }

    /// The live scope of the least path above `p` that has `under` as a prefix.
    pub fn next_after(&self, p: &Path, under: &Path) -> Option<ScopeId>
        ensures next { option_map (λ s. s.0) result ≡ next_scope self.now p.now under.now }
        ensures least { MatchOption result (NoneAhead self.now p.now under.now) (λ s. IsNextScope self.now p.now under.now s.0) }
    {
        match first_ahead(&self.index, p, under) {
            None => None,
            Some(s) => Some(ScopeId(s)),
        }
    }
}
