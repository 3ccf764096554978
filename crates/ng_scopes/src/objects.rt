//! The objects of scopes, with the names that they have of their own.
ghost use Rattle.std.specs.Prelude.{◌≡◌, ◌<◌, ◌≤◌, ◌^◌, ◌++◌, ◌∷◌, [], false, length, option_map, IfSome, IfOk, IfErr, OnOk, OnErr};
ghost use Rattle.ng_base.specs.Meets.{Meets};
ghost use Rattle.ng_base.specs.Objects.{StandsAmong};
ghost use Rattle.ng_base.specs.Word.{IsWord};
ghost use Rattle.ng_base.specs.declared.heap.ObjKind.TheVariants.{Scope as a_scope};
ghost use Rattle.ng_language.specs.Objects.{new_object, set_name};
ghost use Rattle.ng_store.specs.Answers.{is_want, next_name};
ghost use Rattle.ng_scopes.specs.Others.{LeavesOthers};
ghost use Rattle.ng_behaviour.specs.ScopeObjects.{named, id_name, parent_name, root_name};

use ng_base::fault::Memory;
use ng_base::heap::ObjKind;
use ng_base::name::Oid;
use ng_base::txt::Txt;
use ng_base::value::Value;
use ng_store::store::{Store, StoreFault};
use std::alloc::{AllocError, Global};
use std::marker::Model;

/// The names that the object of each scope has of its own. All objects share their characters.
#[derive(Drop)]
pub struct OwnNames {
    id: Txt,
    parent: Txt,
    root: Txt,
}

impl Model for OwnNames {
    ghost use Rattle.std.specs.Prelude.{List, ℕ, ◌≡◌, ◌∷◌, []};
    ghost use Rattle.ng_behaviour.specs.ScopeObjects.{id_name, parent_name, root_name};

    ghost Value = { List (List ℕ) };

    ghost view = { λ n. n.id ∷ n.parent ∷ n.root ∷ [] };

    ghost invariant = { λ n. (n.id ≡ id_name) × ((n.parent ≡ parent_name) × (n.root ≡ root_name)) };
}

/// A word of ASCII characters as a text.
fn text_of(alloc: Global, word: &str) -> Result<Txt, AllocError>
    requires { IsWord word.now }
    ensures { IfOk result (λ t. t ≡ word.now) }
{
    let mut text = Txt::new(alloc);
    text.push_word(word)?;
    Ok(text)
}

impl OwnNames {
    pub fn new(alloc: Global) -> Result<OwnNames, AllocError>
        ensures { IfOk result (λ n. n ≡ id_name ∷ parent_name ∷ root_name ∷ []) }
    {
        Ok(OwnNames {
            id: text_of(alloc, "$id")?,
            parent: text_of(alloc, "$parent")?,
            root: text_of(alloc, "$root")?,
        })
    }

    fn id(&self) -> &Txt
        ensures { result.now ≡ id_name }
    {
        &self.id
    }

    fn parent(&self) -> &Txt
        ensures { result.now ≡ parent_name }
    {
        &self.parent
    }

    fn root(&self) -> &Txt
        ensures { result.now ≡ root_name }
    {
        &self.root
    }
}

/// Gives an object a name.
#[tactic(auto, using(crate::proofs::Lengths::kept))]
fn give(store: &mut Store, object: Oid, name: &Txt, value: Value) -> Result<(), Memory>
    requires object { object.0 < length store.old }
    requires value { StandsAmong (length store.old) value }
    ensures ok { OnOk result (store.new ≡ set_name store.old object.0 name.now value) }
    ensures others { LeavesOthers store.old object.0 store.new }
    ensures len { length store.new ≡ length store.old }
    ensures refused { IfErr result (λ e. e ≡ Memory.Refused) }
{
    store.set(object, name, value)
}

/// Gives an object the names of a scope: its number, its parent and the root.
pub fn name_scope(
    store: &mut Store,
    names: &OwnNames,
    object: Oid,
    id: u32,
    parent: Value,
    root: Oid,
) -> Result<(), Memory>
    requires object { object.0 < length store.old }
    requires parent { StandsAmong (length store.old) parent }
    requires root { root.0 < length store.old }
    ensures ok { OnOk result (store.new ≡ named store.old object.0 id parent root.0) }
    ensures others { LeavesOthers store.old object.0 store.new }
    ensures len { length store.new ≡ length store.old }
    ensures refused { IfErr result (λ e. e ≡ Memory.Refused) }
{
    give(store, object, names.id(), Value::Int(i64::from(id)))?;
    give(store, object, names.parent(), parent)?;
    give(store, object, names.root(), Value::Obj(root))
}

/// A new object of a scope, with the names that it has of its own.
pub fn make_object(
    store: &mut Store,
    names: &OwnNames,
    proto: Option<Oid>,
    id: u32,
    parent: Oid,
    root: Oid,
) -> Result<Oid, StoreFault>
    requires proto { IfSome proto (λ p. p.0 < length store.old) }
    requires parent { parent.0 < length store.old }
    requires root { root.0 < length store.old }
    ensures answer { Meets is_want (next_name store.old) result }
    ensures ok { OnOk result (store.new ≡ named (store.old ++ new_object a_scope (option_map (λ p. p.0) proto) ∷ []) (length store.old) id (Value.Obj parent) root.0) }
    ensures grown { length store.old ≤ length store.new }
    ensures longer { OnOk result (length store.old < length store.new) }
    ensures unchanged { IfErr result (λ e. is_want e ≡ false → store.new ≡ store.old) }
{
    let object = store.make(ObjKind::Scope, proto)?;
    match name_scope(store, names, object, id, Value::Obj(parent), root) {
        Ok(()) => Ok(object),
        Err(m) => Err(StoreFault::Memory(m)),
    }
}
