//! Scopes that are made, and met in the order of their paths.
ghost use Rattle.std.specs.Prelude.{length};
ghost use Rattle.ng_behaviour.specs.ScopeObjects.{AreAmong};

use ng_base::heap::ObjKind;
use ng_base::name::ScopeId;
use ng_base::path::Path;
use ng_scopes::scopes::Scopes;
use ng_store::store::Store;
use std::alloc::Global;

/// A child of the root more.
#[tactic(auto, using(crate::proofs::Sizes::sizes))]
fn add(scopes: &mut Scopes, store: &mut Store) -> Option<()>
    requires objects { AreAmong (length store.old) scopes.old }
    ensures objects { AreAmong (length store.new) scopes.new }
{
    scopes.sound();
    scopes.new_child(store, ScopeId(0)).ok()?;
    Some(())
}

/// How many scopes `next_after` meets behind the root, of so many at most.
fn met(scopes: &Scopes, top: &Path, size: u64) -> u64 {
    let mut last = top;
    let mut count: u64 = 0;
    for _ in 0..size {
        match scopes.next_after(last, top) {
            None => return count,
            Some(s) => {
                count = count.saturating_add(1);
                last = scopes.path(s);
            }
        }
    }
    count
}

/// Makes so many scopes below the root, and meets them.
#[tactic(auto, using(crate::proofs::Sizes::sizes))]
pub(crate) fn walked(alloc: Global, size: u64) -> Option<u64> {
    let mut store = Store::new(alloc);
    let object = store.make(ObjKind::Scope, None).ok()?;
    let mut scopes = Scopes::new(alloc, object).ok()?;
    for _ in 0..size {
        add(&mut scopes, &mut store)?;
    }
    let top = Path::new(alloc);
    Some(met(&scopes, &top, size))
}
