//! A small tree of scopes, walked before and after a scope dies.
ghost use Rattle.std.specs.Prelude.{◌<◌, length};
ghost use Rattle.ng_behaviour.specs.ScopeObjects.{AreAmong};

use ng_base::heap::ObjKind;
use ng_base::name::{Oid, ScopeId};
use ng_base::path::Path;
use ng_scopes::scopes::Scopes;
use ng_store::Store;

/// How a scope is made.
#[derive(Clone, Copy, Debug)]
enum Makes {
    Child,
    Isolate,
    Transcluded,
}

/// A scope under the root, if one was made.
fn add(scopes: &mut Scopes, store: &mut Store, makes: Makes) -> Option<ScopeId>
    requires root { 0 < length scopes.old }
    requires objects { AreAmong (length store.old) scopes.old }
    ensures objects { AreAmong (length store.new) scopes.new }
{
    let root = ScopeId(0);
    match makes {
        Makes::Child => scopes.new_child(store, root).ok(),
        Makes::Isolate => scopes.new_isolate(store, root).ok(),
        Makes::Transcluded => scopes.new_transcluded(store, root, root).ok(),
    }
}

/// The scopes behind the root's path, as digits.
fn walked(scopes: &Scopes, top: &Path) -> u32 {
    let mut last = top;
    let mut digits: u32 = 0;
    for _ in 0..9 {
        match scopes.next_after(last, top) {
            None => return digits,
            Some(s) => {
                digits = digits.wrapping_mul(10).wrapping_add(s.0);
                last = scopes.path(s);
            }
        }
    }
    digits
}

#[test]
#[tactic(auto, using(ng_scopes::proofs::Sound::sizes))]
fn a_walk_passes_over_the_dead(rt: HostRuntime) {
    let alloc = rt.alloc();
    let mut store = Store::new(alloc);
    let Ok(object) = store.make(ObjKind::Scope, None) else {
        panic!(rt; "no object");
    };
    let Ok(mut scopes) = Scopes::new(alloc, object) else {
        panic!(rt; "no scopes");
    };
    let top = Path::new(alloc);
    for makes in [Makes::Child, Makes::Isolate, Makes::Transcluded] {
        scopes.sound();
        assert!(rt; add(&mut scopes, &mut store, makes).is_some());
    }
    assert_eq!(rt; walked(&scopes, &top), 123);
    let Some(first) = scopes.next_after(&top, &top) else {
        panic!(rt; "no first one");
    };
    let Some(middle) = scopes.next_after(scopes.path(first), &top) else {
        panic!(rt; "no middle one");
    };
    scopes.mark_dead(middle);
    assert_eq!(rt; walked(&scopes, &top), 13);
    assert_eq!(rt; scopes.of_object(Oid(2)), Some(middle));
}
