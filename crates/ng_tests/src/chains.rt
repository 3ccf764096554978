//! The values under a walk of a chain that changes while it is walked.
ghost use Rattle.std.specs.Prelude.{◌≡◌, IsSome, IfSome};
ghost use Rattle.ng_chain.specs.Walked.{walk_at};

use ng_chain::chain::{Chain, Walk};

/// What a row does: it adds a value, takes all out, steps the walk, or reads the value under it.
#[derive(Clone, Copy, Debug)]
enum Does {
    Push(u64),
    Clear,
    Step,
    Value,
}

fn push(chain: &mut Chain<u64>, v: u64) -> u64
    ensures { chain.new.walks ≡ chain.old.walks }
{
    match chain.push(v) {
        Ok(t) => t.serial.0,
        Err(_) => 0,
    }
}

fn step(chain: &mut Chain<u64>, w: &mut Walk) -> u64
    requires { IsSome (walk_at chain.old.walks w.old.slot) }
    ensures open { IsSome (walk_at chain.new.walks w.old.slot) }
    ensures walk { w.new ≡ w.old }
{
    match chain.step(w) {
        Some(serial) => serial.0,
        None => 0,
    }
}

fn answer(chain: &mut Chain<u64>, w: &mut Walk, does: Does) -> u64
    requires { IsSome (walk_at chain.old.walks w.old.slot) }
    ensures open { IsSome (walk_at chain.new.walks w.old.slot) }
    ensures walk { w.new ≡ w.old }
{
    match does {
        Does::Push(v) => push(chain, v),
        Does::Clear => {
            chain.clear();
            0
        }
        Does::Step => step(chain, w),
        Does::Value => match chain.value(w) {
            Some(v) => *v,
            None => 0,
        },
    }
}

/// A walk that is open.
fn begin(chain: &mut Chain<u64>) -> Option<Walk>
    ensures { IfSome result (λ w. IsSome (walk_at chain.new.walks w.slot)) }
{
    chain.walk()
}

/// Two entries, 10 and 20, and a walk; what each row answers: a serial, a value, or 0 where there is none.
const ROWS: [(Does, u64); 12] = [
    (Does::Value, 0),
    (Does::Step, 1),
    (Does::Value, 10),
    (Does::Push(30), 3),
    (Does::Step, 2),
    (Does::Step, 0),
    (Does::Value, 20),
    (Does::Clear, 0),
    (Does::Value, 0),
    (Does::Push(70), 4),
    (Does::Step, 0),
    (Does::Value, 0),
];

#[test]
fn a_walk_has_the_value_that_stands_under_it(rt: HostRuntime) {
    let mut chain = Chain::new(rt.alloc());
    for v in [10, 20] {
        assert!(rt; push(&mut chain, v) > 0);
    }
    let Some(mut w) = begin(&mut chain) else {
        panic!(rt; "no walk");
    };
    for (does, want) in ROWS {
        let got = answer(&mut chain, &mut w, does);
        assert_eq!(rt; got, want, "at {does:?}");
    }
    assert_eq!(rt; chain.walks(), 1);
    chain.close(w);
    assert_eq!(rt; chain.walks(), 0);
}

#[test]
fn there_is_no_sixty_fifth_walk(rt: HostRuntime) {
    let mut chain: Chain<u64> = Chain::new(rt.alloc());
    for _ in 0..64 {
        match chain.walk() {
            Some(Walk { slot: _ }) => {}
            None => panic!(rt; "no walk"),
        }
    }
    match chain.walk() {
        Some(Walk { slot: _ }) => panic!(rt; "one walk too many"),
        None => {}
    }
}
