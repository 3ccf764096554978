//! Where the hole of a text that is refused is at fault, and why, which a run doesn't tell (guide: Interpolation).
use ng_interp::{InterpFault, InterpKind, split};
use std::alloc::Global;

fn kind_of(fault: &InterpFault) -> &'static str {
    match fault.kind {
        InterpKind::Lex(_) => "Lex",
        InterpKind::Parse(_) => "Parse",
        InterpKind::Memory(_) => "Memory",
    }
}

/// What refused a hole, and the place.
fn refused(alloc: Global, text: &str) -> (&'static str, u64) {
    match split(alloc, text) {
        Ok(_) => ("none", 0),
        Err(fault) => (kind_of(&fault), fault.place),
    }
}

/// A text, what refuses it, and the place.
const TEXTS: [(&str, &str, u64); 6] = [
    ("{{a b}}", "Parse", 4),
    ("é {{ #}}", "Lex", 6),
    ("{{ ::a b}}", "Parse", 7),
    ("{{a +}}", "Parse", 5),
    ("{{#}} {{a b}}", "Lex", 2),
    ("{{a}} {{a b}} {{#}}", "Parse", 10),
];

#[test]
fn the_first_hole_that_is_at_fault_is_told(rt: HostRuntime) {
    for (text, kind, place) in TEXTS {
        let (came, at) = refused(rt.alloc(), text);
        assert!(rt; came == kind && at == place, "at {text}");
    }
}
