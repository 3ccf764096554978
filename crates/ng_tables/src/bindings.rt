//! Which way a two-way binding goes, and which texts are bindings.

use crate::rows::column;
use crate::values::{Of, view};
use ng_bind::flow::{Flow, sync};
use ng_bind::spec::{BindFault, BindMode, Spec, binding_spec};
use ng_language::snapshots::SnapKind;
use ng_store::store::Store;
use ng_value::snapping::snap;
use ng_value::snapshot::Snap;
use std::alloc::{AllocError, Global};

fn snapped(alloc: Global, store: &Store, of: Of) -> Option<Snap> {
    let v = view(alloc, store, of)?;
    snap(alloc, SnapKind::Reference, store, &v).ok()
}

/// Where a value goes, by the parent's, the isolate scope's and the last one.
fn goes(alloc: Global, store: &Store, parent: Of, own: Of, last: Of) -> Option<Flow> {
    let parent = snapped(alloc, store, parent)?;
    let own = snapped(alloc, store, own)?;
    let last = snapped(alloc, store, last)?;
    Some(sync(&parent, &own, &last))
}

/// The parent's value, the isolate scope's, the last one, and where a value goes.
const FLOWS: [(Of, Of, Of, Flow); 14] = [
    (Of::Int(1), Of::Int(1), Of::Int(1), Flow::Still),
    (Of::Int(1), Of::Int(2), Of::Int(1), Flow::ToParent),
    (Of::Int(2), Of::Int(1), Of::Int(1), Flow::ToDest),
    (Of::Int(2), Of::Int(2), Of::Int(1), Flow::ToDest),
    (Of::Int(2), Of::Int(3), Of::Int(1), Flow::ToDest),
    (Of::Nan, Of::Nan, Of::Nan, Flow::Still),
    (Of::Undefined, Of::Undefined, Of::Undefined, Flow::Still),
    (Of::Undefined, Of::Null, Of::Undefined, Flow::ToParent),
    (Of::Null, Of::Undefined, Of::Undefined, Flow::ToDest),
    (Of::Text("1"), Of::Int(1), Of::Int(1), Flow::ToDest),
    (Of::Int(1), Of::Text("1"), Of::Int(1), Flow::ToParent),
    (Of::Text("a"), Of::Text("a"), Of::Text("a"), Flow::Still),
    (Of::Bool(false), Of::Int(0), Of::Bool(false), Flow::ToParent),
    (Of::Function, Of::Undefined, Of::Function, Flow::ToParent),
];

#[test]
fn the_parent_wins_where_both_sides_changed(rt: HostRuntime) {
    let alloc = rt.alloc();
    let store = Store::new(alloc);
    for (parent, own, last, want) in FLOWS {
        let got = goes(alloc, &store, parent, own, last);
        assert_eq!(rt; got, Some(want), "{parent:?} {own:?} {last:?}");
    }
}

fn mark(mode: BindMode) -> char {
    match mode {
        BindMode::AtText => '@',
        BindMode::TwoWay => '=',
        BindMode::OneWay => '<',
        BindMode::Call => '&',
    }
}

/// A binding without white space.
fn spelled(alloc: Global, spec: &Spec) -> Result<String, AllocError> {
    let mut out = String::new(alloc);
    out.push(mark(spec.mode))?;
    if spec.optional {
        out.push('?')?;
    }
    if let Some(attr) = &spec.attr {
        out.push_str(attr.as_str())?;
    }
    Ok(out)
}

fn read(alloc: Global, text: &str) -> Result<String, AllocError> {
    match binding_spec(alloc, text) {
        Ok(spec) => spelled(alloc, &spec),
        Err(BindFault::BadBinding) => String::from_str(alloc, "BadBinding"),
        Err(BindFault::Memory(_)) => Err(AllocError),
    }
}

/// A text, and the binding that it is, without white space.
const TEXTS: &str = "@→@
=→=
<→<
&→&
@?→@?
=?→=?
<?→<?
&?→&?
@name→@name
=name→=name
<?name→<?name
&onClose→&onClose
=my_$name2→=my_$name2
<2nd→<2nd
=$→=$
  =  →=
= ?name→=?name
=? name→=?name
@ ?→@?
→BadBinding
   →BadBinding
name→BadBinding
~→BadBinding
=*→BadBinding
=*name→BadBinding
==→BadBinding
=??→BadBinding
=name?→BadBinding
=my name→BadBinding
=my-name→BadBinding
?=→BadBinding
=näme→BadBinding";

/// The same of texts with white space that no line can hold.
const SPACED: [(&str, &str); 2] = [
    ("\t=\n?\r name ", "=?name"),
    ("\u{b}<\u{a0}name\u{a0}", "<name"),
];

#[test]
fn a_binding_is_a_mode_a_question_mark_and_a_name(rt: HostRuntime) {
    for row in TEXTS.split('\n') {
        let (text, want) = column(row);
        let got = read(rt.alloc(), text).expect(&rt, "memory");
        assert_eq!(rt; got.as_str(), want, "{text:?}");
    }
}

#[test]
fn white_space_of_the_language_stands_around_a_name(rt: HostRuntime) {
    for (text, want) in SPACED {
        let got = read(rt.alloc(), text).expect(&rt, "memory");
        assert_eq!(rt; got.as_str(), want, "{text:?}");
    }
}
