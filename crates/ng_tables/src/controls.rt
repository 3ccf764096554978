//! What controls show, and their state classes, after each input and each change of the model.
ghost use Rattle.std.specs.Prelude.{length};
ghost use Rattle.ng_base.specs.ViewOf.{view_of};
ghost use Rattle.ng_language.specs.Views.{ViewStands};

use crate::rows::column;
use crate::values::{Of, value, view};
use ng_base::heap::ObjKind;
use ng_base::lists::Words;
use ng_base::txt::Txt;
use ng_base::value::Value;
use ng_base::view::View;
use ng_control::{Control, ControlKind};
use ng_store::store::Store;
use ng_value::operators::same;
use std::alloc::{AllocError, Global};
use std::process::Abort;

const TRIMS: ControlKind = ControlKind::Text { trim: true };

const KEEPS: ControlKind = ControlKind::Text { trim: false };

/// What happens to a control, the model after it, what is shown then, and the state classes. It is typed into, turned `on` or `off`,
/// or blurs, or waits, where nothing happens but that the model is another. A model that is a text begins with a quote.
const TEXT: &str = "waits→undefined→→ng-pristine ng-untouched ng-valid ng-empty
types  ab →'ab→ ab →ng-dirty ng-untouched ng-valid ng-not-empty
types  \t →'→ \t →ng-dirty ng-untouched ng-valid ng-empty
types →'→→ng-dirty ng-untouched ng-valid ng-empty
waits→' x → x →ng-dirty ng-untouched ng-valid ng-not-empty
blurs→' → →ng-dirty ng-touched ng-valid ng-not-empty
types x→'x→x→ng-dirty ng-touched ng-valid ng-not-empty
types x→'x→x→ng-dirty ng-touched ng-valid ng-not-empty";

/// The same of a password.
const PASSWORD: &str = "blurs→null→→ng-pristine ng-touched ng-valid ng-empty
types  a→' a→ a→ng-dirty ng-touched ng-valid ng-not-empty
types  →' → →ng-dirty ng-touched ng-valid ng-not-empty";

/// The same of a number.
const NUMBER: &str = "types 7→7→7→ng-dirty ng-untouched ng-valid ng-not-empty
types →null→→ng-dirty ng-untouched ng-valid ng-empty
types x→undefined→x→ng-dirty ng-untouched ng-invalid ng-not-empty
types  7 →undefined→ 7 →ng-dirty ng-untouched ng-invalid ng-not-empty
types  →undefined→ →ng-dirty ng-untouched ng-invalid ng-empty
types -0012→-12→-0012→ng-dirty ng-untouched ng-valid ng-not-empty
types +5→5→+5→ng-dirty ng-untouched ng-valid ng-not-empty
types 1.5→undefined→1.5→ng-dirty ng-untouched ng-invalid ng-not-empty
types 9007199254740992→undefined→9007199254740992→ng-dirty ng-untouched ng-invalid ng-not-empty
waits→'abc→abc→ng-dirty ng-untouched ng-valid ng-not-empty
waits→NaN→→ng-dirty ng-untouched ng-valid ng-empty
waits→0→0→ng-dirty ng-untouched ng-valid ng-not-empty
blurs→{}→[object Object]→ng-dirty ng-touched ng-valid ng-not-empty";

/// The same of a checkbox.
const CHECKBOX: &str = "waits→undefined→→ng-pristine ng-untouched ng-valid ng-empty
on→true→true→ng-dirty ng-untouched ng-valid ng-not-empty
off→false→false→ng-dirty ng-untouched ng-valid ng-empty
blurs→1→1→ng-dirty ng-touched ng-valid ng-empty
waits→'true→true→ng-dirty ng-touched ng-valid ng-empty
waits→{}→[object Object]→ng-dirty ng-touched ng-valid ng-empty";

/// The model of a row.
fn model_of(text: &'static str) -> Of {
    if let Some(own) = text.strip_prefix('\'') {
        return Of::Text(own);
    }
    if text == "undefined" {
        return Of::Undefined;
    }
    if text == "null" {
        return Of::Null;
    }
    if text == "NaN" {
        return Of::Nan;
    }
    if text == "{}" {
        return Of::Object(0);
    }
    match text.parse::<i64>() {
        Ok(n) => Of::Int(n),
        Err(_) => Of::Bool(text == "true"),
    }
}

/// What a control reads of a text that is typed, where it takes texts.
fn typed(alloc: Global, control: &mut Control, text: &str) -> Option<Value> {
    let text = Txt::from_str(alloc, text).ok()?;
    match control.kind() {
        ControlKind::Checkbox => None,
        ControlKind::Text { .. } => control.input(text).ok(),
        ControlKind::Number => control.input(text).ok(),
    }
}

fn checked(control: &mut Control, on: bool) -> Option<Value> {
    match control.kind() {
        ControlKind::Checkbox => Some(control.check(on)),
        ControlKind::Text { .. } => None,
        ControlKind::Number => None,
    }
}

/// What a control reads, where the step is an input of its kind.
fn done(alloc: Global, control: &mut Control, step: &str) -> Option<Value> {
    if let Some((_, text)) = step.split_once(' ') {
        return typed(alloc, control, text);
    }
    if step == "blurs" {
        control.touch();
        return None;
    }
    if step == "waits" {
        return None;
    }
    checked(control, step == "on")
}

fn joined(alloc: Global, words: &Words) -> Result<String, AllocError> {
    let mut out = String::new(alloc);
    for word in words.as_slice() {
        if !out.is_empty() {
            out.push(' ')?;
        }
        out.push_str(word.as_str())?;
    }
    Ok(out)
}

/// What is shown and the state classes, with a `;` between them.
fn shown(alloc: Global, store: &Store, control: &Control, model: &View) -> Option<String>
    requires { ViewStands (length store.now) (view_of model.now) }
{
    let text = control.shown(store, model).ok()?;
    let words = control.classes(store, model).ok()?;
    let words = joined(alloc, &words).ok()?;
    format!(in alloc; "{};{}", text.as_str(), words.as_str()).ok()
}

fn run(rt: &impl Abort, alloc: Global, store: &Store, kind: ControlKind, rows: &'static str) {
    let mut control = Control::new(alloc, kind);
    for row in rows.split('\n') {
        let (step, rest) = column(row);
        let (model, rest) = column(rest);
        let (text, classes) = column(rest);
        let model = model_of(model);
        if let Some(read) = done(alloc, &mut control, step) {
            let Some(want) = value(alloc, store, model) else {
                panic!(rt; "no value");
            };
            assert!(rt; same(&read, &want), "{row}");
        }
        let Some(model) = view(alloc, store, model) else {
            panic!(rt; "no model");
        };
        control.model(&model);
        let want = format!(in alloc; "{text};{classes}").expect(rt, "memory");
        let got = shown(alloc, store, &control, &model).expect(rt, "memory");
        assert_eq!(rt; got.as_str(), want.as_str(), "{kind:?} {row}");
    }
}

#[test]
fn each_input_has_its_text_and_its_classes(rt: HostRuntime) {
    let alloc = rt.alloc();
    let mut store = Store::new(alloc);
    let _ = store.make(ObjKind::Plain, None);
    run(&rt, alloc, &store, TRIMS, TEXT);
    run(&rt, alloc, &store, KEEPS, PASSWORD);
    run(&rt, alloc, &store, ControlKind::Number, NUMBER);
    run(&rt, alloc, &store, ControlKind::Checkbox, CHECKBOX);
}
