//! A control (API: ngModel.NgModelController).
ghost use Rattle.std.specs.Prelude.{◌≡◌, length, option_copied, IfOk, IfErr, OnErr};
ghost use Rattle.ng_base.specs.Faults.{is_memory};
ghost use Rattle.ng_base.specs.Meets.{Meets};
ghost use Rattle.ng_base.specs.ViewOf.{view_of};
ghost use Rattle.ng_base.specs.declared.fault.Memory.TheVariants.{Refused};
ghost use Rattle.ng_base.specs.declared.value.Value.TheVariants.{Bool};
ghost use Rattle.ng_language.specs.Views.{ViewStands};
ghost use Rattle.ng_control.specs.State.{fresh, typed_in, checked_in, after_touch, with_model, standing};
ghost use Rattle.ng_control.specs.Shown.{shown as shown_of, is_typed_empty as is_typed_empty_of, is_text_empty as is_text_empty_of, is_empty as is_empty_of, is_invalid as is_invalid_of, classes as classes_of};
ghost use Rattle.ng_control.specs.Kept.{shown_with as shown_with_of, is_text_empty_with as is_text_empty_with_of, is_empty_with as is_empty_with_of, classes_with as classes_with_of};
ghost use Rattle.ng_control.specs.Typed.{parsed as parsed_of, TakesText, IsCheckbox};

use crate::kind::{ControlKind, Typed};
use crate::model::{copied_typed, is_checked, is_undefined, model_text, while_model};
use crate::reading::{nil, parsed};
use crate::words::state_classes;
use ng_base::fault::{Fault, Memory};
use ng_base::heap::Heap;
use ng_base::lists::Words;
use ng_base::trimming::{AsciiSpace, trim};
use ng_base::txt::Txt;
use ng_base::value::Value;
use ng_base::view::View;
use std::alloc::{AllocError, Global};
use std::marker::Model;

/// A control: what was typed into it, and whether it is dirty and was touched.
#[derive(Drop)]
pub struct Control {
    alloc: Global,
    kind: ControlKind,
    typed: Option<Typed>,
    dirty: bool,
    touched: bool,
}

impl Model for Control {
    ghost use Rattle.ng_control.specs.State.{ControlState};

    ghost Value = { ControlState };

    ghost view = { λ c. record { kind = c.kind; typed = c.typed; dirty = c.dirty; touched = c.touched } };
}

/// Whether nothing is left of a typed text once it is trimmed, where the control trims.
fn is_typed_empty(kind: ControlKind, text: &Txt) -> bool
    ensures { result ≡ is_typed_empty_of kind text.now }
{
    match kind {
        ControlKind::Text { trim: true } => nil(trim::<AsciiSpace>(text.as_str())),
        ControlKind::Text { trim: false } => nil(text.as_str()),
        ControlKind::Number => nil(trim::<AsciiSpace>(text.as_str())),
        ControlKind::Checkbox => nil(text.as_str()),
    }
}

/// Whether a typed text is wrong: a number control reads no number in it.
fn is_invalid(kind: ControlKind, typed: Option<&Typed>) -> bool
    ensures { result ≡ is_invalid_of kind (option_copied typed.entry) }
{
    match (kind, typed) {
        (ControlKind::Number, Some(typed)) => is_undefined(&typed.parsed),
        _ => false,
    }
}

/// Whether the text that a control shows is empty.
fn is_text_empty<H: Heap>(
    alloc: Global,
    h: &H,
    kind: ControlKind,
    v: &View,
    typed: Option<&Typed>,
) -> Result<bool, Fault>
    requires { ViewStands (length (H.objects h.now)) (view_of v.now) }
    ensures { Meets is_memory (is_text_empty_of (H.objects h.now) kind (view_of v.now) (option_copied typed.entry)) result }
{
    match typed {
        Some(typed) => Ok(is_typed_empty(kind, &typed.text)),
        None => {
            let text = model_text(alloc, h, v)?;
            Ok(nil(text.as_str()))
        }
    }
}

/// Whether a control is empty.
fn is_empty<H: Heap>(
    alloc: Global,
    h: &H,
    kind: ControlKind,
    v: &View,
    typed: Option<&Typed>,
) -> Result<bool, Fault>
    requires { ViewStands (length (H.objects h.now)) (view_of v.now) }
    ensures { Meets is_memory (is_empty_of (H.objects h.now) kind (view_of v.now) (option_copied typed.entry)) result }
{
    match kind {
        ControlKind::Checkbox => Ok(!is_checked(v)),
        ControlKind::Text { .. } => is_text_empty(alloc, h, kind, v, typed),
        ControlKind::Number => is_text_empty(alloc, h, kind, v, typed),
    }
}

/// Whether a control that takes texts is empty, where its model has this text.
fn is_text_empty_with(kind: ControlKind, text: &Txt, typed: Option<&Typed>) -> bool
    ensures { result ≡ is_text_empty_with_of kind text.now (option_copied typed.entry) }
{
    match typed {
        Some(typed) => is_typed_empty(kind, &typed.text),
        None => nil(text.as_str()),
    }
}

/// Whether a control is empty, where its model has this text.
fn is_empty_with(kind: ControlKind, v: &View, text: &Txt, typed: Option<&Typed>) -> bool
    ensures { result ≡ is_empty_with_of kind (view_of v.now) text.now (option_copied typed.entry) }
{
    match kind {
        ControlKind::Checkbox => !is_checked(v),
        ControlKind::Text { .. } => is_text_empty_with(kind, text, typed),
        ControlKind::Number => is_text_empty_with(kind, text, typed),
    }
}

impl Control {
    /// Nothing was typed, and it is neither dirty nor touched.
    pub fn new(alloc: Global, kind: ControlKind) -> Control
        ensures { result ≡ fresh kind }
    {
        Control {
            alloc,
            kind,
            typed: None,
            dirty: false,
            touched: false,
        }
    }

    /// Its kind.
    pub fn kind(&self) -> ControlKind
        ensures { result ≡ self.now.kind }
    {
        self.kind
    }

    /// A text is typed. The result is the value that it is read as, which the model becomes.
    pub fn input(&mut self, text: Txt) -> Result<Value, Memory>
        requires { TakesText self.old.kind }
        ensures value { IfOk result (λ v. v ≡ parsed_of self.old.kind text) }
        ensures typed { IfOk result (λ _. self.new ≡ typed_in self.old text) }
        ensures unchanged { OnErr result (self.new ≡ self.old) }
        ensures refused { IfErr result (λ e. e ≡ Refused) }
    {
        let parsed = parsed(self.alloc, self.kind, &text)?;
        let value = parsed.copied()?;
        self.typed = Some(Typed { text, parsed });
        self.dirty = true;
        Ok(value)
    }

    /// A checkbox is checked, or not. The result is the value that the model becomes.
    pub fn check(&mut self, on: bool) -> Value
        requires { IsCheckbox self.old.kind }
        ensures value { result ≡ Bool on }
        ensures checked { self.new ≡ checked_in self.old }
    {
        self.dirty = true;
        Value::Bool(on)
    }

    /// It loses the focus.
    pub fn touch(&mut self)
        ensures { self.new ≡ after_touch self.old }
    {
        self.touched = true;
    }

    /// What was typed, as long as the model is what it was read as.
    fn standing(&self, v: &View) -> Option<&Typed>
        ensures { option_copied result ≡ standing self.now (view_of v.now) }
    {
        while_model(v, &self.typed)
    }

    /// The model is this one now: what was typed is dropped where it was read as another.
    pub fn model(&mut self, v: &View)
        ensures { self.new ≡ with_model self.old (view_of v.now) }
    {
        if self.standing(v).is_none() {
            self.typed = None;
        }
    }

    /// What stands in the element: what was typed while the model is what it was read as, else the model's text.
    pub fn shown<H: Heap>(&self, h: &H, v: &View) -> Result<Txt, Fault>
        requires { ViewStands (length (H.objects h.now)) (view_of v.now) }
        ensures { Meets is_memory (shown_of (H.objects h.now) self.now (view_of v.now)) result }
    {
        match self.standing(v) {
            Some(typed) => Ok(typed.text.copied()?),
            None => model_text(self.alloc, h, v),
        }
    }

    /// The state classes: one word of each pair, in order.
    pub fn classes<H: Heap>(&self, h: &H, v: &View) -> Result<Words, Fault>
        requires { ViewStands (length (H.objects h.now)) (view_of v.now) }
        ensures { Meets is_memory (classes_of (H.objects h.now) self.now (view_of v.now)) result }
    {
        let empty = is_empty(self.alloc, h, self.kind, v, self.standing(v))?;
        let invalid = is_invalid(self.kind, self.standing(v));
        Ok(state_classes(self.alloc, self.dirty, self.touched, invalid, empty)?)
    }

    /// What stands in the element, where the model was kept and has this text.
    pub fn shown_with(&self, v: &View, text: Txt) -> Result<Txt, AllocError>
        ensures { IfOk result (λ t. t ≡ shown_with_of self.now (view_of v.now) text) }
    {
        match self.standing(v) {
            Some(typed) => typed.text.copied(),
            None => Ok(text),
        }
    }

    /// The state classes, where the model was kept and has this text.
    pub fn classes_with(&self, v: &View, text: &Txt) -> Result<Words, AllocError>
        ensures { IfOk result (λ w. w ≡ classes_with_of self.now (view_of v.now) text.now) }
    {
        let empty = is_empty_with(self.kind, v, text, self.standing(v));
        let invalid = is_invalid(self.kind, self.standing(v));
        state_classes(self.alloc, self.dirty, self.touched, invalid, empty)
    }

    /// The same control again.
    pub fn copied(&self) -> Result<Control, AllocError>
        ensures { IfOk result (λ c. c ≡ self.now) }
    {
        Ok(Control {
            alloc: self.alloc,
            kind: self.kind,
            typed: copied_typed(&self.typed)?,
            dirty: self.dirty,
            touched: self.touched,
        })
    }
}
