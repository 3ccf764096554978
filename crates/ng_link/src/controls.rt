//! The calls of controls (API: ngModel).
ghost use Rattle.std.specs.Prelude.{◌≡◌, is_some, option_map, IfOk, OnOk};
ghost use Rattle.ng_base.specs.declared.value.Value.TheVariants.{Bool};
ghost use Rattle.ng_control.specs.State.{typed_in, checked_in, after_touch};
ghost use Rattle.ng_control.specs.Typed.{TakesText, IsCheckbox};
ghost use Rattle.ng_dom.specs.Drawing.{Stands};
ghost use Rattle.ng_link.specs.Calls.{with_control_at};
ghost use Rattle.ng_build.specs.Controls.{state_under, IsOfKind, read_as};
ghost use Rattle.ng_link.specs.Events.{control_at, kind_at};
ghost use Rattle.ng_link.specs.Standing.{Standing};
ghost use Rattle.ng_build.specs.HandledOf.{control_of};
ghost use Rattle.ng_link.specs.State.{state_of, templates_of};

use crate::works::Works;
use ng_base::fault::Memory;
use ng_base::path::Key;
use ng_base::txt::Txt;
use ng_base::value::Value;
use ng_build::controlled::ControlHere;
use ng_build::controls::{check_in, copied_control, kind_under, touch_in, type_in};
use ng_control::ControlKind;

impl Works {
    /// The control that a node is.
    fn entered_control(&self, n: u64) -> Option<&ControlHere>
        ensures { option_map (λ c. control_of c.now) result ≡ control_at (state_of self.now) n }
    {
        match self.instance_of_node(n) {
            None => None,
            Some(one) => one.controls.get(&n),
        }
    }

    /// Whether a node is a control.
    pub fn is_control(&self, n: u64) -> bool
        ensures { result ≡ is_some (control_at (state_of self.now) n) }
    {
        match self.entered_control(n) {
            None => false,
            Some(_) => true,
        }
    }

    /// The control that a node is, copied.
    pub fn control_at(&self, n: u64) -> Result<Option<ControlHere>, Memory>
        ensures { IfOk result (λ c. option_map control_of c ≡ control_at (state_of self.now) n) }
    {
        match self.entered_control(n) {
            None => Ok(None),
            Some(one) => Ok(Some(copied_control(self.alloc, one)?)),
        }
    }

    /// The kind of the control that a node is.
    pub fn control_kind(&self, n: u64) -> Option<ControlKind>
        ensures { result ≡ kind_at (state_of self.now) n }
    {
        match self.entered_control(n) {
            None => None,
            Some(one) => kind_under(&self.controls, &one.key),
        }
    }

    /// A text is typed into the control whose model's site has a key, and its node shows it. The answer is what it is read as.
    pub fn take_text(&mut self, key: &Key, text: Txt) -> Result<Value, Memory>
        requires { IsOfKind TakesText (state_under key.now (state_of self.old).controls) }
        ensures value { IfOk result (λ v. v ≡ read_as text (state_under key.now (state_of self.old).controls)) }
        ensures state { OnOk result (state_of self.new ≡ with_control_at (λ c. typed_in c text) key.now (state_of self.old)) }
        ensures core { self.new.core ≡ self.old.core }
        ensures templates { templates_of self.new ≡ templates_of self.old }
        ensures stands { OnOk result ((ts : Stands) → Standing self.old ts → Standing self.new ts) }
    {
        let value = type_in(&mut self.controls, key, text)?;
        self.show_kept(key)?;
        Ok(value)
    }

    /// The checkbox whose model's site has a key is checked, or not. The answer is what its model becomes.
    pub fn take_check(&mut self, key: &Key, on: bool) -> Result<Value, Memory>
        requires { IsOfKind IsCheckbox (state_under key.now (state_of self.old).controls) }
        ensures value { IfOk result (λ v. v ≡ Bool on) }
        ensures state { OnOk result (state_of self.new ≡ with_control_at checked_in key.now (state_of self.old)) }
        ensures core { self.new.core ≡ self.old.core }
        ensures templates { templates_of self.new ≡ templates_of self.old }
        ensures stands { OnOk result ((ts : Stands) → Standing self.old ts → Standing self.new ts) }
    {
        let value = check_in(&mut self.controls, key, on);
        self.show_kept(key)?;
        Ok(value)
    }

    /// The control whose model's site has a key loses the focus.
    pub fn touch(&mut self, key: &Key) -> Result<(), Memory>
        ensures state { OnOk result (state_of self.new ≡ with_control_at after_touch key.now (state_of self.old)) }
        ensures core { self.new.core ≡ self.old.core }
        ensures templates { templates_of self.new ≡ templates_of self.old }
        ensures stands { OnOk result ((ts : Stands) → Standing self.old ts → Standing self.new ts) }
    {
        touch_in(&mut self.controls, key);
        self.show_kept(key)?;
        Ok(())
    }
}
