//! The kinds of controls, and what was typed into one.

use ng_base::txt::Txt;
use ng_base::value::Value;

/// A kind of control (API: input). A text is trimmed unless its element says otherwise.
#[derive(Clone, Copy, Debug, PartialEq, Eq)]
pub enum ControlKind {
    Text { trim: bool },
    Number,
    Checkbox,
}

/// A text that was typed, with the value that it was read as.
#[derive(Drop)]
pub struct Typed {
    pub text: Txt,
    pub parsed: Value,
}
