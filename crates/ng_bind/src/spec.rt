//! Texts of bindings.
ghost use Rattle.std.specs.Prelude.{◌≡◌, Ok, Err, IfOk};
ghost use Rattle.std.specs.Str.{chars};
ghost use Rattle.ng_base.specs.Meets.{Meets};
ghost use Rattle.ng_bind.specs.Reading.{is_free};
ghost use Rattle.ng_bind.specs.Written.{IsWritten};
ghost use Rattle.ng_bind.specs.declared.spec.BindFault.TheVariants.{Memory as OfMemory};
ghost use Rattle.ng_bind.specs.declared.spec.Spec.{Spec as Binding};
ghost use Rattle.ng_base.specs.declared.fault.Memory.TheVariants.{Refused};

use crate::reading::spec_in;
use ng_base::fault::Memory;
use ng_base::reader::Plain;
use ng_base::txt::Txt;
use std::alloc::{AllocError, Global};
use thiserror::Error;

/// Where a property of an isolate scope comes from: `@`, `=`, `<`, `&`.
#[derive(Clone, Copy, Debug, PartialEq, Eq)]
pub enum BindMode {
    AtText,
    TwoWay,
    OneWay,
    Call,
}

/// A binding: its mode, whether its attribute may be missing, and the attribute's name, where it has one of its own.
#[derive(Drop)]
pub struct Spec {
    pub mode: BindMode,
    pub optional: bool,
    pub attr: Option<Txt>,
}

/// Why a text is no binding, or want of memory.
#[derive(Clone, Copy, Debug, PartialEq, Eq, Error)]
pub enum BindFault {
    #[error("this is no binding")]
    BadBinding,
    #[error("{0}")]
    Memory(Memory),
}

impl From<AllocError> for BindFault {
    ghost from_gives = { λ _ e. e ≡ OfMemory Refused };

    fn from(_: AllocError) -> Self {
        BindFault::Memory(Memory::Refused)
    }
}

/// Reads a binding. Any text that is written otherwise is refused.
pub fn binding_spec(alloc: Global, text: &str) -> Result<Spec, BindFault>
    ensures read { IfOk result (IsWritten (chars text.now)) }
    ensures written { (s : Binding) → IsWritten (chars text.now) s → Meets is_free (Ok s) result }
    ensures refused { ((s : Binding) → ¬ IsWritten (chars text.now) s) → Meets is_free (Err BindFault.BadBinding) result }
{
    spec_in(alloc, Plain::new(text))
}
