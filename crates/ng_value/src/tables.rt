//! The tables of what a snapshot or a text unfolds.
ghost use Rattle.std.specs.Prelude.{◌≡◌};
ghost use Rattle.ng_base.specs.Views.{prim};
ghost use Rattle.ng_base.specs.ViewOf.{view_of};
ghost use Rattle.ng_language.specs.Unfolding.{below_object, unfolds_lists, unfolds_records, item_mode, name_mode, is_nothing, is_dollar, is_dollars, is_left_out};

use ng_base::heap::ObjKind;
use ng_base::reader::Plain;
use ng_base::txt::Txt;
use ng_base::value::Value;
use ng_base::view::View;
use ng_language::unfolding::{Below, Mode};

/// What of a stored object is unfolded.
pub(crate) fn below_object(mode: Mode, kind: ObjKind) -> Below
    ensures { result ≡ below_object mode kind }
{
    match (mode, kind) {
        (Mode::Reference, _) => Below::Nothing,
        (Mode::Flat, _) => Below::Nothing,
        (Mode::Text, ObjKind::Array) => Below::Items,
        (Mode::Text, _) => Below::Nothing,
        (_, ObjKind::Array) => Below::Items,
        (Mode::Deep, ObjKind::Scope) => Below::Nothing,
        (Mode::Json, ObjKind::Scope) => Below::Nothing,
        _ => Below::Names,
    }
}

/// Whether fresh lists are unfolded.
pub(crate) fn unfolds_lists(mode: Mode) -> bool
    ensures { result ≡ unfolds_lists mode }
{
    match mode {
        Mode::Flat => false,
        _ => true,
    }
}

/// Whether fresh records are unfolded.
pub(crate) fn unfolds_records(mode: Mode) -> bool
    ensures { result ≡ unfolds_records mode }
{
    match mode {
        Mode::Flat => false,
        Mode::Text => false,
        _ => true,
    }
}

/// What is asked of items.
pub(crate) fn item_mode(mode: Mode) -> Mode
    ensures { result ≡ item_mode mode }
{
    match mode {
        Mode::Collection => Mode::Reference,
        _ => mode,
    }
}

/// What is asked of named values.
pub(crate) fn name_mode(mode: Mode) -> Mode
    ensures { result ≡ name_mode mode }
{
    match mode {
        Mode::Collection => Mode::Reference,
        Mode::Words => Mode::Flat,
        _ => mode,
    }
}

fn is_nothing(v: &Value) -> bool
    ensures { result ≡ is_nothing (prim v.now) }
{
    match v {
        Value::Undefined => true,
        Value::Fun(_) => true,
        _ => false,
    }
}

fn is_dollar(reader: &Plain<'_>) -> bool
    ensures { result ≡ is_dollar reader.now }
{
    match reader.first() {
        None => false,
        Some((c, _)) => c == '$',
    }
}

fn is_dollars(reader: &Plain<'_>) -> bool
    ensures { result ≡ is_dollars reader.now }
{
    match reader.first() {
        None => false,
        Some((c, rest)) => if c == '$' { is_dollar(&rest) } else { false },
    }
}

/// Whether a name is left out.
fn is_name_left_out(mode: Mode, name: &Txt, nothing: bool) -> bool
    ensures { (t : Rattle.ng_base.specs.Views.ViewTree) → nothing ≡ is_nothing t → result ≡ is_left_out mode name.now t }
{
    match mode {
        Mode::Deep => if is_dollar(&Plain::new(name.as_str())) {
            true
        } else {
            nothing
        },
        Mode::Json => if is_dollars(&Plain::new(name.as_str())) {
            true
        } else {
            nothing
        },
        _ => false,
    }
}

/// Whether a property is left out.
pub(crate) fn is_property_left_out(mode: Mode, name: &Txt, v: &Value) -> bool
    ensures { result ≡ is_left_out mode name.now (prim v.now) }
{
    is_name_left_out(mode, name, is_nothing(v))
}

/// Whether a field is left out.
pub(crate) fn is_field_left_out(mode: Mode, name: &Txt, v: &View) -> bool
    ensures { result ≡ is_left_out mode name.now (view_of v.now) }
{
    is_name_left_out(mode, name, is_view_nothing(v))
}

fn is_view_nothing(v: &View) -> bool
    ensures { result ≡ is_nothing (view_of v.now) }
{
    match v {
        View::Prim(v) => is_nothing(v),
        View::List(_) => false,
        View::Rec(_) => false,
    }
}
