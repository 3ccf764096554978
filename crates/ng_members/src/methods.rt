//! The methods that change nothing.
ghost use Rattle.std.specs.Prelude.{◌≡◌};
ghost use Rattle.ng_members.specs.Names.{list_method, text_method, is_pure_method};

use ng_base::txt::Txt;

/// A method of arrays, fresh lists or texts that changes nothing. `Find` is the `indexOf` of texts.
#[derive(Clone, Copy, Debug, PartialEq, Eq)]
pub enum Method {
    IndexOf,
    Slice,
    Concat,
    Join,
    Find,
    Trim,
    Upper,
    Lower,
}

/// The method of arrays and fresh lists of a name.
pub fn list_method(name: &Txt) -> Option<Method>
    ensures { result ≡ list_method name.now }
{
    if name.is_word("indexOf") {
        Some(Method::IndexOf)
    } else if name.is_word("slice") {
        Some(Method::Slice)
    } else if name.is_word("concat") {
        Some(Method::Concat)
    } else if name.is_word("join") {
        Some(Method::Join)
    } else {
        None
    }
}

/// The method of texts of a name.
pub fn text_method(name: &Txt) -> Option<Method>
    ensures { result ≡ text_method name.now }
{
    if name.is_word("indexOf") {
        Some(Method::Find)
    } else if name.is_word("trim") {
        Some(Method::Trim)
    } else if name.is_word("toUpperCase") {
        Some(Method::Upper)
    } else if name.is_word("toLowerCase") {
        Some(Method::Lower)
    } else {
        None
    }
}

/// Whether a method changes nothing.
pub fn is_pure_method(name: &Txt) -> bool
    ensures { result ≡ is_pure_method name.now }
{
    list_method(name).is_some() || text_method(name).is_some()
}
