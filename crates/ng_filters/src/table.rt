//! The table of filters.
ghost use Rattle.std.specs.Prelude.{◌≡◌};
ghost use Rattle.ng_filters.specs.Known.{named, takes, known};

use ng_base::txt::Txt;

/// A filter.
#[derive(Clone, Copy, Debug, PartialEq, Eq)]
pub(crate) enum Filter {
    Uppercase,
    Lowercase,
    Number,
    Json,
    LimitTo,
    /// `filter` itself: the items that match a pattern.
    Matching,
    OrderBy,
}

/// The filter of a name.
pub(crate) fn named(name: &Txt) -> Option<Filter>
    ensures { result ≡ named name.now }
{
    if name.is_word("uppercase") {
        Some(Filter::Uppercase)
    } else if name.is_word("lowercase") {
        Some(Filter::Lowercase)
    } else if name.is_word("number") {
        Some(Filter::Number)
    } else if name.is_word("json") {
        Some(Filter::Json)
    } else if name.is_word("limitTo") {
        Some(Filter::LimitTo)
    } else if name.is_word("filter") {
        Some(Filter::Matching)
    } else if name.is_word("orderBy") {
        Some(Filter::OrderBy)
    } else {
        None
    }
}

/// Whether a filter takes so many arguments.
fn takes(filter: Filter, args: u32) -> bool
    ensures { result ≡ takes filter args }
{
    match filter {
        Filter::Uppercase => args == 0,
        Filter::Lowercase => args == 0,
        Filter::Number => args <= 1,
        Filter::Json => args <= 1,
        Filter::LimitTo => 1 <= args && args <= 2,
        Filter::Matching => args == 1,
        Filter::OrderBy => args <= 2,
    }
}

/// Whether a filter is in the table and takes so many arguments.
pub fn known(name: &Txt, args: u32) -> bool
    ensures { result ≡ known name.now args }
{
    match named(name) {
        None => false,
        Some(filter) => takes(filter, args),
    }
}
