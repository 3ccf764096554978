//! The elements that have rules of their own.
ghost use Rattle.std.specs.Prelude.{◌≡◌};
ghost use Rattle.ng_markup.specs.Tables.{is_void, is_omittable};

use ng_base::txt::Txt;

/// Whether it is an element without content and without an end tag.
#[tactic(auto, unfolding(ng_markup::specs::Tables::is_void))]
pub fn void(name: &Txt) -> bool
    ensures { result ≡ is_void name.now }
{
    name.is_word("area")
        || name.is_word("base")
        || name.is_word("br")
        || name.is_word("col")
        || name.is_word("embed")
        || name.is_word("hr")
        || name.is_word("img")
        || name.is_word("input")
        || name.is_word("link")
        || name.is_word("meta")
        || name.is_word("param")
        || name.is_word("source")
        || name.is_word("track")
        || name.is_word("wbr")
}

/// Whether its end tag may be left out.
#[tactic(auto, unfolding(ng_markup::specs::Tables::is_omittable))]
pub fn omittable(name: &Txt) -> bool
    ensures { result ≡ is_omittable name.now }
{
    name.is_word("li")
        || name.is_word("dt")
        || name.is_word("dd")
        || name.is_word("option")
        || name.is_word("tr")
        || name.is_word("td")
        || name.is_word("th")
}
