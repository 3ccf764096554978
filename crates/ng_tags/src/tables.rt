//! The elements that have rules of their own.
ghost use Rattle.ng_markup.specs.Tables.{is_left_out, is_raw, is_line_dropping};
ghost use Rattle.std.specs.Prelude.{◌≡◌};

use ng_base::txt::Txt;

/// Whether its content follows a grammar of its own.
#[tactic(auto, unfolding(ng_markup::specs::Tables::is_left_out))]
pub fn left_out(name: &Txt) -> bool
    ensures { result ≡ is_left_out name.now }
{
    name.is_word("script")
        || name.is_word("style")
        || name.is_word("svg")
        || name.is_word("math")
        || name.is_word("template")
        || name.is_word("iframe")
        || name.is_word("noscript")
        || name.is_word("noembed")
        || name.is_word("noframes")
        || name.is_word("xmp")
        || name.is_word("plaintext")
}

/// Whether its content is text up to its end tag.
#[tactic(auto, unfolding(ng_markup::specs::Tables::is_raw))]
pub fn raw(name: &Txt) -> bool
    ensures { result ≡ is_raw name.now }
{
    name.is_word("textarea") || name.is_word("title")
}

/// Whether a line feed behind its start tag is dropped.
#[tactic(auto, unfolding(ng_markup::specs::Tables::is_line_dropping))]
pub fn line_dropping(name: &Txt) -> bool
    ensures { result ≡ is_line_dropping name.now }
{
    name.is_word("pre") || name.is_word("textarea")
}
