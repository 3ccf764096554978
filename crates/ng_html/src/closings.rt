//! Which start tags close which open elements.
ghost use Rattle.std.specs.Prelude.{◌≡◌};
ghost use Rattle.ng_html.specs.Closing.{is_closing, is_term, is_data_cell, is_row_part};

use ng_base::txt::Txt;

fn term(name: &Txt) -> bool
    ensures { result ≡ is_term name.now }
{
    name.is_word("dt") || name.is_word("dd")
}

fn data_cell(name: &Txt) -> bool
    ensures { result ≡ is_data_cell name.now }
{
    name.is_word("td") || name.is_word("th")
}

fn row_part(name: &Txt) -> bool
    ensures { result ≡ is_row_part name.now }
{
    data_cell(name) || name.is_word("tr")
}

/// Whether a start tag closes an open element.
#[tactic(auto, unfolding(crate::specs::Closing::is_closing))]
pub fn closes(start: &Txt, name: &Txt) -> bool
    ensures { result ≡ is_closing start.now name.now }
{
    (name.is_word("li") && start.is_word("li"))
        || (term(name) && term(start))
        || (name.is_word("option") && start.is_word("option"))
        || (data_cell(name) && data_cell(start))
        || (row_part(name) && start.is_word("tr"))
}
