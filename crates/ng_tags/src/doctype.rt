//! The doctype, which may stand first.
ghost use Rattle.ng_base.specs.Meets.{Gives};
ghost use Rattle.ng_tags.specs.Free.{is_free};
ghost use Rattle.ng_tags.specs.Lexing as specs;
ghost use Rattle.ng_tags.specs.Skips as skips;
ghost use Rattle.std.specs.Prelude.{◌≡◌, ◌∷◌, [], MatchOption};

use crate::fault::HtmlFault;
use crate::letters::space;
use crate::skips::{past_spaces, past_word};
use crate::tags::no_tag;
use ng_base::reader::Reader;

const DOCTYPE: [char; 8] = ['!', 'd', 'o', 'c', 't', 'y', 'p', 'e'];

/// Behind the next `>`.
fn past_sign(place: usize, mut reader: Reader<'_>) -> Result<Reader<'_>, HtmlFault>
    ensures { Gives is_free (λ r. r) (specs.past_sign place reader.entry) result }
{
    while let Some((c, _, rest)) = reader.first() {
        if c == '>' {
            return Ok(rest);
        }
        reader = rest;
    }
    Err(no_tag(place))
}

/// The first character that is no white space, its place, and what stands behind it.
fn first_character<'a>(reader: &Reader<'a>) -> Option<(char, usize, Reader<'a>)>
    ensures { MatchOption result (skips.past_spaces reader.now ≡ []) (λ p. skips.past_spaces reader.now ≡ (p.0, p.1) ∷ p.2) }
{
    let (c, place, rest) = reader.first()?;
    if space(c) {
        past_spaces(rest).first()
    } else {
        Some((c, place, rest))
    }
}

/// What is left behind a doctype and the white space before it, if one stands first.
pub fn after_doctype(reader: Reader<'_>) -> Result<Reader<'_>, HtmlFault>
    ensures { Gives is_free (λ r. r) (specs.after_doctype reader.entry) result }
{
    match first_character(&reader) {
        Some((c, place, rest)) if c == '<' => match past_word(&DOCTYPE, rest) {
            None => Ok(reader),
            Some(rest) => past_sign(place, rest),
        },
        _ => Ok(reader),
    }
}
