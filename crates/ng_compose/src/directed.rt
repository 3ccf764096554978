//! Whether parts have directives of the application or slots (guide: Directives).
ghost use Rattle.std.specs.Prelude.{◌≡◌, is_some, option_map};
ghost use Rattle.ng_parts.specs.ActsOf.{uses_of};
ghost use Rattle.ng_drawing.specs.Composing.{is_directed_part, is_directed_in, is_directed as is_directed_parts};
ghost use Rattle.ng_parts.specs.Seen.{part_of, contents_of, parts_of};

use ng_parts::acts::Uses;
use ng_parts::parts::{Contents, Part, Parts};

/// Whether an element has directives of the application.
fn has_directives(uses: &Option<Uses>) -> bool
    ensures { result ≡ is_some (option_map uses_of uses.now) }
{
    match uses {
        None => false,
        Some(_) => true,
    }
}

/// Whether a part has directives of the application or slots.
#[cycle(directed)]
fn is_directed_part(part: &Part) -> bool
    ensures { result ≡ is_directed_part (part_of part.now) }
{
    match part {
        Part::Text(_) => false,
        Part::Comment(_) => false,
        Part::Element { acts, contents, .. } => {
            has_directives(&acts.uses) || acts.slot || is_directed_in(contents)
        }
        Part::Anchor { .. } => false,
    }
}

#[cycle(directed)]
fn is_directed_in(contents: &Contents) -> bool
    ensures { result ≡ is_directed_in (contents_of contents.now) }
{
    match contents {
        Contents::Children(parts) => is_directed(parts),
        Contents::Bound(_) => false,
    }
}

/// Whether there are directives of the application or slots.
#[cycle(directed)]
pub(crate) fn is_directed(parts: &Parts) -> bool
    ensures { result ≡ is_directed_parts (parts_of parts.now) }
{
    for part in parts.as_slice() {
        if is_directed_part(part) {
            return true;
        }
    }
    false
}
