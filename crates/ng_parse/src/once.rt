//! One-time bindings.
ghost use Rattle.ng_language.specs.Lexing as lexing;
ghost use Rattle.ng_language.specs.OneTime as spec;
ghost use Rattle.std.specs.Prelude.{◌≡◌, MatchOption, Some, None};
ghost use Rattle.std.specs.Str.{chars};

use ng_base::reader::Plain;
use ng_base::trimming::{trim, without_front};
use ng_lex::letters::WhiteSpace;

/// What stands behind a colon.
fn behind_colon(text: &str) -> Option<&str>
    ensures { MatchOption result (lexing.next_is 58 (chars text.now) ≡ None) (λ r. lexing.next_is 58 (chars text.now) ≡ Some (chars r.now)) }
{
    match Plain::new(text).first() {
        Some((c, rest)) if c == ':' => Some(rest.rest()),
        _ => None,
    }
}

/// Whether a text begins with `::` inside its outer white space, and the expression that is left.
pub fn one_time(text: &str) -> (bool, &str)
    ensures { (result.0, chars result.1.now) ≡ spec.one_time_of (chars text.now) }
{
    let inner = trim::<WhiteSpace>(text);
    match behind_colon(inner) {
        None => (false, inner),
        Some(once) => match behind_colon(once) {
            None => (false, inner),
            Some(twice) => (true, without_front::<WhiteSpace>(twice)),
        },
    }
}
