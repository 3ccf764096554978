//! The limits on the tokens of a program.
ghost use Rattle.ng_language.specs.Parsing.{is_opening, is_closing, open_behind, one_too_many};
ghost use Rattle.std.specs.Prelude.{◌≡◌, ◌≤◌};

use crate::first::first;
use ng_language::syntax::{Sign, Token};

/// At most so many tokens.
const MOST_TOKENS: usize = 1000;

/// At most so many open brackets.
const MOST_OPEN: usize = 100;

fn opening(t: &Token) -> bool
    ensures { result ≡ is_opening t.now }
{
    matches!(
        t,
        Token::Sign(Sign::OpenRound | Sign::OpenSquare | Sign::OpenCurly)
    )
}

fn closing(t: &Token) -> bool
    ensures { result ≡ is_closing t.now }
{
    matches!(
        t,
        Token::Sign(Sign::CloseRound | Sign::CloseSquare | Sign::CloseCurly)
    )
}

/// How many brackets are open behind a token.
fn open_after(t: &Token, count: usize) -> usize
    requires { count ≤ 100 }
    ensures { result ≡ open_behind t.now count }
{
    if opening(t) {
        count + 1
    } else if closing(t) {
        count.saturating_sub(1)
    } else {
        count
    }
}

/// The first token that is one too many, or one bracket too many.
pub fn excess(tokens: &[Token]) -> Option<usize>
    ensures { result ≡ one_too_many 0 0 tokens.now }
{
    let mut index = 0;
    let mut open = 0;
    let mut rest = tokens;
    while let Some((t, behind)) = first(rest) {
        if index >= MOST_TOKENS || (opening(t) && open >= MOST_OPEN) {
            return Some(index);
        }
        open = open_after(t, open);
        index += 1;
        rest = behind;
    }
    None
}
