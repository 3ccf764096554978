//! The lexer.
ghost use Rattle.ng_base.specs.Cells.{place};
ghost use Rattle.ng_base.specs.Meets.{Gives};
ghost use Rattle.ng_language.specs.Lexing.{token_at, digit_next, signed_token, sign_at, lexed, is_free};
ghost use Rattle.ng_language.specs.Spelling.{Written};
ghost use Rattle.ng_language.specs.declared.syntax.Token.{Token as TokenSpec};
ghost use Rattle.ng_lex.specs.TokensOf.{tokens_of};
ghost use Rattle.std.specs.Prelude.{◌≡◌, ◌∷◌, ◌≤◌, [], length, IfOk, OnOk, true, ℕ, List, Ok};
ghost use Rattle.std.specs.Str.{chars};

use crate::letters::{begins_name, quote, space};
use crate::number::{read_name, read_number};
use crate::sign::read_sign;
use crate::text::{place_of, read_text};
use ng_base::reader::Plain;
use ng_language::syntax::{LexFault, LexKind, Token};
use std::alloc::Global;
use std::mem::replace;

/// The tokens of a text, the place of each, and the length of the text in bytes.
#[derive(Drop)]
pub struct Tokens {
    pub tokens: Vec<Token>,
    pub places: Vec<u64>,
    pub end: u64,
}

impl Tokens {
    /// No token.
    pub fn new(alloc: Global) -> Tokens {
        Tokens {
            tokens: Vec::new(alloc),
            places: Vec::new(alloc),
            end: 0,
        }
    }
}

/// Whether a digit stands next.
fn before_digit(reader: &Plain<'_>) -> bool
    ensures { result ≡ digit_next reader.now }
{
    match reader.first() {
        None => false,
        Some((c, _)) => c.is_ascii_digit(),
    }
}

fn read_signed<'a>(place: u64, c: char, reader: Plain<'a>) -> Result<(Token, Plain<'a>), LexFault>
    ensures read { Gives is_free (λ r. r) (signed_token place (sign_at c reader.entry)) result }
    ensures less { IfOk result (λ r. length r.1 ≤ length reader.entry) }
{
    match read_sign(c, reader) {
        Some((sign, rest)) => Ok((Token::Sign(sign), rest)),
        None => Err(LexFault {
            place,
            kind: LexKind::BadChar,
        }),
    }
}

/// The token that begins with a character at a place.
fn read_token<'a>(
    alloc: Global,
    total: usize,
    place: u64,
    c: char,
    reader: Plain<'a>,
) -> Result<(Token, Plain<'a>), LexFault>
    ensures read { Gives is_free (λ r. r) (token_at total place c reader.entry) result }
    ensures less { IfOk result (λ r. length r.1 ≤ length reader.entry) }
{
    if begins_name(c) {
        let (name, rest) = read_name(alloc, c, reader)?;
        Ok((Token::Name(name), rest))
    } else if c.is_ascii_digit() {
        read_number(place, c, reader)
    } else if quote(c) {
        read_text(alloc, total, place, c, reader)
    } else if c == '.' && before_digit(&reader) {
        Err(LexFault {
            place,
            kind: LexKind::Fraction,
        })
    } else {
        read_signed(place, c, reader)
    }
}

/// The tokens of a text, or its first refusal from the left.
pub fn lex(alloc: Global, text: &str) -> Result<Tokens, LexFault>
    // What is read is spelled so.
    ensures found { IfOk result (λ t. Written (length text.now) t.tokens.items t.places.items (chars text.now)) }

    // What is spelled so is read, unless memory runs out.
    ensures only { (ts : List TokenSpec) (ps : List ℕ) → Written (length text.now) ts ps (chars text.now) → Gives is_free tokens_of (Ok (ts, ps)) result }

    // Which refusal it is, and where.
    ensures exact { Gives is_free tokens_of (lexed (length text.now) (chars text.now)) result }

    ensures end { IfOk result (λ t. t.end ≡ length text.now) }
{
    read_tokens(alloc, Vec::new(alloc), Vec::new(alloc), text)
}

/// The same into the list of another text, whose room is used again. After a refusal the list is empty.
pub fn lex_into(alloc: Global, tokens: &mut Tokens, text: &str) -> Result<(), LexFault>
    ensures exact { Gives is_free (λ u. tokens_of tokens.new) (lexed (length text.now) (chars text.now)) result }
    ensures end { OnOk result (tokens.new.end ≡ length text.now) }
{
    let mut used = replace(tokens, Tokens::new(alloc));
    used.tokens.clear();
    used.places.clear();
    *tokens = read_tokens(alloc, used.tokens, used.places, text)?;
    Ok(())
}

/// The tokens of a text, in lists that are empty.
fn read_tokens(
    alloc: Global,
    mut tokens: Vec<Token>,
    mut places: Vec<u64>,
    text: &str,
) -> Result<Tokens, LexFault>
    requires tokens { tokens.items ≡ [] }
    requires places { places.items ≡ [] }
    ensures exact { Gives is_free tokens_of (lexed (length text.now) (chars text.now)) result }
    ensures end { IfOk result (λ t. t.end ≡ length text.now) }
{
    let total = text.len();
    let mut reader = Plain::new(text);
    while let Some((c, rest)) = reader.first() {
        if space(c) {
            reader = rest;
        } else {
            let place = place_of(total, &reader);
            let (token, rest) = read_token(alloc, total, place, c, rest)?;
            tokens.push(token)?;
            places.push(place)?;
            reader = rest;
        }
    }
    Ok(Tokens {
        tokens,
        places,
        end: total as u64,
    })
}
