//! What a row of tokens begins with.
ghost use Rattle.ng_language.specs.Tokens.{sign_number, same_sign, after, name_at, unary_of, unary_at, joint_of, joint_at};
ghost use Rattle.std.specs.Prelude.{◌≡◌, ◌<◌, ◌∷◌, [], length, MatchOption, IfSome, Some, None};

use ng_base::txt::Txt;
use ng_language::syntax::{Binary, Joint, Level, Sign, Token, Unary};

/// The first token and those behind it.
pub fn first(tokens: &[Token]) -> Option<(&Token, &[Token])>
    ensures { MatchOption result (tokens.now ≡ []) (λ r. tokens.now ≡ r.0.now ∷ r.1.now) }
{
    if tokens.is_empty() {
        return None;
    }
    Some((&tokens[0], &tokens[1..]))
}

fn number(sign: Sign) -> u8
    ensures { result ≡ sign_number sign }
{
    match sign {
        Sign::Plus => 0,
        Sign::Minus => 1,
        Sign::Star => 2,
        Sign::Slash => 3,
        Sign::Percent => 4,
        Sign::Assign => 5,
        Sign::Equal => 6,
        Sign::NotEqual => 7,
        Sign::Same => 8,
        Sign::NotSame => 9,
        Sign::Less => 10,
        Sign::Greater => 11,
        Sign::AtMost => 12,
        Sign::AtLeast => 13,
        Sign::And => 14,
        Sign::Or => 15,
        Sign::Not => 16,
        Sign::Bar => 17,
        Sign::Question => 18,
        Sign::Colon => 19,
        Sign::Semicolon => 20,
        Sign::Comma => 21,
        Sign::Dot => 22,
        Sign::OpenRound => 23,
        Sign::CloseRound => 24,
        Sign::OpenSquare => 25,
        Sign::CloseSquare => 26,
        Sign::OpenCurly => 27,
        Sign::CloseCurly => 28,
    }
}

fn same(a: Sign, b: Sign) -> bool
    ensures { result ≡ same_sign a b }
{
    number(a) == number(b)
}

/// The tokens behind this sign, where they begin with it.
#[tactic(auto, unfolding(ng_language::specs::Tokens::after))]
pub fn behind(sign: Sign, tokens: &[Token]) -> Option<&[Token]>
    ensures value { MatchOption result (after sign tokens.now ≡ None) (λ r. after sign tokens.now ≡ Some r.now) }
    ensures less { IfSome result (λ r. length r.now < length tokens.now) }
{
    match first(tokens) {
        Some((Token::Sign(s), rest)) if same(sign, *s) => Some(rest),
        _ => None,
    }
}

/// The name that they begin with.
#[tactic(auto, unfolding(ng_language::specs::Tokens::name_at))]
pub fn first_name(tokens: &[Token]) -> Option<(&Txt, &[Token])>
    ensures value { MatchOption result (name_at tokens.now ≡ None) (λ r. name_at tokens.now ≡ Some (r.0.now, r.1.now)) }
    ensures less { IfSome result (λ r. length r.1.now < length tokens.now) }
{
    match first(tokens) {
        Some((Token::Name(n), rest)) => Some((n, rest)),
        _ => None,
    }
}

fn unary_operator(sign: Sign) -> Option<Unary>
    ensures { result ≡ unary_of sign }
{
    match sign {
        Sign::Plus => Some(Unary::Plus),
        Sign::Minus => Some(Unary::Minus),
        Sign::Not => Some(Unary::Not),
        _ => None,
    }
}

/// The unary operator that they begin with.
#[tactic(auto, unfolding(ng_language::specs::Tokens::unary_at))]
pub fn first_unary(tokens: &[Token]) -> Option<(Unary, &[Token])>
    ensures value { MatchOption result (unary_at tokens.now ≡ None) (λ r. unary_at tokens.now ≡ Some (r.0, r.1.now)) }
    ensures less { IfSome result (λ r. length r.1.now < length tokens.now) }
{
    match first(tokens) {
        Some((Token::Sign(s), rest)) => match unary_operator(*s) {
            Some(op) => Some((op, rest)),
            None => None,
        },
        _ => None,
    }
}

/// What the sign is at this level, where it is an operator of it.
fn operator(level: Level, sign: Sign) -> Option<Joint>
    ensures { result ≡ joint_of level sign }
{
    match (level, sign) {
        (Level::Or, Sign::Or) => Some(Joint::Or),
        (Level::And, Sign::And) => Some(Joint::And),
        (Level::Equality, Sign::Equal) => Some(Joint::Operator(Binary::Equal)),
        (Level::Equality, Sign::NotEqual) => Some(Joint::Operator(Binary::NotEqual)),
        (Level::Equality, Sign::Same) => Some(Joint::Operator(Binary::Same)),
        (Level::Equality, Sign::NotSame) => Some(Joint::Operator(Binary::NotSame)),
        (Level::Relation, Sign::Less) => Some(Joint::Operator(Binary::Less)),
        (Level::Relation, Sign::Greater) => Some(Joint::Operator(Binary::Greater)),
        (Level::Relation, Sign::AtMost) => Some(Joint::Operator(Binary::AtMost)),
        (Level::Relation, Sign::AtLeast) => Some(Joint::Operator(Binary::AtLeast)),
        (Level::Sum, Sign::Plus) => Some(Joint::Operator(Binary::Add)),
        (Level::Sum, Sign::Minus) => Some(Joint::Operator(Binary::Subtract)),
        (Level::Term, Sign::Star) => Some(Joint::Operator(Binary::Multiply)),
        (Level::Term, Sign::Slash) => Some(Joint::Operator(Binary::Divide)),
        (Level::Term, Sign::Percent) => Some(Joint::Operator(Binary::Remainder)),
        _ => None,
    }
}

/// The operator of this level that they begin with.
#[tactic(auto, unfolding(ng_language::specs::Tokens::joint_at))]
pub fn first_operator(level: Level, tokens: &[Token]) -> Option<(Joint, &[Token])>
    ensures value { MatchOption result (joint_at level tokens.now ≡ None) (λ r. joint_at level tokens.now ≡ Some (r.0, r.1.now)) }
    ensures less { IfSome result (λ r. length r.1.now < length tokens.now) }
{
    match first(tokens) {
        Some((Token::Sign(s), rest)) => match operator(level, *s) {
            Some(op) => Some((op, rest)),
            None => None,
        },
        _ => None,
    }
}
