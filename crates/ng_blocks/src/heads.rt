//! The names before `in`.
ghost use Rattle.std.specs.Prelude.{◌≡◌, IfOk, MatchOption, None, Some};
ghost use Rattle.ng_blocks.specs.Heads.{one_name, two_names, head_in, head_of};

use crate::repeats::Head;
use ng_base::fault::Memory;
use ng_base::txt::Txt;
use ng_language::syntax::{LexKind, Sign, Token};
use ng_lex::lex;
use ng_parse::first::{behind, first_name};
use std::alloc::{AllocError, Global};

/// The name that the tokens are.
fn one(tokens: &[Token]) -> Option<&Txt>
    ensures { MatchOption result (one_name tokens.now ≡ None) (λ n. one_name tokens.now ≡ Some n.now) }
{
    let (name, rest) = first_name(tokens)?;
    if rest.is_empty() { Some(name) } else { None }
}

/// The two names in parentheses that the tokens are.
fn two(tokens: &[Token]) -> Option<(&Txt, &Txt)>
    ensures { MatchOption result (two_names tokens.now ≡ None) (λ r. two_names tokens.now ≡ Some (r.0.now, r.1.now)) }
{
    let rest = behind(Sign::OpenRound, tokens)?;
    let (key, rest) = first_name(rest)?;
    let rest = behind(Sign::Comma, rest)?;
    let (name, rest) = first_name(rest)?;
    let rest = behind(Sign::CloseRound, rest)?;
    if rest.is_empty() {
        Some((key, name))
    } else {
        None
    }
}

fn read_names(tokens: &[Token]) -> Result<Option<Head>, AllocError>
    ensures { IfOk result (λ h. h ≡ head_in tokens.now) }
{
    if let Some(name) = one(tokens) {
        let name = name.copied()?;
        return Ok(Some(Head { key: None, name }));
    }
    match two(tokens) {
        Some((key, name)) => {
            let key = Some(key.copied()?);
            let name = name.copied()?;
            Ok(Some(Head { key, name }))
        }
        None => Ok(None),
    }
}

/// The names that a text spells, with white space round them.
pub fn read_head(alloc: Global, text: &Txt) -> Result<Option<Head>, Memory>
    ensures { IfOk result (λ h. h ≡ head_of text.now) }
{
    match lex(alloc, text.as_str()) {
        Ok(tokens) => Ok(read_names(tokens.tokens.as_slice())?),
        Err(fault) => match fault.kind {
            LexKind::Memory(memory) => Err(memory),
            _ => Ok(None),
        },
    }
}
