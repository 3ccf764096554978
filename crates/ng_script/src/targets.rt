//! Targets of commands.
ghost use Rattle.std.specs.Prelude.{◌≡◌, ◌<◌, [], None};
ghost use Rattle.std.specs.Char.{is_ascii_digit};
ghost use Rattle.std.specs.Str.{chars};
ghost use Rattle.ng_base.specs.Meets.{Gives};
ghost use Rattle.ng_script.specs.Free.{is_want};
ghost use Rattle.ng_script.specs.Targets.{with_digit, numbers_from, id_of, target_of};

use crate::fault::ScriptKind;
use ng_base::path::{Path, Target};
use ng_base::reader::Plain;
use ng_base::txt::Txt;
use std::alloc::Global;

/// Whether it is a digit.
fn digit(c: char) -> bool
    ensures { result ≡ is_ascii_digit c }
{
    '0' <= c && c <= '9'
}

/// A number with one digit more.
fn with_digit(number: Option<u32>, c: char) -> Option<u32>
    ensures { result ≡ with_digit number c }
{
    if !digit(c) {
        return None;
    }
    let value = 10 * (number.unwrap_or(0) as u64) + (c as u64 - 48);
    if value <= u32::MAX as u64 {
        Some(value as u32)
    } else {
        None
    }
}

/// The numbers of a path after its first `/`.
fn read_numbers(alloc: Global, mut reader: Plain<'_>) -> Result<Path, ScriptKind>
    ensures { Gives is_want (λ p. p) (numbers_from [] None reader.entry) result }
{
    let mut path = Path::new(alloc);
    let mut number = None;
    while let Some((c, rest)) = reader.first() {
        if c == '/' {
            match number {
                None => return Err(ScriptKind::BadTarget),
                Some(n) => path.push(n)?,
            }
            number = None;
        } else {
            match with_digit(number, c) {
                None => return Err(ScriptKind::BadTarget),
                Some(n) => number = Some(n),
            }
        }
        reader = rest;
    }
    match number {
        None => Err(ScriptKind::BadTarget),
        Some(n) => {
            path.push(n)?;
            Ok(path)
        }
    }
}

fn read_id(alloc: Global, id: Plain<'_>) -> Result<Target, ScriptKind>
    ensures { Gives is_want (λ t. t) (id_of id.entry) result }
{
    if id.first().is_none() {
        return Err(ScriptKind::BadTarget);
    }
    Ok(Target::Id(Txt::from_str(alloc, id.rest())?))
}

/// The target that a word is.
pub fn read_target(alloc: Global, word: &str) -> Result<Target, ScriptKind>
    ensures { Gives is_want (λ t. t) (target_of (chars word.now)) result }
{
    match Plain::new(word).first() {
        None => Err(ScriptKind::BadTarget),
        Some((c, rest)) => {
            if c == '#' {
                read_id(alloc, rest)
            } else if c == '/' {
                let path = read_numbers(alloc, rest)?;
                Ok(Target::Path(path))
            } else {
                Err(ScriptKind::BadTarget)
            }
        }
    }
}
