//! The parts of a command, from the left.
ghost use Rattle.std.specs.Prelude.{◌≡◌};
ghost use Rattle.std.specs.Str.{chars};
ghost use Rattle.ng_base.specs.Meets.{Gives};
ghost use Rattle.ng_script.specs.Free.{is_want};
ghost use Rattle.ng_script.specs.Acts.{act_of};
ghost use Rattle.ng_script.specs.Parts.{is_over, ended, next_target, scope_of, next_scope, next_name, next_event, next_flag};

use crate::commands::{ScopeOf, What};
use crate::cut::next_word;
use crate::fault::ScriptKind;
use crate::targets::read_target;
use crate::verbs::{flag_of, is_event, is_root};
use ng_base::path::Target;
use ng_base::reader::Plain;
use ng_base::txt::Txt;
use std::alloc::Global;

/// Whether nothing stands there.
pub fn is_over(text: &str) -> bool
    ensures { result ≡ is_over (chars text.now) }
{
    Plain::new(text).first().is_none()
}

/// What is read, where nothing more stands there.
pub fn ended(what: What, rest: &str) -> Result<What, ScriptKind>
    ensures { Gives is_want act_of (ended (act_of what) (chars rest.now)) result }
{
    if is_over(rest) {
        Ok(what)
    } else {
        Err(ScriptKind::BadArgument)
    }
}

/// The target that stands next.
pub fn next_target(alloc: Global, text: &str) -> Result<(Target, &str), ScriptKind>
    ensures { Gives is_want (λ r. (r.0, chars r.1.now)) (next_target (chars text.now)) result }
{
    if is_over(text) {
        return Err(ScriptKind::BadArgument);
    }
    let (word, rest) = next_word(text);
    let target = read_target(alloc, word)?;
    Ok((target, rest))
}

/// The scope that a word names.
fn read_scope(alloc: Global, word: &str) -> Result<ScopeOf, ScriptKind>
    ensures { Gives is_want (λ s. s) (scope_of (chars word.now)) result }
{
    if is_root(word) {
        return Ok(ScopeOf::Root);
    }
    let target = read_target(alloc, word)?;
    Ok(ScopeOf::Node(target))
}

/// The scope that stands next.
pub fn next_scope(alloc: Global, text: &str) -> Result<(ScopeOf, &str), ScriptKind>
    ensures { Gives is_want (λ r. (r.0, chars r.1.now)) (next_scope (chars text.now)) result }
{
    if is_over(text) {
        return Err(ScriptKind::BadArgument);
    }
    let (word, rest) = next_word(text);
    let scope = read_scope(alloc, word)?;
    Ok((scope, rest))
}

/// The name that stands next.
pub fn next_name(alloc: Global, text: &str) -> Result<(Txt, &str), ScriptKind>
    ensures { Gives is_want (λ r. (r.0, chars r.1.now)) (next_name (chars text.now)) result }
{
    if is_over(text) {
        return Err(ScriptKind::BadArgument);
    }
    let (word, rest) = next_word(text);
    let name = Txt::from_str(alloc, word)?;
    Ok((name, rest))
}

/// The event that stands next.
pub fn next_event(alloc: Global, text: &str) -> Result<(Txt, &str), ScriptKind>
    ensures { Gives is_want (λ r. (r.0, chars r.1.now)) (next_event (chars text.now)) result }
{
    if is_over(text) {
        return Err(ScriptKind::BadArgument);
    }
    let (word, rest) = next_word(text);
    if !is_event(word) {
        return Err(ScriptKind::UnknownCommand);
    }
    let event = Txt::from_str(alloc, word)?;
    Ok((event, rest))
}

/// The truth value that stands next.
pub fn next_flag(text: &str) -> Result<(bool, &str), ScriptKind>
    ensures { Gives is_want (λ r. (r.0, chars r.1.now)) (next_flag (chars text.now)) result }
{
    let (word, rest) = next_word(text);
    match flag_of(word) {
        Some(on) => Ok((on, rest)),
        None => Err(ScriptKind::BadArgument),
    }
}
