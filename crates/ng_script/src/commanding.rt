//! What a line commands.
ghost use Rattle.std.specs.Prelude.{Some};
ghost use Rattle.std.specs.Str.{chars};
ghost use Rattle.serde_json.specs.View.{view};
ghost use Rattle.ng_base.specs.Meets.{Gives};
ghost use Rattle.ng_script.specs.Free.{is_want};
ghost use Rattle.ng_script.specs.Acts.{act_of};
ghost use Rattle.ng_script.specs.Commanding.{click_of, fire_of, typed_of, check_of, eval_of, at_of, event_of, emit_of, broadcast_of, async_of, probe_of, destroy_of, act_named, command_of};

use crate::commands::{ScopeOf, What};
use crate::expressions::{read_program, read_pure};
use crate::fault::ScriptKind;
use crate::json::{read_list, read_object, read_text};
use crate::parts::{ended, next_event, next_flag, next_name, next_scope, next_target};
use crate::verbs::{Verb, next_verb};
use ng_base::txt::Txt;
use serde_json::Value as Json;
use std::alloc::Global;

fn read_click(alloc: Global, text: &str) -> Result<What, ScriptKind>
    ensures { Gives is_want act_of (click_of (chars text.now)) result }
{
    let (target, rest) = next_target(alloc, text)?;
    ended(What::Click(target), rest)
}

fn read_fire(alloc: Global, text: &str) -> Result<What, ScriptKind>
    ensures { Gives is_want act_of (fire_of (chars text.now)) result }
{
    let (event, rest) = next_event(alloc, text)?;
    let (target, rest) = next_target(alloc, rest)?;
    let extra = read_object(alloc, rest)?;
    Ok(What::Fire {
        event,
        target,
        extra,
    })
}

fn read_typed(alloc: Global, text: &str) -> Result<What, ScriptKind>
    ensures { Gives is_want act_of (typed_of (chars text.now)) result }
{
    let (target, rest) = next_target(alloc, text)?;
    let text = read_text(alloc, rest)?;
    Ok(What::Typed { target, text })
}

fn read_check(alloc: Global, text: &str) -> Result<What, ScriptKind>
    ensures { Gives is_want act_of (check_of (chars text.now)) result }
{
    let (target, rest) = next_target(alloc, text)?;
    let (on, rest) = next_flag(rest)?;
    ended(What::Check { target, on }, rest)
}

fn read_eval(alloc: Global, text: &str) -> Result<What, ScriptKind>
    ensures { Gives is_want act_of (eval_of (chars text.now)) result }
{
    let program = read_program(alloc, text)?;
    Ok(What::Eval(program))
}

fn read_at(alloc: Global, text: &str) -> Result<What, ScriptKind>
    ensures { Gives is_want act_of (at_of (chars text.now)) result }
{
    let (scope, rest) = next_scope(alloc, text)?;
    let program = read_program(alloc, rest)?;
    Ok(What::At { scope, program })
}

/// The scope, the name and the arguments of an event.
fn read_event(alloc: Global, text: &str) -> Result<(ScopeOf, Txt, Json), ScriptKind>
    ensures { Gives is_want (λ r. (r.0, r.1, view r.2)) (event_of (chars text.now)) result }
{
    let (scope, rest) = next_scope(alloc, text)?;
    let (name, rest) = next_name(alloc, rest)?;
    let args = read_list(alloc, rest)?;
    Ok((scope, name, args))
}

fn read_emit(alloc: Global, text: &str) -> Result<What, ScriptKind>
    ensures { Gives is_want act_of (emit_of (chars text.now)) result }
{
    let (scope, name, args) = read_event(alloc, text)?;
    Ok(What::Emit { scope, name, args })
}

fn read_broadcast(alloc: Global, text: &str) -> Result<What, ScriptKind>
    ensures { Gives is_want act_of (broadcast_of (chars text.now)) result }
{
    let (scope, name, args) = read_event(alloc, text)?;
    Ok(What::Broadcast { scope, name, args })
}

fn read_async(alloc: Global, text: &str) -> Result<What, ScriptKind>
    ensures { Gives is_want act_of (async_of (chars text.now)) result }
{
    let program = read_program(alloc, text)?;
    Ok(What::Async(program))
}

fn read_probe(alloc: Global, text: &str) -> Result<What, ScriptKind>
    ensures { Gives is_want act_of (probe_of (chars text.now)) result }
{
    let program = read_pure(alloc, text)?;
    Ok(What::Probe(program))
}

fn read_destroy(alloc: Global, text: &str) -> Result<What, ScriptKind>
    ensures { Gives is_want act_of (destroy_of (chars text.now)) result }
{
    let (scope, rest) = next_scope(alloc, text)?;
    ended(What::Destroy(scope), rest)
}

/// What a command with this word does, where that stands after the word.
fn read_named(alloc: Global, verb: Verb, text: &str) -> Result<What, ScriptKind>
    ensures { Gives is_want act_of (act_named (Some verb) (chars text.now)) result }
{
    match verb {
        Verb::Click => read_click(alloc, text),
        Verb::Fire => read_fire(alloc, text),
        Verb::Typed => read_typed(alloc, text),
        Verb::Check => read_check(alloc, text),
        Verb::Eval => read_eval(alloc, text),
        Verb::At => read_at(alloc, text),
        Verb::Emit => read_emit(alloc, text),
        Verb::Broadcast => read_broadcast(alloc, text),
        Verb::Async => read_async(alloc, text),
        Verb::Probe => read_probe(alloc, text),
        Verb::Destroy => read_destroy(alloc, text),
        Verb::Digest => ended(What::Digest, text),
    }
}

/// What a line commands.
pub fn read_command(alloc: Global, line: &str) -> Result<What, ScriptKind>
    ensures { Gives is_want act_of (command_of (chars line.now)) result }
{
    let (verb, rest) = next_verb(line);
    match verb {
        Some(verb) => read_named(alloc, verb, rest),
        None => Err(ScriptKind::UnknownCommand),
    }
}
