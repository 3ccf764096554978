//! Reads a script.
ghost use Rattle.std.specs.Prelude.{◌≡◌, ◌<◌, ◌+◌, [], true, false, count_by, ◌==◌};
ghost use Rattle.ng_base.specs.Codes.{line_feed};
ghost use Rattle.std.specs.Prelude.{IfOk, IfErr, List, Ok, Err};
ghost use Rattle.std.specs.Str.{chars};
ghost use Rattle.ng_base.specs.Meets.{Gives};
ghost use Rattle.ng_script.specs.Acts.{entries_of, Entry};
ghost use Rattle.ng_script.specs.Readings.{IsScript, Refuses};
ghost use Rattle.ng_script.specs.declared.fault.ScriptFault.{ScriptFault as Fault};
ghost use Rattle.ng_script.specs.Free.{is_want, is_free};
ghost use Rattle.ng_script.specs.Lines.{lines};
ghost use Rattle.ng_script.specs.Scripts.{fault as fault_of, begins_slash, is_skipped, with_line, commands_from, ill_formed_line, script_of};

use crate::commanding::read_command;
use crate::commands::{Command, Commands};
use crate::cut::{next_line, trimmed};
use crate::fault::{ScriptFault, ScriptKind};
use ng_base::fault::Memory;
use ng_base::reader::Plain;
use ng_base::txt::Txt;
use std::alloc::Global;

/// A script has at most so many commands.
const MOST: usize = 100_000;

fn fault(line: u64, kind: ScriptKind) -> ScriptFault
    ensures { result ≡ fault_of line kind }
{
    ScriptFault { line, kind }
}

/// A refusal in its line. Want of memory stands in none.
fn in_line(line: u64, kind: ScriptKind) -> ScriptFault
    ensures stands { is_want kind ≡ false → result ≡ fault_of line kind }
    ensures free { is_want kind ≡ true → is_free result ≡ true }
{
    match kind {
        ScriptKind::Memory(Memory::Refused) => fault(0, kind),
        _ => fault(line, kind),
    }
}

/// Whether a text begins with a `/`.
fn begins_slash(text: &Plain<'_>) -> bool
    ensures { result ≡ begins_slash text.now }
{
    match text.first() {
        None => false,
        Some((c, _)) => c == '/',
    }
}

/// Whether a line is empty or begins with `//`.
fn is_skipped(line: &str) -> bool
    ensures { result ≡ is_skipped (chars line.now) }
{
    match Plain::new(line).first() {
        None => true,
        Some((c, rest)) => c == '/' && begins_slash(&rest),
    }
}

/// The commands with that of one line more.
fn take_line(
    alloc: Global,
    mut commands: Commands,
    line: u64,
    text: &str,
) -> Result<Commands, ScriptFault>
    ensures { Gives is_free entries_of (with_line line (entries_of commands) (chars text.now)) result }
{
    if is_skipped(text) {
        return Ok(commands);
    }
    if commands.len() >= MOST {
        return Err(fault(line, ScriptKind::TooMany));
    }
    match read_command(alloc, text) {
        Err(kind) => Err(in_line(line, kind)),
        Ok(what) => {
            let shown = Txt::from_str(alloc, text)?;
            commands.push(Command { shown, line, what })?;
            Ok(commands)
        }
    }
}

/// The commands of a text.
fn read_lines(alloc: Global, text: &str) -> Result<Commands, ScriptFault>
    ensures { Gives is_free entries_of (commands_from 0 [] (lines (chars text.now))) result }
{
    let mut commands = Commands::new(alloc);
    let mut count = 0;
    let mut left = Some(text);
    while let Some(rest) = left {
        let (line, more) = next_line(rest);
        count += 1;
        commands = take_line(alloc, commands, count, trimmed(line))?;
        left = more;
    }
    Ok(commands)
}

/// The number of the line in which the bytes stop being UTF-8, which is after so many of them.
fn ill_formed_line(valid: &[u8]) -> u64
    ensures { result ≡ count_by (λ b. b == line_feed) valid.now + 1 }
{
    let feeds = valid.iter().filter(|b| **b == b'\n').count();
    feeds as u64 + 1
}

/// The commands of a script, or the first refusal of its lines.
pub fn read(alloc: Global, bytes: &[u8]) -> Result<Commands, ScriptFault>
    // What is read is spelled so: each line is skipped or spells its command.
    ensures found { IfOk result (λ commands. IsScript (entries_of commands) bytes.now) }

    // What is spelled so is read, unless memory is refused.
    ensures only { (es : List Entry) → IsScript es bytes.now → Gives is_free entries_of (Ok es) result }

    // What is refused is the refusal of these bytes: the lines before it are commands, and that line cannot be one.
    ensures refused { IfErr result (λ f. is_free f ≡ false → Refuses bytes.now f) }

    // The refusal of these bytes is what is answered, unless memory is refused.
    ensures one { (f : Fault) → Refuses bytes.now f → Gives is_free entries_of (Err f) result }

    // The answer is the one of the reading from the left, unless memory is refused.
    ensures exact { Gives is_free entries_of (script_of bytes.now) result }
{
    read_bytes(alloc, bytes)
}

fn read_bytes(alloc: Global, bytes: &[u8]) -> Result<Commands, ScriptFault>
    ensures { Gives is_free entries_of (script_of bytes.now) result }
{
    match str::from_utf8(bytes) {
        Err(e) => Err(fault(ill_formed_line(&bytes[..e.valid_up_to()]), ScriptKind::Utf8)),
        Ok(text) => read_lines(alloc, text),
    }
}
