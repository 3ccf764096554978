//! The command line, as `clap` is told it.
ghost use Rattle.std.specs.Prelude.{◌≡◌, IfOk, Some, false};
ghost use Rattle.clap.specs.Words.{app_of, rule_of};
ghost use Rattle.ng_words.specs.Words.{command_line, positional as positional_of, flag as flag_of, with_value as with_value_of};

use clap::{Arg, ArgAction, Command};
use std::alloc::{AllocError, Global};

/// A part that is told by its place.
fn positional<'a>(alloc: Global, name: &'a str) -> Arg<'a>
    ensures rule { rule_of result ≡ positional_of name.entry.now }
    ensures local { result.global ≡ false }
{
    Arg::new(alloc, name)
}

/// The flag `--name`.
fn flag<'a>(alloc: Global, name: &'a str) -> Arg<'a>
    ensures rule { rule_of result ≡ flag_of name.entry.now }
    ensures local { result.global ≡ false }
{
    Arg::new(alloc, name).long(name).action(ArgAction::SetTrue)
}

/// The option `--name`, which has a value.
fn with_value<'a>(alloc: Global, name: &'a str) -> Arg<'a>
    ensures rule { rule_of result ≡ with_value_of name.entry.now }
    ensures local { result.global ≡ false }
{
    Arg::new(alloc, name).long(name)
}

/// The command line of the program, whose words don't begin with the program's name.
pub(crate) fn command<'a>(alloc: Global) -> Result<Command<'a>, AllocError>
    ensures { IfOk result (λ c. app_of c ≡ command_line) }
{
    Command::new(alloc, "ngrun")
        .no_binary_name(true)
        .arg(positional(alloc, "template"))?
        .arg(positional(alloc, "application"))?
        .arg(positional(alloc, "script"))?
        .arg(flag(alloc, "trace"))?
        .arg(flag(alloc, "patches"))?
        .arg(flag(alloc, "static"))?
        .arg(with_value(alloc, "load"))
}
