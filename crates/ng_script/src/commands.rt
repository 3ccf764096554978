//! The commands of a script.

use ng_base::path::Target;
use ng_base::txt::Txt;
use ng_parse::Program;
use serde_json::Value as Json;
use std::alloc::{AllocError, Global};

/// The scope that a command is aimed at: the root, or the scope of a node.
#[derive(Drop)]
pub enum ScopeOf {
    Root,
    Node(Target),
}

/// What a command is to do, with its words read. `Typed` is the command `type`.
#[derive(Drop)]
pub enum What {
    /// The event `click`.
    Click(Target),
    /// An event with the extra names of an object.
    Fire {
        event: Txt,
        target: Target,
        extra: Json,
    },
    /// A text is typed into a control.
    Typed {
        target: Target,
        text: Txt,
    },
    /// A checkbox is checked, or is not.
    Check {
        target: Target,
        on: bool,
    },
    /// A program runs on the root.
    Eval(Program),
    /// A program runs on a scope.
    At {
        scope: ScopeOf,
        program: Program,
    },
    /// An event goes up from a scope, with a list of arguments.
    Emit {
        scope: ScopeOf,
        name: Txt,
        args: Json,
    },
    /// An event goes down from a scope, with a list of arguments.
    Broadcast {
        scope: ScopeOf,
        name: Txt,
        args: Json,
    },
    /// A program becomes a task of the root.
    Async(Program),
    /// A pure program is evaluated and shown.
    Probe(Program),
    /// A scope is destroyed.
    Destroy(ScopeOf),
    /// A digest is made.
    Digest,
}

/// A command: its text without outer blanks, the number of its line, and what it is to do.
#[derive(Drop)]
pub struct Command {
    pub shown: Txt,
    pub line: u64,
    pub what: What,
}

/// The commands of a script, in order.
#[derive(Drop)]
pub struct Commands {
    items: Vec<Command>,
}

impl Commands {
    ghost use Rattle.std.specs.Prelude.{◌≡◌, ◌++◌, ◌∷◌, [], length, map, OnOk, OnErr};
    ghost use Rattle.ng_script.specs.Acts.{entry_of, entries_of};

    /// No command.
    pub fn new(alloc: Global) -> Commands
        ensures { entries_of result ≡ [] }
    {
        Commands {
            items: Vec::new(alloc),
        }
    }

    /// Adds a command at the end.
    pub fn push(&mut self, command: Command) -> Result<(), AllocError>
        ensures ok { OnOk result (entries_of self.new ≡ entries_of self.old ++ entry_of command ∷ []) }
        ensures err { OnErr result (entries_of self.new ≡ entries_of self.old) }
    {
        self.items.push(command)?;
        Ok(())
    }

    /// How many they are.
    pub fn len(&self) -> usize
        ensures { result ≡ length (entries_of self.now) }
    {
        self.items.len()
    }

    /// All of them, in order.
    pub fn as_slice(&self) -> &[Command]
        ensures { map entry_of result.now ≡ entries_of self.now }
    {
        self.items.as_slice()
    }
}
