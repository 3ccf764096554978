//! The core: all that programs change.
ghost use Rattle.std.specs.Prelude.{◌≡◌};
ghost use Rattle.ng_core.specs.State.{handed_over};

use crate::event_names::EventNames;
use crate::pending::{Task, WatchChange};
use ng_base::fault::Fault;
use ng_base::lists::Names;
use ng_base::locals::Locals;
use ng_base::name::{ScopeId, Serial};
use ng_events::listeners::Listeners;
use ng_parse::Program;
use ng_scopes::scopes::Scopes;
use ng_store::Store;
use std::collections::VecDeque;

/// What a function's name stands for.
#[derive(Drop)]
pub enum Function {
    /// A declared function: its scope, its parameters, its program.
    Declared(ScopeId, Names, Program),
    /// The function that takes out the listener of the same name.
    Taker,
    /// The function that takes out the declared watch of a scope and a number.
    Unwatcher(ScopeId, Serial),
    /// A program on an outer scope, as a directive's `&` binding gives (guide: Directives).
    Outer(ScopeId, Program),
}

/// How many faults were handed over, and the first of them.
#[derive(Clone, Copy, Debug, PartialEq, Eq)]
pub struct Handed {
    pub count: u32,
    pub first: Option<Fault>,
}

/// All that programs change.
#[derive(Drop)]
pub struct Core {
    pub store: Store,
    pub scopes: Scopes,
    pub listeners: Listeners,
    pub funs: Vec<Function>,
    /// The locals of the body that runs.
    pub locals: Locals,
    /// The events whose `stopPropagation` was called and that go on.
    pub stopped: Vec<u32>,
    /// The programs that wait for the digest, in order.
    pub tasks: VecDeque<Task>,
    /// The programs whose values the digest gives once it has settled, in order.
    pub probes: Vec<Program>,
    /// What the watchers are to become, in order.
    pub changes: Vec<WatchChange>,
    /// The next registration number.
    pub serial: Serial,
    /// How many bodies this command entered.
    pub bodies: u32,
    /// How many bodies and events are open.
    pub depth: u32,
    pub handed: Handed,
    /// The names that the objects of events have.
    pub event_names: EventNames,
}

/// A fault more.
pub fn noted(handed: Handed, fault: Fault) -> Handed
    ensures { result ≡ handed_over fault handed }
{
    let first = match handed.first {
        Some(first) => Some(first),
        None => Some(fault),
    };
    Handed {
        count: handed.count.saturating_add(1),
        first,
    }
}
