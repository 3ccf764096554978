//! The programs of a directive (guide: Directives, "Creating Directives").
ghost use Rattle.std.specs.Prelude.{◌≡◌, true, map, IfOk};
ghost use Rattle.ng_parse.specs.ProgramOf.{program as trees_of};
ghost use Rattle.ng_evaluation.specs.Purity.{are_pure, all_filters_known};

use ng_base::fault::Memory;
use ng_base::lists::Names;
use ng_base::txt::Txt;
use ng_language::snapshots::SnapKind;
use ng_parse::Program;
use std::alloc::{AllocError, Global};

/// A function that is installed: its name, its parameters, its program.
#[derive(Drop)]
pub struct Function {
    pub name: Txt,
    pub params: Names,
    pub program: Program,
}

/// A watch that is declared: what it compares, what is watched, and the program that runs where it differs.
#[derive(Drop)]
pub struct Watch {
    pub kind: SnapKind,
    pub watched: Program,
    pub listener: Program,
    ghost pure: { are_pure (trees_of watched) ≡ true },
    ghost known: { all_filters_known (trees_of watched) ≡ true },
}

/// A listener that is registered: the event, and the program that runs.
#[derive(Drop)]
pub struct Listener {
    pub name: Txt,
    pub program: Program,
}

impl Watch {
    ghost use Rattle.ng_parts.specs.ProgramsOf.{watch_of};

    /// The same again. Its programs are shared.
    pub fn copied(&self, alloc: Global) -> Result<Watch, Memory>
        ensures { IfOk result (λ c. watch_of c ≡ watch_of self.now) }
    {
        Ok(Watch {
            kind: self.kind,
            watched: self.watched.copied(alloc)?,
            listener: self.listener.copied(alloc)?,
        })
    }
}

impl Listener {
    ghost use Rattle.ng_parts.specs.ProgramsOf.{listener_of};

    /// The same again. Its program is shared.
    pub fn copied(&self, alloc: Global) -> Result<Listener, Memory>
        ensures { IfOk result (λ c. listener_of c ≡ listener_of self.now) }
    {
        Ok(Listener {
            name: self.name.copied()?,
            program: self.program.copied(alloc)?,
        })
    }
}

/// Names again.
fn copied_names(alloc: Global, names: &Names) -> Result<Names, AllocError>
    ensures { IfOk result (λ v. v ≡ names.now) }
{
    let mut copies = Names::new(alloc);
    for name in names.as_slice() {
        copies.push(name.copied()?)?;
    }
    Ok(copies)
}

impl Function {
    ghost use Rattle.ng_parts.specs.ProgramsOf.{function_of};

    /// The same again. Its program is shared.
    pub fn copied(&self, alloc: Global) -> Result<Function, Memory>
        ensures { IfOk result (λ c. function_of c ≡ function_of self.now) }
    {
        Ok(Function {
            name: self.name.copied()?,
            params: copied_names(alloc, &self.params)?,
            program: self.program.copied(alloc)?,
        })
    }
}

/// What a directive does on its scope: functions are installed before the children of its element are linked; watches, listeners and a program
/// come after them.
#[derive(Drop)]
pub struct Programs {
    pub functions: Vec<Function>,
    pub watches: Vec<Watch>,
    pub listeners: Vec<Listener>,
    pub link: Program,
}

impl Programs {
    ghost use Rattle.ng_parts.specs.ProgramsOf.{function_of, watch_of, listener_of};

    /// The functions again.
    pub fn copied_functions(&self, alloc: Global) -> Result<Vec<Function>, Memory>
        ensures { IfOk result (λ v. map function_of v.items ≡ map function_of self.now.functions.items) }
    {
        let mut copies = Vec::new(alloc);
        for function in self.functions.as_slice() {
            copies.push(function.copied(alloc)?)?;
        }
        Ok(copies)
    }

    /// The watches again.
    pub fn copied_watches(&self, alloc: Global) -> Result<Vec<Watch>, Memory>
        ensures { IfOk result (λ v. map watch_of v.items ≡ map watch_of self.now.watches.items) }
    {
        let mut copies = Vec::new(alloc);
        for watch in self.watches.as_slice() {
            copies.push(watch.copied(alloc)?)?;
        }
        Ok(copies)
    }

    /// The listeners again.
    pub fn copied_listeners(&self, alloc: Global) -> Result<Vec<Listener>, Memory>
        ensures { IfOk result (λ v. map listener_of v.items ≡ map listener_of self.now.listeners.items) }
    {
        let mut copies = Vec::new(alloc);
        for listener in self.listeners.as_slice() {
            copies.push(listener.copied(alloc)?)?;
        }
        Ok(copies)
    }
}
