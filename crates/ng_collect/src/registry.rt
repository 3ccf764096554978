//! The directives of an application.
ghost use Rattle.std.specs.Prelude.{◌≡◌, ◌++◌, ◌∷◌, [], false, OnOk, OnErr, IfOk, IfErr, OnOk, MatchResult};
ghost use Rattle.ng_base.specs.declared.fault.Memory.TheVariants.{Refused};
ghost use Rattle.ng_collect.specs.Definitions.{IsDefinition, Refuses};
ghost use Rattle.ng_collect.specs.Free.{is_free_def};

use crate::definition::{DirectiveDef, is_bound, is_directive_name, is_restrict};
use crate::fault::DefFault;
use ng_base::fault::Memory;
use std::alloc::Global;
use std::marker::Model;

/// The definitions of an application, in order of registration. The core's directives are in every registry.
#[derive(Drop)]
pub struct Registry {
    alloc: Global,
    defs: Vec<DirectiveDef>,
}

impl Model for Registry {
    ghost use Rattle.std.specs.Prelude.{List};
    ghost use Rattle.ng_collect.specs.declared.definition.DirectiveDef.{DirectiveDef};

    ghost Value = { List DirectiveDef };

    ghost view = { λ r. r.defs.items };
}

/// Whether a definition is one, or the first reason why not.
fn tested(alloc: Global, d: &DirectiveDef) -> Result<(), DefFault>
    ensures { MatchResult result (λ _. IsDefinition d.now) (λ e. is_free_def e ≡ false → Refuses d.now e) }
{
    if !is_directive_name(&d.name) {
        return Err(DefFault::BadName);
    }
    match is_bound(alloc, &d.scope) {
        Ok(true) => (),
        Ok(false) => return Err(DefFault::BadBinding),
        Err(memory) => return Err(DefFault::Memory(memory)),
    }
    if !is_restrict(&d.restrict) {
        return Err(DefFault::BadRestrict);
    }
    Ok(())
}

impl Registry {
    /// The core's directives alone.
    pub fn new(alloc: Global) -> Result<Registry, Memory>
        ensures core { IfOk result (λ r. r ≡ []) }
        ensures refused { IfErr result (λ e. e ≡ Refused) }
    {
        Ok(Registry {
            alloc,
            defs: Vec::new(alloc),
        })
    }

    /// Registers a directive. A definition whose name is none is BadName, else one with a text that is no binding is
    /// BadBinding, else one that stands on nothing, or says so twice, is BadRestrict.
    pub fn add(&mut self, d: DirectiveDef) -> Result<(), DefFault>
        ensures answer { MatchResult result (λ _. IsDefinition d) (λ e. is_free_def e ≡ false → Refuses d e) }
        ensures added { OnOk result (self.new ≡ self.old ++ d ∷ []) }
        ensures unchanged { OnErr result (self.new ≡ self.old) }
    {
        tested(self.alloc, &d)?;
        self.defs.push(d)?;
        Ok(())
    }

    /// The definitions in order of registration.
    pub fn definitions(&self) -> &[DirectiveDef]
        ensures { result.now ≡ self.now }
    {
        self.defs.as_slice()
    }
}
