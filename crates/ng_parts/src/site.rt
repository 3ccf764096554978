//! Sites, the watched expressions of a template (guide: Scopes, "`$digest`").
ghost use Rattle.std.specs.Prelude.{◌≡◌, ◌+◌, true, IfOk};
ghost use Rattle.ng_parse.specs.ProgramOf.{program as trees};
ghost use Rattle.ng_evaluation.specs.Purity.{are_pure, all_filters_known};

use ng_base::fault::Memory;
use ng_drawing::kind::SiteKind;
use ng_parse::Program;
use std::alloc::Global;

/// The most sites of a template.
pub const SITE_LIMIT: usize = 4_294_967_295;

/// What is watched. Its program is pure and names known filters alone.
#[derive(Drop)]
pub struct Site {
    kind: SiteKind,
    one_time: bool,
    program: Program,
    ghost known: { all_filters_known (trees program) ≡ true },
    ghost pure: { are_pure (trees program) ≡ true },
}

impl Site {
    ghost use Rattle.ng_parts.specs.SiteOf.{site_of, site_with};

    /// A site of a program.
    pub fn new(kind: SiteKind, one_time: bool, program: Program) -> Site
        requires known { all_filters_known (trees program) ≡ true }
        requires pure { are_pure (trees program) ≡ true }
        ensures { site_of result ≡ site_with kind one_time (trees program) }
    {
        Site {
            kind,
            one_time,
            program,
        }
    }

    /// What a watcher keeps of the value.
    pub fn kind(&self) -> SiteKind
        ensures { result ≡ (site_of self.now).kind }
    {
        self.kind
    }

    /// Whether it ends once it has a value (guide: Expressions, "One-time binding").
    pub fn one_time(&self) -> bool
        ensures { result ≡ (site_of self.now).one_time }
    {
        self.one_time
    }

    /// The program.
    pub fn program(&self) -> &Program
        ensures program { trees result.now ≡ (site_of self.now).program }
        ensures known { all_filters_known (trees result.now) ≡ true }
        ensures pure { are_pure (trees result.now) ≡ true }
    {
        &self.program
    }

    /// The same site again. Its program has one owner more.
    pub fn copied(&self, alloc: Global) -> Result<Site, Memory>
        ensures { IfOk result (λ s. site_of s ≡ site_of self.now) }
    {
        let program = self.program.copied(alloc)?;
        Ok(Site::new(self.kind, self.one_time, program))
    }
}

/// The number of a site after so many others.
pub fn after(by: u32, n: u32) -> Result<u32, Memory>
    ensures { IfOk result (λ m. m ≡ by + n) }
{
    match by.checked_add(n) {
        None => Err(Memory::Worn),
        Some(m) => Ok(m),
    }
}
