//! A program that has been read. Copies share their statements.
ghost use Rattle.ng_language.specs.Heights.{heights};
ghost use Rattle.ng_language.specs.Trees.{trees_from};
ghost use Rattle.ng_parse.specs.TreeOf.{tree};
ghost use Rattle.std.specs.Prelude.{◌≡◌, ◌≤◌, map, IfOk};

use crate::tree::Expr;
use ng_base::fault::Memory;
use std::alloc::Global;
use std::rc::Rc;

/// The statements of a text, none of them higher than 100.
#[derive(Drop)]
pub struct Program {
    statements: Rc<Vec<Expr>>,
    ghost low: { heights (trees_from (map tree statements.value.items)) ≤ 100 },
}

impl Program {
    ghost use Rattle.ng_parse.specs.ProgramOf.{program};

    /// The statements in order.
    pub fn statements(&self) -> &[Expr]
        ensures seen { trees_from (map tree result.now) ≡ program self.now }
        ensures low { heights (program self.now) ≤ 100 }
    {
        self.statements.as_ref().as_slice()
    }

    /// A copy, which shares its statements with this program. It is refused where there are as many copies as can be
    /// counted.
    pub fn copied(&self, _alloc: Global) -> Result<Program, Memory>
        ensures { IfOk result (λ p. program p ≡ program self.now) }
    {
        let statements = self.statements.clone()?;
        Ok(Program { statements })
    }

    /// The program of statements that are low enough.
    pub(crate) fn from_low(alloc: Global, statements: Vec<Expr>) -> Result<Program, Memory>
        requires { heights (trees_from (map tree statements.items)) ≤ 100 }
        ensures { IfOk result (λ p. program p ≡ trees_from (map tree statements.items)) }
    {
        let statements = Rc::new(alloc, statements)?;
        Ok(Program { statements })
    }
}
