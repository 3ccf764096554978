//! What a function does when it is called.
ghost use Rattle.std.specs.Prelude.{◌≡◌, ◌<◌, length, map, slice_get, IfOk};
ghost use Rattle.std.specs.List.{AllByRecursion};
ghost use Rattle.std.specs.Option.{option_copied};
ghost use Rattle.ng_base.specs.Views.{views_list};
ghost use Rattle.ng_base.specs.ViewOf.{views_of};
ghost use Rattle.ng_language.specs.Views.{ViewStands};
ghost use Rattle.ng_core.specs.CalleeOf.{found_of, CalleeStands};
ghost use Rattle.ng_core.specs.Calling.{found_as, found_in};
ghost use Rattle.ng_core.specs.Frames.{fun_of, FunStands, IsSound};

use crate::binding::{bound, names_bound};
use crate::core_state::{Core, Function};
use ng_base::fault::Memory;
use ng_base::locals::Locals;
use ng_base::name::{FunId, ScopeId, Serial};
use ng_base::view::Views;
use ng_members::lists::argument;
use ng_members::members::undefined;
use ng_parse::Program;
use std::alloc::Global;

/// What a function does when it is called: nothing is declared under its name; it takes a listener or a declared watch
/// out; or it is a body on a scope, with its locals.
#[derive(Drop)]
pub enum Callee {
    None,
    Taker,
    Unwatcher(ScopeId, Serial),
    Body(ScopeId, Locals, Program),
}

/// What a function that stands does with its arguments.
#[tactic(auto, using(crate::proofs::FoundFunctions::bound))]
fn callee_of(
    core: &Core,
    alloc: Global,
    function: &Function,
    args: &Views,
) -> Result<Callee, Memory>
    requires function { FunStands (length core.now.scopes) (fun_of function.now) }
    requires args { AllByRecursion (ViewStands (length core.now.store)) (views_list (views_of args.now)) }
    ensures found { IfOk result (λ c. found_of c ≡ found_as core.now.store (fun_of function.now) (views_list (views_of args.now))) }
    ensures stands { IfOk result (CalleeStands (length core.now.store) (length core.now.scopes)) }
{
    match function {
        Function::Taker => Ok(Callee::Taker),
        Function::Unwatcher(scope, serial) => Ok(Callee::Unwatcher(*scope, *serial)),
        Function::Declared(scope, params, p) => {
            let locals = bound(alloc, params, args)?;
            Ok(Callee::Body(*scope, locals, p.copied(alloc)?))
        }
        Function::Outer(scope, p) => {
            let missing = undefined();
            let locals = names_bound(alloc, &core.store, argument(args, 0, &missing))?;
            Ok(Callee::Body(*scope, locals, p.copied(alloc)?))
        }
    }
}

/// The function of a name.
fn function_at(core: &Core, f: FunId) -> Option<&Function>
    ensures { option_copied result ≡ slice_get core.now.funs.items f.0 }
{
    core.funs.get(f.0 as usize)
}

/// What a function does with its arguments.
#[tactic(auto, using(crate::proofs::FoundFunctions::found))]
pub fn find_callee(core: &Core, alloc: Global, f: FunId, args: &Views) -> Result<Callee, Memory>
    requires sound { IsSound core.now }
    requires args { AllByRecursion (ViewStands (length core.now.store)) (views_list (views_of args.now)) }
    ensures found { IfOk result (λ c. found_of c ≡ found_in core.now.store (slice_get (map fun_of core.now.funs.items) f.0) (views_list (views_of args.now))) }
    ensures stands { IfOk result (CalleeStands (length core.now.store) (length core.now.scopes)) }
{
    match function_at(core, f) {
        None => Ok(Callee::None),
        Some(function) => callee_of(core, alloc, function, args),
    }
}
