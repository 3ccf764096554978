//! The steps of a linking, in link order (guide: HTML Compiler, "How directives are compiled"; Directives; API: ngInit).
ghost use Rattle.std.specs.Prelude.{◌≡◌, ◌<◌, ◌≤◌, length, map, slice_index_or, None, IfSome, IfOk, OnOk};
ghost use Rattle.std.specs.List.{AllByRecursion};
ghost use Rattle.ng_drawing.specs.Template.{Fragment};
ghost use Rattle.ng_changes.specs.FiringOf.{child_made};
ghost use Rattle.ng_steps.specs.Links.{adds, begins_linking, step_linked, steps_linked, unless_faulted, scope_of, started, installed, left, opening_run, opened_by};
ghost use Rattle.ng_steps.specs.LinkingOf.{linking, AreBelow, HasPrograms, IsGrounded};
ghost use Rattle.ng_changes.specs.Runs.{program_run, followed};
ghost use Rattle.ng_changes.specs.Whole.{IsWhole};
ghost use Rattle.ng_instances.specs.BoundOf.{registered_of};
ghost use Rattle.ng_link.specs.Calls.{with_core};
ghost use Rattle.ng_link.specs.State.{state_of, templates_of};
ghost use Rattle.ng_build.specs.StepOf.{opening_of, step_of, IsWatchable};
ghost use Rattle.ng_link.specs.OrderOf.{IsOrderOf};
ghost use Rattle.ng_link.specs.declared.works.Works.{Works as WorksOf};
ghost use Rattle.ng_parse.specs.ProgramOf.{program};

use crate::attending::{attend, install};
use crate::binding::bind;
use crate::progress::{Progress, register_site};
use ng_base::fault::{Fault, Memory};
use ng_base::name::ScopeId;
use ng_build::ordering::{LinkStep, Opening};
use ng_changes::following::follow;
use ng_changes::programs::run_program;
use ng_changes::scoping::{make_child, make_isolate, make_slot};
use ng_instances::linking::{Order, Registered};
use ng_link::works::Works;
use ng_parse::Program;
use std::alloc::{AllocError, Global};
use std::collections::BTreeMap;

/// A program of `ng-init` runs, its fault is handed over, and what it left for the watchers is done. The answer is whether that added a
/// watcher.
pub(crate) fn start(
    works: &mut Works,
    alloc: Global,
    scope: ScopeId,
    p: &Program,
) -> Result<bool, Memory>
    requires whole { IsWhole works.old }
    requires scope { scope.0 < length works.old.core.scopes }
    ensures state { OnOk result (state_of works.new ≡ followed (program_run scope.0 (program p.now) (state_of works.old).core) (state_of works.old)) }
    ensures added { IfOk result (λ a. a ≡ adds (program_run scope.0 (program p.now) (state_of works.old).core)) }
    ensures grown { OnOk result (length works.old.core.store ≤ length works.new.core.store) }
    ensures whole { OnOk result (IsWhole works.new) }
    ensures scopes { OnOk result (length works.new.core.scopes ≡ length works.old.core.scopes) }
    ensures templates { templates_of works.new ≡ templates_of works.old }
{
    let end = run_program(&mut works.core, alloc, scope, p);
    let followed = follow(works, alloc, end)?;
    Ok(followed.added)
}

/// A program runs on a scope of the instance.
fn start_on(
    works: &mut Works,
    alloc: Global,
    scope: u32,
    p: &Program,
    done: &mut Progress,
) -> Result<(), Memory>
    requires whole { IsWhole works.old }
    requires grounded { IsGrounded works.old done.old }
    ensures started { OnOk result (linking works.new done.new ≡ started (scope_of (linking works.old done.old) scope) (program p.now) (linking works.old done.old)) }
    ensures grounded { OnOk result (IsGrounded works.new done.new) }
    ensures grown { OnOk result (length works.old.core.store ≤ length works.new.core.store) }
    ensures whole { OnOk result (IsWhole works.new) }
    ensures templates { templates_of works.new ≡ templates_of works.old }
{
    let added = start(works, alloc, done.made.scope(scope), p)?;
    done.added = done.added || added;
    Ok(())
}

/// The functions of a directive are installed on a scope of the instance.
fn install_on(
    works: &mut Works,
    alloc: Global,
    directive: u32,
    scope: u32,
    done: &Progress,
) -> Result<(), Memory>
    requires whole { IsWhole works.old }
    requires grounded { IsGrounded works.old done.now }
    ensures installed { OnOk result (linking works.new done.now ≡ installed (linking works.old done.now) directive scope) }
    ensures grounded { OnOk result (IsGrounded works.new done.now) }
    ensures grown { OnOk result (length works.old.core.store ≤ length works.new.core.store) }
    ensures whole { OnOk result (IsWhole works.new) }
    ensures templates { templates_of works.new ≡ templates_of works.old }
{
    install(works, alloc, directive, done.made.scope(scope))
}

/// Watches, listeners and the program of a directive come on a scope of the instance.
fn leave_on(
    works: &mut Works,
    alloc: Global,
    directive: u32,
    scope: u32,
    done: &mut Progress,
) -> Result<(), Memory>
    requires whole { IsWhole works.old }
    requires grounded { IsGrounded works.old done.old }
    ensures left { OnOk result (linking works.new done.new ≡ left (linking works.old done.old) directive scope) }
    ensures grounded { OnOk result (IsGrounded works.new done.new) }
    ensures grown { OnOk result (length works.old.core.store ≤ length works.new.core.store) }
    ensures whole { OnOk result (IsWhole works.new) }
    ensures templates { templates_of works.new ≡ templates_of works.old }
{
    let added = attend(works, alloc, directive, done.made.scope(scope))?;
    done.added = done.added || added;
    Ok(())
}

/// The scope of an outlet by its number.
fn outlet_scope(order: &Order, outlet: u32) -> u32
    ensures { result ≡ slice_index_or order.now.outlets.items outlet 0 }
{
    match order.outlets.get(outlet as usize) {
        None => 0,
        Some(scope) => *scope,
    }
}

/// A scope is made.
fn make_scope(
    works: &mut Works,
    opening: Opening,
    done: &Progress,
) -> Result<Option<ScopeId>, Memory>
    requires whole { IsWhole works.old }
    requires grounded { IsGrounded works.old done.now }
    ensures made { IfOk result (λ m. opening_run (registered_of done.now.made).at_hand (opening_of opening) (state_of works.old).core ≡ child_made m (state_of works.new).core) }
    ensures within { IfOk result (λ m. IfSome m (λ s. s.0 < length works.new.core.scopes)) }
    ensures rest { state_of works.new ≡ with_core (state_of works.new).core (state_of works.old) }
    ensures count { OnOk result (length works.old.core.scopes ≤ length works.new.core.scopes) }
    ensures grown { OnOk result (length works.old.core.store ≤ length works.new.core.store) }
    ensures whole { OnOk result (IsWhole works.new) }
    ensures templates { templates_of works.new ≡ templates_of works.old }
{
    match opening {
        Opening::Child(n) => make_child(works, done.made.scope(n)),
        Opening::Isolate(n) => make_isolate(works, done.made.scope(n)),
        Opening::Slot(n, outside) => {
            make_slot(works, done.made.outside(outside), done.made.scope(n))
        }
    }
}

/// A scope is made, unless the store is full.
fn open_scope(works: &mut Works, opening: Opening, done: &mut Progress) -> Result<(), Memory>
    requires whole { IsWhole works.old }
    requires grounded { IsGrounded works.old done.old }
    ensures opened { OnOk result (linking works.new done.new ≡ opened_by (opening_run (registered_of done.old.made).at_hand (opening_of opening) (state_of works.old).core) (linking works.old done.old)) }
    ensures grounded { OnOk result (IsGrounded works.new done.new) }
    ensures grown { OnOk result (length works.old.core.store ≤ length works.new.core.store) }
    ensures whole { OnOk result (IsWhole works.new) }
    ensures templates { templates_of works.new ≡ templates_of works.old }
{
    let made = make_scope(works, opening, done)?;
    match made {
        Some(scope) => {
            done.made.scopes.push(scope)?;
            Ok(())
        }
        None => {
            done.fault = Some(Fault::StoreFull);
            Ok(())
        }
    }
}

/// One step of a linking.
fn link_step(
    works: &mut Works,
    alloc: Global,
    order: &Order,
    step: &LinkStep,
    done: &mut Progress,
) -> Result<(), Memory>
    requires whole { IsWhole works.old }
    requires pure { AllByRecursion IsWatchable (map program order.now.programs.items) }
    requires grounded { IsGrounded works.old done.old }
    ensures step { OnOk result ((f : Fragment) → IsOrderOf f order.now → HasPrograms f order.now (step_of step.now) → linking works.new done.new ≡ step_linked f (step_of step.now) (linking works.old done.old)) }
    ensures grounded { OnOk result (IsGrounded works.new done.new) }
    ensures grown { OnOk result (length works.old.core.store ≤ length works.new.core.store) }
    ensures whole { OnOk result (IsWhole works.new) }
    ensures templates { templates_of works.new ≡ templates_of works.old }
{
    match step {
        LinkStep::Makes => Ok(()),
        LinkStep::Stops => Ok(()),
        LinkStep::Opens(opening) => open_scope(works, *opening, done),
        LinkStep::Binds(binding, isolate, over) => bind(
            works,
            alloc,
            binding,
            order.programs.as_slice(),
            *isolate,
            *over,
            done,
        ),
        LinkStep::Installs(directive, scope) => install_on(works, alloc, *directive, *scope, done),
        LinkStep::Starts(scope, p) => start_on(works, alloc, *scope, p, done),
        LinkStep::StartsAt(outlet, p) => {
            start_on(works, alloc, outlet_scope(order, *outlet), p, done)
        }
        LinkStep::Registers => {
            register_site(works, done)?;
            Ok(())
        }
        LinkStep::Leaves(directive, scope) => leave_on(works, alloc, *directive, *scope, done),
    }
}

/// One step of a linking that has met no fault yet.
fn step_unless(
    works: &mut Works,
    alloc: Global,
    order: &Order,
    step: &LinkStep,
    done: &mut Progress,
) -> Result<(), Memory>
    requires whole { IsWhole works.old }
    requires pure { AllByRecursion IsWatchable (map program order.now.programs.items) }
    requires grounded { IsGrounded works.old done.old }
    ensures step { OnOk result ((f : Fragment) → IsOrderOf f order.now → HasPrograms f order.now (step_of step.now) → linking works.new done.new ≡ unless_faulted done.old.fault (step_linked f (step_of step.now) (linking works.old done.old)) (linking works.old done.old)) }
    ensures grounded { OnOk result (IsGrounded works.new done.new) }
    ensures grown { OnOk result (length works.old.core.store ≤ length works.new.core.store) }
    ensures whole { OnOk result (IsWhole works.new) }
    ensures templates { templates_of works.new ≡ templates_of works.old }
{
    match done.fault {
        Some(_) => Ok(()),
        None => link_step(works, alloc, order, step, done),
    }
}

/// A linking on a scope, before its steps.
fn begun(alloc: Global, scope: ScopeId, outsides: Vec<ScopeId>) -> Result<Progress, AllocError>
    ensures begun { IfOk result (λ d. (w : WorksOf) → linking w d ≡ begins_linking scope.0 (map (λ s. s.0) outsides.items) (state_of w)) }
    ensures fault { IfOk result (λ d. d.fault ≡ None) }
{
    let mut scopes = Vec::new(alloc);
    scopes.push(scope)?;
    Ok(Progress {
        made: Registered {
            serials: Vec::new(alloc),
            kept: Vec::new(alloc),
            scopes,
            outsides,
            bounds: BTreeMap::new(alloc),
        },
        added: false,
        fault: None,
    })
}

/// The steps of a linking, in order, up to the first fault.
pub(crate) fn link_steps(
    works: &mut Works,
    alloc: Global,
    scope: ScopeId,
    outsides: Vec<ScopeId>,
    order: &Order,
    steps: &[LinkStep],
) -> Result<Progress, Memory>
    requires whole { IsWhole works.old }
    requires scope { scope.0 < length works.old.core.scopes }
    requires outsides { AreBelow (length works.old.core.scopes) (map (λ s. s.0) outsides.items) }
    requires pure { AllByRecursion IsWatchable (map program order.now.programs.items) }
    ensures steps { IfOk result (λ d. (f : Fragment) → IsOrderOf f order.now → AllByRecursion (HasPrograms f order.now) (map step_of steps.now) → linking works.new d ≡ steps_linked f (map step_of steps.now) (begins_linking scope.0 (map (λ s. s.0) outsides.items) (state_of works.old))) }
    ensures grounded { IfOk result (λ d. IsGrounded works.new d) }
    ensures grown { OnOk result (length works.old.core.store ≤ length works.new.core.store) }
    ensures whole { OnOk result (IsWhole works.new) }
    ensures templates { templates_of works.new ≡ templates_of works.old }
{
    let mut done = begun(alloc, scope, outsides)?;
    for step in steps {
        step_unless(works, alloc, order, step, &mut done)?;
    }
    Ok(done)
}
