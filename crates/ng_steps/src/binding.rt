//! The bindings of an isolate scope: what they are set to when their element is linked (guide: Directives, "Isolating the Scope of a Directive";
//! API: `$compile`, `scope`).
ghost use Rattle.std.specs.Prelude.{◌≡◌, ◌<◌, ◌≤◌, ◌∷◌, [], Some, Option, Result, length, map, slice_get, option_map, IfSome, IfOk, OnOk};
ghost use Rattle.std.specs.BTreeMap.{insert_entry};
ghost use Rattle.std.specs.List.{AllByRecursion};
ghost use Rattle.std.specs.Ordering.{nat_cmp};
ghost use Rattle.ng_base.specs.Faults.{is_memory};
ghost use Rattle.ng_base.specs.Meets.{Gives};
ghost use Rattle.ng_base.specs.Objects.{StandsAmong};
ghost use Rattle.ng_base.specs.ViewOf.{view_of};
ghost use Rattle.ng_base.specs.Views.{ViewTree};
ghost use Rattle.ng_base.specs.declared.fault.Fault.{Fault as FaultOf};
ghost use Rattle.ng_core.specs.Frames as cores;
ghost use Rattle.ng_core.specs.Keeping.{stores};
ghost use Rattle.ng_core.specs.Frames.{IsSound, Acts};
ghost use Rattle.ng_drawing.specs.Instance.{two_way_kind as two_way_kind_of};
ghost use Rattle.ng_drawing.specs.Template.{Site, Fragment};
ghost use Rattle.ng_steps.specs.LinkBindings.{set_on, value_over, kind_for, seen_over, set_to_value, set_to_call};
ghost use Rattle.ng_steps.specs.Links.{keep_last, value_kept, value_bound, binding_linked};
ghost use Rattle.ng_steps.specs.LinkingOf.{linking, IsGrounded};
ghost use Rattle.ng_changes.specs.Whole.{IsWhole, NoWant, Unless};
ghost use Rattle.ng_language.specs.Views.{ViewStands};
ghost use Rattle.ng_instances.specs.BoundOf.{bound_of as bound_seen, bounds_of, registered_of};
ghost use Rattle.ng_link.specs.Calls.{with_core};
ghost use Rattle.ng_link.specs.State.{state_of, templates_of};
ghost use Rattle.ng_build.specs.StepOf.{IsWatchable};
ghost use Rattle.ng_parse.specs.ProgramOf.{program as trees_of};
ghost use Rattle.ng_parts.specs.ActsOf.{binding_of};
ghost use Rattle.ng_value.specs.Snaps.{snap_of};

use crate::binding_texts::bind_text;
use crate::functions::new_function;
use crate::progress::{Progress, register_site};
use ng_base::fault::{Fault, Memory};
use ng_base::locals::Locals;
use ng_base::name::ScopeId;
use ng_base::txt::Txt;
use ng_base::value::Value;
use ng_base::view::View;
use ng_changes::following::hand_over;
use ng_core::binding::value_in;
use ng_core::core_state::{Core, Function};
use ng_core::keeping::keep;
use ng_instances::instances::Bound;
use ng_instances::linking::Registered;
use ng_language::snapshots::SnapKind;
use ng_link::works::Works;
use ng_parse::Program;
use ng_parts::acts::copied_program;
use ng_parts::{Binding, Source};
use ng_rows::rows::tell;
use ng_value::snapping::snap;
use ng_value::snapshot::Snap;
use ng_view::view;
use std::alloc::{AllocError, Global};
use std::collections::BTreeMap;

/// The value of a program over a scope.
#[tactic(auto, using(ng_purity::proofs::Pure::pure_are, ng_purity::proofs::Pure::known_are))]
pub(crate) fn value_over(
    alloc: Global,
    works: &Works,
    over: ScopeId,
    program: &Program,
) -> Result<View, Fault>
    requires whole { IsWhole works.now }
    requires scope { over.0 < length works.now.core.scopes }
    requires watchable { IsWatchable (trees_of program.now) }
    ensures exact { Gives is_memory view_of (value_over over.0 (trees_of program.now) (cores.state_of works.now.core)) result }
    ensures stands { IfOk result (λ v. ViewStands (length works.now.core.store) (view_of v)) }
{
    let locals = Locals::new(alloc);
    let object = works.core.scopes.object(over);
    view(alloc, &works.core.store, object, &locals, program)
}

/// A name of the object of a scope is set.
pub(crate) fn tell_name(
    core: &mut Core,
    scope: ScopeId,
    name: &Txt,
    value: Value,
) -> Result<(), Memory>
    requires sound { IsSound core.old }
    requires scope { scope.0 < length core.old.scopes }
    requires stands { StandsAmong (length core.old.store) value }
    ensures told { OnOk result (cores.state_of core.new ≡ set_on scope.0 name.now value (cores.state_of core.old)) }
    ensures sound { OnOk result (IsSound core.new) }
    ensures scopes { core.new.scopes ≡ core.old.scopes }
    ensures depth { core.new.depth ≡ core.old.depth }
    ensures store { length core.new.store ≡ length core.old.store }
{
    let object = core.scopes.object(scope);
    tell(&mut core.store, object, name, value)
}

/// A name of a scope is set, whatever it is.
pub fn set_name(works: &mut Works, scope: ScopeId, name: &Txt, value: Value) -> Result<(), Memory>
    requires whole { IsWhole works.old }
    requires scope { scope.0 < length works.old.core.scopes }
    requires stands { StandsAmong (length works.old.core.store) value }
    ensures state { OnOk result (state_of works.new ≡ with_core (set_on scope.0 name.now value (state_of works.old).core) (state_of works.old)) }
    ensures rest { state_of works.new ≡ with_core (state_of works.new).core (state_of works.old) }
    ensures scopes { works.new.core.scopes ≡ works.old.core.scopes }
    ensures grown { length works.old.core.store ≤ length works.new.core.store }
    ensures whole { OnOk result (IsWhole works.new) }
    ensures templates { templates_of works.new ≡ templates_of works.old }
{
    tell_name(&mut works.core, scope, name, value)
}

/// How the two sides of a binding are compared: by identity, but fresh lists and records by what they hold.
pub fn two_way_kind(value: &View) -> SnapKind
    ensures { result ≡ two_way_kind_of (view_of value.now) }
{
    match value {
        View::Prim(_) => SnapKind::Reference,
        View::List(_) => SnapKind::Deep,
        View::Rec(_) => SnapKind::Deep,
    }
}

/// How a value is taken: as by a two-way binding, or by identity.
fn kind_for(both: bool, value: &View) -> SnapKind
    ensures { result ≡ kind_for both (view_of value.now) }
{
    if both {
        two_way_kind(value)
    } else {
        SnapKind::Reference
    }
}

/// A value with its snapshot.
fn value_with_snap(
    alloc: Global,
    works: &Works,
    over: ScopeId,
    both: bool,
    program: &Program,
) -> Result<(View, Snap), Fault>
    requires whole { IsWhole works.now }
    requires scope { over.0 < length works.now.core.scopes }
    requires watchable { IsWatchable (trees_of program.now) }
    ensures exact { Gives is_memory (λ r. (view_of r.0, snap_of r.1)) (seen_over both over.0 (trees_of program.now) (cores.state_of works.now.core)) result }
    ensures stands { IfOk result (λ r. ViewStands (length works.now.core.store) (view_of r.0)) }
{
    let value = value_over(alloc, works, over, program)?;
    let kind = kind_for(both, &value);
    let now = snap(alloc, kind, &works.core.store, &value)?;
    Ok((value, now))
}

/// The program of a site by its number.
pub(crate) fn program_at(programs: &[Program], n: u32) -> Option<&Program>
    ensures { option_map (λ p. trees_of p.now) result ≡ slice_get (map trees_of programs.now) n }
{
    programs.get(n as usize)
}

/// A value is kept in the store: a fresh list or record becomes a new object.
pub fn keep_view(works: &mut Works, alloc: Global, value: &View) -> Result<View, Fault>
    requires whole { IsWhole works.old }
    requires view { ViewStands (length works.old.core.store) (view_of value.now) }
    ensures run { Acts view_of result (cores.state_of works.new.core) (stores (view_of value.now) (cores.state_of works.old.core)) }
    ensures rest { state_of works.new ≡ with_core (state_of works.new).core (state_of works.old) }
    ensures grown { length works.old.core.store ≤ length works.new.core.store }
    ensures count { length works.new.core.scopes ≡ length works.old.core.scopes }
    ensures whole { Unless result (IsWhole works.new) }
    ensures stands { IfOk result (λ v. ViewStands (length works.new.core.store) (view_of v)) }
    ensures templates { templates_of works.new ≡ templates_of works.old }
{
    keep(&mut works.core, alloc, value)
}

/// A name of a scope is set to the value of a program over another; a fresh list or record becomes a new object. The answer is what is kept of it.
fn set_to_value(
    works: &mut Works,
    alloc: Global,
    scope: ScopeId,
    name: &Txt,
    over: ScopeId,
    both: bool,
    program: &Program,
) -> Result<Snap, Fault>
    requires whole { IsWhole works.old }
    requires scope { scope.0 < length works.old.core.scopes }
    requires over { over.0 < length works.old.core.scopes }
    requires watchable { IsWatchable (trees_of program.now) }
    ensures run { Acts snap_of result (cores.state_of works.new.core) (set_to_value both scope.0 name.now over.0 (trees_of program.now) (cores.state_of works.old.core)) }
    ensures rest { state_of works.new ≡ with_core (state_of works.new).core (state_of works.old) }
    ensures grown { length works.old.core.store ≤ length works.new.core.store }
    ensures count { length works.new.core.scopes ≡ length works.old.core.scopes }
    ensures whole { Unless result (IsWhole works.new) }
    ensures templates { templates_of works.new ≡ templates_of works.old }
{
    let seen = value_with_snap(alloc, works, over, both, program)?;
    let stored = keep_view(works, alloc, &seen.0)?;
    set_name(works, scope, name, value_in(stored))?;
    Ok(seen.1)
}

/// The site that was registered last keeps a snapshot.
fn keep_one(now: Snap, made: &mut Registered) -> Result<(), AllocError>
    ensures kept { OnOk result (registered_of made.new ≡ record (registered_of made.old) { kept = keep_last (registered_of made.old).kept (Some (snap_of now) ∷ []) }) }
    ensures at_hand { (registered_of made.new).at_hand ≡ (registered_of made.old).at_hand }
{
    let others = made.kept.len().saturating_sub(1);
    made.kept.truncate(others);
    made.kept.push(Some(now))?;
    Ok(())
}

/// The site that was registered last keeps what its binding was set to, unless that met a fault, which is handed over.
fn keep_value(
    works: &mut Works,
    made: Result<Snap, Fault>,
    done: &mut Progress,
) -> Result<(), Memory>
    requires whole { Unless made (IsWhole works.old) }
    ensures kept { (r : Result ViewTree FaultOf) → Gives is_memory snap_of r made → OnOk result (linking works.new done.new ≡ value_kept r (linking works.old done.old)) }
    ensures free { OnOk result (NoWant made) }
    ensures at_hand { (registered_of done.new.made).at_hand ≡ (registered_of done.old.made).at_hand }
    ensures scopes { works.new.core.scopes ≡ works.old.core.scopes }
    ensures grown { OnOk result (length works.old.core.store ≤ length works.new.core.store) }
    ensures whole { OnOk result (IsWhole works.new) }
    ensures templates { templates_of works.new ≡ templates_of works.old }
{
    match made {
        Ok(now) => {
            keep_one(now, &mut done.made)?;
            Ok(())
        }
        Err(Fault::Memory(memory)) => Err(memory),
        Err(f) => {
            hand_over(works, f);
            Ok(())
        }
    }
}

/// What the site of a number writes is noted among others.
pub(crate) fn note_in(
    bounds: &mut BTreeMap<u64, Bound>,
    serial: u64,
    bound: Bound,
) -> Result<(), AllocError>
    ensures { OnOk result (bounds_of bounds.new.entries ≡ insert_entry nat_cmp (bounds_of bounds.old.entries) serial (bound_seen bound)) }
{
    let _ = bounds.insert(serial, bound)?;
    Ok(())
}

/// What the site of a number writes is noted.
fn note(made: &mut Registered, serial: u64, bound: Bound) -> Result<(), AllocError>
    ensures noted { OnOk result (registered_of made.new ≡ record (registered_of made.old) { bounds = insert_entry nat_cmp (registered_of made.old).bounds serial (bound_seen bound) }) }
    ensures at_hand { (registered_of made.new).at_hand ≡ (registered_of made.old).at_hand }
{
    note_in(&mut made.bounds, serial, bound)
}

/// A property is bound to the value of a site, the one way or both.
fn bind_value(
    works: &mut Works,
    alloc: Global,
    name: &Txt,
    program: Option<&Program>,
    scope: ScopeId,
    over: ScopeId,
    both: bool,
    bound: Bound,
    done: &mut Progress,
) -> Result<(), Memory>
    requires whole { IsWhole works.old }
    requires scope { scope.0 < length works.old.core.scopes }
    requires over { over.0 < length works.old.core.scopes }
    requires watchable { IfSome program (λ p. IsWatchable (trees_of p.now)) }
    ensures bound { OnOk result ((x : Option Site) → option_map (λ p. trees_of p.now) program.entry ≡ option_map (λ (y : Site). y.program) x → linking works.new done.new ≡ value_bound both scope.0 name.now over.0 x (bound_seen bound) (linking works.old done.old)) }
    ensures at_hand { (registered_of done.new.made).at_hand ≡ (registered_of done.old.made).at_hand }
    ensures count { OnOk result (length works.new.core.scopes ≡ length works.old.core.scopes) }
    ensures grown { OnOk result (length works.old.core.store ≤ length works.new.core.store) }
    ensures whole { OnOk result (IsWhole works.new) }
    ensures templates { templates_of works.new ≡ templates_of works.old }
{
    let serial = register_site(works, done)?;
    note(&mut done.made, serial, bound)?;
    match program {
        None => Ok(()),
        Some(program) => {
            let made = set_to_value(works, alloc, scope, name, over, both, program);
            keep_value(works, made, done)
        }
    }
}

/// A property is a function that runs a program on another scope.
fn bind_call(
    works: &mut Works,
    alloc: Global,
    name: &Txt,
    program: &Program,
    scope: ScopeId,
    over: ScopeId,
) -> Result<(), Memory>
    requires whole { IsWhole works.old }
    requires scope { scope.0 < length works.old.core.scopes }
    requires over { over.0 < length works.old.core.scopes }
    ensures state { OnOk result (state_of works.new ≡ with_core (set_to_call scope.0 name.now over.0 (trees_of program.now) (state_of works.old).core) (state_of works.old)) }
    ensures count { OnOk result (length works.new.core.scopes ≡ length works.old.core.scopes) }
    ensures grown { OnOk result (length works.old.core.store ≤ length works.new.core.store) }
    ensures whole { OnOk result (IsWhole works.new) }
    ensures templates { templates_of works.new ≡ templates_of works.old }
{
    let copy = program.copied(alloc)?;
    let id = new_function(&mut works.core, Function::Outer(over, copy))?;
    set_name(works, scope, name, Value::Fun(id))
}

/// A property of an isolate scope is bound to a scope.
pub(crate) fn bind(
    works: &mut Works,
    alloc: Global,
    binding: &Binding,
    programs: &[Program],
    isolate: u32,
    over: u32,
    done: &mut Progress,
) -> Result<(), Memory>
    requires whole { IsWhole works.old }
    requires grounded { IsGrounded works.old done.old }
    requires watchable { AllByRecursion IsWatchable (map trees_of programs.now) }
    ensures bound { OnOk result ((f : Fragment) → map trees_of programs.now ≡ map (λ (x : Site). x.program) f.sites → linking works.new done.new ≡ binding_linked f (binding_of binding.now) isolate over (linking works.old done.old)) }
    ensures grounded { OnOk result (IsGrounded works.new done.new) }
    ensures grown { OnOk result (length works.old.core.store ≤ length works.new.core.store) }
    ensures whole { OnOk result (IsWhole works.new) }
    ensures templates { templates_of works.new ≡ templates_of works.old }
{
    let scope = done.made.scope(isolate);
    let over = done.made.scope(over);
    let name = &binding.name;
    match &binding.source {
        Source::Text(pieces) => {
            bind_text(works, alloc, name, pieces, programs, scope, over, done)
        }
        Source::Nothing => set_name(works, scope, name, Value::Undefined),
        Source::OneWay(n) => {
            let bound = Bound::OneWay {
                scope,
                name: name.copied()?,
            };
            bind_value(
                works,
                alloc,
                name,
                program_at(programs, *n),
                scope,
                over,
                false,
                bound,
                done,
            )
        }
        Source::TwoWay(n, writes) => {
            let bound = Bound::TwoWay {
                scope,
                name: name.copied()?,
                over,
                writes: copied_program(alloc, writes)?,
            };
            bind_value(
                works,
                alloc,
                name,
                program_at(programs, *n),
                scope,
                over,
                true,
                bound,
                done,
            )
        }
        Source::Call(program) => bind_call(works, alloc, name, program, scope, over),
    }
}
