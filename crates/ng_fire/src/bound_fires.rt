//! The fires of the sites of bindings (guide: Directives, "Isolating the Scope of a Directive"; API: `$compile`, `scope`).
ghost use Rattle.std.specs.Prelude.{◌≡◌, ◌<◌, ◌≤◌, length, true, map, option_map, Some, IsSome, IfOk, OnOk};
ghost use Rattle.ng_act.specs.Running.{same};
ghost use Rattle.ng_base.specs.Faults.{is_memory};
ghost use Rattle.ng_base.specs.Meets.{Gives};
ghost use Rattle.ng_base.specs.ViewOf.{view_of};
ghost use Rattle.ng_bind.specs.declared.flow.Flow.{Flow as FlowOf};
ghost use Rattle.ng_core.specs.Frames as cores;
ghost use Rattle.ng_core.specs.Frames.{IsSound, Acts};
ghost use Rattle.ng_fire.specs.Bindings.{text_kept, fired_with, flow_by, write_run, to_parent, both_fired, bound_fired};
ghost use Rattle.ng_fire.specs.Fires.{value_at, IsDirtyWith};
ghost use Rattle.ng_fire.specs.FireOf.{firing};
ghost use Rattle.ng_steps.specs.LinkBindings.{written_to};
ghost use Rattle.ng_fire.specs.SiteFires.{site_fired};
ghost use Rattle.ng_changes.specs.Whole.{IsWhole, Unless};
ghost use Rattle.ng_language.specs.Views.{ViewStands};
ghost use Rattle.ng_instances.specs.Bindings.{BoundStands};
ghost use Rattle.ng_instances.specs.BoundOf.{piece_of, bound_of as bound_seen};
ghost use Rattle.ng_link.specs.Calls.{with_core, keeping_at};
ghost use Rattle.ng_link.specs.SiteAt.{spot_of};
ghost use Rattle.ng_instances.specs.Instances.{bound_for, is_site};
ghost use Rattle.ng_link.specs.State.{state_of, templates_of};
ghost use Rattle.ng_parse.specs.ProgramOf.{program as trees_of};
ghost use Rattle.ng_value.specs.Snaps.{snap_of};
ghost use Rattle.ng_watch.specs.Table.{found, kept_at};
ghost use Rattle.ng_watch.specs.Verdicts.{own_value};

use crate::blocks::fault;
use crate::firing::dirty_value;
use ng_base::fault::{Fault, Memory};
use ng_base::heap::Heap;
use ng_base::name::{NodeId, Oid, ScopeId};
use ng_base::path::Key;
use ng_base::txt::Txt;
use ng_base::value::Value;
use ng_base::view::View;
use ng_bind::flow::{Flow, sync};
use ng_changes::following::Followed;
use ng_core::binding::value_in;
use ng_core::core_state::Core;
use ng_instances::instances::{Bound, BoundPiece};
use ng_link::works::Works;
use ng_parse::Program;
use ng_settling::inputs::run_write as run_writing;
use ng_steps::binding::{keep_view, set_name, two_way_kind};
use ng_store::store::Store;
use ng_value::snapping::snap;
use ng_value::snapshot::Snap;
use std::alloc::{AllocError, Global};

/// A name of a scope is set to a value; a fresh list or record becomes a new object, unless the store is full.
fn write_value(
    works: &mut Works,
    alloc: Global,
    scope: ScopeId,
    name: &Txt,
    value: &View,
    told: &mut Followed,
) -> Result<(), Memory>
    requires whole { IsWhole works.old }
    requires scope { scope.0 < length works.old.core.scopes }
    requires stands { ViewStands (length works.old.core.store) (view_of value.now) }
    ensures fired { OnOk result (firing works.new told.new ≡ fired_with (written_to scope.0 name.now (view_of value.now) (state_of works.old).core) (firing works.old told.old)) }
    ensures scopes { OnOk result (length works.new.core.scopes ≡ length works.old.core.scopes) }
    ensures grown { OnOk result (length works.old.core.store ≤ length works.new.core.store) }
    ensures whole { OnOk result (IsWhole works.new) }
    ensures templates { templates_of works.new ≡ templates_of works.old }
{
    match keep_view(works, alloc, value) {
        Ok(stored) => set_name(works, scope, name, value_in(stored)),
        Err(Fault::Memory(memory)) => Err(memory),
        Err(f) => {
            fault(works, f, told);
            Ok(())
        }
    }
}

/// What an isolate scope itself has under a name.
fn own_value(store: &Store, dest: Oid, name: &Txt) -> Result<View, AllocError>
    requires object { dest.0 < length store.now }
    ensures value { IfOk result (λ v. view_of v ≡ own_value store.now dest.0 name.now) }
    ensures stands { IfOk result (λ v. ViewStands (length store.now) (view_of v)) }
{
    match store.own(dest, name) {
        Some(value) => Ok(View::of_value(value.copied()?)),
        None => Ok(View::of_value(Value::Undefined)),
    }
}

/// Which side of a two-way binding goes to which, by what was kept before. What is not kept any more goes to the isolate scope.
fn flow_of(
    alloc: Global,
    works: &Works,
    value: &View,
    own: &View,
    former: &Option<Snap>,
) -> Result<Flow, Fault>
    requires whole { IsWhole works.now }
    requires value { ViewStands (length works.now.core.store) (view_of value.now) }
    requires own { ViewStands (length works.now.core.store) (view_of own.now) }
    ensures { Gives is_memory (λ (f : FlowOf). f) (flow_by works.now.core.store (view_of value.now) (view_of own.now) (option_map snap_of former.now)) result }
{
    let Some(last) = former else {
        return Ok(Flow::ToDest);
    };
    let kind = two_way_kind(value);
    let parent = snap(alloc, kind, &works.core.store, value)?;
    let own = snap(alloc, kind, &works.core.store, own)?;
    Ok(sync(&parent, &own, last))
}

/// A value is written by a program on a scope, where there is one.
fn run_write(
    core: &mut Core,
    alloc: Global,
    over: ScopeId,
    writes: &Option<Program>,
    own: View,
) -> Result<Value, Fault>
    requires sound { IsSound core.old }
    requires idle { core.old.depth ≡ 0 }
    requires scope { over.0 < length core.old.scopes }
    requires stands { ViewStands (length core.old.store) (view_of own) }
    ensures run { Acts same result (cores.state_of core.new) (write_run over.0 (option_map trees_of writes.now) (view_of own) (cores.state_of core.old)) }
    ensures sound { IsSound core.new }
    ensures idle { core.new.depth ≡ 0 }
    ensures count { length core.new.scopes ≡ length core.old.scopes }
    ensures grown { length core.old.store ≤ length core.new.store }
{
    match writes {
        None => Err(Fault::NotAssignable),
        Some(program) => run_writing(core, alloc, over, program, value_in(own)),
    }
}

/// A value is written by a program on a scope, where there is one, and the works are whole after it.
fn write_over(
    works: &mut Works,
    alloc: Global,
    over: ScopeId,
    writes: &Option<Program>,
    own: View,
) -> Result<Value, Fault>
    requires whole { IsWhole works.old }
    requires scope { over.0 < length works.old.core.scopes }
    requires stands { ViewStands (length works.old.core.store) (view_of own) }
    ensures run { Acts same result (cores.state_of works.new.core) (write_run over.0 (option_map trees_of writes.now) (view_of own) (cores.state_of works.old.core)) }
    ensures rest { state_of works.new ≡ with_core (state_of works.new).core (state_of works.old) }
    ensures count { length works.new.core.scopes ≡ length works.old.core.scopes }
    ensures grown { length works.old.core.store ≤ length works.new.core.store }
    ensures whole { Unless result (IsWhole works.new) }
    ensures templates { templates_of works.new ≡ templates_of works.old }
{
    run_write(&mut works.core, alloc, over, writes, own)
}

/// The isolate scope's value goes to the parent. Where that can't be written to, the parent's value goes back, and the fire itself faults.
fn write_parent(
    works: &mut Works,
    alloc: Global,
    scope: ScopeId,
    name: &Txt,
    over: ScopeId,
    writes: &Option<Program>,
    value: &View,
    own: View,
    told: &mut Followed,
) -> Result<(), Memory>
    requires whole { IsWhole works.old }
    requires scope { scope.0 < length works.old.core.scopes }
    requires over { over.0 < length works.old.core.scopes }
    requires value { ViewStands (length works.old.core.store) (view_of value.now) }
    requires own { ViewStands (length works.old.core.store) (view_of own) }
    ensures fired { OnOk result (firing works.new told.new ≡ to_parent scope.0 name.now over.0 (option_map trees_of writes.now) (view_of value.now) (view_of own) (firing works.old told.old)) }
    ensures grown { OnOk result (length works.old.core.store ≤ length works.new.core.store) }
    ensures whole { OnOk result (IsWhole works.new) }
    ensures templates { templates_of works.new ≡ templates_of works.old }
{
    match write_over(works, alloc, over, writes, own) {
        Ok(_) => Ok(()),
        Err(Fault::Memory(memory)) => Err(memory),
        Err(f) => {
            let _met = f;
            write_value(works, alloc, scope, name, value, told)?;
            fault(works, Fault::NotAssignable, told);
            Ok(())
        }
    }
}

/// A two-way binding goes the one way or the other, where its expression has this value.
fn fire_both(
    works: &mut Works,
    alloc: Global,
    scope: ScopeId,
    name: &Txt,
    over: ScopeId,
    writes: &Option<Program>,
    value: &View,
    former: &Option<Snap>,
    told: &mut Followed,
) -> Result<(), Memory>
    requires whole { IsWhole works.old }
    requires scope { scope.0 < length works.old.core.scopes }
    requires over { over.0 < length works.old.core.scopes }
    requires value { ViewStands (length works.old.core.store) (view_of value.now) }
    ensures fired { OnOk result (firing works.new told.new ≡ both_fired scope.0 name.now over.0 (option_map trees_of writes.now) (view_of value.now) (option_map snap_of former.now) (firing works.old told.old)) }
    ensures grown { OnOk result (length works.old.core.store ≤ length works.new.core.store) }
    ensures whole { OnOk result (IsWhole works.new) }
    ensures templates { templates_of works.new ≡ templates_of works.old }
{
    let object = works.core.scopes.object(scope);
    let own = own_value(&works.core.store, object, name)?;
    let flow = flow_of(alloc, works, value, &own, former);
    match flow {
        Ok(Flow::Still) => Ok(()),
        Ok(Flow::ToDest) => write_value(works, alloc, scope, name, value, told),
        Ok(Flow::ToParent) => write_parent(
            works, alloc, scope, name, over, writes, value, own, told,
        ),
        Err(Fault::Memory(memory)) => Err(memory),
        Err(f) => {
            let _met = f;
            Ok(())
        }
    }
}

/// The text of pieces with what their holes have kept. An unset hole is empty.
fn kept_text(works: &Works, alloc: Global, key: &Key, pieces: &[BoundPiece]) -> Result<Txt, Memory>
    ensures { IfOk result (λ t. t ≡ text_kept key.now.path (map piece_of pieces.now) (state_of works.now)) }
{
    let mut text = Txt::new(alloc);
    for piece in pieces {
        match piece {
            BoundPiece::Word(word) => text.push_txt(word)?,
            BoundPiece::Hole(serial) => works.push_kept(&key.path, *serial, &mut text)?,
        }
    }
    Ok(text)
}

/// What a binding's site writes, once it has kept what it has now.
fn write_bound(
    works: &mut Works,
    alloc: Global,
    key: &Key,
    value: &View,
    former: &Option<Snap>,
    bound: &Bound,
    told: &mut Followed,
) -> Result<(), Memory>
    requires whole { IsWhole works.old }
    requires value { ViewStands (length works.old.core.store) (view_of value.now) }
    requires bound { BoundStands (length works.old.core.scopes) (bound_seen bound.now) }
    ensures fired { OnOk result (firing works.new told.new ≡ bound_fired (bound_seen bound.now) key.now.path (view_of value.now) (option_map snap_of former.now) (firing works.old told.old)) }
    ensures whole { OnOk result (IsWhole works.new) }
    ensures templates { templates_of works.new ≡ templates_of works.old }
{
    match bound {
        Bound::Text {
            scope,
            name,
            pieces,
        } => {
            let text = kept_text(works, alloc, key, pieces.as_slice())?;
            set_name(works, *scope, name, Value::Text(text))
        }
        Bound::OneWay { scope, name } => write_value(works, alloc, *scope, name, value, told),
        Bound::TwoWay {
            scope,
            name,
            over,
            writes,
        } => fire_both(
            works, alloc, *scope, name, *over, writes, value, former, told,
        ),
    }
}

/// The site of a binding keeps a snapshot, and what it had kept is handed back.
fn keep_bound(
    works: &mut Works,
    key: &Key,
    snapshot: Snap,
    node: NodeId,
) -> Result<Option<Snap>, Memory>
    requires whole { IsWhole works.old }
    requires there { IsSome (found key.now (state_of works.old).watchers) }
    requires node { spot_of works.old key.now ≡ Some node.made.0 }
    requires site { is_site (state_of works.old).inner (state_of works.old).instances key.now ≡ true }
    ensures state { OnOk result (state_of works.new ≡ keeping_at key.now (snap_of snapshot) (state_of works.old)) }
    ensures former { IfOk result (λ f. option_map snap_of f ≡ kept_at key.now (state_of works.old).watchers) }
    ensures core { works.new.core ≡ works.old.core }
    ensures whole { OnOk result (IsWhole works.new) }
    ensures templates { templates_of works.new ≡ templates_of works.old }
{
    works.keep(key, snapshot, Some(node))
}

/// The fire of a binding's site: it keeps the snapshot, and what its binding asks for is written.
pub(crate) fn fire_bound(
    works: &mut Works,
    alloc: Global,
    key: &Key,
    snapshot: Snap,
    node: NodeId,
    bound: &Bound,
) -> Result<Followed, Memory>
    requires whole { IsWhole works.old }
    requires there { IsSome (found key.now (state_of works.old).watchers) }
    requires dirty { IsDirtyWith (snap_of snapshot) (state_of works.old) key.now }
    requires node { spot_of works.old key.now ≡ Some node.made.0 }
    requires site { is_site (state_of works.old).inner (state_of works.old).instances key.now ≡ true }
    requires bound { bound_for (state_of works.old).inner (state_of works.old).instances key.now ≡ Some (bound_seen bound.now) }
    ensures fired { IfOk result (λ f. firing works.new f ≡ site_fired key.now (snap_of snapshot) (value_at (state_of works.old) key.now) (kept_at key.now (state_of works.old).watchers) (keeping_at key.now (snap_of snapshot) (state_of works.old))) }
    ensures whole { OnOk result (IsWhole works.new) }
    ensures templates { templates_of works.new ≡ templates_of works.old }
{
    let mut told = Followed {
        faulted: false,
        added: false,
    };
    let value = dirty_value(alloc, works, key)?;
    let former = keep_bound(works, key, snapshot, node)?;
    write_bound(works, alloc, key, &value, &former, bound, &mut told)?;
    Ok(told)
}
