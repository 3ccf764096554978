//! What comes once the rounds are over.
ghost use Rattle.std.specs.Prelude.{◌≡◌, ◌<◌, ◌&&◌, length, true, IfOk, OnOk};
ghost use Rattle.ng_core.specs.Frames as cores;
ghost use Rattle.ng_core.specs.Frames.{IsSound};
ghost use Rattle.ng_base.specs.Faults.{is_memory};
ghost use Rattle.ng_base.specs.Meets.{Meets};
ghost use Rattle.ng_drawing.specs.Instance.{text_now as text_now_of};
ghost use Rattle.ng_settling.specs.Settling.{settled, given_up, unset_all, probed, probe_text, printed_as, is_watchable, without_probes};
ghost use Rattle.ng_changes.specs.Whole.{IsWhole};
ghost use Rattle.ng_link.specs.Calls.{ended_at};
ghost use Rattle.ng_link.specs.State.{state_of, templates_of};
ghost use Rattle.ng_parse.specs.ProgramOf.{program as trees_of};
ghost use Rattle.std.specs.Prelude.{Err};

use ng_base::fault::{Fault, Memory};
use ng_base::lists::Words;
use ng_base::locals::Locals;
use ng_base::name::{Oid, ScopeId};
use ng_base::path::Key;
use ng_base::txt::Txt;
use ng_core::core_state::Core;
use ng_link::works::Works;
use ng_parse::Program;
use ng_purity::{filters_known, is_pure};
use ng_store::store::Store;
use ng_value::texts::show_text;
use ng_view::view;
use std::alloc::{AllocError, Global};
use std::collections::BTreeSet;

/// Watchers keep nothing any more.
fn unset_all(works: &mut Works, keys: &BTreeSet<Key>)
    requires { IsWhole works.old }
    ensures state { state_of works.new ≡ unset_all keys.now.keys (state_of works.old) }
    ensures whole { IsWhole works.new }
    ensures core { works.new.core ≡ works.old.core }
    ensures templates { templates_of works.new ≡ templates_of works.old }
{
    for key in keys.iter() {
        works.unset(key);
    }
}

/// What a program that changes nothing shows over an object.
#[tactic(auto, unfolding(ng_drawing::specs::Instance::text_now), using(ng_purity::proofs::Pure::pure_are, ng_purity::proofs::Pure::known_are))]
fn text_now(alloc: Global, store: &Store, object: Oid, p: &Program) -> Result<Txt, Fault>
    requires object { object.0 < length store.now }
    requires pure { is_watchable (trees_of p.now) ≡ true }
    ensures { Meets is_memory (text_now_of store.now object.0 (trees_of p.now)) result }
{
    let locals = Locals::new(alloc);
    let value = view(alloc, store, object, &locals, p)?;
    show_text(alloc, store, &value)
}

/// What a probe prints of a fault.
fn fault_text(alloc: Global, fault: Fault) -> Result<Txt, AllocError>
    ensures { IfOk result (λ t. t ≡ printed_as (Err fault)) }
{
    let mut text = Txt::new(alloc);
    text.push_word("fault ")?;
    text.push_word(fault.name())?;
    Ok(text)
}

/// What a probe prints.
fn probe_text(alloc: Global, store: &Store, object: Oid, p: &Program) -> Result<Txt, Memory>
    requires { object.0 < length store.now }
    ensures { IfOk result (λ t. t ≡ probe_text store.now object.0 (trees_of p.now)) }
{
    if !(is_pure(p) && filters_known(p)) {
        return Ok(fault_text(alloc, Fault::ImpureCall)?);
    }
    match text_now(alloc, store, object, p) {
        Ok(text) => Ok(text),
        Err(Fault::Memory(memory)) => Err(memory),
        Err(fault) => Ok(fault_text(alloc, fault)?),
    }
}

/// What probes print, in order.
fn probed(alloc: Global, core: &Core) -> Result<Words, Memory>
    requires root { 0 < length core.now.scopes }
    requires sound { IsSound core.now }
    ensures { IfOk result (λ ws. ws ≡ probed (cores.state_of core.now)) }
{
    let root = core.scopes.object(ScopeId(0));
    let mut words = Words::new(alloc);
    for p in core.probes.as_slice() {
        let text = probe_text(alloc, &core.store, root, p)?;
        words.push(text)?;
    }
    Ok(words)
}

/// One-time bindings whose value is there end.
fn end_bindings(works: &mut Works) -> Result<(), Memory>
    requires { IsWhole works.old }
    ensures state { OnOk result (state_of works.new ≡ ended_at (state_of works.old)) }
    ensures whole { OnOk result (IsWhole works.new) }
    ensures templates { templates_of works.new ≡ templates_of works.old }
{
    works.end_over()
}

/// No probe waits any more.
fn clear_probes(works: &mut Works, alloc: Global)
    requires { IsWhole works.old }
    ensures state { state_of works.new ≡ without_probes (state_of works.old) }
    ensures whole { IsWhole works.new }
    ensures templates { templates_of works.new ≡ templates_of works.old }
{
    works.core.probes = Vec::new(alloc);
}

/// After the rounds were given up: watchers whose fire faulted keep nothing, so that the next digest fires them again.
#[tactic(auto, using(crate::proofs::Unset::still_linked))]
pub fn give_up(works: &mut Works, faulted: &BTreeSet<Key>)
    requires { IsWhole works.old }
    ensures state { state_of works.new ≡ given_up faulted.now.keys (state_of works.old) }
    ensures whole { IsWhole works.new }
    ensures linked { (state_of works.new).instances ≡ (state_of works.old).instances }
    ensures core { works.new.core ≡ works.old.core }
    ensures templates { templates_of works.new ≡ templates_of works.old }
{
    unset_all(works, faulted);
}

/// Once the rounds have settled: watchers whose fire faulted keep nothing, as after rounds that were given up; one-time bindings
/// whose value is there end; and the probes are evaluated over the root scope. The answer is what they print.
pub fn settle(works: &mut Works, alloc: Global, faulted: &BTreeSet<Key>) -> Result<Words, Memory>
    requires { IsWhole works.old }
    ensures state { IfOk result (λ ws. (state_of works.new, ws) ≡ settled faulted.now.keys (state_of works.old)) }
    ensures whole { OnOk result (IsWhole works.new) }
    ensures linked { OnOk result ((state_of works.new).instances ≡ (state_of works.old).instances) }
    ensures templates { templates_of works.new ≡ templates_of works.old }
{
    give_up(works, faulted);
    end_bindings(works)?;
    let words = probed(alloc, &works.core)?;
    clear_probes(works, alloc);
    Ok(words)
}
