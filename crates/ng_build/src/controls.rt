//! Controls: which node is one, and what it takes (API: ngModel).
ghost use Rattle.std.specs.Prelude.{◌≡◌, ◌+◌, [], map, option_map, IfOk, OnOk};
ghost use Rattle.std.specs.BTreeMap.{insert_entry};
ghost use Rattle.std.specs.Ordering.{nat_cmp};
ghost use Rattle.ng_base.specs.declared.value.Value.TheVariants.{Bool};
ghost use Rattle.ng_control.specs.State.{typed_in, checked_in, after_touch, with_model};
ghost use Rattle.ng_control.specs.Typed.{TakesText, IsCheckbox};
ghost use Rattle.ng_drawing.specs.Nodes.{part_nodes, content_nodes, nodes};
ghost use Rattle.ng_drawing.specs.Template.{parts_from};
ghost use Rattle.ng_parse.specs.ProgramOf.{program};
ghost use Rattle.ng_parts.specs.Seen.{control_of as template_control, part_of, contents_of};
ghost use Rattle.ng_value.specs.Snaps.{snap_of};
ghost use Rattle.ng_build.specs.Controls.{control_here, with_control, part_controlled, contents_controlled, controlled, controls_begun, control_changed, state_under, IsOfKind, read_as, kind_in};
ghost use Rattle.ng_build.specs.Shape.{keys_or};
ghost use Rattle.ng_build.specs.HandledOf.{control_of, controlled_of};

use crate::controlled::ControlHere;
use crate::copying::{copied_key, key_on};
use ng_base::fault::Memory;
use ng_base::path::{Key, Path};
use ng_base::txt::Txt;
use ng_base::value::Value;
use ng_control::{Control, ControlKind};
use ng_parse::Program;
use ng_parts::{Contents, Modelled, Part};
use ng_value::snapshot::Snap;
use std::alloc::{AllocError, Global};
use std::collections::BTreeMap;

/// Programs again, which are shared.
fn copied_programs(alloc: Global, programs: &[Program]) -> Result<Vec<Program>, Memory>
    ensures { IfOk result (λ v. map program v.items ≡ map program programs.now) }
{
    let mut copies = Vec::new(alloc);
    for p in programs {
        copies.push(p.copied(alloc)?)?;
    }
    Ok(copies)
}

/// The key of a site by its number; one on the path, where there is none.
fn key_or(path: &Path, keys: &[Key], n: u32) -> Result<Key, AllocError>
    ensures { IfOk result (λ k. k ≡ keys_or path.now keys.now n) }
{
    match keys.get(n as usize) {
        None => key_on(path, 0),
        Some(key) => copied_key(key),
    }
}

/// The control of an element, with the key of its site.
fn here(alloc: Global, path: &Path, keys: &[Key], control: &Modelled) -> Result<ControlHere, Memory>
    ensures { IfOk result (λ c. control_of c ≡ control_here (keys_or path.now keys.now) (template_control control.now)) }
{
    Ok(ControlHere {
        key: key_or(path, keys, control.site)?,
        kind: control.kind,
        writes: control.writes.copied(alloc)?,
        changes: copied_programs(alloc, control.changes.as_slice())?,
    })
}

/// A control again, whose programs are shared.
pub fn copied_control(alloc: Global, one: &ControlHere) -> Result<ControlHere, Memory>
    ensures { IfOk result (λ c. control_of c ≡ control_of one.now) }
{
    Ok(ControlHere {
        key: copied_key(&one.key)?,
        kind: one.kind,
        writes: one.writes.copied(alloc)?,
        changes: copied_programs(alloc, one.changes.as_slice())?,
    })
}

/// A control is entered under the name of its node.
fn enter_one(
    alloc: Global,
    table: &mut BTreeMap<u64, ControlHere>,
    path: &Path,
    keys: &[Key],
    n: u64,
    control: &Modelled,
) -> Result<(), Memory>
    ensures { OnOk result (controlled_of table.new.entries ≡ insert_entry nat_cmp (controlled_of table.old.entries) n (control_here (keys_or path.now keys.now) (template_control control.now))) }
{
    let one = here(alloc, path, keys, control)?;
    let _ = table.insert(n, one)?;
    Ok(())
}

/// The control of an element is entered, if it is one.
fn enter(
    alloc: Global,
    table: &mut BTreeMap<u64, ControlHere>,
    path: &Path,
    keys: &[Key],
    n: u64,
    control: &Option<Modelled>,
) -> Result<(), Memory>
    ensures { OnOk result (controlled_of table.new.entries ≡ with_control (keys_or path.now keys.now) n (option_map template_control control.now) (controlled_of table.old.entries)) }
{
    match control {
        None => Ok(()),
        Some(control) => enter_one(alloc, table, path, keys, n, control),
    }
}

/// The name after one.
fn after(n: u64) -> Result<u64, Memory>
    ensures { IfOk result (λ m. m ≡ n + 1) }
{
    match n.checked_add(1) {
        None => Err(Memory::Worn),
        Some(m) => Ok(m),
    }
}

/// The controls of a part are entered. The answer is the name after its nodes.
#[cycle(controlled)]
fn enter_part(
    alloc: Global,
    table: &mut BTreeMap<u64, ControlHere>,
    path: &Path,
    keys: &[Key],
    n: u64,
    part: &Part,
) -> Result<u64, Memory>
    ensures next { IfOk result (λ m. m ≡ n + part_nodes (part_of part.now)) }
    ensures entered { OnOk result (controlled_of table.new.entries ≡ part_controlled (keys_or path.now keys.now) n (part_of part.now) (controlled_of table.old.entries)) }
{
    match part {
        Part::Text(_) => after(n),
        Part::Comment(_) => after(n),
        Part::Anchor { .. } => after(n),
        Part::Element { acts, contents, .. } => {
            enter(alloc, table, path, keys, n, &acts.control)?;
            enter_contents(alloc, table, path, keys, after(n)?, contents)
        }
    }
}

/// The controls of what an element contains are entered.
#[cycle(controlled)]
fn enter_contents(
    alloc: Global,
    table: &mut BTreeMap<u64, ControlHere>,
    path: &Path,
    keys: &[Key],
    n: u64,
    contents: &Contents,
) -> Result<u64, Memory>
    ensures next { IfOk result (λ m. m ≡ n + content_nodes (contents_of contents.now)) }
    ensures entered { OnOk result (controlled_of table.new.entries ≡ contents_controlled (keys_or path.now keys.now) n (contents_of contents.now) (controlled_of table.old.entries)) }
{
    match contents {
        Contents::Children(parts) => {
            enter_controls(alloc, table, path, keys, n, parts.as_slice())
        }
        Contents::Bound(_) => after(n),
    }
}

/// The controls of parts are entered, given the name of their first node. The answer is the name after their nodes.
#[cycle(controlled)]
fn enter_controls(
    alloc: Global,
    table: &mut BTreeMap<u64, ControlHere>,
    path: &Path,
    keys: &[Key],
    n: u64,
    parts: &[Part],
) -> Result<u64, Memory>
    ensures next { IfOk result (λ m. m ≡ n + nodes (parts_from (map part_of parts.now))) }
    ensures entered { OnOk result (controlled_of table.new.entries ≡ controlled (keys_or path.now keys.now) n (parts_from (map part_of parts.now)) (controlled_of table.old.entries)) }
{
    let mut next = n;
    for part in parts {
        next = enter_part(alloc, table, path, keys, next, part)?;
    }
    Ok(next)
}

/// The controls of parts, given the name of their first node.
pub fn controls_of(
    alloc: Global,
    path: &Path,
    keys: &[Key],
    n: u64,
    parts: &[Part],
) -> Result<BTreeMap<u64, ControlHere>, Memory>
    ensures { IfOk result (λ t. controlled_of t.entries ≡ controlled (keys_or path.now keys.now) n (parts_from (map part_of parts.now)) []) }
{
    let mut table = BTreeMap::new(alloc);
    enter_controls(alloc, &mut table, path, keys, n, parts)?;
    Ok(table)
}

/// Controls that are entered have taken nothing yet.
#[tactic(auto, using(crate::proofs::ControlSets::begun_values))]
pub fn begin_controls(
    controls: &mut BTreeMap<Key, Control>,
    alloc: Global,
    entered: &BTreeMap<u64, ControlHere>,
) -> Result<(), Memory>
    ensures { OnOk result (controls.new.entries ≡ controls_begun (controlled_of entered.now.entries) controls.old.entries) }
{
    for one in entered.values() {
        let key = copied_key(&one.key)?;
        let _ = controls.insert(key, Control::new(alloc, one.kind))?;
    }
    Ok(())
}

/// A control drops what was typed where it was read as another value than its model.
pub fn drop_typed(controls: &mut BTreeMap<Key, Control>, key: &Key, s: &Snap)
    ensures { controls.new.entries ≡ control_changed (λ c. with_model c (snap_of s.now)) key.now controls.old.entries }
{
    match controls.get_mut(key) {
        None => {}
        Some(control) => control.model(s.view()),
    }
}

/// A control takes a text. The answer is what it is read as.
pub fn type_in(controls: &mut BTreeMap<Key, Control>, key: &Key, text: Txt) -> Result<Value, Memory>
    requires { IsOfKind TakesText (state_under key.now controls.old.entries) }
    ensures value { IfOk result (λ v. v ≡ read_as text (state_under key.now controls.old.entries)) }
    ensures taken { OnOk result (controls.new.entries ≡ control_changed (λ c. typed_in c text) key.now controls.old.entries) }
{
    match controls.get_mut(key) {
        None => unreachable!(),
        Some(control) => control.input(text),
    }
}

/// A checkbox is checked, or not. The answer is what its model becomes.
pub fn check_in(controls: &mut BTreeMap<Key, Control>, key: &Key, on: bool) -> Value
    requires { IsOfKind IsCheckbox (state_under key.now controls.old.entries) }
    ensures value { result ≡ Bool on }
    ensures taken { controls.new.entries ≡ control_changed checked_in key.now controls.old.entries }
{
    match controls.get_mut(key) {
        None => unreachable!(),
        Some(control) => control.check(on),
    }
}

/// A control loses the focus.
pub fn touch_in(controls: &mut BTreeMap<Key, Control>, key: &Key)
    ensures { controls.new.entries ≡ control_changed after_touch key.now controls.old.entries }
{
    match controls.get_mut(key) {
        None => {}
        Some(control) => control.touch(),
    }
}

/// The kind of the control under a key.
pub fn kind_under(controls: &BTreeMap<Key, Control>, key: &Key) -> Option<ControlKind>
    ensures { result ≡ kind_in (state_under key.now controls.now.entries) }
{
    match controls.get(key) {
        None => None,
        Some(control) => Some(control.kind()),
    }
}
