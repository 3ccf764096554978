//! Whether the site of a key is drawn.
ghost use Rattle.std.specs.Prelude.{◌≡◌, ◌&&◌, List, map, not, is_some};
ghost use Rattle.std.specs.BTreeMap.{is_at};
ghost use Rattle.std.specs.Map.{lookup};
ghost use Rattle.std.specs.Ordering.{nat_cmp};
ghost use Rattle.ng_drawing.specs.Named.{Named};
ghost use Rattle.ng_instances.specs.Changing.{fills_any, is_drawn_in};
ghost use Rattle.ng_instances.specs.Instances.{linked_for};
ghost use Rattle.ng_instances.specs.InstanceOf.{outlet_of, instances_of};

use crate::instances::{Linked, OutletState, instance_of};
use ng_base::path::{Key, Path};
use std::collections::BTreeMap;

/// Whether a site fills an outlet.
fn fills_any(outlets: &[OutletState], serial: u64) -> bool
    ensures { result ≡ fills_any serial (map outlet_of outlets.now) }
{
    for outlet in outlets {
        if outlet.serial == serial {
            return true;
        }
    }
    false
}

/// Whether an instance has a site that is drawn, by its number: it fills no outlet, and is no binding's.
fn draws(one: &Linked, serial: u64) -> bool
    ensures { result ≡ (is_some (lookup (is_at (nat_cmp serial)) one.now.spots.entries) && (not (fills_any serial (map outlet_of one.now.outlets.items)) && not (is_some (lookup (is_at (nat_cmp serial)) one.now.bounds.entries)))) }
{
    one.spots.contains_key(&serial)
        && (!fills_any(one.outlets.as_slice(), serial) && !one.bounds.contains_key(&serial))
}

/// Whether the site of a key is drawn.
pub fn is_drawn(instances: &BTreeMap<Path, Linked>, inner: &BTreeMap<Path, Path>, key: &Key) -> bool
    ensures { (all : List Named) → result ≡ is_drawn_in (linked_for inner.now.entries key.now.path (instances_of all instances.now.entries)) key.now }
{
    match instance_of(instances, inner, &key.path) {
        None => false,
        Some(one) => draws(one, key.serial.0),
    }
}
