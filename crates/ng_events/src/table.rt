//! The lists of listeners with the maps that find them.
ghost use Rattle.std.specs.Prelude.{◌≡◌, ◌<◌, ◌≤◌, ◌++◌, ◌∷◌, ◌↔◌, [], ℕ, List, if◌then◌else◌, Some, None, is_some, length, option_map, IfOk, OnOk, OnErr, vec_len};
ghost use Rattle.std.specs.BTreeMap.{get, values, IsOrdered};
ghost use Rattle.std.specs.Ordering.{nat_cmp};
ghost use Rattle.ng_behaviour.specs.Listeners.{Listener as Listened, with_listener, last_of, hear_at, listened, called, without_listener, without_listeners_of, place_of};
ghost use Rattle.ng_base.specs.Order.{txt_cmp};
ghost use Rattle.ng_chain.specs.Slots.{standing, entry_before};
ghost use Rattle.ng_events.specs.Stands.{all_heard, chain_at, change_chain, no_chain, open_on, seen, emptied, empty_at, is_named, listening};
ghost use Rattle.ng_events.specs.Sound.{AreThere, HaveHomes, HavePlaces, ArePlaces, LeavesWalks};

use crate::names::{enter, place_in};
use crate::stands::{
    Home, Listener, Stand, add_stand, clear_in, listener_in, push_in, remove_in, slots_in,
};
use ng_base::fault::Memory;
use ng_base::txt::Txt;
use ng_chain::chain::Slot;
use std::alloc::{AllocError, Global};
use std::collections::BTreeMap;

/// A list for a scope and a name that has none.
pub fn add_list(
    stands: &mut Vec<Stand>,
    names: &mut BTreeMap<u32, BTreeMap<Txt, usize>>,
    alloc: Global,
    scope: u32,
    name: &Txt,
) -> Result<(), AllocError>
    requires places { HavePlaces stands.old.items names.old }
    requires none { place_of (all_heard stands.old.items) scope name.now ≡ None }
    requires alone { ArePlaces stands.old.items }
    ensures ok { OnOk result (stands.new.items ≡ stands.old.items ++ record { scope = scope; name = name.now; chain = no_chain } ∷ []) }
    ensures err { OnErr result (stands.new.items ≡ stands.old.items) }
    ensures places { HavePlaces stands.new.items names.new }
    ensures alone { ArePlaces stands.new.items }
{
    let place = stands.len();
    add_stand(stands, alloc, scope, name)?;
    match enter(names, alloc, scope, name, place) {
        Ok(()) => Ok(()),
        Err(refused) => {
            let _ = stands.pop();
            Err(refused)
        }
    }
}

/// The list for a scope and a name, which is made where there is none.
pub fn list_of(
    stands: &mut Vec<Stand>,
    names: &mut BTreeMap<u32, BTreeMap<Txt, usize>>,
    alloc: Global,
    scope: u32,
    name: &Txt,
) -> Result<usize, AllocError>
    requires places { HavePlaces stands.old.items names.old }
    requires alone { ArePlaces stands.old.items }
    ensures within { IfOk result (λ i. i < vec_len stands.new) }
    ensures lists { IfOk result (λ i. (l : Listened) → hear_at (all_heard stands.new.items) i (listened l) ≡ with_listener (all_heard stands.old.items) scope name.now l) }
    ensures last { IfOk result (λ i. (chain_at stands.new.items i).last ≡ last_of (all_heard stands.old.items) scope name.now) }
    ensures none { OnErr result (last_of (all_heard stands.old.items) scope name.now ≡ 0) }
    ensures places { HavePlaces stands.new.items names.new }
    ensures chains { chain_at stands.new.items ≡ chain_at stands.old.items }
    ensures open { open_on stands.new.items ≡ open_on stands.old.items }
    ensures longer { vec_len stands.old ≤ vec_len stands.new }
    ensures stays { (s : ℕ) (n : List ℕ) → listening (all_heard stands.new.items) s n ≡ listening (all_heard stands.old.items) s n }
    ensures alone { ArePlaces stands.new.items }
{
    match place_in(names, scope, name) {
        Some(list) => Ok(list),
        None => {
            let list = stands.len();
            add_list(stands, names, alloc, scope, name)?;
            Ok(list)
        }
    }
}

/// Adds a listener to a list, under a name that is new.
pub fn add_listener(
    stands: &mut Vec<Stand>,
    homes: &mut BTreeMap<u32, Home>,
    list: usize,
    listener: Listener,
) -> Result<(), Memory>
    requires within { list < vec_len stands.old }
    requires there { AreThere stands.old.items homes.old }
    requires known { HaveHomes stands.old.items homes.old }
    requires fresh { get nat_cmp homes.old listener.id.0 ≡ None }
    ensures ok { OnOk result (all_heard stands.new.items ≡ hear_at (all_heard stands.old.items) list (listened (seen listener))) }
    ensures leaves { LeavesWalks stands.old.items stands.new.items }
    ensures there { AreThere stands.new.items homes.new }
    ensures known { HaveHomes stands.new.items homes.new }
    ensures worn { (result ≡ Err Memory.Worn) ↔ ((chain_at stands.old.items list).last ≡ u64.MAX) }
    ensures stays { OnErr result ((s : ℕ) (n : List ℕ) → listening (all_heard stands.new.items) s n ≡ listening (all_heard stands.old.items) s n) }
{
    let id = listener.id.0;
    let token = push_in(stands, list, listener)?;
    let home = Home { list, token };
    match homes.insert(id, home) {
        Ok(_) => Ok(()),
        Err(_) => {
            remove_in(stands, home);
            Err(Memory::Refused)
        }
    }
}

/// Takes a listener out by its name.
pub fn drop_listener(stands: &mut Vec<Stand>, homes: &mut BTreeMap<u32, Home>, id: u32) -> bool
    requires there { AreThere stands.old.items homes.old }
    requires known { HaveHomes stands.old.items homes.old }
    ensures result { result ≡ is_some (called (all_heard stands.old.items) id) }
    ensures lists { all_heard stands.new.items ≡ without_listener (all_heard stands.old.items) id }
    ensures leaves { LeavesWalks stands.old.items stands.new.items }
    ensures there { AreThere stands.new.items homes.new }
    ensures known { HaveHomes stands.new.items homes.new }
{
    match homes.remove(&id) {
        None => false,
        Some(home) => {
            remove_in(stands, home);
            true
        }
    }
}

/// The listener of a name.
pub fn find_listener<'a>(
    stands: &'a [Stand],
    homes: &BTreeMap<u32, Home>,
    id: u32,
) -> Option<&'a Listener>
    requires there { AreThere stands.now homes.now }
    requires known { HaveHomes stands.now homes.now }
    ensures { option_map (λ l. seen l.now) result ≡ called (all_heard stands.now) id }
{
    match homes.get(&id) {
        None => None,
        Some(home) => Some(listener_in(stands, *home)),
    }
}

/// Forgets where the listener of a slot stands.
fn forget_one(homes: &mut BTreeMap<u32, Home>, slot: &Slot<Listener>)
    ensures { (q : ℕ) → get nat_cmp homes.new q ≡ (if is_named q (entry_before slot.now.serial slot.now.value []) then None else get nat_cmp homes.old q) }
{
    if let Some(listener) = &slot.value {
        homes.remove(&listener.id.0);
    }
}

/// Forgets where the listeners of a list stand.
fn forget(homes: &mut BTreeMap<u32, Home>, slots: &[Slot<Listener>])
    ensures { (q : ℕ) → get nat_cmp homes.new q ≡ (if is_named q (standing slots.now) then None else get nat_cmp homes.old q) }
{
    for slot in slots {
        forget_one(homes, slot);
    }
}

/// Takes everyone out of a list.
fn quiet_list(stands: &mut Vec<Stand>, homes: &mut BTreeMap<u32, Home>, list: usize)
    requires there { AreThere stands.old.items homes.old }
    requires known { HaveHomes stands.old.items homes.old }
    ensures new { stands.new.items ≡ change_chain stands.old.items list emptied }
    ensures there { AreThere stands.new.items homes.new }
    ensures known { HaveHomes stands.new.items homes.new }
{
    if list < stands.len() {
        forget(homes, slots_in(stands.as_slice(), list));
        clear_in(stands, list);
    }
}

/// Takes everyone out of the lists at these places.
fn quiet_lists(
    stands: &mut Vec<Stand>,
    homes: &mut BTreeMap<u32, Home>,
    places: &BTreeMap<Txt, usize>,
)
    requires there { AreThere stands.old.items homes.old }
    requires known { HaveHomes stands.old.items homes.old }
    ensures new { stands.new.items ≡ empty_at (values places.now) stands.old.items }
    ensures ordered { IsOrdered txt_cmp places.now }
    ensures there { AreThere stands.new.items homes.new }
    ensures known { HaveHomes stands.new.items homes.new }
{
    for list in places.values() {
        quiet_list(stands, homes, *list);
    }
}

/// Takes the listeners of a scope out.
pub fn quiet_scope(
    stands: &mut Vec<Stand>,
    homes: &mut BTreeMap<u32, Home>,
    names: &BTreeMap<u32, BTreeMap<Txt, usize>>,
    scope: u32,
)
    requires there { AreThere stands.old.items homes.old }
    requires known { HaveHomes stands.old.items homes.old }
    requires places { HavePlaces stands.old.items names.now }
    requires alone { ArePlaces stands.old.items }
    ensures lists { all_heard stands.new.items ≡ without_listeners_of (all_heard stands.old.items) scope }
    ensures leaves { LeavesWalks stands.old.items stands.new.items }
    ensures there { AreThere stands.new.items homes.new }
    ensures known { HaveHomes stands.new.items homes.new }
{
    match names.get(&scope) {
        None => {}
        Some(places) => quiet_lists(stands, homes, places),
    }
}
