//! The lists of listeners, one for each scope and name.
ghost use Rattle.std.specs.Prelude.{◌≡◌, ◌<◌, ◌+◌, ◌++◌, ◌∷◌, ◌↔◌, [], Some, None, IsSome, length, option_map, MatchOption, IfOk, OnOk, OnErr, replicate, vec_len};
ghost use Rattle.ng_chain.specs.Walked.{value_of, found, walk_at, with_walk, open_walks, serial_of, IsRising};
ghost use Rattle.ng_chain.specs.Slots.{standing};
ghost use Rattle.ng_events.specs.Stands.{chain_at, change_chain, pushed, removed, walked, begun, emptied, entries_of, Hears, no_chain, walks_on};

use ng_base::fault::Memory;
use ng_base::name::FunId;
use ng_base::txt::Txt;
use ng_chain::chain::{Chain, Slot, Token, Walk};
use ng_parse::Program;
use std::alloc::{AllocError, Global};

/// A function that was registered, and its program.
#[derive(Drop)]
pub struct Listener {
    pub id: FunId,
    pub body: Program,
}

/// The listeners of a scope for a name.
#[derive(Drop)]
pub struct Stand {
    pub scope: u32,
    pub name: Txt,
    pub chain: Chain<Listener>,
}

/// Where a listener stands.
#[derive(Clone, Copy)]
pub struct Home {
    pub list: usize,
    pub token: Token,
}

/// A walk over the listeners of a scope for a name, which is to be ended.
pub enum EventWalk {
    /// No one had ever listened there.
    Bare,
    /// Over a list.
    On(usize, Walk),
}

/// Adds a listener to a list. The error says why it was not.
#[tactic(auto, using(crate::proofs::Chains::writes))]
pub fn push_in(stands: &mut Vec<Stand>, i: usize, listener: Listener) -> Result<Token, Memory>
    requires { i < vec_len stands.old }
    ensures ok { IfOk result (λ t. (serial_of t ≡ (chain_at stands.old.items i).last + 1) × (stands.new.items ≡ change_chain stands.old.items i (pushed t listener))) }
    ensures err { OnErr result (stands.new.items ≡ stands.old.items) }
    ensures worn { (result ≡ Err Memory.Worn) ↔ ((chain_at stands.old.items i).last ≡ u64.MAX) }
    ensures rising { IsRising 0 (chain_at stands.old.items i).last (chain_at stands.old.items i).entries }
{
    let stand = &mut stands[i];
    stand.chain.sound();
    match stand.chain.push(listener) {
        Ok(token) => Ok(token),
        Err((_, memory)) => Err(memory),
    }
}

/// A list more, with nobody in it.
#[tactic(auto, using(crate::proofs::Chains::writes))]
pub fn add_stand(
    stands: &mut Vec<Stand>,
    alloc: Global,
    scope: u32,
    name: &Txt,
) -> Result<(), AllocError>
    ensures ok { OnOk result (stands.new.items ≡ stands.old.items ++ record { scope = scope; name = name.now; chain = no_chain } ∷ []) }
    ensures err { OnErr result (stands.new.items ≡ stands.old.items) }
{
    let name = name.copied()?;
    stands.push(Stand {
        scope,
        name,
        chain: Chain::new(alloc),
    })?;
    Ok(())
}

/// Takes a listener out.
#[tactic(auto, using(crate::proofs::Chains::writes))]
pub fn remove_in(stands: &mut Vec<Stand>, home: Home)
    requires within { home.list < vec_len stands.old }
    requires stands { IsSome (value_of (chain_at stands.old.items home.list).entries home.token) }
    ensures new { stands.new.items ≡ change_chain stands.old.items home.list (removed home.token) }
    ensures rising { IsRising 0 (chain_at stands.old.items home.list).last (chain_at stands.old.items home.list).entries }
{
    let stand = &mut stands[home.list];
    stand.chain.sound();
    let _ = stand.chain.remove(home.token);
}

/// A listener.
#[tactic(auto, using(crate::proofs::Chains::writes))]
pub fn listener_in(stands: &[Stand], home: Home) -> &Listener
    requires within { home.list < length stands.now }
    requires stands { IsSome (value_of (chain_at stands.now home.list).entries home.token) }
    ensures { value_of (chain_at stands.now home.list).entries home.token ≡ Some result.now }
{
    let stand = &stands[home.list];
    stand.chain.get(&home.token)
}

/// Begins a walk over a list.
#[tactic(auto, using(crate::proofs::Chains::writes))]
pub fn walk_in(stands: &mut Vec<Stand>, i: usize) -> Option<Walk>
    requires { i < vec_len stands.old }
    ensures rising { IsRising 0 (chain_at stands.old.items i).last (chain_at stands.old.items i).entries }
    ensures walk { MatchOption result ((open_walks (walks_on stands.old.items i) ≡ 64) × (stands.new.items ≡ stands.old.items)) (λ w. (walk_at (walks_on stands.old.items i) w.slot ≡ None) × (w.slot < length (walks_on stands.old.items i)) × (stands.new.items ≡ change_chain stands.old.items i (begun w.slot))) }
{
    let stand = &mut stands[i];
    stand.chain.walk()
}

/// Goes to the next listener of a walk over a list.
#[tactic(auto, using(crate::proofs::Chains::writes))]
pub fn hear_in(stands: &mut Vec<Stand>, i: usize, w: &mut Walk) -> Option<FunId>
    requires within { i < vec_len stands.old }
    requires open { IsSome (walk_at (walks_on stands.old.items i) w.old.slot) }
    ensures hears { Hears (entries_of (chain_at stands.old.items i).entries) (walk_at (walks_on stands.old.items i) w.old.slot) result (walk_at (walks_on stands.new.items i) w.old.slot) }
    ensures new { stands.new.items ≡ change_chain stands.old.items i (walked w.old.slot (walk_at (walks_on stands.new.items i) w.old.slot)) }
    ensures walk { w.new ≡ w.old }
{
    let stand = &mut stands[i];
    hear(&mut stand.chain, w)
}

/// Goes to the next listener of a walk.
#[tactic(auto, using(crate::proofs::Entries::hears))]
fn hear(chain: &mut Chain<Listener>, w: &mut Walk) -> Option<FunId>
    requires open { IsSome (walk_at chain.old.walks w.old.slot) }
    ensures hears { Hears (entries_of chain.old.entries) (walk_at chain.old.walks w.old.slot) result (walk_at chain.new.walks w.old.slot) }
    ensures chain { chain.new ≡ with_walk chain.old w.old.slot (walk_at chain.new.walks w.old.slot) }
    ensures walk { w.new ≡ w.old }
{
    match chain.step(w) {
        None => None,
        Some(_) => match chain.value(w) {
            Some(listener) => Some(listener.id),
            None => unreachable!(),
        },
    }
}

/// Ends a walk over a list.
#[tactic(auto, using(crate::proofs::Chains::writes))]
pub fn close_in(stands: &mut Vec<Stand>, i: usize, w: Walk)
    requires within { i < vec_len stands.old }
    requires open { IsSome (walk_at (walks_on stands.old.items i) w.slot) }
    ensures { stands.new.items ≡ change_chain stands.old.items i (walked w.slot None) }
{
    let stand = &mut stands[i];
    stand.chain.close(w);
}

/// The slots of a list.
#[tactic(auto, using(crate::proofs::Chains::writes))]
pub fn slots_in(stands: &[Stand], i: usize) -> &[Slot<Listener>]
    requires { i < length stands.now }
    ensures { standing result.now ≡ (chain_at stands.now i).entries }
{
    let stand = &stands[i];
    stand.chain.slots()
}

/// Takes everyone out of a list.
#[tactic(auto, using(crate::proofs::Chains::writes))]
pub fn clear_in(stands: &mut Vec<Stand>, i: usize)
    requires { i < vec_len stands.old }
    ensures { stands.new.items ≡ change_chain stands.old.items i emptied }
{
    let stand = &mut stands[i];
    stand.chain.clear();
}
