//! Where the lists of the scopes and names stand.
ghost use Rattle.std.specs.Prelude.{◌≡◌, is_some, OnOk, OnErr};
ghost use Rattle.std.specs.BTreeMap.{get};
ghost use Rattle.std.specs.Ordering.{nat_cmp};
ghost use Rattle.ng_events.specs.Names.{named, Names, AreSame};

use ng_base::txt::Txt;
use std::alloc::{AllocError, Global};
use std::collections::BTreeMap;

/// The place of the list of a scope and a name.
pub fn place_in(
    names: &BTreeMap<u32, BTreeMap<Txt, usize>>,
    scope: u32,
    name: &Txt,
) -> Option<usize>
    ensures { result ≡ named names.now scope name.now }
{
    match names.get(&scope) {
        None => None,
        Some(places) => places.get(name).copied(),
    }
}

/// A name of a scope has a place.
pub fn enter(
    names: &mut BTreeMap<u32, BTreeMap<Txt, usize>>,
    alloc: Global,
    scope: u32,
    name: &Txt,
    place: usize,
) -> Result<(), AllocError>
    ensures ok { OnOk result (Names names.old scope name.now place names.new) }
    ensures err { OnErr result (AreSame names.old names.new) }
{
    let name = name.copied()?;
    if let Some(places) = names.get_mut(&scope) {
        places.insert(name, place)?;
        return Ok(());
    }
    let mut places = BTreeMap::new(alloc);
    places.insert(name, place)?;
    names.insert(scope, places)?;
    Ok(())
}
