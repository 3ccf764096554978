//! The properties of one object: names, which objects share where they are few, and a value for each.
ghost use Rattle.std.specs.Prelude.{◌≡◌, ◌<◌, ◌∷◌, ◌++◌, [], length, is_some, IsTrue, true, false, IfOk, OnOk, OnErr, IsOk, IfErr, IfSome, bytes_eq, option_copied, position, ◌≤◌, take, get_or, not};
ghost use Rattle.std.specs.List.{list_any, list_all};
ghost use Rattle.std.specs.Map.{lookup};
ghost use Rattle.indexmap.specs.IndexMap.{insert_entry, set_value_at};
ghost use Rattle.ng_base.specs.declared.value.Value.{Value as ValueOf};
ghost use Rattle.ng_base.specs.declared.fault.Memory.TheVariants.{Refused};
ghost use Rattle.ng_store.specs.NamesOf.{names_in};
ghost use Rattle.ng_store.specs.SetNames.{put_names, StaySound};

use crate::rooms::Rooms;
use crate::shapes::{Shape, Shapes, grown_names};
use indexmap::IndexSet;
use ng_base::fault::Memory;
use ng_base::heap::ObjKind;
use ng_base::txt::Txt;
use ng_base::value::Value;
use std::alloc::{AllocError, Global};

/// So many names are looked through one after another, which takes less than a hash of the name, and are shared.
const FEW: usize = 12;

/// The names of an object: few, which others may have too, or many of its own.
#[derive(Drop)]
pub(crate) enum OwnNames {
    Shared(Shape),
    Own(Box<IndexSet<Txt>>),
}

/// Names, and a value for each.
#[derive(Drop)]
pub(crate) struct Properties {
    pub(crate) names: OwnNames,
    pub(crate) values: Vec<Value>,
    ghost as_many: { length (names_in names) ≡ length values.items },
}

/// How many names stand before a name, or all where it isn't there.
fn count_before(names: &[Txt], name: &Txt) -> usize
    ensures within { result ≤ length names.now }
    ensures others { list_all (λ n. not (bytes_eq name.now n)) (take result names.now) ≡ true }
    ensures found { result < length names.now → bytes_eq name.now (get_or names.now result []) ≡ true }
{
    let mut count = 0;
    for known in names {
        if name.same(known) {
            return count;
        }
        count += 1;
    }
    count
}

/// The place of a name, by a look at one name after another.
#[tactic(auto, using(crate::proofs::NamePlaces::first_place, crate::proofs::NamePlaces::no_place))]
fn place_among(names: &[Txt], name: &Txt) -> Option<usize>
    ensures { result ≡ position (bytes_eq name.now) names.now }
{
    let place = count_before(names, name);
    if place < names.len() {
        Some(place)
    } else {
        None
    }
}

/// The place of a name.
fn place_of(names: &IndexSet<Txt>, name: &Txt) -> Option<usize>
    ensures { result ≡ position (bytes_eq name.now) names.now.keys }
{
    if names.len() <= FEW {
        place_among(names.as_slice(), name)
    } else {
        names.get_index_of(name)
    }
}

/// The names that follow few: few again while there is room for them.
fn next_names(
    alloc: Global,
    shapes: &mut Shapes,
    names: &IndexSet<Txt>,
    name: &Txt,
) -> Result<OwnNames, Memory>
    requires { list_any (bytes_eq name.now) names.now.keys ≡ false }
    ensures names { IfOk result (λ s. names_in s ≡ names.now.keys ++ name.now ∷ []) }
    ensures refused { IfErr result (λ e. e ≡ Refused) }
{
    if names.len() < FEW {
        Ok(OwnNames::Shared(shapes.grown(alloc, names, name)?))
    } else {
        Ok(OwnNames::Own(Box::new(alloc, grown_names(alloc, names, name)?)?))
    }
}

/// A name comes behind the others.
fn lengthen(
    alloc: Global,
    shapes: &mut Shapes,
    names: &mut OwnNames,
    name: &Txt,
) -> Result<(), Memory>
    requires { list_any (bytes_eq name.now) (names_in names.old) ≡ false }
    ensures ok { OnOk result (names_in names.new ≡ names_in names.old ++ name.now ∷ []) }
    ensures err { OnErr result (names_in names.new ≡ names_in names.old) }
    ensures refused { IfErr result (λ e. e ≡ Refused) }
{
    if let OwnNames::Own(own) = names {
        own.insert(name.copied()?)?;
        return Ok(());
    }
    *names = next_names(alloc, shapes, names.set(), name)?;
    Ok(())
}

impl OwnNames {
    /// The names as a set.
    fn set(&self) -> &IndexSet<Txt>
        ensures { result.now.keys ≡ names_in self.now }
    {
        match self {
            OwnNames::Shared(names) => names.as_ref(),
            OwnNames::Own(names) => names,
        }
    }
}

impl Properties {
    ghost use Rattle.ng_store.specs.ObjectOf.{properties_of};

    /// No property, of an object of a kind.
    pub(crate) fn new(
        alloc: Global,
        shapes: &mut Shapes,
        rooms: &mut Rooms,
        kind: ObjKind,
    ) -> Result<Properties, AllocError>
        ensures { IfOk result (λ p. properties_of p ≡ []) }
    {
        let names = OwnNames::Shared(shapes.empty(alloc)?);
        let values = match kind {
            ObjKind::Scope => rooms.take(alloc)?,
            _ => Vec::new(alloc),
        };
        Ok(Properties { names, values })
    }

    /// No property, with room for some.
    pub(crate) fn with_room(
        alloc: Global,
        shapes: &mut Shapes,
        room: usize,
    ) -> Result<Properties, AllocError>
        ensures { IfOk result (λ p. properties_of p ≡ []) }
    {
        let names = if room > FEW {
            OwnNames::Own(Box::new(alloc, IndexSet::with_capacity(alloc, room)?)?)
        } else {
            OwnNames::Shared(shapes.empty(alloc)?)
        };
        let values = Vec::with_capacity(alloc, room)?;
        Ok(Properties { names, values })
    }

    /// The names in order.
    pub(crate) fn names(&self) -> &[Txt]
        ensures { result.now ≡ names_in self.now.names }
    {
        self.names.set().as_slice()
    }

    /// The value under a name.
    pub(crate) fn get(&self, name: &Txt) -> Option<&Value>
        ensures { option_copied result ≡ lookup (bytes_eq name.now) (properties_of self.now) }
    {
        match place_of(self.names.set(), name) {
            None => None,
            Some(place) => self.values.as_slice().get(place),
        }
    }

    /// Whether the property at a place has this name.
    fn is_at(&self, place: usize, name: &Txt) -> bool
        ensures within { IsTrue result → place < length self.now.values.items }
        ensures there { IsTrue result → is_some (lookup (bytes_eq name.now) (properties_of self.now)) ≡ true }
        ensures written { IsTrue result → (v : ValueOf) → insert_entry bytes_eq (properties_of self.now) name.now v ≡ set_value_at (properties_of self.now) place v }
    {
        let names = self.names.set().as_slice();
        match names.get(place) {
            None => false,
            Some(known) => name.same(known),
        }
    }

    /// Writes the property at a place.
    fn write_at(&mut self, place: usize, v: Value)
        requires { place < length self.old.values.items }
        ensures { properties_of self.new ≡ set_value_at (properties_of self.old) place v }
    {
        if let Some(slot) = self.values.get_mut(place) {
            *slot = v;
        }
    }

    /// A property comes behind the others.
    fn add(
        &mut self,
        alloc: Global,
        shapes: &mut Shapes,
        name: &Txt,
        v: Value,
    ) -> Result<(), Memory>
        requires { list_any (bytes_eq name.now) (names_in self.old.names) ≡ false }
        ensures ok { OnOk result (properties_of self.new ≡ properties_of self.old ++ (name.now, v) ∷ []) }
        ensures err { OnErr result (properties_of self.new ≡ properties_of self.old) }
        ensures refused { IfErr result (λ e. e ≡ Refused) }
    {
        self.values.reserve(1)?;
        lengthen(alloc, shapes, &mut self.names, name)?;
        self.values.push_reserved(v);
        Ok(())
    }

    /// Sets a property, in its place or at the end. One that is there takes no memory. The place behind the one that was set last is looked
    /// at first, since rows are told the same names in the same order.
    pub(crate) fn put(
        &mut self,
        alloc: Global,
        shapes: &mut Shapes,
        next: &mut usize,
        name: &Txt,
        v: Value,
    ) -> Result<(), Memory>
        ensures ok { OnOk result (properties_of self.new ≡ insert_entry bytes_eq (properties_of self.old) name.now v) }
        ensures err { OnErr result (properties_of self.new ≡ properties_of self.old) }
        ensures there { is_some (lookup (bytes_eq name.now) (properties_of self.old)) ≡ true → IsOk result }
        ensures refused { IfErr result (λ e. e ≡ Refused) }
    {
        let guess = *next;
        if self.is_at(guess, name) {
            self.write_at(guess, v);
            *next = guess.saturating_add(1);
            return Ok(());
        }
        match place_of(self.names.set(), name) {
            Some(place) => {
                self.write_at(place, v);
                *next = place.saturating_add(1);
                Ok(())
            }
            None => {
                self.add(alloc, shapes, name, v)?;
                Ok(())
            }
        }
    }

    /// Sets properties one after another, as far as there are names and values. The next call looks first at the place where these began.
    pub(crate) fn put_all(
        &mut self,
        alloc: Global,
        shapes: &mut Shapes,
        next: &mut usize,
        names: &[Txt],
        values: &[Value],
    ) -> Result<(), Memory>
        ensures ok { OnOk result (properties_of self.new ≡ put_names (properties_of self.old) names.now values.now) }
        ensures sound { StaySound values.now (properties_of self.old) (properties_of self.new) }
        ensures refused { IfErr result (λ e. e ≡ Refused) }
    {
        let mut left = values;
        for name in names {
            let Some((value, rest)) = left.split_first() else {
                return Ok(());
            };
            self.put(alloc, shapes, next, name, value.copied()?)?;
            left = rest;
        }
        let behind = *next;
        *next = behind.saturating_sub(names.len());
        Ok(())
    }
}
