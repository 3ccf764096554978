//! Names that objects share: those that got the same names in the same order have one list of them, so that they take memory for their
//! values alone.
ghost use Rattle.std.specs.Prelude.{◌≡◌, ◌∷◌, ◌++◌, [], IsTrue, IfOk, IfErr, IfSome, false, bytes_eq};
ghost use Rattle.std.specs.List.{list_any};
ghost use Rattle.ng_base.specs.declared.fault.Memory.TheVariants.{Refused};

use indexmap::IndexSet;
use ng_base::fault::Memory;
use ng_base::txt::Txt;
use std::alloc::{AllocError, Global};
use std::rc::Rc;

/// Names in the order of insertion, with their owners.
pub(crate) type Shape = Rc<IndexSet<Txt>>;

/// So many shapes are kept to be shared.
const SHAPES: usize = 64;

/// The shapes that were made last.
#[derive(Drop)]
pub(crate) struct Shapes {
    none: Option<Shape>,
    shapes: Vec<Shape>,
    /// The place behind the shape that was found last: what is made now mostly grows as what was made before.
    next: usize,
}

/// Whether names are the same, one by one.
fn are_same(names: &[Txt], others: &[Txt]) -> bool
    ensures { IsTrue result → names.now ≡ others.now }
{
    let mut left = others;
    for name in names {
        match left.split_first() {
            None => return false,
            Some((other, rest)) => {
                if !name.same(other) {
                    return false;
                }
                left = rest;
            }
        }
    }
    left.is_empty()
}

/// Whether a shape is that of some names and one more.
fn is_grown(shape: &[Txt], names: &[Txt], name: &Txt) -> bool
    ensures { IsTrue result → shape.now ≡ names.now ++ name.now ∷ [] }
{
    match shape.split_last() {
        None => false,
        Some((last, before)) => last.same(name) && are_same(before, names),
    }
}

/// The same names, with owners of their own.
fn copied(alloc: Global, names: &IndexSet<Txt>, room: usize) -> Result<IndexSet<Txt>, Memory>
    ensures names { IfOk result (λ s. s.keys ≡ names.now.keys) }
    ensures refused { IfErr result (λ e. e ≡ Refused) }
{
    let mut all = IndexSet::with_capacity(alloc, room)?;
    for name in names.as_slice() {
        all.insert(name.copied()?)?;
    }
    Ok(all)
}

/// Names and one more, which isn't among them.
pub(crate) fn grown_names(
    alloc: Global,
    names: &IndexSet<Txt>,
    name: &Txt,
) -> Result<IndexSet<Txt>, Memory>
    requires { list_any (bytes_eq name.now) names.now.keys ≡ false }
    ensures names { IfOk result (λ s. s.keys ≡ names.now.keys ++ name.now ∷ []) }
    ensures refused { IfErr result (λ e. e ≡ Refused) }
{
    let room = names.len() + 1;
    let mut all = copied(alloc, names, room)?;
    all.insert(name.copied()?)?;
    Ok(all)
}

impl Shapes {
    /// No shape.
    pub(crate) fn new(alloc: Global) -> Shapes {
        Shapes {
            none: None,
            shapes: Vec::new(alloc),
            next: 0,
        }
    }

    /// The shape without names.
    pub(crate) fn empty(&mut self, alloc: Global) -> Result<Shape, AllocError>
        ensures { IfOk result (λ s. s.value.keys ≡ []) }
    {
        if let Some(none) = &self.none {
            if none.as_ref().is_empty() {
                return none.clone();
            }
        }
        let none = Rc::new(alloc, IndexSet::new(alloc))?;
        self.none = Some(none.clone()?);
        Ok(none)
    }

    /// The shape at a place, if it is that of some names and one more.
    fn grown_at(
        &self,
        place: usize,
        names: &IndexSet<Txt>,
        name: &Txt,
    ) -> Result<Option<Shape>, AllocError>
        ensures { IfOk result (λ found. IfSome found (λ s. s.value.keys ≡ names.now.keys ++ name.now ∷ [])) }
    {
        match self.shapes.get(place) {
            None => Ok(None),
            Some(shape) => {
                if is_grown(shape.as_ref().as_slice(), names.as_slice(), name) {
                    Ok(Some(shape.clone()?))
                } else {
                    Ok(None)
                }
            }
        }
    }

    /// The shape of some names and one more, among those that are kept.
    fn known(&mut self, names: &IndexSet<Txt>, name: &Txt) -> Result<Option<Shape>, AllocError>
        ensures { IfOk result (λ found. IfSome found (λ s. s.value.keys ≡ names.now.keys ++ name.now ∷ [])) }
    {
        let next = self.next;
        if let Some(shape) = self.grown_at(next, names, name)? {
            self.next = next.saturating_add(1);
            return Ok(Some(shape));
        }
        for place in 0..self.shapes.len() {
            if let Some(shape) = self.grown_at(place, names, name)? {
                self.next = place.saturating_add(1);
                return Ok(Some(shape));
            }
        }
        Ok(None)
    }

    /// A shape is kept. Where there are many, it takes the place of another.
    fn keep(&mut self, shape: Shape) -> Result<(), AllocError> {
        let place = self.next;
        if self.shapes.len() < SHAPES {
            self.next = self.shapes.len() + 1;
            self.shapes.push(shape)?;
        } else if place < self.shapes.len() {
            self.shapes[place] = shape;
            self.next = place + 1;
        } else {
            self.shapes[0] = shape;
            self.next = 1;
        }
        Ok(())
    }

    /// The shape of some names and one more, which isn't among them.
    pub(crate) fn grown(
        &mut self,
        alloc: Global,
        names: &IndexSet<Txt>,
        name: &Txt,
    ) -> Result<Shape, Memory>
        requires { list_any (bytes_eq name.now) names.now.keys ≡ false }
        ensures names { IfOk result (λ s. s.value.keys ≡ names.now.keys ++ name.now ∷ []) }
        ensures refused { IfErr result (λ e. e ≡ Refused) }
    {
        if let Some(shape) = self.known(names, name)? {
            return Ok(shape);
        }
        let shape = Rc::new(alloc, grown_names(alloc, names, name)?)?;
        self.keep(shape.clone()?)?;
        Ok(shape)
    }
}
