//! What `orderBy` orders values by.
ghost use Rattle.std.specs.Prelude.{◌≡◌, IfOk, IfErr};
ghost use Rattle.std.specs.Ordering.{nat_cmp};
ghost use Rattle.std.specs.Cmp.Lexicographic.{slice_cmp};
ghost use Rattle.ng_base.specs.declared.fault.Memory.TheVariants.{Refused};
ghost use Rattle.ng_filters.specs.Ordering.{key_of, key_cmp};
ghost use Rattle.ng_filters.specs.Seen.{seen};

use crate::view_ref::ViewRef;
use ng_base::casing::lower;
use ng_base::fault::Memory;
use ng_base::reader::Plain;
use ng_base::txt::Txt;
use std::alloc::Global;
use std::cmp::Ordering;

/// The rank of a value's type, and then its number or its text.
#[derive(Drop)]
pub(crate) struct Key {
    pub(crate) rank: u8,
    pub(crate) number: i128,
    pub(crate) text: Txt,
}

/// What a value is ordered by.
pub(crate) fn key_of(alloc: Global, v: ViewRef<'_>) -> Result<Key, Memory>
    ensures key { IfOk result (λ key. key ≡ key_of (seen v.entry)) }
    ensures refused { IfErr result (λ e. e ≡ Refused) }
{
    let (rank, number) = match v {
        ViewRef::Bool(b) => (0, if b { 1 } else { 0 }),
        ViewRef::Fun(_) => (1, 0),
        ViewRef::Int(n) => (2, n as i128),
        ViewRef::Length(n) => (2, n as i128),
        ViewRef::Nan => (3, 0),
        ViewRef::Obj(_) => (4, 0),
        ViewRef::List(_) => (4, 0),
        ViewRef::Rec(_) => (4, 0),
        ViewRef::Text(_) => (5, 0),
        ViewRef::Null => (6, 0),
        ViewRef::Undefined => (7, 0),
    };
    let text = match v {
        ViewRef::Text(t) => lower(alloc, t)?,
        _ => Txt::new(alloc),
    };
    Ok(Key { rank, number, text })
}

/// Two texts by their characters.
fn text_cmp(a: &Txt, b: &Txt) -> Ordering
    ensures { result ≡ slice_cmp nat_cmp a.now b.now }
{
    let mut left = Plain::new(a.as_str());
    let mut right = Plain::new(b.as_str());
    while let Some((c, rest)) = left.first() {
        let Some((d, other)) = right.first() else {
            return Ordering::Greater;
        };
        match (c as u32).cmp(&(d as u32)) {
            Ordering::Equal => (),
            order => return order,
        }
        left = rest;
        right = other;
    }
    match right.first() {
        Some(_) => Ordering::Less,
        None => Ordering::Equal,
    }
}

/// By rank, by number, by text.
pub(crate) fn key_cmp(a: &Key, b: &Key) -> Ordering
    ensures { result ≡ key_cmp a.now b.now }
{
    match a.rank.cmp(&b.rank) {
        Ordering::Equal => match a.number.cmp(&b.number) {
            Ordering::Equal => text_cmp(&a.text, &b.text),
            order => order,
        },
        order => order,
    }
}
