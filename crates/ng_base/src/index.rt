//! Names that are array indices.
ghost use Rattle.std.specs.Prelude.{◌≡◌};
ghost use Rattle.ng_base.specs.Objects.{spelled, only_zero, index_of};

use crate::reader::Plain;
use crate::txt::Txt;

/// Array indices are below this.
const INDEX_LIMIT: u64 = 4_294_967_295;

/// The number that digits spell.
fn spelled(mut reader: Plain<'_>) -> Option<u32>
    ensures { result ≡ spelled 0 reader.entry }
{
    let mut n: u64 = 0;
    while let Some(c) = reader.next() {
        if !c.is_ascii_digit() {
            return None;
        }
        let more = 10 * n + (c as u64 - 48);
        if more >= INDEX_LIMIT {
            return None;
        }
        n = more;
    }
    Some(n as u32)
}

/// The array index that a name spells: digits without a leading zero.
pub fn index_of(name: &Txt) -> Option<u32>
    ensures { result ≡ index_of name.now }
{
    let reader = Plain::new(name.as_str());
    let (c, rest) = reader.first()?;
    if c == '0' {
        return match rest.first() {
            None => Some(0),
            Some(_) => None,
        };
    }
    spelled(reader)
}
