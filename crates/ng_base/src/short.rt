//! A short text, whose bytes stand in the value itself.
ghost use Rattle.std.specs.Prelude.{◌≡◌, ◌+◌, ◌≤◌, ◌++◌, ◌↔◌, [], length, take, drop, IsTrue, IsFalse};
ghost use Rattle.std.specs.Int.{w64, to_le_bytes};
ghost use Rattle.ng_base.specs.ShortRooms.{HoldsText};

use std::str;

/// As many bytes have room.
const ROOM: usize = 14;

/// A text of at most 14 bytes, the first of those that stand here. All others are 0, so that two texts of the same length
/// are the same exactly where the whole rooms are.
#[derive(Clone, Copy)]
pub(crate) struct ShortText {
    len: u8,
    bytes: [u8; ROOM],
    ghost fits: { len ≤ 14 },
    ghost holds: { HoldsText len bytes },
}

/// Eight bytes as a number, which a machine compares in one step.
#[inline(always)]
fn word(bytes: [u8; 8]) -> u64
    ensures { to_le_bytes w64 result ≡ bytes }
{
    u64::from_le_bytes(bytes)
}

/// The first eight bytes of a room. LLVM makes one read of them only where it compiles this function before it inlines it.
#[inline]
fn front(room: &[u8; ROOM]) -> u64
    ensures { to_le_bytes w64 result ≡ take 8 room.now }
{
    word([
        room[0], room[1], room[2], room[3], room[4], room[5], room[6], room[7],
    ])
}

/// The last eight bytes of a room, in one read as well.
#[inline]
fn back(room: &[u8; ROOM]) -> u64
    ensures { to_le_bytes w64 result ≡ drop 6 room.now }
{
    word([
        room[6], room[7], room[8], room[9], room[10], room[11], room[12], room[13],
    ])
}

/// Whether two rooms have the same bytes. The two words, which overlap, cover a room.
#[inline(always)]
fn same_room(room: &[u8; ROOM], other: &[u8; ROOM]) -> bool
    ensures { IsTrue result ↔ (room.now ≡ other.now) }
{
    front(room) == front(other) && back(room) == back(other)
}

impl ShortText {
    ghost use Rattle.ng_base.specs.Held.{short_bytes};

    /// The empty text.
    pub(crate) fn new() -> ShortText
        ensures { short_bytes result ≡ [] }
    {
        ShortText {
            len: 0,
            bytes: [0; ROOM],
        }
    }

    /// The text as std has it.
    #[inline(always)]
    pub(crate) fn as_str(&self) -> &str
        ensures { result.now ≡ short_bytes self.now }
    {
        unsafe { str::from_utf8_unchecked(&self.bytes[..self.len as usize]) }
    }

    /// Whether two texts have the same bytes.
    #[inline(always)]
    pub(crate) fn same(&self, other: &ShortText) -> bool
        ensures { IsTrue result ↔ (short_bytes self.now ≡ short_bytes other.now) }
    {
        self.len == other.len && same_room(&self.bytes, &other.bytes)
    }

    /// Adds the characters of `s` at the end, if they have room.
    pub(crate) fn push_str(&mut self, s: &str) -> bool
        ensures room { IsTrue result ↔ (length (short_bytes self.old) + length s.now ≤ 14) }
        ensures added { IsTrue result → short_bytes self.new ≡ short_bytes self.old ++ s.now }
        ensures kept { IsFalse result → short_bytes self.new ≡ short_bytes self.old }
    {
        let len = self.len as usize;
        if s.len() > ROOM - len {
            return false;
        }
        let end = len + s.len();
        self.bytes[len..end].copy_from_slice(s.as_bytes());
        self.len = end as u8;
        true
    }
}
