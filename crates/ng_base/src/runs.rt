//! The longest front of a text in which each character stands for itself.
ghost use Rattle.std.specs.Prelude.{◌≡◌, ◌≤◌, ◌<◌, ◌++◌, length, take, get_or, false, IsTrue};
ghost use Rattle.std.specs.List.{list_all};
ghost use Rattle.std.specs.Str.{chars};
ghost use Rattle.ng_base.specs.Runs.{is_plain, IsPlain, begins_plain};

/// How many bytes are looked at together.
const BLOCK: usize = 32;

/// Whether a byte stands for itself, or is one of a character that does. No comparison waits for another.
fn is_plain(b: u8) -> bool
    ensures { result ≡ is_plain b }
{
    !((b == b'\n')
        | (b == b'\r')
        | (b == b'"')
        | (b == b'&')
        | (b == b'\'')
        | (b == b'<')
        | (b == b'>')
        | (b == b'\\')
        | (b == b'{')
        | (b == b'}'))
}

/// Whether each byte of a block stands for itself. It looks at all of them, so that many are compared at once.
fn is_plain_block(block: &[u8]) -> bool
    ensures { result ≡ list_all is_plain block.now }
{
    let mut plain = true;
    for b in block {
        plain &= is_plain(*b);
    }
    plain
}

/// How many bytes stand in whole blocks before the first with a byte that does not stand for itself.
fn plain_blocks(bytes: &[u8]) -> usize
    ensures within { result ≤ length bytes.now }
    ensures plain { IsTrue (list_all is_plain (take result bytes.now)) }
{
    let mut count = 0;
    for block in bytes.chunks_exact(BLOCK) {
        if !is_plain_block(block) {
            return count;
        }
        count += BLOCK;
    }
    count
}

/// How many bytes stand before the first that does not stand for itself, one by one.
fn plain_bytes(bytes: &[u8]) -> usize
    ensures within { result ≤ length bytes.now }
    ensures plain { IsTrue (list_all is_plain (take result bytes.now)) }
    ensures ends { result < length bytes.now → is_plain (get_or bytes.now result 0) ≡ false }
{
    let mut count = 0;
    for b in bytes {
        if !is_plain(*b) {
            return count;
        }
        count += 1;
    }
    count
}

/// How many bytes stand before the first that does not stand for itself.
fn plain_length(bytes: &[u8]) -> usize
    ensures within { result ≤ length bytes.now }
    ensures plain { IsTrue (list_all is_plain (take result bytes.now)) }
    ensures ends { result < length bytes.now → is_plain (get_or bytes.now result 0) ≡ false }
{
    if let Some(first) = bytes.first()
        && !is_plain(*first)
    {
        return 0;
    }
    let blocks = plain_blocks(bytes);
    blocks + plain_bytes(&bytes[blocks..])
}

/// The longest front of a text in which each character stands for itself, and the rest.
pub fn plain_front(text: &str) -> (&str, &str)
    ensures parts { chars text.now ≡ chars result.0.now ++ chars result.1.now }
    ensures plain { IsPlain (chars result.0.now) }
    ensures longest { begins_plain (chars result.1.now) ≡ false }
{
    let count = plain_length(text.as_bytes());
    (&text[..count], &text[count..])
}
