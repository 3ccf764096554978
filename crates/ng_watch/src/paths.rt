//! Paths of scopes that are above one another, and copies of keys.
ghost use Rattle.std.specs.Prelude.{◌≡◌, IfOk};
ghost use Rattle.ng_behaviour.specs.Keys.{begins};

use ng_base::path::Key;
use std::alloc::AllocError;

/// Whether a path begins with another.
pub(crate) fn begins(u: &[u32], p: &[u32]) -> bool
    ensures { result ≡ begins u.now p.now }
{
    match u.split_first() {
        None => true,
        Some((x, xs)) => match p.split_first() {
            None => false,
            Some((y, ys)) => *x == *y && begins(xs, ys),
        },
    }
}

/// A copy of a key.
pub(crate) fn copied(key: &Key) -> Result<Key, AllocError>
    ensures { IfOk result (λ k. k ≡ key.now) }
{
    let path = key.path.copied()?;
    Ok(Key {
        path,
        serial: key.serial,
    })
}
