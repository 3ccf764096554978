//! What stands under keys on a path, and on those that begin with it, is taken out of a table. It costs what it takes.
ghost use Rattle.std.specs.Prelude.{◌≡◌, not, OnOk, IfOk};
ghost use Rattle.std.specs.List.{filter};
ghost use Rattle.std.specs.Map.{lookup_key, remove_entry};
ghost use Rattle.ng_behaviour.specs.Keys.{is_key, begins as begins_with};
ghost use Rattle.ng_build.specs.Shape.{key_on as key_of};

use crate::copying::key_on;
use ng_base::path::{Key, Path};
use std::alloc::AllocError;
use std::collections::BTreeMap;
use std::ops::Bound;

/// Whether a path begins with another.
pub fn begins(u: &[u32], p: &[u32]) -> bool
    ensures { result ≡ begins_with u.now p.now }
{
    match u.split_first() {
        None => true,
        Some((x, xs)) => match p.split_first() {
            None => false,
            Some((y, ys)) => *x == *y && begins(xs, ys),
        },
    }
}

/// The first key from one on whose path begins with this one.
fn first_on<V>(table: &BTreeMap<Key, V>, start: &Key, p: &Path) -> Result<Option<Key>, AllocError>
    requires { start.now ≡ key_of p.now 0 }
    ensures { IfOk result (λ r. r ≡ lookup_key (λ k. begins_with p.now k.path) table.now.entries) }
{
    match table
        .range((Bound::Included(start), Bound::Unbounded))
        .next()
    {
        None => Ok(None),
        Some((key, _)) => {
            if begins(p.as_slice(), key.path.as_slice()) {
                Ok(Some(key_on(&key.path, key.serial.0)?))
            } else {
                Ok(None)
            }
        }
    }
}

/// A key is taken out.
fn forget_key<V: Drop>(table: &mut BTreeMap<Key, V>, key: Key)
    ensures { table.new.entries ≡ remove_entry (is_key key) table.old.entries }
{
    let _ = table.remove(&key);
}

/// The keys on a path and below it are taken out.
pub fn forget_on<V: Drop>(table: &mut BTreeMap<Key, V>, p: &Path) -> Result<(), AllocError>
    ensures { OnOk result (table.new.entries ≡ filter (λ e. not (begins_with p.now e.0.path)) table.old.entries) }
{
    let start = key_on(p, 0)?;
    while let Some(key) = first_on(table, &start, p)? {
        forget_key(table, key);
    }
    Ok(())
}
