//! Whether the rows of a repeat that are kept stand in the order of their entries already, each for its own (API: ngRepeat).
ghost use Rattle.std.specs.Prelude.{◌≡◌, map, slice_get, true, IsTrue};
ghost use Rattle.ng_drawing.specs.RolesOf.{entry_of, role_of};
ghost use Rattle.ng_rows.specs.RowsInOrder.{in_order, is_for as is_for_role, place_after as place_after_source, stands_for as stands_for_body};
ghost use Rattle.ng_instances.specs.InstanceOf.{body_of};
ghost use Rattle.ng_rows.specs.RepeatsOf.{rows_of};

use crate::rows::Row;
use ng_base::lists::Sources;
use ng_drawing::roles::{Entry, Role, same_entry};
use ng_instances::instances::SharedBody;

/// Whether a role is that of the row of an entry, under whatever key.
fn is_for(entry: &Entry, role: &Role) -> bool
    ensures { result ≡ is_for_role (entry_of entry.now) (role_of role.now) }
{
    match role {
        Role::Body => false,
        Role::Row(_, own) => same_entry(entry, own),
        Role::Named(_) => false,
    }
}

/// Whether the row at a place is that of an entry.
#[tactic(auto, using(crate::proofs::RowAt::row_at, crate::proofs::RowAt::no_row_at))]
fn stands_for(bodies: &[SharedBody], i: u32, entry: &Entry) -> bool
    ensures { result ≡ stands_for_body (entry_of entry.now) (slice_get (map body_of bodies.now) i) }
{
    match bodies.get(i as usize) {
        None => false,
        Some(body) => is_for(entry, body.role()),
    }
}

/// What the place that the next row comes from is at least, where the row of an entry stays as it is.
fn place_after(bodies: &[SharedBody], least: u64, entry: &Entry, source: Option<u32>) -> Option<u64>
    ensures { result ≡ place_after_source (map body_of bodies.now) least (entry_of entry.now) source }
{
    match source {
        None => Some(least),
        Some(i) => {
            if (i as u64) < least {
                None
            } else if stands_for(bodies, i, entry) {
                Some(i as u64 + 1)
            } else {
                None
            }
        }
    }
}

/// Whether the places that rows come from rise, and each row that is kept stays as it is.
pub fn are_in_order(bodies: &[SharedBody], sources: &Sources, rows: &[Row<'_>]) -> bool
    ensures { IsTrue result → in_order (map body_of bodies.now) 0 (rows_of rows.now) sources.now ≡ true }
{
    let mut least = 0;
    let mut sources = sources.as_slice();
    for row in rows {
        let Some((source, others)) = sources.split_first() else {
            return false;
        };
        match place_after(bodies, least, &row.item.entry, *source) {
            None => return false,
            Some(next) => least = next,
        }
        sources = others;
    }
    true
}
