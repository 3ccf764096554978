//! The scopes of the rows of a repeat that are kept, row by row (API: ngRepeat).
ghost use Rattle.std.specs.Prelude.{map};
ghost use Rattle.ng_fire.specs.RowsKnown.{TakesScope};
ghost use Rattle.ng_rows.specs.RepeatsOf.{row_of};

use ng_base::name::ScopeId;
use ng_rows::rows::Row;

/// The scope of a row, which is the first of these where the row is kept, and the scopes of those after it.
pub(crate) fn scope_for<'a>(row: &Row<'_>, scopes: &'a [ScopeId]) -> (ScopeId, &'a [ScopeId])
    ensures { TakesScope (row_of row.now) (map (λ s. s.0) scopes.now) result.0.0 (map (λ s. s.0) result.1.now) }
{
    match row.from {
        None => (ScopeId(0), scopes),
        Some(_) => match scopes.split_first() {
            None => (ScopeId(0), scopes),
            Some((scope, others)) => (*scope, others),
        },
    }
}
