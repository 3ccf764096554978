//! Tables that are one text, which costs less to prove than an array: a line a row, and `→` between its columns.

/// A row's first column, and the columns behind it.
pub(crate) fn column(row: &str) -> (&str, &str) {
    match row.split_once('→') {
        Some(parts) => parts,
        None => (row, ""),
    }
}
