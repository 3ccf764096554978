//! Tables that are one text, which costs less to prove than an array: a line a row, and `→` between its columns.
use std::alloc::{AllocError, Global};

/// A row's first column, and the columns behind it.
pub(crate) fn column(row: &str) -> (&str, &str) {
    match row.split_once('→') {
        Some(parts) => parts,
        None => (row, ""),
    }
}

/// Numbers with a blank between them.
pub(crate) fn spelled(alloc: Global, numbers: &[u64]) -> Result<String, AllocError> {
    let mut out = String::new(alloc);
    for n in numbers {
        if !out.is_empty() {
            out.push(' ')?;
        }
        let text = format!(in alloc; "{n}")?;
        out.push_str(text.as_str())?;
    }
    Ok(out)
}
