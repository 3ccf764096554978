//! The rows that a repeat keeps (API: ngRepeat, "Tracking and Duplicates"): a contract without a body.
ghost use Rattle.ng_laws.specs.KeptRows.{KeptRowsStay};

/// A row whose track key is called for keeps its scope and its nodes.
pub fn kept_rows_stay()
    ensures { KeptRowsStay }
{}
