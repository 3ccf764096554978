//! Kinds of sites.

/// What a watcher keeps of the value of a site: the text that it shows, its class words, the value itself, its items or named
/// values, or all of it (guide: Scopes, "Scope `$watch` Depths"); or, of a two-way binding, the side that changed (API: `$compile`, `scope`).
#[derive(Clone, Copy, Debug, PartialEq, Eq, Drop)]
pub enum SiteKind {
    Text,
    Words,
    Reference,
    Collection,
    Deep,
    TwoWay,
}
