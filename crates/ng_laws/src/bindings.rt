//! What the scopes of an application's directives share with those outside (guide: Directives, "Isolating the Scope of a Directive", "Creating a
//! Directive that Wraps Other Elements"; API: `$compile`): contracts without bodies.
ghost use Rattle.ng_laws.specs.Bindings.{BothSidesAgree, TranscludedReadsOutside};

/// Once no watcher of a page is dirty, both sides of a two-way binding are the same value.
pub fn both_sides_of_a_binding_agree()
    ensures { BothSidesAgree }
{}

/// What is transcluded has the names of the scope outside the directive, and none of its isolate scope.
pub fn transcluded_children_read_the_scope_outside()
    ensures { TranscludedReadsOutside }
{}
