//! Definitions of templates and of what stands of them, which the contracts from the compiler to the run cite. They stand in
//! `specs/`.
//!
//! `Template.antt` has templates as fragments: parts, sites, the watched expressions by number, and outlets, the places that the bodies
//! of blocks fill (guide: HTML Compiler). `Drawing.antt` has the drawing of parts as a document, over what is seen of each site and what
//! fills each outlet, and beside it the rendering, the same recursion with each expression evaluated now; `Looks.antt` says what is seen of a kept snapshot, also by a control, and
//! `Cases.antt` which bodies a value calls for. `Included.antt` puts a template into an element, and `Origins.antt` says of which fragment an
//! instance is one. `Numbering.antt` says what it is to have the numbers of sites and outlets in document order, `Composing.antt` puts the
//! templates of directives into a fragment, with numbers by `Moved.antt`, and `Named.antt` has the fragments of a page's templates. `Instance.antt` has what a run
//! adds to a fragment: keys, scopes, what was kept, which sites rest, and the bodies that stand; what is shown is the drawing with what was kept, the
//! rendering asks no watcher and no node. `Nodes.antt` counts nodes. The code's own types of kinds and instances are in `kind`,
//! `origin` and `instance`; `controls` has what is seen of a site and `classes` the value of a class, which the linking and the rendering
//! share, and `cases` the text that the cases of a switch are compared with, which the fire and the rendering share.
//!
//! `laws` states what is proved of these definitions alone. Each law is a function with an empty body, so that the
//! gate proves it.
#![tactic(auto)]

pub mod cases;
pub mod classes;
pub mod controls;
pub mod instance;
pub mod kind;
pub mod laws;
pub mod origin;
pub mod roles;
