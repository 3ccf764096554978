//! The application: what its file gives a page to begin with.
//!
//! `App::read` reads the file, a JSON object whose members are optional: `data` becomes the properties of the root scope, in the
//! core that the page begins with; `templates` are what `ng-include` knows by name; `directives` are those of the application,
//! with their templates and programs; `functions` are installed on the root scope; `run` is a program that runs there; `watch`
//! and `on` are watches and listeners of the root scope (guide: Scopes, Directives; API: `$rootScope.Scope`, `$watch`, `$on`).
//! `App::begin` installs and registers them, and gives the core and the program that is still to run.
//!
//! The contract that the page above uses: `facts_of` (specs/App) says what a file gives, or its first refusal, with its member,
//! the number of its entry, and why; want of memory alone is free. `installed` (specs/Installing) says what `App::begin` does.
//!
//! In reading order: `items` are what the entries spell, `programs` reads that, and `templates` compiles the templates; `registering`
//! judges the directives, and reads their templates and programs; `app` and `reading` are the application; `installing` is its beginning.
//! What an entry is, as it is written, and what is refused is ng_entries'.
//!
//! Nothing here knows of watchers or of a page's document.
#![tactic(auto)]

pub mod app;
mod installing;
pub mod items;
mod programs;
mod reading;
mod registering;
mod templates;

pub use app::App;
