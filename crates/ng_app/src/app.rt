//! What an application file gives.
ghost use Rattle.std.specs.Prelude.{◌≡◌};
ghost use Rattle.ng_app.specs.Fresh.{IsFresh};

use crate::items::{AppDirective, AppTemplate};
use ng_collect::Registry;
use ng_core::core_state::Core;
use ng_parse::Program;
use ng_parts::programs::{Function as AppFunction, Listener as AppListener, Watch as AppWatch};

/// An application that was read: the core that its page begins with, the templates that may be included, what is to be installed and
/// registered on the root scope, the program that runs first, and its directives.
#[derive(Drop)]
pub struct App {
    pub(crate) core: Core,
    pub(crate) templates: Vec<AppTemplate>,
    pub(crate) directives: Vec<AppDirective>,
    pub(crate) functions: Vec<AppFunction>,
    pub(crate) run: Program,
    pub(crate) watches: Vec<AppWatch>,
    pub(crate) listeners: Vec<AppListener>,
    pub(crate) registry: Registry,
    ghost fresh: { IsFresh core },
}

impl App {
    ghost use Rattle.ng_app.specs.AppOf.{facts};

    /// The core's directives, and those of the application.
    pub fn registry(&self) -> &Registry
        ensures { result.now ≡ (facts self.now).definitions }
    {
        &self.registry
    }
}
