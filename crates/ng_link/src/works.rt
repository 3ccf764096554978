//! The works of a page: the core, the templates, what stands of them, and the watchers.
ghost use Rattle.std.specs.Prelude.{◌≡◌, None, option_map, slice_get};
ghost use Rattle.std.specs.Map.{lookup};
ghost use Rattle.ng_core.specs.Frames.{state_of as core_state, held, IsSound};
ghost use Rattle.ng_core.specs.State.{with_fault};
ghost use Rattle.ng_behaviour.specs.Keys.{is_key};
ghost use Rattle.ng_link.specs.Calls.{blank, with_core};
ghost use Rattle.ng_instances.specs.Instances.{is_site};
ghost use Rattle.ng_link.specs.State.{listening_of, state_of, templates_of};
ghost use Rattle.ng_link.specs.Standing.{Standing};
ghost use Rattle.ng_link.specs.Untroubled.{untroubled};
ghost use Rattle.ng_dom.specs.Drawing.{Stands, none_stand};
ghost use Rattle.ng_compose.specs.Kept.{templates_of as kept_templates};
ghost use Rattle.ng_parts.specs.ProgramsOf.{programs_of};
ghost use Rattle.ng_compose.specs.DirectivesOf.{directives_of};

use ng_base::fault::Fault;
use ng_base::path::{Key, Path};
use ng_compose::Templates;
use ng_control::Control;
use ng_core::core_state::{Core, Handed};
use ng_dom::dom::Dom;
use ng_instances::instances::{Linked, Listener};
use ng_instances::placing::is_site;
use ng_parts::programs::Programs;
use ng_value::snapshot::Snap;
use ng_watch::watchers::Watchers;
use std::alloc::Global;
use std::collections::BTreeMap;

/// The works of a page. Nodes stand by name, watchers by key and instances by the paths of their scopes; under the name of the first node
/// of each instance stands its path, and under the path of each inner scope that of its instance. A site that rests has what it had kept, the site
/// of a model its control, and a declared watch its listener. The core is all that programs change.
#[derive(Drop)]
pub struct Works {
    pub(crate) alloc: Global,
    pub core: Core,
    pub(crate) watchers: Watchers,
    pub(crate) dom: Dom,
    pub(crate) resting: BTreeMap<Key, Option<Snap>>,
    pub(crate) controls: BTreeMap<Key, Control>,
    pub(crate) declared: BTreeMap<Key, Listener>,
    pub(crate) templates: Templates,
    pub(crate) instances: BTreeMap<Path, Linked>,
    pub(crate) owners: BTreeMap<u64, Path>,
    pub(crate) inner: BTreeMap<Path, Path>,
}

impl Works {
    /// The works over a core and templates, of which none is linked.
    pub fn new(alloc: Global, core: Core, templates: Templates) -> Works
        ensures core { result.core ≡ core }
        ensures state { state_of result ≡ blank (kept_templates templates) (directives_of templates) (core_state core) }
        ensures templates { templates_of result ≡ kept_templates templates }
        ensures stands { Standing result none_stand }
    {
        Works {
            alloc,
            core,
            watchers: Watchers::new(alloc),
            dom: Dom::new(alloc),
            resting: BTreeMap::new(alloc),
            controls: BTreeMap::new(alloc),
            declared: BTreeMap::new(alloc),
            templates,
            instances: BTreeMap::new(alloc),
            owners: BTreeMap::new(alloc),
            inner: BTreeMap::new(alloc),
        }
    }

    /// A fault is handed over.
    pub fn hand_over(&mut self, f: Fault)
        ensures state { state_of self.new ≡ with_core (with_fault f (state_of self.old).core) (state_of self.old) }
        ensures sound { IsSound self.old.core → IsSound self.new.core }
        ensures held { held self.new.core ≡ held self.old.core }
        ensures depth { self.new.core.depth ≡ self.old.core.depth }
        ensures templates { templates_of self.new ≡ templates_of self.old }
        ensures stands { (ts : Stands) → Standing self.old ts → Standing self.new ts }
    {
        self.core.hand_over(f);
    }

    /// No fault was handed over yet.
    pub fn forget_faults(&mut self)
        ensures state { state_of self.new ≡ with_core (untroubled (state_of self.old).core) (state_of self.old) }
        ensures core { self.new.core ≡ record self.old.core { handed = record { count = 0; first = None } } }
        ensures sound { IsSound self.old.core → IsSound self.new.core }
        ensures templates { templates_of self.new ≡ templates_of self.old }
        ensures stands { (ts : Stands) → Standing self.old ts → Standing self.new ts }
    {
        self.core.handed = Handed {
            count: 0,
            first: None,
        };
    }

    /// The watchers.
    pub fn watchers(&self) -> &Watchers
        ensures { result.now ≡ self.now.watchers }
    {
        &self.watchers
    }

    /// The document.
    pub fn dom(&self) -> &Dom
        ensures { result.now ≡ self.now.dom }
    {
        &self.dom
    }

    /// The templates.
    pub fn templates(&self) -> &Templates
        ensures { kept_templates result.now ≡ templates_of self.now }
    {
        &self.templates
    }

    /// What a directive does, by its number.
    pub fn directive(&self, n: u32) -> Option<&Programs>
        ensures { option_map (λ p. programs_of p.now) result ≡ slice_get (state_of self.now).directives n }
    {
        self.templates.directive(n)
    }

    /// Whether a key is that of a site of what is linked. Every other watcher is a declared watch.
    pub fn is_site(&self, key: &Key) -> bool
        ensures { result ≡ is_site (state_of self.now).inner (state_of self.now).instances key.now }
    {
        is_site(&self.instances, &self.inner, key)
    }

    /// The listener of a declared watch.
    pub fn listener(&self, key: &Key) -> Option<&Listener>
        ensures { option_map (λ l. listening_of l.now) result ≡ lookup (is_key key.now) (state_of self.now).declared }
    {
        self.declared.get(key)
    }
}
