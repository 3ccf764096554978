//! An instance of a fragment in the code. `specs/InstanceOf.antt` says what it stands for.
use crate::origin::Origin;
use crate::roles::Role;
use ng_base::name::ScopeId;
use ng_base::path::Key;
use ng_control::Control;
use ng_value::snapshot::Snap;

/// What a run adds to a site: its key, its scope, what it has kept, whether it rests, which is to say that its scope is
/// destroyed or its one-time binding has ended, and the control whose model it is.
#[derive(Drop)]
pub struct SiteState {
    pub key: Key,
    pub scope: ScopeId,
    pub kept: Option<Snap>,
    pub rests: bool,
    pub control: Option<Control>,
}

/// An instance of a fragment: its scope, what was added to each site, by the site's number, and the bodies that fill each outlet.
#[cycle(instance)]
#[derive(Drop)]
pub struct Instance {
    pub origin: Origin,
    pub scope: ScopeId,
    pub sites: Vec<SiteState>,
    pub outlets: Vec<Instances>,
}

/// The bodies that fill an outlet, in order, and what each stands for.
#[cycle(instance)]
#[derive(Drop)]
pub struct Instances {
    pub roles: Vec<Role>,
    pub items: Vec<Instance>,
}
