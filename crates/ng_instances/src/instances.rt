//! What stands of a fragment that is linked.
ghost use Rattle.std.specs.Prelude.{ℕ, ◌≡◌, List, None, option_copied, IfOk};
ghost use Rattle.std.specs.Map.{lookup};
ghost use Rattle.ng_instances.specs.Instances.{is_path, instance_path as instance_path_of, scope_number, scope_path};
ghost use Rattle.ng_instances.specs.MarksOf.{marks_of};
ghost use Rattle.ng_instances.specs.Registering.{mark_in};
ghost use Rattle.ng_instances.specs.InstanceOf.{page_of};
ghost use Rattle.ng_parts.specs.FragmentOf.{mark_of};

use ng_base::name::ScopeId;
use ng_base::path::Path;
use ng_base::txt::Txt;
use ng_build::controlled::ControlHere;
use ng_drawing::origin::{Home, Origin};
use ng_drawing::roles::Role;
use ng_parse::Program;
use ng_parts::acts::Handler;
use ng_parts::{Filling, SiteScopes};
use std::alloc::{AllocError, Global};
use std::collections::BTreeMap;
use std::marker::Model;
use std::rc::Rc;

/// A body of a block, by the path of its scope, and what it stands for.
#[derive(Drop)]
pub struct Body {
    pub path: Path,
    pub role: Role,
}

/// A body of which a copy is one more owner, so that it takes no memory and no time that grows with what it has.
#[derive(Drop)]
pub struct SharedBody {
    body: Rc<Body>,
}

/// An outlet that stands: the number of registration of its site; how it is filled, and where the bodies come from; the scope round them, and the
/// scopes outside what the slots in them are given; the name of its anchor's node; and its bodies in order.
#[derive(Drop)]
pub struct OutletState {
    pub serial: u64,
    pub home: Home,
    pub scope: ScopeId,
    pub outsides: Vec<ScopeId>,
    pub filling: Filling,
    pub anchor: u64,
    pub bodies: Vec<SharedBody>,
}

/// A scope of an instance beside its own, which linking made for a directive or a slot: its name and its path.
#[derive(Drop)]
pub struct Inner {
    pub scope: ScopeId,
    pub path: Path,
}

/// A piece of the text of a binding: plain words, or the hole of a site, by its number of registration.
#[derive(Drop)]
pub enum BoundPiece {
    Word(Txt),
    Hole(u64),
}

/// What the fire of a binding's site writes (API: `$compile`, `scope`): the text of pieces, or the value, under a name of an isolate scope; or it
/// goes the one way or the other between such a name and a scope, to which a program writes, where that is possible.
#[derive(Drop)]
pub enum Bound {
    Text {
        scope: ScopeId,
        name: Txt,
        pieces: Vec<BoundPiece>,
    },
    OneWay {
        scope: ScopeId,
        name: Txt,
    },
    TwoWay {
        scope: ScopeId,
        name: Txt,
        over: ScopeId,
        writes: Option<Program>,
    },
}

/// An instance that stands, of a fragment. Under the number of registration of each site there is the name of the node
/// that it is drawn in. The names of its nodes rise from `node` on, and its handlers and controls stand by these. Beside its own scope it may have
/// inner ones, which are numbered from 1 on: it is said which of its sites stand on these, and which of its elements; and what the sites of bindings
/// write. The slots in it that are given something by a directive outside it have the scopes outside of that.
#[derive(Drop)]
pub struct Linked {
    pub origin: Origin,
    pub scope: ScopeId,
    pub spots: BTreeMap<u64, u64>,
    pub node: u64,
    pub handlers: BTreeMap<u64, Vec<Handler>>,
    pub controls: BTreeMap<u64, ControlHere>,
    pub outlets: Vec<OutletState>,
    pub inner: Vec<Inner>,
    pub marks: BTreeMap<u64, SiteScopes>,
    pub elements: BTreeMap<u64, u32>,
    pub bounds: BTreeMap<u64, Bound>,
}

/// The program that a declared watch runs, and the scope that it runs on.
#[derive(Drop)]
pub struct Listener {
    pub scope: ScopeId,
    pub program: Program,
}

impl Linked {
    /// A scope of the instance by its number.
    pub fn scope_at(&self, n: u32) -> ScopeId
        ensures { (path : List ℕ) → result.0 ≡ scope_number (page_of path self.now) n }
    {
        if n == 0 {
            return self.scope;
        }
        match self.inner.get(n as usize - 1) {
            None => self.scope,
            Some(inner) => inner.scope,
        }
    }

    /// The path of a scope of the instance, of which this is the path of its own.
    pub fn path_at<'a>(&'a self, path: &'a Path, n: u32) -> &'a Path
        ensures { result.now ≡ scope_path (page_of path.now self.now) n }
    {
        if n == 0 {
            return path;
        }
        match self.inner.get(n as usize - 1) {
            None => path,
            Some(inner) => &inner.path,
        }
    }

    /// The scopes of a site, by its number of registration.
    pub fn mark_at(&self, serial: u64) -> SiteScopes
        ensures { mark_of result ≡ mark_in (marks_of self.now.marks.entries) serial }
    {
        match self.marks.get(&serial) {
            None => SiteScopes { under: 0, over: 0 },
            Some(mark) => *mark,
        }
    }
}

/// The path of the instance that has a scope of a path: of its own or of an inner one.
pub fn instance_path<'a>(inner: &'a BTreeMap<Path, Path>, p: &'a Path) -> &'a Path
    ensures { result.now ≡ instance_path_of inner.now.entries p.now }
{
    match inner.get(p) {
        None => p,
        Some(path) => path,
    }
}

/// The instance that has a scope of a path.
pub fn instance_of<'a>(
    instances: &'a BTreeMap<Path, Linked>,
    inner: &'a BTreeMap<Path, Path>,
    p: &'a Path,
) -> Option<&'a Linked>
    ensures { option_copied result ≡ lookup (is_path (instance_path_of inner.now.entries p.now)) instances.now.entries }
{
    instances.get(instance_path(inner, p))
}

impl Model for SharedBody {
    ghost use Rattle.std.specs.Coded.{codes};
    ghost use Rattle.ng_instances.specs.contracts.instances.Body as body_contracts;
    ghost use Rattle.ng_instances.specs.declared.instances.Body.{Body};

    ghost Value = { Body };

    ghost coded = { Prim.hlevel (codes, body_contracts.the_row.coded) };

    ghost view = { λ b. b.body.value };
}

impl SharedBody {
    /// A body that has one owner.
    pub fn new(alloc: Global, path: Path, role: Role) -> Result<SharedBody, AllocError>
        ensures path { IfOk result (λ b. b.path ≡ path) }
        ensures role { IfOk result (λ b. b.role ≡ role) }
    {
        match Rc::new(alloc, Body { path, role }) {
            Ok(body) => Ok(SharedBody { body }),
            Err(_) => Err(AllocError),
        }
    }

    /// The path of its scope.
    pub fn path(&self) -> &Path
        ensures { result.now ≡ self.now.path }
    {
        &self.body.as_ref().path
    }

    /// What it stands for.
    pub fn role(&self) -> &Role
        ensures { result.now ≡ self.now.role }
    {
        &self.body.as_ref().role
    }

    /// One more owner of it. It is refused where there are as many as can be counted.
    pub fn copied(&self) -> Result<SharedBody, AllocError>
        ensures { IfOk result (λ b. b ≡ self.now) }
    {
        Ok(SharedBody {
            body: self.body.clone()?,
        })
    }
}
