//! The sites of an instance: where each is drawn, and that it is watched.
ghost use Rattle.std.specs.Prelude.{◌≡◌, List, [], Some, map, true, OnOk, IfErr, IfOk, option_map};
ghost use Rattle.ng_base.specs.Faults.{is_memory};
ghost use Rattle.ng_drawing.specs.Named.{Named};
ghost use Rattle.ng_parts.specs.SiteOf.{site_of};
ghost use Rattle.ng_watch.specs.Seen.{watching_of};
ghost use Rattle.ng_watch.specs.Table.{watchers_of, with_kept, with_watch};
ghost use Rattle.ng_value.specs.Snaps.{snap_of};
ghost use Rattle.ng_instances.specs.RowOf.{row_of};
ghost use Rattle.ng_instances.specs.Rows.{watch_kind, kind_against, kind_with, watching_site, with_row, with_sites, spots_by};
ghost use Rattle.ng_instances.specs.Instances.{is_site};
ghost use Rattle.ng_instances.specs.InstanceOf.{instances_of, spot_in};

use crate::instances::{Linked, instance_of};
use ng_base::fault::Fault;
use ng_base::name::{NodeId, Oid, Serial};
use ng_base::path::{Key, Path};
use ng_base::txt::Txt;
use ng_build::copying::copied_key;
use ng_drawing::kind::SiteKind;
use ng_parts::Site;
use ng_value::snapshot::Snap;
use ng_watch::watch::{Watch, WatchKind};
use ng_watch::watchers::Watchers;
use std::alloc::Global;
use std::collections::BTreeMap;

/// Whether a key is that of a site of what is linked.
pub fn is_site(instances: &BTreeMap<Path, Linked>, inner: &BTreeMap<Path, Path>, key: &Key) -> bool
    ensures { (all : List Named) → result ≡ is_site inner.now.entries (instances_of all instances.now.entries) key.now }
{
    match instance_of(instances, inner, &key.path) {
        None => false,
        Some(one) => one.spots.contains_key(&key.serial.0),
    }
}

/// The node that the site of a key is drawn in, where it is one of what is linked.
pub fn spot_in(
    instances: &BTreeMap<Path, Linked>,
    inner: &BTreeMap<Path, Path>,
    key: &Key,
) -> Option<NodeId>
    ensures { option_map (λ n. n.made.0) result ≡ spot_in inner.now.entries instances.now.entries key.now }
{
    let one = instance_of(instances, inner, &key.path)?;
    let n = one.spots.get(&key.serial.0)?;
    Some(NodeId {
        slot: 0,
        made: Serial(*n),
    })
}

/// What a watcher keeps of the value of a site that is no two-way binding's.
fn watch_kind(kind: SiteKind) -> WatchKind
    ensures { result ≡ watch_kind kind }
{
    match kind {
        SiteKind::Text => WatchKind::Text,
        SiteKind::Words => WatchKind::Words,
        SiteKind::Reference => WatchKind::Reference,
        SiteKind::Collection => WatchKind::Collection,
        SiteKind::Deep => WatchKind::Deep,
        SiteKind::TwoWay => WatchKind::Reference,
    }
}

/// The site of a two-way binding is compared with a property of an isolate scope.
fn kind_against(kind: SiteKind, dest: Oid, name: Txt) -> WatchKind
    ensures { result ≡ kind_against kind (dest.0, name) }
{
    match kind {
        SiteKind::Text => WatchKind::Text,
        SiteKind::Words => WatchKind::Words,
        SiteKind::Reference => WatchKind::Reference,
        SiteKind::Collection => WatchKind::Collection,
        SiteKind::Deep => WatchKind::Deep,
        SiteKind::TwoWay => WatchKind::TwoWay { dest, name },
    }
}

/// What a watcher keeps of the value of a site. That of a two-way binding is compared with a property of an isolate scope.
fn kind_with(kind: SiteKind, way: Option<(Oid, Txt)>) -> WatchKind
    ensures { result ≡ kind_with kind (option_map (λ w. (w.0.0, w.1)) way) }
{
    match way {
        None => watch_kind(kind),
        Some((dest, name)) => kind_against(kind, dest, name),
    }
}

/// The watch of a site over a scope's object.
fn watch_of(
    alloc: Global,
    object: Oid,
    way: Option<(Oid, Txt)>,
    site: &Site,
) -> Result<Watch, Fault>
    ensures watch { IfOk result (λ w. watching_of w ≡ watching_site object.0 (option_map (λ o. (o.0.0, o.1)) way) (site_of site.now)) }
    ensures faults { IfErr result (λ e. is_memory e ≡ true) }
{
    let program = site.program().copied(alloc)?;
    Ok(Watch {
        kind: kind_with(site.kind(), way),
        program,
        one_time: site.one_time(),
        scope: object,
    })
}

/// How a site is watched: under a key, over an object, against a property of an isolate scope where it is a two-way binding's, and what it has
/// kept already, if that is a binding's.
#[derive(Drop)]
pub struct Row {
    pub key: Key,
    pub object: Oid,
    pub way: Option<(Oid, Txt)>,
    pub kept: Option<Snap>,
}

/// A watcher is added that has kept a snapshot already.
fn add_kept(watchers: &mut Watchers, key: Key, watch: Watch, kept: Snap) -> Result<(), Fault>
    ensures added { OnOk result (watchers_of watchers.new ≡ with_kept key (Some (snap_of kept)) (with_watch key (watching_of watch) (watchers_of watchers.old))) }
    ensures faults { IfErr result (λ e. is_memory e ≡ true) }
{
    let copy = copied_key(&key)?;
    watchers.add(key, watch)?;
    let _ = watchers.keep(&copy, kept);
    Ok(())
}

/// A site is watched.
fn watch_one(watchers: &mut Watchers, alloc: Global, row: Row, site: &Site) -> Result<(), Fault>
    ensures added { OnOk result (watchers_of watchers.new ≡ with_row (row_of row) (site_of site.now) (watchers_of watchers.old)) }
    ensures faults { IfErr result (λ e. is_memory e ≡ true) }
{
    let Row {
        key,
        object,
        way,
        kept,
    } = row;
    let watch = watch_of(alloc, object, way, site)?;
    match kept {
        None => Ok(watchers.add(key, watch)?),
        Some(kept) => add_kept(watchers, key, watch, kept),
    }
}

/// Sites are watched, one after another.
pub fn watch_all(
    watchers: &mut Watchers,
    alloc: Global,
    rows: Vec<Row>,
    sites: &[Site],
) -> Result<(), Fault>
    ensures rows { OnOk result (watchers_of watchers.new ≡ with_sites (map row_of rows.items) (map site_of sites.now) (watchers_of watchers.old)) }
    ensures faults { IfErr result (λ e. is_memory e ≡ true) }
{
    let mut left = sites;
    for row in rows {
        match left.split_first() {
            None => return Ok(()),
            Some((site, others)) => {
                watch_one(watchers, alloc, row, site)?;
                left = others;
            }
        }
    }
    Ok(())
}

/// For each site, by its number of registration, the node that it is drawn in.
pub fn spots_of(alloc: Global, serials: &[u64], nodes: &[u64]) -> Result<BTreeMap<u64, u64>, Fault>
    ensures spots { IfOk result (λ m. m.entries ≡ spots_by serials.now nodes.now []) }
    ensures faults { IfErr result (λ e. is_memory e ≡ true) }
{
    let mut spots = BTreeMap::new(alloc);
    let mut left = nodes;
    for serial in serials {
        match left.split_first() {
            None => return Ok(spots),
            Some((n, others)) => {
                let _ = spots.insert(*serial, *n)?;
                left = others;
            }
        }
    }
    Ok(spots)
}
