//! A page at work: what stands of it, and where a digest over it stands.

use crate::known::Known;
use ng_base::fault::Fault;
use ng_base::lists::Words;
use ng_base::path::Key;
use ng_digest::progress::Progress;
use ng_link::works::Works;
use ng_value::snapshot::Snap;
use ng_watch::watch::Verdict;
use std::alloc::Global;
use std::collections::BTreeSet;

/// The works of a page; the watchers whose test's fault was handed over in this digest, and those whose fire faulted in it;
/// what the probes printed; and where the digest stands. A walk hands what it found at the watcher to which it came on to the test, and a
/// dirty test its snapshot to the fire, so that no program is evaluated twice. Which watchers are known to be clean saves their tests.
#[derive(Drop)]
pub struct Engine {
    pub(crate) alloc: Global,
    pub(crate) works: Works,
    pub(crate) told: BTreeSet<Key>,
    pub(crate) faulted: BTreeSet<Key>,
    pub(crate) probed: Words,
    pub(crate) ahead: Result<Verdict, Fault>,
    pub(crate) pending: Option<Snap>,
    pub(crate) known: Known,
    pub(crate) progress: Progress<Key>,
}
