//! Watches that programs declare.
ghost use Rattle.std.specs.Prelude.{◌≡◌, length, OnOk, IfErr};
ghost use Rattle.ng_dom.specs.Drawing.{Stands};
ghost use Rattle.ng_watch.specs.Seen.{watching_of, WatchStands};
ghost use Rattle.ng_link.specs.Calls.{unset_at, declared_at, undeclared_at};
ghost use Rattle.ng_link.specs.Standing.{Standing};
ghost use Rattle.ng_link.specs.State.{listening_of, state_of, templates_of};

use crate::works::Works;
use ng_base::fault::Memory;
use ng_base::path::Key;
use ng_instances::declaring::is_drawn;
use ng_instances::instances::Listener;
use ng_watch::watch::Watch;

impl Works {
    /// A declared watch, or a site that fills outlets or is a binding's, keeps nothing any more, so that it is dirty again: what is done
    /// where its fire met a fault. A site that is drawn keeps what it has.
    pub fn unset(&mut self, key: &Key)
        ensures state { state_of self.new ≡ unset_at key.now (state_of self.old) }
        ensures core { self.new.core ≡ self.old.core }
        ensures templates { templates_of self.new ≡ templates_of self.old }
        ensures stands { (ts : Stands) → Standing self.old ts → Standing self.new ts }
    {
        if is_drawn(&self.instances, &self.inner, key) {
            return;
        }
        self.watchers.unset(key);
    }

    /// A watch is declared, with the listener that it runs. A site's key is left as it is.
    pub fn declare(&mut self, key: Key, w: Watch, l: Listener) -> Result<(), Memory>
        requires { WatchStands (length (state_of self.old).core.objects) (watching_of w) }
        ensures state { OnOk result (state_of self.new ≡ declared_at key (watching_of w) (listening_of l) (state_of self.old)) }
        ensures refused { IfErr result (λ e. e ≡ Memory.Refused) }
        ensures core { self.new.core ≡ self.old.core }
        ensures templates { templates_of self.new ≡ templates_of self.old }
        ensures stands { OnOk result ((ts : Stands) → Standing self.old ts → Standing self.new ts) }
    {
        if self.is_site(&key) {
            return Ok(());
        }
        let path = key.path.copied()?;
        let copy = Key {
            path,
            serial: key.serial,
        };
        self.watchers.add(copy, w)?;
        self.declared.insert(key, l)?;
        Ok(())
    }

    /// A declared watch is taken out, with its listener. A site's key is left as it is.
    pub fn undeclare(&mut self, key: &Key)
        ensures state { state_of self.new ≡ undeclared_at key.now (state_of self.old) }
        ensures core { self.new.core ≡ self.old.core }
        ensures templates { templates_of self.new ≡ templates_of self.old }
        ensures stands { (ts : Stands) → Standing self.old ts → Standing self.new ts }
    {
        if self.is_site(key) {
            return;
        }
        let _ = self.watchers.remove(key);
        let _ = self.declared.remove(key);
    }
}
