//! What a node shows, drawn from what its sites have kept, and the call that has a watcher keep something.
ghost use Rattle.std.specs.Prelude.{◌≡◌, Some, IsSome, IfOk, OnOk, IfErr, map, option_map};
ghost use Rattle.ng_dom.specs.Drawing.{Stands, classes, drawn_value, drawn_attributes};
ghost use Rattle.ng_value.specs.Snaps.{snap_of};
ghost use Rattle.ng_watch.specs.Table.{found, kept_at};
ghost use Rattle.ng_link.specs.Calls.{keeping_at};
ghost use Rattle.ng_link.specs.Firing.{drawn_anew, redraw_of, Writes, WritesAt, Fires};
ghost use Rattle.ng_link.specs.SiteAt.{spot_of};
ghost use Rattle.ng_build.specs.Seen.{class_of, drawn_value_of, drawn_of};
ghost use Rattle.ng_build.specs.Sources.{source_of, sources};
ghost use Rattle.ng_link.specs.Standing.{Standing};
ghost use Rattle.ng_link.specs.State.{looks_in, state_of, templates_of};

use crate::looks::{is_hidden, is_kept_true, joined_text, shown_words};
use crate::works::Works;
use ng_base::fault::Memory;
use ng_base::name::NodeId;
use ng_base::path::Key;
use ng_base::txt::Txt;
use ng_build::attributes::{if_any, set};
use ng_build::controls::drop_typed;
use ng_dom::record::{Drawn, DrawnClass, DrawnValue, Home};
use ng_drawing::classes::class_text;
use ng_instances::placing::spot_in;
use ng_value::snapshot::Snap;
use std::alloc::AllocError;
use std::collections::BTreeMap;

/// What a class is with what is kept.
fn kept_class(works: &Works, class: &DrawnClass) -> Result<Option<Txt>, AllocError>
    ensures { IfOk result (λ t. t ≡ drawn_value (looks_in (state_of works.now)) (classes (class_of class.now))) }
{
    let text = joined_text(works, class.pieces.as_slice())?;
    let words = shown_words(works, class.words.as_slice())?;
    let hidden = is_hidden(works, class.hidings.as_slice());
    class_text(works.alloc, class.written, &text, &words, hidden)
}

/// What an attribute is with what is kept.
fn kept_value(works: &Works, value: &DrawnValue) -> Result<Option<Txt>, AllocError>
    ensures { IfOk result (λ t. t ≡ drawn_value (looks_in (state_of works.now)) (drawn_value_of value.now)) }
{
    match value {
        DrawnValue::Always(pieces) => Ok(Some(joined_text(works, pieces.as_slice())?)),
        DrawnValue::UnlessEmpty(pieces) => Ok(if_any(joined_text(works, pieces.as_slice())?)),
        DrawnValue::Flag(word, key) => {
            if is_kept_true(works, key) {
                Ok(Some(word.copied()?))
            } else {
                Ok(None)
            }
        }
        DrawnValue::Classes(class) => kept_class(works, class),
    }
}

/// The attributes of an element with what is kept.
fn kept_attributes(works: &Works, drawn: &[Drawn]) -> Result<BTreeMap<Txt, Txt>, AllocError>
    ensures { IfOk result (λ ats. ats.entries ≡ drawn_attributes (looks_in (state_of works.now)) (map drawn_of drawn.now)) }
{
    let mut attributes = BTreeMap::new(works.alloc);
    for one in drawn {
        let value = kept_value(works, &one.value)?;
        set(&mut attributes, &one.name, value)?;
    }
    Ok(attributes)
}

/// What is drawn anew: nothing, a text, or the attributes of an element.
#[derive(Drop)]
pub enum Redraw {
    Nothing,
    Text(Txt),
    Attributes(BTreeMap<Txt, Txt>),
}

/// What is drawn anew from a home.
fn home_redraw(works: &Works, home: &Home) -> Result<Redraw, AllocError>
    ensures { IfOk result (λ r. redraw_of r ≡ drawn_anew (looks_in (state_of works.now)) (Some (source_of home.now))) }
{
    match home {
        Home::Plain => Ok(Redraw::Nothing),
        Home::Text(pieces) => Ok(Redraw::Text(joined_text(works, pieces.as_slice())?)),
        Home::Attributes(drawn) => Ok(Redraw::Attributes(kept_attributes(
            works,
            drawn.as_slice(),
        )?)),
    }
}

/// What is drawn anew in a node.
fn node_redraw(works: &Works, n: NodeId) -> Result<Redraw, AllocError>
    ensures { IfOk result (λ r. redraw_of r ≡ drawn_anew (looks_in (state_of works.now)) (sources works.now.dom n.made.0)) }
{
    match works.dom.home(n) {
        None => Ok(Redraw::Nothing),
        Some(home) => home_redraw(works, home),
    }
}

impl Works {
    /// A node shows what its sites have kept.
    fn draw_anew(&mut self, n: NodeId) -> Result<(), Memory>
        ensures written { OnOk result (Writes (looks_in (state_of self.old)) n.made.0 self.old.dom self.new.dom) }
        ensures rest { self.new ≡ record self.old { dom = self.new.dom } }
        ensures refused { IfErr result (λ e. e ≡ Memory.Refused) }
    {
        match node_redraw(self, n)? {
            Redraw::Nothing => Ok(()),
            Redraw::Text(text) => self.dom.set_text(n, text),
            Redraw::Attributes(attributes) => {
                self.dom.set_attrs(n, attributes);
                Ok(())
            }
        }
    }

    /// A node shows what its sites have kept, if there is one.
    fn draw_in(&mut self, drawn: Option<NodeId>) -> Result<(), Memory>
        ensures written { OnOk result (WritesAt (looks_in (state_of self.old)) (option_map (λ n. n.made.0) drawn) self.old.dom self.new.dom) }
        ensures rest { self.new ≡ record self.old { dom = self.new.dom } }
        ensures refused { IfErr result (λ e. e ≡ Memory.Refused) }
    {
        match drawn {
            None => Ok(()),
            Some(n) => self.draw_anew(n),
        }
    }

    /// The node of a site shows what is kept now.
    pub(crate) fn show_kept(&mut self, key: &Key) -> Result<(), Memory>
        ensures fires { OnOk result (Fires key.now self.old self.new) }
        ensures rest { self.new ≡ record self.old { dom = self.new.dom } }
        ensures refused { IfErr result (λ e. e ≡ Memory.Refused) }
    {
        let drawn = spot_in(&self.instances, &self.inner, key);
        self.draw_in(drawn)
    }

    /// The watcher of a key keeps a snapshot, and where it is a site's its node, which is handed in, shows it: what the digest does where a test was
    /// dirty. A control drops what was typed where its model is another value now. What was kept before is handed back.
    pub fn keep(
        &mut self,
        key: &Key,
        s: Snap,
        drawn: Option<NodeId>,
    ) -> Result<Option<Snap>, Memory>
        requires there { IsSome (found key.now (state_of self.old).watchers) }
        requires drawn { spot_of self.old key.now ≡ option_map (λ n. n.made.0) drawn }
        ensures state { OnOk result (state_of self.new ≡ keeping_at key.now (snap_of s) (state_of self.old)) }
        ensures former { IfOk result (λ f. option_map snap_of f ≡ kept_at key.now (state_of self.old).watchers) }
        ensures refused { IfErr result (λ e. e ≡ Memory.Refused) }
        ensures core { self.new.core ≡ self.old.core }
        ensures templates { templates_of self.new ≡ templates_of self.old }
        ensures stands { OnOk result ((ts : Stands) → Standing self.old ts → Standing self.new ts) }
    {
        drop_typed(&mut self.controls, key, &s);
        let former = self.watchers.keep(key, s);
        self.draw_in(drawn)?;
        Ok(former)
    }
}
