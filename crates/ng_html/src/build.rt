//! The tree of the events so far.
ghost use Rattle.std.specs.Prelude.{◌≡◌, ◌∷◌, [], length, MatchOption, OnOk, IfOk, Ok};
ghost use Rattle.ng_base.specs.Meets.{Gives};
ghost use Rattle.ng_markup.specs.Forest.{element};
ghost use Rattle.ng_html.specs.Free.{fault, is_free};
ghost use Rattle.ng_html.specs.Building.{admitted, close, content as content_of, empty, ended, entered, entered_raw, finished, opened, shut_by, take_event, top_closed, with_leaf};
ghost use Rattle.ng_html.specs.Seen.{node_of, forest_of};
ghost use Rattle.ng_html.specs.TreeSeen.{around_of, arounds, state_of};

use crate::closings::closes;
use crate::forest::{Forest, Node, comment_node, element_node, text_node};
use crate::tables::{omittable, void};
use ng_base::txt::Txt;
use ng_tags::attrs::Attrs;
use ng_tags::event::{Event, Tag};
use ng_tags::fault::{HtmlFault, HtmlKind};
use std::alloc::{AllocError, Global};

/// An element that is open, and its elder siblings.
#[derive(Drop)]
pub struct Pending {
    name: Txt,
    attrs: Attrs,
    before: Forest,
}

/// The open elements, and what stands in the innermost so far.
#[derive(Drop)]
pub struct Builder {
    stack: Vec<Pending>,
    done: Forest,
}

#[tactic(auto, using(crate::proofs::Forests::stack_steps))]
fn push_pending(stack: &mut Vec<Pending>, p: Pending) -> Result<(), AllocError>
    ensures { OnOk result (arounds stack.new.items ≡ around_of p ∷ arounds stack.old.items) }
{
    stack.push(p)?;
    Ok(())
}

#[tactic(auto, using(crate::proofs::Forests::stack_steps))]
fn pop_pending(stack: &mut Vec<Pending>) -> Option<Pending>
    ensures { MatchOption result (arounds stack.old.items ≡ []) (λ p. arounds stack.old.items ≡ around_of p ∷ arounds stack.new.items) }
{
    stack.pop()
}

#[tactic(auto, using(crate::proofs::Forests::stack_steps))]
fn depth(stack: &[Pending]) -> usize
    ensures { result ≡ length (arounds stack.now) }
{
    stack.len()
}

impl Builder {
    /// Nothing is read.
    pub fn new(alloc: Global) -> Builder
        ensures { state_of result ≡ empty }
    {
        Builder {
            stack: Vec::new(alloc),
            done: Forest::new(alloc),
        }
    }
}

/// Takes an event.
pub fn take(alloc: Global, b: Builder, e: Event) -> Result<Builder, HtmlFault>
    ensures { Gives is_free state_of (take_event (state_of b) e) result }
{
    match e {
        Event::Start(tag) => start(alloc, b, tag),
        Event::Raw { tag, text, .. } => start_raw(alloc, b, tag, text),
        Event::End { name, place } => end(b, name, place),
        Event::Text { text, .. } => Ok(add_leaf(b, text_node(text))?),
        Event::Comment { text, .. } => Ok(add_leaf(b, comment_node(text))?),
    }
}

/// The element that ends, behind its elder siblings.
fn closed(p: Pending, kids: Forest) -> Result<Forest, AllocError>
    ensures { IfOk result (λ f. forest_of f ≡ ended (around_of p) (forest_of kids)) }
{
    let Pending {
        name,
        attrs,
        mut before,
    } = p;
    before.push(element_node(name, attrs, kids))?;
    Ok(before)
}

/// Whether a start tag of this name closes the innermost element.
#[tactic(auto, using(crate::proofs::Forests::stack_steps))]
fn top_closes(stack: &[Pending], name: &Txt) -> bool
    ensures { result ≡ top_closed name.now (arounds stack.now) }
{
    match stack.last() {
        None => false,
        Some(p) => closes(name, &p.name),
    }
}

/// Closes what a start tag of this name closes.
fn shut(b: Builder, name: &Txt) -> Result<Builder, AllocError>
    ensures { IfOk result (λ r. state_of r ≡ shut_by name.now (arounds b.stack.items) (forest_of b.done)) }
{
    let Builder {
        mut stack,
        mut done,
    } = b;
    while top_closes(&stack, name) {
        match pop_pending(&mut stack) {
            None => return Ok(Builder { stack, done }),
            Some(p) => {
                done = closed(p, done)?;
            }
        }
    }
    Ok(Builder { stack, done })
}

fn refusal(kind: HtmlKind, place: u64) -> HtmlFault
    ensures { result ≡ fault kind place }
{
    HtmlFault { place, kind }
}

/// Refuses a start tag where so many elements are open. What is wrong inside of it comes last.
fn admit(depth: usize, tag: &Tag, may_close: bool) -> Result<(), HtmlFault>
    ensures { Gives is_free (λ u. u) (admitted depth tag.now may_close) result }
{
    if depth < 200 {
        if tag.closed && !may_close {
            return Err(refusal(HtmlKind::SelfClosed, tag.place));
        }
        match tag.fault {
            None => Ok(()),
            Some(fault) => Err(fault),
        }
    } else {
        Err(refusal(HtmlKind::TooDeep, tag.place))
    }
}

/// A start tag.
fn start(alloc: Global, b: Builder, tag: Tag) -> Result<Builder, HtmlFault>
    ensures { Gives is_free state_of (entered (shut_by tag.name (arounds b.stack.items) (forest_of b.done)) tag) result }
{
    let b = shut(b, &tag.name)?;
    admit(depth(&b.stack), &tag, void(&tag.name))?;
    Ok(open(alloc, b, tag)?)
}

/// An element that opens, or stands as it is.
fn open(alloc: Global, b: Builder, tag: Tag) -> Result<Builder, AllocError>
    ensures { IfOk result (λ r. state_of r ≡ opened (state_of b) tag) }
{
    let Tag { name, attrs, .. } = tag;
    if void(&name) {
        return add_leaf(b, element_node(name, attrs, Forest::new(alloc)));
    }
    let Builder { mut stack, done } = b;
    push_pending(
        &mut stack,
        Pending {
            name,
            attrs,
            before: done,
        },
    )?;
    Ok(Builder {
        stack,
        done: Forest::new(alloc),
    })
}

/// The content of an element that has a text alone.
fn content(alloc: Global, text: Txt) -> Result<Forest, AllocError>
    ensures { IfOk result (λ f. forest_of f ≡ content_of text) }
{
    let mut kids = Forest::new(alloc);
    if !text.is_empty() {
        kids.push(text_node(text))?;
    }
    Ok(kids)
}

/// An element that has a text alone.
fn start_raw(alloc: Global, b: Builder, tag: Tag, text: Txt) -> Result<Builder, HtmlFault>
    ensures { Gives is_free state_of (entered_raw (shut_by tag.name (arounds b.stack.items) (forest_of b.done)) tag text) result }
{
    let around = shut(b, &tag.name)?;
    admit(depth(&around.stack), &tag, false)?;
    let kids = content(alloc, text)?;
    let Tag { name, attrs, .. } = tag;
    Ok(add_leaf(around, element_node(name, attrs, kids))?)
}

/// An end tag.
fn end(b: Builder, name: Txt, place: u64) -> Result<Builder, HtmlFault>
    ensures { Gives is_free state_of (close (arounds b.stack.items) (forest_of b.done) name place) result }
{
    let Builder {
        mut stack,
        mut done,
    } = b;
    while let Some(p) = pop_pending(&mut stack) {
        if p.name.same(&name) {
            let done = closed(p, done)?;
            return Ok(Builder { stack, done });
        }
        if !omittable(&p.name) {
            return Err(refusal(HtmlKind::Unmatched, place));
        }
        done = closed(p, done)?;
    }
    Err(refusal(HtmlKind::Unmatched, place))
}

/// A node without children that are still to come.
fn add_leaf(b: Builder, n: Node) -> Result<Builder, AllocError>
    ensures { IfOk result (λ r. state_of r ≡ with_leaf (state_of b) (node_of n)) }
{
    let Builder { stack, mut done } = b;
    done.push(n)?;
    Ok(Builder { stack, done })
}

/// The forest at the end of the input.
pub fn finish(b: Builder, total: usize) -> Result<Forest, HtmlFault>
    ensures { Gives is_free forest_of (finished total (state_of b)) result }
{
    let Builder {
        mut stack,
        mut done,
    } = b;
    while let Some(p) = pop_pending(&mut stack) {
        if omittable(&p.name) {
            done = closed(p, done)?;
        } else {
            return Err(refusal(HtmlKind::Unclosed, total as u64));
        }
    }
    Ok(done)
}
