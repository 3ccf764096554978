//! Which programs handle the events of the document, by node (API: ngClick).
ghost use Rattle.std.specs.Prelude.{◌≡◌, ◌+◌, [], map, IfOk, OnOk};
ghost use Rattle.ng_drawing.specs.Nodes.{part_nodes, content_nodes, nodes};
ghost use Rattle.ng_drawing.specs.Template.{parts_from};
ghost use Rattle.ng_parse.specs.ProgramOf.{program};
ghost use Rattle.ng_parts.specs.Seen.{handler_of, part_of, contents_of};
ghost use Rattle.ng_build.specs.Handlers.{with_handlers, part_handled, contents_handled, handled, for_event, part_scoped, contents_scoped, scoped};
ghost use Rattle.ng_build.specs.HandledOf.{handled_of};

use ng_base::fault::Memory;
use ng_base::txt::Txt;
use ng_parse::Program;
use ng_parts::acts::Handler;
use ng_parts::{Contents, Part};
use std::alloc::Global;
use std::collections::BTreeMap;

/// A handler, whose program is shared.
fn copied_handler(alloc: Global, handler: &Handler) -> Result<Handler, Memory>
    ensures { IfOk result (λ h. handler_of h ≡ handler_of handler.now) }
{
    let program = handler.program.copied(alloc)?;
    Ok(Handler {
        event: handler.event.copied()?,
        program,
    })
}

/// The handlers of an element.
fn copied_handlers(alloc: Global, handlers: &[Handler]) -> Result<Vec<Handler>, Memory>
    ensures { IfOk result (λ hs. map handler_of hs.items ≡ map handler_of handlers.now) }
{
    let mut copy = Vec::new(alloc);
    for handler in handlers {
        copy.push(copied_handler(alloc, handler)?)?;
    }
    Ok(copy)
}

/// An element's handlers are entered under the name of its node.
fn enter(
    alloc: Global,
    table: &mut BTreeMap<u64, Vec<Handler>>,
    n: u64,
    handlers: &[Handler],
) -> Result<(), Memory>
    ensures { OnOk result (handled_of table.new.entries ≡ with_handlers n (map handler_of handlers.now) (handled_of table.old.entries)) }
{
    if handlers.is_empty() {
        return Ok(());
    }
    let copy = copied_handlers(alloc, handlers)?;
    let _ = table.insert(n, copy)?;
    Ok(())
}

/// The name after one.
fn after(n: u64) -> Result<u64, Memory>
    ensures { IfOk result (λ m. m ≡ n + 1) }
{
    match n.checked_add(1) {
        None => Err(Memory::Worn),
        Some(m) => Ok(m),
    }
}

/// The handlers of a part are entered. The answer is the name after its nodes.
#[cycle(handled)]
fn enter_part(
    alloc: Global,
    table: &mut BTreeMap<u64, Vec<Handler>>,
    n: u64,
    part: &Part,
) -> Result<u64, Memory>
    ensures next { IfOk result (λ m. m ≡ n + part_nodes (part_of part.now)) }
    ensures entered { OnOk result (handled_of table.new.entries ≡ part_handled n (part_of part.now) (handled_of table.old.entries)) }
{
    match part {
        Part::Text(_) => after(n),
        Part::Comment(_) => after(n),
        Part::Anchor { .. } => after(n),
        Part::Element { acts, contents, .. } => {
            enter(alloc, table, n, acts.handlers.as_slice())?;
            enter_contents(alloc, table, after(n)?, contents)
        }
    }
}

/// The handlers of what an element contains are entered.
#[cycle(handled)]
fn enter_contents(
    alloc: Global,
    table: &mut BTreeMap<u64, Vec<Handler>>,
    n: u64,
    contents: &Contents,
) -> Result<u64, Memory>
    ensures next { IfOk result (λ m. m ≡ n + content_nodes (contents_of contents.now)) }
    ensures entered { OnOk result (handled_of table.new.entries ≡ contents_handled n (contents_of contents.now) (handled_of table.old.entries)) }
{
    match contents {
        Contents::Children(parts) => enter_parts(alloc, table, n, parts.as_slice()),
        Contents::Bound(_) => after(n),
    }
}

/// The handlers of parts are entered, given the name of their first node. The answer is the name after their nodes.
#[cycle(handled)]
fn enter_parts(
    alloc: Global,
    table: &mut BTreeMap<u64, Vec<Handler>>,
    n: u64,
    parts: &[Part],
) -> Result<u64, Memory>
    ensures next { IfOk result (λ m. m ≡ n + nodes (parts_from (map part_of parts.now))) }
    ensures entered { OnOk result (handled_of table.new.entries ≡ handled n (parts_from (map part_of parts.now)) (handled_of table.old.entries)) }
{
    let mut next = n;
    for part in parts {
        next = enter_part(alloc, table, next, part)?;
    }
    Ok(next)
}

/// The handlers of parts, given the name of their first node.
pub fn handlers_of(
    alloc: Global,
    n: u64,
    parts: &[Part],
) -> Result<BTreeMap<u64, Vec<Handler>>, Memory>
    ensures { IfOk result (λ t. handled_of t.entries ≡ handled n (parts_from (map part_of parts.now)) []) }
{
    let mut table = BTreeMap::new(alloc);
    enter_parts(alloc, &mut table, n, parts)?;
    Ok(table)
}

/// The scopes of a part's elements are entered, but for the instance's own. The answer is the name after its nodes.
#[cycle(scoped)]
fn enter_scope(table: &mut BTreeMap<u64, u32>, n: u64, part: &Part) -> Result<u64, Memory>
    ensures next { IfOk result (λ m. m ≡ n + part_nodes (part_of part.now)) }
    ensures entered { OnOk result (table.new.entries ≡ part_scoped n (part_of part.now) table.old.entries) }
{
    match part {
        Part::Element { acts, contents, .. } => {
            if acts.scopes.own != 0 {
                let _ = table.insert(n, acts.scopes.own)?;
            }
            enter_scopes_in(table, after(n)?, contents)
        }
        _ => after(n),
    }
}

/// The scopes of the elements that an element contains are entered.
#[cycle(scoped)]
fn enter_scopes_in(
    table: &mut BTreeMap<u64, u32>,
    n: u64,
    contents: &Contents,
) -> Result<u64, Memory>
    ensures next { IfOk result (λ m. m ≡ n + content_nodes (contents_of contents.now)) }
    ensures entered { OnOk result (table.new.entries ≡ contents_scoped n (contents_of contents.now) table.old.entries) }
{
    match contents {
        Contents::Children(parts) => enter_scopes(table, n, parts.as_slice()),
        Contents::Bound(_) => after(n),
    }
}

/// The scopes of the elements of parts are entered, given the name of their first node. The answer is the name after their nodes.
#[cycle(scoped)]
fn enter_scopes(table: &mut BTreeMap<u64, u32>, n: u64, parts: &[Part]) -> Result<u64, Memory>
    ensures next { IfOk result (λ m. m ≡ n + nodes (parts_from (map part_of parts.now))) }
    ensures entered { OnOk result (table.new.entries ≡ scoped n (parts_from (map part_of parts.now)) table.old.entries) }
{
    let mut next = n;
    for part in parts {
        next = enter_scope(table, next, part)?;
    }
    Ok(next)
}

/// The scopes of the elements of parts, given the name of their first node.
pub fn scopes_of(alloc: Global, n: u64, parts: &[Part]) -> Result<BTreeMap<u64, u32>, Memory>
    ensures { IfOk result (λ t. t.entries ≡ scoped n (parts_from (map part_of parts.now)) []) }
{
    let mut table = BTreeMap::new(alloc);
    enter_scopes(&mut table, n, parts)?;
    Ok(table)
}

/// The programs for an event, in order.
pub fn for_event(alloc: Global, handlers: &[Handler], event: &Txt) -> Result<Vec<Program>, Memory>
    ensures { IfOk result (λ ps. map program ps.items ≡ for_event event.now (map handler_of handlers.now)) }
{
    let mut programs = Vec::new(alloc);
    for handler in handlers {
        if handler.event.same(event) {
            programs.push(handler.program.copied(alloc)?)?;
        }
    }
    Ok(programs)
}
