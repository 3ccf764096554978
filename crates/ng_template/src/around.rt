//! The blocks of an element, from the outside in (guide: HTML Compiler, "How directives are compiled"; API: ngIf, ngSwitch, ngInclude,
//! ngRepeat).
ghost use Rattle.std.specs.Prelude.{◌≡◌, ◌++◌, map, length, true, None, Ok, OnOk, IfOk, option_map};
ghost use Rattle.std.specs.Option.{option_to_list};
ghost use Rattle.std.specs.List.{list_all, list_any};
ghost use Rattle.ng_base.specs.Meets.{Gives};
ghost use Rattle.ng_collect.specs.Collected.{collected};
ghost use Rattle.ng_collect.specs.Sorted.{of_core};
ghost use Rattle.ng_collect.specs.Table.{is_block as is_block_of};
ghost use Rattle.ng_html.specs.Seen.{node_of};
ghost use Rattle.ng_interp.specs.Parts.{piece_of};
ghost use Rattle.ng_template.specs.Around.{has_picks, attributes_in, picks_in, at_place, block_priority as block_priority_of, case_at as case_at_pick, cases_in, switched, core_before, before_of as before_of_directive, kind_of_block, block_with, whole_heads, for_heads, start_heads, head_at, heads_of, heads_onto, head_onto, starts_in, names_template, inside_in, found_after, block_room, is_orphan as is_orphan_of, around_node};
ghost use Rattle.ng_template.specs.AroundOf.{inside_of, before_of, block_of, blocks_of, programs_of, case_of, found_of, around_of};
ghost use Rattle.ng_directives.specs.Directives.{text_on};
ghost use Rattle.ng_directives.specs.Free.{is_tpl_want};
ghost use Rattle.ng_parts.specs.SiteOf.{site_of};
ghost use Rattle.ng_directives.specs.Texts.{is_known, is_pure, sites_in};

use crate::repeating::read_repeat;
use crate::wording::worded_in;
use ng_base::txt::Txt;
use ng_collect::table::is_block;
use ng_collect::{CollectFault, CoreDirective, Directive, Pick, Registry, collect_below};
use ng_directives::directives::{directive_program, text_of, whole_parts};
use ng_directives::fault::{TplFault, TplKind};
use ng_directives::known::Known;
use ng_directives::manners::{any_makes_plain, any_makes_slot};
use ng_directives::texts::{refusal, want};
use ng_drawing::kind::SiteKind;
use ng_html::forest::Node;
use ng_interp::Part;
use ng_parse::Program;
use ng_parts::repeated::Repeated;
use ng_parts::site::Site;
use std::alloc::{AllocError, Global};

/// What is made of an element itself: it is plain, or it has these directives, and its children or a template in their place.
#[derive(Drop)]
pub(crate) enum Inside {
    Plain,
    Picks(Vec<Pick>),
    Template(Vec<Pick>),
}

/// A block round an element: its body stands while the value of its site is true; or there is one for each entry of that; or it has a template
/// in it, which the value names. Programs that stand before that run where its anchor is.
#[derive(Drop)]
pub(crate) enum Block {
    If(Site),
    For(Site, Repeated),
    Named(Site, Vec<Program>),
}

/// A case of a switch, with its text, or a default.
#[derive(Drop)]
pub(crate) struct Case {
    pub(crate) text: Option<Txt>,
}

/// The case that an element is, and the blocks round it, from the outside in.
#[derive(Drop)]
pub(crate) struct Found {
    pub(crate) case: Option<Case>,
    pub(crate) heads: Vec<Block>,
}

/// What is round an element, and the element itself.
#[derive(Drop)]
pub(crate) struct Around {
    pub(crate) found: Found,
    pub(crate) inside: Inside,
}

/// One more than there are priorities of blocks.
#[tactic(auto, unfolding(crate::specs::Around::block_room))]
fn priorities() -> usize
    ensures { result ≡ block_room }
{
    5
}

/// The directives of an element below a limit, or their refusal.
fn picks_at(
    alloc: Global,
    e: &Node,
    r: &Registry,
    place: u64,
    limit: Option<i64>,
) -> Result<Vec<Pick>, TplFault>
    ensures { Gives is_tpl_want (λ v. v.items) (at_place place (picks_in (attributes_in (node_of e.now)) (collected r.now limit (node_of e.now)))) result }
{
    match collect_below(alloc, e, r, limit) {
        Err(CollectFault::MultiDir) => Err(refusal(TplKind::MultiDir, place)),
        Err(CollectFault::LeftOut) => Err(refusal(TplKind::LeftOut, place)),
        Err(CollectFault::Memory(_)) => Err(want()),
        Ok(picked) => Ok(worded_in(alloc, e, picked.as_slice())?),
    }
}

/// Whether a directive is a block.
fn is_block_pick(p: &Pick) -> bool
    ensures { result ≡ of_core is_block_of p.now.directive }
{
    match p.directive {
        Directive::Core(directive) => is_block(directive),
        Directive::Interpolated => false,
        Directive::User(_) => false,
    }
}

/// The priority of the blocks among directives.
fn block_priority(picks: &[Pick]) -> Option<i64>
    ensures { result ≡ block_priority_of picks.now }
{
    for pick in picks {
        if is_block_pick(pick) {
            return Some(pick.priority);
        }
    }
    None
}

/// The case that a directive makes of its element.
fn case_at(alloc: Global, p: &Pick) -> Result<Option<Case>, AllocError>
    ensures { IfOk result (λ c. option_map case_of c ≡ case_at_pick p.now) }
{
    match p.directive {
        Directive::Core(CoreDirective::SwitchWhen) => Ok(Some(Case {
            text: Some(text_of(alloc, &p.attribute)?),
        })),
        Directive::Core(CoreDirective::SwitchDefault) => Ok(Some(Case { text: None })),
        _ => Ok(None),
    }
}

/// The cases that directives make of their element.
fn cases_among(alloc: Global, picks: &[Pick]) -> Result<Vec<Case>, AllocError>
    ensures { IfOk result (λ v. map case_of v.items ≡ cases_in picks.now) }
{
    let mut cases = Vec::new(alloc);
    for pick in picks {
        if let Some(case) = case_at(alloc, pick)? {
            cases.push(case)?;
        }
    }
    Ok(cases)
}

/// The case that an element is, which needs a switch round it.
fn find_case(
    alloc: Global,
    place: u64,
    has_switch: bool,
    picks: &[Pick],
) -> Result<Option<Case>, TplFault>
    ensures { Gives is_tpl_want (option_map case_of) (at_place place (switched has_switch (cases_in picks.now))) result }
{
    let mut cases = cases_among(alloc, picks)?;
    let Some(case) = cases.pop() else {
        return Ok(None);
    };
    if has_switch && cases.is_empty() {
        Ok(Some(case))
    } else {
        Err(refusal(TplKind::CaseWithoutSwitch, place))
    }
}

/// What a directive is that stands before its element's body: a case, a program that runs, a repeat, or a block whose text is an expression as a
/// whole, of which the value names a template or not.
#[derive(Clone, Copy, Debug, PartialEq, Eq, Drop)]
enum Before {
    Case,
    Start,
    Repeat,
    Block(bool),
}

/// What one of the core's directives is before its element's body.
fn core_before(d: CoreDirective) -> Before
    ensures { before_of result ≡ core_before d }
{
    match d {
        CoreDirective::SwitchWhen => Before::Case,
        CoreDirective::SwitchDefault => Before::Case,
        CoreDirective::Init => Before::Start,
        CoreDirective::Repeat => Before::Repeat,
        CoreDirective::Include => Before::Block(true),
        _ => Before::Block(false),
    }
}

/// What a directive is before its element's body.
fn before_body(d: Directive) -> Before
    ensures { before_of result ≡ before_of_directive d }
{
    match d {
        Directive::Core(core) => core_before(core),
        Directive::Interpolated => Before::Block(false),
        Directive::User(_) => Before::Block(false),
    }
}

/// What the site of a block keeps.
fn kind_of_block(named: bool) -> SiteKind
    ensures { result ≡ kind_of_block named }
{
    if named {
        SiteKind::Deep
    } else {
        SiteKind::Reference
    }
}

/// A block with its site. One that names a template has the programs that run before it.
fn block_with(named: bool, starts: Vec<Program>, site: Site) -> Block
    ensures { block_of result ≡ block_with named (programs_of starts.items) (site_of site) }
{
    if named {
        Block::Named(site, starts)
    } else {
        Block::If(site)
    }
}

/// The part of a text that has one.
fn only_part(parts: Vec<Part>) -> Option<Part>
    requires { length parts.items ≡ 1 }
    ensures { parts.items ≡ option_to_list result }
{
    let mut left = parts;
    left.pop()
}

/// The block of a hole is added.
fn push_block(
    named: bool,
    starts: Vec<Program>,
    parts: Vec<Part>,
    heads: &mut Vec<Block>,
) -> Result<(), AllocError>
    requires known { list_all is_known (map piece_of parts.items) ≡ true }
    requires pure { list_all is_pure (map piece_of parts.items) ≡ true }
    requires one { length parts.items ≡ 1 }
    ensures { OnOk result (blocks_of heads.new.items ≡ blocks_of heads.old.items ++ map (block_with named (programs_of starts.items)) (sites_in (kind_of_block named) (map piece_of parts.items))) }
{
    match only_part(parts) {
        None => Ok(()),
        Some(Part::Words(_)) => Ok(()),
        Some(Part::Hole { one_time, program }) => {
            let site = Site::new(kind_of_block(named), one_time, program);
            heads.push(block_with(named, starts, site))?;
            Ok(())
        }
    }
}

/// The block of a repeat is added.
fn push_repeat(
    alloc: Global,
    place: u64,
    pick: &Pick,
    heads: &mut Vec<Block>,
) -> Result<Vec<Program>, TplFault>
    ensures { Gives is_tpl_want (λ s. (programs_of s.items, blocks_of heads.new.items)) (at_place place (head_onto (blocks_of heads.old.items) (for_heads (text_on pick.now.attribute)))) result }
{
    let text = text_of(alloc, &pick.attribute)?;
    let read = read_repeat(alloc, place, &text)?;
    heads.push(Block::For(read.site, read.repeated))?;
    Ok(Vec::new(alloc))
}

/// The block of a directive whose text is an expression as a whole is added.
fn push_whole(
    alloc: Global,
    known: &mut Known,
    place: u64,
    pick: &Pick,
    named: bool,
    starts: Vec<Program>,
    heads: &mut Vec<Block>,
) -> Result<Vec<Program>, TplFault>
    ensures { Gives is_tpl_want (λ s. (programs_of s.items, blocks_of heads.new.items)) (at_place place (head_onto (blocks_of heads.old.items) (whole_heads named (programs_of starts.items) (text_on pick.now.attribute)))) result }
{
    let parts = whole_parts(alloc, known, place, pick)?;
    push_block(named, starts, parts, heads)?;
    Ok(Vec::new(alloc))
}

/// The program of a directive is one more of those that no block has yet.
fn push_start(
    alloc: Global,
    place: u64,
    pick: &Pick,
    starts: Vec<Program>,
) -> Result<Vec<Program>, TplFault>
    ensures { Gives is_tpl_want (λ s. programs_of s.items) (at_place place (starts_in (start_heads (programs_of starts.items) (text_on pick.now.attribute)))) result }
{
    let program = directive_program(alloc, place, pick)?;
    let mut more = starts;
    more.push(program)?;
    Ok(more)
}

/// The block of a directive is added, with the programs before it that no block has yet; the programs that none has then are handed back.
fn push_head(
    alloc: Global,
    known: &mut Known,
    place: u64,
    pick: &Pick,
    starts: Vec<Program>,
    heads: &mut Vec<Block>,
) -> Result<Vec<Program>, TplFault>
    ensures { Gives is_tpl_want (λ s. (programs_of s.items, blocks_of heads.new.items)) (at_place place (head_onto (blocks_of heads.old.items) (head_at (programs_of starts.items) pick.now))) result }
{
    match before_body(pick.directive) {
        Before::Case => Ok(starts),
        Before::Start => push_start(alloc, place, pick, starts),
        Before::Repeat => push_repeat(alloc, place, pick, heads),
        Before::Block(named) => push_whole(alloc, known, place, pick, named, starts, heads),
    }
}

/// The blocks of one priority are added.
fn push_heads(
    alloc: Global,
    known: &mut Known,
    place: u64,
    picks: &[Pick],
    heads: &mut Vec<Block>,
) -> Result<(), TplFault>
    ensures { Gives is_tpl_want (λ _. blocks_of heads.new.items) (at_place place (heads_onto (blocks_of heads.old.items) (heads_of picks.now))) result }
{
    let mut starts = Vec::new(alloc);
    for pick in picks {
        starts = push_head(alloc, known, place, pick, starts, heads)?;
    }
    Ok(())
}

/// Whether a block names a template.
fn names_template(block: &Block) -> bool
    ensures { result ≡ names_template (block_of block.now) }
{
    match block {
        Block::If(_) => false,
        Block::For(_, _) => false,
        Block::Named(_, _) => true,
    }
}

/// Whether one of these blocks names a template.
fn any_named(heads: &[Block]) -> bool
    ensures { result ≡ list_any names_template (blocks_of heads.now) }
{
    for block in heads {
        if names_template(block) {
            return true;
        }
    }
    false
}

/// An element with these directives in the blocks that were found.
fn inside_in(found: &Found, picked: Vec<Pick>) -> Inside
    ensures { inside_of result ≡ inside_in (blocks_of found.now.heads.items) (has_picks picked.items) }
{
    if any_named(found.heads.as_slice()) {
        Inside::Template(picked)
    } else {
        Inside::Picks(picked)
    }
}

/// What directives of which one is a block add to what was found.
fn find_more(
    alloc: Global,
    known: &mut Known,
    place: u64,
    has_switch: bool,
    picks: &[Pick],
    found: &mut Found,
) -> Result<(), TplFault>
    ensures { Gives is_tpl_want (λ _. found_of found.new) (at_place place (found_after (found_of found.old) has_switch picks.now)) result }
{
    let case = find_case(alloc, place, has_switch, picks)?;
    push_heads(alloc, known, place, picks, &mut found.heads)?;
    if found.case.is_none() {
        found.case = case;
    }
    Ok(())
}

/// Whether one of these directives makes its element a slot, where none may be.
fn is_orphan(slots: bool, picks: &[Pick]) -> bool
    ensures { result ≡ is_orphan_of slots picks.now }
{
    !slots && any_makes_slot(picks)
}

/// The blocks round an element, from the outside in, where there is a switch round it or not.
pub(crate) fn find_blocks(
    alloc: Global,
    known: &mut Known,
    e: &Node,
    r: &Registry,
    place: u64,
    slots: bool,
    in_switch: bool,
) -> Result<Around, TplFault>
    ensures { Gives is_tpl_want around_of (at_place place (around_node r.now slots in_switch (node_of e.now))) result }
{
    let mut found = Found {
        case: None,
        heads: Vec::new(alloc),
    };
    let mut limit = None;
    let mut has_switch = in_switch;
    let mut room = priorities();
    while room > 0 {
        room -= 1;
        let picked = picks_at(alloc, e, r, place, limit)?;
        if any_makes_plain(picked.as_slice()) {
            return Ok(Around {
                found,
                inside: Inside::Plain,
            });
        }
        if is_orphan(slots, picked.as_slice()) {
            return Err(refusal(TplKind::Orphan, place));
        }
        let below = block_priority(picked.as_slice());
        if below.is_none() {
            let inside = inside_in(&found, picked);
            return Ok(Around { found, inside });
        }
        find_more(
            alloc,
            known,
            place,
            has_switch,
            picked.as_slice(),
            &mut found,
        )?;
        has_switch = false;
        limit = below;
    }
    Ok(Around {
        found,
        inside: Inside::Plain,
    })
}
