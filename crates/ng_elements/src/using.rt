//! The directives of the application on an element, and what they ask of it (guide: Directives, "Creating Directives"; API: `$compile`).
ghost use Rattle.std.specs.Prelude.{◌≡◌, ◌+◌, if◌then◌else◌, true, false, List, Result, Ok, is_some, option_map, slice_get, IfOk};
ghost use Rattle.std.specs.Char.{is_ascii_whitespace};
ghost use Rattle.std.specs.List.{list_all};
ghost use Rattle.std.specs.Option.{option_map_or};
ghost use Rattle.ng_base.specs.Meets.{Gives};
ghost use Rattle.ng_html.specs.Seen.{node_of, forest_of};
ghost use Rattle.ng_parts.specs.ActsOf.{uses_of};
ghost use Rattle.ng_elements.specs.Elements.{any_templates as any_templates_of};
ghost use Rattle.ng_directives.specs.Free.{is_tpl_want};
ghost use Rattle.ng_parts.specs.FragmentOf.{sites_of};
ghost use Rattle.ng_elements.specs.ReadOf.{properties_of, asked_of, wish_of};
ghost use Rattle.ng_elements.specs.Using.{Property as PropertyOf, are_known, all_pure, numbers_in, first_with, asks_template, passes, bindings_of, template_number, is_same as is_same_of, uses_asked, asked_by, asked_for as asked_for_of, uses_of_numbers, uses_made, transcludes, is_blank_node as is_blank_one, is_blank as is_blank_forest};
ghost use Rattle.ng_directives.specs.declared.fault.TplFault.{TplFault as Fault};

use crate::bindings::{Property, bind_all, judged_properties};
use ng_base::name::TplId;
use ng_base::reader::Plain;
use ng_base::txt::Txt;
use ng_collect::{Directive, DirectiveDef, Pick, Registry, ScopeAsk};
use ng_directives::fault::TplFault;
use ng_directives::known::Known;
use ng_directives::manners::any_gives_contents;
use ng_directives::texts::{is_want, want};
use ng_html::attrs::Attrs;
use ng_html::forest::{Forest, Node};
use ng_parts::acts::Uses;
use ng_parts::site::{SITE_LIMIT, Site};
use std::alloc::Global;

/// What the directives of the application ask of an element, with the sites of their bindings behind those before, and what is wrong with these.
#[derive(Drop)]
pub(crate) struct Asked {
    pub uses: Option<Uses>,
    pub sites: Vec<Site>,
    pub(crate) wrong: Option<TplFault>,
}

/// The numbers of the application's directives among those of an element.
fn numbers_in(alloc: Global, picks: &[Pick]) -> Result<Vec<u32>, TplFault>
    ensures { Gives is_tpl_want (λ v. v.items) (Ok (numbers_in picks.now)) result }
{
    let mut numbers = Vec::new(alloc);
    for pick in picks {
        if let Directive::User(n) = pick.directive {
            if n > SITE_LIMIT {
                return Err(want());
            }
            numbers.push(n as u32)?;
        }
    }
    Ok(numbers)
}

/// What a directive may ask of its element.
#[derive(Clone, Copy)]
enum Wish {
    Child,
    Isolate,
    Template,
    Transclusion,
}

/// Whether a directive asks that.
fn asks(wish: Wish, def: &DirectiveDef) -> bool
    ensures { result ≡ wish_of wish def.now }
{
    match wish {
        Wish::Child => match &def.scope {
            ScopeAsk::Child => true,
            _ => false,
        },
        Wish::Isolate => match &def.scope {
            ScopeAsk::Isolate(_) => true,
            _ => false,
        },
        Wish::Template => def.template.is_some(),
        Wish::Transclusion => def.transclude,
    }
}

/// Whether the directive of a number asks that.
fn asks_at(defs: &[DirectiveDef], wish: Wish, n: usize) -> bool
    ensures { result ≡ option_map_or (wish_of wish) (slice_get defs.now n) false }
{
    match defs.get(n) {
        None => false,
        Some(def) => asks(wish, def),
    }
}

/// The first of these directives that asks something.
fn first_with(defs: &[DirectiveDef], wish: Wish, numbers: &[u32]) -> Option<u32>
    ensures { result ≡ first_with defs.now (wish_of wish) numbers.now }
{
    for n in numbers {
        if asks_at(defs, wish, *n as usize) {
            return Some(*n);
        }
    }
    None
}

/// Whether the directive of a number has a template.
fn has_template(defs: &[DirectiveDef], n: usize) -> bool
    ensures { result ≡ option_map_or asks_template (slice_get defs.now n) false }
{
    match defs.get(n) {
        None => false,
        Some(def) => def.template.is_some(),
    }
}

/// The name behind another, where the directive of a number has a template.
fn next_id(defs: &[DirectiveDef], n: usize, id: u32) -> Result<u32, TplFault>
    ensures { Gives is_tpl_want (λ i. i) (Ok (id + (if option_map_or asks_template (slice_get defs.now n) false then 1 else 0))) result }
{
    if !has_template(defs, n) {
        return Ok(id);
    }
    match id.checked_add(1) {
        None => Err(want()),
        Some(next) => Ok(next),
    }
}

/// The name of a directive's template: those of directives come behind the page's own, in the order of these.
#[tactic(auto, using(crate::proofs::Templated::templates_more))]
fn template_of(defs: &[DirectiveDef], n: u32) -> Result<TplId, TplFault>
    ensures { Gives is_tpl_want (λ t. t.0) (Ok (template_number defs.now n)) result }
{
    let mut id: u32 = 1;
    for i in 0..n as usize {
        id = next_id(defs, i, id)?;
    }
    Ok(TplId(id))
}

/// The name of the template of a directive, if there is one.
fn template_for(defs: &[DirectiveDef], n: Option<u32>) -> Result<Option<TplId>, TplFault>
    ensures { Gives is_tpl_want (λ t. option_map (λ i. i.0) t) (Ok (option_map (template_number defs.now) n)) result }
{
    match n {
        None => Ok(None),
        Some(n) => Ok(Some(template_of(defs, n)?)),
    }
}

/// Whether it is the same directive.
fn is_same(a: Option<u32>, b: Option<u32>) -> bool
    ensures { result ≡ is_same_of a b }
{
    match (a, b) {
        (Some(a), Some(b)) => a == b,
        _ => false,
    }
}

/// Whether a directive transcludes.
fn passes(defs: &[DirectiveDef], n: Option<u32>) -> bool
    ensures { result ≡ passes defs.now n }
{
    match n {
        None => false,
        Some(n) => match defs.get(n as usize) {
            None => false,
            Some(def) => def.transclude,
        },
    }
}

/// What directives ask of an element, without the bindings.
fn uses_asked(alloc: Global, defs: &[DirectiveDef], numbers: Vec<u32>) -> Result<Uses, TplFault>
    ensures { Gives is_tpl_want uses_of (Ok (uses_asked defs.now numbers.items)) result }
{
    let template = first_with(defs, Wish::Template, numbers.as_slice());
    let isolate = first_with(defs, Wish::Isolate, numbers.as_slice());
    let child = first_with(defs, Wish::Child, numbers.as_slice()).is_some();
    let id = template_for(defs, template)?;
    Ok(Uses {
        directives: numbers,
        child,
        isolate,
        bindings: Vec::new(alloc),
        template: id,
        apart: is_same(template, isolate),
        passes: passes(defs, template),
        content: None,
    })
}

/// The bindings of an isolate scope, with their texts.
fn specs_of(defs: &[DirectiveDef], n: Option<u32>) -> &[(Txt, Txt)]
    ensures { result.now ≡ bindings_of defs.now n }
{
    if let Some(n) = n {
        if let Some(def) = defs.get(n as usize) {
            if let ScopeAsk::Isolate(specs) = &def.scope {
                return specs.as_slice();
            }
        }
    }
    &[]
}

/// What directives ask of an element, with the bindings of the one that has an isolate scope.
fn with_bindings(
    alloc: Global,
    uses: Uses,
    sites: Vec<Site>,
    properties: Vec<Property>,
) -> Result<Asked, TplFault>
    requires known { are_known (properties_of properties.items) ≡ true }
    requires pure { all_pure (properties_of properties.items) ≡ true }
    ensures { Gives is_tpl_want asked_of (asked_by (uses_of uses) (sites_of sites.items) (Ok (properties_of properties.items))) result }
{
    let (bindings, sites) = bind_all(alloc, sites, properties)?;
    let mut uses = uses;
    uses.bindings = bindings;
    Ok(Asked {
        uses: Some(uses),
        sites,
        wrong: None,
    })
}

/// What directives ask of an element with these properties, or what is wrong with them.
fn asked_with(
    alloc: Global,
    uses: Uses,
    sites: Vec<Site>,
    read: Result<Vec<Property>, TplFault>,
) -> Result<Asked, TplFault>
    requires known { IfOk read (λ v. are_known (properties_of v.items) ≡ true) }
    requires pure { IfOk read (λ v. all_pure (properties_of v.items) ≡ true) }
    ensures { (asked : Result (List PropertyOf) Fault) → Gives is_tpl_want (λ v. properties_of v.items) asked read → Gives is_tpl_want asked_of (asked_by (uses_of uses) (sites_of sites.items) asked) result }
{
    match read {
        Ok(properties) => with_bindings(alloc, uses, sites, properties),
        Err(fault) => {
            if is_want(fault) {
                return Err(fault);
            }
            Ok(Asked {
                uses: Some(uses),
                sites,
                wrong: Some(fault),
            })
        }
    }
}

/// What directives ask of an element, if something is wrong with their bindings or not.
fn asked_for(
    alloc: Global,
    known: &mut Known,
    place: u64,
    defs: &[DirectiveDef],
    numbers: Vec<u32>,
    attrs: &Attrs,
    sites: Vec<Site>,
) -> Result<Asked, TplFault>
    ensures { Gives is_tpl_want asked_of (asked_for_of place defs.now attrs.now numbers.items (sites_of sites.items)) result }
{
    let isolate = first_with(defs, Wish::Isolate, numbers.as_slice());
    let uses = uses_asked(alloc, defs, numbers)?;
    let read = judged_properties(alloc, known, place, attrs, specs_of(defs, isolate));
    asked_with(alloc, uses, sites, read)
}

/// What directives ask of an element, if there are any.
fn asked_by_numbers(
    alloc: Global,
    known: &mut Known,
    place: u64,
    defs: &[DirectiveDef],
    numbers: Vec<u32>,
    attrs: &Attrs,
    sites: Vec<Site>,
) -> Result<Asked, TplFault>
    ensures { Gives is_tpl_want asked_of (uses_of_numbers place defs.now attrs.now numbers.items (sites_of sites.items)) result }
{
    if numbers.len() == 0 {
        return Ok(Asked {
            uses: None,
            sites,
            wrong: None,
        });
    }
    asked_for(alloc, known, place, defs, numbers, attrs, sites)
}

/// What the directives of the application ask of an element, whose sites come behind those before. What is wrong with the bindings is told at the
/// turn of their directive.
pub(crate) fn uses_in(
    alloc: Global,
    known: &mut Known,
    place: u64,
    r: &Registry,
    picks: &[Pick],
    attrs: &Attrs,
    sites: Vec<Site>,
) -> Result<Asked, TplFault>
    ensures { Gives is_tpl_want asked_of (uses_made place r.now picks.now attrs.now (sites_of sites.items)) result }
{
    let numbers = numbers_in(alloc, picks)?;
    asked_by_numbers(alloc, known, place, r.definitions(), numbers, attrs, sites)
}

/// Whether one of these directives has a template, or gives the element contents as one does.
pub fn any_templates(r: &Registry, picks: &[Pick]) -> bool
    ensures { result ≡ any_templates_of r.now picks.now }
{
    any_gives_contents(picks) || any_has_template(r.definitions(), picks)
}

/// Whether one of these directives has a template.
fn any_has_template(defs: &[DirectiveDef], picks: &[Pick]) -> bool
    ensures { result ≡ is_some (first_with defs.now asks_template (numbers_in picks.now)) }
{
    for pick in picks {
        if let Directive::User(n) = pick.directive {
            if has_template(defs, n) {
                return true;
            }
        }
    }
    false
}

/// Whether one of the directives transcludes.
pub fn transcludes(r: &Registry, uses: &Option<Uses>) -> bool
    ensures { result ≡ transcludes r.now (option_map uses_of uses.now) }
{
    match uses {
        None => false,
        Some(uses) => {
            first_with(
                r.definitions(),
                Wish::Transclusion,
                uses.directives.as_slice(),
            )
            .is_some()
        }
    }
}

/// Whether a text is white space alone.
fn is_white(text: &Txt) -> bool
    ensures { result ≡ list_all is_ascii_whitespace text.now }
{
    let mut reader = Plain::new(text.as_str());
    while let Some((c, rest)) = reader.first() {
        if !c.is_ascii_whitespace() {
            return false;
        }
        reader = rest;
    }
    true
}

/// Whether a node is white space alone.
fn is_blank_node(node: &Node) -> bool
    ensures { result ≡ is_blank_one (node_of node.now) }
{
    match node {
        Node::Text(text) => is_white(text),
        Node::Comment(_) => false,
        Node::Element { .. } => false,
    }
}

/// Whether there is nothing in a forest but white space.
pub(crate) fn is_blank(forest: &Forest) -> bool
    ensures { result ≡ is_blank_forest (forest_of forest.now) }
{
    for node in &forest.items {
        if !is_blank_node(node) {
            return false;
        }
    }
    true
}
