//! Elements whose directives are read, with what is left for their contents, and put together with these (guide: HTML Compiler, "How directives are
//! compiled").
ghost use Rattle.std.specs.Prelude.{◌≡◌, [], Ok, None, Some, option_map, if◌then◌else◌};
ghost use Rattle.ng_base.specs.Meets.{Gives};
ghost use Rattle.ng_drawing.specs.Template.{Uses as UsesOf};
ghost use Rattle.ng_html.specs.Seen.{forest_of};
ghost use Rattle.ng_parts.specs.ActsOf.{uses_of};
ghost use Rattle.ng_elements.specs.Elements.{switch_in as switch_in_of, switch_inside as switch_inside_of, in_place as in_place_of, with_content as with_content_of, apart_made, element_with, opened_made, without_sites};
ghost use Rattle.ng_directives.specs.Free.{is_tpl_want};
ghost use Rattle.ng_parts.specs.FragmentOf.{sites_of, outlets_of};
ghost use Rattle.ng_parts.specs.Seen.{acts_of, part_of, contents_of, parts_of};
ghost use Rattle.ng_elements.specs.HeadOf.{head_of, made_of};
ghost use Rattle.ng_elements.specs.Using.{is_blank as is_blank_forest};

use crate::elements::{Element, element_of, makes_scope};
use crate::using::is_blank;
use ng_base::txt::Txt;
use ng_collect::{Pick, Registry};
use ng_directives::fault::TplFault;
use ng_directives::known::Known;
use ng_directives::settings::with_last;
use ng_directives::texts::{first_of, worn};
use ng_html::attrs::Attrs;
use ng_html::forest::Forest;
use ng_parts::acts::{Acts, Uses};
use ng_parts::fragment::Fragment;
use ng_parts::outlets::Outlet;
use ng_parts::parts::{Contents, Part, Parts, bound as bound_to, children, element};
use ng_parts::site::{SITE_LIMIT, Site};
use ng_parts::tpl::Making;
use std::alloc::Global;

/// The switch that is nearest in an element.
fn switch_in(own: Option<u32>, outer: Option<u32>) -> Option<u32>
    ensures { result ≡ switch_in_of own outer }
{
    match own {
        None => outer,
        Some(n) => Some(n),
    }
}

/// The switch that is nearest in an element that is being made.
pub fn switch_inside(r: &Registry, e: &Element, outer: Option<u32>) -> Option<u32>
    ensures { result ≡ switch_inside_of r.now (head_of e.now) outer }
{
    let near = if makes_scope(r, &e.acts) { None } else { outer };
    switch_in(e.switch, near)
}

/// What stands in place of children: a text, or nothing yet.
pub fn in_place(alloc: Global, text: Option<u32>) -> Contents
    ensures { contents_of result ≡ in_place_of text }
{
    match text {
        None => children(Parts::new(alloc)),
        Some(n) => bound_to(n),
    }
}

/// The directives of an element whose children are given to slots, as the body of this number.
fn with_content(uses: Option<Uses>, content: Option<u32>) -> Option<Uses>
    ensures { option_map uses_of result ≡ option_map (λ (u : UsesOf). record u { content = content }) (option_map uses_of uses) }
{
    match uses {
        None => None,
        Some(uses) => {
            let mut uses = uses;
            uses.content = content;
            Some(uses)
        }
    }
}

/// What an element does whose children are given to slots, as the body of this number.
fn acts_given(acts: Acts, content: Option<u32>) -> Acts
    ensures { acts_of result ≡ record (acts_of acts) { uses = option_map (λ (u : UsesOf). record u { content = content }) (acts_of acts).uses } }
{
    let Acts {
        starts,
        handlers,
        control,
        uses,
        slot,
        scopes,
    } = acts;
    Acts {
        starts,
        handlers,
        control,
        uses: with_content(uses, content),
        slot,
        scopes,
    }
}

/// An element whose children are given to slots, as the body of this number.
fn with_given(e: Element, content: Option<u32>) -> Element
    ensures { head_of result ≡ with_content_of content (head_of e) }
{
    let Element {
        kind,
        attributes,
        class,
        bound,
        switch,
        own,
        acts,
        wrong,
        sites,
    } = e;
    Element {
        kind,
        attributes,
        class,
        bound,
        switch,
        own,
        acts: acts_given(acts, content),
        wrong,
        sites,
    }
}

/// The number of the body that children are, unless they are blank.
fn content_of(kids: &Forest, number: u32) -> Option<u32>
    ensures { result ≡ (if is_blank_forest (forest_of kids.now) then None else Some number) }
{
    if is_blank(kids) { None } else { Some(number) }
}

/// Children that are made are a body of their own, after those before, and after these sites and outlets of the fragment.
pub fn given_at<'a>(
    alloc: Global,
    kids: &Forest,
    e: Element,
    sites: Vec<Site>,
    outlets: Vec<Outlet>,
    parts: Parts,
    after: Making<'a>,
) -> Result<(Element, Contents, Making<'a>), TplFault>
    ensures { Gives is_tpl_want (λ q. (head_of q.0, contents_of q.1, made_of q.2)) (apart_made (forest_of kids.now) (head_of e) (record { places = []; sites = sites_of sites.items; outlets = outlets_of outlets.items; bodies = [] }) (parts_of parts, made_of after.entry)) result }
{
    let mut bodies = after.bodies;
    if bodies.len() >= SITE_LIMIT {
        return Err(worn());
    }
    let body = Fragment::alone(alloc, parts, after.sites, after.outlets);
    bodies.push(body)?;
    let number = bodies.len() as u32;
    let content = content_of(kids, number);
    let contents = in_place(alloc, e.bound);
    let given = with_given(e, content);
    Ok((
        given,
        contents,
        Making {
            places: after.places,
            sites,
            outlets,
            bodies,
        },
    ))
}

/// An element that is made, with its contents.
pub fn finished(alloc: Global, name: &Txt, e: Element, contents: Contents) -> Result<Part, TplFault>
    ensures { Gives is_tpl_want part_of (Ok (element_with name.now (head_of e) (contents_of contents))) result }
{
    let Element {
        kind: _,
        attributes,
        class,
        bound: _,
        switch: _,
        own,
        acts,
        wrong: _,
        sites: _,
    } = e;
    let name = name.copied()?;
    let attributes = with_last(alloc, attributes, class, &acts.control)?;
    Ok(element(name, own, acts, attributes, contents))
}

/// An element with these directives, all but its contents, and what is left for these.
pub fn opened_at<'a>(
    alloc: Global,
    r: &Registry,
    known: &mut Known,
    name: &Txt,
    attrs: &Attrs,
    picked: &[Pick],
    made: Making<'a>,
) -> Result<(Element, Making<'a>), TplFault>
    ensures { Gives is_tpl_want (λ q. (head_of q.0, made_of q.1)) (opened_made r.now name.now picked.now attrs.now (made_of made.entry)) result }
{
    let Making {
        places,
        sites,
        outlets,
        bodies,
    } = made;
    let e = element_of(alloc, known, r, name, picked, attrs, places, sites)?;
    let (_, others) = first_of(places);
    let (e, sites) = parted(alloc, e);
    Ok((
        e,
        Making {
            places: others,
            sites,
            outlets,
            bodies,
        },
    ))
}

/// An element without its sites, and these.
fn parted(alloc: Global, e: Element) -> (Element, Vec<Site>)
    ensures element { head_of result.0 ≡ without_sites (head_of e) }
    ensures sites { sites_of result.1.items ≡ (head_of e).sites }
{
    let Element {
        kind,
        attributes,
        class,
        bound,
        switch,
        own,
        acts,
        wrong,
        sites,
    } = e;
    (
        Element {
            kind,
            attributes,
            class,
            bound,
            switch,
            own,
            acts,
            wrong,
            sites: Vec::new(alloc),
        },
        sites,
    )
}
