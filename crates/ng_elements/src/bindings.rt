//! What the bindings of an isolate scope read, and where its properties come from (guide: Directives, "Isolating the Scope of a Directive"; API:
//! `$compile`, `scope`).
ghost use Rattle.std.specs.Prelude.{◌≡◌, [], Option, Ok, true, map, option_map, unwrap_or, IfOk};
ghost use Rattle.std.specs.List.{list_all};
ghost use Rattle.ng_base.specs.Meets.{Gives};
ghost use Rattle.ng_bind.specs.Reading.{spec_in};
ghost use Rattle.ng_bind.specs.declared.spec.Spec.{Spec as SpecOf};
ghost use Rattle.ng_interp.specs.Parts as interp;
ghost use Rattle.ng_interp.specs.Parts.{piece_of};
ghost use Rattle.ng_parts.specs.ActsOf.{source_of, binding_of};
ghost use Rattle.ng_directives.specs.Free.{is_tpl_want};
ghost use Rattle.ng_parts.specs.FragmentOf.{sites_of};
ghost use Rattle.ng_elements.specs.ReadOf.{IsSpec, read_of, properties_of};
ghost use Rattle.ng_parts.specs.SiteOf.{site_of};
ghost use Rattle.ng_directives.specs.Texts.{is_known, is_pure};
ghost use Rattle.ng_elements.specs.Using.{as_value, as_text, attribute_for, read_at, is_text, read_missing, spec_of, read_property as read_property_of, properties_read, is_known_read, is_pure_read, are_known as are_known_all, all_pure, checked_properties, judged_properties, placed, one_more, bound_by, all_bound};

use ng_base::txt::Txt;
use ng_bind::spec::{BindFault, BindMode, Spec, binding_spec};
use ng_collect::names::directive_name;
use ng_directives::directives::spelled_program;
use ng_directives::fault::{TplFault, TplKind};
use ng_directives::known::Known;
use ng_directives::texts::{
    are_known as are_known_parts, are_pure as are_pure_parts, count_holes, place_parts,
    read_pieces, refusal, unread, want, worn,
};
use ng_directives::writing::written_back;
use ng_drawing::kind::SiteKind;
use ng_html::attrs::Attrs;
use ng_interp::Part;
use ng_parse::Program;
use ng_parts::acts::{Binding, Source};
use ng_parts::pieces::Pieces;
use ng_parts::site::{SITE_LIMIT, Site};
use ng_purity::{filters_known, is_pure};
use std::alloc::{AllocError, Global};

/// What the text of a binding's attribute reads as: a text; nothing, where the text is missing; an expression whose value is taken; one that is
/// written to, too, by a program, where that is possible; or a program that is called.
#[derive(Drop)]
pub(crate) enum Read {
    Text(Vec<Part>),
    Nothing,
    Value(bool, Program),
    Both(Program, Option<Program>),
    Call(Program),
}

/// A property of an isolate scope, and what its attribute reads as.
#[derive(Drop)]
pub(crate) struct Property {
    name: Txt,
    read: Read,
}

/// The value of the first attribute that a name picks.
fn attribute_for<'a>(
    alloc: Global,
    attrs: &'a Attrs,
    name: &Txt,
) -> Result<Option<&'a Txt>, AllocError>
    ensures { IfOk result (λ v. option_map (λ t. t.now) v ≡ attribute_for name.now attrs.now) }
{
    for attr in attrs.as_slice() {
        if directive_name(alloc, &attr.name)?.same(name) {
            return Ok(Some(&attr.value));
        }
    }
    Ok(None)
}

/// The name that the attribute of a binding has: one of its own, or that of the property.
fn attribute_name(name: &Txt, spec: &Spec) -> Result<Txt, AllocError>
    ensures { IfOk result (λ t. t ≡ unwrap_or spec.now.attr name.now) }
{
    match &spec.attr {
        None => name.copied(),
        Some(attr) => attr.copied(),
    }
}

/// The one hole of a text as a whole.
fn read_value(known: &mut Known, place: u64, text: &Txt) -> Result<Read, TplFault>
    ensures { Gives is_tpl_want read_of (as_value place (interp.hole_at 0 text.now)) result }
{
    match known.hole(0, text) {
        Err(fault) => Err(unread(place, fault)),
        Ok(Part::Words(_)) => Err(refusal(TplKind::Expression, place)),
        Ok(Part::Hole { one_time, program }) => Ok(Read::Value(one_time, program)),
    }
}

/// A text with its holes.
fn read_words(alloc: Global, known: &mut Known, place: u64, text: &Txt) -> Result<Read, TplFault>
    ensures { Gives is_tpl_want read_of (as_text place (interp.pieces_in text.now)) result }
{
    match read_pieces(alloc, known, text) {
        Err(fault) => Err(unread(place, fault)),
        Ok(parts) => Ok(Read::Text(parts)),
    }
}

/// What the text of a binding that is there reads as.
fn read_at(
    alloc: Global,
    known: &mut Known,
    place: u64,
    mode: BindMode,
    text: &Txt,
) -> Result<Read, TplFault>
    ensures { Gives is_tpl_want read_of (read_at place mode text.now) result }
{
    match mode {
        BindMode::AtText => read_words(alloc, known, place, text),
        BindMode::OneWay => read_value(known, place, text),
        BindMode::TwoWay => {
            let program = spelled_program(alloc, place, text)?;
            let writes = written_back(alloc, text, &program)?;
            Ok(Read::Both(program, writes))
        }
        BindMode::Call => Ok(Read::Call(spelled_program(alloc, place, text)?)),
    }
}

/// Whether a binding is a text.
fn is_text(mode: BindMode) -> bool
    ensures { result ≡ is_text mode }
{
    match mode {
        BindMode::AtText => true,
        BindMode::TwoWay => false,
        BindMode::OneWay => false,
        BindMode::Call => false,
    }
}

/// What a binding reads as, whose text is missing. One that may be missing sets nothing then.
fn read_missing(
    alloc: Global,
    known: &mut Known,
    place: u64,
    spec: &Spec,
) -> Result<Option<Read>, TplFault>
    ensures { Gives is_tpl_want (option_map read_of) (read_missing place spec.now.optional spec.now.mode) result }
{
    if is_text(spec.mode) {
        return Ok(Some(Read::Nothing));
    }
    if spec.optional {
        return Ok(None);
    }
    Ok(Some(read_at(alloc, known, place, spec.mode, &Txt::new(alloc))?))
}

/// The binding that a text is, if it is one.
fn spec_of(alloc: Global, text: &Txt) -> Result<Option<Spec>, TplFault>
    ensures { Gives is_tpl_want (λ s. s) (Ok (spec_of (spec_in text.now))) result }
{
    let answer = binding_spec(alloc, text.as_str());
    spec_from(answer)
}

/// The binding that was read, if it was one.
fn spec_from(answer: Result<Spec, BindFault>) -> Result<Option<Spec>, TplFault>
    ensures { (o : Option SpecOf) → IsSpec o answer → Gives is_tpl_want (λ s. s) (Ok o) result }
{
    match answer {
        Ok(spec) => Ok(Some(spec)),
        Err(BindFault::BadBinding) => Ok(None),
        Err(BindFault::Memory(_)) => Err(want()),
    }
}

/// What a property of an isolate scope reads as on an element with these attributes, if it is set.
fn read_property(
    alloc: Global,
    known: &mut Known,
    place: u64,
    attrs: &Attrs,
    name: &Txt,
    text: &Txt,
) -> Result<Option<Read>, TplFault>
    ensures { Gives is_tpl_want (option_map read_of) (read_property_of place attrs.now name.now text.now) result }
{
    let Some(spec) = spec_of(alloc, text)? else {
        return Ok(None);
    };
    let attribute = attribute_name(name, &spec)?;
    match attribute_for(alloc, attrs, &attribute)? {
        None => read_missing(alloc, known, place, &spec),
        Some(value) => Ok(Some(read_at(alloc, known, place, spec.mode, value)?)),
    }
}

/// The properties of an isolate scope that are set, in order.
fn read_properties(
    alloc: Global,
    known: &mut Known,
    place: u64,
    attrs: &Attrs,
    specs: &[(Txt, Txt)],
) -> Result<Vec<Property>, TplFault>
    ensures { Gives is_tpl_want (λ v. properties_of v.items) (properties_read place attrs.now [] specs.now) result }
{
    let mut properties = Vec::new(alloc);
    for spec in specs {
        if let Some(read) = read_property(alloc, known, place, attrs, &spec.0, &spec.1)? {
            let name = spec.0.copied()?;
            properties.push(Property { name, read })?;
        }
    }
    Ok(properties)
}

/// Whether the filters of a binding are there.
fn is_known_read(read: &Read) -> bool
    ensures { result ≡ is_known_read (read_of read.now) }
{
    match read {
        Read::Text(parts) => are_known_parts(parts.as_slice()),
        Read::Nothing => true,
        Read::Value(_, program) => filters_known(program),
        Read::Both(program, _) => filters_known(program),
        Read::Call(program) => filters_known(program),
    }
}

/// Whether what is watched of a binding is pure.
fn is_pure_read(read: &Read) -> bool
    ensures { result ≡ is_pure_read (read_of read.now) }
{
    match read {
        Read::Text(parts) => are_pure_parts(parts.as_slice()),
        Read::Nothing => true,
        Read::Value(_, program) => is_pure(program),
        Read::Both(program, _) => is_pure(program),
        Read::Call(_) => true,
    }
}

/// Whether the filters of all bindings are there.
fn are_known(properties: &[Property]) -> bool
    ensures { result ≡ are_known_all (properties_of properties.now) }
{
    for property in properties {
        if !is_known_read(&property.read) {
            return false;
        }
    }
    true
}

/// Whether what is watched of all bindings is pure.
fn are_pure(properties: &[Property]) -> bool
    ensures { result ≡ all_pure (properties_of properties.now) }
{
    for property in properties {
        if !is_pure_read(&property.read) {
            return false;
        }
    }
    true
}

/// The properties of an isolate scope, unless something is wrong with them: UnknownFilter of all, then Impure of all.
fn checked_properties(place: u64, properties: Vec<Property>) -> Result<Vec<Property>, TplFault>
    ensures properties { Gives is_tpl_want (λ v. properties_of v.items) (checked_properties place (properties_of properties.items)) result }
    ensures known { IfOk result (λ v. are_known_all (properties_of v.items) ≡ true) }
    ensures pure { IfOk result (λ v. all_pure (properties_of v.items) ≡ true) }
{
    if !are_known(properties.as_slice()) {
        return Err(refusal(TplKind::UnknownFilter, place));
    }
    if !are_pure(properties.as_slice()) {
        return Err(refusal(TplKind::Impure, place));
    }
    Ok(properties)
}

/// The properties of an isolate scope, unless something is wrong with them: Expression of all, UnknownFilter of all, then Impure of all.
pub(crate) fn judged_properties(
    alloc: Global,
    known: &mut Known,
    place: u64,
    attrs: &Attrs,
    specs: &[(Txt, Txt)],
) -> Result<Vec<Property>, TplFault>
    ensures properties { Gives is_tpl_want (λ v. properties_of v.items) (judged_properties place attrs.now specs.now) result }
    ensures known { IfOk result (λ v. are_known_all (properties_of v.items) ≡ true) }
    ensures pure { IfOk result (λ v. all_pure (properties_of v.items) ≡ true) }
{
    let properties = read_properties(alloc, known, place, attrs, specs)?;
    checked_properties(place, properties)
}

/// The pieces of a text whose sites come behind those before, and all sites.
fn placed(
    alloc: Global,
    sites: Vec<Site>,
    parts: Vec<Part>,
) -> Result<(Pieces, Vec<Site>), TplFault>
    requires known { list_all is_known (map piece_of parts.items) ≡ true }
    requires pure { list_all is_pure (map piece_of parts.items) ≡ true }
    ensures { Gives is_tpl_want (λ r. (r.0, sites_of r.1.items)) (placed (map piece_of parts.items) (sites_of sites.items)) result }
{
    let count = count_holes(parts.as_slice());
    if sites.len() + count > SITE_LIMIT {
        return Err(worn());
    }
    let (pieces, sites) = place_parts(alloc, SiteKind::Text, sites, parts)?;
    Ok((pieces, sites))
}

/// One site more, by its number.
fn one_more(sites: Vec<Site>, site: Site) -> Result<(u32, Vec<Site>), TplFault>
    ensures { Gives is_tpl_want (λ r. (r.0, sites_of r.1.items)) (one_more (site_of site) (sites_of sites.items)) result }
{
    if sites.len() >= SITE_LIMIT {
        return Err(worn());
    }
    let n = sites.len() as u32;
    let mut sites = sites;
    sites.push(site)?;
    Ok((n, sites))
}

/// Where a property comes from, with the sites of that.
fn bind_read(alloc: Global, sites: Vec<Site>, read: Read) -> Result<(Source, Vec<Site>), TplFault>
    requires known { is_known_read (read_of read) ≡ true }
    requires pure { is_pure_read (read_of read) ≡ true }
    ensures { Gives is_tpl_want (λ r. (source_of r.0, sites_of r.1.items)) (bound_by (read_of read) (sites_of sites.items)) result }
{
    match read {
        Read::Text(parts) => {
            let (pieces, sites) = placed(alloc, sites, parts)?;
            Ok((Source::Text(pieces), sites))
        }
        Read::Nothing => Ok((Source::Nothing, sites)),
        Read::Value(once, program) => {
            let (n, sites) = one_more(sites, Site::new(SiteKind::Reference, once, program))?;
            Ok((Source::OneWay(n), sites))
        }
        Read::Both(program, writes) => {
            let (n, sites) = one_more(sites, Site::new(SiteKind::TwoWay, false, program))?;
            Ok((Source::TwoWay(n, writes), sites))
        }
        Read::Call(program) => Ok((Source::Call(program), sites)),
    }
}

/// The bindings of properties, with their sites.
pub(crate) fn bind_all(
    alloc: Global,
    sites: Vec<Site>,
    properties: Vec<Property>,
) -> Result<(Vec<Binding>, Vec<Site>), TplFault>
    requires known { are_known_all (properties_of properties.items) ≡ true }
    requires pure { all_pure (properties_of properties.items) ≡ true }
    ensures { Gives is_tpl_want (λ r. (map binding_of r.0.items, sites_of r.1.items)) (all_bound [] (properties_of properties.items) (sites_of sites.items)) result }
{
    let mut bindings = Vec::new(alloc);
    let mut now = sites;
    for property in properties {
        let Property { name, read } = property;
        let (source, sites) = bind_read(alloc, now, read)?;
        bindings.push(Binding { name, source })?;
        now = sites;
    }
    Ok((bindings, now))
}
