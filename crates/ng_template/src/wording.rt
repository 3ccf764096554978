//! Which directives of an element are read, and where one whose own text is empty has its expression (API: ngSwitch, ngInclude, "Usage").
ghost use Rattle.std.specs.Prelude.{◌≡◌, map, option_map, IfOk};
ghost use Rattle.std.specs.List.{filter};
ghost use Rattle.std.specs.Map.{lookup};
ghost use Rattle.std.specs.Str.{bytes_eq};
ghost use Rattle.ng_html.specs.Seen.{node_of};
ghost use Rattle.ng_template.specs.Around.{attributes_in, core_source, source_of, sourced, if_empty, worded as worded_of};
ghost use Rattle.ng_directives.specs.Manners.{is_read as is_read_of, picks_read};

use ng_base::txt::Txt;
use ng_collect::{CoreDirective, Directive, Pick};
use ng_directives::directives::text_of;
use ng_directives::manners::{any_models, is_read};
use ng_html::attrs::{Attr, Attrs};
use ng_html::forest::Node;
use std::alloc::{AllocError, Global};

/// An attribute again.
fn copied(on: &Option<Attr>) -> Result<Option<Attr>, AllocError>
    ensures { IfOk result (λ a. a ≡ on.now) }
{
    match on {
        None => Ok(None),
        Some(attr) => Ok(Some(Attr {
            name: attr.name.copied()?,
            value: attr.value.copied()?,
        })),
    }
}

/// The value of the first attribute of a name.
fn value_in<'a>(attrs: &'a Attrs, name: &Txt) -> Option<&'a Txt>
    ensures { option_map (λ v. v.now) result ≡ lookup (λ n. bytes_eq n name.now) attrs.now }
{
    for attr in attrs.as_slice() {
        if attr.name.same(name) {
            return Some(&attr.value);
        }
    }
    None
}

/// The name of the attribute that has the expression of one of the core's directives, where its own is empty.
fn core_source(alloc: Global, d: CoreDirective) -> Result<Option<Txt>, AllocError>
    ensures { IfOk result (λ t. t ≡ core_source d) }
{
    match d {
        CoreDirective::Switch => {
            let mut name = Txt::new(alloc);
            name.push_word("on")?;
            Ok(Some(name))
        }
        CoreDirective::Include => {
            let mut name = Txt::new(alloc);
            name.push_word("src")?;
            Ok(Some(name))
        }
        _ => Ok(None),
    }
}

/// The name of the attribute that has the expression of a directive, where its own is empty.
fn source_of(alloc: Global, d: Directive) -> Result<Option<Txt>, AllocError>
    ensures { IfOk result (λ t. t ≡ source_of d) }
{
    match d {
        Directive::Core(core) => core_source(alloc, core),
        Directive::Interpolated => Ok(None),
        Directive::User(_) => Ok(None),
    }
}

/// The attribute that has the text of a directive whose own is empty.
fn sourced(alloc: Global, attrs: &Attrs, p: &Pick) -> Result<Option<Attr>, AllocError>
    ensures { IfOk result (λ a. a ≡ sourced (source_of p.now.directive) attrs.now p.now.attribute) }
{
    let Some(name) = source_of(alloc, p.directive)? else {
        return copied(&p.attribute);
    };
    match value_in(attrs, &name) {
        None => copied(&p.attribute),
        Some(value) => {
            let value = value.copied()?;
            Ok(Some(Attr { name, value }))
        }
    }
}

/// Whether a text is empty: the one of two attributes.
fn if_empty(text: &Txt, other: Option<Attr>, own: Option<Attr>) -> Option<Attr>
    ensures { result ≡ if_empty text.now other own }
{
    if text.is_empty() { other } else { own }
}

/// The attribute that has the text of a directive.
fn attribute_for(alloc: Global, attrs: &Attrs, p: &Pick) -> Result<Option<Attr>, AllocError>
    ensures { IfOk result (λ a. a ≡ (worded_of attrs.now p.now).attribute) }
{
    let text = text_of(alloc, &p.attribute)?;
    let other = sourced(alloc, attrs, p)?;
    Ok(if_empty(&text, other, copied(&p.attribute)?))
}

/// A directive with the attribute that has its text.
fn worded(alloc: Global, attrs: &Attrs, p: &Pick) -> Result<Pick, AllocError>
    ensures { IfOk result (λ q. q ≡ worded_of attrs.now p.now) }
{
    Ok(Pick {
        directive: p.directive,
        name: p.name.copied()?,
        priority: p.priority,
        attribute: attribute_for(alloc, attrs, p)?,
    })
}

/// Directives that are read, with the attributes that have their texts.
fn all_worded(
    alloc: Global,
    attrs: &Attrs,
    modelled: bool,
    picks: &[Pick],
) -> Result<Vec<Pick>, AllocError>
    ensures { IfOk result (λ v. v.items ≡ map (worded_of attrs.now) (filter (is_read_of modelled) picks.now)) }
{
    let mut all = Vec::new(alloc);
    for p in picks {
        if is_read(modelled, p) {
            all.push(worded(alloc, attrs, p)?)?;
        }
    }
    Ok(all)
}

/// Directives of a node that are read, with the attributes that have their texts.
pub(crate) fn worded_in(alloc: Global, e: &Node, picks: &[Pick]) -> Result<Vec<Pick>, AllocError>
    ensures { IfOk result (λ v. v.items ≡ map (worded_of (attributes_in (node_of e.now))) (picks_read picks.now)) }
{
    let modelled = any_models(picks);
    match e {
        Node::Element { attrs, .. } => all_worded(alloc, attrs, modelled, picks),
        Node::Text(_) => all_worded(alloc, &Attrs::new(alloc), modelled, picks),
        Node::Comment(_) => all_worded(alloc, &Attrs::new(alloc), modelled, picks),
    }
}
