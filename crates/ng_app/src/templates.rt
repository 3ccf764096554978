//! The templates of an application: what their texts compile to (API: ngInclude).
ghost use Rattle.std.specs.Prelude.{◌≡◌, [], map, encode_utf8_all};
ghost use Rattle.ng_base.specs.Meets.{Gives};
ghost use Rattle.ng_html.specs.Reading.{read_bytes};
ghost use Rattle.ng_html.specs.TreeSeen.{source_of};
ghost use Rattle.ng_template.specs.Compiles.{compiled};
ghost use Rattle.ng_parts.specs.TemplateOf.{template_of};
ghost use Rattle.ng_entries.specs.Free.{is_app_want};
ghost use Rattle.ng_app.specs.ProgramsOf.{partial_of};
ghost use Rattle.ng_app.specs.Templates.{markup_fault as markup_refused, as_markup, template_fault as template_refused, as_template, text_template as text_template_of, template_read as template_read_at, templates_read as templates_read_of};

use crate::items::AppTemplate;
use ng_base::txt::Txt;
use ng_collect::Registry;
use ng_directives::fault::{TplFault, TplKind};
use ng_entries::entries::TemplateEntry;
use ng_entries::fault::{AppFault, AppKind, Member};
use ng_entries::members::{fault, fault_at};
use ng_html::fault::{HtmlFault, HtmlKind};
use ng_html::reading::read;
use ng_html::source::Source;
use ng_parts::tpl::Tpl;
use ng_template::compiling::compile;
use std::alloc::Global;

/// Why a text is no document.
fn markup_fault(member: Member, item: usize, refused: HtmlFault) -> AppFault
    ensures { result ≡ markup_refused member item refused.kind }
{
    match refused.kind {
        HtmlKind::Memory(memory) => fault(Member::File, AppKind::Memory(memory)),
        _ => fault_at(member, item, AppKind::Markup),
    }
}

/// Why a document is no template.
fn template_fault(member: Member, item: usize, refused: TplFault) -> AppFault
    ensures { result ≡ template_refused member item refused.kind }
{
    match refused.kind {
        TplKind::Memory(memory) => fault(Member::File, AppKind::Memory(memory)),
        _ => fault_at(member, item, AppKind::Template),
    }
}

/// The document of the text of an entry.
fn document_of(alloc: Global, member: Member, item: usize, text: &Txt) -> Result<Source, AppFault>
    ensures { Gives is_app_want source_of (as_markup member item (read_bytes (encode_utf8_all text.now))) result }
{
    match read(alloc, text.as_str().as_bytes()) {
        Ok(source) => Ok(source),
        Err(refused) => Err(markup_fault(member, item, refused)),
    }
}

/// The template of a document.
fn template_of_document(
    alloc: Global,
    member: Member,
    item: usize,
    source: &Source,
    registry: &Registry,
    slots: bool,
) -> Result<Tpl, AppFault>
    ensures { Gives is_app_want template_of (as_template member item (compiled (source_of source.now) registry.now slots)) result }
{
    match compile(alloc, source, registry, slots) {
        Ok(template) => Ok(template),
        Err(refused) => Err(template_fault(member, item, refused)),
    }
}

/// The template that a text of an entry compiles to, in which slots may stand or not.
pub(crate) fn text_template(
    alloc: Global,
    member: Member,
    item: usize,
    text: &Txt,
    registry: &Registry,
    slots: bool,
) -> Result<Tpl, AppFault>
    ensures { Gives is_app_want template_of (text_template_of member item registry.now slots text.now) result }
{
    let source = document_of(alloc, member, item, text)?;
    template_of_document(alloc, member, item, &source, registry, slots)
}

/// The template of an entry.
fn template_read(
    alloc: Global,
    item: usize,
    entry: TemplateEntry,
    registry: &Registry,
) -> Result<AppTemplate, AppFault>
    ensures { Gives is_app_want partial_of (template_read_at registry.now item entry) result }
{
    let TemplateEntry { name, text } = entry;
    let template = text_template(alloc, Member::Templates, item, &text, registry, false)?;
    Ok(AppTemplate { name, template })
}

/// The templates of entries.
pub(crate) fn templates_read(
    alloc: Global,
    entries: Vec<TemplateEntry>,
    registry: &Registry,
) -> Result<Vec<AppTemplate>, AppFault>
    ensures { Gives is_app_want (λ v. map partial_of v.items) (templates_read_of registry.now [] entries.items) result }
{
    let mut templates = Vec::new(alloc);
    for entry in entries {
        let template = template_read(alloc, templates.len(), entry, registry)?;
        templates.push(template)?;
    }
    Ok(templates)
}
