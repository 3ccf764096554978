//! The names and texts of refusals.
ghost use Rattle.std.specs.Prelude.{◌≡◌, ◌++◌, codes, IfOk, OnOk};
ghost use Rattle.std.specs.Fmt.{decimal};
ghost use Rattle.ng_inputs.specs.Names.{html_name, tpl_name, member_name, app_name, script_name};
ghost use Rattle.ng_inputs.specs.Refusals.{template_text, refusal_text};

use crate::refusal::Refusal;
use ng_directives::fault::TplKind;
use ng_entries::{AppFault, AppKind, Member};
use ng_html::fault::HtmlKind;
use ng_script::{ScriptFault, ScriptKind};
use std::alloc::{AllocError, Global};

/// Adds the digits of a number.
pub fn push_number(into: &mut Vec<u8>, n: u64) -> Result<(), AllocError>
    ensures { OnOk result (into.new.items ≡ into.old.items ++ decimal n) }
{
    let digits = n.to_string(*into.allocator())?;
    into.extend_from_slice(digits.as_str().as_bytes())
}

/// The name of a refusal of a document.
fn html_word(kind: &HtmlKind) -> &'static str
    ensures { result.now ≡ html_name kind.now }
{
    match kind {
        HtmlKind::Utf8 => "Utf8",
        HtmlKind::Unclosed => "Unclosed",
        HtmlKind::Unmatched => "Unmatched",
        HtmlKind::BadTag => "BadTag",
        HtmlKind::BadAttr => "BadAttr",
        HtmlKind::BadReference => "BadReference",
        HtmlKind::TooDeep => "TooDeep",
        HtmlKind::SelfClosed => "SelfClosed",
        HtmlKind::Memory(_) => "Memory",
    }
}

/// The name of a refusal of a template.
fn tpl_word(kind: &TplKind) -> &'static str
    ensures { result.now ≡ tpl_name kind.now }
{
    match kind {
        TplKind::Expression => "Expression",
        TplKind::Impure => "Impure",
        TplKind::MultiDir => "MultiDir",
        TplKind::BadRepeat => "BadRepeat",
        TplKind::CaseWithoutSwitch => "CaseWithoutSwitch",
        TplKind::UnknownFilter => "UnknownFilter",
        TplKind::LeftOut => "LeftOut",
        TplKind::Orphan => "Orphan",
        TplKind::Memory(_) => "Memory",
    }
}

/// The name of a member of the application file.
fn member_word(member: &Member) -> &'static str
    ensures { result.now ≡ member_name member.now }
{
    match member {
        Member::File => "file",
        Member::Format => "format",
        Member::Facts => "data",
        Member::Templates => "templates",
        Member::Directives => "directives",
        Member::Functions => "functions",
        Member::Run => "run",
        Member::Watch => "watch",
        Member::On => "on",
    }
}

/// The name of a refusal of an application.
fn app_word(kind: &AppKind) -> &'static str
    ensures { result.now ≡ app_name kind.now }
{
    match kind {
        AppKind::Json => "Json",
        AppKind::Shape => "Shape",
        AppKind::Number => "Number",
        AppKind::Full => "Full",
        AppKind::BadName => "BadName",
        AppKind::BadRestrict => "BadRestrict",
        AppKind::BadBinding => "BadBinding",
        AppKind::Markup => "Markup",
        AppKind::Template => "Template",
        AppKind::Expression => "Expression",
        AppKind::Impure => "Impure",
        AppKind::Memory(_) => "Memory",
    }
}

/// The name of a refusal of a script.
fn script_word(kind: &ScriptKind) -> &'static str
    ensures { result.now ≡ script_name kind.now }
{
    match kind {
        ScriptKind::Utf8 => "Utf8",
        ScriptKind::UnknownCommand => "UnknownCommand",
        ScriptKind::BadTarget => "BadTarget",
        ScriptKind::BadExpression => "BadExpression",
        ScriptKind::TooMany => "TooMany",
        ScriptKind::BadArgument => "BadArgument",
        ScriptKind::Memory(_) => "Memory",
    }
}

/// The text of a refused template.
fn template_words(alloc: Global, place: u64, word: &str) -> Result<Vec<u8>, AllocError>
    ensures { IfOk result (λ v. v.items ≡ template_text place word.now) }
{
    let mut text = Vec::new(alloc);
    text.extend_from_slice("template: ".as_bytes())?;
    push_number(&mut text, place)?;
    text.extend_from_slice(" ".as_bytes())?;
    text.extend_from_slice(word.as_bytes())?;
    Ok(text)
}

/// The text of a refused application.
fn application_words(alloc: Global, fault: &AppFault) -> Result<Vec<u8>, AllocError>
    ensures { IfOk result (λ v. v.items ≡ codes "application: " ++ member_name fault.now.member ++ codes " " ++ decimal fault.now.item ++ codes " " ++ app_name fault.now.kind) }
{
    let mut text = Vec::new(alloc);
    text.extend_from_slice("application: ".as_bytes())?;
    text.extend_from_slice(member_word(&fault.member).as_bytes())?;
    text.extend_from_slice(" ".as_bytes())?;
    push_number(&mut text, fault.item)?;
    text.extend_from_slice(" ".as_bytes())?;
    text.extend_from_slice(app_word(&fault.kind).as_bytes())?;
    Ok(text)
}

/// The text of a refused script.
fn script_words(alloc: Global, fault: &ScriptFault) -> Result<Vec<u8>, AllocError>
    ensures { IfOk result (λ v. v.items ≡ codes "script: " ++ decimal fault.now.line ++ codes " " ++ script_name fault.now.kind) }
{
    let mut text = Vec::new(alloc);
    text.extend_from_slice("script: ".as_bytes())?;
    push_number(&mut text, fault.line)?;
    text.extend_from_slice(" ".as_bytes())?;
    text.extend_from_slice(script_word(&fault.kind).as_bytes())?;
    Ok(text)
}

/// The text of a refusal.
pub fn refusal_words(alloc: Global, refusal: &Refusal) -> Result<Vec<u8>, AllocError>
    ensures { IfOk result (λ v. v.items ≡ refusal_text refusal.now) }
{
    match refusal {
        Refusal::Document(fault) => template_words(alloc, fault.place, html_word(&fault.kind)),
        Refusal::Application(fault) => application_words(alloc, fault),
        Refusal::Template(fault) => template_words(alloc, fault.place, tpl_word(&fault.kind)),
        Refusal::Script(fault) => script_words(alloc, fault),
    }
}
