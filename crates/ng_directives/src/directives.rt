//! The text of a directive: its parts, or its program (guide: Interpolation; API: ngInit).
ghost use Rattle.std.specs.Prelude.{◌≡◌, true, map, length, IfOk};
ghost use Rattle.std.specs.List.{list_all};
ghost use Rattle.ng_base.specs.Meets.{Gives};
ghost use Rattle.ng_interp.specs.Parts.{is_free, piece_of};
ghost use Rattle.ng_parse.specs.ProgramOf.{program as trees};
ghost use Rattle.ng_directives.specs.Directives.{name_on, text_on, whole as whole_text, parts_for, kind_for as kind_for_setting};
ghost use Rattle.ng_directives.specs.Free.{is_tpl_want};
ghost use Rattle.ng_directives.specs.Programs.{program_in, spelled, judged_known, judged_program};
ghost use Rattle.ng_directives.specs.Texts.{is_known, is_pure, judged};
ghost use Rattle.ng_directives.specs.declared.manners.Setting.TheVariants.{Names};

use crate::fault::{TplFault, TplKind};
use crate::known::Known;
use crate::manners::Setting;
use crate::texts::{judged_parts, push, read_pieces, refusal, want};
use crate::writing::only_named;
use ng_base::txt::Txt;
use ng_collect::{Pick, kept_value};
use ng_drawing::kind::SiteKind;
use ng_html::attrs::Attr;
use ng_interp::{InterpFault, Part};
use ng_language::syntax::{LexKind, ParseKind};
use ng_lex::lex;
use ng_parse::{Program, parse};
use ng_purity::filters_known;
use std::alloc::{AllocError, Global};

/// The name of the attribute that a directive stands on.
pub(crate) fn name_of(alloc: Global, on: &Option<Attr>) -> Result<Txt, AllocError>
    ensures { IfOk result (λ t. t ≡ name_on on.now) }
{
    match on {
        None => Ok(Txt::new(alloc)),
        Some(attr) => attr.name.copied(),
    }
}

/// The value of the attribute that a directive stands on, as it stays.
pub fn text_of(alloc: Global, on: &Option<Attr>) -> Result<Txt, AllocError>
    ensures { IfOk result (λ t. t ≡ text_on on.now) }
{
    match on {
        None => Ok(Txt::new(alloc)),
        Some(attr) => kept_value(alloc, attr),
    }
}

/// What the sites of a directive keep.
pub fn kind_for(setting: Setting) -> SiteKind
    ensures { result ≡ kind_for_setting setting }
{
    match setting {
        Setting::Interpolates => SiteKind::Text,
        Setting::Links => SiteKind::Text,
        Setting::Switches => SiteKind::Reference,
        Setting::Binds => SiteKind::Text,
        Setting::Classes => SiteKind::Words,
        Setting::Shows => SiteKind::Reference,
        Setting::Hides => SiteKind::Reference,
        Setting::Chooses => SiteKind::Deep,
        Setting::Names => SiteKind::Deep,
    }
}

/// A text that is an expression as a whole: one hole.
fn read_whole(alloc: Global, known: &mut Known, text: &Txt) -> Result<Vec<Part>, InterpFault>
    ensures parts { Gives is_free (λ v. map piece_of v.items) (whole_text text.now) result }
    ensures one { IfOk result (λ v. length v.items ≡ 1) }
{
    let hole = known.hole(0, text)?;
    let mut parts = Vec::new(alloc);
    push(&mut parts, hole)?;
    Ok(parts)
}

/// A text that is a name or a member as a whole.
fn read_named(alloc: Global, known: &mut Known, text: &Txt) -> Result<Vec<Part>, InterpFault>
    ensures { Gives is_free (λ v. map piece_of v.items) (parts_for Names text.now) result }
{
    let parts = read_whole(alloc, known, text)?;
    only_named(parts)
}

/// The parts of a directive's text.
fn read_parts(
    alloc: Global,
    known: &mut Known,
    setting: Setting,
    text: &Txt,
) -> Result<Vec<Part>, InterpFault>
    ensures { Gives is_free (λ v. map piece_of v.items) (parts_for setting text.now) result }
{
    match setting {
        Setting::Interpolates => read_pieces(alloc, known, text),
        Setting::Links => read_pieces(alloc, known, text),
        Setting::Switches => read_whole(alloc, known, text),
        Setting::Binds => read_whole(alloc, known, text),
        Setting::Classes => read_whole(alloc, known, text),
        Setting::Shows => read_whole(alloc, known, text),
        Setting::Hides => read_whole(alloc, known, text),
        Setting::Chooses => read_whole(alloc, known, text),
        Setting::Names => read_named(alloc, known, text),
    }
}

/// The parts of a directive's text, unless something is wrong with it.
pub fn directive_parts(
    alloc: Global,
    known: &mut Known,
    place: u64,
    setting: Setting,
    pick: &Pick,
) -> Result<Vec<Part>, TplFault>
    ensures parts { Gives is_tpl_want (λ v. map piece_of v.items) (judged place (parts_for setting (text_on pick.now.attribute))) result }
    ensures known { IfOk result (λ v. list_all is_known (map piece_of v.items) ≡ true) }
    ensures pure { IfOk result (λ v. list_all is_pure (map piece_of v.items) ≡ true) }
{
    let text = text_of(alloc, &pick.attribute)?;
    judged_parts(place, read_parts(alloc, known, setting, &text))
}

/// The one hole that a block's text is as a whole, unless something is wrong with it.
pub fn whole_parts(
    alloc: Global,
    known: &mut Known,
    place: u64,
    pick: &Pick,
) -> Result<Vec<Part>, TplFault>
    ensures parts { Gives is_tpl_want (λ v. map piece_of v.items) (judged place (whole_text (text_on pick.now.attribute))) result }
    ensures known { IfOk result (λ v. list_all is_known (map piece_of v.items) ≡ true) }
    ensures pure { IfOk result (λ v. list_all is_pure (map piece_of v.items) ≡ true) }
    ensures one { IfOk result (λ v. length v.items ≡ 1) }
{
    let text = text_of(alloc, &pick.attribute)?;
    judged_parts(place, read_whole(alloc, known, &text))
}

/// A program that was read of what stands at a place, unless a filter of it isn't there.
fn judged_as_known(place: u64, program: Program) -> Result<Program, TplFault>
    ensures { Gives is_tpl_want trees (judged_known place (trees program)) result }
{
    if filters_known(&program) {
        Ok(program)
    } else {
        Err(refusal(TplKind::UnknownFilter, place))
    }
}

/// The program that a text spells, if it is in the grammar.
pub fn spelled_program(alloc: Global, place: u64, text: &Txt) -> Result<Program, TplFault>
    ensures { Gives is_tpl_want trees (spelled place (program_in text.now)) result }
{
    let tokens = match lex(alloc, text.as_str()) {
        Ok(tokens) => tokens,
        Err(fault) => {
            return match fault.kind {
                LexKind::Memory(_) => Err(want()),
                _ => Err(refusal(TplKind::Expression, place)),
            };
        }
    };
    match parse(alloc, &tokens) {
        Ok(program) => Ok(program),
        Err(fault) => match fault.kind {
            ParseKind::Memory(_) => Err(want()),
            _ => Err(refusal(TplKind::Expression, place)),
        },
    }
}

/// The program that a text spells, unless something is wrong with it.
fn read_program(alloc: Global, place: u64, text: &Txt) -> Result<Program, TplFault>
    ensures { Gives is_tpl_want trees (judged_program place (program_in text.now)) result }
{
    let program = spelled_program(alloc, place, text)?;
    judged_as_known(place, program)
}

/// The program that a directive's text is, unless something is wrong with it.
pub fn directive_program(alloc: Global, place: u64, pick: &Pick) -> Result<Program, TplFault>
    ensures { Gives is_tpl_want trees (judged_program place (program_in (text_on pick.now.attribute))) result }
{
    let text = text_of(alloc, &pick.attribute)?;
    read_program(alloc, place, &text)
}
