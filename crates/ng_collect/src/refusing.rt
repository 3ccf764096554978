//! Directives that cannot stand on one element, and names that this profile leaves out.
ghost use Rattle.std.specs.Prelude.{◌≡◌, IfOk};
ghost use Rattle.std.specs.List.{list_any};
ghost use Rattle.ng_collect.specs.Refused.{is_model as is_model_at, is_left_out as is_left_out_of, is_user as is_user_of, is_block_under as is_block_under_of, is_over_block as is_over_block_of, crowd_blocks as crowd_blocks_of, defines as defines_of, core_claims as core_claims_of, claims as claims_of, claimants as claimants_of, clash as clash_of};
ghost use Rattle.ng_collect.specs.Spots.{is_left_out_at as is_left_out_spot};

use crate::controls::is_control;
use crate::definition::{DirectiveDef, is_child, is_isolate};
use crate::pick::{Directive, Pick};
use crate::sorting::definition_of;
use crate::spots::{Spot, is_left_out_at};
use crate::table::{CoreDirective, gives_contents, is_block};
use ng_base::txt::Txt;
use ng_html::attrs::Attrs;
use std::alloc::{AllocError, Global};

/// Whether something here is left out of this profile.
fn any_left_out(alloc: Global, spots: &[Spot]) -> Result<bool, AllocError>
    ensures { IfOk result (λ b. b ≡ list_any is_left_out_spot spots.now) }
{
    for spot in spots {
        if is_left_out_at(alloc, spot)? {
            return Ok(true);
        }
    }
    Ok(false)
}

fn is_model(spot: &Spot) -> bool
    ensures { result ≡ is_model_at spot.now }
{
    spot.name.is_word("ngModel")
}

/// Whether `ng-model` stands somewhere.
fn any_model(spots: &[Spot]) -> bool
    ensures { result ≡ list_any is_model_at spots.now }
{
    for spot in spots {
        if is_model(spot) {
            return true;
        }
    }
    false
}

/// Whether an element has a name that is left out, a browser's event with a hole, or `ng-model` and is no control.
pub(crate) fn is_left_out(
    alloc: Global,
    name: &Txt,
    attrs: &Attrs,
    spots: &[Spot],
) -> Result<bool, AllocError>
    ensures { IfOk result (λ b. b ≡ is_left_out_of name.now attrs.now spots.now) }
{
    if any_left_out(alloc, spots)? {
        return Ok(true);
    }
    if !any_model(spots) {
        return Ok(false);
    }
    let control = is_control(alloc, name, attrs)?;
    Ok(!control)
}

fn is_user(directive: Directive) -> bool
    ensures { result ≡ is_user_of directive }
{
    match directive {
        Directive::Core(_) => false,
        Directive::Interpolated => false,
        Directive::User(_) => true,
    }
}

/// Whether it is a block whose priority is not above that of a directive.
fn is_block_under(p: &Pick, b: &Pick) -> bool
    ensures { result ≡ is_block_under_of p.now b.now }
{
    match b.directive {
        Directive::Core(directive) => {
            is_block(directive) && !p.priority.cmp(&b.priority).is_lt()
        }
        _ => false,
    }
}

/// Whether one of them is a block that is not above a directive.
fn any_block_under(p: &Pick, picks: &[Pick]) -> bool
    ensures { result ≡ list_any (is_block_under_of p.now) picks.now }
{
    for b in picks {
        if is_block_under(p, b) {
            return true;
        }
    }
    false
}

/// Whether it is a directive of the application with a block that is not above it.
fn is_over_block(picks: &[Pick], p: &Pick) -> bool
    ensures { result ≡ is_over_block_of picks.now p.now }
{
    is_user(p.directive) && any_block_under(p, picks)
}

/// Whether a directive of the application crowds a block.
pub(crate) fn crowd_blocks(picks: &[Pick]) -> bool
    ensures { result ≡ crowd_blocks_of picks.now }
{
    for p in picks {
        if is_over_block(picks, p) {
            return true;
        }
    }
    false
}

/// What a directive may claim of its element.
#[derive(Clone, Copy, Debug, PartialEq, Eq)]
enum Claim {
    Isolate,
    Child,
    Contents,
    Transclusion,
}

/// Whether a definition makes a claim.
fn defines(claim: Claim, d: &DirectiveDef) -> bool
    ensures { result ≡ defines_of claim d.now }
{
    match claim {
        Claim::Isolate => is_isolate(&d.scope),
        Claim::Child => is_child(&d.scope),
        Claim::Contents => d.template.is_some(),
        Claim::Transclusion => d.transclude,
    }
}

/// Whether one of the core's directives makes a claim.
fn core_claims(claim: Claim, directive: CoreDirective) -> bool
    ensures { result ≡ core_claims_of claim directive }
{
    match claim {
        Claim::Isolate => false,
        Claim::Child => false,
        Claim::Contents => gives_contents(directive),
        Claim::Transclusion => false,
    }
}

/// Whether a picked directive makes a claim.
fn claims(claim: Claim, defs: &[DirectiveDef], p: &Pick) -> bool
    ensures { result ≡ claims_of claim defs.now p.now }
{
    if let Directive::Core(directive) = p.directive {
        return core_claims(claim, directive);
    }
    match definition_of(defs, p.directive) {
        None => false,
        Some(d) => defines(claim, d),
    }
}

/// How many of them make a claim.
fn claimants(claim: Claim, defs: &[DirectiveDef], picks: &[Pick]) -> usize
    ensures { result ≡ claimants_of claim defs.now picks.now }
{
    let mut n: usize = 0;
    for p in picks {
        if claims(claim, defs, p) {
            n += 1;
        }
    }
    n
}

/// Whether two of these directives exclude each other.
pub(crate) fn clash(defs: &[DirectiveDef], picks: &[Pick]) -> bool
    ensures { result ≡ clash_of defs.now picks.now }
{
    let isolates = claimants(Claim::Isolate, defs, picks);
    isolates > 1
        || (isolates > 0 && claimants(Claim::Child, defs, picks) > 0)
        || claimants(Claim::Contents, defs, picks) > 1
        || claimants(Claim::Transclusion, defs, picks) > 1
}
