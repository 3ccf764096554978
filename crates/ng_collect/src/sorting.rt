//! Picked directives in order, down to the priority of the first terminal one.
ghost use Rattle.std.specs.Prelude.{◌≡◌, OnOk, find, take_while, option_copied, IfSome};
ghost use Rattle.std.specs.List.{prefix_len};
ghost use Rattle.std.specs.Ordering.{nat_cmp, is_lt};
ghost use Rattle.ng_collect.specs.Sorted.{registration as registration_of, pick_cmp as pick_cmp_of, is_before, in_order, definition_of as definition_in, of_core, of_user, is_terminal as is_terminal_pick, reaches as reaches_last, down_to_terminal as down_to_terminal_of};
ghost use Rattle.ng_collect.specs.Table.{ends_list as ends_list_of};

use crate::definition::DirectiveDef;
use crate::pick::{Directive, Pick};
use crate::table::ends_list;
use std::alloc::AllocError;
use std::cmp::Ordering;

/// Its place in the order of registration, where the core's directives are first.
fn registration(directive: Directive) -> u128
    ensures { result ≡ registration_of directive }
{
    match directive {
        Directive::Core(_) => 0,
        Directive::Interpolated => 0,
        Directive::User(n) => n as u128 + 1,
    }
}

/// The highest priority first, then by name, then by registration.
fn pick_cmp(p: &Pick, q: &Pick) -> Ordering
    ensures { result ≡ pick_cmp_of p.now q.now }
{
    match q.priority.cmp(&p.priority) {
        Ordering::Equal => match p.name.cmp(&q.name) {
            Ordering::Equal => registration(p.directive).cmp(&registration(q.directive)),
            order => order,
        },
        order => order,
    }
}

/// Puts picked directives in order. Those that tie keep their places.
pub(crate) fn sort(picks: &mut Vec<Pick>) -> Result<(), AllocError>
    ensures { OnOk result (picks.new.items ≡ in_order is_before picks.old.items) }
{
    picks.sort_by(|p, q| pick_cmp(p, q))
}

/// The definition of one of the application's directives.
pub(crate) fn definition_of(defs: &[DirectiveDef], directive: Directive) -> Option<&DirectiveDef>
    ensures { option_copied result ≡ definition_in defs.now directive }
{
    match directive {
        Directive::Core(_) => None,
        Directive::Interpolated => None,
        Directive::User(n) => defs.get(n),
    }
}

/// Whether directives of a lower priority are left out by it.
fn is_terminal(defs: &[DirectiveDef], p: &Pick) -> bool
    ensures { result ≡ is_terminal_pick defs.now p.now }
{
    if let Directive::Core(directive) = p.directive {
        return ends_list(directive);
    }
    match definition_of(defs, p.directive) {
        None => false,
        Some(d) => d.terminal,
    }
}

/// The first terminal one.
fn first_terminal<'a>(defs: &[DirectiveDef], picks: &'a [Pick]) -> Option<&'a Pick>
    ensures { option_copied result ≡ find (is_terminal_pick defs.now) picks.now }
{
    for p in picks {
        if is_terminal(defs, p) {
            return Some(p);
        }
    }
    None
}

/// Whether nothing ends the list, or this one has no lower priority than what ends it.
fn reaches(last: Option<&Pick>, p: &Pick) -> bool
    ensures { result ≡ reaches_last (option_copied last.entry) p.now }
{
    match last {
        None => true,
        Some(last) => !p.priority.cmp(&last.priority).is_lt(),
    }
}

/// How many of them stand before the first that does not reach the last one.
fn reaching(last: Option<&Pick>, picks: &[Pick]) -> usize
    ensures { result ≡ prefix_len (reaches_last (option_copied last.entry)) picks.now }
{
    for (i, p) in picks.iter().enumerate() {
        if !reaches(last, p) {
            return i;
        }
    }
    picks.len()
}

/// Picked directives in order, down to the priority of the first terminal one.
pub(crate) fn down_to_terminal(defs: &[DirectiveDef], mut picks: Vec<Pick>) -> Vec<Pick>
    ensures { result.items ≡ down_to_terminal_of defs.now picks.items }
{
    let all = picks.as_slice();
    let kept = reaching(first_terminal(defs, all), all);
    picks.truncate(kept);
    picks
}
