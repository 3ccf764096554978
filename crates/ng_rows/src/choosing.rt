//! What a value calls for in an outlet (API: ngIf, ngSwitch, ngInclude, ngRepeat).
ghost use Rattle.std.specs.Prelude.{◌≡◌, map, Some, IfOk};
ghost use Rattle.std.specs.List.{list_any};
ghost use Rattle.ng_blocks.specs.Switching.{matches};
ghost use Rattle.ng_drawing.specs.Cases.{case_in, is_chosen as is_chosen_of, calls_for as calls_for_of};
ghost use Rattle.ng_rows.specs.Chosen.{goes as goes_at, cases_due, body_of as body_of_filling, comes as comes_at};
ghost use Rattle.ng_instances.specs.Due.{due_of};
ghost use Rattle.ng_parts.specs.FragmentOf.{filling_of};
ghost use Rattle.ng_value.specs.Snaps.{snap_of};

use ng_base::txt::Txt;
use ng_drawing::cases::{has_text, kept_as_text};
use ng_instances::filling::Due;
use ng_parts::Filling;
use ng_value::operators::truthy;
use ng_value::snapshot::Snap;
use std::alloc::{AllocError, Global};

/// Whether the bodies that stand go at a value.
pub fn goes(filling: &Filling, value: &Snap) -> bool
    ensures { result ≡ goes_at (filling_of filling.now) (snap_of value.now) }
{
    match filling {
        Filling::BodyIf(_) => !truthy(value.view()),
        Filling::OnCase(_, _) => true,
        Filling::ForEach(_, _) => false,
        Filling::ByName(_) => true,
    }
}

/// Whether an outlet is that of a case that has a text.
fn case_has(due: &Due, value: &Txt) -> bool
    ensures { result ≡ list_any (matches value.now) (case_in (filling_of due.now.filling)) }
{
    match &due.filling {
        Filling::BodyIf(_) => false,
        Filling::OnCase(case, _) => has_text(value, case),
        Filling::ForEach(_, _) => false,
        Filling::ByName(_) => false,
    }
}

/// Whether a case among outlets has a text.
#[tactic(auto, using(ng_drawing::proofs::Choices::any_case))]
fn any_has(all: &[Due], value: &Txt) -> bool
    ensures { result ≡ list_any (matches value.now) (cases_due (map due_of all.now)) }
{
    for due in all {
        if case_has(due, value) {
            return true;
        }
    }
    false
}

/// Whether a case is shown beside those of the same switch, where the value has this text.
fn is_chosen(all: &[Due], value: &Txt, case: &Option<Txt>) -> bool
    ensures { result ≡ is_chosen_of (cases_due (map due_of all.now)) value.now case.now }
{
    match case {
        Some(_) => has_text(value, case),
        None => !any_has(all, value),
    }
}

/// Whether a value calls for the body of an outlet beside the others of its site.
fn calls_for(
    alloc: Global,
    all: &[Due],
    filling: &Filling,
    value: &Snap,
) -> Result<bool, AllocError>
    ensures { IfOk result (λ b. b ≡ calls_for_of (cases_due (map due_of all.now)) (filling_of filling.now) (Some (snap_of value.now))) }
{
    match filling {
        Filling::BodyIf(_) => Ok(truthy(value.view())),
        Filling::OnCase(case, _) => {
            let text = kept_as_text(alloc, value.view())?;
            Ok(is_chosen(all, &text, case))
        }
        Filling::ForEach(_, _) => Ok(false),
        Filling::ByName(_) => Ok(truthy(value.view())),
    }
}

/// Whether a body is to be made in an outlet.
pub fn comes(alloc: Global, all: &[Due], value: &Snap, due: &Due) -> Result<bool, AllocError>
    ensures { IfOk result (λ b. b ≡ comes_at (cases_due (map due_of all.now)) (snap_of value.now) (due_of due.now)) }
{
    if !due.bodies.is_empty() && !goes(&due.filling, value) {
        return Ok(false);
    }
    calls_for(alloc, all, &due.filling, value)
}

/// The number of the body of an outlet.
pub fn body_of(filling: &Filling) -> u32
    ensures { result ≡ body_of_filling (filling_of filling.now) }
{
    match filling {
        Filling::BodyIf(body) => *body,
        Filling::OnCase(_, body) => *body,
        Filling::ForEach(_, body) => *body,
        Filling::ByName(body) => *body,
    }
}
