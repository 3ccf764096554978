//! How a page is opened, up to its first digest.
ghost use Rattle.std.specs.Prelude.{◌≡◌, ◌<◌, ◌++◌, [], length, IfOk, OnOk, None, ◌∷◌, true};
ghost use Rattle.std.specs.List.{AllByRecursion};
ghost use Rattle.ng_app.specs.AppOf.{facts};
ghost use Rattle.ng_app.specs.Directives.{all_unnamed};
ghost use Rattle.ng_app.specs.Templates.{all_named};
ghost use Rattle.ng_drawing.specs.Template.{Template};
ghost use Rattle.ng_link.specs.State.{state_of, templates_of};
ghost use Rattle.ng_compose.specs.Kept.{templates_of as kept_templates};
ghost use Rattle.ng_drawing.specs.Numbering.{is_regular};
ghost use Rattle.ng_compose.specs.DirectivesOf.{directives_of};
ghost use Rattle.ng_parts.specs.TemplateOf.{template_of};
ghost use Rattle.ng_page.specs.Opening.{prepared, linked_by, linked_on, opening};
ghost use Rattle.ng_commands.specs.BetweenSteps.{WorksAre, PageIs};
ghost use Rattle.ng_commands.specs.Settled.{IsWatched, Fits};

use ng_app::App;
use ng_base::fault::{Fault, Memory};
use ng_base::name::{ScopeId, TplId};
use ng_changes::following::follow;
use ng_changes::programs::run_program;
use ng_compose::Templates;
use ng_drawing::origin::{Home, Origin};
use ng_instances::linking::Place;
use ng_link::works::Works;
use ng_parts::Tpl;
use ng_steps::linking::link_at;
use std::alloc::Global;

/// What the application installs and registers on the root, and its first program.
fn prepare(alloc: Global, app: App, templates: Templates) -> Result<Works, Memory>
    requires some { 0 < length (kept_templates templates) }
    requires plain { directives_of templates ≡ [] }
    ensures state { IfOk result (λ w. (u : Template) → kept_templates templates ≡ (None, u) ∷ [] → state_of w ≡ prepared u (facts app)) }
    ensures works { IfOk result WorksAre }
    ensures bare { IfOk result (λ w. (state_of w).instances ≡ []) }
    ensures templates { IfOk result (λ w. templates_of w ≡ kept_templates templates ++ (all_unnamed (facts app).directives ++ all_named (facts app).templates)) }
{
    let mut all = templates;
    let (core, run) = app.begin(&mut all)?;
    let mut works = Works::new(alloc, core, all);
    let end = run_program(&mut works.core, alloc, ScopeId(0), &run);
    follow(&mut works, alloc, end)?;
    Ok(works)
}

/// A fault that the linking met is handed over.
fn tell(works: &mut Works, fault: Option<Fault>)
    ensures state { state_of works.new ≡ linked_by fault (state_of works.old) }
    ensures works { WorksAre works.old → WorksAre works.new }
{
    match fault {
        None => {}
        Some(met) => works.hand_over(met),
    }
}

/// Links a page's template on the root scope, and hands the fault over that it meets.
fn link_page(works: &mut Works, alloc: Global, t: TplId) -> Result<(), Memory>
    requires works { WorksAre works.old }
    requires first { t.0 ≡ 0 }
    requires bare { (state_of works.old).instances ≡ [] }
    requires regular { AllByRecursion (λ k. is_regular k.1 ≡ true) (templates_of works.old) }
    ensures state { OnOk result (state_of works.new ≡ linked_on (state_of works.old)) }
    ensures works { OnOk result (WorksAre works.new) }
    ensures watched { OnOk result (IsWatched (state_of works.new)) }
    ensures fits { OnOk result (Fits [] (state_of works.new)) }
{
    let _in_order = works.watchers().count();
    works.core.scopes.sound();
    let origin = Origin::plain(Home::first(alloc, t), 0);
    let outsides = Vec::new(alloc);
    let built = link_at(works, alloc, &Place::Top, &origin, ScopeId(0), outsides)?;
    tell(works, built.fault);
    Ok(())
}

/// The works of a page whose template was linked.
pub(crate) fn open(alloc: Global, t: Tpl, app: App) -> Result<Works, Memory>
    ensures state { IfOk result (λ w. state_of w ≡ opening (facts app) (template_of t)) }
    ensures page { IfOk result PageIs }
{
    let mut templates = Templates::new(alloc);
    let t = templates.add(None, t)?;
    let mut works = prepare(alloc, app, templates)?;
    link_page(&mut works, alloc, t)?;
    Ok(works)
}
