//! Commands, done on a page.
ghost use Rattle.std.specs.Prelude.{◌≡◌, ◌<◌, length, true, codes, is_some, option_map};
ghost use Rattle.std.specs.Option.{IfSome};
ghost use Rattle.serde_json.specs.Data.{object, no_members};
ghost use Rattle.serde_json.specs.Find.{as_array};
ghost use Rattle.serde_json.specs.View.{view};
ghost use Rattle.ng_control.specs.Typed.{TakesText, IsCheckbox};
ghost use Rattle.ng_build.specs.Controls.{IsOfKind};
ghost use Rattle.ng_link.specs.Events.{state_by, control_at};
ghost use Rattle.ng_commands.specs.Commands.{applies, destroys_scope, emits, broadcasts, types, checks};
ghost use Rattle.ng_page.specs.PageOf.{state_of};
ghost use Rattle.ng_page.specs.Ready.{IsReady};
ghost use Rattle.ng_parse.specs.ProgramOf.{program as program_of};
ghost use Rattle.ng_script.specs.Acts.{act_of};
ghost use Rattle.ng_inputs.specs.Acts.{IsSound};
ghost use Rattle.ng_performing.specs.Aims.{scope_in, takes_text as takes_text_of, is_checkbox as is_checkbox_of, if_control, control_in};
ghost use Rattle.ng_performing.specs.Fired.{fired_by};
ghost use Rattle.ng_performing.specs.Performed.{Answers, AnswersFired, Performed, FiredBy, PerformedAct};

use ng_base::fault::Memory;
use ng_base::name::{NodeId, ScopeId};
use ng_base::path::Target;
use ng_base::txt::Txt;
use ng_control::ControlKind;
use ng_page::outcome::{Outcome, Outcomes, PageFault};
use ng_page::page::Page;
use ng_parse::Program;
use ng_script::{ScopeOf, What};
use serde_json::{Map, Value as Json};
use std::alloc::Global;

/// What became of a command: no element, or no control of its kind, stands at its target; nothing was to be done; it was done; or the
/// handlers of its event have run.
#[derive(Drop)]
pub enum Done {
    Aimless,
    Idle,
    Outcome(Outcome),
    Outcomes(Outcomes),
}

/// What the call of a page came to. A page that is spent has wanted memory.
fn answered(answer: Result<Outcome, PageFault>) -> Result<Done, Memory>
    ensures { Answers answer result }
{
    match answer {
        Ok(outcome) => Ok(Done::Outcome(outcome)),
        Err(PageFault::Idle) => Ok(Done::Idle),
        Err(PageFault::Spent) => Err(Memory::Refused),
        Err(PageFault::Memory(memory)) => Err(memory),
    }
}

/// The scope that a command is aimed at, where its target stands.
fn scope_of(page: &Page, scope: &ScopeOf) -> Option<ScopeId>
    requires { IsReady page.now }
    ensures scope { option_map (λ s. s.0) result ≡ scope_in scope.now (state_of page.now) }
    ensures there { IfSome result (λ s. s.0 < length (state_of page.now).core.scopes) }
{
    match scope {
        ScopeOf::Root => Some(page.root()),
        ScopeOf::Node(target) => match page.find(target) {
            None => None,
            Some(node) => Some(page.scope_of(node)),
        },
    }
}

/// A program runs on a scope.
fn apply(page: &mut Page, scope: &ScopeOf, program: &Program) -> Result<Done, Memory>
    requires { IsReady page.old }
    ensures { Performed (option_map (λ s. applies s (program_of program.now)) (scope_in scope.now (state_of page.old))) page.old result page.new }
{
    match scope_of(page, scope) {
        None => Ok(Done::Aimless),
        Some(scope) => answered(page.apply(scope, program)),
    }
}

/// An event goes up from a scope.
fn emit(page: &mut Page, scope: &ScopeOf, name: &Txt, args: &Json) -> Result<Done, Memory>
    requires ready { IsReady page.old }
    requires list { is_some (as_array (view args.now)) ≡ true }
    ensures { Performed (option_map (λ s. emits s name.now (view args.now)) (scope_in scope.now (state_of page.old))) page.old result page.new }
{
    match scope_of(page, scope) {
        None => Ok(Done::Aimless),
        Some(scope) => answered(page.emit(scope, name, args)),
    }
}

/// An event goes down from a scope.
fn broadcast(page: &mut Page, scope: &ScopeOf, name: &Txt, args: &Json) -> Result<Done, Memory>
    requires ready { IsReady page.old }
    requires list { is_some (as_array (view args.now)) ≡ true }
    ensures { Performed (option_map (λ s. broadcasts s name.now (view args.now)) (scope_in scope.now (state_of page.old))) page.old result page.new }
{
    match scope_of(page, scope) {
        None => Ok(Done::Aimless),
        Some(scope) => answered(page.broadcast(scope, name, args)),
    }
}

/// A scope is destroyed.
fn destroy(page: &mut Page, scope: &ScopeOf) -> Result<Done, Memory>
    requires { IsReady page.old }
    ensures { Performed (option_map (λ s. destroys_scope s) (scope_in scope.now (state_of page.old))) page.old result page.new }
{
    match scope_of(page, scope) {
        None => Ok(Done::Aimless),
        Some(scope) => answered(page.destroy(scope)),
    }
}

/// What a dispatch came to. A page that is spent has wanted memory.
fn fired(answer: Result<Outcomes, PageFault>) -> Result<Done, Memory>
    ensures { AnswersFired answer result }
{
    match answer {
        Ok(outcomes) => Ok(Done::Outcomes(outcomes)),
        Err(PageFault::Idle) => Ok(Done::Idle),
        Err(PageFault::Spent) => Err(Memory::Refused),
        Err(PageFault::Memory(memory)) => Err(memory),
    }
}

/// An event is fired at a target.
fn fire(page: &mut Page, target: &Target, event: &Txt, extra: &Json) -> Result<Done, Memory>
    requires { IsReady page.old }
    ensures { FiredBy (record { event = record { type = event.now; extra = view extra.now }; target = target.now }) page.old result page.new }
{
    match page.find(target) {
        None => Ok(Done::Aimless),
        Some(node) => fired(page.dispatch(node, event, extra)),
    }
}

/// The event `click` is fired at a target.
fn click(alloc: Global, page: &mut Page, target: &Target) -> Result<Done, Memory>
    requires { IsReady page.old }
    ensures { FiredBy (record { event = record { type = codes "click"; extra = object no_members }; target = target.now }) page.old result page.new }
{
    let mut event = Txt::new(alloc);
    event.push_word("click")?;
    fire(page, target, &event, &Json::Object(Map::new(alloc)))
}

/// Whether a text is typed into controls of a kind.
fn takes_text(kind: ControlKind) -> bool
    ensures { result ≡ takes_text_of kind }
{
    match kind {
        ControlKind::Text { .. } => true,
        ControlKind::Number => true,
        ControlKind::Checkbox => false,
    }
}

/// Whether controls of a kind are checked.
fn is_checkbox(kind: ControlKind) -> bool
    ensures { result ≡ is_checkbox_of kind }
{
    match kind {
        ControlKind::Text { .. } => false,
        ControlKind::Number => false,
        ControlKind::Checkbox => true,
    }
}

/// A node, where it is a control that a text is typed into.
fn text_at(page: &Page, node: NodeId) -> Option<NodeId>
    ensures found { option_map (λ n. n.made.0) result ≡ if_control takes_text_of (state_of page.now) (Some node.made.0) }
    ensures control { IfSome result (λ n. IsOfKind TakesText (state_by (control_at (state_of page.now) n.made.0) (state_of page.now))) }
{
    match page.control_of(node) {
        None => None,
        Some(kind) => { if takes_text(kind) { Some(node) } else { None } }
    }
}

/// The control that a text is typed into, where one stands at a target.
fn text_control(page: &Page, target: &Target) -> Option<NodeId>
    requires { IsReady page.now }
    ensures found { option_map (λ n. n.made.0) result ≡ control_in takes_text_of target.now (state_of page.now) }
    ensures control { IfSome result (λ n. IsOfKind TakesText (state_by (control_at (state_of page.now) n.made.0) (state_of page.now))) }
{
    match page.find(target) {
        None => None,
        Some(node) => text_at(page, node),
    }
}

/// A node, where it is a checkbox that is a control.
fn checkbox_at(page: &Page, node: NodeId) -> Option<NodeId>
    ensures found { option_map (λ n. n.made.0) result ≡ if_control is_checkbox_of (state_of page.now) (Some node.made.0) }
    ensures control { IfSome result (λ n. IsOfKind IsCheckbox (state_by (control_at (state_of page.now) n.made.0) (state_of page.now))) }
{
    match page.control_of(node) {
        None => None,
        Some(kind) => { if is_checkbox(kind) { Some(node) } else { None } }
    }
}

/// The checkbox that stands at a target.
fn checkbox(page: &Page, target: &Target) -> Option<NodeId>
    requires { IsReady page.now }
    ensures found { option_map (λ n. n.made.0) result ≡ control_in is_checkbox_of target.now (state_of page.now) }
    ensures control { IfSome result (λ n. IsOfKind IsCheckbox (state_by (control_at (state_of page.now) n.made.0) (state_of page.now))) }
{
    match page.find(target) {
        None => None,
        Some(node) => checkbox_at(page, node),
    }
}

/// A text is typed into a control.
fn type_text(page: &mut Page, target: &Target, text: &Txt) -> Result<Done, Memory>
    requires { IsReady page.old }
    ensures { Performed (option_map (λ n. types n text.now) (control_in takes_text_of target.now (state_of page.old))) page.old result page.new }
{
    match text_control(page, target) {
        None => Ok(Done::Aimless),
        Some(node) => answered(page.type_text(node, text)),
    }
}

/// A checkbox is checked, or not.
fn check(page: &mut Page, target: &Target, on: bool) -> Result<Done, Memory>
    requires { IsReady page.old }
    ensures { Performed (option_map (λ n. checks n on) (control_in is_checkbox_of target.now (state_of page.old))) page.old result page.new }
{
    match checkbox(page, target) {
        None => Ok(Done::Aimless),
        Some(node) => answered(page.check(node, on)),
    }
}

/// Does what a command asks of the page.
pub fn perform(alloc: Global, page: &mut Page, what: &What) -> Result<Done, Memory>
    requires ready { IsReady page.old }
    requires sound { IsSound (act_of what.now) }
    ensures { PerformedAct (fired_by (act_of what.now)) (act_of what.now) page.old result page.new }
{
    match what {
        What::Eval(program) => apply(page, &ScopeOf::Root, program),
        What::At { scope, program } => apply(page, scope, program),
        What::Emit { scope, name, args } => emit(page, scope, name, args),
        What::Broadcast { scope, name, args } => broadcast(page, scope, name, args),
        What::Async(program) => answered(page.queue(program)),
        What::Probe(program) => answered(page.probe(program)),
        What::Destroy(scope) => destroy(page, scope),
        What::Digest => answered(page.digest()),
        What::Click(target) => click(alloc, page, target),
        What::Fire {
            event,
            target,
            extra,
        } => fire(page, target, event, extra),
        What::Typed { target, text } => type_text(page, target, text),
        What::Check { target, on } => check(page, target, *on),
    }
}
