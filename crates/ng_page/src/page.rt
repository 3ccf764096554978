//! The page: opened, commanded, read and printed.
ghost use Rattle.std.specs.Prelude.{◌≡◌, ◌↔◌, ◌<◌, ◌++◌, ◌||◌, true, false, is_some, length, option_map, IfOk, OnOk, IfErr, encode_utf8_all};
ghost use Rattle.std.specs.Option.{IfSome};
ghost use Rattle.serde_json.specs.Find.{as_array};
ghost use Rattle.serde_json.specs.View.{view};
ghost use Rattle.ng_core.specs.Frames.{state_of as core_state};
ghost use Rattle.ng_app.specs.AppOf.{facts};
ghost use Rattle.ng_base.specs.Meets.{Gives};
ghost use Rattle.ng_dom.specs.Document.{Shows};
ghost use Rattle.ng_dom.specs.Nodes.{NamedForest};
ghost use Rattle.ng_dom.specs.Printed.{at_place};
ghost use Rattle.ng_drawing.specs.Drawing.{shown_as};
ghost use Rattle.ng_drawing.specs.InstanceOf.{instance_of};
ghost use Rattle.ng_html.specs.Seen.{forest_of};
ghost use Rattle.ng_link.specs.State as link;
ghost use Rattle.ng_link.specs.State.{shown, instance, rendering};
ghost use Rattle.ng_markup.specs.Forest.{Forest as PlainForest, print};
ghost use Rattle.ng_parse.specs.ProgramOf.{program};
ghost use Rattle.ng_drawing.specs.Named.{fragments_in};
ghost use Rattle.ng_parts.specs.TemplateOf.{template_of};
ghost use Rattle.ng_evaluation.specs.Purity.{are_pure, all_filters_known};
ghost use Rattle.ng_render.specs.Free.{is_want};
ghost use Rattle.ng_page.specs.Answered.{WhenOk};
ghost use Rattle.ng_control.specs.Typed.{TakesText, IsCheckbox};
ghost use Rattle.ng_build.specs.Controls.{IsOfKind};
ghost use Rattle.ng_commands.specs.Commands.{applies, queues, probes, digests, destroys_scope, emits, broadcasts, types, checks, is_dead};
ghost use Rattle.ng_page.specs.OutcomeOf.{outcome_of};
ghost use Rattle.ng_commands.specs.BetweenSteps.{PageIs};
ghost use Rattle.ng_commands.specs.Settled.{IsSettled};
ghost use Rattle.ng_page.specs.Steps.{Opens, OpensShort};
ghost use Rattle.ng_steps.specs.Worn.{is_worn};
ghost use Rattle.ng_page.specs.Targets.{element_name};

use crate::digesting::conclude;
use crate::dispatching::dispatch_at;
use crate::engine::Engine;
use crate::opening::open;
use crate::outcome::{Outcome, Outcomes, PageFault};
use ng_act::wear;
use ng_app::App;
use ng_base::fault::{Fault, Memory};
use ng_base::name::{NodeId, ScopeId};
use ng_base::path::{Path, Target};
use ng_base::txt::Txt;
use ng_commands::running;
use ng_control::ControlKind;
use ng_core::core_state::Core;
use ng_dom::dom::Dom;
use ng_drawing::instance::Instance;
use ng_html::forest::Forest;
use ng_link::works::Works;
use ng_parse::Program;
use ng_parts::Tpl;
use ng_render::render;
use ng_steps::wear::is_worn;
use serde_json::Value as Json;
use std::alloc::Global;

/// A page: its core, its templates, what stands of them, and its watchers. It is spent once memory ran out in a call.
#[derive(Drop)]
pub struct Page {
    engine: Engine,
    spent: bool,
}

/// The rendering of the page's instance.
fn rendered(alloc: Global, works: &Works, i: &Instance) -> Result<Option<Forest>, Fault>
    requires page { PageIs works.now }
    requires instance { Some (instance_of (fragments_in (link.templates_of works.now)) i.now) ≡ instance (link.state_of works.now) }
    ensures { Gives is_want (option_map forest_of) (rendering (link.state_of works.now)) result }
{
    render(
        alloc,
        works.templates(),
        &works.core.store,
        &works.core.scopes,
        i,
    )
}

/// The element at a path of the printed document.
fn element_at(dom: &Dom, path: &Path) -> Option<NodeId>
    ensures found { (f : NamedForest) → Shows dom.now f → option_map (λ n. n.made.0) result ≡ element_name (at_place path.now f) }
    ensures slot { IfSome result (λ n. n.slot ≡ 0) }
{
    match dom.at(path) {
        None => None,
        Some(n) => { if dom.is_element(n) { Some(n) } else { None } }
    }
}

impl Page {
    ghost use Rattle.ng_dom.specs.Paths.{StandsIn};
    ghost use Rattle.ng_link.specs.Events.{named, scope_of, state_by, control_at, kind_at};
    ghost use Rattle.ng_act.specs.Worn.{told};
    ghost use Rattle.ng_page.specs.Causes.{HasCause};
    ghost use Rattle.ng_page.specs.Commanded.{Commanded, Ended, refusal};
    ghost use Rattle.ng_page.specs.Dispatched.{Dispatched};
    ghost use Rattle.ng_page.specs.PageOf.{state_of, fragments_of, IsPage, Displays, Names};
    ghost use Rattle.ng_page.specs.Targets.{target_in};

    /// Opens a page: what the application has is installed and registered on the root scope, its program runs, the template is
    /// linked there, and a digest is made (guide: Scopes, "Integration with the browser event loop"). The program and the
    /// linking count together as one program.
    pub fn start(alloc: Global, t: Tpl, app: App) -> Result<(Page, Outcome), Memory>
        // The page is where the plain digest over the linked template ends, with its answer.
        ensures step { IfOk result (λ r. Opens (facts app) (template_of t) (outcome_of r.1) (state_of r.0)) }
        // Its counts, the tests among them, are those of the digest that stops early.
        ensures report { IfOk result (λ r. OpensShort (facts app) (template_of t) r.1.digest (state_of r.0)) }
        // The document is what the sites have kept.
        ensures shown { IfOk result (λ r. Displays r.0 (shown (state_of r.0))) }
        // After a digest that answered Ok no watcher is dirty, and the document is the rendering.
        ensures settled { IfOk result (λ r. WhenOk r.1.digest (IsSettled (state_of r.0))) }
        ensures rendering { IfOk result (λ r. WhenOk r.1.digest (rendering (state_of r.0) ≡ shown_as (shown (state_of r.0)))) }
        ensures page { IfOk result (λ r. IsPage r.0) }
        ensures fresh { IfOk result (λ r. r.0.spent ≡ false) }
        // No page is there whose counters could be looked at.
        ensures refused { IfErr result (λ e. e ≡ Memory.Refused) }
    {
        let works = match open(alloc, t, app) {
            Ok(works) => works,
            Err(_) => return Err(Memory::Refused),
        };
        let mut engine = Engine::new(alloc, works);
        match conclude(&mut engine) {
            Ok(outcome) => Ok((
                Page {
                    engine,
                    spent: false,
                },
                outcome,
            )),
            Err(_) => Err(Memory::Refused),
        }
    }

    /// Whether a scope does not live.
    fn is_dead(&self, scope: ScopeId) -> bool
        requires { scope.0 < length (state_of self.now).core.scopes }
        ensures { result ≡ is_dead (state_of self.now) scope.0 }
    {
        !self.engine.works.core.scopes.is_live(scope)
    }

    /// Why a command on the root is refused, if it is.
    fn refused(&self) -> Option<PageFault>
        requires { IsPage self.now }
        ensures { result ≡ refusal self.now.spent (is_dead (state_of self.now) 0) }
    {
        if self.spent {
            return Some(PageFault::Spent);
        }
        if self.is_dead(ScopeId(0)) {
            return Some(PageFault::Idle);
        }
        None
    }

    /// Why a command on a scope is refused, if it is.
    fn refused_on(&self, scope: ScopeId) -> Option<PageFault>
        requires page { IsPage self.now }
        requires scope { self.now.spent ≡ false → scope.0 < length (state_of self.now).core.scopes }
        ensures { result ≡ refusal self.now.spent (is_dead (state_of self.now) 0 || is_dead (state_of self.now) scope.0) }
    {
        if let Some(fault) = self.refused() {
            return Some(fault);
        }
        if self.is_dead(scope) {
            return Some(PageFault::Idle);
        }
        None
    }

    /// Want of memory, after which nothing is said of the page any more, but that a counter of it does stand at its last value
    /// where that is told.
    fn wanting(&mut self, memory: Memory) -> PageFault
        ensures answer { result ≡ PageFault.Memory (told (is_worn (state_of self.new)) memory) }
        ensures spent { self.new.spent ≡ true }
        ensures worn { HasCause self.new result }
    {
        self.spent = true;
        PageFault::Memory(wear::told(is_worn(&self.engine.works), memory))
    }

    /// Ends a command whose program has run.
    fn ended(&mut self, ran: Result<(), Memory>) -> Result<Outcome, PageFault>
        requires unspent { self.old.spent ≡ false }
        requires page { OnOk ran (PageIs self.old.engine.works) }
        ensures { Ended ran (state_of self.old) result self.new }
    {
        match ran {
            Ok(()) => match conclude(&mut self.engine) {
                Ok(outcome) => Ok(outcome),
                Err(memory) => Err(self.wanting(memory)),
            },
            Err(memory) => Err(self.wanting(memory)),
        }
    }

    /// `$apply` of a program on a scope (API: `$rootScope.Scope`, `$apply`).
    pub fn apply(&mut self, scope: ScopeId, p: &Program) -> Result<Outcome, PageFault>
        requires page { IsPage self.old }
        requires scope { self.old.spent ≡ false → scope.0 < length (state_of self.old).core.scopes }
        ensures { Commanded (applies scope.0 (program p.now)) self.old result self.new }
    {
        if let Some(fault) = self.refused_on(scope) {
            return Err(fault);
        }
        running::begin(&mut self.engine.works);
        let ran = running::apply(&mut self.engine.works, self.engine.alloc, scope, p);
        self.ended(ran)
    }

    /// A task on the root, and a digest (API: `$rootScope.Scope`, `$evalAsync`).
    pub fn queue(&mut self, p: &Program) -> Result<Outcome, PageFault>
        requires page { IsPage self.old }
        ensures { Commanded (queues (program p.now)) self.old result self.new }
    {
        if let Some(fault) = self.refused() {
            return Err(fault);
        }
        running::begin(&mut self.engine.works);
        let ran = running::queue(&mut self.engine.works, self.engine.alloc, p);
        self.ended(ran)
    }

    /// A probe, and a digest: once that has settled, the value of the program is a text of the outcome.
    pub fn probe(&mut self, p: &Program) -> Result<Outcome, PageFault>
        requires page { IsPage self.old }
        requires pure { are_pure (program p.now) ≡ true }
        requires known { all_filters_known (program p.now) ≡ true }
        ensures { Commanded (probes (program p.now)) self.old result self.new }
    {
        if let Some(fault) = self.refused() {
            return Err(fault);
        }
        running::begin(&mut self.engine.works);
        let ran = running::probe(&mut self.engine.works, self.engine.alloc, p);
        self.ended(ran)
    }

    /// A digest from the root (API: `$rootScope.Scope`, `$digest`).
    pub fn digest(&mut self) -> Result<Outcome, PageFault>
        requires page { IsPage self.old }
        ensures { Commanded (digests) self.old result self.new }
    {
        if let Some(fault) = self.refused() {
            return Err(fault);
        }
        running::begin(&mut self.engine.works);
        let ran = Ok(());
        self.ended(ran)
    }

    /// `$destroy` of a scope in an `$apply` (API: `$rootScope.Scope`, `$destroy`).
    pub fn destroy(&mut self, scope: ScopeId) -> Result<Outcome, PageFault>
        requires page { IsPage self.old }
        requires scope { self.old.spent ≡ false → scope.0 < length (state_of self.old).core.scopes }
        ensures { Commanded (destroys_scope scope.0) self.old result self.new }
    {
        if let Some(fault) = self.refused() {
            return Err(fault);
        }
        running::begin(&mut self.engine.works);
        let ran = running::destroy_scope(&mut self.engine.works, self.engine.alloc, scope);
        self.ended(ran)
    }

    /// `$emit` from a scope in an `$apply`, with a JSON list of arguments (API: `$rootScope.Scope`, `$emit`).
    pub fn emit(&mut self, scope: ScopeId, name: &Txt, args: &Json) -> Result<Outcome, PageFault>
        requires page { IsPage self.old }
        requires scope { self.old.spent ≡ false → scope.0 < length (state_of self.old).core.scopes }
        requires list { is_some (as_array (view args.now)) ≡ true }
        ensures { Commanded (emits scope.0 name.now (view args.now)) self.old result self.new }
    {
        if let Some(fault) = self.refused_on(scope) {
            return Err(fault);
        }
        running::begin(&mut self.engine.works);
        let ran = running::emit_from(&mut self.engine.works, self.engine.alloc, scope, name, args);
        self.ended(ran)
    }

    /// `$broadcast` from a scope in an `$apply`, with a JSON list of arguments (API: `$rootScope.Scope`, `$broadcast`).
    pub fn broadcast(
        &mut self,
        scope: ScopeId,
        name: &Txt,
        args: &Json,
    ) -> Result<Outcome, PageFault>
        requires page { IsPage self.old }
        requires scope { self.old.spent ≡ false → scope.0 < length (state_of self.old).core.scopes }
        requires list { is_some (as_array (view args.now)) ≡ true }
        ensures { Commanded (broadcasts scope.0 name.now (view args.now)) self.old result self.new }
    {
        if let Some(fault) = self.refused_on(scope) {
            return Err(fault);
        }
        running::begin(&mut self.engine.works);
        let ran = running::broadcast_from(
            &mut self.engine.works,
            self.engine.alloc,
            scope,
            name,
            args,
        );
        self.ended(ran)
    }

    /// An event of the document at a node, with a JSON object of extra names for `$event` (API: ngClick). Its handlers run at the
    /// node and, where it bubbles, at each element round it, each in an `$apply` of its own, where its node still stands and its
    /// scope lives. At a `blur` the control that the node is loses the focus first, which counts as a handler. The answer is an outcome for
    /// each handler that ran.
    pub fn dispatch(&mut self, n: NodeId, event: &Txt, extra: &Json) -> Result<Outcomes, PageFault>
        requires page { IsPage self.old }
        requires stands { self.old.spent ≡ false → StandsIn n.made.0 (named (state_of self.old)) }
        ensures { Dispatched (record { type = event.now; extra = view extra.now }) n.made.0 self.old result self.new }
    {
        if self.spent {
            return Err(PageFault::Spent);
        }
        match dispatch_at(&mut self.engine, n, event, extra) {
            Ok(outcomes) => {
                if outcomes.is_empty() {
                    return Err(PageFault::Idle);
                }
                Ok(outcomes)
            }
            Err(memory) => Err(self.wanting(memory)),
        }
    }

    /// A text is typed into the control that a node is, in an `$apply`: its model is written, and the programs of its `ng-change` run (API:
    /// ngModel; API: ngChange). Where the model is then what the text was read as, the control goes on showing the text as it was typed.
    pub fn type_text(&mut self, n: NodeId, text: &Txt) -> Result<Outcome, PageFault>
        requires page { IsPage self.old }
        requires control { self.old.spent ≡ false → IsOfKind TakesText (state_by (control_at (state_of self.old) n.made.0) (state_of self.old)) }
        ensures { Commanded (types n.made.0 text.now) self.old result self.new }
    {
        let scope = self.scope_of(n);
        if let Some(fault) = self.refused_on(scope) {
            return Err(fault);
        }
        running::begin(&mut self.engine.works);
        let ran = running::type_in(&mut self.engine.works, self.engine.alloc, n.made.0, text);
        self.ended(ran)
    }

    /// The checkbox that a node is is checked, or not, in an `$apply`, as a text is typed into other controls.
    pub fn check(&mut self, n: NodeId, on: bool) -> Result<Outcome, PageFault>
        requires page { IsPage self.old }
        requires control { self.old.spent ≡ false → IsOfKind IsCheckbox (state_by (control_at (state_of self.old) n.made.0) (state_of self.old)) }
        ensures { Commanded (checks n.made.0 on) self.old result self.new }
    {
        let scope = self.scope_of(n);
        if let Some(fault) = self.refused_on(scope) {
            return Err(fault);
        }
        running::begin(&mut self.engine.works);
        let ran = running::check_in(&mut self.engine.works, self.engine.alloc, n.made.0, on);
        self.ended(ran)
    }

    /// Appends the document on one line, without a line feed.
    pub fn print(&self, into: &mut Vec<u8>) -> Result<(), Memory>
        ensures printed { (f : PlainForest) → Displays self.now f → OnOk result (into.new.items ≡ into.old.items ++ encode_utf8_all (print f)) }
        ensures refused { IfErr result (λ e. e ≡ Memory.Refused) }
    {
        self.engine.works.dom().print(into)
    }

    /// The core.
    pub fn core(&self) -> &Core
        ensures { core_state result.now ≡ (state_of self.now).core }
    {
        &self.engine.works.core
    }

    /// The document, whose nodes have names.
    pub fn shown(&self) -> &Dom
        ensures { (f : NamedForest) → Names self.now f ↔ Shows result.now f }
    {
        self.engine.works.dom()
    }

    /// What stands of the template: for each site its key, its scope and what it has kept.
    pub fn instance(&self) -> Result<Option<Instance>, Memory>
        ensures instance { IfOk result (λ i. option_map (instance_of (fragments_of self.now)) i ≡ instance (state_of self.now)) }
        ensures refused { IfErr result (λ e. e ≡ Memory.Refused) }
    {
        match self.engine.works.instance() {
            Ok(i) => Ok(i),
            // Nothing that counts stands behind an instance that is read off the tables.
            Err(_) => Err(Memory::Refused),
        }
    }

    /// The rendering: the document computed afresh over data and scopes, while no watcher and no node is asked (guide: Templates).
    /// Where nothing is linked it is empty.
    pub fn rendered(&self) -> Result<Option<Forest>, Fault>
        requires page { IsPage self.now }
        requires unspent { self.now.spent ≡ false }
        ensures { Gives is_want (option_map forest_of) (rendering (state_of self.now)) result }
    {
        match self.instance()? {
            None => Ok(Some(Forest::new(self.engine.alloc))),
            Some(i) => rendered(self.engine.alloc, &self.engine.works, &i),
        }
    }

    /// The element that a command is aimed at: the first in document order with an `id`, or the one at a path of the printed
    /// document. There is none where another node stands at the path.
    pub fn find(&self, t: &Target) -> Option<NodeId>
        ensures found { (f : NamedForest) → Names self.now f → option_map (λ n. n.made.0) result ≡ target_in t.now f }
        ensures slot { IfSome result (λ n. n.slot ≡ 0) }
    {
        let dom = self.engine.works.dom();
        match t {
            Target::Id(id) => dom.by_id(id),
            Target::Path(path) => element_at(dom, path),
        }
    }

    /// The scope of a node: that of the instance to which it belongs, or the inner one of its element.
    pub fn scope_of(&self, n: NodeId) -> ScopeId
        ensures scope { result.0 ≡ scope_of (state_of self.now) n.made.0 }
        ensures there { IsPage self.now → self.now.spent ≡ false → result.0 < length (state_of self.now).core.scopes }
    {
        self.engine.works.scope_of(n.made.0)
    }

    /// The kind of the control that a node is. There is none where it has no `ng-model`.
    pub fn control_of(&self, n: NodeId) -> Option<ControlKind>
        ensures { result ≡ kind_at (state_of self.now) n.made.0 }
    {
        self.engine.works.control_kind(n.made.0)
    }

    /// The root scope.
    pub fn root(&self) -> ScopeId
        ensures { result.0 ≡ 0 }
    {
        ScopeId(0)
    }
}
