//! The directives of elements, with those of an application beside the core's, and definitions that are refused.
use crate::rows::column;
use ng_base::txt::Txt;
use ng_collect::{
    CollectFault, DefFault, Directive, DirectiveDef, Picked, Registry, ScopeAsk, Specs, collect,
    collect_below,
};
use ng_html::read;
use std::alloc::{AllocError, Global};
use std::process::Abort;

/// The scope that a directive of the application asks for.
#[derive(Clone, Copy, Debug)]
enum Asks {
    Same,
    Child,
    Isolate(&'static str),
}

/// A directive of the application: its name, restriction and priority, whether it is terminal, its scope, whether it has a template,
/// and whether it transcludes.
type Row = (&'static str, &'static str, i64, bool, Asks, bool, bool);

const DIRECTIVES: [Row; 12] = [
    ("box", "EA", 0, false, Asks::Isolate("="), false, false),
    ("pane", "EA", 0, false, Asks::Isolate("@"), false, false),
    ("card", "E", 0, false, Asks::Child, true, false),
    ("wrap", "EA", 0, false, Asks::Same, true, true),
    ("tip", "A", 10, false, Asks::Same, false, false),
    ("top", "A", 700, false, Asks::Same, false, false),
    ("stop", "A", 50, true, Asks::Same, false, false),
    ("tip", "AE", 10, false, Asks::Same, false, false),
    ("mark", "A", 100, false, Asks::Same, false, false),
    ("slot", "A", 0, false, Asks::Same, false, true),
    ("kid", "A", 0, false, Asks::Child, false, false),
    ("late", "A", -5, false, Asks::Same, false, false),
];

fn scope(alloc: Global, asks: Asks) -> Result<ScopeAsk, AllocError> {
    match asks {
        Asks::Same => Ok(ScopeAsk::Same),
        Asks::Child => Ok(ScopeAsk::Child),
        Asks::Isolate(binding) => {
            let mut specs = Specs::new(alloc);
            specs.push(Txt::from_str(alloc, "v")?, Txt::from_str(alloc, binding)?)?;
            Ok(ScopeAsk::Isolate(specs))
        }
    }
}

fn definition(alloc: Global, row: Row) -> Result<DirectiveDef, AllocError> {
    let (name, restrict, priority, terminal, asks, has_template, transclude) = row;
    let template = if has_template {
        Some(Txt::from_str(alloc, "<b></b>")?)
    } else {
        None
    };
    Ok(DirectiveDef {
        name: Txt::from_str(alloc, name)?,
        restrict: Txt::from_str(alloc, restrict)?,
        priority,
        terminal,
        scope: scope(alloc, asks)?,
        template,
        transclude,
    })
}

fn registry(alloc: Global) -> Option<Registry> {
    let mut registry = Registry::new(alloc).ok()?;
    for row in DIRECTIVES {
        registry.add(definition(alloc, row).ok()?).ok()?;
    }
    Some(registry)
}

/// Each directive with its name, its priority and its attribute; one that is interpolated has braces after its name, and the
/// element itself is a dash.
fn written(alloc: Global, picked: &Picked) -> Result<String, AllocError> {
    let mut out = String::new(alloc);
    for p in picked.as_slice() {
        if !out.is_empty() {
            out.push_str(", ")?;
        }
        out.push_str(p.name.as_str())?;
        if matches!(p.directive, Directive::Interpolated) {
            out.push_str("{}")?;
        }
        let priority = format!(in alloc; " {} ", p.priority)?;
        out.push_str(priority.as_str())?;
        match &p.attribute {
            Some(attr) => out.push_str(attr.name.as_str())?,
            None => out.push('-')?,
        }
    }
    Ok(out)
}

fn told(alloc: Global, answer: Result<Picked, CollectFault>) -> Result<String, AllocError> {
    match answer {
        Ok(picked) => written(alloc, &picked),
        Err(fault) => format!(in alloc; "{fault:?}"),
    }
}

/// What is picked for the first node of a document, of all or of what has a lower priority than this.
fn picked(
    alloc: Global,
    registry: &Registry,
    limit: Option<i64>,
    document: &str,
) -> Option<String> {
    let source = read(alloc, document.as_bytes()).ok()?;
    let node = source.forest.nodes().first()?;
    let answer = match limit {
        None => collect(alloc, node, registry),
        limit => collect_below(alloc, node, registry, limit),
    };
    told(alloc, answer).ok()
}

/// An element, and its directives or the refusal: names and blocks.
const BLOCKS: &str = r#"<p ng-bind="x"></p>→ngBind 0 ng-bind
<p data-ng-bind="x"></p>→ngBind 0 data-ng-bind
<p x-ng-bind="x"></p>→ngBind 0 x-ng-bind
<p ng:bind="x"></p>→ngBind 0 ng:bind
<p x:ng_bind="x"></p>→ngBind 0 x:ng_bind
<p NG-Show="a"></p>→ngShow 0 ng-show
<p ng-show="a" ng-hide="b" ng-class="c"></p>→ngClass 0 ng-class, ngHide 0 ng-hide, ngShow 0 ng-show
<p ng-show="a" data-ng-show="b"></p>→ngShow 0 data-ng-show, ngShow 0 ng-show
<li ng-repeat="r in rs" ng-class="c" ng-if="r"></li>→ngRepeat 1000 ng-repeat
<li ng-if="r" ng-init="a = 1" ng-class="c"></li>→ngIf 600 ng-if
<p ng-include="t" ng-init="a = 1" ng-disabled="d"></p>→ngInit 450 ng-init, ngInclude 400 ng-include
<p ng-include="t" ng-bind="x"></p>→ngInclude 400 ng-include
<i ng-switch-when="1" ng-repeat="r in rs"></i>→ngSwitchWhen 1200 ng-switch-when
<i ng-switch-when="1" ng-switch-default></i>→ngSwitchDefault 1200 ng-switch-default, ngSwitchWhen 1200 ng-switch-when
<p ng-non-bindable ng-repeat="r in rs" ng-class="c"></p>→ngNonBindable 1000 ng-non-bindable, ngRepeat 1000 ng-repeat
<p ng-non-bindable ng-class="c" title="{{t}}" box pane></p>→ngNonBindable 1000 ng-non-bindable"#;

/// The same of interpolated attributes, events and controls, and of elements that are directives themselves.
const ATTRIBUTES: &str = r#"<p title="{{t}}" id="{{i}}"></p>→id{} 100 id, title{} 100 title
<p ng-click="{{t}}"></p>→ngClick 0 ng-click
<a ng-href="/u/{{id}}" title="{{id}}"></a>→title{} 100 title, ngHref 99 ng-href
<img ng-src="{{s}}" src="{{s}}">→src{} 100 src, ngSrc 99 ng-src
<input ng-model="n" ng-change="c()" ng-checked="k">→ngChecked 100 ng-checked, ngModel 1 ng-model, ngChange 0 ng-change
<input type="NUMBER" ng-model="n">→ngModel 1 ng-model
<input type="checkbox" ng-model="n">→ngModel 1 ng-model
<input type="password" ng-model="n" ng-trim="false" ng-blur="b()" ng-focus="f()">→ngModel 1 ng-model, ngBlur 0 ng-blur, ngFocus 0 ng-focus, ngTrim 0 ng-trim
<textarea ng-model="n" type="radio"></textarea>→ngModel 1 ng-model
<p ng-dblclick="d()" ng-mouseenter="e()" ng-paste="p()"></p>→ngDblclick 0 ng-dblclick, ngMouseenter 0 ng-mouseenter, ngPaste 0 ng-paste
<ng-include src="t"></ng-include>→ngInclude 400 -
<data-ng-include src="t"></data-ng-include>→ngInclude 400 -
<ng-switch on="k"></ng-switch>→ngSwitch 0 -
<ng-transclude></ng-transclude>→ngTransclude 0 -
<p ng-app="{{a}}"></p>→ngApp{} 100 ng-app"#;

/// The same of the application's directives.
const DEFINED: &str = r#"<box v="p"></box>→box 0 -
<i box pane></i>→MultiDir
<i box kid></i>→MultiDir
<i kid card></i>→kid 0 kid
<card kid></card>→card 0 -, kid 0 kid
<card ng-bind="x"></card>→MultiDir
<wrap slot></wrap>→MultiDir
<p tip ng-show="a" late></p>→tip 10 tip, tip 10 tip, ngShow 0 ng-show, late -5 late
<p tip data-tip></p>→tip 10 data-tip, tip 10 tip, tip 10 data-tip, tip 10 tip
<p top ng-if="a"></p>→MultiDir
<p top ng-repeat="r in rs"></p>→ngRepeat 1000 ng-repeat
<p box pane ng-if="a"></p>→ngIf 600 ng-if
<p stop tip title="{{t}}" ng-show="a"></p>→title{} 100 title, stop 50 stop
<p mark="{{m}}"></p>→mark{} 100 mark, mark 100 mark"#;

/// Tries the rows of a table.
fn all_picked(rt: &impl Abort, alloc: Global, rows: &str) {
    let Some(registry) = registry(alloc) else {
        panic!(rt; "no registry");
    };
    for row in rows.split('\n') {
        let (document, want) = column(row);
        let Some(got) = picked(alloc, &registry, None, document) else {
            panic!(rt; "no answer at {document}");
        };
        assert_eq!(rt; got.as_str(), want, "{document}");
    }
}

#[test]
fn blocks_cut_what_stands_below_them(rt: HostRuntime) {
    all_picked(&rt, rt.alloc(), BLOCKS);
}

#[test]
fn attributes_events_and_controls_are_directives(rt: HostRuntime) {
    all_picked(&rt, rt.alloc(), ATTRIBUTES);
}

#[test]
fn directives_of_the_application_are_sorted_and_counted(rt: HostRuntime) {
    all_picked(&rt, rt.alloc(), DEFINED);
}

/// An element, the priority of a block, and what it leaves to its body.
const BODIES: [(&str, i64, &str); 6] = [
    (
        "<li ng-repeat=\"r in rs\" ng-if=\"r\" ng-class=\"c\"></li>",
        1000,
        "ngIf 600 ng-if",
    ),
    (
        "<li ng-repeat=\"r in rs\" ng-if=\"r\" ng-class=\"c\"></li>",
        600,
        "ngClass 0 ng-class",
    ),
    (
        "<li ng-repeat=\"r in rs\" ng-if=\"r\" ng-class=\"c\"></li>",
        0,
        "",
    ),
    ("<p ng-if=\"a\" box pane></p>", 600, "MultiDir"),
    ("<p ng-if=\"a\" ng-style=\"s\"></p>", 600, "LeftOut"),
    (
        "<p ng-include=\"t\" ng-init=\"a = 1\" ng-show=\"d\"></p>",
        400,
        "ngShow 0 ng-show",
    ),
];

#[test]
fn a_block_leaves_lower_priorities_to_its_body(rt: HostRuntime) {
    let Some(registry) = registry(rt.alloc()) else {
        panic!(rt; "no registry");
    };
    for (document, priority, want) in BODIES {
        let Some(got) = picked(rt.alloc(), &registry, Some(priority), document) else {
            panic!(rt; "no answer at {document}");
        };
        assert_eq!(rt; got.as_str(), want, "{document} below {priority}");
    }
}

/// A name, a restriction and a binding, and the refusal, or a dash.
const DEFINITIONS: &str = "box→EA→=→-
box→AE→ < ? name →-
box2→E→@→-
ng→A→&→-
ngbox→A→=?v→-
Box→EA→=→BadName
→EA→=→BadName
2box→EA→=→BadName
my-box→EA→=→BadName
ngBox→EA→=→BadName
box→EA→~→BadBinding
box→EA→=*→BadBinding
box→C→=→BadRestrict
box→EE→=→BadRestrict
box→→=→BadRestrict
box→C→~→BadBinding";

fn refusal(added: Result<(), DefFault>) -> &'static str {
    match added {
        Ok(()) => "-",
        Err(DefFault::BadName) => "BadName",
        Err(DefFault::BadBinding) => "BadBinding",
        Err(DefFault::BadRestrict) => "BadRestrict",
        Err(DefFault::Memory(_)) => "Memory",
    }
}

/// The refusal of a definition, and how many definitions stand then.
fn registered(alloc: Global, row: Row) -> Option<(&'static str, usize)> {
    let mut registry = Registry::new(alloc).ok()?;
    let d = definition(alloc, row).ok()?;
    let came = refusal(registry.add(d));
    Some((came, registry.definitions().len()))
}

#[test]
fn a_definition_is_registered_or_refused(rt: HostRuntime) {
    for line in DEFINITIONS.split('\n') {
        let (name, rest) = column(line);
        let (restrict, rest) = column(rest);
        let (binding, want) = column(rest);
        let row = (
            name,
            restrict,
            0,
            false,
            Asks::Isolate(binding),
            false,
            false,
        );
        let count = if want == "-" { 1 } else { 0 };
        let Some((came, stand)) = registered(rt.alloc(), row) else {
            panic!(rt; "memory");
        };
        assert!(rt; came == want && stand == count, "{line}");
    }
}
