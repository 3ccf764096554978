//! Definitions of an application's directives (guide: Directives, "Creating Directives"; API: `$compile`).
ghost use Rattle.std.specs.Prelude.{◌≡◌, ◌++◌, ◌∷◌, [], OnOk, OnErr, IfOk, IfErr, MatchBool};
ghost use Rattle.std.specs.List.{list_all};
ghost use Rattle.std.specs.Char.{is_ascii_alphanumeric as is_alphanumeric};
ghost use Rattle.ng_base.specs.declared.fault.Memory.TheVariants.{Refused};
ghost use Rattle.ng_collect.specs.Definitions.{is_directive_name as is_directive_name_of, allows_elements as allows_elements_of, allows_attributes as allows_attributes_of, is_restrict as is_restrict_of, is_isolate as is_isolate_scope, is_child as is_child_scope, specs_of, IsBinding, AreBindings, judgement};

use crate::names::is_core;
use ng_base::fault::Memory;
use ng_base::reader::Plain;
use ng_base::txt::Txt;
use ng_bind::spec::{BindFault, Spec, binding_spec};
use std::alloc::{AllocError, Global};
use std::marker::Model;

/// The properties of an isolate scope, each with the text of its binding.
#[derive(Drop)]
pub struct Specs {
    items: Vec<(Txt, Txt)>,
}

impl Model for Specs {
    ghost use Rattle.std.specs.Prelude.{ℕ, List};

    ghost Value = { List (List ℕ × List ℕ) };

    ghost view = { λ s. s.items.items };
}

impl Specs {
    /// No property.
    pub fn new(alloc: Global) -> Specs
        ensures { result ≡ [] }
    {
        Specs {
            items: Vec::new(alloc),
        }
    }

    /// Adds a property and its binding at the end.
    pub fn push(&mut self, name: Txt, binding: Txt) -> Result<(), AllocError>
        ensures ok { OnOk result (self.new ≡ self.old ++ (name, binding) ∷ []) }
        ensures err { OnErr result (self.new ≡ self.old) }
    {
        self.items.push((name, binding))?;
        Ok(())
    }

    /// The properties in order.
    pub fn as_slice(&self) -> &[(Txt, Txt)]
        ensures { result.now ≡ self.now }
    {
        self.items.as_slice()
    }
}

/// The scope that a directive asks for: that of its element, a child of it, or an isolate one.
#[derive(Drop)]
pub enum ScopeAsk {
    Same,
    Child,
    Isolate(Specs),
}

/// A directive as an application defines it. `restrict` says whether it stands on elements (`E`), on attributes (`A`), or on both.
#[derive(Drop)]
pub struct DirectiveDef {
    pub name: Txt,
    pub restrict: Txt,
    pub priority: i64,
    pub terminal: bool,
    pub scope: ScopeAsk,
    pub template: Option<Txt>,
    pub transclude: bool,
}

fn is_alphanumeric(mut reader: Plain<'_>) -> bool
    ensures { result ≡ list_all is_alphanumeric reader.entry }
{
    while let Some(c) = reader.next() {
        if !c.is_ascii_alphanumeric() {
            return false;
        }
    }
    true
}

/// Whether a directive may have this name: a lower-case ASCII letter, then letters and digits, and not as the core's names begin.
pub fn is_directive_name(name: &Txt) -> bool
    ensures { result ≡ is_directive_name_of name.now }
{
    match Plain::new(name.as_str()).first() {
        None => false,
        Some((c, rest)) => c.is_ascii_lowercase() && is_alphanumeric(rest) && !is_core(name),
    }
}

/// Whether a directive stands on elements.
pub(crate) fn allows_elements(restrict: &Txt) -> bool
    ensures { result ≡ allows_elements_of restrict.now }
{
    restrict.is_word("E") || restrict.is_word("EA") || restrict.is_word("AE")
}

/// Whether a directive stands on attributes.
pub(crate) fn allows_attributes(restrict: &Txt) -> bool
    ensures { result ≡ allows_attributes_of restrict.now }
{
    restrict.is_word("A") || restrict.is_word("EA") || restrict.is_word("AE")
}

/// Whether it says where a directive stands.
pub fn is_restrict(restrict: &Txt) -> bool
    ensures { result ≡ is_restrict_of restrict.now }
{
    allows_elements(restrict) || allows_attributes(restrict)
}

/// Whether it is an isolate scope.
pub(crate) fn is_isolate(scope: &ScopeAsk) -> bool
    ensures { result ≡ is_isolate_scope scope.now }
{
    match scope {
        ScopeAsk::Same => false,
        ScopeAsk::Child => false,
        ScopeAsk::Isolate(_) => true,
    }
}

/// Whether it is a child scope.
pub(crate) fn is_child(scope: &ScopeAsk) -> bool
    ensures { result ≡ is_child_scope scope.now }
{
    match scope {
        ScopeAsk::Same => false,
        ScopeAsk::Child => true,
        ScopeAsk::Isolate(_) => false,
    }
}

/// Whether a binding was read.
fn judged(answer: &Result<Spec, BindFault>) -> Result<bool, Memory>
    ensures { result ≡ judgement answer.now }
{
    match answer {
        Ok(_) => Ok(true),
        Err(BindFault::BadBinding) => Ok(false),
        Err(BindFault::Memory(_)) => Err(Memory::Refused),
    }
}

/// Whether a text is a binding.
fn is_binding(alloc: Global, text: &Txt) -> Result<bool, Memory>
    ensures binding { IfOk result (λ b. MatchBool b (IsBinding text.now) (¬ IsBinding text.now)) }
    ensures refused { IfErr result (λ e. e ≡ Refused) }
{
    let answer = binding_spec(alloc, text.as_str());
    judged(&answer)
}

fn are_bindings(alloc: Global, specs: &[(Txt, Txt)]) -> Result<bool, Memory>
    ensures bindings { IfOk result (λ b. MatchBool b (AreBindings specs.now) (¬ AreBindings specs.now)) }
    ensures refused { IfErr result (λ e. e ≡ Refused) }
{
    for spec in specs {
        if !is_binding(alloc, &spec.1)? {
            return Ok(false);
        }
    }
    Ok(true)
}

/// Whether the bindings of a scope are bindings.
pub fn is_bound(alloc: Global, scope: &ScopeAsk) -> Result<bool, Memory>
    ensures bindings { IfOk result (λ b. MatchBool b (AreBindings (specs_of scope.now)) (¬ AreBindings (specs_of scope.now))) }
    ensures refused { IfErr result (λ e. e ≡ Refused) }
{
    match scope {
        ScopeAsk::Same => Ok(true),
        ScopeAsk::Child => Ok(true),
        ScopeAsk::Isolate(specs) => are_bindings(alloc, specs.as_slice()),
    }
}
