//! The templates of a page.
ghost use Rattle.std.specs.Prelude.{◌≡◌, ◌++◌, ◌∷◌, ◌<◌, ◌≤◌, [], length, false, Some, None, option_map, option_and_then, slice_get, IfOk, IfSome, OnOk, OnErr, IsNone, ◌↔◌};
ghost use Rattle.std.specs.List.{list_any};
ghost use Rattle.ng_base.specs.Meets.{Gives};
ghost use Rattle.ng_compose.specs.TplNames.{is_refused_memory, is_name, next_name};

use crate::composing::compose;
use ng_base::fault::Memory;
use ng_base::name::TplId;
use ng_base::txt::Txt;
use ng_copies::including::{Whole, included};
use ng_drawing::origin::Origin;
use ng_parts::fragment::Fragment;
use ng_parts::programs::Programs;
use ng_parts::tpl::Tpl;
use std::alloc::Global;

/// A template, and the name that `ng-include` knows it by.
#[derive(Drop)]
struct Kept {
    name: Option<Txt>,
    template: Tpl,
}

/// The templates of a page: its own, those of the application and those of its directives. A template has a name of
/// its own, by the order in which they were added. Contracts see them as the list `templates_of`, each with its name.
#[derive(Drop)]
pub struct Templates {
    items: Vec<Kept>,
    directives: Vec<Programs>,
    ghost few: { length items.items ≤ 4294967295 },
}

/// The name after as many templates.
fn next(count: usize) -> Result<TplId, Memory>
    ensures next { Gives is_refused_memory (λ t. t.0) (next_name count) result }
    ensures few { IfOk result (λ _. count < 4294967295) }
{
    if count < 4_294_967_295 {
        Ok(TplId(count as u32))
    } else {
        Err(Memory::Worn)
    }
}

/// Whether it is this name.
fn is_word(word: &Txt, name: &Option<Txt>) -> bool
    ensures { result ≡ is_name word.now name.now }
{
    match name {
        None => false,
        Some(name) => name.same(word),
    }
}

impl Templates {
    ghost use Rattle.ng_compose.specs.Kept.{templates_of, is_named, named_from};
    ghost use Rattle.ng_drawing.specs.Named.{fragment_in, including, fragment_for};
    ghost use Rattle.ng_parts.specs.ProgramsOf.{programs_of};
    ghost use Rattle.ng_compose.specs.DirectivesOf.{directives_of};
    ghost use Rattle.ng_parts.specs.FragmentOf.{fragment_of};
    ghost use Rattle.ng_drawing.specs.Numbering.{HasOrder};
    ghost use Rattle.ng_parts.specs.TemplateOf.{template_of};
    ghost use Rattle.ng_copies.specs.WholeOf.{whole_of};

    /// No template.
    pub fn new(alloc: Global) -> Templates
        ensures templates { templates_of result ≡ [] }
        ensures directives { directives_of result ≡ [] }
    {
        Templates {
            items: Vec::new(alloc),
            directives: Vec::new(alloc),
        }
    }

    /// Keeps a template under a new name. With a name of an application's template, which no other has, `ng-include` finds it by that.
    pub fn add(&mut self, name: Option<Txt>, t: Tpl) -> Result<TplId, Memory>
        ensures answer { Gives is_refused_memory (λ t. t.0) (next_name (length (templates_of self.old))) result }
        ensures added { OnOk result (templates_of self.new ≡ templates_of self.old ++ (name, template_of t) ∷ []) }
        ensures unchanged { OnErr result (templates_of self.new ≡ templates_of self.old) }
        ensures directives { directives_of self.new ≡ directives_of self.old }
    {
        let id = next(self.items.len())?;
        self.items.push(Kept { name, template: t })?;
        Ok(id)
    }

    /// Keeps the programs of a directive, behind those before.
    pub fn add_directive(&mut self, programs: Programs) -> Result<(), Memory>
        ensures added { OnOk result (directives_of self.new ≡ directives_of self.old ++ programs_of programs ∷ []) }
        ensures templates { templates_of self.new ≡ templates_of self.old }
    {
        self.directives.push(programs)?;
        Ok(())
    }

    /// The programs of a directive, by its number.
    pub fn directive(&self, n: u32) -> Option<&Programs>
        ensures { option_map (λ p. programs_of p.now) result ≡ slice_get (directives_of self.now) n }
    {
        self.directives.get(n as usize)
    }

    /// The template of a name that `add` gave.
    pub fn get(&self, t: TplId) -> &Tpl
        requires { t.0 < length (templates_of self.now) }
        ensures { option_map (λ k. k.1) (slice_get (templates_of self.now) t.0) ≡ Some (template_of result.now) }
    {
        &self.items[t.0 as usize].template
    }

    /// The fragment of a number in the template of a name.
    pub fn fragment(&self, t: TplId, n: u32) -> Option<&Fragment>
        ensures fragment { option_map (λ f. fragment_of f.now) result ≡ fragment_in (templates_of self.now) t.0 n }
        ensures order { IfSome result (λ f. HasOrder (fragment_of f.now)) }
    {
        match self.items.get(t.0 as usize) {
            None => None,
            Some(kept) => kept.template.fragment(n),
        }
    }

    /// A fragment with a template's own in it, if one is included.
    fn with_included<'a>(
        &'a self,
        alloc: Global,
        own: &'a Fragment,
        other: Option<TplId>,
    ) -> Result<Option<Whole<'a>>, Memory>
        requires { HasOrder (fragment_of own.now) }
        ensures fragment { IfOk result (λ w. option_map whole_of w ≡ including (templates_of self.now) other (fragment_of own.now)) }
        ensures order { IfOk result (λ w. IfSome w (λ x. HasOrder (whole_of x))) }
    {
        match other {
            None => Ok(Some(Whole::Kept(own))),
            Some(t) => match self.fragment(t, 0) {
                None => Ok(None),
                Some(template) => Ok(Some(included(alloc, own, template)?)),
            },
        }
    }

    /// A fragment of an origin, before the templates of directives are in it.
    fn bare(&self, alloc: Global, origin: &Origin) -> Result<Option<Whole<'_>>, Memory>
        ensures fragment { IfOk result (λ w. option_map whole_of w ≡ option_and_then (including (templates_of self.now) origin.now.included) (fragment_in (templates_of self.now) origin.now.home.template.0 origin.now.fragment)) }
        ensures order { IfOk result (λ w. IfSome w (λ x. HasOrder (whole_of x))) }
    {
        match self.fragment(origin.home.template, origin.fragment) {
            None => Ok(None),
            Some(own) => self.with_included(alloc, own, origin.included),
        }
    }

    /// The fragment that an instance is one of. One with a template in it is made each time.
    pub fn whole(&self, alloc: Global, origin: &Origin) -> Result<Option<Whole<'_>>, Memory>
        ensures fragment { IfOk result (λ w. option_map whole_of w ≡ fragment_for (templates_of self.now) origin.now) }
        ensures order { IfOk result (λ w. IfSome w (λ x. HasOrder (whole_of x))) }
    {
        match self.bare(alloc, origin)? {
            None => Ok(None),
            Some(whole) => Ok(Some(compose(self, alloc, origin.inner(alloc)?, whole)?)),
        }
    }

    /// The application's template of a name (API: ngInclude).
    pub fn named(&self, name: &Txt) -> Option<TplId>
        ensures first { option_map (λ t. t.0) result ≡ named_from 0 name.now (templates_of self.now) }
        ensures none { IsNone result ↔ (list_any (is_named name.now) (templates_of self.now) ≡ false) }
        ensures there { IfSome result (λ t. t.0 < length (templates_of self.now)) }
    {
        let mut id = 0;
        for kept in self.items.as_slice() {
            if is_word(name, &kept.name) {
                return Some(TplId(id));
            }
            id += 1;
        }
        None
    }
}
