//! The names of what the object of an event has.
ghost use Rattle.std.specs.Prelude.{◌≡◌, ◌∷◌, [], codes, IfOk};
ghost use Rattle.ng_base.specs.Word.{IsWord};

use ng_base::txt::Txt;
use std::alloc::{AllocError, Global};
use std::marker::Model;

/// The names that the object of each event has (guide: Scopes, "Scope Events Propagation"). All events share their characters.
#[derive(Drop)]
pub struct EventNames {
    name: Txt,
    target_scope: Txt,
    current_scope: Txt,
    default_prevented: Txt,
}

impl Model for EventNames {
    ghost use Rattle.std.specs.Prelude.{List, ℕ, ◌≡◌, ◌∷◌, [], codes};

    ghost Value = { List (List ℕ) };

    ghost view = { λ n. n.name ∷ n.target_scope ∷ n.current_scope ∷ n.default_prevented ∷ [] };

    ghost invariant = { λ n. (n.name ≡ codes "name") × ((n.target_scope ≡ codes "targetScope") × ((n.current_scope ≡ codes "currentScope") × (n.default_prevented ≡ codes "defaultPrevented"))) };
}

/// A word of ASCII characters as a text.
fn text_of(alloc: Global, word: &str) -> Result<Txt, AllocError>
    requires { IsWord word.now }
    ensures { IfOk result (λ t. t ≡ word.now) }
{
    let mut text = Txt::new(alloc);
    text.push_word(word)?;
    Ok(text)
}

impl EventNames {
    /// The names, made once.
    pub fn new(alloc: Global) -> Result<EventNames, AllocError>
        ensures { IfOk result (λ n. n ≡ codes "name" ∷ codes "targetScope" ∷ codes "currentScope" ∷ codes "defaultPrevented" ∷ []) }
    {
        Ok(EventNames {
            name: text_of(alloc, "name")?,
            target_scope: text_of(alloc, "targetScope")?,
            current_scope: text_of(alloc, "currentScope")?,
            default_prevented: text_of(alloc, "defaultPrevented")?,
        })
    }

    /// The name of the event's own name.
    pub fn name(&self) -> &Txt
        ensures { result.now ≡ codes "name" }
    {
        &self.name
    }

    /// The name of the scope that the event starts at.
    pub fn target_scope(&self) -> &Txt
        ensures { result.now ≡ codes "targetScope" }
    {
        &self.target_scope
    }

    /// The name of the scope that the event has reached.
    pub fn current_scope(&self) -> &Txt
        ensures { result.now ≡ codes "currentScope" }
    {
        &self.current_scope
    }

    /// The name of what `preventDefault` sets.
    pub fn default_prevented(&self) -> &Txt
        ensures { result.now ≡ codes "defaultPrevented" }
    {
        &self.default_prevented
    }
}
