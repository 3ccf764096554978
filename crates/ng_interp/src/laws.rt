//! What the cuts of a text say of it.
ghost use Rattle.ng_interp.specs.Laws.{CutsSpellText};

/// The cuts in order, each as it was written, are the text.
pub fn cuts_spell_text()
    ensures { CutsSpellText }
{}
