//! What a reader may take from the definition of lines.
ghost use Rattle.std.specs.Prelude.{◌≡◌, ℕ, List};
ghost use Rattle.ng_script.specs.Lines.{lines, trimmed};
ghost use Rattle.ng_script.specs.Whole.{AreLines, IsInner};

/// The lines of a text, each with what ends it, are the text, and no other lines are.
pub fn lines_are_text()
    ensures spelled { (cs : List ℕ) → AreLines (lines cs) cs }
    ensures only { (ls : List (List ℕ)) (cs : List ℕ) → AreLines ls cs → lines cs ≡ ls }
{}

/// What is taken off a line are blanks at its ends, and all of them.
pub fn outer_blanks()
    ensures { (cs : List ℕ) → IsInner (trimmed cs) cs }
{}
