//! Laws of templates. Each function's contract is the law.
ghost use Rattle.ng_drawing.specs.Laws.{FreshDrawingIsRendering, FreshInstanceIsRendering, DrawingHasItsNodes};

/// What shows the same draws the same.
pub fn fresh_drawing_is_rendering()
    ensures { FreshDrawingIsRendering }
{}

/// An instance whose sites show what they show now, and whose outlets have the bodies that this calls for, shows its rendering.
pub fn fresh_instance_is_rendering()
    ensures { FreshInstanceIsRendering }
{}

/// The nodes of a drawing are those of its parts and of the bodies that fill its outlets.
pub fn drawing_has_its_nodes()
    ensures { DrawingHasItsNodes }
{}
