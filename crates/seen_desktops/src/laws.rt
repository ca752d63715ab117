//! What a desktop is made of.
ghost use Rattle.seen_desktops.specs.Shape.{ShapeLaw};

/// Desktops are seen as one exactly if they have one shape and the same characters.
pub fn desktops_are_shapes()
    ensures { ShapeLaw }
{}
