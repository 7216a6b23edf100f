//! Laws of lines and their graph: each function's contract is one, and the function does nothing.

ghost use Rattle.lower_lines.specs.Laws.{NextStands, OpsStand, StartsStand};

/// Behind lines stands the op of the next line.
pub fn ops_stand()
    ensures { OpsStand }
{}

/// The op behind one that ends no block is that of the next line.
pub fn next_stands()
    ensures { NextStands }
{}

/// A block leads behind the line that starts it.
pub fn starts_stand()
    ensures { StartsStand }
{}
