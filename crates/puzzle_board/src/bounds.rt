//! Laws of counts: each function's contract is one, and the function does nothing.

ghost use Rattle.puzzle_board.specs.Bounds.{SolvableIsBounded};

/// A puzzle that has a legal placement keeps the bounds.
pub fn solvable_is_bounded()
    ensures { SolvableIsBounded }
{}
