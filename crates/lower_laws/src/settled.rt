//! Laws of graphs: each function's contract is one, and the function does nothing.

ghost use Rattle.lower_laws.specs.SettledLaws.{FirstPointsHold, FunctionsSettle, LivenessHolds};

/// The lines of every typed function have sets that are closed under every line: statements, declared items and
/// parameters use no temporary before they write it.
pub fn functions_settle()
    ensures { FunctionsSettle }
{}

/// In the graphs of a typed program no temporary is live at a mark, and fixed operands die at their ops and are no
/// other operand of them.
pub fn liveness_holds()
    ensures { LivenessHolds }
{}

/// In the graphs of a typed program in which each local is declared before it is named, no variable is live at the
/// first point of a function.
pub fn first_points_hold()
    ensures { FirstPointsHold }
{}
