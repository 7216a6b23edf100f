//! Laws of the lines of all expressions: each function's contract is one, and the function does nothing.

ghost use Rattle.lower_lines.specs.Laws.{ArgumentsLower, ExpressionsLower, PlacesLower};
ghost use Rattle.lower_laws.specs.WholeLaws.{AllArgumentsPass, AllCallsLower};
ghost use Rattle.lower_laws.specs.WholeLaws.{PointersAreChosen, VoidsAreChosen};

/// The lines of `?:` whose value is a pointer do what the source does, where those of its operands do.
pub fn pointers_are_chosen()
    ensures { PointersAreChosen }
{}

/// The lines of `?:` of void do what the source does, where those of its operands do.
pub fn voids_are_chosen()
    ensures { VoidsAreChosen }
{}

/// The lines of arguments do what the source does, as their parameters take them.
pub fn all_arguments_pass()
    ensures { AllArgumentsPass }
{}

/// The lines of a call do what the source does, where calls follow and its arguments do.
pub fn all_calls_lower()
    ensures { AllCallsLower }
{}

/// The lines of every typed expression do what the source does, whatever is wanted of them, where calls follow.
pub fn expressions_lower()
    ensures { ExpressionsLower }
{}

/// So do those of the arguments of every typed call.
pub fn arguments_lower()
    ensures { ArgumentsLower }
{}

/// Every typed place does what the source does: an element's address leads to where the source finds it.
pub fn places_lower()
    ensures { PlacesLower }
{}
