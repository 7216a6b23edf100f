//! Laws of calls: each function's contract is one, and the function does nothing of its own.

ghost use Rattle.lower_laws.specs.CallsLaws.{BodiesLeaveSo, CallsAreFresh, CallsGoBack, ParametersAreTaken};
ghost use Rattle.lower_laws.specs.CallsLaws.{ProgramsLowerSo, StatementsAreOwn, WordsAreRead};
ghost use Rattle.lower_lines.specs.Laws.{CallsLower};

use crate::statements_laws::bodies_lower;
use lower_lines::all_lines_close;

/// A body is left by `break` and `continue` only where they may stand, and returns values in the type of its result
/// (C99 6.8.6).
pub fn bodies_leave_so()
    ensures { BodiesLeaveSo }
{}

/// The statements of a function's body are its own, by their numbers.
pub fn statements_are_own()
    ensures { StatementsAreOwn }
{}

/// A call that has just begun shows the source's without its arguments.
pub fn calls_are_fresh()
    ensures { CallsAreFresh }
{}

/// A call that is over leaves its caller where it was, and shows the source's calls without the youngest.
pub fn calls_go_back()
    ensures { CallsGoBack }
{}

/// Variables that hold arguments have their words.
pub fn words_are_read()
    ensures { WordsAreRead }
{}

/// Parameters take their argument words, each in its type (C99 6.5.2.2p7).
pub fn parameters_are_taken()
    ensures { ParametersAreTaken }
{}

/// Calls over every bound do what the op of a call does, where the lines of each function close, and those of bodies
/// and expressions do what the source does (C99 6.5.2.2).
pub fn calls_lower()
    ensures { CallsLower }
{}

/// Lowering keeps the outcome of every typed program in memory, where the lines of expressions do what the source does.
pub fn programs_lower()
    ensures { ProgramsLowerSo }
{
    all_lines_close();
    bodies_lower();
}
