//! The law of lowering, which puts those of calls and expressions together.

ghost use Rattle.lower_lines.specs.Laws.{ProgramsLower};

use crate::calls_laws::programs_lower;
use crate::whole::expressions_lower;

/// Lowering keeps the outcome of every typed program in memory, over every input and in any number of turns
/// (C99 5.1.2.3).
pub fn all_programs_lower()
    ensures { ProgramsLower }
{
    expressions_lower();
    programs_lower();
}
