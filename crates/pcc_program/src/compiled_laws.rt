//! The laws of compiled programs: each function's contract is one, and the function only cites those that it rests on.

ghost use Rattle.pcc_program.specs.CompiledLaws.{CompiledDoesAs, GraphsAreShown, RightCodeIsTrue};

use crate::start::text_begins;
use flow_graph::{first_is_state, step_keeps_state};

/// Where the code of a program's graphs is right and the map is that of the code, the image of the code's text does
/// what the program does, as the map shows it, and the map is true at every point.
pub(crate) fn compiled_does_as()
    ensures { CompiledDoesAs }
{
    first_is_state();
    step_keeps_state();
    text_begins();
}

/// Where a map and an image belong to a program, the machine comes to a state that shows each one that the program's
/// graphs come to: with variables, arrays and waiting calls in the places and at the addresses that the map has.
pub fn graphs_are_shown()
    ensures { GraphsAreShown }
{
    first_is_state();
    step_keeps_state();
}

/// Where code is right, its image is true to the program's graphs at every point: the machine comes to a state that shows
/// each state that the graphs come to, in order, and makes a step at each mark and turn.
pub fn right_code_is_true()
    ensures { RightCodeIsTrue }
{
    first_is_state();
    step_keeps_state();
    text_begins();
}
