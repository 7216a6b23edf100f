//! Laws of graphs: each function's contract is one, and the function does nothing.

ghost use Rattle.lower_lines.specs.Laws.{GraphsAreThere};

/// The graphs of a typed program in memory are a program of graphs: the variables, arrays and blocks of every op are
/// there, its numbers fit, and ops name functions and static objects of the program alone.
pub fn graphs_are_there()
    ensures { GraphsAreThere }
{}
