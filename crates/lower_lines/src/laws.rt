//! Laws of lines: each function's contract is one, and the function does nothing.

ghost use Rattle.std.specs.Prelude.{[], ◌∷◌};
ghost use Rattle.lower_lines.specs.Agreeing.{Agrees};
ghost use Rattle.lower_lines.specs.Worked.{branches, counts_up, falls_through, fibonacci, narrows};
ghost use Rattle.lower_lines.specs.Worked.{nests_calls, skips_and_stops, statics, steps, sum_wraps};
ghost use Rattle.lower_lines.specs.Worked.{traps, walks};

/// The graphs of small programs (`specs/Worked.antt`) have their outcomes, with every local at each mark.
pub fn worked_examples()
    ensures sum_wraps_short { Agrees sum_wraps [] 0 }
    ensures sum_wraps { Agrees sum_wraps [] 3 }
    ensures branches { Agrees branches [] 9 }
    ensures skips_and_stops_short { Agrees skips_and_stops (97 ∷ 98 ∷ []) 1 }
    ensures skips_and_stops { Agrees skips_and_stops (97 ∷ 98 ∷ []) 9 }
    ensures counts_up { Agrees counts_up [] 9 }
    ensures falls_through { Agrees falls_through [] 30 }
    ensures nests_calls { Agrees nests_calls [] 9 }
    ensures fibonacci_short { Agrees fibonacci [] 1 }
    ensures fibonacci { Agrees fibonacci [] 20 }
    ensures walks { Agrees walks [] 9 }
    ensures narrows { Agrees narrows [] 1 }
    ensures steps { Agrees steps [] 1 }
    ensures statics { Agrees statics [] 1 }
    ensures traps { Agrees traps [] 1 }
{}
