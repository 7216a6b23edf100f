//! Laws of the lines of operators on pointers: each function's contract is one, and the function does nothing.

ghost use Rattle.lower_laws.specs.ComparisonsLaws.{NullsAreCompared, PointersAreCompared};
ghost use Rattle.lower_laws.specs.ComparisonsLaws.{TurnedNullsAreCompared};

/// The lines of an operator on two pointers do what the source does, whatever is wanted of them.
pub fn pointers_are_compared()
    ensures { PointersAreCompared }
{}

/// The lines that compare a pointer with the null constant do what the source does.
pub fn nulls_are_compared()
    ensures { NullsAreCompared }
{}

/// The lines that compare the null constant with a pointer, in this order, do what the source does.
pub fn turned_nulls_are_compared()
    ensures { TurnedNullsAreCompared }
{}
