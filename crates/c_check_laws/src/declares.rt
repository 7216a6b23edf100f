//! Laws of typed programs: each function's contract is a law, and the function does nothing.

ghost use Rattle.c_check_laws.specs.DeclaresLaws.{ArraysAreDeclared, FunctionsAreNamed};

/// An item of its own declares each array of a typed program's function (C99 6.7.5.2), so that a function has no more
/// arrays than tokens.
pub fn arrays_are_declared()
    ensures { ArraysAreDeclared }
{}

/// The functions of a typed program are those that its files define, in the order of the text (C99 6.9.1), and have
/// these names.
pub fn functions_are_named()
    ensures { FunctionsAreNamed }
{}
