//! Laws of names: each function's contract is one, and the function does nothing.

ghost use Rattle.c_check_laws.specs.IdentifiersLaws.{IdentifiersHaveNames, ProgramsHaveNames};

/// The identifiers of texts are names (C99 6.4.2.1).
pub fn identifiers_have_names()
    ensures { IdentifiersHaveNames }
{}

/// The functions of a typed program, their locals and their arrays have identifiers of its files as names.
pub fn programs_have_names()
    ensures { ProgramsHaveNames }
{}
