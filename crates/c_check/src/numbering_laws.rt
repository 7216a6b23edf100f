//! A law of files that fit: the function's contract is the law, and the function does nothing.

ghost use Rattle.c_check.specs.NumberingLaws.{FunctionsAreDefinedOnce};

/// Where files fit, no two of the definitions that they note are of the same function (C99 6.9p5), whichever numbers
/// objects and functions have.
pub fn functions_are_defined_once()
    ensures { FunctionsAreDefinedOnce }
{}
