//! The law of answers: the function's contract is the law, and the function does nothing.

ghost use Rattle.c_check.specs.Laws.{OneAnswer};

/// Files are accepted with one program, or refused with one fault, or with one limit, and no two of these.
pub fn one_answer()
    ensures { OneAnswer }
{}
