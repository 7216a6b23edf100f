ghost use Rattle.ia32_rows.specs.CallsLaws.{PrologueGoes, EndingHalts};

/// The prologue makes a function's frame.
pub fn functions_are_entered()
    ensures { PrologueGoes }
{}

/// What follows the start's call ends the run with the low byte of its result.
pub fn endings_halt()
    ensures { EndingHalts }
{}
