//! A law of accepted programs: the function's contract is the law, and the function does nothing.

ghost use Rattle.pcc_program.specs.Ready.{ProgramsAreReady};

/// The typed program of texts that is within the limits is well typed, in memory as lowering asks for, and small, its
/// names are identifiers, and each local is declared before it is named.
pub fn programs_are_ready()
    ensures { ProgramsAreReady }
{}
