//! Laws of code that follows a program of graphs: each function's contract is one, and the function does nothing.

ghost use Rattle.ia32_rows.specs.Filling.{FillGoes, ZerosLoad};
ghost use Rattle.ia32_rows.specs.Follows.{WholeRuns};
ghost use Rattle.ia32_rows.specs.Jumps.{BranchLeads, BranchPasses, JumpLeads};
ghost use Rattle.ia32_rows.specs.ShowsWorked.{InputsAreBytes, NoneAboveTheStack, NoneBeyondTheArrays};
ghost use Rattle.ia32_rows.specs.ShowsWorked.{NoneBeyondTheObjects, OldestIsMain, WaitingCalls};

/// Code that starts as its program does, and follows it step by step, has the program's outcomes in whole runs.
pub fn whole_runs()
    ensures { WholeRuns }
{}

/// A number of 2^32 is in no input that a law speaks of.
pub fn inputs_are_bytes()
    ensures { InputsAreBytes }
{}

/// An array that isn't there has no address.
pub fn arrays_are_there()
    ensures above { NoneAboveTheStack }
    ensures arrays { NoneBeyondTheArrays }
    ensures objects { NoneBeyondTheObjects }
{}

/// What a state of the machine shows of the calls that wait.
pub fn calls_wait()
    ensures waiting { WaitingCalls }
    ensures oldest { OldestIsMain }
{}

/// Where the jumps of a function lead: to what stands behind their label, or, where a condition doesn't hold, to what
/// stands behind them.
pub fn jumps_lead()
    ensures jump { JumpLeads }
    ensures taken { BranchLeads }
    ensures passed { BranchPasses }
{}

/// What a loop does that fills words with a register's word, and what is loaded from words of 0.
pub fn loops_fill()
    ensures fills { FillGoes }
    ensures zeros { ZerosLoad }
{}
