ghost use Rattle.ia32_laws.specs.ClearsLaws.{ClearGoes};
ghost use Rattle.ia32_laws.specs.ClearsOps.{ClearFollows};

/// The row makes the words at a place of the frame 0, and leaves all else but ESI, EDI and the flags.
pub fn rows_clear()
    ensures clears { ClearGoes }
{}

/// Where a state of the machine shows one of the program at an op that clears a frame array, the machine follows the
/// op's step through the row, wherever its label stands, over any placement that supports the graph.
pub fn clears_are_followed()
    ensures clear { ClearFollows }
{}
