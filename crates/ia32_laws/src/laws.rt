ghost use Rattle.ia32_laws.specs.Right.{ProgramsAreRight, ProgramsFollow};

/// The code of a program does what the program does, with calls and recursion, arrays and static objects, over any
/// placements that support its graphs.
pub fn programs_are_right()
    ensures follows { ProgramsFollow }
    ensures right { ProgramsAreRight }
{}
