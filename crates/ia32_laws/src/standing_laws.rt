ghost use Rattle.ia32_laws.specs.StandingLaws.{FunctionsStand, EntriesStand, StartsStand};
ghost use Rattle.ia32_laws.specs.StandingLaws.{PointsStand, RowsStand, LabelsStand};
ghost use Rattle.ia32_laws.specs.StandingLaws.{PointsApart, MarksAreNops, OthersAreClear};
ghost use Rattle.ia32_laws.specs.StandingLaws.{CallsStand, CallsReturn, MarkedStand, MarksSayWhere};
ghost use Rattle.ia32_laws.specs.StandingLaws.{StepsFollow};

/// The items of each function stand in the text from its address on; there its prologue stands, behind it the numbers
/// of its arrays' elements are set, and then comes the first point of its first block. The start stands where the text
/// begins, and its call returns to its ending.
pub fn functions_stand()
    ensures functions { FunctionsStand }
    ensures entries { EntriesStand }
    ensures start { StartsStand }
{}

/// At the address of each point of any function the row of its op stands, and behind it the next point of its block;
/// and behind each block's label its first point.
pub fn points_stand()
    ensures points { PointsStand }
    ensures rows { RowsStand }
    ensures blocks { LabelsStand }
{}

/// No two points of the program stand at one address; a NOP stands at that of each mark and turn, and at that of no
/// other point.
pub fn points_are_apart()
    ensures apart { PointsApart }
    ensures nops { MarksAreNops }
    ensures clear { OthersAreClear }
{}

/// The items of a call stand at its point, and what is behind its call instruction stands where the call returns to.
pub fn calls_lead_back()
    ensures calls { CallsStand }
    ensures returns { CallsReturn }
    ensures marked { MarkedStand }
    ensures marks { MarksSayWhere }
{}

/// From every state that shows one of the program the machine follows the program's step, but for calls and returns.
pub fn steps_are_followed()
    ensures { StepsFollow }
{}
