ghost use Rattle.map_lines.specs.VisitsLaws.{NoneBetween, FunctionsFound, FramesFound};
ghost use Rattle.map_lines.specs.VisitsLaws.{ArraysFound};

/// Between a call's point and its return address no point of the program stands, so the function of the point with the
/// greatest address below the return address is the one that calls. The frames at a mark are those of the active calls,
/// each with its function.
pub fn frames_are_found()
    ensures between { NoneBetween }
    ensures functions { FunctionsFound }
    ensures frames { FramesFound }
{}

/// The array that is found by its address is that array: a static object, or a frame array of an active call.
pub fn arrays_are_found()
    ensures { ArraysFound }
{}
