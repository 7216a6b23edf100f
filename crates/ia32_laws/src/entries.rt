ghost use Rattle.ia32_laws.specs.EntriesLaws.{EntriesAreReady, EntryComes};
ghost use Rattle.ia32_laws.specs.Calls.{CallComes};
ghost use Rattle.ia32_laws.specs.Returns.{ReturnFollows};

/// A function's first items stand where its call begins, and from the first of them the machine comes to a state that
/// shows the function's first point.
pub fn functions_begin()
    ensures ready { EntriesAreReady }
    ensures entry { EntryComes }
{}

/// The row of a call comes to the function's first item with the call begun, or, where too many are active, to the trap
/// of a failed check.
pub fn functions_are_called()
    ensures call { CallComes }
{}

/// A return comes back to its caller's next point with the result in its place, or, where the call was that of `main`,
/// to the end.
pub fn functions_return()
    ensures returns { ReturnFollows }
{}
