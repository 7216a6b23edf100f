ghost use Rattle.ia32_laws.specs.StartsLaws.{DataBegin, MainIsCalled, MainIsShown, MainsAreReady};
ghost use Rattle.ia32_laws.specs.StartsLaws.{ObjectsStart, StartGoesOver};

/// In the image's first state every static object has its number of elements and its elements where they are shown, the
/// depth word is 0, and so is all else up to the stack's end.
pub fn data_begin()
    ensures { DataBegin }
{}

/// The start comes to the function that is `main`, with one call active and all static objects as they were, and from
/// there to its first point, since its first items stand there.
pub fn main_is_called()
    ensures start { StartGoesOver }
    ensures called { MainIsCalled }
    ensures shown { MainIsShown }
    ensures ready { MainsAreReady }
    ensures starts { ObjectsStart }
{}
