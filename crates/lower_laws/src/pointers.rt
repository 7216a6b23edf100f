//! Laws of the lines of pointers: each function's contract is one, and the function does nothing.

ghost use Rattle.lower_laws.specs.PointersLaws.{IndexesAreAddressed, PointersAreAssigned, PointersAreRead};
ghost use Rattle.lower_laws.specs.PointersLaws.{PointersAreMoved, PointersConvert, StartsLower, SumsLower};
ghost use Rattle.lower_laws.specs.PointersLaws.{PointersAreStepped, TurnedAreAddressed, TurnedSumsLower};

/// The lines of the name of an array do what the source does, whatever is wanted of them.
pub fn starts_lower()
    ensures { StartsLower }
{}

/// The lines that read a local which is a pointer do what the source does, whatever is wanted of them.
pub fn pointers_are_read()
    ensures { PointersAreRead }
{}

/// The lines of a cast to a pointer, of one or of the null constant, do what the source does.
pub fn pointers_convert()
    ensures { PointersConvert }
{}

/// The lines of an assignment to a local which is a pointer do what the source does.
pub fn pointers_are_assigned()
    ensures { PointersAreAssigned }
{}

/// The lines of a pointer plus or minus a number do what the source does, where those of both do.
pub fn sums_lower()
    ensures { SumsLower }
{}

/// The lines of a number plus a pointer, in this order, do what the source does, where those of both do.
pub fn turned_sums_lower()
    ensures { TurnedSumsLower }
{}

/// The lines of `&a[i]` do what the source does, where those of both do.
pub fn indexes_are_addressed()
    ensures { IndexesAreAddressed }
{}

/// The lines of `&i[a]`, where the number comes first, do what the source does, where those of both do.
pub fn turned_are_addressed()
    ensures { TurnedAreAddressed }
{}

/// The lines of `p += n` and `p -= n`, where p is a local, do what the source does.
pub fn pointers_are_moved()
    ensures { PointersAreMoved }
{}

/// The lines of `++` and `--` of a local which is a pointer do what the source does.
pub fn pointers_are_stepped()
    ensures { PointersAreStepped }
{}
