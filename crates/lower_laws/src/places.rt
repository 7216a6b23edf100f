//! Laws of the lines of places: each function's contract is one, and the function does nothing.

ghost use Rattle.lower_laws.specs.PlacesLaws.{ArraysAreCleared, ElementsAreAssigned, ElementsAreRead};
ghost use Rattle.lower_laws.specs.PlacesLaws.{IndexesAreAssigned, IndexesAreRead, IndexesFollow};
ghost use Rattle.lower_laws.specs.PlacesLaws.{NamesAreAlike, ObjectsAreAssigned, ObjectsAreRead};
ghost use Rattle.lower_laws.specs.PlacesLaws.{ObjectsAreStepped, ObjectsAreUpdated};
ghost use Rattle.lower_laws.specs.PlacesLaws.{TargetsAreAddressed, TargetsLower};
ghost use Rattle.lower_laws.specs.PlacesLaws.{TurnedAreAssigned, TurnedAreRead, TurnedFollow};
ghost use Rattle.lower_laws.specs.PlacesLaws.{TargetsAreAssigned, TargetsAreRead, TargetsFollow};

/// The lines that read an element do what the source does, where those of its address do.
pub fn elements_are_read()
    ensures { ElementsAreRead }
{}

/// The lines of the address of what a pointer goes to do what the source does, where those of the pointer do.
pub fn targets_follow()
    ensures { TargetsFollow }
{}

/// The lines that read what a pointer goes to do what the source does, where those of the pointer do.
pub fn targets_are_read()
    ensures { TargetsAreRead }
{}

/// The lines that read a static object that is no array do what the source does.
pub fn objects_are_read()
    ensures { ObjectsAreRead }
{}

/// The lines that assign a number to a static object that is no array do what the source does.
pub fn objects_are_assigned()
    ensures { ObjectsAreAssigned }
{}

/// The lines of an assignment with an operator to a static object that is no array do what the source does.
pub fn objects_are_updated()
    ensures { ObjectsAreUpdated }
{}

/// The lines of `++` and `--` of a static object that is no array do what the source does.
pub fn objects_are_stepped()
    ensures { ObjectsAreStepped }
{}

/// The lines that assign a number to an element do what the source does, where those of its address and of the value
/// do.
pub fn elements_are_assigned()
    ensures { ElementsAreAssigned }
{}

/// The lines that assign a number to what a pointer goes to do what the source does, where those of both do.
pub fn targets_are_assigned()
    ensures { TargetsAreAssigned }
{}

/// The lines of the address of `a[i]` do what the source does, where those of both do.
pub fn indexes_follow()
    ensures { IndexesFollow }
{}

/// The lines that read `a[i]` do what the source does, where those of both do.
pub fn indexes_are_read()
    ensures { IndexesAreRead }
{}

/// The lines that assign a number to `a[i]` do what the source does, where those of all three do.
pub fn indexes_are_assigned()
    ensures { IndexesAreAssigned }
{}

/// The array of a name is the same on both sides.
pub fn names_are_alike()
    ensures { NamesAreAlike }
{}

/// An array of the youngest call becomes zero on both sides.
pub fn arrays_are_cleared()
    ensures { ArraysAreCleared }
{}

/// The lines of `&*p` do what the source does, where those of the pointer do.
pub fn targets_are_addressed()
    ensures { TargetsAreAddressed }
{}

/// What a pointer goes to is a place whose lines do what the source does, where those of the pointer do.
pub fn targets_lower()
    ensures { TargetsLower }
{}

/// The lines of the address of `i[a]`, where the number comes first, do what the source does, where those of both do.
pub fn turned_follow()
    ensures { TurnedFollow }
{}

/// The lines that read `i[a]`, where the number comes first, do what the source does.
pub fn turned_are_read()
    ensures { TurnedAreRead }
{}

/// The lines that assign a number to `i[a]`, where the number comes first, do what the source does.
pub fn turned_are_assigned()
    ensures { TurnedAreAssigned }
{}
