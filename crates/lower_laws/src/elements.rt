//! Laws of the lines of elements that are changed: each function's contract is one, and the function does nothing.

ghost use Rattle.lower_laws.specs.ElementsLaws.{ElementsAreStepped, ElementsAreUpdated};
ghost use Rattle.lower_laws.specs.ElementsLaws.{IndexesAreStepped, IndexesAreUpdated, IndexesLower};
ghost use Rattle.lower_laws.specs.ElementsLaws.{TargetsAreStepped, TargetsAreUpdated};
ghost use Rattle.lower_laws.specs.ElementsLaws.{TurnedAreStepped, TurnedAreUpdated, TurnedLower};

/// The lines of an assignment with an operator to an element do what the source does, where those of its address and of
/// the right side do.
pub fn elements_are_updated()
    ensures { ElementsAreUpdated }
{}

/// The lines of `++` and `--` of an element do what the source does, where those of its address do.
pub fn elements_are_stepped()
    ensures { ElementsAreStepped }
{}

/// The lines of `*p op= e` do what the source does, where those of both do.
pub fn targets_are_updated()
    ensures { TargetsAreUpdated }
{}

/// The lines of `++` and `--` of `*p` do what the source does, where those of the pointer do.
pub fn targets_are_stepped()
    ensures { TargetsAreStepped }
{}

/// The lines of `a[i] op= e` do what the source does, where those of all three do.
pub fn indexes_are_updated()
    ensures { IndexesAreUpdated }
{}

/// The lines of `++` and `--` of `a[i]` do what the source does, where those of both do.
pub fn indexes_are_stepped()
    ensures { IndexesAreStepped }
{}

/// The lines of `i[a] op= e`, where the number comes first, do what the source does.
pub fn turned_are_updated()
    ensures { TurnedAreUpdated }
{}

/// The lines of `++` and `--` of `i[a]`, where the number comes first, do what the source does.
pub fn turned_are_stepped()
    ensures { TurnedAreStepped }
{}

/// `a[i]` is a place whose lines do what the source does, where those of both do.
pub fn indexes_lower()
    ensures { IndexesLower }
{}

/// `i[a]`, where the number comes first, is a place whose lines do what the source does, where those of both do.
pub fn turned_lower()
    ensures { TurnedLower }
{}
