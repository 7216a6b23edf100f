//! Laws of the relation between states: each function's contract is one, and the function does nothing.

ghost use Rattle.lower_lines.specs.RelationLaws.{ArraysAreReached, ArraysAreSet, ArraysAreThere, ArraysFit};
ghost use Rattle.lower_lines.specs.RelationLaws.{KeptByArrays, BytesAreTaken, BytesAreWritten, KeptBelow, KeptByChange};
ghost use Rattle.lower_lines.specs.RelationLaws.{KeptTwice, LocalsAreHeld, NumbersAreSet, PointersAreSet};
ghost use Rattle.lower_lines.specs.RelationLaws.{TemporariesAreFree, TurnsAndVisitsAreFree};

/// A temporary that changes is none of what the source shows.
pub fn temporaries_are_free()
    ensures { TemporariesAreFree }
{}

/// The variables of a local hold its value, which is of its type.
pub fn locals_are_held()
    ensures { LocalsAreHeld }
{}

/// A number goes to a local by its one variable.
pub fn numbers_are_set()
    ensures { NumbersAreSet }
{}

/// A pointer goes to a local by its two variables.
pub fn pointers_are_set()
    ensures { PointersAreSet }
{}

/// A byte is written on both sides.
pub fn bytes_are_written()
    ensures { BytesAreWritten }
{}

/// A byte is taken on both sides.
pub fn bytes_are_taken()
    ensures { BytesAreTaken }
{}

/// What is shown depends neither on turns and visits, nor on where a graph stands.
pub fn turns_are_free()
    ensures { TurnsAndVisitsAreFree }
{}

/// What lines keep, they keep one after another.
pub fn kept_twice()
    ensures { KeptTwice }
{}

/// What is kept at a level is kept at a lower one.
pub fn kept_below()
    ensures { KeptBelow }
{}

/// A variable that is no temporary below the level may change.
pub fn kept_by_change()
    ensures { KeptByChange }
{}

/// An array that a typed pointer names is there, with the elements that the source has.
pub fn arrays_are_there()
    ensures { ArraysAreThere }
{}

/// An access of its type reaches these elements.
pub fn arrays_are_reached()
    ensures { ArraysAreReached }
{}

/// The elements of an array that a typed pointer names are numbers of its type.
pub fn arrays_fit()
    ensures { ArraysFit }
{}

/// An array gets other elements of its type on both sides, as many as before.
pub fn arrays_are_set()
    ensures { ArraysAreSet }
{}

/// Where an array gets other elements, all temporaries are kept.
pub fn kept_by_arrays()
    ensures { KeptByArrays }
{}
