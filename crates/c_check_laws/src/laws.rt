//! The law of typed programs: a function's contract is the law, and the function does nothing.

ghost use Rattle.c_typing.specs.Laws.{TypedIsWellTyped};

/// Typed programs of files are well typed, where the files are raw trees of the grammar over tokens at different
/// places, whose numbers are of `int`, as those of texts are.
pub fn typed_is_well_typed()
    ensures { TypedIsWellTyped }
{}
