//! The law of texts: the function's contract is the law, and the function does nothing.

ghost use Rattle.c_check_laws.specs.Laws.{TextsAreSources};

/// The raw trees of texts are over tokens at different places, whose numbers are of `int`: `AreSources` of `c_typing`,
/// on which it rests that typed programs are well typed.
pub fn texts_are_sources()
    ensures { TextsAreSources }
{}
