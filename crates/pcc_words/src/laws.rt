//! A law of the definitions: its clause is one, and the function does nothing.

ghost use Rattle.std.specs.Prelude.{ℕ, List};
ghost use Rattle.pcc_words.specs.Asked.{HasFewSources, command_of};

/// Words mean no command of more than 16 sources.
pub fn few_sources()
    ensures { (words : List (List ℕ)) → HasFewSources (command_of words) }
{}
