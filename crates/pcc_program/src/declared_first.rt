//! Laws of typed programs: each function's contract is a law, and the function does nothing.

ghost use Rattle.pcc_program.specs.DeclaredFirstLaws.{GrammarIsNeeded, LocalsAreDeclaredFirst};

/// In the typed program of files each local but a parameter is declared before an expression names it, and no
/// declaration stands directly in the block of a `switch` (C99 6.2.1p4 and p7, and 6.8.4.2 narrowed).
pub fn locals_are_declared_first()
    ensures { LocalsAreDeclaredFirst }
{}

/// That its files are raw trees of the grammar is needed: one in which a declaration is the arm of an `if`, and a
/// statement behind it names its local, has a typed program too.
pub fn grammar_is_needed()
    ensures { GrammarIsNeeded }
{}
