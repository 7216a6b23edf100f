//! Laws of the lines of statements: each function's contract is one, and the function does nothing.

ghost use Rattle.lower_lines.specs.Laws.{BodiesLower, StatementsLower};
ghost use Rattle.lower_laws.specs.Laws.{TextsLower};
ghost use Rattle.lower_laws.specs.Laws.{BlocksLower, BreaksLower};
ghost use Rattle.lower_laws.specs.Laws.{ConditionsLower, ContinuesLower, DeclarationsLower};
ghost use Rattle.lower_laws.specs.Laws.{DosLower, ElementsLower, EmptiesLower};
ghost use Rattle.lower_laws.specs.Laws.{EmptyBlocksLower, EvaluationsLower, ForsLower};
ghost use Rattle.lower_laws.specs.Laws.{ItemsLower, LastsLower, NoItemsLower};
ghost use Rattle.lower_laws.specs.Laws.{PlainReturnsLower, PlainScalarsLower, ReturnsLower};
ghost use Rattle.lower_laws.specs.Laws.{ScalarsLower, SequencesLower};
ghost use Rattle.lower_laws.specs.Laws.{SteadyScalarsLower};
ghost use Rattle.lower_laws.specs.Laws.{SwitchesLower, WhilesLower};

/// The lines of an empty statement do what the source does.
pub fn empties_lower()
    ensures { EmptiesLower }
{}

/// Those of an expression whose value is dropped do so, where those of the expression do.
pub fn evaluations_lower()
    ensures { EvaluationsLower }
{}

/// Those of a declaration do so, where those of its item do.
pub fn declarations_lower()
    ensures { DeclarationsLower }
{}

/// Those of `break` do so.
pub fn breaks_lower()
    ensures { BreaksLower }
{}

/// Those of `continue` do so.
pub fn continues_lower()
    ensures { ContinuesLower }
{}

/// Those of a return without a value do so.
pub fn plain_returns_lower()
    ensures { PlainReturnsLower }
{}

/// Those of a return of a number do so, where those of the value in its type do.
pub fn returns_lower()
    ensures { ReturnsLower }
{}

/// Those of a block without statements do so.
pub fn empty_blocks_lower()
    ensures { EmptyBlocksLower }
{}

/// Those of a last statement do so, with a label or without, where those of the statement do.
pub fn lasts_lower()
    ensures { LastsLower }
{}

/// Those of a statement before others do so, where those of both do.
pub fn sequences_lower()
    ensures { SequencesLower }
{}

/// Those of a block do so, where those of its statements in order do.
pub fn blocks_lower()
    ensures { BlocksLower }
{}

/// Those of an `if` do so, where those of its condition and of both statements do.
pub fn conditions_lower()
    ensures { ConditionsLower }
{}

/// Those of a `while` do so, where those of its test and its body do.
pub fn whiles_lower()
    ensures { WhilesLower }
{}

/// Those of a `for` do so, where those of its parts do.
pub fn fors_lower()
    ensures { ForsLower }
{}

/// Those of a `do` do so, where those of its body and its test do.
pub fn dos_lower()
    ensures { DosLower }
{}

/// Those of a declared scalar without an initialiser do so.
pub fn plain_scalars_lower()
    ensures { PlainScalarsLower }
{}

/// Those of one with an initialiser do so, where those of its assignment do.
pub fn scalars_lower()
    ensures { ScalarsLower }
{}

/// So do those of one whose initialiser reads no local, which have no zero before it.
pub fn steady_scalars_lower()
    ensures { SteadyScalarsLower }
{}

/// No lines do what no items do.
pub fn no_items_lower()
    ensures { NoItemsLower }
{}

/// Those of a declared item before others do so, where those of both do.
pub fn items_lower()
    ensures { ItemsLower }
{}

/// Those of a `switch` do so, where those of its value and of its statements do.
pub fn switches_lower()
    ensures { SwitchesLower }
{}

/// Those of a declared array with elements do so, where those of expressions do.
pub fn elements_lower()
    ensures { ElementsLower }
{}

/// A declared array that a string initialises does what the source does: a loop of the graph copies the string.
pub fn texts_lower()
    ensures { TextsLower }
{}

/// Every statement's lines do what the source does, given those of expressions.
pub fn statements_lower()
    ensures { StatementsLower }
{}

/// So do those of every body.
pub fn bodies_lower()
    ensures { BodiesLower }
{}
