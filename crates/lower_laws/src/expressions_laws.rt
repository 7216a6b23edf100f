//! Laws of the lines of expressions: each function's contract is one, and the function does nothing.

ghost use Rattle.lower_laws.specs.ExpressionsLaws.{NumbersPass};
ghost use Rattle.lower_laws.specs.ExpressionsLaws.{NumberCallsLower};
ghost use Rattle.lower_laws.specs.ExpressionsLaws.{BytesCount};
ghost use Rattle.lower_laws.specs.ExpressionsLaws.{VoidsLower};
ghost use Rattle.lower_laws.specs.Walk.{NumbersLower};
ghost use Rattle.lower_laws.specs.ExpressionsLaws.{PlusesLower};
ghost use Rattle.lower_laws.specs.ExpressionsLaws.{ChoicesLower, ConditionalsLower};
ghost use Rattle.lower_laws.specs.ExpressionsLaws.{OrsLower};
ghost use Rattle.lower_laws.specs.ExpressionsLaws.{AndsLower};
ghost use Rattle.lower_laws.specs.ExpressionsLaws.{NotsLower};
ghost use Rattle.lower_laws.specs.ExpressionsLaws.{StepsLower};
ghost use Rattle.lower_laws.specs.ExpressionsLaws.{UpdatesLower};
ghost use Rattle.lower_laws.specs.ExpressionsLaws.{CommasLower};
ghost use Rattle.lower_laws.specs.ExpressionsLaws.{ExitsLower};
ghost use Rattle.lower_laws.specs.ExpressionsLaws.{PutcharsLower};
ghost use Rattle.lower_laws.specs.ExpressionsLaws.{AssignsLower};
ghost use Rattle.lower_laws.specs.ExpressionsLaws.{CastsLower};
ghost use Rattle.lower_laws.specs.ExpressionsLaws.{BinariesLower, CharsLower, ComplementsLower, ConstantsLower};
ghost use Rattle.lower_laws.specs.ExpressionsLaws.{GetcharLowers, LocalsLower, MinusesLower};

/// The lines of a constant do what the source does, whatever is wanted of it.
pub fn constants_lower()
    ensures { ConstantsLower }
{}

/// The lines that read a local of type `char` do what the source does.
pub fn chars_lower()
    ensures { CharsLower }
{}

/// The lines of `getchar` do what the source does.
pub fn getchar_lowers()
    ensures { GetcharLowers }
{}

/// The lines that read a local of the types `short` and `int` do what the source does.
pub fn locals_lower()
    ensures { LocalsLower }
{}

/// The lines of `-` do what the source does, where those of its operand do.
pub fn minuses_lower()
    ensures { MinusesLower }
{}

/// The lines of `~` do what the source does, where those of its operand do.
pub fn complements_lower()
    ensures { ComplementsLower }
{}

/// The lines of an operator on two numbers do what the source does, where those of its operands do.
pub fn binaries_lower()
    ensures { BinariesLower }
{}

/// The lines of a cast to an integer type do what the source does, where those of its operand do.
pub fn casts_lower()
    ensures { CastsLower }
{}

/// The lines of an assignment to a local of an integer type do what the source does.
pub fn assigns_lower()
    ensures { AssignsLower }
{}

/// The lines of `putchar` do what the source does, where those of its argument do.
pub fn putchars_lower()
    ensures { PutcharsLower }
{}

/// The lines of `exit` do what the source does, where those of its argument do.
pub fn exits_lower()
    ensures { ExitsLower }
{}

/// The lines of a comma do what the source does, where those of its operands do.
pub fn commas_lower()
    ensures { CommasLower }
{}

/// The lines of an assignment with an operator to a local of an integer type do what the source does.
pub fn updates_lower()
    ensures { UpdatesLower }
{}

/// The lines of `++` and `--` of a local of an integer type do what the source does.
pub fn steps_lower()
    ensures { StepsLower }
{}

/// The lines of `!` do what the source does, where those of its operand do.
pub fn nots_lower()
    ensures { NotsLower }
{}

/// The lines of `&&` do what the source does, where those of its operands do.
pub fn ands_lower()
    ensures { AndsLower }
{}

/// The lines of `||` do what the source does, where those of its operands do.
pub fn ors_lower()
    ensures { OrsLower }
{}

/// The lines of `?:` do what the source does, where its test does and both other operands do as they are converted to
/// its type.
pub fn choices_lower()
    ensures { ChoicesLower }
{}

/// The lines of `?:` with numbers do what the source does, where those of its operands do.
pub fn conditionals_lower()
    ensures { ConditionalsLower }
{}

/// The lines of the unary `+` do what the source does, where those of its operand do.
pub fn pluses_lower()
    ensures { PlusesLower }
{}

/// The lines of every typed expression of numbers do what the source does, where calls follow (`specs/Numeric.antt`).
pub fn numbers_lower()
    ensures { NumbersLower }
{}

/// The lines of a cast to void do what the source does, where those of its operand do.
pub fn voids_lower()
    ensures { VoidsLower }
{}

/// The lowest byte of a number is the same count of a shift.
pub fn bytes_count()
    ensures { BytesCount }
{}

/// The lines of a call of a function of numbers do what the source does, given that calls follow and its arguments
/// lower.
pub fn number_calls_lower()
    ensures { NumberCallsLower }
{}

/// The lines of arguments that are numbers, for parameters that are, do what the source does.
pub fn numbers_pass()
    ensures { NumbersPass }
{}
