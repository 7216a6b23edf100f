ghost use Rattle.std.specs.Prelude.{◌≡◌};
ghost use Rattle.pcc_base.specs.Faults.{number_of, name_of};

use crate::keyword::Keyword;
use crate::span::Span;

/// The rule of the source language that fails.
#[derive(Clone, Copy, Debug, PartialEq, Eq)]
pub enum FaultKind {
    /// A byte begins no token.
    BadByte,
    /// A preprocessing number (C99 6.4.8) is no constant of the language.
    BadNumber,
    /// A comment, character or string isn't closed.
    Unclosed,
    /// An escape is unknown or its value above 255, or a character constant doesn't hold one
    /// character.
    BadEscape,
    /// The tokens are no program.
    Syntax,
    /// A keyword of C99 that the language leaves out.
    Unsupported(Keyword),
    /// The program is nested too deep.
    TooDeep,
    /// A name is declared again against the scope rules (C99 6.2.1, 6.7).
    Redeclared,
    /// A name is used without a declaration before it.
    Undeclared,
    /// The types of a construct fit no rule.
    TypeRule,
    /// The left of an assignment, `++` or `--` is no variable or element (C99 6.5.16).
    NotAssignable,
    /// A call has another number of arguments than its function has parameters (C99 6.5.2.2).
    ArgumentCount,
    /// The size of an array (C99 6.7.5.2).
    ArraySize,
    /// A list, string or constant of an initialiser (C99 6.7.8).
    Initialiser,
    /// `break` outside a loop and a switch, `continue` outside a loop (C99 6.8.6).
    Jump,
    /// A label of a switch (C99 6.8.4.2).
    CaseLabel,
    /// A pointer where none is allowed.
    PointerUse,
    /// No function `int main(void)` is defined (C99 5.1.2.2.1).
    NoMain,
    /// A function that is called, or an object that is used, has no definition (C99 6.9).
    NoBody,
    /// A file is the text of no board.
    BadBoard,
}

impl FaultKind {
    /// The number that is printed.
    pub fn number(self) -> u8
        ensures { result ≡ number_of self }
    {
        match self {
            FaultKind::BadByte => 1,
            FaultKind::BadNumber => 2,
            FaultKind::Unclosed => 3,
            FaultKind::BadEscape => 4,
            FaultKind::Syntax => 5,
            FaultKind::Unsupported(_) => 6,
            FaultKind::TooDeep => 7,
            FaultKind::Redeclared => 8,
            FaultKind::Undeclared => 9,
            FaultKind::TypeRule => 10,
            FaultKind::NotAssignable => 11,
            FaultKind::ArgumentCount => 12,
            FaultKind::ArraySize => 13,
            FaultKind::Initialiser => 14,
            FaultKind::Jump => 15,
            FaultKind::CaseLabel => 16,
            FaultKind::PointerUse => 17,
            FaultKind::NoMain => 18,
            FaultKind::NoBody => 19,
            FaultKind::BadBoard => 25,
        }
    }

    /// The name that is printed.
    pub fn name(self) -> &'static str
        ensures { result.now ≡ name_of self }
    {
        match self {
            FaultKind::BadByte => "BadByte",
            FaultKind::BadNumber => "BadNumber",
            FaultKind::Unclosed => "Unclosed",
            FaultKind::BadEscape => "BadEscape",
            FaultKind::Syntax => "Syntax",
            FaultKind::Unsupported(_) => "Unsupported",
            FaultKind::TooDeep => "TooDeep",
            FaultKind::Redeclared => "Redeclared",
            FaultKind::Undeclared => "Undeclared",
            FaultKind::TypeRule => "Type",
            FaultKind::NotAssignable => "NotAssignable",
            FaultKind::ArgumentCount => "ArgumentCount",
            FaultKind::ArraySize => "ArraySize",
            FaultKind::Initialiser => "Initialiser",
            FaultKind::Jump => "Jump",
            FaultKind::CaseLabel => "CaseLabel",
            FaultKind::PointerUse => "PointerUse",
            FaultKind::NoMain => "NoMain",
            FaultKind::NoBody => "NoBody",
            FaultKind::BadBoard => "BadBoard",
        }
    }
}

/// A fault of a source, and where it stands.
#[derive(Clone, Copy, Debug)]
pub struct Fault {
    pub kind: FaultKind,
    pub at: Span,
}
