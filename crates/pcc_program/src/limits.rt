//! A law of the limits on typed programs, and an example: each function's contract is one, and the function does
//! nothing.

ghost use Rattle.lower_lines.specs.Words.{IsInMemory};
ghost use Rattle.lower_lines.specs.Worked.{walks};
ghost use Rattle.pcc_program.specs.LimitLaws.{LimitsBound};

/// A program that is above no limit is one in memory as lowering asks for it, where its constants are of 32 bits, items
/// declare its arrays, and its tokens are few.
pub fn limits_bound()
    ensures { LimitsBound }
{}

/// A small program with a pointer, a string and a loop (`specs/Worked.antt` of `lower_lines`) is one in memory.
pub fn worked_example()
    ensures { IsInMemory walks }
{}
