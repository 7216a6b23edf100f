//! Laws of graphs: each function's contract is one, and the function does nothing.

ghost use Rattle.lower_laws.specs.LiveLaws.{ExpressionsSettle, FlowsSuffice};

/// Where each op of a function's lines has a set of variables that is closed under every line, what is live in its
/// graph is in these sets: so no temporary is live at a mark, and fixed operands die and are no other operand.
pub fn flows_suffice()
    ensures { FlowsSuffice }
{}

/// The lines of every typed expression have sets that are closed under every line: an expression uses no temporary
/// of its
/// level or of a higher one before it writes it.
pub fn expressions_settle()
    ensures { ExpressionsSettle }
{}
