//! The laws of visits: each function's contract is one, and the function does nothing.

ghost use Rattle.lower_laws.specs.VisitsLaws.{GraphVisitsAreKnown, VisitsAreKnown};

use crate::calls_laws::statements_are_own;
use flow_graph::one_outcome;

/// Every value that a visit of a typed program shows is a number or a known array.
pub fn visits_are_known()
    ensures { VisitsAreKnown }
{
    statements_are_own();
}

/// So is every value that graphs show at their marks which keep the program's outcome.
pub fn graph_visits_are_known()
    ensures { GraphVisitsAreKnown }
{
    one_outcome();
    visits_are_known();
}
