//! What comes of several parts: the least of their faults, where one fails.

ghost use Rattle.std.specs.Prelude.{◌≡◌};
ghost use Rattle.c_check_expressions.specs.Judged.{joined_answers};

use crate::fault_order::earlier;
use crate::judged::Judged;

/// Two parts: both values, or the least of the faults.
pub fn both<A: Drop, B: Drop>(a: Judged<A>, b: Judged<B>) -> Judged<(A, B)>
    ensures { result ≡ joined_answers a b }
{
    match (a, b) {
        (Judged::Fits(a), Judged::Fits(b)) => Judged::Fits((a, b)),
        (Judged::Fits(_), Judged::Fails(g)) => Judged::Fails(g),
        (Judged::Fails(f), Judged::Fits(_)) => Judged::Fails(f),
        (Judged::Fails(f), Judged::Fails(g)) => Judged::Fails(earlier(f, g)),
    }
}
