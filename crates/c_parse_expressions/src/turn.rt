//! Turns of the loops over expressions and values.

use crate::found::{Found, Values};

/// One turn of a loop over an expression: one part more, or the end.
#[derive(Drop)]
pub(crate) enum Turn {
    More(Found),
    Last(Found),
}

/// One turn of a loop over values: one value more, or the end.
#[derive(Drop)]
pub enum ValuesTurn {
    MoreValues(Values),
    LastValues(Values),
}
