//! What was read: an expression, or values, with its height.

ghost use Rattle.std.specs.Prelude.{◌≡◌};

use crate::parse_error::ParseError;
use c_syntax::Expression;
use pcc_base::Span;

/// An expression that was read, and its height.
#[derive(Drop)]
pub struct Found {
    pub tree: Box<Expression>,
    pub height: u32,
}

impl Found {
    /// Lets the tree go, since a part behind it is refused. A drop in place would take its room in the frame of
    /// whoever reads the nest.
    #[inline(never)]
    pub fn refused(self, error: ParseError) -> ParseError
        ensures { result ≡ error }
    {
        drop(self);
        error
    }
}

/// Values, the commas between them, and the greatest of their heights.
#[derive(Drop)]
pub struct Values {
    pub values: Vec<Expression>,
    pub commas: Vec<Span>,
    pub height: u32,
}

impl Values {
    /// Lets the values go, since a part behind them is refused.
    #[inline(never)]
    pub fn refused(self, error: ParseError) -> ParseError
        ensures { result ≡ error }
    {
        drop(self);
        error
    }
}
