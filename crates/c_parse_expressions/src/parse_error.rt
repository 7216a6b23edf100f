//! Why no tree is read.

ghost use Rattle.std.specs.Prelude.{◌≡◌};
ghost use Rattle.c_parse_expressions.specs.declared.parse_error.ParseError.TheVariants.{NoMemory as Wanting};

use pcc_base::{NoMemory, Span};

/// Why no tree is read of the tokens.
#[derive(Clone, Copy)]
pub enum ParseError {
    /// No tree of the height that is left goes on with the token at this place, or at the end of the tokens, where there
    /// is none. It is deep where some greater height would do.
    Fault { deep: bool, at: Option<Span> },
    /// There is no memory for the tree.
    NoMemory,
}

impl From<NoMemory> for ParseError {
    ghost from_gives = { λ _ error. error ≡ Wanting };

    fn from(_e: NoMemory) -> ParseError {
        ParseError::NoMemory
    }
}
