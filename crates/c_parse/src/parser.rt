ghost use Rattle.std.specs.Prelude.{◌≤◌, ℕ, IfOk, IfErr};
ghost use Rattle.c_syntax.specs.Grammar.{Tree};
ghost use Rattle.c_syntax.specs.Statements.{unit_of};
ghost use Rattle.c_parse.specs.ParserRefusals.{IsRefused, NoneUnsupported};

use crate::externals::unit;
use crate::keywords::first_outside;
use c_lex::Token;
use c_parse_expressions::{Cursor, Height, ParseError};
use c_syntax::RawUnit;
use pcc_base::{Fault, FaultKind, Refusal, Span};
use std::alloc::Global;

/// The one raw tree of the tokens, of height at most 256. The end is the place behind the last token: there
/// stands a fault at the end of the file. A fault stands at the first token with which the tokens before it begin no
/// program of this height, TooDeep where some greater height would do.
pub fn parse(alloc: Global, tokens: &Vec<Token>, end: Span) -> Result<RawUnit, Refusal>
    ensures tree { IfOk result (λ unit. (h : ℕ) × (h ≤ 256) × Tree tokens.now.items h (unit_of unit)) }
    ensures inside { IfOk result (λ _. NoneUnsupported tokens.now.items) }
    ensures refused { IfErr result (IsRefused tokens.now.items end) }
{
    let tokens = tokens.as_slice();
    if let Some((word, at)) = first_outside(tokens) {
        return Err(Refusal::Fault(Fault {
            kind: FaultKind::Unsupported(word),
            at,
        }));
    }
    let mut cursor = Cursor {
        alloc,
        rest: tokens,
    };
    match unit(&mut cursor, Height::whole()) {
        Ok(unit) => Ok(unit),
        Err(ParseError::Fault { deep, at }) => Err(Refusal::Fault(Fault {
            kind: if deep {
                FaultKind::TooDeep
            } else {
                FaultKind::Syntax
            },
            at: at.unwrap_or(end),
        })),
        Err(ParseError::NoMemory) => Err(Refusal::NoMemory),
    }
}
