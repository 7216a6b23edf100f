ghost use Rattle.std.specs.Prelude.{◌<◌, ◌≤◌, ◌^◌, length, IfOk, IfErr};
ghost use Rattle.c_lex.specs.Tokens.{HasTokens};
ghost use Rattle.c_lex.specs.Scans.{IsRefused};

use crate::faults::fault_of;
use crate::kept::{fresh_behind, keep};
use crate::place::advance;
use crate::recent::Recent;
use crate::scanner::scan;
use crate::token::Token;
use pcc_base::{Fault, Refusal, Span};
use std::alloc::Global;

/// The tokens of a text, which is the file at this position among the sources. A fault is answered
/// exactly where the text has no tokens at the printed place and at most `most` tokens stand before it,
/// and the limit on tokens exactly where more than `most` stand before any fault.
pub fn lex(alloc: Global, file: u32, text: &[u8], most: usize) -> Result<Vec<Token>, Refusal>
    requires { length text.now < 2 ^ 32 }
    ensures tokens { IfOk result (λ tokens. HasTokens file text.now tokens.items) }
    ensures few { IfOk result (λ tokens. length tokens.items ≤ most) }
    ensures refused { IfErr result (IsRefused file text.now most) }
{
    let mut tokens = Vec::new(alloc);
    let mut at = Span {
        file,
        line: 1,
        col: 1,
    };
    let mut met = Recent::new(alloc)?;
    let mut fresh = true;
    let mut rest = text;
    while !rest.is_empty() {
        let Some((length, scanned)) = scan(alloc, &mut met, fresh, rest)? else {
            return Err(Refusal::Fault(Fault {
                kind: fault_of(rest),
                at,
            }));
        };
        let (piece, others) = rest.split_at(length);
        fresh = fresh_behind(fresh, &scanned, piece);
        keep(&mut tokens, scanned, at, most)?;
        // The place behind the whole text may have a column of 2 to the power 32.
        if others.is_empty() {
            return Ok(tokens);
        }
        at = advance(at, piece);
        rest = others;
    }
    Ok(tokens)
}
