//! What is kept behind a piece: the tokens so far, and whether a line may be skipped there.

ghost use Rattle.std.specs.Prelude.{◌≡◌, ◌⊎◌, ◌<◌, ◌≤◌, ◌+◌, ◌^◌, ◌++◌, length, IfOk, IfErr};
ghost use Rattle.pcc_base.specs.declared.refusal.Limit.TheVariants.{Tokens};
ghost use Rattle.pcc_base.specs.declared.refusal.Refusal.TheVariants.{Limit as AboveLimit, NoMemory as Refused};
ghost use Rattle.c_lex.specs.Tokens.{fresh_after, tokens_of};
ghost use Rattle.c_lex.specs.Scans.{piece_of};

use crate::scanned::Scanned;
use crate::token::Token;
use pcc_base::{Limit, Refusal, Span};

/// Appends the token that the piece is, if it is one, where it stands at this place. The refusals are
/// the limit on tokens and want of memory.
pub fn keep(tokens: &mut Vec<Token>, scanned: Scanned, at: Span, most: usize) -> Result<(), Refusal>
    requires few { length tokens.old.items ≤ most }
    requires counted { length tokens.old.items < 2 ^ 32 }
    ensures kept { IfOk result (λ _. tokens.new.items ≡ tokens.old.items ++ tokens_of (piece_of scanned) at) }
    ensures few { IfOk result (λ _. length tokens.new.items ≤ most) }
    ensures refused { IfErr result (λ e. (e ≡ Refused)
        ⊎ ((e ≡ AboveLimit (Tokens (most + 1)))
        × (length (tokens.old.items ++ tokens_of (piece_of scanned) at) ≡ most + 1))) }
{
    match scanned {
        Scanned::Space | Scanned::Comment | Scanned::Skipped => Ok(()),
        Scanned::Token(kind) => {
            if tokens.len() == most {
                return Err(Refusal::Limit(Limit::Tokens(most as u64 + 1)));
            }
            match tokens.push(Token { kind, at }) {
                Ok(()) => Ok(()),
                Err(_) => Err(Refusal::NoMemory),
            }
        }
    }
}

/// Whether a line may be skipped behind a piece with these bytes, where one might be before it (`fresh`).
pub(crate) fn fresh_behind(fresh: bool, scanned: &Scanned, bytes: &[u8]) -> bool
    requires { 0 < length bytes.now }
    ensures { result ≡ fresh_after fresh (piece_of scanned.now) bytes.now }
{
    match scanned {
        Scanned::Space => bytes[0] == b'\n' || (fresh && (bytes[0] == b' ' || bytes[0] == b'\t')),
        Scanned::Comment | Scanned::Skipped | Scanned::Token(_) => false,
    }
}
