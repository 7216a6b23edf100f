ghost use Rattle.std.specs.Prelude.{◌≡◌, ◌≢◌, ◌<◌, ◌+◌, ◌∷◌, ℕ, List, Bool, MatchOption, length, slice_index};
ghost use Rattle.pcc_base.specs.Ascii.{slash, star};
ghost use Rattle.c_lex.specs.Scans.{IsFound};

use crate::scanned::Scanned;
use crate::spaces_and_lines::line_length;
use crate::token::{Punct, TokenKind};

/// Where the first `*/` stands.
fn comment_end(body: &[u8]) -> Option<usize>
    ensures { MatchOption result
        ((j : ℕ) → j + 1 < length body.now → slice_index body.now j ≡ star → slice_index body.now (j + 1) ≢ slash)
        (λ k. (k + 1 < length body.now) × (slice_index body.now k ≡ star) × (slice_index body.now (k + 1) ≡ slash)
        × ((j : ℕ) → j < k → slice_index body.now j ≡ star → slice_index body.now (j + 1) ≢ slash)) }
{
    for i in 1..body.len() {
        if body[i - 1] == b'*' && body[i] == b'/' {
            return Some(i - 1);
        }
    }
    None
}

/// The comment (C99 6.4.9), `/` or `/=` that begins the rest, and None where a comment isn't closed.
pub(crate) fn slash_at(rest: &[u8]) -> Option<(usize, Scanned)>
    requires { (others : List ℕ) × (rest.now ≡ slash ∷ others) }
    ensures { (fresh : Bool) → IsFound fresh rest.now result }
{
    if rest.len() < 2 {
        return Some((1, Scanned::Token(TokenKind::Mark(Punct::Slash))));
    }
    if rest[1] == b'/' {
        return Some((line_length(rest), Scanned::Comment));
    }
    if rest[1] == b'*' {
        let end = comment_end(&rest[2..])?;
        return Some((end + 4, Scanned::Comment));
    }
    if rest[1] == b'=' {
        return Some((2, Scanned::Token(TokenKind::Mark(Punct::SlashEqual))));
    }
    Some((1, Scanned::Token(TokenKind::Mark(Punct::Slash))))
}
