ghost use Rattle.std.specs.Prelude.{◌≡◌, ◌≢◌, ◌<◌, ◌≤◌, [], ◌∷◌, ℕ, List, Bool, IsFalse, MatchOption, length, take};
ghost use Rattle.pcc_base.specs.Ascii.{apostrophe, double_quote, hash, slash};
ghost use Rattle.c_lex.specs.Bytes.{is_letter, is_space};
ghost use Rattle.c_lex.specs.Literals.{StartsNumber};
ghost use Rattle.c_lex.specs.Scans.{IsFound, IsMarkOf};
ghost use Rattle.c_lex.specs.Spellings.{IsMark};

use crate::scanned::Scanned;
use crate::short_marks::{mark_of_one, mark_of_two};
use crate::token::{Punct, TokenKind};

/// The punctuator of three bytes (C99 6.4.6).
fn mark_of_three(first: u8, second: u8, third: u8) -> Option<Punct>
    ensures { IsMarkOf (first ∷ second ∷ third ∷ []) result }
{
    match (first, second, third) {
        (b'.', b'.', b'.') => Some(Punct::Ellipsis),
        (b'<', b'<', b'=') => Some(Punct::ShiftLeftEqual),
        (b'>', b'>', b'=') => Some(Punct::ShiftRightEqual),
        _ => None,
    }
}

/// The longest punctuator that begins the rest and its length, and None where none does.
fn longest_at(rest: &[u8]) -> Option<(usize, Punct)>
    ensures { MatchOption result
        ((mark : Punct) (n : ℕ) → n ≤ length rest.now → IsMark mark (take n rest.now) → ⊥)
        (λ found. (0 < found.0) × (found.0 ≤ length rest.now) × IsMark found.1 (take found.0 rest.now)
        × ((mark : Punct) (n : ℕ) → found.0 < n → n ≤ length rest.now → IsMark mark (take n rest.now) → ⊥)) }
{
    if rest.is_empty() {
        return None;
    }
    if rest.len() > 2 {
        if let Some(mark) = mark_of_three(rest[0], rest[1], rest[2]) {
            return Some((3, mark));
        }
    }
    if rest.len() > 1 {
        if let Some(mark) = mark_of_two(rest[0], rest[1]) {
            return Some((2, mark));
        }
    }
    let mark = mark_of_one(rest[0])?;
    Some((1, mark))
}

/// The punctuator that begins the rest (C99 6.4.6), and None where none does or the rest begins with
/// `%:`. The rest begins with no letter, white space, number, quote, `/` or `#`.
pub fn mark_at(rest: &[u8]) -> Option<(usize, Scanned)>
    requires byte { (b : ℕ) × (others : List ℕ) × (rest.now ≡ b ∷ others) × IsFalse (is_letter b) × IsFalse (is_space b)
        × (b ≢ apostrophe) × (b ≢ double_quote) × (b ≢ slash) × (b ≢ hash) }
    requires number { StartsNumber rest.now → ⊥ }
    ensures { (fresh : Bool) → IsFound fresh rest.now result }
{
    if rest.starts_with(b"%:") {
        return None;
    }
    let (length, mark) = longest_at(rest)?;
    Some((length, Scanned::Token(TokenKind::Mark(mark))))
}
