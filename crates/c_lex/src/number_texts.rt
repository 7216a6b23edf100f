ghost use Rattle.std.specs.Prelude.{◌≡◌, ◌≤◌, ◌<◌, ◌==◌, ◌&&◌, ◌||◌, ℕ, MatchOption, pos, length, take};
ghost use Rattle.pcc_base.specs.Ascii.{dot, minus, plus};
ghost use Rattle.c_lex.specs.Bytes.{is_digit, is_letter, number_in};
ghost use Rattle.c_lex.specs.Literals.{AllPass, StartsNumber, IsNumberText, is_exponent_letter};
ghost use Rattle.c_lex.specs.Radixes.{base_of, is_digit_of};

use crate::radix::{Radix, base_in, worth_of};

/// The greatest constant of the language.
const LIMIT: u64 = 2_147_483_647;

/// Whether a byte goes on with a preprocessing number behind another: a digit, a letter, a dot, or a sign
/// behind the letter of an exponent (C99 6.4.8).
fn goes_on(before: u8, b: u8) -> bool
    ensures { result ≡ ((is_digit b || (is_letter b || b == dot)) ||
        (is_exponent_letter before && (b == plus || b == minus))) }
{
    match b {
        b'_' | b'.' => true,
        b'+' | b'-' => matches!(before, b'e' | b'E' | b'p' | b'P'),
        _ => b.is_ascii_alphanumeric(),
    }
}

/// The length of the longest preprocessing number that begins the rest (C99 6.4.8).
pub(crate) fn number_length(rest: &[u8]) -> usize
    requires { StartsNumber rest.now }
    ensures within { result ≤ length rest.now }
    ensures text { IsNumberText (take result rest.now) }
    ensures longest { (m : ℕ) → result < m → m ≤ length rest.now → IsNumberText (take m rest.now) → ⊥ }
{
    let start = if rest[0] == b'.' { 2 } else { 1 };
    let mut before = b'0';
    for i in start..rest.len() {
        if !goes_on(before, rest[i]) {
            return i;
        }
        before = rest[i];
    }
    rest.len()
}

/// The number that digits spell in a base, and None where one is no digit of it or the number is above the
/// limit.
pub fn value_in(radix: Radix, digits: &[u8]) -> Option<i32>
    ensures { MatchOption result
        (AllPass (is_digit_of radix) digits.now → number_in (base_of radix) digits.now ≤ 2147483647 → ⊥)
        (λ z. AllPass (is_digit_of radix) digits.now × (number_in (base_of radix) digits.now ≤ 2147483647)
        × (z ≡ pos (number_in (base_of radix) digits.now))) }
{
    let base = base_in(radix);
    let mut value: u64 = 0;
    for b in digits {
        let worth = worth_of(radix, *b)?;
        value = value * base + worth;
        if value > LIMIT {
            return None;
        }
    }
    Some(value as i32)
}
