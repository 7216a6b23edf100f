ghost use Rattle.std.specs.Prelude.{◌≡◌, ◌<◌, ◌≤◌, ◌+◌, ◌*◌, ◌^◌, ◌⊎◌, nat_le, ◌∷◌, ◌==◌, if◌then◌else◌, ℕ, List, Bool};
ghost use Rattle.std.specs.Prelude.{IfOk, MatchOption, length};
ghost use Rattle.byteorder.specs.Endian.{twos_complement};
ghost use Rattle.pcc_base.specs.Ascii.{apostrophe, double_quote};
ghost use Rattle.c_lex.specs.Bytes.{is_octal_digit};
ghost use Rattle.c_lex.specs.Radixes.{base_of, is_digit_of};
ghost use Rattle.c_lex.specs.Characters.{front_of, HasFront, value_in, read_escape, read_character, IsWithin};
ghost use Rattle.c_lex.specs.Characters.{IsClosedBehind, IsNeverClosed};
ghost use Rattle.c_lex.specs.Literals.{simple_escapes};
ghost use Rattle.c_lex.specs.Scans.{IsScan};

use crate::radix::{Radix, base_in, worth_of};
use crate::recent::new_name;
use crate::scanned::Scanned;
use crate::token::TokenKind;
use pcc_base::NoMemory;
use std::alloc::Global;

/// What stands at the front of the rest of a literal: a character with its value and its number of bytes, the
/// closing quote, or neither, as where the line ends.
#[derive(Clone, Copy)]
enum Reading {
    Character(u8, usize),
    Closing,
    Faulty,
}

fn is_octal(b: u8) -> bool
    ensures { result ≡ is_octal_digit b }
{
    b >= b'0' && b <= b'7'
}

/// A number behind one more digit of a base, or the number itself where it is above 255 already.
fn appended(base: u64, number: u64, worth: u64) -> u64
    requires base { base ≤ 16 }
    requires worth { worth < 16 }
    ensures small { number ≤ 255 → result ≡ number * base + worth }
    ensures large { 255 < number → result ≡ number }
{
    if number <= 255 {
        number * base + worth
    } else {
        number
    }
}

/// The number of the digits of a base at the front, or some number above 255 where it is above, and how many
/// they are.
fn digits_front(radix: Radix, bytes: &[u8]) -> (u64, usize)
    ensures front { HasFront (base_of radix) (front_of (is_digit_of radix) bytes.now) result.0 result.1 }
    ensures within { result.1 ≤ length bytes.now }
{
    let base = base_in(radix);
    let mut number = 0;
    for (count, b) in bytes.iter().enumerate() {
        let Some(worth) = worth_of(radix, *b) else {
            return (number, count);
        };
        number = appended(base, number, worth);
    }
    (number, bytes.len())
}

/// The escapes of one letter (C99 6.4.4.4).
fn simple_escape(letter: u8) -> Option<u8>
    ensures { result ≡ value_in simple_escapes letter }
{
    match letter {
        b'\'' => Some(39),
        b'"' => Some(34),
        b'?' => Some(63),
        b'\\' => Some(92),
        b'a' => Some(7),
        b'b' => Some(8),
        b'f' => Some(12),
        b'n' => Some(10),
        b'r' => Some(13),
        b't' => Some(9),
        b'v' => Some(11),
        _ => None,
    }
}

/// The character of an octal or hexadecimal escape with such a number and so many digits.
fn coded(number: u64, count: usize, start: usize) -> Reading
    requires { start + count < 2 ^ 64 }
    ensures { result ≡ (if count == 0 then Reading.Faulty else
        (if nat_le number 255 then Reading.Character number (start + count) else Reading.Faulty)) }
{
    if count == 0 {
        Reading::Faulty
    } else if number <= 255 {
        Reading::Character(number as u8, start + count)
    } else {
        Reading::Faulty
    }
}

/// The escape whose backslash stands before these bytes (C99 6.4.4.4).
fn escape_at(bytes: &[u8]) -> Reading
    ensures reading { result ≡ read_escape bytes.now }
    ensures within { IsWithin (length bytes.now + 1) result }
{
    match bytes {
        [] => Reading::Faulty,
        [letter, digits @ ..] => {
            if is_octal(*letter) {
                let (number, count) = digits_front(Radix::Octal, &bytes[..bytes.len().min(3)]);
                coded(number, count, 1)
            } else if *letter == b'x' {
                let (number, count) = digits_front(Radix::Hexadecimal, digits);
                coded(number, count, 2)
            } else {
                match simple_escape(*letter) {
                    Some(value) => Reading::Character(value, 2),
                    None => Reading::Faulty,
                }
            }
        }
    }
}

/// What stands at the front of the rest of a literal in such quotes.
fn character_at(quote: u8, text: &[u8]) -> Reading
    ensures reading { result ≡ read_character quote text.now }
    ensures within { IsWithin (length text.now) result }
{
    match text {
        [] => Reading::Faulty,
        [b, rest @ ..] => {
            if *b == quote {
                Reading::Closing
            } else if *b == b'\n' {
                Reading::Faulty
            } else if *b == b'\\' {
                escape_at(rest)
            } else {
                Reading::Character(*b, 1)
            }
        }
    }
}

/// The values of the literal whose opening quote stands before the text, and how many bytes its inside
/// has.
fn inside_at(alloc: Global, quote: u8, text: &[u8]) -> Result<Option<(Vec<u8>, usize)>, NoMemory>
    ensures { IfOk result (λ found. MatchOption found (IsNeverClosed quote text.now)
        (λ p. IsClosedBehind quote text.now p.0.items p.1)) }
{
    let mut values = Vec::new(alloc);
    let mut left = text;
    loop {
        match character_at(quote, left) {
            Reading::Character(value, length) => {
                values.push(value)?;
                left = &left[length..];
            }
            Reading::Closing => return Ok(Some((values, text.len() - left.len()))),
            Reading::Faulty => return Ok(None),
        }
    }
}

/// A byte read as a signed char.
fn signed(value: u8) -> i32
    ensures { result ≡ twos_complement 1 value }
{
    if value < 128 {
        i32::from(value)
    } else {
        i32::from(value) - 256
    }
}

/// The character constant or string literal that begins the rest (C99 6.4.4.4, 6.4.5), and None where
/// it isn't closed, an escape is unknown or its value above 255, or a character constant doesn't hold one
/// character.
pub(crate) fn quote_at(alloc: Global, rest: &[u8]) -> Result<Option<(usize, Scanned)>, NoMemory>
    requires { (b : ℕ) × (others : List ℕ) × (rest.now ≡ b ∷ others) × ((b ≡ apostrophe) ⊎ (b ≡ double_quote)) }
    ensures { (fresh : Bool) → IsScan fresh rest.now result }
{
    let [quote, text @ ..] = rest else {
        return Ok(None);
    };
    let Some((values, length)) = inside_at(alloc, *quote, text)? else {
        return Ok(None);
    };
    if *quote == b'"' {
        let text = new_name(alloc, values)?;
        return Ok(Some((length + 2, Scanned::Token(TokenKind::Text(text)))));
    }
    if values.len() != 1 {
        return Ok(None);
    }
    Ok(Some((
        length + 2,
        Scanned::Token(TokenKind::Number {
            value: signed(values[0]),
            unsigned: false,
        }),
    )))
}
