ghost use Rattle.std.specs.Prelude.{◌≡◌, ◌≤◌, ◌<◌, IsTrue, IsFalse, MatchOption};
ghost use Rattle.c_lex.specs.Bytes.{digit_worth};
ghost use Rattle.c_lex.specs.Radixes.{base_of, is_digit_of};

/// The base of an integer constant (C99 6.4.4.1).
#[derive(Clone, Copy)]
pub enum Radix {
    Octal,
    Decimal,
    Hexadecimal,
}

/// The base as a number.
pub(crate) fn base_in(radix: Radix) -> u64
    ensures value { result ≡ base_of radix }
    ensures small { result ≤ 16 }
{
    match radix {
        Radix::Octal => 8,
        Radix::Decimal => 10,
        Radix::Hexadecimal => 16,
    }
}

/// What a digit of a base is worth, and None where the byte is no digit of it.
pub(crate) fn worth_of(radix: Radix, b: u8) -> Option<u64>
    ensures { MatchOption result (IsFalse (is_digit_of radix b)) (λ worth. IsTrue (is_digit_of radix b)
        × (worth ≡ digit_worth b) × (worth < 16)) }
{
    match (radix, b) {
        (_, b'0'..=b'7') => Some(u64::from(b - b'0')),
        (Radix::Decimal | Radix::Hexadecimal, b'8' | b'9') => Some(u64::from(b - b'0')),
        (Radix::Hexadecimal, b'A'..=b'F') => Some(u64::from(b - b'A') + 10),
        (Radix::Hexadecimal, b'a'..=b'f') => Some(u64::from(b - b'a') + 10),
        _ => None,
    }
}
