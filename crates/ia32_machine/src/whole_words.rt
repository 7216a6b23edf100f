ghost use Rattle.std.specs.Prelude.{◌≡◌};
ghost use Rattle.std.specs.List.{AllByRecursion};
ghost use Rattle.ia32_insn.specs.Arithmetic as arithmetic;

/// The lowest 32 bits of the product, signed or not (IMUL).
#[inline]
pub fn product(a: u32, b: u32) -> u32
    ensures { result ≡ arithmetic.product a b }
{
    a.wrapping_mul(b)
}

/// Every bit turned over (NOT).
#[inline]
pub fn complement(a: u32) -> u32
    ensures { result ≡ arithmetic.complement a }
{
    !a
}

/// The difference of 0 and the word (NEG).
#[inline]
pub fn negation(a: u32) -> u32
    ensures { result ≡ arithmetic.negation a }
{
    a.wrapping_neg()
}

/// The sign bit in every bit (CDQ).
#[inline]
pub fn sign_word(a: u32) -> u32
    ensures { result ≡ arithmetic.sign_word a }
{
    if a >= 1 << 31 { u32::MAX } else { 0 }
}

/// A byte as a signed number, in 32 bits (MOVSX).
#[inline]
pub fn sign_extend8(n: u8) -> u32
    ensures { result ≡ arithmetic.extended8 n }
{
    i32::from(n.cast_signed()).cast_unsigned()
}

/// Two bytes as a signed number, in 32 bits (MOVSX).
#[inline]
pub fn sign_extend16(n: u16) -> u32
    ensures { result ≡ arithmetic.extended16 n }
{
    i32::from(n.cast_signed()).cast_unsigned()
}
