ghost use Rattle.std.specs.Prelude.{◌≡◌};
ghost use Rattle.ia32_insn.specs.Arithmetic.{divided, signed_divided};

/// The quotient and the remainder (Intel manual, volume 2: DIV). `None` where the divisor is 0, and
/// where the quotient has more than 32 bits.
pub fn divide(dividend: u64, divisor: u32) -> Option<(u32, u32)>
    ensures { result ≡ divided dividend divisor }
{
    if divisor == 0 {
        return None;
    }
    let divisor = u64::from(divisor);
    let quotient = u32::try_from(dividend / divisor).ok()?;
    Some((quotient, (dividend % divisor) as u32))
}

/// The quotient and the remainder of signed numbers, of which the quotient is cut off towards zero
/// (Intel manual, volume 2: IDIV). `None` where the divisor is 0, and where the quotient doesn't fit 32
/// bits.
pub fn divide_signed(dividend: u64, divisor: u32) -> Option<(u32, u32)>
    ensures { result ≡ signed_divided dividend divisor }
{
    if divisor == 0 {
        return None;
    }
    let dividend = dividend.cast_signed();
    let divisor = i64::from(divisor.cast_signed());
    let quotient = i32::try_from(dividend.checked_div(divisor)?).ok()?;
    let remainder = (dividend % divisor) as i32;
    Some((quotient.cast_unsigned(), remainder.cast_unsigned()))
}
